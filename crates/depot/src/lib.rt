// The charge to set off with: for one depot and one battery size, the least charge of every junction
// from which some walk to the depot is feasible. Like the planner's entries it takes any bytes and
// any numbers, asks nothing of its caller, and ends with its answer or with one numbered refusal.
#![tactic(auto)]

ghost use Rattle.std.specs.Prelude.{◌≡◌};
ghost use Rattle.promises.specs.Given.{check_numbers};
ghost use Rattle.promises.specs.Promises.{Numbered, SetsOff};
ghost use Rattle.reading.specs.Reading.{charge_of};
ghost use Rattle.depot.specs.Filling.{FillAsks, WriteAsks, Written, ChargeAsks};

use battery::Battery;
use promises::SetOffQuestion;
use reading::{Reading, Sense};
use refusals::Refusal;
use search::{Lists, Map};

// Writes one number for each junction at the front of the list: the least charge to set off with,
// and -1 where no charge up to a full battery does.
pub fn set_off(
    nodes: &[u8],
    roads: &[u8],
    question: SetOffQuestion,
    list: &mut [i32],
) -> Result<(), Refusal>
    ensures { SetsOff nodes.now roads.now question list.old (check_numbers result) list.new }
{
    orders::check_set_off(nodes, roads, question, list.len())?;
    let battery = orders::battery_of(question.battery);
    fill(nodes, roads, battery, question.depot as usize, list);
    Ok(())
}

// The search from the depot over roads read backward, and the numbers that its labels tell. It sets
// out at full slack: at the depot nothing is needed.
fn fill(nodes: &[u8], roads: &[u8], battery: Battery, depot: usize, list: &mut [i32])
    requires { FillAsks nodes.now roads.now battery depot list.old }
    ensures { Numbered nodes.now roads.now battery depot list.old list.new }
{
    let mut lists = Lists::new();
    let map = Map {
        nodes,
        roads,
        reading: Reading {
            sense: Sense::Backward,
            battery,
        },
    };
    lists.label_all(map, depot, battery.size + 1);
    write_charges(
        battery,
        &lists.labels,
        nodes.len() / network::JUNCTION_BYTES,
        list,
    );
}

// The charges of the first labels, at the front of the list.
fn write_charges(battery: Battery, labels: &[u32], count: usize, list: &mut [i32])
    requires { WriteAsks battery labels.now count list.old }
    ensures { Written battery labels.now count list.old list.new }
{
    for (v, label) in labels[..count].iter().enumerate() {
        list[v] = charge_of(battery, *label);
    }
}

// The charge that a label tells: the battery size less the slack, and -1 where there is no label, since
// the list is C's.
fn charge_of(battery: Battery, label: u32) -> i32
    requires { ChargeAsks battery label }
    ensures { result ≡ charge_of battery label }
{
    if label == 0 {
        -1
    } else {
        (battery.size + 1 - label) as i32
    }
}
