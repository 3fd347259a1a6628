// The tests of a question before any road is followed: those that several entries share, and each
// entry's own order up to the records. The four orders are alike and stay four, since a reader holds
// each against the paper's list; one function of a list of tests would hide it. The tests before the
// records are a few comparisons and are worked out even where an earlier one fails: with a return after
// each, the compiler takes the loops behind them for rarely reached, and a drive or a profile takes a
// quarter longer and more.
#![tactic(auto)]

ghost use Rattle.std.specs.Prelude.{◌≡◌};
ghost use Rattle.numbers.specs.Signed.{draw};
ghost use Rattle.refusals.specs.Order.{first};
ghost use Rattle.battery.specs.Drive.{fresh};
ghost use Rattle.network.specs.Check.{records_fault};
ghost use Rattle.promises.specs.Order.{is_battery, is_start, battery_of, battery_fault, energy_fault, junction_fault, room_fault, length_fault};
ghost use Rattle.promises.specs.Order.{plan_fault, drive_asked, profile_asked, set_off_fault};
ghost use Rattle.promises.specs.Passed.{Whole};

use battery::{Battery, MOST_BATTERY, Van};
use promises::{DriveQuestion, PlanQuestion, ProfileQuestion, SetOffQuestion};
use refusals::{Refusal, unless};

// Best route: 1 to 6, then the records.
#[tactic(auto, unfolding(promises::specs::Order::plan_fault))]
pub fn check_plan(
    nodes: &[u8],
    roads: &[u8],
    question: PlanQuestion,
    room: usize,
) -> Result<(), Refusal>
    ensures { result ≡ plan_fault nodes.now roads.now question room }
{
    let most = (nodes.len() / network::JUNCTION_BYTES).saturating_sub(1);
    let list = check_room(most, room);
    let target = check_junction(nodes, question.target).and(list);
    let source = check_junction(nodes, question.source).and(target);
    let energy = check_energy(question.battery, question.start).and(source);
    network::check_files(nodes, roads).and(energy)?;
    network::check_records(nodes, roads)
}

// Drive: 1, 2, 3, 4, 5 (source), 11, then the records.
pub fn check_drive(
    nodes: &[u8],
    roads: &[u8],
    question: DriveQuestion,
    entries: usize,
) -> Result<(), Refusal>
    ensures { result ≡ first (drive_asked nodes.now roads.now question entries) (records_fault nodes.now roads.now) }
{
    let source = check_junction(nodes, question.source).and(check_length(entries));
    let energy = check_energy(question.battery, question.start).and(source);
    network::check_files(nodes, roads).and(energy)?;
    network::check_records(nodes, roads)
}

// Profile: 1, 2, 3, 5 (source), 11, then the records.
pub fn check_profile(
    nodes: &[u8],
    roads: &[u8],
    question: ProfileQuestion,
    entries: usize,
) -> Result<(), Refusal>
    ensures { result ≡ first (profile_asked nodes.now roads.now question entries) (records_fault nodes.now roads.now) }
{
    let source = check_junction(nodes, question.source).and(check_length(entries));
    let battery = check_battery(question.battery).and(source);
    network::check_files(nodes, roads).and(battery)?;
    network::check_records(nodes, roads)
}

// The charges to set off with: 1, 2, 3, 5 (depot), 6, then the records.
#[tactic(auto, unfolding(promises::specs::Order::set_off_fault))]
pub fn check_set_off(
    nodes: &[u8],
    roads: &[u8],
    question: SetOffQuestion,
    room: usize,
) -> Result<(), Refusal>
    ensures { result ≡ set_off_fault nodes.now roads.now question room }
{
    let list = check_room(nodes.len() / network::JUNCTION_BYTES, room);
    let depot = check_junction(nodes, question.depot).and(list);
    let battery = check_battery(question.battery).and(depot);
    network::check_files(nodes, roads).and(battery)?;
    network::check_records(nodes, roads)
}

// The van that sets out, once 3 and 4 have passed.
pub fn van_of(battery: i64, start: i64) -> Van
    requires { Whole battery × Whole start }
    ensures { result ≡ fresh (battery_of battery) (draw start) }
{
    Van::new(battery_of(battery), numbers::whole(start))
}

// The battery, once 3 has passed.
pub fn battery_of(battery: i64) -> Battery
    requires { Whole battery }
    ensures { result ≡ battery_of battery }
{
    Battery {
        size: numbers::whole(battery),
    }
}

// 3, 4.
fn check_energy(size: i64, start: i64) -> Result<(), Refusal>
    ensures { result ≡ energy_fault size start }
{
    check_battery(size).and(unless(is_start(size, start), Refusal::Start))
}

// 3.
fn check_battery(battery: i64) -> Result<(), Refusal>
    ensures { result ≡ battery_fault battery }
{
    unless(is_battery(battery), Refusal::Battery)
}

// 5.
fn check_junction(nodes: &[u8], v: u64) -> Result<(), Refusal>
    ensures { result ≡ junction_fault nodes.now v }
{
    unless(
        v < (nodes.len() / network::JUNCTION_BYTES) as u64,
        Refusal::NoJunction,
    )
}

// 6: a list of `room` entries is to have room for `most`.
fn check_room(most: usize, room: usize) -> Result<(), Refusal>
    ensures { result ≡ room_fault most room }
{
    unless(most <= room, Refusal::ShortList)
}

// 11.
fn check_length(entries: usize) -> Result<(), Refusal>
    ensures { result ≡ length_fault entries }
{
    unless(entries <= routes::MOST_ENTRIES, Refusal::LongRoute)
}

fn is_battery(battery: i64) -> bool
    ensures { result ≡ is_battery battery }
{
    (1..=MOST_BATTERY).contains(&battery)
}

fn is_start(battery: i64, start: i64) -> bool
    ensures { result ≡ is_start battery start }
{
    (0..=battery).contains(&start)
}
