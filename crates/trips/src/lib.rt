// One trip: the best route, or why there is none. All searches of a trip share one set of lists.
#![tactic(auto)]

ghost use Rattle.reading.specs.Reading.{net};
ghost use Rattle.trips.specs.Asks.{FindAsks};
ghost use Rattle.trips.specs.Found.{Finds};
ghost use Rattle.trips.specs.Ways.{Trailed, Counted, WriteAsks, Written};

use battery::Battery;
use reading::{Reading, Sense};
use refusals::Refusal;
use search::{Lists, Map, Trip};

// The best route from the trip's source to its target, written at the front of the list, and how many
// roads it has; or why there is none.
#[tactic(auto, using(crate::proofs::Finding::finds_nowhere))]
pub fn find(
    nodes: &[u8],
    roads: &[u8],
    battery: Battery,
    trip: Trip,
    list: &mut [u16],
) -> Result<usize, Refusal>
    requires { FindAsks battery nodes.now roads.now trip list.old }
    ensures { Finds battery nodes.now roads.now trip list.old result list.new }
{
    let mut lists = Lists::new();
    let map = Map {
        nodes,
        roads,
        reading: Reading {
            sense: Sense::Forward,
            battery,
        },
    };
    lists.seek(map, trip);
    if lists.labels[trip.target] == 0 {
        return Err(reasons::reason(map, trip, &mut lists));
    }
    let count = count_back(map, trip, &lists.ways);
    write_back(map, trip, &lists.ways, count, list);
    Ok(count)
}

// How many roads lead back by the ways from the target to the source. How many steps the walk has is
// what it finds out, so it is no `for`.
fn count_back(map: Map, trip: Trip, ways: &[u16]) -> usize
    requires { Trailed (net map.reading map.roads.now).roads ways.now trip.source trip.target }
    ensures { Counted (net map.entry.reading map.entry.roads.now).roads ways.now trip.source trip.target result }
{
    let source = trip.source;
    let mut v = trip.target;
    let mut count = 0;
    while v != source {
        let k = ways[v];
        v = map.entered(k as usize);
        count += 1;
    }
    count
}

// Writes them at the front of the list, the last one first.
fn write_back(map: Map, trip: Trip, ways: &[u16], count: usize, list: &mut [u16])
    requires { WriteAsks (net map.reading map.roads.now).roads ways.now trip.source trip.target count list.old }
    ensures { Written (net map.entry.reading map.entry.roads.now).roads ways.now trip.source trip.target list.old list.new }
{
    let mut v = trip.target;
    for i in (0..count).rev() {
        let k = ways[v];
        list[i] = k;
        v = map.entered(k as usize);
    }
}
