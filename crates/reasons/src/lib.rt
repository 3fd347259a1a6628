// Why there is no route, in the lists of the search that found none.
#![tactic(auto)]

ghost use Rattle.journeys.specs.Reasons.{Reason};
ghost use Rattle.walks.specs.Label.{Best};
ghost use Rattle.reading.specs.Reading.{net};
ghost use Rattle.reasons.specs.Asks.{ReasonAsks, AgainAsks};
ghost use Rattle.reasons.specs.Marks.{LeadAsks, Leads, ReachAsks, Reaches, MarkAsks, Marks};

use reading::{Reading, Sense};
use refusals::Refusal;
use search::{Lists, Map, Trip};

// Why no walk of the trip is feasible: a search back from its target for the least charge to set off
// with; where no charge does, whether roads join the source to the target.
pub fn reason(map: Map, trip: Trip, lists: &mut Lists) -> Refusal
    requires { ReasonAsks map.reading.battery map.nodes.now map.roads.now trip }
    ensures { Reason map.entry.reading.battery map.entry.roads.now trip.source trip.target result }
{
    let battery = map.reading.battery;
    let backward = Map {
        reading: Reading {
            sense: Sense::Backward,
            battery,
        },
        ..map
    };
    let back = Trip {
        source: trip.target,
        label: battery.size + 1,
        target: trip.source,
    };
    let slack = seek_again(backward, back, lists);
    if 0 < slack {
        return Refusal::MoreCharge(battery.size + 1 - slack);
    }
    if leads(backward, back, lists) {
        Refusal::NeverEnough
    } else {
        Refusal::NotJoined
    }
}

// Another search, in the lists of the one before: the best label of the target.
fn seek_again(map: Map, trip: Trip, lists: &mut Lists) -> u32
    requires { AgainAsks map.reading map.nodes.now map.roads.now trip }
    ensures { Best (net map.entry.reading map.entry.roads.now) trip.source trip.label trip.target result }
{
    lists.clear();
    lists.seek(map, trip);
    lists.labels[trip.target]
}

// Whether roads, so read, lead from the trip's source to its target, whatever they take.
fn leads(map: Map, trip: Trip, lists: &mut Lists) -> bool
    requires { LeadAsks (net map.reading map.roads.now).roads trip }
    ensures { Leads (net map.entry.reading map.entry.roads.now).roads trip.source trip.target result }
{
    lists.forget();
    search::chain(map, &mut lists.chains);
    reach(map, trip.source, lists);
    0 < lists.labels[trip.target]
}

// Marks with the label 1 every junction that roads, so read, lead to from the source. The ways list
// the junctions that are marked; the roads of the first ones are followed. The list grows as it is
// read, so no `for` goes over it; it has no memory of its own, so it is no `ArrayVec`.
fn reach(map: Map, source: usize, lists: &mut Lists)
    requires { ReachAsks (net map.reading map.roads.now).roads source lists.old }
    ensures { Reaches (net map.entry.reading map.entry.roads.now).roads source lists.new.labels }
{
    lists.labels[source] = 1;
    lists.ways[0] = source as u16;
    let mut last = 1;
    let mut first = 0;
    while first < last {
        let u = lists.ways[first] as usize;
        last = mark(map, u, last, lists);
        first += 1;
    }
}

// Marks the junctions where the roads that are entered at u are left, and lists them from `last` on.
fn mark(map: Map, u: usize, last: usize, lists: &mut Lists) -> usize
    requires { MarkAsks (net map.reading map.roads.now).roads u last lists.old }
    ensures { Marks (net map.entry.reading map.entry.roads.now).roads u 0 last lists.old result lists.new }
{
    let mut end = last;
    let mut road = lists.last(u);
    while let Some(k) = road {
        let v = map.left(k);
        if lists.labels[v] == 0 {
            lists.labels[v] = 1;
            lists.ways[end] = v as u16;
            end += 1;
        }
        road = lists.previous(k);
    }
    end
}
