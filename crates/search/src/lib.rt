// The search for the best label of each junction. A label is an amount plus one, and 0 is none.
#![tactic(auto)]

ghost use Rattle.std.specs.Prelude.{◌≡◌, ◌+◌, ◌^◌, ◌<◌, cond, ltb};
ghost use Rattle.network.specs.Files.{most_roads, junctions, road_count};
ghost use Rattle.reading.specs.Reading.{psi, net};
ghost use Rattle.search.specs.Chains.{linked, last_of, previous_of, Chained, ChainAsks};
ghost use Rattle.search.specs.Searches.{SetsOut, Fresh, Forgotten, ExploreAsks, Explored, Labels};
ghost use Rattle.search.specs.Sizes.{most_places};
ghost use Rattle.search.specs.Steps.{packed, KeyAsks, OfferAsks, Offered, RelaxAsks, RelaxKeeps, SpreadAsks, SpreadKeeps};

use frontier::Queue;
use reading::Reading;

// A network and how its roads are read.
#[derive(Clone, Copy)]
pub struct Map<'a> {
    pub nodes: &'a [u8],
    pub roads: &'a [u8],
    pub reading: Reading,
}

impl Map<'_> {
    // How many roads there are.
    pub fn count(self) -> usize
        ensures { result ≡ road_count self.entry.roads.now }
    {
        self.roads.len() / network::ROAD_BYTES
    }

    // Where road k is entered.
    pub fn entered(self, k: usize) -> usize
        requires { k < road_count self.roads.now }
        ensures { result ≡ (net self.entry.reading self.entry.roads.now).roads.tail k }
    {
        self.reading.entered(network::road_at(self.roads, k))
    }

    // Where road k is left.
    pub fn left(self, k: usize) -> usize
        requires { k < road_count self.roads.now }
        ensures { result ≡ (net self.entry.reading self.entry.roads.now).roads.head k }
    {
        self.reading.left(network::road_at(self.roads, k))
    }

    // The key of junction v with this label: label and number of the junction together, and the place.
    fn key(self, v: usize, label: u32) -> u64
        requires { KeyAsks self.nodes.now v }
        ensures value { result ≡ packed (label + psi self.entry.reading self.entry.nodes.now v) v }
        ensures upper_bound { result < 2 ^ 63 }
    {
        let number = self.reading.psi(network::potential_at(self.nodes, v));
        (label as u64 + number as u64) * frontier::PLACES + v as u64
    }
}

// From where a search sets out and with what label, and the junction where it may stop. A target
// that is no junction never stops it, and then every label is the best: an `Option` would be taken
// apart by every trip that has one.
#[derive(Clone, Copy)]
pub struct Trip {
    pub source: usize,
    pub label: u32,
    pub target: usize,
}

// What a road brings: its number, the label and the key.
#[derive(Clone, Copy)]
struct Offer {
    road: u16,
    label: u32,
    key: u64,
}

// How long the lists are: a place for each junction, for its label, its key and the head of its
// chain; and a way for each place.
pub const MOST_PLACES: usize = network::MOST_JUNCTIONS;

pub const MOST_WAYS: usize = MOST_PLACES;

// The chains have a link for each road besides.
pub const CHAINS: usize = MOST_PLACES + network::MOST_ROADS;

// The lists of a search: the chains of the roads, for each junction its label and its way (the road by
// which the label came), and the queue. All searches of a query share one set. A label of 0 is none, as
// in the queue and the chains: memory is fixed, and an `Option` takes twice the room. Labels and ways are
// apart, since together they take a third more, and the chains are links by number, since there is no heap.
#[derive(Drop)]
pub struct Lists {
    pub chains: [u16; CHAINS],
    pub labels: [u32; MOST_PLACES],
    pub ways: [u16; MOST_WAYS],
    pub queue: Queue,
}

impl Lists {
    // No road on a chain, no label, no key.
    pub fn new() -> Lists
        ensures { Fresh result }
    {
        Lists {
            chains: [0; CHAINS],
            labels: [0; MOST_PLACES],
            ways: [0; MOST_WAYS],
            queue: Queue::new(),
        }
    }

    // The best label of every junction, of all walks from the source with this label; 0 where none comes
    // there.
    pub fn label_all(&mut self, map: Map, source: usize, label: u32)
        requires { SetsOut map.reading map.nodes.now map.roads.now source label }
        ensures { Labels (net map.entry.reading map.entry.roads.now) source label self.new.labels }
    {
        let trip = Trip {
            source,
            label,
            target: MOST_PLACES,
        };
        self.clear();
        self.seek(map, trip);
    }

    // One search, in lists with no road on a chain, no label and no key.
    pub fn seek(&mut self, map: Map, trip: Trip)
        requires sets_out { SetsOut map.reading map.nodes.now map.roads.now trip.source trip.label }
        requires fresh { Fresh self.old }
        ensures { Explored (net map.entry.reading map.entry.roads.now) (junctions map.entry.nodes.now) trip self.new }
    {
        chain(map, &mut self.chains);
        self.explore(map, trip);
    }

    // Takes every road off its chain, every label away and every place out of the queue.
    pub fn clear(&mut self)
        ensures { Fresh self.new }
    {
        self.forget();
        self.queue.clear();
    }

    // Takes every road off its chain and every label away.
    pub fn forget(&mut self)
        ensures { Forgotten self.old self.new }
    {
        self.chains[..MOST_PLACES].fill(0);
        self.labels.fill(0);
    }

    // The last road on the chain of junction u.
    pub fn last(&self, u: usize) -> Option<usize>
        requires { u < most_places }
        ensures { result ≡ linked (last_of self.now.chains u) }
    {
        linked(self.chains[u])
    }

    // The road before road k on its chain.
    pub fn previous(&self, k: usize) -> Option<usize>
        requires { k < most_roads }
        ensures { result ≡ linked (previous_of self.now.chains k) }
    {
        linked(self.chains[MOST_PLACES + k])
    }

    // Settles one junction after another, the greatest key first, until the target is settled or none
    // waits.
    fn explore(&mut self, map: Map, trip: Trip)
        requires { ExploreAsks map.reading map.nodes.now map.roads.now trip self.old }
        ensures { Explored (net map.entry.reading map.entry.roads.now) (junctions map.entry.nodes.now) trip self.new }
    {
        let source = trip.source;
        self.labels[source] = trip.label;
        self.queue.raise(source, map.key(source, trip.label));
        while let Some(u) = self.queue.pop() {
            if u == trip.target {
                return;
            }
            self.spread(map, u);
        }
    }

    // Relaxes the roads that are entered at u, which was settled last. An iterator over them would hold
    // the lists while labels change.
    fn spread(&mut self, map: Map, u: usize)
        requires { SpreadAsks map.reading map.nodes.now map.roads.now u self.old }
        ensures { SpreadKeeps map.entry.reading map.entry.nodes.now map.entry.roads.now u self.old self.new }
    {
        let label = self.labels[u];
        let mut road = self.last(u);
        while let Some(k) = road {
            self.relax(map, k, label);
            road = self.previous(k);
        }
    }

    // Offers road k's end what the road brings from this label.
    fn relax(&mut self, map: Map, k: usize, label: u32)
        requires { RelaxAsks map.reading map.nodes.now map.roads.now k label self.old }
        ensures { RelaxKeeps map.entry.reading map.entry.nodes.now map.entry.roads.now k label self.old self.new }
    {
        let road = network::road_at(map.roads, k);
        let v = map.reading.left(road);
        let brings = map.reading.step(road, label);
        let offer = Offer {
            road: k as u16,
            label: brings,
            key: map.key(v, brings),
        };
        self.take(v, offer);
    }

    // Takes the offer to v where it betters the label. There is no branch, since which it is cannot be
    // foretold.
    fn take(&mut self, v: usize, offer: Offer)
        requires { OfferAsks self.old v offer }
        ensures { Offered self.old v offer self.new }
    {
        let old = self.labels[v];
        self.labels[v] = if_better(old, offer, offer.label, old);
        self.ways[v] = if_better(old, offer, offer.road, self.ways[v]);
        self.queue.raise(v, if_better(old, offer, offer.key, 0));
    }
}

// Chains the roads: for each junction the last road entered there, for each road the previous one
// entered at the same junction, each plus one, 0 for none.
pub fn chain(map: Map, chains: &mut [u16; CHAINS])
    requires { ChainAsks (net map.reading map.roads.now).roads chains.old }
    ensures { Chained (net map.entry.reading map.entry.roads.now).roads (road_count map.entry.roads.now) chains.new }
{
    for k in 0..map.count() {
        let v = map.entered(k);
        chains[MOST_PLACES + k] = chains[v];
        chains[v] = (k + 1) as u16;
    }
}

// The road that an entry of the chains tells: the entries are numbers of 16 bits, since memory is fixed.
fn linked(entry: u16) -> Option<usize>
    ensures { result ≡ linked entry }
{
    (entry as usize).checked_sub(1)
}

// The first of two where the offer betters the label, the second else.
fn if_better<T: Copy>(old: u32, offer: Offer, taken: T, passed: T) -> T
    ensures { result ≡ cond (ltb old offer.label) taken passed }
{
    if old < offer.label { taken } else { passed }
}
