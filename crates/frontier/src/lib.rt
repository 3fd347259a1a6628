// The queue of a search: places by their keys, the greatest first. One list holds a tree: three
// levels of the greatest of each group of eight below, then the keys. A raise costs four stores, a
// removal a look at four groups.
#![tactic(auto)]

ghost use Rattle.std.specs.Prelude.{◌≡◌, ◌+◌, ◌*◌, ◌/◌, ◌^◌, ◌≤◌, ◌<◌, max, length};
ghost use Rattle.lists.specs.Lists.{entry};
ghost use Rattle.frontier.specs.Frontier.{Frontier, places, key_at, Small, Raises, Removes, Now};
ghost use Rattle.frontier.specs.Queues;
ghost use Rattle.frontier.specs.Queues.{Queued, Empty, Pops};
ghost use Rattle.frontier.specs.Groups.{Run, Regrouped, Lifted};

// How many entries stand at the top, one for 512 places.
const TOPS: usize = 4;

// A key tells its place by its remainder, so there are at most this many places.
pub const PLACES: u64 = 512 * (TOPS as u64);

// Where the levels begin. The top stands at the end of the first group, and what is before it stays
// 0; then come eight entries for each at the top, then 64, then the keys.
const THREES: usize = 8 - TOPS;

const TWOS: usize = 8;

const ONES: usize = TWOS + 8 * TOPS;

pub const KEYS: usize = ONES + 64 * TOPS;

const SIZE: usize = KEYS + PLACES as usize;

// The tree, and the greatest key of all. The levels stand in one array, so that one law serves all. That
// they are a tree is asked by clauses (`Queued`): as a ghost field it was tried, and is no proposition.
#[derive(Drop)]
pub struct Queue {
    entries: [u64; SIZE],
    top: u64,
}

impl Queue {
    // Nothing waits.
    pub fn new() -> Queue
        ensures { Empty result }
    {
        Queue {
            entries: [0; SIZE],
            top: 0,
        }
    }

    // Takes out every place.
    pub fn clear(&mut self)
        ensures { Empty self.new }
    {
        *self = Queue::new();
    }

    // Sets the key of v to the larger of its key and this one.
    pub fn raise(&mut self, v: usize, key: u64)
        requires { Queues.Raises self.old v key }
        ensures { Queues.Now self.old v (max (key_at self.old.entries v) key) self.new }
    {
        self.top = raise(&mut self.entries, self.top, v, key);
    }

    // Takes out the place with the greatest key, if one waits.
    pub fn pop(&mut self) -> Option<usize>
        requires { Queued self.old }
        ensures { Pops self.old result self.new }
    {
        if self.top == 0 {
            return None;
        }
        let v = (self.top % PLACES) as usize;
        self.remove(v);
        Some(v)
    }

    // Takes v out of the queue.
    pub fn remove(&mut self, v: usize)
        requires tree { Frontier self.old.entries }
        requires within { v < places }
        ensures { Queues.Now self.old v 0 self.new }
    {
        self.top = remove(&mut self.entries, v);
    }
}

// Sets the key of v to the larger of its key and this one, where top is the greatest key; the
// greatest key then.
pub fn raise(queue: &mut [u64], top: u64, v: usize, key: u64) -> u64
    requires { Raises queue.old top v key }
    ensures { Now queue.old v (max (key_at queue.old v) key) queue.new result }
{
    lift(queue, KEYS + v, key);
    lift(queue, ONES + v / 8, key);
    lift(queue, TWOS + v / 8 / 8, key);
    lift(queue, THREES + v / 8 / 8 / 8, key);
    larger(top, key)
}

// Takes v out of the queue; the greatest key that is left, or 0.
pub fn remove(queue: &mut [u64], v: usize) -> u64
    requires { Removes queue.old v }
    ensures { Now queue.old v 0 queue.new result }
{
    let one = regroup(queue, KEYS + v, 0);
    let two = regroup(queue, ONES + v / 8, one);
    let three = regroup(queue, TWOS + v / 8 / 8, two);
    regroup(queue, THREES + v / 8 / 8 / 8, three)
}

// The larger of two. They are compared with a sign, which takes the machine fewer steps: with `max`
// whole queries take 10 to 39 in a hundred longer.
fn larger(x: u64, y: u64) -> u64
    requires { (x < 2 ^ 63) × (y < 2 ^ 63) }
    ensures { result ≡ max x y }
{
    if (x as i64) < (y as i64) { y } else { x }
}

// Makes the entry at i no less than key.
fn lift(queue: &mut [u64], i: usize, key: u64)
    requires { (i < length queue.old) × Small queue.old × (key < 2 ^ 63) }
    ensures lifted { Lifted queue.old i key queue.new }
    ensures small { Small queue.new }
{
    queue[i] = larger(queue[i], key);
}

// Puts x at a, and returns the greatest of its group: the other seven do not wait for x.
fn regroup(queue: &mut [u64], a: usize, x: u64) -> u64
    requires { (a / 8 * 8 + 8 ≤ length queue.old) × Small queue.old × (x < 2 ^ 63) }
    ensures regrouped { Regrouped queue.old a x queue.new result }
    ensures small { Small queue.new × (result < 2 ^ 63) }
{
    queue[a] = 0;
    let others = best8(queue, a / 8 * 8);
    queue[a] = x;
    larger(others, x)
}

// The greatest of the eight from a on.
fn best8(queue: &[u64], a: usize) -> u64
    requires { (a + 8 ≤ length queue.now) × Small queue.now }
    ensures run { Run (entry queue.now) a (a + 8) result }
    ensures upper_bound { result < 2 ^ 63 }
{
    let mut best = queue[a];
    for i in a + 1..a + 8 {
        best = larger(best, queue[i]);
    }
    best
}
