// The two files: the junctions' potentials and the roads, read straight from the lent bytes, and
// the check of a network. They are lent as two slices and not as one struct: 13 functions read one of
// them alone, 15 both (C's and the programs' aside), and a clause says `nodes.now` where it would say
// `network.entry.nodes.now`.
#![tactic(auto)]

ghost use Rattle.std.specs.Prelude.{◌≡◌, ◌<◌, ◌-ℤ◌, ◌+ℤ◌};
ghost use Rattle.network.specs.Files.{junctions, road_count, road_of, potential, junction_file, road_file, in_range, passes};
ghost use Rattle.network.specs.Check.{files_fault, road_fault, potential_fault, record_fault, records_fault, check_fault};

use battery::Road;
use refusals::Refusal;

// The records of the two files, and how many there may be.
pub const JUNCTION_BYTES: usize = 4;

pub const ROAD_BYTES: usize = 8;

pub const MOST_JUNCTIONS: usize = 2048;

pub const MOST_ROADS: usize = 8192;

// Network check: 1, 2, then the records.
#[tactic(auto, unfolding(crate::specs::Check::check_fault))]
pub fn check(nodes: &[u8], roads: &[u8]) -> Result<(), Refusal>
    ensures { result ≡ check_fault nodes.now roads.now }
{
    check_files(nodes, roads)?;
    check_records(nodes, roads)
}

// The sizes of the two files: 1, 2.
pub fn check_files(nodes: &[u8], roads: &[u8]) -> Result<(), Refusal>
    ensures { result ≡ files_fault nodes.now roads.now }
{
    let junctions = refusals::unless(is_junction_file(nodes), Refusal::JunctionFile);
    junctions.and(refusals::unless(is_road_file(roads), Refusal::RoadFile))
}

// 1 to 2,048 whole records.
fn is_junction_file(nodes: &[u8]) -> bool
    ensures { result ≡ junction_file nodes.now }
{
    nodes.len() > 0
        && nodes.len() % JUNCTION_BYTES == 0
        && nodes.len() / JUNCTION_BYTES <= MOST_JUNCTIONS
}

// 0 to 8,192 whole records.
fn is_road_file(roads: &[u8]) -> bool
    ensures { result ≡ road_file roads.now }
{
    roads.len() % ROAD_BYTES == 0 && roads.len() / ROAD_BYTES <= MOST_ROADS
}

// The records in file order; the first that fails stops the check. Document 01 asks for this form, a
// loop that yields the fault by break.
pub fn check_records(nodes: &[u8], roads: &[u8]) -> Result<(), Refusal>
    ensures { result ≡ records_fault nodes.now roads.now }
{
    let count = roads.len() / ROAD_BYTES;
    let mut k = 0;
    loop {
        if count <= k {
            break Ok(());
        }
        if let Err(r) = check_record(nodes, k, road_at(roads, k)) {
            break Err(r);
        }
        k += 1;
    }
}

// The road of record k.
pub fn road_at(roads: &[u8], k: usize) -> Road
    requires { k < road_count roads.now }
    ensures { result ≡ road_of roads.now k }
{
    let i = k * ROAD_BYTES;
    Road {
        tail: numbers::u16_at(roads, i),
        head: numbers::u16_at(roads, i + 2),
        consumption: numbers::i32_at(roads, i + 4),
    }
}

// One record: 7, 8, 9.
fn check_record(nodes: &[u8], k: usize, road: Road) -> Result<(), Refusal>
    ensures { result ≡ record_fault nodes.now k road }
{
    check_road(nodes.len() / JUNCTION_BYTES, k, road)?;
    check_potential(nodes, k, road)
}

// Record k's ends among `count` junctions, and its consumption: 7, 8. It and 9 are written by returns:
// by `unless` a query takes 3 to 5 in a hundred longer.
#[tactic(auto, unfolding(crate::specs::Check::road_fault))]
pub fn check_road(count: usize, k: usize, road: Road) -> Result<(), Refusal>
    ensures { result ≡ road_fault count k road }
{
    if count <= road.tail as usize || count <= road.head as usize {
        return Err(Refusal::Ends(k));
    }
    if !in_range(road.consumption) {
        return Err(Refusal::Consumption(k));
    }
    Ok(())
}

// Record k's sum after potentials: 9.
#[tactic(auto, unfolding(crate::specs::Check::potential_fault))]
pub fn check_potential(nodes: &[u8], k: usize, road: Road) -> Result<(), Refusal>
    requires { (road.tail < junctions nodes.now) × (road.head < junctions nodes.now) }
    ensures { result ≡ potential_fault nodes.now k road }
{
    let tail = potential_at(nodes, road.tail as usize);
    let head = potential_at(nodes, road.head as usize);
    if !road_passes(road.consumption, tail, head) {
        return Err(Refusal::Potential(k));
    }
    Ok(())
}

// The potential of junction v.
pub fn potential_at(nodes: &[u8], v: usize) -> i32
    requires { v < junctions nodes.now }
    ensures { result ≡ potential nodes.now v }
{
    numbers::i32_at(nodes, v * JUNCTION_BYTES)
}

fn in_range(consumption: i32) -> bool
    ensures { result ≡ in_range consumption }
{
    (battery::LEAST_CONSUMPTION..=battery::MOST_CONSUMPTION).contains(&consumption)
}

fn road_passes(consumption: i32, tail: i32, head: i32) -> bool
    ensures { result ≡ passes consumption tail head }
{
    0 <= reduced(consumption, tail, head)
}

// The sum after potentials, in 64 bits, where it cannot wrap.
fn reduced(consumption: i32, tail: i32, head: i32) -> i64
    ensures { result ≡ consumption -ℤ tail +ℤ head }
{
    consumption as i64 - tail as i64 + head as i64
}
