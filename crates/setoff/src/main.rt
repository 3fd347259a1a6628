// The program of the night crew: one line on standard input, nodes.bin and roads.bin from the current
// folder, the charge to set off with from each junction on standard output. What is written is
// decided by `programs::respond` of `SetOff`.
#![tactic(auto)]

ghost use Rattle.std.specs.Prelude.{◌≡◌};
ghost use Rattle.std.proofs.Common.{rules};
ghost use Rattle.std.proofs.Math.Dec.{lit≤};
ghost use Rattle.network.specs.Files.{most_junctions};
ghost use Rattle.programs.specs.Shared.{Small};
ghost use Rattle.text.specs.Room.{charges_room};
ghost use Rattle.setoff.specs.Response.{question, set_off_program};

use programs::{CabProgram, MOST_NUMBER, NODES_ROOM, ROADS_ROOM, ShortProgram};
use promises::{CheckNumbers, SetOffQuestion};
use std::io;

// The numbers of the line: battery, depot.
const NUMBERS: usize = 2;

// The other program's `main` is alike: nothing can be promised of what the system reads and writes, and
// a function of both would be public and promise nothing.
fn main(rt: HostRuntime) -> io::Result<()> {
    let mut line = [0u8; NUMBERS * MOST_NUMBER];
    let mut nodes = [0u8; NODES_ROOM];
    let mut roads = [0u8; ROADS_ROOM];
    let read = programs::read_inputs(&rt, &mut line, &mut nodes, &mut roads);
    let n = read.line;
    let count = programs::respond::<NUMBERS, SetOff>(&line[..n], read.files, &nodes, &mut roads);
    rt.write_all(&roads[..count])
}

// The charge to set off with from each junction.
struct SetOff;

impl CabProgram<NUMBERS> for SetOff {
    ghost program = { set_off_program };

    ghost room = { charges_room most_junctions };

    ghost counts = { Prim.search rules };

    ghost few = { Prim.search rules };

    fn answer(numbers: &[u64; NUMBERS], nodes: &[u8], roads: &mut [u8], size: usize) -> usize {
        let mut list = [0i32; network::MOST_JUNCTIONS];
        let answer = depot::set_off(nodes, &roads[..size], asked(numbers), &mut list);
        let given = CheckNumbers::from(answer);
        let Ok(()) = answer else {
            return text::write_refusal(roads, given.number, given.place);
        };
        let count = nodes.len() / network::JUNCTION_BYTES;
        text::write_charges(roads, &list[..count])
    }
}

impl ShortProgram<NUMBERS> for SetOff {
    ghost ten_at_most = { lit≤ tt };
}

// What the line asks.
fn asked(numbers: &[u64; NUMBERS]) -> SetOffQuestion
    requires { Small numbers.now }
    ensures { result ≡ question numbers.now }
{
    SetOffQuestion {
        battery: numbers[0] as i64,
        depot: numbers[1],
    }
}
