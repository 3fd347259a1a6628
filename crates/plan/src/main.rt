// The cab program: one line on standard input, nodes.bin and roads.bin from the current folder, the
// answer on standard output. What is written is decided by `programs::respond` of `Plan`.
#![tactic(auto)]

ghost use Rattle.std.specs.Prelude.{◌≡◌};
ghost use Rattle.std.proofs.Common.{rules};
ghost use Rattle.std.proofs.Math.Dec.{lit≤};
ghost use Rattle.programs.specs.Shared.{Small};
ghost use Rattle.text.specs.Answer.{most_route};
ghost use Rattle.text.specs.Room.{route_room};
ghost use Rattle.plan.specs.Response.{question, plan_program};

use programs::{CabProgram, MOST_NUMBER, NODES_ROOM, ROADS_ROOM, ShortProgram};
use promises::{PlanNumbers, PlanQuestion};
use std::io;
use text::MOST_ROUTE;

// The numbers of the line: battery, start, source, target.
const NUMBERS: usize = 4;

// The other program's `main` is alike: nothing can be promised of what the system reads and writes, and
// a function of both would be public and promise nothing.
fn main(rt: HostRuntime) -> io::Result<()> {
    let mut line = [0u8; NUMBERS * MOST_NUMBER];
    let mut nodes = [0u8; NODES_ROOM];
    let mut roads = [0u8; ROADS_ROOM];
    let read = programs::read_inputs(&rt, &mut line, &mut nodes, &mut roads);
    let n = read.line;
    let count = programs::respond::<NUMBERS, Plan>(&line[..n], read.files, &nodes, &mut roads);
    rt.write_all(&roads[..count])
}

// The best route, or why there is none.
struct Plan;

impl CabProgram<NUMBERS> for Plan {
    ghost program = { plan_program };

    ghost room = { route_room most_route };

    ghost counts = { Prim.search rules };

    ghost few = { Prim.search rules };

    fn answer(numbers: &[u64; NUMBERS], nodes: &[u8], roads: &mut [u8], size: usize) -> usize {
        let mut list = [0u16; MOST_ROUTE];
        let answer = planner::best_route(nodes, &roads[..size], asked(numbers), &mut list);
        let given = PlanNumbers::from(answer);
        let Ok(route) = answer else {
            return text::write_refusal(roads, given.number, given.place);
        };
        text::write_route(roads, given, &list[..route.roads])
    }
}

impl ShortProgram<NUMBERS> for Plan {
    ghost ten_at_most = { lit≤ tt };
}

// What the line asks.
fn asked(numbers: &[u64; NUMBERS]) -> PlanQuestion
    requires { Small numbers.now }
    ensures { result ≡ question numbers.now }
{
    PlanQuestion {
        battery: numbers[0] as i64,
        start: numbers[1] as i64,
        source: numbers[2],
        target: numbers[3],
    }
}
