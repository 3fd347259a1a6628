// What the programs share: they read a line of numbers from standard input and the two files of the
// current folder, and write `bad query`, `no file` or what the library answers.
#![tactic(auto)]

ghost use Rattle.std.specs.Prelude.{◌≡◌, ◌*◌, ◌^◌, ◌<◌, ◌≤◌, ℕ, IfOk, IfSome, length, take};
ghost use Rattle.std.specs.Io.KnownBytes.{Consumes, IsAtEnd};
ghost use Rattle.io.specs.Counts.{IsPrefixLen};
ghost use Rattle.digits.specs.Puts.{Written};
ghost use Rattle.programs.specs.Program.{Program, RespondsRead, bad_query};
ghost use Rattle.programs.specs.Shared.{Reads, Filled, Small, Lent, Answers};

use digits::Text;
use std::io::Read;
use std::rt::Files;
use std::{fs, io};

// The most bytes of a number of the line, with the byte after it.
pub const MOST_NUMBER: usize = digits::MOST_DIGITS + 1;

// One byte past a file's limit tells that it is too long.
pub const NODES_ROOM: usize = network::MOST_JUNCTIONS * network::JUNCTION_BYTES + 1;

pub const ROADS_ROOM: usize = network::MOST_ROADS * network::ROAD_BYTES + 1;

// How many bytes of each file were read. They stand beside the buffers and are no slices of them: the
// buffer of the roads is lent whole, since the answer is written over it.
#[derive(Clone, Copy)]
pub struct Sizes {
    pub nodes: usize,
    pub roads: usize,
}

// How many bytes of the line were read, and the files' sizes if both could be read.
#[derive(Clone, Copy)]
pub struct Inputs {
    pub line: usize,
    pub files: Option<Sizes>,
}

// A program whose line has so many numbers.
pub trait CabProgram<const NUMBERS: usize> {
    // The texts that it may write.
    ghost program: { Program };

    // The room for the longest of them.
    ghost room: { ℕ };

    // What is written for the line's numbers: how many bytes at the start of `roads`. The file of the
    // roads is its first `size` bytes; once there is an answer it is not read again, and the answer
    // is written over it: the buffer and its size come apart, since the memory is fixed.
    fn answer(numbers: &[u64; NUMBERS], nodes: &[u8], roads: &mut [u8], size: usize) -> usize
        requires small { Small numbers.now }
        requires lent { Lent room size roads.old }
        ensures { Answers program numbers.now nodes.now (take size roads.old) roads.new result };

    // They are for lines of so many numbers, and an array of these can be.
    ghost counts: { program.count ≡ NUMBERS };

    ghost few: { 8 * NUMBERS < 2 ^ 63 };
}

// A program whose line has ten numbers at most, as both of the cab have.
pub trait ShortProgram<const NUMBERS: usize>: CabProgram<NUMBERS> {
    ghost ten_at_most: { NUMBERS ≤ 10 };
}

// What is written: how many bytes at the start of `roads`, of which as many as `files` says are the
// file of the roads.
pub fn respond<const NUMBERS: usize, P: CabProgram<NUMBERS>>(
    line: &[u8],
    files: Option<Sizes>,
    nodes: &[u8],
    roads: &mut [u8],
) -> usize
    requires words { length bad_query ≤ length roads.old }
    requires room { P.room ≤ length roads.old }
    requires filled { IfSome files (Filled nodes.now roads.old) }
    ensures prefix_len { IsPrefixLen result roads.new }
    ensures responds { RespondsRead P.program line.now files nodes.now roads.old (take result roads.new) }
{
    let Some(numbers) = digits::read_array(line) else {
        return write_word(roads, b"bad query\n");
    };
    let Some(sizes) = files else {
        return write_word(roads, b"no file\n");
    };
    P::answer(&numbers, &nodes[..sizes.nodes], roads, sizes.roads)
}

// A word alone: how many bytes it has.
fn write_word(out: &mut [u8], word: &[u8]) -> usize
    requires { length word.now ≤ length out.old }
    ensures { Written word.now out.new result }
{
    let mut text = Text::new(out);
    text.put(word);
    text.len()
}

// Reads the line from standard input and the two files from the current folder.
pub fn read_inputs(
    rt: &(impl Files + Input),
    line: &mut [u8],
    nodes: &mut [u8],
    roads: &mut [u8],
) -> Inputs
    ensures { Reads line.new nodes.new roads.new result }
{
    let line = read_line(&mut rt.reader(), line);
    let nodes = read_file(rt, "nodes.bin", nodes);
    let roads = read_file(rt, "roads.bin", roads);
    let files = match (nodes, roads) {
        (Some(nodes), Some(roads)) => Some(Sizes { nodes, roads }),
        _ => None,
    };
    Inputs { line, files }
}

// The bytes of the first line with its newline, or as many as there is room for. It reads byte by
// byte, so that it waits for nothing past the line.
fn read_line(input: &mut impl Read, line: &mut [u8]) -> usize
    ensures { IsPrefixLen result line.new }
{
    for n in 0..line.len() {
        let Ok(1) = input.read(&mut line[n..n + 1]) else {
            return n;
        };
        if line[n] == b'\n' {
            return n + 1;
        }
    }
    line.len()
}

// How many bytes of a file were read, if it could be.
fn read_file(files: &impl Files, path: &str, room: &mut [u8]) -> Option<usize>
    ensures { IfSome result (λ n. IsPrefixLen n room.new) }
{
    let mut file = fs::open(files, path).ok()?;
    read_all(&mut file, room).ok()
}

// Reads until the room is full or the input ends, and answers how many bytes came; a read that fails
// is told. A loop of its own: `read_exact` tells no count at the end, and it and `io::copy` try again
// what was interrupted.
pub fn read_all<R: Read>(input: &mut R, room: &mut [u8]) -> io::Result<usize>
    ensures prefix_len { IfOk result (λ n. IsPrefixLen n room.new) }
    ensures bytes { IfOk result (λ n. Consumes (R.remaining input.old) (R.remaining input.new) (take n room.new)) }
    ensures end { IfOk result (λ n. n < length room.new → IsAtEnd (R.remaining input.new)) }
{
    let mut count = 0;
    while count < room.len() {
        let more = input.read(&mut room[count..])?;
        if more == 0 {
            break;
        }
        count += more;
    }
    Ok(count)
}
