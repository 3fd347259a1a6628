// Runs the rows of standard input and prints what comes back: the rows of document 01, each refusal
// of the five entries with its place and zeros, and the order of two faults present together. A line
// of the input, whose head (`stdin`) has an example of each, is
//
//     # COMMENT, or nothing
//     junctions LIST, or roads LIST: a file of the network from here on
//     NAME: ENTRY NUMBERS, LIST: a row, asked of the network
//
// A LIST is numbers, a space before each, in groups with a comma between; `22x` before a group has it
// stand 22 times, and `5b` at the end cuts the list to 5 bytes. A row is printed as its name, the
// numbers given back, and the lent list if there is one; any other line as a bad row.
#![tactic(auto)]

mod cursor;
mod line;
mod list;
mod question;

use arrayvec::ArrayVec;
use cursor::Cursor;
use line::{Line, Network, Row};
use list::{File, Record, read_list};
use std::io;
use std::io::Read;

// Room for the rows.
const TEXT_ROOM: usize = 65536;

fn main(rt: HostRuntime) -> io::Result<()> {
    let mut text: ArrayVec<u8, TEXT_ROOM> = ArrayVec::new();
    io::copy(&mut rt.reader().take(TEXT_ROOM as u64), &mut text)?;
    run(&rt, &text)?;
    if text.is_full() {
        bad_row(&rt, 0)?;
    }
    Ok(())
}

// Line by line, from no network.
fn run(rt: &impl Print, text: &[u8]) -> io::Result<()> {
    let mut network = Network {
        junctions: File::new(),
        roads: File::new(),
    };
    let mut list = File::new();
    for (number, line) in (1u64..).zip(text.split(|b| *b == b'\n')) {
        let done = match Line::read(line) {
            Some(Line::Comment) => Some(()),
            Some(Line::Junctions(line)) => {
                set(&mut network.junctions, line, Record::Junction, &mut list)
            }
            Some(Line::Roads(line)) => set(&mut network.roads, line, Record::Road, &mut list),
            Some(Line::Row(line)) => answer(rt, line, &network, &mut list)?,
            None => None,
        };
        if done.is_none() {
            bad_row(rt, number)?;
        }
    }
    Ok(())
}

// A file of the network, from here on, if the list is in the notation.
fn set(file: &mut File, line: Cursor<'_>, record: Record, list: &mut File) -> Option<()> {
    read_list(line, record, list)?;
    file.clear();
    file.try_extend_from_slice(list).ok()
}

// A row, asked of the network.
fn answer(
    rt: &impl Print,
    line: Cursor<'_>,
    network: &Network,
    list: &mut File,
) -> io::Result<Option<()>> {
    let Some(row) = Row::read(line, list) else {
        return Ok(None);
    };
    row.answer(rt, network, list)?;
    Ok(Some(()))
}

// A line that is not in the notation; 0 stands for those that there is no room for, and is printed so.
fn bad_row(rt: &impl Print, number: u64) -> io::Result<()> {
    println!(rt; "bad row {number}")
}
