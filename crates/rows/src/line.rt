// What a line is: a comment, a file of the network or a row.
use crate::cursor::Cursor;
use crate::list::File;
use crate::question::Question;
use std::io;

// The two files that rows are asked of.
#[derive(Drop)]
pub struct Network {
    pub junctions: File,
    pub roads: File,
}

// A row: its name, and what is asked.
#[derive(Clone, Copy)]
pub struct Row<'a> {
    name: &'a [u8],
    question: Question,
}

// What a line is by its first word, and what is left of it to be read. Its list is read later, into a
// file that `run` lends: a function pays for the room of a list each time it is called.
#[derive(Clone, Copy)]
pub enum Line<'a> {
    Comment,
    Junctions(Cursor<'a>),
    Roads(Cursor<'a>),
    Row(Cursor<'a>),
}

impl<'a> Line<'a> {
    // A line without a colon is a file of the network.
    pub fn read(text: &'a [u8]) -> Option<Self> {
        if text.is_empty() || text.starts_with(b"#") {
            return Some(Line::Comment);
        }
        let mut line = Cursor { rest: text };
        if text.contains(&b':') {
            return Some(Line::Row(line));
        }
        match line.until(|b| *b == b' ') {
            b"junctions" => Some(Line::Junctions(line)),
            b"roads" => Some(Line::Roads(line)),
            _ => None,
        }
    }
}

impl<'a> Row<'a> {
    // The name up to the colon, and the question after a space, its list in the lent file.
    pub fn read(mut line: Cursor<'a>, list: &mut File) -> Option<Self> {
        let name = line.until(|b| *b == b':');
        line.byte(b':')?;
        line.byte(b' ')?;
        let question = Question::read(line, list)?;
        Some(Row { name, question })
    }

    // Prints the row: its name and what is given back.
    pub fn answer(self, rt: &impl Print, network: &Network, list: &File) -> io::Result<()> {
        rt.write_all(self.name)?;
        print!(rt; ":")?;
        self.question.answer(rt, network, list)?;
        println!(rt; "")
    }
}
