// What a row asks: an entry with its keyword, its numbers and its list, and what the entry gives back,
// printed in the order of its answer's fields.
use crate::cursor::Cursor;
use crate::line::Network;
use crate::list::{File, Record, read_list};
use arrayvec::ArrayVec;
use promises::{
    CheckNumbers, DriveNumbers, DriveQuestion, PlanNumbers, PlanQuestion, ProfileNumbers,
    ProfileQuestion, SetOffQuestion,
};
use refusals::Refusal;
use std::fmt::Display;
use std::io;

// The most entries of a list.
const MOST_LIST: usize = routes::MOST_ENTRIES + 1;

// The list of a row: a route, or what is lent for roads or charges.
type Entries<T> = ArrayVec<T, MOST_LIST>;

// An entry and what it is asked.
#[derive(Clone, Copy)]
pub enum Question {
    Check,
    Drive(DriveQuestion),
    Profile(ProfileQuestion),
    BestRoute(PlanQuestion),
    SetOff(SetOffQuestion),
}

impl Question {
    // A keyword, its numbers and its list, to the line's end; the list's bytes are in the lent file.
    pub fn read(mut line: Cursor<'_>, list: &mut File) -> Option<Self> {
        let question = match line.until(|b| *b == b' ') {
            b"check" => Question::Check,
            b"drive" => Question::Drive(DriveQuestion {
                battery: line.bits()?.cast_signed(),
                start: line.bits()?.cast_signed(),
                source: line.bits()?,
            }),
            b"profile" => Question::Profile(ProfileQuestion {
                battery: line.bits()?.cast_signed(),
                source: line.bits()?,
            }),
            b"best_route" => Question::BestRoute(PlanQuestion {
                battery: line.bits()?.cast_signed(),
                start: line.bits()?.cast_signed(),
                source: line.bits()?,
                target: line.bits()?,
            }),
            b"set_off" => Question::SetOff(SetOffQuestion {
                battery: line.bits()?.cast_signed(),
                depot: line.bits()?,
            }),
            _ => return None,
        };
        let count = read_entries(line, list)?;
        let most = match question {
            Question::Check => 0,
            _ => MOST_LIST,
        };
        (count <= most).then_some(question)
    }

    // Asks the entry with this list, and prints its answer.
    pub fn answer(self, rt: &impl Print, network: &Network, list: &File) -> io::Result<()> {
        match self {
            Question::Check => check(rt, network),
            Question::Drive(question) => drive(rt, network, question, &entries(list)),
            Question::Profile(question) => profile(rt, network, question, &entries(list)),
            Question::BestRoute(question) => best_route(rt, network, question, entries(list)),
            Question::SetOff(question) => set_off(rt, network, question, entries(list)),
        }
    }
}

// The list after a comma, or none at the line's end: how many entries its bytes hold.
fn read_entries(mut line: Cursor<'_>, list: &mut File) -> Option<usize> {
    list.clear();
    if !line.rest.is_empty() {
        line.byte(b',')?;
        read_list(line, Record::Entry, list)?;
    }
    Some(list.len() / 2)
}

// The entries, as many as there is room for.
fn entries<T: From<u16> + Default + Drop>(list: &File) -> Entries<T> {
    let mut entries = Entries::new();
    let (numbers, _) = list.as_slice().as_chunks::<2>();
    for bytes in numbers {
        let entry = T::from(u16::from_le_bytes(*bytes));
        if entries.try_push(entry).is_err() {
            break;
        }
    }
    entries
}

// Each entry's answer, as numbers: each names the fields of its own.
fn check(rt: &impl Print, network: &Network) -> io::Result<()> {
    print_checked(rt, planner::check(&network.junctions, &network.roads))
}

fn drive(
    rt: &impl Print,
    network: &Network,
    question: DriveQuestion,
    route: &[u16],
) -> io::Result<()> {
    let DriveNumbers {
        number,
        place,
        arrival,
        drawn,
        recovered,
        spilled,
    } = planner::drive(&network.junctions, &network.roads, question, route).into();
    print!(rt; " {number} {place} {arrival} {drawn} {recovered} {spilled}")
}

fn profile(
    rt: &impl Print,
    network: &Network,
    question: ProfileQuestion,
    route: &[u16],
) -> io::Result<()> {
    let ProfileNumbers {
        number,
        place,
        need,
        sum,
        top,
    } = planner::profile(&network.junctions, &network.roads, question, route).into();
    print!(rt; " {number} {place} {need} {sum} {top}")
}

// The list is lent.
fn best_route(
    rt: &impl Print,
    network: &Network,
    question: PlanQuestion,
    mut lent: Entries<u16>,
) -> io::Result<()> {
    let PlanNumbers {
        number,
        place,
        roads,
        arrival,
        drawn,
        recovered,
        spilled,
    } = planner::best_route(&network.junctions, &network.roads, question, &mut lent).into();
    print!(rt; " {number} {place} {roads} {arrival} {drawn} {recovered} {spilled}")?;
    print_list(rt, &lent)
}

// The list is lent, each entry as a charge.
fn set_off(
    rt: &impl Print,
    network: &Network,
    question: SetOffQuestion,
    mut lent: Entries<i32>,
) -> io::Result<()> {
    let checked = depot::set_off(&network.junctions, &network.roads, question, &mut lent);
    print_checked(rt, checked)?;
    print_list(rt, &lent)
}

// Number and place of a check.
fn print_checked(rt: &impl Print, checked: Result<(), Refusal>) -> io::Result<()> {
    let CheckNumbers { number, place } = checked.into();
    print!(rt; " {number} {place}")
}

// The lent list, as it is after.
fn print_list<T: Display>(rt: &impl Print, list: &[T]) -> io::Result<()> {
    print!(rt; ", list")?;
    for x in list {
        print!(rt; " {x}")?;
    }
    Ok(())
}
