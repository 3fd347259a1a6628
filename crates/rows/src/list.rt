// The notation of a list: numbers in groups, as the bytes of a file's records.
use crate::cursor::Cursor;
use arrayvec::ArrayVec;

// Room for one road more than a network may have.
const LIST_ROOM: usize = (network::MOST_ROADS + 1) * network::ROAD_BYTES;

// A list of so many steps is refused, since an empty group may have a count of any size: a step is a
// count, a number, each of its bytes, a cut, the end of a group.
const MOST_STEPS: usize = 2 * LIST_ROOM;

// The bytes of a list, the least of a number first.
pub type File = ArrayVec<u8, LIST_ROOM>;

// The records of a list: a potential; tail, head and consumption; an entry of a route.
#[derive(Clone, Copy)]
pub enum Record {
    Junction,
    Road,
    Entry,
}

// The numbers of a record.
#[derive(Clone, Copy)]
enum Kind {
    U16,
    I32,
}

// What stands next in a list.
#[derive(Clone, Copy)]
enum Item {
    // `22x`, before a group.
    Times(u64),
    // `5b`, at the line's end.
    Cut(u64),
    Number(i128),
    GroupEnd,
}

// A list as far as it is read: what is left of the line, the group that is read and how often it is
// still to be, and the bytes of the numbers.
#[derive(Drop)]
struct Listing<'a> {
    record: Record,
    line: Cursor<'a>,
    group: Cursor<'a>,
    times: u64,
    file: &'a mut File,
}

impl Record {
    // The number that begins after so many bytes: in a road the ends have two each, the consumption
    // has four.
    fn kind_at(self, size: usize) -> Kind {
        match self {
            Record::Junction => Kind::I32,
            Record::Road if 4 <= size % network::ROAD_BYTES => Kind::I32,
            Record::Road | Record::Entry => Kind::U16,
        }
    }

    // Whether a group may end after so many bytes.
    fn ends_at(self, size: usize) -> bool {
        match self {
            Record::Road => size % network::ROAD_BYTES == 0,
            Record::Junction | Record::Entry => true,
        }
    }
}

// A list that goes to the line's end, into a lent file, whose room is too large to give it back by value.
pub fn read_list(line: Cursor<'_>, record: Record, file: &mut File) -> Option<()> {
    file.clear();
    let mut list = Listing {
        record,
        line,
        group: line,
        times: 1,
        file,
    };
    for items in 1..MOST_STEPS {
        if MOST_STEPS - items <= list.file.len() {
            return None;
        }
        match list.next_item()? {
            Item::Times(times) => list.begin_group(times)?,
            Item::Number(number) => list.add(number)?,
            Item::Cut(size) => return list.cut(size),
            Item::GroupEnd => {
                if list.end_group()? {
                    return Some(());
                }
            }
        }
    }
    None
}

impl Listing<'_> {
    // Passes what stands next. A count stands before its group, a cut at the line's end.
    fn next_item(&mut self) -> Option<Item> {
        let is_first = self.line.rest.len() == self.group.rest.len();
        if self.line.byte(b' ').is_none() {
            return Some(Item::GroupEnd);
        }
        let mut after = self.line;
        if let Some(n) = after.digits() {
            if after.rest == b"b".as_slice() {
                return Some(Item::Cut(n));
            }
            let is_count = is_first && after.byte(b'x').is_some();
            self.line = after;
            return Some(if is_count {
                Item::Times(n)
            } else {
                Item::Number(i128::from(n))
            });
        }
        self.line.number().map(Item::Number)
    }

    // The group that begins stands so often; no second count but after `1x`.
    fn begin_group(&mut self, times: u64) -> Option<()> {
        if self.times != 1 || times == 0 {
            return None;
        }
        self.group = self.line;
        self.times = times;
        Some(())
    }

    // The bytes of a number, if the record's next number can be it and there is room.
    fn add(&mut self, number: i128) -> Option<()> {
        let added = match self.record.kind_at(self.file.len()) {
            Kind::U16 => self
                .file
                .try_extend_from_slice(&u16::try_from(number).ok()?.to_le_bytes()),
            Kind::I32 => self
                .file
                .try_extend_from_slice(&i32::try_from(number).ok()?.to_le_bytes()),
        };
        added.ok()
    }

    // The first bytes, if there are so many.
    fn cut(&mut self, size: u64) -> Option<()> {
        let size = usize::try_from(size).ok()?;
        if self.file.len() < size {
            return None;
        }
        self.file.truncate(size);
        Some(())
    }

    // The group is read again, or the line ends, or a comma stands here and the next group begins.
    // Answers whether the line ends.
    fn end_group(&mut self) -> Option<bool> {
        if !self.record.ends_at(self.file.len()) {
            return None;
        }
        if 1 < self.times {
            self.times -= 1;
            self.line = self.group;
            return Some(false);
        }
        if self.line.rest.is_empty() {
            return Some(true);
        }
        self.line.byte(b',')?;
        self.group = self.line;
        Some(false)
    }
}
