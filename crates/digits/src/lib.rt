// Numbers in decimal digits: a line of them is read, and they are written, one to a line, into a
// lent buffer. Opening files, reading and writing them is the programs' own.
#![tactic(auto)]

ghost use Rattle.std.specs.Prelude.{◌≡◌, ◌+◌, MatchOption};
ghost use lib.ListN;
ghost use lib.ListN.{length};
ghost use Rattle.digits.specs.Decimal.{decimal, number_line, word_line, signed_line};
ghost use Rattle.digits.specs.Line.{Line};
ghost use Rattle.digits.specs.Taking.{NoDigit, Ran, Takes, NoNumber, NoLine, ReadsNumbers};
ghost use Rattle.digits.specs.Puts.{IsEmpty, HasRoom, Puts, PutsFew};

// The most digits of a number that is read.
pub const MOST_DIGITS: usize = 10;

// Whether the bytes begin with a line of as many numbers as the list has entries: each of one to ten
// decimal digits (leading zeros allowed), one space between and a newline after. Then the list holds
// them. What follows the line does not matter, and no line is one of no numbers.
pub fn read_numbers(line: &[u8], list: &mut [u64]) -> bool
    ensures { ReadsNumbers line.now (length list.old) result list.new }
{
    let count = list.len();
    let mut rest = line;
    for (i, x) in list.iter_mut().enumerate() {
        let end = if i + 1 < count { b' ' } else { b'\n' };
        let Some((number, after)) = take_number(rest, end) else {
            return false;
        };
        *x = number;
        rest = after;
    }
    0 < count
}

// The numbers of such a line as an array, if the bytes begin with one.
pub fn read_array<const COUNT: usize>(line: &[u8]) -> Option<[u64; COUNT]>
    ensures { MatchOption result (NoLine line.now COUNT) (λ ns. (length ns ≡ COUNT) × Line ns line.now) }
{
    let mut numbers = [0; COUNT];
    read_numbers(line, &mut numbers).then_some(numbers)
}

// The number at the bytes' start, which the byte `end` must follow, and what follows that byte.
fn take_number(line: &[u8], end: u8) -> Option<(u64, &[u8])>
    requires { NoDigit end }
    ensures { MatchOption result (NoNumber line.now end) (λ taken. Takes line.now end taken.0 taken.1.now) }
{
    let (number, count) = take_digits(line);
    let (last, rest) = line[count..].split_first()?;
    if count == 0 || *last != end {
        return None;
    }
    Some((number, rest))
}

// The digits at the bytes' start, ten at most: their number and how many they are.
fn take_digits(line: &[u8]) -> (u64, usize)
    ensures { Ran line.now result.0 result.1 }
{
    let most = line.len().min(MOST_DIGITS);
    let mut number = 0;
    for (i, b) in line[..most].iter().enumerate() {
        match b {
            b'0'..=b'9' => number = number * 10 + u64::from(*b - b'0'),
            _ => return (number, i),
        }
    }
    (number, most)
}

// A text that grows at the start of a lent buffer. Its methods ask for the room, so that they cannot
// fail, as `write!` can.
#[derive(Drop)]
pub struct Text<'a> {
    out: &'a mut [u8],
    len: usize,
}

impl<'a> Text<'a> {
    // No text yet.
    pub fn new(out: &'a mut [u8]) -> Text<'a>
        ensures same_reference { result.out.ghost_name ≡ out.entry.ghost_name }
        ensures empty { IsEmpty out.old result }
    {
        Text { out, len: 0 }
    }

    // How many bytes at the buffer's start are the text.
    pub fn len(&self) -> usize
        ensures { result ≡ self.now.len }
    {
        self.len
    }

    // The bytes of a word.
    pub fn put(&mut self, word: &[u8])
        requires { HasRoom self.old (length word.now) }
        ensures { Puts self.old word.now self.new }
    {
        let to = self.len + word.len();
        self.out[self.len..to].copy_from_slice(word);
        self.len = to;
    }

    // A number in decimal digits, without leading zeros.
    pub fn put_decimal(&mut self, n: u64)
        requires { HasRoom self.old 20 }
        ensures { PutsFew 20 self.old (decimal n) self.new }
    {
        let mut digits = [0u8; 20];
        let k = io::decimal(n, &mut digits);
        self.put(&digits[..k]);
    }

    // A number on a line of its own.
    pub fn put_number_line(&mut self, n: u64)
        requires { HasRoom self.old 21 }
        ensures { PutsFew 21 self.old (number_line n) self.new }
    {
        self.put_decimal(n);
        self.put(b"\n");
    }

    // A signed number on a line: a minus sign and its size, or the number.
    pub fn put_signed_line(&mut self, n: i32)
        requires { HasRoom self.old 22 }
        ensures { PutsFew 12 self.old (signed_line n) self.new }
    {
        if n < 0 {
            self.put(b"-");
        }
        self.put_number_line(u64::from(n.unsigned_abs()));
    }

    // A word, a space and a number, on a line.
    pub fn put_word_line(&mut self, word: &[u8], n: u64)
        requires { HasRoom self.old (length word.now + 22) }
        ensures { PutsFew (length word.now + 22) self.old (word_line word.now n) self.new }
    {
        self.put(word);
        self.put(b" ");
        self.put_number_line(n);
    }
}
