// The answers as text, into a lent buffer that suffices. Each function answers how many bytes at the
// buffer's start are the text: the buffer is the programs' own, who write it out.
#![tactic(auto)]

ghost use Rattle.std.specs.Prelude.{List, ℕ, ◌+◌, ◌*◌, ◌≤◌, length};
ghost use Rattle.digits.specs.Decimal.{number_line, signed_line};
ghost use Rattle.digits.specs.Puts.{HasRoom, Puts, PutsFew, Written};
ghost use Rattle.text.specs.Answer.{item_lines, signed_lines, route_text, refused_text};
ghost use Rattle.text.specs.Room.{refusal_room, route_room, charges_room};

use digits::Text;
use promises::PlanNumbers;

// The most roads of a route: it visits no junction twice.
pub const MOST_ROUTE: usize = network::MOST_JUNCTIONS - 1;

#[tactic(auto, unfolding(crate::specs::Answer::refused_text))]
pub fn write_refusal(out: &mut [u8], number: u64, place: u64) -> usize
    requires { refusal_room ≤ length out.old }
    ensures { Written (refused_text number place) out.new result }
{
    let mut text = Text::new(out);
    text.put(b"refused ");
    text.put_decimal(number);
    text.put(b" ");
    text.put_number_line(place);
    text.len()
}

// A route with its numbers: arrival, drawn, recovered, spilled, roads, then each road.
#[tactic(auto, unfolding(crate::specs::Answer::route_text))]
pub fn write_route(out: &mut [u8], given: PlanNumbers, route: &[u16]) -> usize
    requires { route_room (length route.now) ≤ length out.old }
    ensures { Written (route_text given route.now) out.new result }
{
    let mut text = Text::new(out);
    text.put_word_line(b"arrival", given.arrival);
    text.put_word_line(b"drawn", given.drawn);
    text.put_word_line(b"recovered", given.recovered);
    text.put_word_line(b"spilled", given.spilled);
    text.put_word_line(b"roads", given.roads);
    put_lines(&mut text, route);
    text.len()
}

// The numbers of the junctions, one to a line.
pub fn write_charges(out: &mut [u8], list: &[i32]) -> usize
    requires { charges_room (length list.now) ≤ length out.old }
    ensures { Written (signed_lines list.now) out.new result }
{
    let mut text = Text::new(out);
    put_lines(&mut text, list);
    text.len()
}

// An item of a list that is written one to a line.
trait Item: Copy {
    // Its line.
    ghost line: { Self → List ℕ };

    // The most bytes of a line.
    ghost most: { ℕ };

    fn put_line(self, text: &mut Text)
        requires { HasRoom text.old (most + 20) }
        ensures { PutsFew most text.old (line self) text.new };
}

// A road's number has at most five digits.
impl Item for u16 {
    ghost line = { number_line };

    ghost most = { 6 };

    fn put_line(self, text: &mut Text) {
        text.put_number_line(u64::from(self));
    }
}

// A charge has at most a minus sign and ten digits.
impl Item for i32 {
    ghost line = { signed_line };

    ghost most = { 12 };

    fn put_line(self, text: &mut Text) {
        text.put_signed_line(self);
    }
}

// The items, one to a line.
fn put_lines<T: Item>(text: &mut Text, items: &[T])
    requires { HasRoom text.old (T.most * length items.now + 20) }
    ensures { Puts text.old (item_lines T.line items.now) text.new }
{
    for item in items {
        item.put_line(text);
    }
}
