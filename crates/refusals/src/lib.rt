// The numbered refusals: why a question is refused, its number and its place. What a check comes to
// is `Result<(), Refusal>`.
#![tactic(auto)]

ghost use Rattle.std.specs.Prelude.{◌≡◌};
ghost use Rattle.refusals.specs.Order;
ghost use Rattle.refusals.specs.Refusals.{number_of, place_of};

// Why a question is refused: 1 to 15 in document 01's order, then request [2]'s 16 and 17. A number
// is the record, the least start charge or the place in the route.
#[derive(Clone, Copy)]
pub enum Refusal {
    JunctionFile,
    RoadFile,
    Battery,
    Start,
    NoJunction,
    ShortList,
    Ends(usize),
    Consumption(usize),
    Potential(usize),
    MoreCharge(u32),
    LongRoute,
    NotRoad(usize),
    NotHere(usize),
    TooLow(usize),
    Impassable(usize),
    NeverEnough,
    NotJoined,
}

impl Refusal {
    // Document 01's number.
    pub fn number(self) -> u64
        ensures { result ≡ number_of self }
    {
        match self {
            Refusal::JunctionFile => 1,
            Refusal::RoadFile => 2,
            Refusal::Battery => 3,
            Refusal::Start => 4,
            Refusal::NoJunction => 5,
            Refusal::ShortList => 6,
            Refusal::Ends(_) => 7,
            Refusal::Consumption(_) => 8,
            Refusal::Potential(_) => 9,
            Refusal::MoreCharge(_) => 10,
            Refusal::LongRoute => 11,
            Refusal::NotRoad(_) => 12,
            Refusal::NotHere(_) => 13,
            Refusal::TooLow(_) => 14,
            Refusal::Impassable(_) => 15,
            Refusal::NeverEnough => 16,
            Refusal::NotJoined => 17,
        }
    }

    // The place of the first fault, and of 10 the least start charge; else 0.
    pub fn place(self) -> u64
        ensures { result ≡ place_of self }
    {
        match self {
            Refusal::Ends(k) | Refusal::Consumption(k) | Refusal::Potential(k) => k as u64,
            Refusal::MoreCharge(b) => b as u64,
            Refusal::NotRoad(i)
            | Refusal::NotHere(i)
            | Refusal::TooLow(i)
            | Refusal::Impassable(i) => i as u64,
            _ => 0,
        }
    }
}

// Refused with r unless the test holds.
pub fn unless(holds: bool, r: Refusal) -> Result<(), Refusal>
    ensures { result ≡ Rattle.refusals.specs.Order.unless holds r }
{
    if holds { Ok(()) } else { Err(r) }
}
