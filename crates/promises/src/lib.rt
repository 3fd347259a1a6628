// What the public entries are asked, what they give back, and document 01's numbers of each answer.
// What each promises is in specs/, what is proved of the promises in proofs/.
#![tactic(auto)]

ghost use Rattle.std.specs.Prelude.{◌≡◌};
ghost use Rattle.promises.specs.Given.{check_numbers, plan_numbers, drive_numbers, profile_numbers};

use battery::{Profile, Van};
use refusals::Refusal;

// What a drive is asked for: battery size and start charge in mWh, and where it sets out.
#[derive(Clone, Copy)]
pub struct DriveQuestion {
    pub battery: i64,
    pub start: i64,
    pub source: u64,
}

// What a profile is asked for.
#[derive(Clone, Copy)]
pub struct ProfileQuestion {
    pub battery: i64,
    pub source: u64,
}

// What a best route is asked for.
#[derive(Clone, Copy)]
pub struct PlanQuestion {
    pub battery: i64,
    pub start: i64,
    pub source: u64,
    pub target: u64,
}

// What the charges to set off with are asked for: the depot is where all walks lead to.
#[derive(Clone, Copy)]
pub struct SetOffQuestion {
    pub battery: i64,
    pub depot: u64,
}

// A best route: how many roads it has, and the van at its end.
#[derive(Clone, Copy)]
pub struct Route {
    pub roads: usize,
    pub end: Van,
}

// Document 01's number and values of each answer. A success has number 0 and place 0. They are C's, so
// each answer has a struct of its own.
#[repr(C)]
#[derive(Clone, Copy)]
pub struct CheckNumbers {
    pub number: u64,
    pub place: u64,
}

#[repr(C)]
#[derive(Clone, Copy)]
pub struct PlanNumbers {
    pub number: u64,
    pub place: u64,
    pub roads: u64,
    pub arrival: u64,
    pub drawn: u64,
    pub recovered: u64,
    pub spilled: u64,
}

#[repr(C)]
#[derive(Clone, Copy)]
pub struct DriveNumbers {
    pub number: u64,
    pub place: u64,
    pub arrival: u64,
    pub drawn: u64,
    pub recovered: u64,
    pub spilled: u64,
}

#[repr(C)]
#[derive(Clone, Copy)]
pub struct ProfileNumbers {
    pub number: u64,
    pub place: u64,
    pub need: u64,
    pub sum: i64,
    pub top: u64,
}

impl From<Result<(), Refusal>> for CheckNumbers {
    ghost from_gives = { λ answer n. n ≡ check_numbers answer };

    fn from(answer: Result<(), Refusal>) -> CheckNumbers {
        match answer {
            Ok(()) => CheckNumbers {
                number: 0,
                place: 0,
            },
            Err(r) => CheckNumbers {
                number: r.number(),
                place: r.place(),
            },
        }
    }
}

impl From<Result<Route, Refusal>> for PlanNumbers {
    ghost from_gives = { λ answer n. n ≡ plan_numbers answer };

    fn from(answer: Result<Route, Refusal>) -> PlanNumbers {
        match answer {
            Ok(Route { roads, end }) => PlanNumbers {
                number: 0,
                place: 0,
                roads: roads as u64,
                arrival: end.charge as u64,
                drawn: end.drawn,
                recovered: end.recovered,
                spilled: end.spilled,
            },
            Err(r) => PlanNumbers {
                number: r.number(),
                place: r.place(),
                roads: 0,
                arrival: 0,
                drawn: 0,
                recovered: 0,
                spilled: 0,
            },
        }
    }
}

impl From<Result<Van, Refusal>> for DriveNumbers {
    ghost from_gives = { λ answer n. n ≡ drive_numbers answer };

    fn from(answer: Result<Van, Refusal>) -> DriveNumbers {
        match answer {
            Ok(van) => DriveNumbers {
                number: 0,
                place: 0,
                arrival: van.charge as u64,
                drawn: van.drawn,
                recovered: van.recovered,
                spilled: van.spilled,
            },
            Err(r) => DriveNumbers {
                number: r.number(),
                place: r.place(),
                arrival: 0,
                drawn: 0,
                recovered: 0,
                spilled: 0,
            },
        }
    }
}

impl From<Result<Profile, Refusal>> for ProfileNumbers {
    ghost from_gives = { λ answer n. n ≡ profile_numbers answer };

    fn from(answer: Result<Profile, Refusal>) -> ProfileNumbers {
        match answer {
            Ok(profile) => ProfileNumbers {
                number: 0,
                place: 0,
                need: profile.need as u64,
                sum: profile.sum,
                top: profile.top as u64,
            },
            Err(r) => ProfileNumbers {
                number: r.number(),
                place: r.place(),
                need: 0,
                sum: 0,
                top: 0,
            },
        }
    }
}
