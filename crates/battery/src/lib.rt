// The battery rule: a van and a road give the next van. Charges and consumptions are in mWh.
#![tactic(auto)]

ghost use Rattle.std.specs.Prelude.{◌≡◌};
ghost use Rattle.battery.specs.Drive.{fresh, drive};
ghost use Rattle.battery.specs.Profile.{no_roads, followed_by, one_road};
ghost use Rattle.battery.specs.Ready.{Ready, Extends};

// The limits of document 01, in mWh.
pub const MOST_BATTERY: i64 = 200000000;

pub const MOST_CONSUMPTION: i32 = 200000000;

pub const LEAST_CONSUMPTION: i32 = -200000000;

// A road as its record has it.
#[derive(Clone, Copy)]
pub struct Road {
    pub tail: u16,
    pub head: u16,
    pub consumption: i32,
}

// A battery, in mWh.
#[derive(Clone, Copy)]
pub struct Battery {
    pub size: u32,
}

// A van on its way: its battery, its charge, and the totals of the roads driven so far.
#[derive(Clone, Copy)]
pub struct Van {
    pub battery: Battery,
    pub charge: u32,
    pub drawn: u64,
    pub recovered: u64,
    pub spilled: u64,
}

// Of one route, for all start charges: below need it cannot be driven; from need on the arrival is
// the smaller of top and start - sum. A route that no charge can drive has none.
#[derive(Clone, Copy)]
pub struct Profile {
    pub need: u32,
    pub sum: i64,
    pub top: u32,
}

impl Van {
    // A van that sets out.
    pub fn new(battery: Battery, start: u32) -> Van
        ensures { result ≡ fresh battery start }
    {
        Van {
            battery,
            charge: start,
            drawn: 0,
            recovered: 0,
            spilled: 0,
        }
    }

    // The van at the head of a road, from the van at its tail; none where the charge is too low.
    pub fn drive(self, road: Road) -> Option<Van>
        requires { Ready self road }
        ensures { result ≡ drive self road }
    {
        let takes = numbers::drawn(road.consumption);
        let gives = numbers::gained(road.consumption);
        if self.charge < takes {
            return None;
        }
        let battery = self.battery;
        let left = self.charge - takes + gives;
        let over = left.saturating_sub(battery.size);
        Some(Van {
            battery,
            charge: left - over,
            drawn: self.drawn + takes as u64,
            recovered: self.recovered + gives as u64,
            spilled: self.spilled + over as u64,
        })
    }
}

impl Profile {
    // The route of no roads.
    pub fn new(battery: Battery) -> Profile
        ensures { result ≡ no_roads battery }
    {
        Profile {
            need: 0,
            sum: 0,
            top: battery.size,
        }
    }

    // This route with one road more; none where no charge can drive it.
    pub fn then(self, battery: Battery, road: Road) -> Option<Profile>
        requires { Extends battery self road }
        ensures { result ≡ followed_by (Some self) (one_road battery road) }
    {
        let takes = numbers::drawn(road.consumption);
        let gives = numbers::gained(road.consumption);
        if self.top < takes {
            return None;
        }
        let left = self.top - takes + gives;
        // the least start that leaves what the road takes
        let reach = (self.sum + takes as i64).max(0) as u32;
        Some(Profile {
            need: self.need.max(reach),
            sum: self.sum + road.consumption as i64,
            top: left.min(battery.size),
        })
    }
}
