// How roads are read, forward or backward: which end is entered, what label a road brings, and the
// number of a junction. A label is an amount plus one, and 0 is none.
#![tactic(auto)]

ghost use Rattle.std.specs.Prelude.{◌≡◌};
ghost use Rattle.reading.specs.Asks.{StepAsks};
ghost use Rattle.reading.specs.Reading.{entered, left, step_forward, step_backward, step_of, psi_of};

use battery::{Battery, Road};

// In which sense roads are read: forward, from tail to head, a label being the charge that a van
// has, plus one; or backward, from head to tail, a label being the slack, which is the battery size
// less the charge that a van needs, plus one. It is an enum and no trait: the search back goes on in the
// lists of the search forward, and a type parameter would stand on every function of both and say no
// more than the four matches here.
#[derive(Clone, Copy)]
pub enum Sense {
    Forward,
    Backward,
}

// How roads are read.
#[derive(Clone, Copy)]
pub struct Reading {
    pub sense: Sense,
    pub battery: Battery,
}

impl Reading {
    // The junction where a road is entered.
    pub fn entered(self, road: Road) -> usize
        ensures { result ≡ entered self.sense road }
    {
        match self.sense {
            Sense::Forward => road.tail as usize,
            Sense::Backward => road.head as usize,
        }
    }

    // The junction where it is left.
    pub fn left(self, road: Road) -> usize
        ensures { result ≡ left self.sense road }
    {
        match self.sense {
            Sense::Forward => road.head as usize,
            Sense::Backward => road.tail as usize,
        }
    }

    // The label that a road brings, from a label where it is entered. Each sense has its own step, with
    // a branch: one step with a cap by sense was tried, and a query took 1.07 to 1.20 of the time.
    pub fn step(self, road: Road, label: u32) -> u32
        requires { StepAsks self.battery road label }
        ensures { result ≡ step_of self.sense self.battery road label }
    {
        match self.sense {
            Sense::Forward => step_forward(self.battery, road, label),
            Sense::Backward => step_backward(self.battery, road, label),
        }
    }

    // The number of a junction, from its potential: how far that stands below the largest, or above
    // the least.
    pub fn psi(self, potential: i32) -> u32
        ensures { result ≡ psi_of self.sense potential }
    {
        match self.sense {
            Sense::Forward => i32::MAX.abs_diff(potential),
            Sense::Backward => i32::MIN.abs_diff(potential),
        }
    }
}

// By the battery rule: the smaller of charge - consumption and the battery size, as labels.
fn step_forward(battery: Battery, road: Road, label: u32) -> u32
    requires { StepAsks battery road label }
    ensures { result ≡ step_forward battery road label }
{
    let takes = numbers::drawn(road.consumption);
    let has = label + numbers::gained(road.consumption);
    if takes < has {
        (has - takes).min(battery.size + 1)
    } else {
        0
    }
}

// The rule read backward: the smaller of slack - consumption and the battery size less the road's
// own need, as labels.
fn step_backward(battery: Battery, road: Road, label: u32) -> u32
    requires { StepAsks battery road label }
    ensures { result ≡ step_backward battery road label }
{
    let needs = numbers::drawn(road.consumption);
    let has = label + numbers::gained(road.consumption);
    if needs < has {
        (has - needs).min(battery.size + 1 - needs)
    } else {
        0
    }
}
