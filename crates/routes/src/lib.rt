// A given route, place by place: driven, and profiled for all start charges.
#![tactic(auto)]

ghost use Rattle.std.specs.Prelude.{◌≡◌, ℕ, ◌<◌, List, Option};
ghost use Rattle.refusals.specs.declared.Refusal.{Refusal};
ghost use Rattle.refusals.specs.declared.Refusal.TheVariants.{TooLow, Impassable};
ghost use Rattle.battery.specs.Drive.{drive, drive_all};
ghost use Rattle.battery.specs.Ready.{Ranged};
ghost use Rattle.battery.specs.declared.Road.{Road};
ghost use Rattle.routes.specs.Gauges.{GaugeLaws, FollowAsks, Follows, passed, ProfileBegins, ProfileFits, profile_passes, profile_along};
ghost use Rattle.routes.specs.Laws.{drive_laws, profile_laws};
ghost use Rattle.routes.specs.Places.{entry_fault, begin_fault, most_entries};
ghost use Rattle.routes.specs.Steps.{enters, Bounded, DriveAsks, DriveKeeps, ProfileAsks, ProfileKeeps};

use battery::{Battery, Profile, Road, Van};
use refusals::Refusal;

// The most entries of a given route.
pub const MOST_ENTRIES: usize = 8192;

// What is read along a route, road by road: a van, or the profile of the roads so far.
pub trait Gauge: Copy {
    // how it begins, and that after so many roads its numbers have room for one more
    ghost Begins: { Self → Type 0 };

    ghost Fits: { ℕ → Self → Type 0 };

    // one road more, and all roads of a route
    ghost passes: { Self → Road → Option Self };

    ghost along: { Self → List Road → Option Self };

    // what is told at a place where there is none
    ghost fault: { ℕ → Refusal };

    // One road more, at place i of the route.
    fn pass(self, road: Road, i: usize) -> Result<Self, Refusal>
        requires { Ranged road × (i < most_entries) × Fits i self }
        ensures { result ≡ passed (fault i) (passes self road) };

    ghost laws: { GaugeLaws Begins Fits passes along };
}

impl Gauge for Van {
    ghost Begins = { Bounded 0 };

    ghost Fits = { Bounded };

    ghost passes = { drive };

    ghost along = { drive_all };

    ghost fault = { TooLow };

    fn pass(self, road: Road, i: usize) -> Result<Van, Refusal> {
        self.drive(road).ok_or(Refusal::TooLow(i))
    }

    ghost laws = { drive_laws };
}

// A profile with its battery.
#[derive(Clone, Copy)]
pub struct Profiler {
    pub battery: Battery,
    pub profile: Profile,
}

impl Gauge for Profiler {
    ghost Begins = { ProfileBegins };

    ghost Fits = { ProfileFits };

    ghost passes = { profile_passes };

    ghost along = { profile_along };

    ghost fault = { Impassable };

    fn pass(self, road: Road, i: usize) -> Result<Profiler, Refusal> {
        let battery = self.battery;
        let Some(profile) = self.profile.then(battery, road) else {
            return Err(Refusal::Impassable(i));
        };
        Ok(Profiler { battery, profile })
    }

    ghost laws = { profile_laws };
}

// The route driven by `start` from the junction `source`: 12, 13, 14 at each place.
pub fn drive_route(roads: &[u8], route: &[u16], source: usize, start: Van) -> Result<Van, Refusal>
    requires { DriveAsks roads.now route.now start }
    ensures { DriveKeeps roads.now route.now source start result }
{
    follow(roads, route, source, start)
}

// The profile of the route from the junction `source`: 12, 13, 15 at each place.
#[tactic(auto, using(crate::proofs::Profiles::not_known, crate::proofs::Profiles::known))]
pub fn profile_route(
    roads: &[u8],
    route: &[u16],
    source: usize,
    battery: Battery,
) -> Result<Profile, Refusal>
    requires { ProfileAsks roads.now route.now battery }
    ensures { ProfileKeeps roads.now route.now source battery result }
{
    let start = Profiler {
        battery,
        profile: Profile::new(battery),
    };
    let end = follow(roads, route, source, start)?;
    Ok(end.profile)
}

// The route from the junction `source`: 12, 13 and the gauge's own fault at each place.
fn follow<G: Gauge>(roads: &[u8], route: &[u16], source: usize, start: G) -> Result<G, Refusal>
    requires { FollowAsks G.Begins roads.now route.now start }
    ensures { Follows G.along G.fault roads.now source route.now start result }
{
    let mut at = source;
    let mut gauge = start;
    for (i, entry) in route.iter().enumerate() {
        enter(roads, *entry, i, at)?;
        let road = network::road_at(roads, *entry as usize);
        gauge = gauge.pass(road, i)?;
        at = road.head as usize;
    }
    Ok(gauge)
}

// Whether the entry of place i names a road from the junction `at`: 12, 13.
#[tactic(auto, unfolding(crate::specs::Steps::enters))]
fn enter(roads: &[u8], entry: u16, i: usize, at: usize) -> Result<(), Refusal>
    ensures { result ≡ enters roads.now entry i at }
{
    check_entry(roads, entry, i)?;
    check_begin(network::road_at(roads, entry as usize), i, at)
}

// Whether the entry of place i is a road: 12. It and 13 are written by returns, as 7 to 9 are.
pub fn check_entry(roads: &[u8], entry: u16, i: usize) -> Result<(), Refusal>
    ensures { result ≡ entry_fault roads.now entry i }
{
    if roads.len() / network::ROAD_BYTES <= entry as usize {
        return Err(Refusal::NotRoad(i));
    }
    Ok(())
}

// Whether the road of place i begins at the junction `at`: 13.
pub fn check_begin(road: Road, i: usize, at: usize) -> Result<(), Refusal>
    ensures { result ≡ begin_fault road i at }
{
    if road.tail as usize != at {
        return Err(Refusal::NotHere(i));
    }
    Ok(())
}
