// The public entries. Each takes any bytes and any numbers, asks nothing of its caller, and ends
// with its answer or with one numbered refusal.
#![tactic(auto)]

ghost use Rattle.promises.specs.Given.{check_numbers, plan_numbers, drive_numbers, profile_numbers};
ghost use Rattle.promises.specs.Promises.{Checks, Plans, Drives, Profiles};
ghost use Rattle.planner.specs.Planning.{PlanAsks, FoundAsks, FoundKeeps};

use battery::{Profile, Van};
use promises::{DriveQuestion, PlanQuestion, ProfileQuestion, Route};
use refusals::Refusal;
use search::Trip;

// Network check: success or the first fault.
pub fn check(nodes: &[u8], roads: &[u8]) -> Result<(), Refusal>
    ensures { Checks nodes.now roads.now (check_numbers result) }
{
    network::check(nodes, roads)
}

// Best route: of all walks from source to target, of any length, one that arrives with the most
// charge. Its roads stand at the front of the list.
pub fn best_route(
    nodes: &[u8],
    roads: &[u8],
    question: PlanQuestion,
    list: &mut [u16],
) -> Result<Route, Refusal>
    ensures { Plans nodes.now roads.now question list.old (plan_numbers result) list.new }
{
    orders::check_plan(nodes, roads, question, list.len())?;
    let van = orders::van_of(question.battery, question.start);
    plan(nodes, roads, question, van, list)
}

// Drive of a given route: arrival and totals, or the first fault. Drive and profile differ in each of
// their three calls, so that one function of both would only be given the three.
pub fn drive(
    nodes: &[u8],
    roads: &[u8],
    question: DriveQuestion,
    route: &[u16],
) -> Result<Van, Refusal>
    ensures { Drives nodes.now roads.now question route.now (drive_numbers result) }
{
    orders::check_drive(nodes, roads, question, route.len())?;
    let van = orders::van_of(question.battery, question.start);
    routes::drive_route(roads, route, question.source as usize, van)
}

// Profile of a given route: need, sum and top, or the first fault.
pub fn profile(
    nodes: &[u8],
    roads: &[u8],
    question: ProfileQuestion,
    route: &[u16],
) -> Result<Profile, Refusal>
    ensures { Profiles nodes.now roads.now question route.now (profile_numbers result) }
{
    orders::check_profile(nodes, roads, question, route.len())?;
    let battery = orders::battery_of(question.battery);
    routes::profile_route(roads, route, question.source as usize, battery)
}

// The search, and the drive of the route that it found: the totals come from the roads driven.
fn plan(
    nodes: &[u8],
    roads: &[u8],
    question: PlanQuestion,
    van: Van,
    list: &mut [u16],
) -> Result<Route, Refusal>
    requires { PlanAsks nodes.now roads.now question van list.old }
    ensures { Plans nodes.now roads.now question list.old (plan_numbers result) list.new }
{
    let battery = van.battery;
    let trip = Trip {
        source: question.source as usize,
        label: van.charge + 1,
        target: question.target as usize,
    };
    let count = trips::find(nodes, roads, battery, trip, list)?;
    drive_found(roads, &list[..count], trip.source, van)
}

// The drive of a route that is known to be drivable, so that no fault is found.
fn drive_found(roads: &[u8], route: &[u16], source: usize, van: Van) -> Result<Route, Refusal>
    requires { FoundAsks roads.now route.now source van }
    ensures { FoundKeeps roads.now route.now van result }
{
    let end = routes::drive_route(roads, route, source, van)?;
    Ok(Route {
        roads: route.len(),
        end,
    })
}
