// The C boundary: the five public entries under their C names. A file or a list is a pointer and a
// length; the answers are the planner's numbers, by value. include/sedge.h declares them for C, whose
// parameters they have.
#![tactic(auto)]

ghost use Rattle.promises.specs.Promises.{SetsOff};
ghost use Rattle.promises.specs.Promises.{Checks, Plans, Drives, Profiles};
ghost use Rattle.sedge.specs.Questions.{plan_question, drive_question, profile_question, set_off_question};

use promises::{
    CheckNumbers, DriveNumbers, DriveQuestion, PlanNumbers, PlanQuestion, ProfileNumbers,
    ProfileQuestion, SetOffQuestion,
};

// Network check.
#[unsafe(no_mangle)]
pub extern "C" fn sedge_check(nodes: &[u8], roads: &[u8]) -> CheckNumbers
    ensures { Checks nodes.now roads.now result }
{
    planner::check(nodes, roads).into()
}

// Best route.
#[unsafe(no_mangle)]
pub extern "C" fn sedge_best_route(
    nodes: &[u8],
    roads: &[u8],
    battery: i64,
    start: i64,
    source: u64,
    target: u64,
    route: &mut [u16],
) -> PlanNumbers
    ensures { Plans nodes.now roads.now (plan_question battery start source target) route.old result route.new }
{
    let question = PlanQuestion {
        battery,
        start,
        source,
        target,
    };
    planner::best_route(nodes, roads, question, route).into()
}

// Drive of a given route.
#[unsafe(no_mangle)]
pub extern "C" fn sedge_drive(
    nodes: &[u8],
    roads: &[u8],
    battery: i64,
    start: i64,
    source: u64,
    route: &[u16],
) -> DriveNumbers
    ensures { Drives nodes.now roads.now (drive_question battery start source) route.now result }
{
    let question = DriveQuestion {
        battery,
        start,
        source,
    };
    planner::drive(nodes, roads, question, route).into()
}

// Profile of a given route.
#[unsafe(no_mangle)]
pub extern "C" fn sedge_profile(
    nodes: &[u8],
    roads: &[u8],
    battery: i64,
    source: u64,
    route: &[u16],
) -> ProfileNumbers
    ensures { Profiles nodes.now roads.now (profile_question battery source) route.now result }
{
    let question = ProfileQuestion { battery, source };
    planner::profile(nodes, roads, question, route).into()
}

// The charge to set off with.
#[unsafe(no_mangle)]
pub extern "C" fn sedge_set_off(
    nodes: &[u8],
    roads: &[u8],
    battery: i64,
    depot: u64,
    list: &mut [i32],
) -> CheckNumbers
    ensures { SetsOff nodes.now roads.now (set_off_question battery depot) list.old result list.new }
{
    let question = SetOffQuestion { battery, depot };
    depot::set_off(nodes, roads, question, list).into()
}
