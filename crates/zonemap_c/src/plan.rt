// The calls on a plan, for C.
ghost use Rattle.std.specs.Prelude.{◌≡◌};
ghost use Rattle.grids.specs.Grid.{flat};
ghost use Rattle.grids.specs.Plans.{plan_base, plan_areas};
ghost use Rattle.zonemap_c.specs.Numbers.{left_in};

use crate::state::hand_back;

// The base of a plan.
#[unsafe(no_mangle)]
pub extern "C" fn zm_plan(
    wales: u32,
    courses: u32,
    plan: &[u8],
    state: &mut [u32; 69],
    table: &mut [u32],
    history: &mut [u32],
    work: &mut [u32],
    place: &mut usize,
    second: &mut usize,
) -> u32
    ensures { left_in result place.new second.new state.new table.new history.new work.new
        ≡ plan_base (flat wales courses) plan.now table.old history.old work.old }
{
    let outcome = plans::plan(wales, courses, plan, table, history, work);
    hand_back(outcome, state, place, second)
}

// The base of a plan, and at once a first kernel, which contracts the areas of one code.
#[unsafe(no_mangle)]
pub extern "C" fn zm_plan_areas(
    wales: u32,
    courses: u32,
    plan: &[u8],
    state: &mut [u32; 69],
    table: &mut [u32],
    history: &mut [u32],
    work: &mut [u32],
    place: &mut usize,
    second: &mut usize,
) -> u32
    ensures { left_in result place.new second.new state.new table.new history.new work.new
        ≡ plan_areas (flat wales courses) plan.now table.old history.old work.old }
{
    let outcome = plans::plan_areas(wales, courses, plan, table, history, work);
    hand_back(outcome, state, place, second)
}
