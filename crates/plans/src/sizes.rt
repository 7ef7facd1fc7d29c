// What both calls on a plan judge first, and the base that they begin from.
ghost use Rattle.std.specs.Prelude.{◌≡◌, T};
ghost use Rattle.darts.specs.Cases.{answer_of};
ghost use Rattle.darts.specs.State.{base_state};
ghost use Rattle.grids.specs.Base.{base_table};
ghost use Rattle.grids.specs.Grid.{flat, sized, darts_of};
ghost use Rattle.grids.specs.Plans.{fitting_plan};
ghost use Rattle.pyramid.specs.Values.{state_of};
ghost use Rattle.plans.specs.Limits.{Sized};

use darts::Refusal;
use darts::answers::fit;
use pyramid::State;

// Whether a plan's size is inside the limits, and not one cell alone.
fn size(wales: u32, courses: u32) -> bool
    ensures { result ≡ sized (flat wales courses) }
{
    (1..=128).contains(&wales) && (1..=128).contains(&courses) && wales * courses != 1
}

// How many darts the plan's base has.
pub(crate) fn darts_of(wales: u32, courses: u32) -> u32
    requires { Sized wales courses }
    ensures { result ≡ darts_of (flat wales courses) }
{
    2 * ((wales - 1) * courses + wales * (courses - 1))
}

// Answers 15 and 2: the plan's size, then the lengths of what is lent and of the plan.
pub(crate) fn fit_plan(
    wales: u32,
    courses: u32,
    plan: usize,
    table: usize,
    history: usize,
    work: usize,
) -> Result<(), Refusal>
    ensures { answer_of result ≡ fitting_plan (flat wales courses) plan table history work }
{
    if !size(wales, courses) {
        return Err(Refusal::NoPlanSize);
    }
    fit(darts_of(wales, courses), table, history, work)?;
    if plan < (wales * courses) as usize {
        return Err(Refusal::TooShort(0));
    }
    Ok(())
}

// The plan's base, with its numbers: a vertex for each cell, a face for each square of four cells, and the outer face.
pub(crate) fn base_of(wales: u32, courses: u32) -> State
    requires { T (sized (flat wales courses)) }
    ensures { state_of result ≡ base_state (darts_of (flat wales courses)) (base_table (flat wales courses)) }
{
    let vertices = wales * courses;
    let faces = (wales - 1) * (courses - 1) + 1;
    State::base(darts_of(wales, courses), vertices, faces)
}
