// The calls that begin from a plan.
ghost use Rattle.std.specs.Prelude.{◌≡◌};
ghost use Rattle.grids.specs.Grid.{flat};
ghost use Rattle.grids.specs.Plans.{plan_base, plan_areas};
ghost use Rattle.pyramid.specs.Values.{left};

use crate::first::first_kernel;
use crate::laying::lay_base;
use crate::sizes::{base_of, darts_of, fit_plan};
use area::clear::clear;
use darts::Refusal;
use pyramid::Outcome;
use pyramid::starting::unbased;

// The base of a plan: so many wales, so many courses, one code a cell.
pub fn plan(
    wales: u32,
    courses: u32,
    plan: &[u8],
    table: &mut [u32],
    history: &mut [u32],
    work: &mut [u32],
) -> Outcome
    ensures { left result table.new history.new work.new
        ≡ plan_base (flat wales courses) plan.now table.old history.old work.old }
{
    if let Err(refusal) = fit_plan(
        wales,
        courses,
        plan.len(),
        table.len(),
        history.len(),
        work.len(),
    ) {
        return unbased(Err(refusal));
    }
    lay_base(table, wales as usize, courses as usize);
    clear(work, darts_of(wales, courses) as usize);
    base_of(wales, courses).done()
}

// The base of a plan, and at once a first kernel, which contracts the areas of one code.
pub fn plan_areas(
    wales: u32,
    courses: u32,
    plan: &[u8],
    table: &mut [u32],
    history: &mut [u32],
    work: &mut [u32],
) -> Outcome
    ensures { left result table.new history.new work.new
        ≡ plan_areas (flat wales courses) plan.now table.old history.old work.old }
{
    if let Err(refusal) = fit_plan(
        wales,
        courses,
        plan.len(),
        table.len(),
        history.len(),
        work.len(),
    ) {
        return unbased(Err(refusal));
    }
    let d = darts_of(wales, courses) as usize;
    let m = first_kernel(work, wales as usize, courses as usize, d, plan);
    if m == 0 {
        clear(work, d);
        return unbased(Err(Refusal::EmptyKernel));
    }
    let base = base_of(wales, courses);
    let o = base.level(Ok(m), table, history, work);
    clear(work, d);
    base.settle(o, history)
}
