// The first kernel, in the work area.
ghost use Rattle.std.specs.Prelude.{[], Ok, ◌≡◌, ◌≤◌, ◌<◌, length};
ghost use Rattle.laws.specs.Standing.{Standing};
ghost use Rattle.area.specs.Area.{Room, table_in};
ghost use Rattle.engine.specs.Held.{Ready};
ghost use Rattle.engine.specs.Runs.{Went};
ghost use Rattle.grids.specs.Grid.{flat, cells, edges, darts_of};
ghost use Rattle.grids.specs.Base.{base_table};
ghost use Rattle.grids.specs.Plans.{one_code, first_kernel};
ghost use Rattle.plans.specs.Limits.{Sized};
ghost use Rattle.plans.specs.Prepared.{Bound, Prepared};

use crate::laying::lay_base;
use darts::Kind;
use engine::kernel::turn;
use operations::cycles::label;
use slices::at;

// Whether both ends of edge e have the same code: the cells of one along a course are neighbours, an upright one's stand a course apart.
fn one_code(plan: &[u8], w: usize, c: usize, e: usize) -> bool
    requires sized { Sized w c }
    requires e_bound { e < edges (flat w c) }
    requires c_in_bounds { cells (flat w c) ≤ length plan.now }
    ensures { result ≡ one_code (flat w c) plan.now e }
{
    let a = (w - 1) * c;
    if e < a {
        let k = e + e / (w - 1);
        return plan[k] == plan[k + 1];
    }
    let k = e - a;
    plan[k] == plan[k + w]
}

// Each dart of a base is noted before its successor. A base needs no test: no two darts lead to one, and every dart is led to.
fn bind_base(work: &mut [u32], d: usize)
    requires room { Room d work.old }
    requires standing { Standing d (table_in d work.old) [] }
    ensures { Bound d d work.old work.new }
{
    for x in 0..d {
        let y = at(work, x);
        work[d + y] = x as u32;
    }
}

// The base in the work area, with the dart before each dart and a tree for each vertex.
fn prepare(work: &mut [u32], w: usize, c: usize, d: usize)
    requires sized { Sized w c }
    requires d_value { d ≡ darts_of (flat w c) }
    requires room { Room d work.old }
    ensures { Prepared (flat w c) d work.old work.new }
{
    lay_base(work, w, c);
    bind_base(work, d);
    label(work, d, Kind::Contract);
}

// The contractions: one pass over the edges by rising number. An edge of one code that is refused at its turn is passed over. How many were taken.
fn take_edges(work: &mut [u32], w: usize, c: usize, d: usize, plan: &[u8]) -> usize
    requires sized { Sized w c }
    requires c_in_bounds { cells (flat w c) ≤ length plan.now }
    requires d_value { d ≡ darts_of (flat w c) }
    requires ready { Ready d 0 1 work.old }
    requires work_value { table_in d work.old ≡ base_table (flat w c) }
    ensures { Went d (first_kernel (flat w c) plan.now) work.old work.new (Ok result) }
{
    let mut m = 0;
    for e in 0..d / 2 {
        if one_code(plan, w, c, e) && turn(work, d, m, Kind::Contract, e, m).is_ok() {
            m += 1;
        }
    }
    m
}

// The base, and the first kernel's run on it. How many operations there are then.
pub(crate) fn first_kernel(work: &mut [u32], w: usize, c: usize, d: usize, plan: &[u8]) -> usize
    requires sized { Sized w c }
    requires c_in_bounds { cells (flat w c) ≤ length plan.now }
    requires d_value { d ≡ darts_of (flat w c) }
    requires room { Room d work.old }
    ensures { Went (darts_of (flat w c)) (first_kernel (flat w c) plan.now) work.old work.new (Ok result) }
{
    prepare(work, w, c, d);
    take_edges(work, w, c, d, plan)
}
