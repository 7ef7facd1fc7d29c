// A table judged as a base.
ghost use Rattle.std.specs.Prelude.{◌≡◌, ◌≤◌, length};
ghost use Rattle.darts.specs.Calls.{cleared};
ghost use Rattle.darts.specs.Map.{permutation_test};
ghost use Rattle.area.specs.Area.{Room};
ghost use Rattle.area.specs.Verdicts.{verdict_of};
ghost use Rattle.engine.specs.Counted.{TestsCycles, BaseCounted};

use crate::Cycles;
use area::Culprits;
use area::clear::clear;
use area::load::load_base;
use darts::Kind;
use operations::cycles::label;

// The permutation test of the table's first d numbers. Where it is passed, its faces and vertices are counted, the vertices last: the forest's part then
// labels each dart with the lowest one of its vertex.
pub fn count_base(work: &mut [u32], d: usize, table: &[u32]) -> Result<Cycles, Culprits>
    requires room { Room d work.old }
    requires d_in_bounds { d ≤ length table.now }
    ensures base_counted { BaseCounted d table.now work.old work.new result }
    ensures tests_cycles { TestsCycles d table.now result }
{
    load_base(work, d, table)?;
    let faces = label(work, d, Kind::Remove);
    let vertices = label(work, d, Kind::Contract);
    Ok(Cycles { vertices, faces })
}

// The same, and the work area's first 4d numbers are zeros afterwards.
pub fn test_base(work: &mut [u32], d: usize, table: &[u32]) -> Result<Cycles, Culprits>
    requires room { Room d work.old }
    requires d_in_bounds { d ≤ length table.now }
    ensures verdict_value { verdict_of result ≡ permutation_test d table.now }
    ensures tests_cycles { TestsCycles d table.now result }
    ensures work_after { work.new ≡ cleared d work.old }
{
    let counted = count_base(work, d, table);
    clear(work, d);
    counted
}
