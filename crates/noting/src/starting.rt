// The places of the records that a base has: one for each vertex, at its lowest dart.
ghost use Rattle.std.specs.Prelude.{◌≤◌, length};
ghost use Rattle.area.specs.Area.{Room};
ghost use Rattle.engine.specs.Counted.{TestsCycles};
ghost use Rattle.noting.specs.Running.{Placed};

use area::Culprits;
use engine::Cycles;
use engine::base::count_base;

// The permutation test of the table's first d numbers. Where it is passed, vertices and faces are counted, and the forest's part labels each dart with the
// lowest dart of its vertex: the place of its vertex's record.
pub fn places(work: &mut [u32], d: usize, table: &[u32]) -> Result<Cycles, Culprits>
    requires room { Room d work.old }
    requires d_in_bounds { d ≤ length table.now }
    ensures placed { Placed d table.now work.old work.new result }
    ensures tests_cycles { TestsCycles d table.now result }
{
    count_base(work, d, table)
}
