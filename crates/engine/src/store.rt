// From the work area back into the lent table and history.
ghost use Rattle.std.specs.Prelude.{◌≡◌, ◌≤◌, ◌+◌, ◌*◌, length};
ghost use Rattle.slices.specs.Over.{over};
ghost use Rattle.slices.specs.Part.{part};
ghost use Rattle.area.specs.Area.{Room, table_in};

use slices::copy;

// The table of d numbers and the m history numbers are written over the first ones of the lent slices.
pub fn store(work: &[u32], d: usize, m: usize, table: &mut [u32], history: &mut [u32])
    requires room { Room d work.now }
    requires m_le_d { (m ≤ d) × (d ≤ length table.old) × (m ≤ length history.old) }
    ensures table_after { table.new ≡ over (table_in d work.now) table.old }
    ensures history_after { history.new ≡ over (part (3 * d) (3 * d + m) work.now) history.old }
{
    copy(table, work, d);
    let a = 3 * d;
    let e = a + m;
    copy(history, &work[a..e], m);
}
