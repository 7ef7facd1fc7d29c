// What the calls with sheets judge beside the records, where slices and sheets are long enough.
ghost use Rattle.std.specs.Prelude.{◌≡◌, ◌/◌, ◌≤◌, length};
ghost use Rattle.darts.specs.Answers.{no_pyramid};
ghost use Rattle.darts.specs.Calls.{cleared};
ghost use Rattle.darts.specs.Cases.{answer_of, refusal_of};
ghost use Rattle.area.specs.Area.{Room};
ghost use Rattle.noting.specs.Checks.{Reloads, Reloaded};
ghost use Rattle.pyramid.specs.Checking.{CheckedWith, BeganWith, BeginsCycles};
ghost use Rattle.pyramid.specs.Values.{state_of};

use crate::{Refusal, State};
use area::Figures;
use area::clear::clear;
use engine::Cycles;
use noting::check::{note_check, reload};
use noting::starting::places;

// 3 of a start, after which the work area is cleared. Where it is done, the work area labels each dart with the place of its vertex's record.
pub(crate) fn begin_with(darts: u32, table: &[u32], work: &mut [u32]) -> Result<Cycles, Refusal>
    requires { Room darts work.old × (darts ≤ length table.now) }
    ensures began_with { BeganWith darts table.now work.old work.new result }
    ensures begins_cycles { BeginsCycles darts table.now result }
{
    let d = darts as usize;
    match places(work, d, table) {
        Ok(base) => Ok(base),
        Err(culprits) => {
            clear(work, d);
            Err(Refusal::NoPermutation(culprits.dart, culprits.beside))
        }
    }
}

impl State {
    // 4, after which the work area is cleared, but for the records of the sheets. Where it is done, the work area holds notes and links.
    pub(crate) fn check_with(
        self,
        table: &[u32],
        history: &[u32],
        work: &mut [u32],
    ) -> Result<(), Refusal>
        requires room { Room self.darts work.old }
        requires darts_in_bounds { (self.darts ≤ length table.now) × (self.darts / 2 ≤ length history.now) }
        ensures { CheckedWith (state_of self) table.now history.now work.old work.new (answer_of result) }
    {
        let found = note_check(work, Figures::from(self), table, history);
        if self.stores(found) {
            return Ok(());
        }
        Err(self.strange(work))
    }

    // The records are right: table and history are loaded again.
    pub(crate) fn accept(self, table: &[u32], history: &[u32], work: &mut [u32])
        requires { Reloads (state_of self) table.now history.now work.old }
        ensures { Reloaded (state_of self) table.now history.now work.old work.new }
    {
        reload(work, Figures::from(self), table, history);
    }

    // It is no pyramid: 4, and the work area is cleared.
    pub(crate) fn strange(self, work: &mut [u32]) -> Refusal
        requires { Room self.darts work.old }
        ensures { (refusal_of result ≡ no_pyramid) × (work.new ≡ cleared self.darts work.old) }
    {
        clear(work, self.darts as usize);
        Refusal::NoPyramid
    }
}
