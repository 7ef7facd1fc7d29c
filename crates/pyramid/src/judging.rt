// What every call on a state judges first.
ghost use Rattle.std.specs.Prelude.{◌≡◌};
ghost use Rattle.darts.specs.Cases.{answer_of};
ghost use Rattle.engine.specs.Checks.{coming_of};
ghost use Rattle.pyramid.specs.Steps.{Judged, stored};
ghost use Rattle.pyramid.specs.Values.{state_of};

use crate::{Kind, Refusal, State};
use area::Figures;
use area::clear::clear;
use darts::answers::fit;
use engine::Cycles;
use engine::check::check;

impl State {
    // Whether it is a pyramid, and the stored numbers are those that the check found.
    pub(crate) fn stores(self, found: Option<Cycles>) -> bool
        ensures { result ≡ stored (state_of self) found }
    {
        found.is_some_and(|cycles| {
            cycles.vertices == self.vertices as usize && cycles.faces == self.faces as usize
        })
    }

    // 1 and 2, which write nothing, and 4, after which the work area is cleared: it is no pyramid, or the stored numbers are not those of the cycles. Where
    // it is done, the work area holds the map, and its forest judges the coming kernel.
    pub fn judged(
        self,
        coming: Option<Kind>,
        table: &[u32],
        history: &[u32],
        work: &mut [u32],
    ) -> Result<(), Refusal>
        ensures { Judged (state_of self) (coming_of coming) table.now history.now work.old work.new (answer_of result) }
    {
        fit(self.darts, table.len(), history.len(), work.len())?;
        let found = check(work, Figures::from(self), coming, table, history);
        if self.stores(found) {
            return Ok(());
        }
        clear(work, self.darts as usize);
        Err(Refusal::NoPyramid)
    }
}
