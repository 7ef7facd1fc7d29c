// What every call on a state that is lent both sheets judges first.
ghost use Rattle.std.specs.Prelude.{◌≡◌};
ghost use Rattle.darts.specs.Cases.{answer_of};
ghost use Rattle.yarn.specs.Calls.{fitting_of};
ghost use Rattle.pyramid.specs.Costs.{JudgedWith};
ghost use Rattle.pyramid.specs.Values.{state_of};

use crate::sizes::fit_with;
use crate::{Kind, Refusal, State};
use sheets::Zone;
use sheets::loops::{all_right, first_unfit};
use sheets::thin::records;

impl State {
    // 1 and 2, which write nothing, and 4, after which the work area is cleared. Where it is done, the work area holds the map, its forest of vertices judges
    // contractions, and what each operation merges is noted.
    pub(crate) fn judged_with(
        self,
        table: &[u32],
        history: &[u32],
        work: &mut [u32],
        sheet: &[Zone],
        keeps: &[Zone],
    ) -> Result<(), Refusal>
        ensures { JudgedWith (state_of self) table.now history.now work.old work.new
            (record { sheet = sheet.now; kept = keeps.now }) (answer_of result) }
    {
        fit_with(
            self.darts,
            table.len(),
            history.len(),
            work.len(),
            records(sheet),
            records(keeps),
        )?;
        if self.operations == 0 {
            return self.judged_base(table, history, work, sheet, keeps);
        }
        self.check_with(table, history, work)?;
        let d = self.darts as usize;
        let n = self.operations as usize;
        if all_right(work, d, n, sheet, keeps) {
            self.accept(table, history, work);
            return Ok(());
        }
        Err(self.strange(work))
    }

    // The same at a base, once slices and sheets are long enough: what the plain call judges, and then the record at each place that is its own label.
    // Nothing was merged yet, so no links are needed.
    pub(crate) fn judged_base(
        self,
        table: &[u32],
        history: &[u32],
        work: &mut [u32],
        sheet: &[Zone],
        keeps: &[Zone],
    ) -> Result<(), Refusal>
        requires base { self.operations ≡ 0 }
        requires fits { (fitting_of self.darts table.now history.now work.old (record { sheet = sheet.now; kept = keeps.now })).number ≡ 0 }
        ensures { JudgedWith (state_of self) table.now history.now work.old work.new
            (record { sheet = sheet.now; kept = keeps.now }) (answer_of result) }
    {
        self.judged(Some(Kind::Contract), table, history, work)?;
        match first_unfit(work, self.darts as usize, sheet) {
            None => Ok(()),
            Some(_) => Err(self.strange(work)),
        }
    }
}
