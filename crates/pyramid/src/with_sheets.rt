// The calls that are lent both sheets: the zones' records, and the records that contractions kept. Each goes as the plain call does, and the sheets are
// written once nothing can be refused any more.
ghost use Rattle.std.specs.Prelude.{◌≡◌};
ghost use Rattle.darts.specs.Calls.{reduce_by};
ghost use Rattle.darts.specs.Kinds.{kind_is};
ghost use Rattle.darts.specs.Operation.{removal};
ghost use Rattle.yarn.specs.Calls.{reduce_with, sweep_with, undo_with, unfold_with};
ghost use Rattle.pyramid.specs.Costs.{StoodWith, Righted, costs, costs_left, contracts_with};
ghost use Rattle.pyramid.specs.Steps.{Stood};
ghost use Rattle.pyramid.specs.Values.{state_of, left, unsettled};

use crate::{Kind, Outcome, State};
use area::clear::clear;
use noting::run::run_noted;
use operations::cycles::label;
use sheets::Zone;
use sheets::loops::{merge_all, put_all_back};

impl State {
    // A kernel of contractions once it is judged: the merges are made when the whole kernel is accepted. The work area is cleared.
    pub(crate) fn contract_with(
        self,
        kernel: &[u32],
        table: &mut [u32],
        history: &mut [u32],
        work: &mut [u32],
        sheet: &mut [Zone],
        keeps: &mut [Zone],
    ) -> Outcome
        requires stood_with { StoodWith (state_of self) table.old history.old work.old }
        requires righted { Righted (state_of self) table.old history.old (record { sheet = sheet.old; kept = keeps.old }) }
        ensures { costs_left result table.new history.new work.new sheet.new keeps.new
            ≡ contracts_with kernel.now (state_of self) table.old history.old work.old
            (record { sheet = sheet.old; kept = keeps.old }) }
    {
        if 64 <= self.levels {
            return self.full(work);
        }
        let d = self.darts as usize;
        let n = self.operations as usize;
        let ran = run_noted(work, d, n, kernel);
        let o = self.level(ran, table, history, work);
        merge_all(work, d, n, o.state.operations as usize, sheet, keeps);
        clear(work, d);
        o
    }

    // A kernel of removals once it is judged, which leaves both sheets. The judging leaves a forest of vertices: one of faces is made on the map as it stands.
    pub(crate) fn remove_stood(
        self,
        kernel: &[u32],
        table: &mut [u32],
        history: &mut [u32],
        work: &mut [u32],
    ) -> Outcome
        requires { Stood (state_of self) 1 table.old history.old work.old }
        ensures { unsettled (left result table.new history.new work.new)
            ≡ unsettled (reduce_by removal kernel.now (state_of self) table.old history.old work.old) }
    {
        label(work, self.darts as usize, Kind::Remove);
        self.reduce_judged(Kind::Remove, kernel, table, history, work)
    }

    // Reduce by a kernel.
    pub fn reduce_with(
        self,
        kind: Kind,
        kernel: &[u32],
        table: &mut [u32],
        history: &mut [u32],
        work: &mut [u32],
        sheet: &mut [Zone],
        keeps: &mut [Zone],
    ) -> Outcome
        ensures { costs result table.new history.new work.new sheet.new keeps.new
            ≡ reduce_with (kind_is kind) kernel.now (state_of self) table.old history.old work.old
            (record { sheet = sheet.old; kept = keeps.old }) }
    {
        if let Err(refusal) = self.judged_with(table, history, work, sheet, keeps) {
            return self.refused(refusal);
        }
        let o = match kind {
            Kind::Contract => self.contract_with(kernel, table, history, work, sheet, keeps),
            Kind::Remove => self.remove_stood(kernel, table, history, work),
        };
        self.settle(o, history)
    }

    // The sweep: removals, which leave both sheets.
    pub fn sweep_with(
        self,
        table: &mut [u32],
        history: &mut [u32],
        work: &mut [u32],
        sheet: &mut [Zone],
        keeps: &mut [Zone],
    ) -> Outcome
        ensures { costs result table.new history.new work.new sheet.new keeps.new
            ≡ sweep_with (state_of self) table.old history.old work.old
            (record { sheet = sheet.old; kept = keeps.old }) }
    {
        if let Err(refusal) = self.judged_with(table, history, work, sheet, keeps) {
            return self.refused(refusal);
        }
        let o = self.sweep_judged(table, history, work);
        self.settle(o, history)
    }

    // Back to a level: what the contractions above it kept is put back, the last one first.
    pub fn unfold_with(
        self,
        level: u32,
        table: &mut [u32],
        history: &mut [u32],
        work: &mut [u32],
        sheet: &mut [Zone],
        keeps: &mut [Zone],
    ) -> Outcome
        ensures { costs result table.new history.new work.new sheet.new keeps.new
            ≡ unfold_with level (state_of self) table.old history.old work.old
            (record { sheet = sheet.old; kept = keeps.old }) }
    {
        if let Err(refusal) = self.judged_with(table, history, work, sheet, keeps) {
            return self.refused(refusal);
        }
        let d = self.darts as usize;
        let n = self.operations as usize;
        let m = self.operations_at(level) as usize;
        put_all_back(work, d, m, n, sheet, keeps);
        let o = self.unfold_judged(level, table, history, work);
        self.settle(o, history)
    }

    // The last level undone.
    pub fn undo_with(
        self,
        table: &mut [u32],
        history: &mut [u32],
        work: &mut [u32],
        sheet: &mut [Zone],
        keeps: &mut [Zone],
    ) -> Outcome
        ensures { costs result table.new history.new work.new sheet.new keeps.new
            ≡ undo_with (state_of self) table.old history.old work.old
            (record { sheet = sheet.old; kept = keeps.old }) }
    {
        self.unfold_with(self.level_below(), table, history, work, sheet, keeps)
    }
}
