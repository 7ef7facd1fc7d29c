// The file of a drawing whose lines are all right.
ghost use Rattle.std.specs.Prelude.{◌≡◌};
ghost use Rattle.grids.specs.Grid.{flat};
ghost use Rattle.pyramid.specs.Values.{left};
ghost use Rattle.writer.specs.Filed.{filed};
ghost use Rattle.plan.specs.Drawing.{Right};
ghost use Rattle.plan.specs.Files.{drawn, printed};

use crate::drawing::{turn, wales};
use crate::rooms::Rooms;
use crate::words::Wanted;
use pyramid::{Outcome, Refusal};

impl Rooms {
    // The call on the plan of a drawing. A drawing of any size has room for its plan: the call judges the size.
    fn build(&mut self, drawing: &[u8], wanted: Wanted) -> Outcome
        requires { Right drawing.now }
        ensures built { left result self.new.table self.new.history self.new.work
            ≡ drawn wanted drawing.now self.old.table self.old.history self.old.work }
        ensures output { self.new.output ≡ self.old.output }
    {
        let w = wales(drawing);
        let c = drawing.len() / (w + 1);
        turn(drawing, w, c, &mut self.plan);
        let plan = &self.plan[..w * c];
        let table = &mut self.table;
        let history = &mut self.history;
        let work = &mut self.work;
        match wanted {
            Wanted::Base => plans::plan(w as u32, c as u32, plan, table, history, work),
            Wanted::Areas => plans::plan_areas(w as u32, c as u32, plan, table, history, work),
        }
    }

    // The answer to a drawing. Where its plan is accepted, the file is in the output, and its length is handed back.
    pub fn file(&mut self, drawing: &[u8], wanted: Wanted) -> Result<usize, Refusal>
        requires { Right drawing.now }
        ensures { filed result self.new.table self.new.history self.new.work self.new.output
            ≡ printed wanted drawing.now self.old.table self.old.history self.old.work self.old.output }
    {
        let outcome = self.build(drawing, wanted);
        outcome.answer?;
        writer::write(
            outcome.state,
            &mut self.table,
            &mut self.history,
            &mut self.work,
            &mut self.output,
        )
    }
}
