// The call that starts from a table and a sheet of records.
ghost use Rattle.std.specs.Prelude.{◌≡◌};
ghost use Rattle.yarn.specs.Calls.{start_with};
ghost use Rattle.pyramid.specs.Costs.{costs};

use crate::checking::begin_with;
use crate::sizes::fit_with;
use crate::starting::{based, unbased};
use crate::{Outcome, Refusal};
use area::clear::clear;
use sheets::Zone;
use sheets::loops::first_unfit;
use sheets::thin::records;

// Starts from the table's first D numbers and the records at the places of its vertices.
pub fn start_with(
    darts: u32,
    table: &mut [u32],
    history: &mut [u32],
    work: &mut [u32],
    sheet: &mut [Zone],
    keeps: &mut [Zone],
) -> Outcome
    ensures { costs result table.new history.new work.new sheet.new keeps.new
        ≡ start_with darts table.old history.old work.old (record { sheet = sheet.old; kept = keeps.old }) }
{
    if let Err(refusal) = fit_with(
        darts,
        table.len(),
        history.len(),
        work.len(),
        records(sheet),
        records(keeps),
    ) {
        return unbased(Err(refusal));
    }
    match begin_with(darts, table, work) {
        Ok(base) => {
            let unfit = first_unfit(work, darts as usize, sheet);
            clear(work, darts as usize);
            match unfit {
                Some(x) => unbased(Err(Refusal::UnfitRecord(x))),
                None => based(darts, base.vertices as u32, base.faces as u32, Ok(())),
            }
        }
        Err(refusal) => unbased(Err(refusal)),
    }
}
