// Loops over the two sheets: what is looked at, merged and put back is told by links and notes in the work area (specs/Notes.antt). There 0 and d stand for
// nothing, since the lent work area has one number for each; sheets, d and n are lent one by one, as the calls with sheets are.
ghost use Rattle.std.specs.Prelude.{[], ◌≡◌, ◌+◌, ◌*◌, ◌-◌, ◌/◌, ◌%◌, ◌^◌, ◌<◌, ◌≤◌, eqb, length, get_or, MatchOption};
ghost use Rattle.sheets.specs.Records.{at as recordOf};
ghost use Rattle.sheets.specs.Sheets.{into, merged, merged_by, returned_by, sound};
ghost use Rattle.sheets.specs.Notes.{notes_in, record_at, right_in, Linked, unfit_in, Noted, Fits};

use crate::Zone;
use crate::record::{fit, merge, merges_to};
use slices::at;

// ---- what the work area says

// The note of operation t.
fn note(work: &[u32], d: usize, t: usize) -> usize
    requires { (d ≤ 65536) × (4 * d ≤ length work.now) × (t < d / 2) }
    ensures { result ≡ get_or work.now (3 * d + d / 2 + t) 0 }
{
    at(work, 3 * d + d / 2 + t)
}

// Whether place x is its own label.
fn own_label(work: &[u32], d: usize, x: usize) -> bool
    requires { (3 * d ≤ length work.now) × (x < d) }
    ensures { result ≡ eqb (get_or work.now (2 * d + x) 0) x }
{
    at(work, 2 * d + x) == x
}

// ---- what is looked at

// The record at place i of the two sheets, the sheet's d places first.
#[tactic(auto, unfolding(crate::specs::Notes::record_at))]
pub(crate) fn place_of(sheet: &[Zone], kept: &[Zone], d: usize, i: usize) -> Zone
    requires { (d ≤ length sheet.now) × (i < d + length kept.now) }
    ensures { result ≡ record_at d (record { sheet = sheet.now; kept = kept.now }) i }
{
    if i < d {
        return sheet[i];
    }
    kept[i - d]
}

// Whether z is a base's record, where l is 0, or the one that operation l - 1 left.
#[tactic(auto, unfolding(crate::specs::Sheets::sound, crate::specs::Notes::notes_in, crate::specs::Sheets::high_of, crate::specs::Notes::merge_in))]
pub(crate) fn sound_at(
    work: &[u32],
    d: usize,
    l: usize,
    z: Zone,
    sheet: &[Zone],
    kept: &[Zone],
) -> bool
    requires { (d ≤ 65536) × (4 * d ≤ length work.now) × (l ≤ d / 2) × (l ≤ length kept.now)
        × (0 < l → get_or work.now (3 * d + d / 2 + (l - 1)) 0 % 65536 < length sheet.now) }
    ensures { result ≡ sound (notes_in d work.now) (record { sheet = sheet.now; kept = kept.now }) l z }
{
    if l == 0 {
        return fit(z);
    }
    let t = l - 1;
    let high = note(work, d, t) % 65536;
    merges_to(kept[t], sheet[high], z)
}

// Whether the records that are looked at, of the d on the sheet and of the n that are kept, are right. Where the link is d nothing is looked at.
pub fn all_right(work: &[u32], d: usize, n: usize, sheet: &[Zone], kept: &[Zone]) -> bool
    requires { Linked d n work.now × (d ≤ length sheet.now) × (n ≤ length kept.now) }
    ensures { result ≡ right_in d work.now (record { sheet = sheet.now; kept = kept.now }) (d + n) 0 }
{
    (0..d + n).all(|i| {
        let l = at(work, i);
        l == d || sound_at(work, d, l, place_of(sheet, kept, d, i), sheet, kept)
    })
}

// The first place that is its own label and whose record is not fit.
pub fn first_unfit(work: &[u32], d: usize, sheet: &[Zone]) -> Option<usize>
    requires { (3 * d ≤ length work.now) × (d ≤ length sheet.now) }
    ensures { MatchOption result (d ≡ unfit_in d work.now (record { sheet = sheet.now; kept = [] }) d 0)
        (λ x. (x < d) × (x ≡ unfit_in d work.now (record { sheet = sheet.now; kept = [] }) d 0)) }
{
    (0..d).find(|x| own_label(work, d, *x) && !fit(sheet[*x]))
}

// ---- what is merged, and what is put back

// Merges the record at `high` into the one at `low`, which is kept at t as it was.
#[tactic(auto, unfolding(crate::specs::Sheets::merged))]
pub(crate) fn merge_at(sheet: &mut [Zone], kept: &mut [Zone], low: usize, high: usize, t: usize)
    requires { (low < length sheet.old) × (high < length sheet.old) × (t < length kept.old)
        × ((recordOf sheet.old low).stitches + (recordOf sheet.old high).stitches < 2 ^ 32) }
    ensures { merged (into low high) t (record { sheet = sheet.old; kept = kept.old })
        ≡ record { sheet = sheet.new; kept = kept.new } }
{
    let lower = sheet[low];
    let other = sheet[high];
    kept[t] = lower;
    sheet[low] = merge(lower, other);
}

// Makes the merges of operations n to m, in their order. A note of 0 is a removal's.
pub fn merge_all(work: &[u32], d: usize, n: usize, m: usize, sheet: &mut [Zone], kept: &mut [Zone])
    requires { Noted d n m work.now × (d ≤ length sheet.old) × (m ≤ length kept.old)
        × Fits (notes_in d work.now) n (m - n) (record { sheet = sheet.old; kept = kept.old }) }
    ensures { merged_by (notes_in d work.now) n (m - n) (record { sheet = sheet.old; kept = kept.old })
        ≡ record { sheet = sheet.new; kept = kept.new } }
{
    for t in n..m {
        let v = note(work, d, t);
        if v != 0 {
            merge_at(sheet, kept, v / 65536, v % 65536, t);
        }
    }
}

// Puts back what operations m to n kept, the last one first.
pub fn put_all_back(work: &[u32], d: usize, m: usize, n: usize, sheet: &mut [Zone], kept: &[Zone])
    requires { Noted d m n work.now × (d ≤ length sheet.old) × (n ≤ length kept.now) }
    ensures { returned_by (notes_in d work.now) n (n - m) (record { sheet = sheet.old; kept = kept.now })
        ≡ record { sheet = sheet.new; kept = kept.now } }
{
    for t in (m..n).rev() {
        let v = note(work, d, t);
        if v != 0 {
            sheet[v / 65536] = kept[t];
        }
    }
}
