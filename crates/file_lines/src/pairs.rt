// The D/2 lines `pair=A B`, read into a lent table.
ghost use Rattle.std.specs.Prelude.{◌≡◌, map, ◌≤◌, length};
ghost use Rattle.darts.specs.Read.{from_flag};
ghost use Rattle.file_lines.specs.Lines.{pair_of};
ghost use Rattle.slices.specs.Laid.{laid, Space};
ghost use Rattle.file_lines.specs.Pairs.{PairsRead, LastRead};

use crate::lines::pair_line;
use darts::Refusal;

// A number of a pair as a dart. One that is no dart, 0 under F = 1, becomes D, which is none either.
#[tactic(auto, unfolding(darts::specs::Read::from_flag))]
fn from_flag(flag: usize, d: usize, x: usize) -> usize
    ensures { result ≡ from_flag flag d x }
{
    if flag == 0 {
        return x;
    }
    if x == 0 {
        return d;
    }
    x - 1
}

// The two numbers of a pair from a place of the table on, as darts.
fn lay_pair(table: &mut [u32], at: usize, d: usize, flag: usize, pair: (usize, usize))
    requires space { Space table.old at (pair_of pair) }
    requires d_bound { (d ≤ 65536) × (pair.0 ≤ 99999) × (pair.1 ≤ 99999) }
    ensures { table.new ≡ laid table.old at (map (from_flag flag d) (pair_of pair)) }
{
    let (a, b) = pair;
    table[at] = from_flag(flag, d, a) as u32;
    table[at + 1] = from_flag(flag, d, b) as u32;
}

// D/2 lines `pair=A B`: the entries of darts 0 and 1, 2 and 3, and so on; the place after the last line.
pub fn pairs(
    bytes: &[u8],
    at: usize,
    d: usize,
    flag: usize,
    table: &mut [u32],
) -> Result<usize, Refusal>
    requires { (d ≤ 65536) × (d ≤ length table.old) }
    ensures { PairsRead bytes.now at d flag table.old table.new result }
{
    let mut place = at;
    for i in 0..d / 2 {
        let (pair, next) = pair_line(bytes, place)?;
        lay_pair(table, 2 * i, d, flag, pair);
        place = next;
    }
    Ok(place)
}

// The lines of the pairs into a table, with nothing after the last.
pub fn last_pairs(
    bytes: &[u8],
    at: usize,
    d: usize,
    flag: usize,
    table: &mut [u32],
) -> Result<usize, Refusal>
    requires { (d ≤ 65536) × (d ≤ length table.old) }
    ensures { LastRead bytes.now at d flag table.old table.new result }
{
    let next = pairs(bytes, at, d, flag, table)?;
    if next != bytes.len() {
        return Err(Refusal::NoFile(next));
    }
    Ok(next)
}
