// What the writer lays into a lent output: words, numbers, and the lines of the file. A line is laid where there is room for it, so that a walk over
// the lines with no room at all tells how many bytes they need.
// Output and place go side by side: a struct that holds the lent output would need in each contract a clause more, that it is the same output still.
ghost use Rattle.std.specs.Prelude.{◌≡◌, [], ◌∷◌, ◌≤◌, length};
ghost use Rattle.darts.specs.Kinds.{kind_is};
ghost use Rattle.darts.specs.Text.{decimal};
ghost use Rattle.darts.specs.File.{pair_lines};
ghost use Rattle.slices.specs.Put.{Put};
ghost use Rattle.writer.specs.Fields.{Fitted, field_line, count_line};
ghost use Rattle.slices.specs.Laid.{Space};

use darts::Kind;

// How many digits a number has.
pub fn digits(x: usize) -> usize
    requires { x ≤ 99999 }
    ensures { result ≡ length (decimal x) }
{
    match x {
        0 => 1,
        _ => x.ilog10() as usize + 1,
    }
}

// The bytes of w from a place on; the answer is the place after them.
pub fn put_bytes(output: &mut [u8], at: usize, w: &[u8]) -> usize
    requires { Space output.old at w.now }
    ensures { Put output.old output.new at result w.now }
{
    let next = at + w.len();
    output[at..next].copy_from_slice(w);
    next
}

// The decimal digits of a number, from the last to the first. By hand: the library's Display writes to a writer of its own, which may answer an error.
pub fn put_number(output: &mut [u8], at: usize, x: usize) -> usize
    requires x_bound { x ≤ 99999 }
    requires space { Space output.old at (decimal x) }
    ensures { Put output.old output.new at result (decimal x) }
{
    let end = at + digits(x);
    let mut rest = x;
    for place in (at..end).rev() {
        output[place] = (48 + rest % 10) as u8;
        rest /= 10;
    }
    end
}

// The bytes of w, a number, and the bytes of end.
pub fn put_field(output: &mut [u8], at: usize, w: &[u8], x: usize, end: &[u8]) -> usize
    requires x_bound { x ≤ 99999 }
    requires space { Space output.old at (field_line w.now x end.now) }
    ensures { Put output.old output.new at result (field_line w.now x end.now) }
{
    let number = put_bytes(output, at, w);
    let rest = put_number(output, number, x);
    put_bytes(output, rest, end)
}

// The same where there is room for it. The answer is the place after it in any case.
pub fn fit_field(output: &mut [u8], at: usize, w: &[u8], x: usize, end: &[u8]) -> usize
    requires { (x ≤ 99999) × (at ≤ 1000000) × (length w.now ≤ 16) × (length end.now ≤ 1) }
    ensures { Fitted output.old output.new at result (field_line w.now x end.now) }
{
    let next = at + w.len() + digits(x) + end.len();
    if next <= output.len() {
        return put_field(output, at, w, x, end);
    }
    next
}

// A line `pair=A B`, each field where there is room for it.
pub fn put_pair(output: &mut [u8], at: usize, a: usize, b: usize) -> usize
    requires { (a ≤ 99999) × (b ≤ 99999) × (at ≤ 900000) }
    ensures { Fitted output.old output.new at result (pair_lines (a ∷ b ∷ [])) }
{
    let second = fit_field(output, at, b"pair=", a, b" ");
    fit_field(output, second, b"", b, b"\n")
}

// A line `kernel=contract N` or `kernel=remove N`, where there is room for it.
#[tactic(auto, unfolding(crate::specs::Fields::count_line, crate::specs::Fields::field_line, darts::specs::File::kind_word))]
pub fn put_kernel(output: &mut [u8], at: usize, kind: Kind, count: usize) -> usize
    requires { (count ≤ 99999) × (at ≤ 900000) }
    ensures { Fitted output.old output.new at result (count_line (kind_is kind) count) }
{
    match kind {
        Kind::Contract => fit_field(output, at, b"kernel=contract ", count, b"\n"),
        Kind::Remove => fit_field(output, at, b"kernel=remove ", count, b"\n"),
    }
}
