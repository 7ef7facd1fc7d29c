// What stands at a place of a file: a word, or a number between two words. The first wrong byte decides.
ghost use Rattle.std.specs.Prelude.{◌≡◌, false, MatchOption};
ghost use Rattle.darts.specs.Scan.{byte_at, word as word_at, is_digit, number_on, number_at, field as field_at};
ghost use Rattle.file_lines.specs.Found.{byte_of, Digit, place_of, number_of, scan_of};

use darts::Refusal;

// What was found at a place, with the place after it; or what is wrong.
pub type Scanned<T> = Result<(T, usize), Refusal>;

// The byte at a place, none where the file has ended.
pub(crate) fn byte_at(bytes: &[u8], at: usize) -> Option<u8>
    ensures { byte_of result ≡ byte_at bytes.now at }
{
    bytes.get(at).copied()
}

// The bytes of w: the place after them. The first byte that differs is wrong. A place may be any number, so it is only stepped past a byte that is there.
pub(crate) fn word(bytes: &[u8], at: usize, w: &[u8]) -> Result<usize, Refusal>
    ensures { place_of result ≡ word_at w.now bytes.now at }
{
    let mut place = at;
    for c in w {
        if byte_at(bytes, place) != Some(*c) {
            return Err(Refusal::NoFile(place));
        }
        place += 1;
    }
    Ok(place)
}

// The value of the digit at a place, none where no digit stands there.
#[tactic(auto, unfolding(darts::specs::Scan::is_digit))]
fn digit_at(bytes: &[u8], at: usize) -> Option<usize>
    ensures { MatchOption result (is_digit (byte_at bytes.now at) ≡ false) (λ x. Digit bytes.now at x) }
{
    let c = byte_at(bytes, at)?;
    if c.is_ascii_digit() {
        Some((c - b'0') as usize)
    } else {
        None
    }
}

// The number that the digits from a place on make, up to five of them, and the place after them.
fn digits(bytes: &[u8], at: usize) -> (usize, usize)
    ensures { number_of result ≡ number_on 5 bytes.now at 0 }
{
    let mut x = 0;
    let mut place = at;
    for i in 0..5u8 {
        let Some(digit) = digit_at(bytes, place) else {
            break;
        };
        x = 10 * x + digit;
        place += 1;
    }
    (x, place)
}

// A number in good form: one to five digits, no leading zero but for 0 itself.
pub(crate) fn number(bytes: &[u8], at: usize) -> Scanned<usize>
    ensures { scan_of (λ x. x) result ≡ number_at bytes.now at }
{
    match digit_at(bytes, at) {
        None => Err(Refusal::NoFile(at)),
        Some(0) => Ok((0, at + 1)),
        Some(_) => Ok(digits(bytes, at)),
    }
}

// The bytes of w, a number, and the bytes of end.
#[tactic(auto, unfolding(darts::specs::Scan::field))]
pub(crate) fn field(bytes: &[u8], at: usize, w: &[u8], end: &[u8]) -> Scanned<usize>
    ensures { scan_of (λ x. x) result ≡ field_at w.now end.now bytes.now at }
{
    let from = word(bytes, at, w)?;
    let (x, to) = number(bytes, from)?;
    let next = word(bytes, to, end)?;
    Ok((x, next))
}
