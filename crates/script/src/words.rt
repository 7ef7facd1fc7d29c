// The words of a line: its command, and what stands after it.
ghost use Rattle.script.specs.Words.{word_of, Takes, IsFigure, ReadsNumber, ReadsZone};
ghost use Rattle.std.specs.Prelude.{◌≡◌, ◌≢◌, ◌↔◌, ◌+◌, ◌++◌, ◌∷◌, ℕ, List, Option, [], Ok, IfOk, IfSome, IsTrue, MatchOption, ◌==◌, drop, length, slice_index};
ghost use Rattle.std.specs.Iterator.{at_most};
ghost use Rattle.std.specs.List.{before_first};

use sheets::Zone;
use std::num::f64_from_bits_with_nan;

// "A line that is none of these, or that puts a number outside a room": an error line.
#[derive(Clone, Copy, Debug, PartialEq, Eq)]
pub struct Wrong;

// The commands.
#[derive(Clone, Copy, Debug, PartialEq, Eq)]
pub enum Command {
    Lend,
    Sheets,
    Table,
    History,
    Work,
    Plan,
    Ends,
    Fill,
    State,
    Stored,
    Start,
    Contract,
    Remove,
    Sweep,
    Undo,
    Unfold,
    Read,
    FlatAreas,
    Flat,
    Counts,
    Successor,
    Write,
    Show,
    Bytes,
    Sheet,
    Kept,
    YarnStart,
    YarnContract,
    YarnRemove,
    YarnSweep,
    YarnUndo,
    YarnUnfold,
    Costs,
}

// The command of a word.
impl<'a> TryFrom<&'a [u8]> for Command {
    type Error = Wrong;

    ghost try_from_gives = { λ word r. IfOk r (λ command. word_of command ≡ word.now) };

    fn try_from(word: &'a [u8]) -> Result<Command, Wrong> {
        match word {
            b"lend" => Ok(Command::Lend),
            b"sheets" => Ok(Command::Sheets),
            b"table" => Ok(Command::Table),
            b"history" => Ok(Command::History),
            b"work" => Ok(Command::Work),
            b"plan" => Ok(Command::Plan),
            b"ends" => Ok(Command::Ends),
            b"fill" => Ok(Command::Fill),
            b"state" => Ok(Command::State),
            b"stored" => Ok(Command::Stored),
            b"start" => Ok(Command::Start),
            b"contract" => Ok(Command::Contract),
            b"remove" => Ok(Command::Remove),
            b"sweep" => Ok(Command::Sweep),
            b"undo" => Ok(Command::Undo),
            b"unfold" => Ok(Command::Unfold),
            b"read" => Ok(Command::Read),
            b"flatareas" => Ok(Command::FlatAreas),
            b"flat" => Ok(Command::Flat),
            b"counts" => Ok(Command::Counts),
            b"successor" => Ok(Command::Successor),
            b"write" => Ok(Command::Write),
            b"show" => Ok(Command::Show),
            b"bytes" => Ok(Command::Bytes),
            b"sheet" => Ok(Command::Sheet),
            b"kept" => Ok(Command::Kept),
            b"yarnstart" => Ok(Command::YarnStart),
            b"yarncontract" => Ok(Command::YarnContract),
            b"yarnremove" => Ok(Command::YarnRemove),
            b"yarnsweep" => Ok(Command::YarnSweep),
            b"yarnundo" => Ok(Command::YarnUndo),
            b"yarnunfold" => Ok(Command::YarnUnfold),
            b"costs" => Ok(Command::Costs),
            _ => Err(Wrong),
        }
    }
}

impl Command {
    // Whether the command takes so many numbers, or a number and so many records less one. "A kernel has at most 32,772 edges"; there are at most 64 ends.
    pub fn takes(self, count: usize) -> bool
        ensures { IsTrue result ↔ Takes self count }
    {
        match self {
            Command::Lend | Command::FlatAreas | Command::Flat | Command::Successor => count == 3,
            Command::Sheets | Command::Stored => count == 2,
            Command::Table
            | Command::History
            | Command::Work
            | Command::Plan
            | Command::Ends
            | Command::Sheet
            | Command::Kept => 1 <= count,
            Command::State => 3 <= count && count <= 67,
            Command::Contract | Command::Remove | Command::YarnContract | Command::YarnRemove => {
                count <= 32772
            }
            Command::Fill
            | Command::Start
            | Command::Unfold
            | Command::Read
            | Command::Write
            | Command::YarnStart
            | Command::YarnUnfold => count == 1,
            Command::Sweep
            | Command::Undo
            | Command::Counts
            | Command::Show
            | Command::Bytes
            | Command::YarnSweep
            | Command::YarnUndo
            | Command::Costs => count == 0,
        }
    }
}

// The words that stand after a command, each after one space.
#[derive(Clone, Copy)]
pub struct Words<'a> {
    pub text: &'a [u8],
}

impl<'a> Iterator for Words<'a> {
    type Item = &'a [u8];

    ghost next_gives = { λ words r after. MatchOption r (words.text.now ≡ [])
        (λ word. (word.now ≡ before_first (λ b. b == 32) (drop 1 words.text.now)) × (drop 1 words.text.now ≡ word.now ++ after.text.now)) };

    ghost remaining = { λ words. at_most (length words.text.now) };

    fn next(&mut self) -> Option<&'a [u8]> {
        let (_, text) = self.text.split_first()?;
        let end = text.iter().position(|b| *b == b' ').unwrap_or(text.len());
        let (word, rest) = text.split_at(end);
        self.text = rest;
        Some(word)
    }
}

// "A number is one or more digits; leading zeros are allowed", of at most 64 bits. The library's text of a number may have a plus too, and is a str: with it a
// long script took half as much time again.
fn decimal(word: &[u8]) -> Option<u64>
    ensures { ReadsNumber 64 word.now result }
{
    let mut value = 0u64;
    for b in word {
        if !b.is_ascii_digit() {
            return None;
        }
        value = value.checked_mul(10)?.checked_add(u64::from(*b - b'0'))?;
    }
    if word.is_empty() { None } else { Some(value) }
}

// What stands before the first such byte of a text, and what stands after it.
pub(crate) fn split_once(text: &[u8], byte: u8) -> Option<(&[u8], &[u8])>
    ensures lengths { IfSome result (λ r. length r.0.now + length r.1.now + 1 ≡ length text.now) }
    ensures bytes { IfSome result (λ r. text.now ≡ r.0.now ++ byte ∷ r.1.now) }
{
    let at = text.iter().position(|b| *b == byte)?;
    Some((&text[..at], &text[at + 1..]))
}

// What a line puts into a room: a number, a byte of a plan, a record.
pub trait Entry: Copy {
    // Holds of a word and what `of` may answer for it.
    ghost of_gives: { List ℕ → Option Self → Type 0 };

    // The one that a word is.
    fn of(word: &[u8]) -> Option<Self>
        ensures { of_gives word.now result };
}

impl Entry for u32 {
    ghost of_gives = { ReadsNumber 32 };

    fn of(word: &[u8]) -> Option<u32> {
        u32::try_from(decimal(word)?).ok()
    }
}

impl Entry for u8 {
    ghost of_gives = { ReadsNumber 8 };

    fn of(word: &[u8]) -> Option<u8> {
        u8::try_from(decimal(word)?).ok()
    }
}

// `S:M`, "S its stitches, M its metres as the number of their 64 bits", or `S:-` for not measured.
impl Entry for Zone {
    ghost of_gives = { ReadsZone };

    fn of(word: &[u8]) -> Option<Zone> {
        let (stitches, figure) = split_once(word, b':')?;
        Some(Zone {
            stitches: u32::of(stitches)?,
            yarn: yarn(figure)?,
        })
    }
}

// What stands after the colon: "any pattern of a NaN gives a NaN".
fn yarn(figure: &[u8]) -> Option<Option<f64>>
    ensures { IfSome result (λ y. IsFigure figure.now y) }
{
    if figure == b"-".as_slice() {
        return Some(None);
    }
    Some(Some(f64_from_bits_with_nan(decimal(figure)?)))
}

// "At first each record is `0:0`": no stitches, and the metres of no bits.
pub fn no_yarn() -> Zone {
    Zone {
        stitches: 0,
        yarn: Some(0.0),
    }
}
