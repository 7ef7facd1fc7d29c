// A line of the script: a command, its numbers or its records, and for `read` the bytes after it.
ghost use Rattle.std.specs.Prelude.{◌≡◌, ◌+◌, ◌<◌, ◌≤◌, IfOk, IfSome, length};

use crate::words::{Command, Entry, Words, Wrong, split_once};
use sheets::Zone;

// The first numbers of one line: those of a kernel, or of a call. What a line puts into a room is read from its words.
pub type NumbersRoom = [u32; 32772];

// A command; how many numbers and records it has, and their words; the bytes of the file of `read`; and the script after the line.
#[derive(Clone, Copy)]
pub struct Line<'a> {
    pub command: Command,
    pub count: usize,
    pub words: Words<'a>,
    pub file: &'a [u8],
    pub rest: &'a [u8],
}

// A place, and records after it: how many words they are.
fn records(words: Words) -> Option<usize> {
    let mut count = 0;
    for (i, word) in words.enumerate() {
        if i == 0 {
            u32::of(word)?;
        } else {
            Zone::of(word)?;
        }
        count = i + 1;
    }
    Some(count)
}

// Numbers, of which as many as fit are put into their room: how many there are.
fn take(words: Words, numbers: &mut NumbersRoom) -> Option<usize> {
    let mut count = 0;
    for (i, word) in words.enumerate() {
        let number = u32::of(word)?;
        if let Some(slot) = numbers.get_mut(i) {
            *slot = number;
        }
        count = i + 1;
    }
    Some(count)
}

// The bytes of the file of `read N`, "the N bytes that follow this line's line feed, and after them one more line feed", and the script after them.
fn file(script: &[u8], size: usize) -> Option<(&[u8], &[u8])>
    ensures { IfSome result (λ r. (length r.0.now ≡ size) × (size + length r.1.now + 1 ≡ length script.now)) }
{
    let (file, rest) = script.split_at_checked(size)?;
    Some((file, rest.strip_prefix(b"\n")?))
}

// The script's first line. Its first numbers are put at the start of their room. No line has more of them than a place and the whole of the work room.
pub fn next_line<'a>(script: &'a [u8], numbers: &mut NumbersRoom) -> Result<Line<'a>, Wrong>
    ensures count { IfOk result (λ line. line.count ≤ 262161) }
    ensures rest { IfOk result (λ line. length line.rest.now < length script.now) }
{
    let (line, rest) = split_once(script, b'\n').ok_or(Wrong)?;
    let end = line.iter().position(|b| *b == b' ').unwrap_or(line.len());
    let command = Command::try_from(&line[..end])?;
    let words = Words { text: &line[end..] };
    // one walk over the words, since a script may be long and each of its numbers is read once more where it is put into a room
    let count = match command {
        Command::Sheet | Command::Kept => records(words),
        _ => take(words, numbers),
    }
    .ok_or(Wrong)?;
    if 262161 < count || !command.takes(count) {
        return Err(Wrong);
    }
    let (file, rest) = match command {
        Command::Read => file(rest, numbers[0] as usize).ok_or(Wrong)?,
        _ => (b"".as_slice(), rest),
    };
    Ok(Line {
        command,
        count,
        words,
        file,
        rest,
    })
}
