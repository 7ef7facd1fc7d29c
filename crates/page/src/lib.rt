// A page of text on its way to a writer: what is printed on it waits, and a full page is written before more is put on it. And the bytes of an
// input, read into room that is fixed. The only error is the writer's own, or the reader's, passed on as it came.
#![tactic(auto)]

ghost use Rattle.std.specs.Prelude.{◌≡◌, ◌<◌, ◌≤◌, ◌++◌, ◌⊎◌, [], take, IfOk, OnOk, OnErr, length};
ghost use Rattle.std.specs.Io.{WritesAtMost};
ghost use Rattle.std.specs.Io.KnownBytes.{WriteAppends, Keeps};

use std::fmt::Display;
use std::io;
use std::io::{Read, Write};

// The first `used` of N bytes wait. What waits is written where the page is full and more comes, and by `flush`.
#[derive(Drop)]
pub struct Page<W, const N: usize> {
    out: W,
    bytes: [u8; N],
    used: usize,
    ghost within: { used ≤ N },
}

impl<W: Write, const N: usize> Page<W, N> {
    ghost use Rattle.page.specs.Waits.{waits};

    // An empty page.
    pub fn new(out: W) -> Self
        ensures { waits result ≡ [] }
    {
        Page {
            out,
            bytes: [0; N],
            used: 0,
        }
    }

    // Nothing waits any more.
    fn clear(&mut self)
        ensures { waits self.new ≡ [] }
    {
        self.used = 0;
    }

    // Writes the bytes that wait.
    fn write_out(&mut self) -> io::Result<()>
        ensures ok { OnOk result (waits self.new ≡ []) }
        ensures err { OnErr result (waits self.new ≡ waits self.old) }
    {
        self.out.write_all(&self.bytes[..self.used])?;
        self.clear();
        Ok(())
    }
}

impl<W: Write, const N: usize> Write for Page<W, N> {
    ghost use Rattle.page.specs.Waits.{waits};

    // As many bytes of a text as there is room for.
    fn write(&mut self, text: &[u8]) -> io::Result<usize>
        ensures bound { WritesAtMost result text.now }
        ensures bytes { WriteAppends None None result text.now }
        ensures ok { IfOk result (λ n. (waits self.new ≡ waits self.old ++ take n text.now) ⊎ (waits self.new ≡ take n text.now)) }
        ensures some { IfOk result (λ n. 0 < N → 0 < length text.now → 0 < n) }
        ensures err { OnErr result (waits self.new ≡ waits self.old) }
    {
        if self.used == N {
            self.write_out()?;
        }
        let at = self.used;
        let n = text.len().min(N - at);
        let bytes = &mut self.bytes[..];
        bytes[at..at + n].copy_from_slice(&text[..n]);
        self.used = at + n;
        Ok(n)
    }

    // Where the writer takes no more, or does not pass on what it took, all that waited waits still.
    fn flush(&mut self) -> io::Result<()>
        ensures bytes { Keeps None None }
        ensures ok { OnOk result (waits self.new ≡ []) }
        ensures err { OnErr result (waits self.new ≡ waits self.old) }
    {
        self.out.write_all(&self.bytes[..self.used])?;
        self.out.flush()?;
        self.clear();
        Ok(())
    }
}

// Prints a line, which is written out at once where it has at most 512 bytes. No contract says what reaches the writer: a page says what waits on it,
// and not what it gave its writer.
pub fn line<W: Write, D: Display + Drop>(out: &mut W, text: D) -> io::Result<()> {
    let mut page = Page::<_, 512>::new(out);
    writeln!(page, "{text}")?;
    page.flush()
}

// Reads until the room is full or the input ends: answers how many bytes were read, which stand at the room's start. A loop, since the library's
// `read_to_end` takes a Vec, its `read_exact` does not say how short an input is, and its `copy` does not say that the count lies within the room.
pub fn fill<R: Read>(input: &mut R, room: &mut [u8]) -> io::Result<usize>
    ensures ok { IfOk result (λ n. n ≤ length room.new) }
    ensures err { OnErr result (length room.new ≡ length room.old) }
{
    let mut done = 0;
    while done < room.len() {
        let n = input.read(&mut room[done..])?;
        if n == 0 {
            break;
        }
        done += n;
    }
    Ok(done)
}
