// A drawn plan: one line a course, the highest course first, one byte a cell; each line is ended by one line feed.
ghost use Rattle.std.specs.Prelude.{◌≡◌, ◌≤◌, length};
ghost use Rattle.slices.specs.Over.{over};
ghost use Rattle.plan.specs.Drawing.{wales_of, wrong_line as first_wrong, upside_down, Fits};

// How many bytes the first line has.
pub fn wales(drawing: &[u8]) -> usize
    ensures { (result ≡ wales_of drawing.now) × (result ≤ length drawing.now) }
{
    drawing
        .iter()
        .position(|b| *b == b'\n')
        .unwrap_or(drawing.len())
}

// The first line, counted from 1 in the order drawn, whose length is another or whose line feed is missing. Of line n, k bytes are passed, as
// the definition counts them.
pub fn wrong_line(drawing: &[u8]) -> Option<usize>
    ensures { result ≡ first_wrong drawing.now }
{
    let w = wales(drawing);
    let mut k = 0;
    let mut n = 1;
    for b in drawing {
        match (*b == b'\n', k == w) {
            (true, true) => {
                k = 0;
                n += 1;
            }
            (false, false) => k += 1,
            (true, false) | (false, true) => return Some(n),
        }
    }
    if k == 0 { None } else { Some(n) }
}

// The plan of a drawing, "lowest course first": course y is line C - 1 - y.
pub fn turn(drawing: &[u8], wales: usize, courses: usize, plan: &mut [u8])
    requires { Fits wales courses drawing.now plan.old }
    ensures { plan.new ≡ over (upside_down wales drawing.now courses) plan.old }
{
    for y in 0..courses {
        let line = courses - 1 - y;
        let from = line * (wales + 1);
        let to = y * wales;
        plan[to..to + wales].copy_from_slice(&drawing[from..from + wales]);
    }
}
