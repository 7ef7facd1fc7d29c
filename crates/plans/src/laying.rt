// The base of a plan's grid, entry by entry: w wales and c courses, and the cell in wale x of course y. As one value, w and c would take `Sized` out of five
// contracts and stand longer in the twenty that say `flat w c`: no plainer.
ghost use Rattle.std.specs.Prelude.{true, ◌≡◌, ◌+◌, ◌-◌, ◌*◌, ◌≤◌, ◌<◌, length, take};
ghost use Rattle.slices.specs.Over.{over};
ghost use Rattle.grids.specs.Grid.{flat, darts_of};
ghost use Rattle.grids.specs.Base.{successor_on, base_table};
ghost use Rattle.plans.specs.Limits.{Sized, At, Lent};
ghost use Rattle.plans.specs.Rising.{risen, Ran};
ghost use Rattle.plans.specs.Ways.{next, goes, dart_of, Going};

use darts::partner;

// The dart that goes right from the cell: the even one of its edge in the course.
fn right_of(w: usize, x: usize, y: usize) -> usize
    requires { (x < w) × (w ≤ 128) × (y < 128) }
    ensures { (result ≡ 2 * (y * (w - 1) + x)) × (result < 65536) }
{
    2 * (y * (w - 1) + x)
}

// The dart that goes up from it: the even one of an edge that comes after those along the courses.
fn up_of(w: usize, c: usize, x: usize, y: usize) -> usize
    requires { At w c x y }
    ensures { (result ≡ 2 * ((w - 1) * c + (y * w + x))) × (result < 65536) }
{
    2 * ((w - 1) * c + (y * w + x))
}

// The dart that goes left from it: the partner of the one that goes right from its left neighbour.
fn left_of(w: usize, x: usize, y: usize) -> usize
    requires { (0 < x) × (x < w) × (w ≤ 128) × (y < 128) }
    ensures { (result ≡ 2 * (y * (w - 1) + (x - 1)) + 1) × (result < 65536) }
{
    partner(right_of(w, x - 1, y))
}

// The dart that goes down from it: the partner of the one that goes up from its lower neighbour.
fn down_of(w: usize, c: usize, x: usize, y: usize) -> usize
    requires at { At w c x y }
    requires y_nonzero { 0 < y }
    ensures { (result ≡ 2 * ((w - 1) * c + ((y - 1) * w + x)) + 1) × (result < 65536) }
{
    partner(up_of(w, c, x, y - 1))
}

// The four ways from a cell, in the order in which its darts follow each other.
#[derive(Clone, Copy)]
enum Way {
    Right,
    Up,
    Left,
    Down,
}

impl Way {
    // The next way round.
    fn next(self) -> Way
        ensures { result ≡ next self }
    {
        match self {
            Way::Right => Way::Up,
            Way::Up => Way::Left,
            Way::Left => Way::Down,
            Way::Down => Way::Right,
        }
    }
}

// The dart that goes this way from the cell, where there is one.
fn going(w: usize, c: usize, x: usize, y: usize, way: Way) -> Option<usize>
    requires { At w c x y }
    ensures { Going w c x y way result }
{
    match way {
        Way::Right if x + 1 < w => Some(right_of(w, x, y)),
        Way::Up if y + 1 < c => Some(up_of(w, c, x, y)),
        Way::Left if 0 < x => Some(left_of(w, x, y)),
        Way::Down if 0 < y => Some(down_of(w, c, x, y)),
        _ => None,
    }
}

// The dart after the one that goes this way: the next one round the cell, skipping what is missing. Way by way and not in a loop, in which a small plan
// takes twice the time.
fn after(w: usize, c: usize, x: usize, y: usize, way: Way) -> usize
    requires at { At w c x y }
    requires there { goes w c x y way ≡ true }
    ensures { (result ≡ successor_on (flat w c) (dart_of w c x y way)) × (result < 65536) }
{
    let second = way.next();
    if let Some(dart) = going(w, c, x, y, second) {
        return dart;
    }
    let third = second.next();
    if let Some(dart) = going(w, c, x, y, third) {
        return dart;
    }
    let last = third.next();
    if let Some(dart) = going(w, c, x, y, last) {
        return dart;
    }
    going(w, c, x, y, way).unwrap()
}

// The entries of n edges from e on: the even ones rise by two from r, the odd ones from l.
fn rise(to: &mut [u32], e: usize, n: usize, r: u32, l: u32)
    requires n_in_bounds { (2 * (e + n) ≤ length to.old) × (e + n < 65536) }
    requires n_bound { (r + 2 * n < 131072) × (l + 2 * n < 131072) }
    ensures { to.new ≡ risen e n r l to.old }
{
    for i in 0..n {
        to[2 * (e + i)] = r + 2 * (i as u32);
        to[2 * (e + i) + 1] = l + 2 * (i as u32);
    }
}

// The entries of the edges along course y from wale x on, all but the last, where there are courses above and below: up and down, one cell further each
// time. How many were laid.
fn run_along(to: &mut [u32], w: usize, c: usize, e: usize, x: usize, y: usize) -> usize
    requires at { At w c x y × (x + 1 < w) }
    requires e_value { (e ≡ y * (w - 1) + x) × (2 * ((w - 1) * c + w * (c - 1)) ≤ length to.old) }
    ensures { (x + result + 1 < w) × Ran (base_table (flat w c)) e result to.old to.new }
{
    if y == 0 {
        return 0;
    }
    if c <= y + 1 {
        return 0;
    }
    let n = w - 2 - x;
    let r = up_of(w, c, x, y) as u32;
    let l = down_of(w, c, x + 1, y) as u32;
    rise(to, e, n, r, l);
    n
}

// The entries of the edges up from course y from wale x on, all but the last: left below and right above, one cell further each time. How many were laid.
fn run_upright(to: &mut [u32], w: usize, c: usize, e: usize, x: usize, y: usize) -> usize
    requires at { At w c x y × ((0 < x) × (y + 1 < c)) }
    requires e_value { (e ≡ (w - 1) * c + (y * w + x)) × (2 * ((w - 1) * c + w * (c - 1)) ≤ length to.old) }
    ensures { (x + result < w) × Ran (base_table (flat w c)) e result to.old to.new }
{
    let n = w - 1 - x;
    let l = left_of(w, x, y) as u32;
    let r = right_of(w, x, y + 1) as u32;
    rise(to, e, n, l, r);
    n
}

// The entries of the a edges along the courses, course by course: a turn lays an edge and the run after it, so that no `for` counts them. Beside the next
// function the row, the first edge, both entries and the run differ, so that one function of all these is no plainer.
fn lay_along(to: &mut [u32], w: usize, c: usize, a: usize)
    requires { Lent w c a (length to.old) }
    ensures { to.new ≡ over (take (2 * a) (base_table (flat w c))) to.old }
{
    let mut e = 0;
    let mut x = 0;
    let mut y = 0;
    while e < a {
        to[2 * e] = after(w, c, x, y, Way::Right) as u32;
        to[2 * e + 1] = after(w, c, x + 1, y, Way::Left) as u32;
        if x + 2 < w {
            let n = 1 + run_along(to, w, c, e + 1, x + 1, y);
            x += n;
            e += n;
        } else {
            x = 0;
            y += 1;
            e += 1;
        }
    }
}

// The entries of the upright edges, by their lower cells, after those of the a edges along the courses.
fn lay_upright(to: &mut [u32], w: usize, c: usize, a: usize)
    requires lent { Lent w c a (length to.old) }
    requires to_value { take (2 * a) to.old ≡ take (2 * a) (base_table (flat w c)) }
    ensures { to.new ≡ over (base_table (flat w c)) to.old }
{
    let end = a + w * (c - 1);
    let mut e = a;
    let mut x = 0;
    let mut y = 0;
    while e < end {
        to[2 * e] = after(w, c, x, y, Way::Up) as u32;
        to[2 * e + 1] = after(w, c, x, y + 1, Way::Down) as u32;
        if x + 1 < w {
            let n = 1 + run_upright(to, w, c, e + 1, x + 1, y);
            x += n;
            e += n;
        } else {
            x = 0;
            y += 1;
            e += 1;
        }
    }
}

// The base's table over the first numbers of the slice.
pub(crate) fn lay_base(to: &mut [u32], w: usize, c: usize)
    requires sized { Sized w c }
    requires c_in_bounds { darts_of (flat w c) ≤ length to.old }
    ensures { to.new ≡ over (base_table (flat w c)) to.old }
{
    let a = (w - 1) * c;
    lay_along(to, w, c, a);
    lay_upright(to, w, c, a);
}
