// Lent slices: one number read, numbers copied.
#![tactic(auto)]

ghost use Rattle.std.specs.Prelude.{◌≡◌, ◌≤◌, ◌<◌, length, get_or, take};
ghost use Rattle.slices.specs.Over.{over};

// The number at i, as an index.
pub fn at(s: &[u32], i: usize) -> usize
    requires { i < length s.now }
    ensures { result ≡ get_or s.now i 0 }
{
    s[i] as usize
}

// The first n numbers become those of `from`. Named, as its contract says it in the word `over`, in which the laws of the calls speak. One by one: with the
// library's `copy_from_slice` the archive for C asks for memmove beside memcpy and memset, which alone its header promises (include/zonemap.h).
pub fn copy(to: &mut [u32], from: &[u32], n: usize)
    requires { (n ≤ length to.old) × (n ≤ length from.now) }
    ensures { to.new ≡ over (take n from.now) to.old }
{
    for i in 0..n {
        to[i] = from[i];
    }
}
