// The work area cleared.
ghost use Rattle.std.specs.Prelude.{◌≡◌};
ghost use Rattle.darts.specs.Calls.{cleared};
ghost use Rattle.area.specs.Area.{Room};

// The work area's first 4d numbers become zeros.
#[tactic(auto, unfolding(darts::specs::Calls::cleared, slices::specs::Over::over))]
pub fn clear(work: &mut [u32], d: usize)
    requires { Room d work.old }
    ensures { work.new ≡ cleared d work.old }
{
    let end = 4 * d;
    work[..end].fill(0);
}
