// One record, or two, by value.
ghost use Rattle.std.specs.Prelude.{◌≡◌, ◌+◌, ◌<◌, ◌^◌};
ghost use Rattle.sheets.specs.Records.{merge_of, fit_of, same_metres, same_yarn, same_zone};

use crate::Zone;

// The lower record with the other one merged into it: stitches add, metres add with one rounding, and not measured with anything is not measured.
pub fn merge(lower: Zone, other: Zone) -> Zone
    requires { lower.stitches + other.stitches < 2 ^ 32 }
    ensures { result ≡ merge_of lower other }
{
    Zone {
        stitches: lower.stitches + other.stitches,
        yarn: match (lower.yarn, other.yarn) {
            (Some(a), Some(b)) => Some(a + b),
            _ => None,
        },
    }
}

// Whether a record may stand on a base's sheet: at most 65,535 stitches, and from 0 to 100,000 metres or not measured.
#[tactic(auto, using(crate::proofs::Limits::zero_literal, crate::proofs::Limits::top_literal))]
pub fn fit(z: Zone) -> bool
    ensures { result ≡ fit_of z }
{
    z.stitches <= 65535 && z.yarn.is_none_or(|m| 0.0 <= m && m <= 100000.0) // a NaN is not
}

// Whether two numbers of metres are the same, bit for bit; a NaN is the same as any other. No `==`: in that a NaN is not the same as itself, and the two
// zeros are one.
fn equal_metres(x: f64, y: f64) -> bool
    ensures { result ≡ same_metres x y }
{
    let nan = x.is_nan();
    nan == y.is_nan() && (nan || x.to_bits() == y.to_bits())
}

// Whether two yarn figures are the same.
#[tactic(auto, unfolding(crate::specs::Records::same_yarn))]
fn equal_yarn(first: Option<f64>, second: Option<f64>) -> bool
    ensures { result ≡ same_yarn first second }
{
    match first {
        Some(x) => second.is_some_and(|y| equal_metres(x, y)),
        None => second.is_none(),
    }
}

// Whether two records are the same, bit for bit.
#[tactic(auto, unfolding(crate::specs::Records::same_zone))]
pub fn same(a: Zone, b: Zone) -> bool
    ensures { result ≡ same_zone a b }
{
    a.stitches == b.stitches && equal_yarn(a.yarn, b.yarn)
}

// Whether the lower record with the other one merged into it is z. Stitches past 32 bits are no record's.
#[tactic(auto, unfolding(crate::specs::Records::same_zone))]
pub fn merges_to(lower: Zone, other: Zone, z: Zone) -> bool
    ensures { result ≡ same_zone (merge_of lower other) z }
{
    lower.stitches.checked_add(other.stitches).is_some() && same(merge(lower, other), z)
}
