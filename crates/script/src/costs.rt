// The lines of `costs`: the stitches and the yarn of each zone.
use sheets::Zone;
use std::io::Write;
use std::{fmt, io};

// The thousandths of a metre, cut off, in metres of these bits: (2^52 + fraction) / 2^(1075 - exponent). Below 2^-10 metres there is none, and an exponent
// above 1075 is that of no number up to 10^12.
fn thousandths(bits: u64) -> u64 {
    let exponent = (bits >> 52) % 2048;
    let fraction = bits % (1 << 52);
    if exponent < 1013 || 1075 < exponent {
        return 0;
    }
    (1000 * ((1 << 52) + fraction)) >> (1075 - exponent)
}

// What a record says of its yarn: metres "in decimal with three places", "`-` where not measured, `?` where it is no number from 0 to 10^12".
#[derive(Clone, Copy)]
struct Figure(Option<f64>);

impl fmt::Display for Figure {
    fn fmt<W: fmt::Write>(&self, f: &mut fmt::Formatter<W>) -> fmt::Result {
        match self.0 {
            None => f.write_str("-"),
            Some(m) if m.is_nan() || m < 0.0 || 1e12 < m => f.write_str("?"),
            Some(m) => {
                let t = thousandths(m.to_bits());
                write!(f, "{}.{:03}", t / 1000, t % 1000)
            }
        }
    }
}

// Prints the line of each place that is its own root, with its record: "zone=X stitches=S metres=M".
pub fn print_costs<W: Write>(out: &mut W, sheet: &[Zone], roots: &[u32]) -> io::Result<()> {
    for (x, (record, root)) in sheet.iter().zip(roots).enumerate() {
        if *root as usize == x {
            let stitches = record.stitches;
            let metres = Figure(record.yarn);
            page::line(
                out,
                format_args!("zone={x} stitches={stitches} metres={metres}"),
            )?;
        }
    }
    Ok(())
}
