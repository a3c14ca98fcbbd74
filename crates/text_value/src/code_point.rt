// Text counted in code points.
ghost use Rattle.std.specs.Prelude.{◌≡◌, length, count_by};
ghost use Rattle.text_value.specs.Rfc3629.{leads};
ghost use Rattle.text_value.specs.Units.{point_units};
ghost use Rattle.text_value.specs.Rfc.{points_fewer, points_append, points_same};
ghost use Rattle.std.proofs.Common.{rules};

use crate::TextValue;

pub struct CodePoint;

impl TextValue for CodePoint {
    type Elem = u32;

    ghost units = { point_units };

    ghost fewer = { λ s. points_fewer s };

    ghost none = { Prim.search rules };

    ghost joined = { λ s t h. points_append s t h };

    ghost same = { λ s t h k e. points_same s t h k e };

    fn width(s: &str) -> usize {
        count_points(s)
    }

    fn write_units(s: &str, out: &mut [u32]) -> Option<usize> {
        if !Self::fits(s, out.len()) {
            return None;
        }
        // Counted by hand: the count is the answer, of places that `zip` lends a proof knows nothing
        // afterwards, and a second pass for the count would be slower.
        let mut n = 0;
        for c in s.chars() {
            out[n] = c as u32;
            n += 1;
        }
        Some(n)
    }
}

// How many code points the text has: one for each byte that leads one.
fn count_points(s: &str) -> usize
    ensures { result ≡ length (point_units s.now) }
{
    count_leads(s.as_bytes())
}

// How many bytes are no 10xxxxxx.
fn count_leads(bytes: &[u8]) -> usize
    ensures { result ≡ count_by leads bytes.now }
{
    bytes
        .iter()
        .map(|b| usize::from(!matches!(*b, 0x80..=0xBF)))
        .sum()
}
