// Text counted in bytes.
ghost use Rattle.text_value.specs.Units.{byte_units};
ghost use Rattle.std.proofs.Common.{rules};

use crate::TextValue;

pub struct Utf8;

impl TextValue for Utf8 {
    type Elem = u8;

    ghost units = { byte_units };

    ghost fewer = { Prim.search rules };

    ghost none = { Prim.search rules };

    ghost joined = { Prim.search rules };

    ghost same = { Prim.search rules };

    fn width(s: &str) -> usize {
        s.len()
    }

    fn write_units(s: &str, out: &mut [u8]) -> Option<usize> {
        if !Self::fits(s, out.len()) {
            return None;
        }
        let n = Self::width(s);
        out[..n].copy_from_slice(s.as_bytes());
        Some(n)
    }
}
