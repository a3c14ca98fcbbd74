ghost use Rattle.std.specs.Prelude.{◌≡◌};
ghost use Rattle.patch.specs.Rows.{prop_len};
ghost use Rattle.patch.specs.Paths.{whole_path};

use crate::rows::{PropRow, StepRow};
use types::bounds::KEY_BYTES;

// The bytes of a key; a position has none. A function, since the type is another crate's.
fn prop_len(p: PropRow) -> usize
    ensures { result ≡ prop_len p }
{
    match p {
        PropRow::Map(n) => n,
        PropRow::Seq(_) => 0,
    }
}

// Whether steps and the bytes of their keys make a path.
pub fn is_path(steps: &[StepRow], keys: &[u8]) -> bool
    ensures { result ≡ whole_path steps.now keys.now }
{
    let mut left = keys.len();
    for s in steps {
        let n = prop_len(s.prop);
        match left.checked_sub(n) {
            Some(rest) if n <= KEY_BYTES => left = rest,
            _ => return false,
        }
    }
    left == 0
}
