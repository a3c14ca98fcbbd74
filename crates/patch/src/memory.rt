ghost use Rattle.std.specs.Prelude.{◌≡◌, true};
ghost use Rattle.patch.specs.Told.{laid};
ghost use Rattle.patch.specs.Sound.{newest, parts_in, Sized};

use crate::rows::{PatchRow, StepRow, ValueRow};
use sequence_tree::sequence::Sequence;

mod append;
mod join;
mod read;
mod tail;
mod take;

// Patches in lent memory. Their steps, values, units and bytes lie in the
// order of the patches, and a row says how many of each are its own, so that
// a change of the last patch moves nothing else. Each kind is a sequence of its
// own, since the caller lends memory of five types.
#[derive(Drop)]
pub struct PatchMemory<'m, U> {
    rows: Sequence<'m, PatchRow>,
    steps: Sequence<'m, StepRow>,
    values: Sequence<'m, ValueRow>,
    units: Sequence<'m, U>,
    bytes: Sequence<'m, u8>,
    ghost sized: { Sized rows steps values units bytes },
    ghost shared: { laid (newest rows) (parts_in steps values units bytes) ≡ true },
}
