// More units or values for the last patch, in place.
ghost use Rattle.std.specs.Prelude.{◌≡◌, not, is_ok, if◌then◌else◌};
ghost use Rattle.types.specs.declared.error.Refusal.TheVariants.{Full};
ghost use Rattle.meaning.specs.Results.{provided};
ghost use Rattle.meaning.specs.Builder.{overfull};
ghost use Rattle.patch.specs.Held.{held_of, flags_of};
ghost use Rattle.patch.specs.Edits.{change_tail, add_units};

use super::PatchMemory;
use super::append::exceeds;
use super::tail::set_tail;
use crate::rows::{ActionRow, PatchRow};
use types::bounds::BUILDER_UNITS;
use types::error::Refusal;

impl<'m, U: Copy> PatchMemory<'m, U> {
    // Units at the place j of the last patch's own, where it is a splice.
    pub fn join_splice(&mut self, j: usize, units: &[U]) -> Result<(), Refusal>
        ensures answer { result ≡ provided (not (overfull (change_tail (add_units j units.now) (held_of self.old)))) Full tt }
        ensures held { held_of self.new ≡ (if is_ok result then change_tail (add_units j units.now) (held_of self.old) else held_of self.old) }
        ensures wide { flags_of self.new ≡ flags_of self.old }
    {
        let Some(row) = self.tail() else {
            return Ok(());
        };
        let ActionRow::SpliceText(i, n) = row.action else {
            return Ok(());
        };
        if exceeds(BUILDER_UNITS, self.units.len(), units.len()) {
            return Err(Refusal::Full);
        }
        let at = self.units.len() - n + j.min(n);
        self.units.replace(at, 0, units);
        let action = ActionRow::SpliceText(i, n + units.len());
        set_tail(&mut self.rows, PatchRow { action, ..row });
        Ok(())
    }
}
