// Changes of the last patch, in place.
ghost use Rattle.std.specs.Prelude.{◌≡◌, ◌<◌, ◌∷◌, length, drop, is_ok, if◌then◌else◌};
ghost use Rattle.types.specs.declared.error.Refusal.TheVariants.{DeletionLength};
ghost use Rattle.sequence_tree.specs.Sequences.{held, capacity};
ghost use Rattle.meaning.specs.Results.{provided};
ghost use Rattle.patch.specs.Sound.{newest};
ghost use Rattle.patch.specs.Held.{held_of, flags_of};
ghost use Rattle.patch.specs.Edits.{change_tail, flag_put, lengthen, length_fits, of_tail};
ghost use Rattle.patch.specs.Tails.{TailIs, TailHeld, flag_value, flag_row, fits_length};

use super::PatchMemory;
use crate::rows::{ActionRow, PatchRow, ValueRow};
use sequence_tree::sequence::Sequence;
use types::bounds::DELETION_LENGTH;
use types::error::Refusal;

// The last row gives way to another. A function, since the sequence is another crate's type.
#[tactic(auto, using(crate::proofs::Changes::set_newest))]
pub fn set_tail(rows: &mut Sequence<PatchRow>, row: PatchRow)
    requires { 0 < length (held rows.old) }
    ensures newest { newest rows.new ≡ row ∷ drop 1 (newest rows.old) }
    ensures capacity { capacity rows.new ≡ capacity rows.old }
{
    rows.replace(rows.len() - 1, 1, &[row]);
}

impl ValueRow {
    fn flagged(self) -> ValueRow
        ensures { result ≡ flag_value self }
    {
        ValueRow {
            conflict: true,
            ..self
        }
    }
}

impl ActionRow {
    fn flagged(self) -> ActionRow
        ensures { result ≡ flag_row self }
    {
        match self {
            ActionRow::PutMap(n, v) => ActionRow::PutMap(n, v.flagged()),
            ActionRow::PutSeq(i, v) => ActionRow::PutSeq(i, v.flagged()),
            _ => self,
        }
    }

    // A deletion takes m more, where that keeps within its bounds; another row stays.
    fn lengthened(self, m: usize) -> Option<ActionRow>
        ensures { result ≡ fits_length self m }
    {
        let ActionRow::DeleteSeq(i, n) = self else {
            return Some(self);
        };
        let length = n.checked_add(m)?;
        if length == 0 || length > DELETION_LENGTH {
            return None;
        }
        Some(ActionRow::DeleteSeq(i, length))
    }
}

impl<'m, U: Copy> PatchMemory<'m, U> {
    // The row of the last patch; none where none is held.
    #[tactic(auto, using(crate::proofs::Changes::tail_held))]
    pub fn tail(&self) -> Option<PatchRow>
        ensures row { TailIs (newest self.now.rows) result }
        ensures held { TailHeld self.now result }
    {
        self.rows.as_slice().last().copied()
    }

    // Sets the conflict flag of the last patch, where it is a put.
    pub fn set_flag(&mut self)
        ensures held { held_of self.new ≡ change_tail flag_put (held_of self.old) }
        ensures wide { flags_of self.new ≡ flags_of self.old }
    {
        if let Some(row) = self.tail() {
            let action = row.action.flagged();
            set_tail(&mut self.rows, PatchRow { action, ..row });
        }
    }

    // The last patch takes m elements more, where it is a deletion.
    pub fn join_delete(&mut self, m: usize) -> Result<(), Refusal>
        ensures answer { result ≡ provided (of_tail (length_fits m) (held_of self.old)) DeletionLength tt }
        ensures held { held_of self.new ≡ (if is_ok result then change_tail (lengthen m) (held_of self.old) else held_of self.old) }
        ensures wide { flags_of self.new ≡ flags_of self.old }
    {
        let Some(row) = self.tail() else {
            return Ok(());
        };
        let action = row.action.lengthened(m).ok_or(Refusal::DeletionLength)?;
        set_tail(&mut self.rows, PatchRow { action, ..row });
        Ok(())
    }
}
