ghost use Rattle.std.specs.Prelude.{◌≡◌, ℕ, ◌+◌, ◌≤◌, Bool, List, [], ◌∷◌, ◌++◌, length, is_some, IfSome, is_ok, if◌then◌else◌, nat_lt};
ghost use Rattle.sequence_tree.specs.Sequences.{held};
ghost use Rattle.patch_call.specs.Seen.{call_seen};
ghost use Rattle.patch_call.specs.Refused.{answer};
ghost use Rattle.patch_call.specs.Contents.{call_key, call_data};
ghost use Rattle.patch.specs.Rows.{steps_len, steps_told};
ghost use Rattle.patch.specs.Told.{passes, wide_flags};
ghost use Rattle.patch.specs.Made.{call_values, call_units, with_own, appending};
ghost use Rattle.patch.specs.Held.{held_of, flags_of, enough};

use super::PatchMemory;
use crate::making::{add_value, own_units, value_count};
use crate::rows::{ActionRow, PatchRow, Path, StepRow, ValueRow};
use patch_call::call::Call;
use patch_call::check_call;
use sequence_tree::sequence::Sequence;
use types::bounds::{BUILDER_BYTES, BUILDER_PATCHES, BUILDER_UNITS, BUILDER_VALUES, PATH_STEPS};
use types::error::Refusal;
use types::types::ObjId;

// Whether so many more pass a bound.
pub fn exceeds(bound: usize, used: usize, more: usize) -> bool
    ensures { result ≡ nat_lt bound (used + more) }
{
    used.checked_add(more).is_none_or(|sum| sum > bound)
}

impl<'m, U: Copy> PatchMemory<'m, U> {
    // An empty memory in these places; none where they are too few.
    pub fn new(
        rows: &'m mut [PatchRow],
        steps: &'m mut [StepRow],
        values: &'m mut [ValueRow],
        units: &'m mut [U],
        bytes: &'m mut [u8],
    ) -> Option<PatchMemory<'m, U>>
        ensures test { is_some result ≡ enough (length rows.old) (length steps.old) (length values.old) (length units.old) (length bytes.old) }
        ensures empty { IfSome result (λ m. held_of m ≡ []) }
    {
        Some(PatchMemory {
            rows: Sequence::new(rows.get_mut(..BUILDER_PATCHES)?),
            steps: Sequence::new(steps.get_mut(..BUILDER_PATCHES * PATH_STEPS)?),
            values: Sequence::new(values.get_mut(..BUILDER_VALUES)?),
            units: Sequence::new(units.get_mut(..BUILDER_UNITS)?),
            bytes: Sequence::new(bytes.get_mut(..BUILDER_BYTES)?),
        })
    }

    // Whether one more patch, of this call, passes a bound.
    fn is_full(&self, keys: &[u8], call: Call, units: &[U]) -> bool
        ensures { (w : Bool) → result ≡ passes (length (held self.now.rows) + 1) (length (held self.now.values) + length (call_values (call_seen call.entry) w)) (length (held self.now.units) + length (call_units (call_seen call.entry) units.now)) (length (held self.now.bytes) + (length keys.now + (length (call_key (call_seen call.entry)) + length (call_data (call_seen call.entry))))) }
    {
        self.rows.len() + 1 > BUILDER_PATCHES
            || exceeds(BUILDER_VALUES, self.values.len(), value_count(call))
            || exceeds(
                BUILDER_UNITS,
                self.units.len(),
                own_units(call, units).len(),
            )
            || exceeds(
                BUILDER_BYTES,
                self.bytes.len(),
                keys.len()
                    .saturating_add(call.key().len())
                    .saturating_add(call.data().len()),
            )
    }

    // A patch of its own for a call: `units` are the units of a splice's text,
    // and `wide` says if an inserted value is not one unit wide in a text.
    pub fn append(
        &mut self,
        obj: ObjId,
        path: Path,
        call: Call,
        units: &[U],
        wide: bool,
    ) -> Result<(), Refusal>
        requires { steps_len path.steps.now ≡ length path.keys.now }
        ensures answer { result ≡ answer (appending obj (steps_told path.entry.steps.now path.entry.keys.now) (call_seen call.entry) units.now (held_of self.old)) }
        ensures held { held_of self.new ≡ (if is_ok result then with_own obj (steps_told path.entry.steps.now path.entry.keys.now) (call_seen call.entry) units.now (held_of self.old) else held_of self.old) }
        ensures wide { flags_of self.new ≡ (if is_ok result then wide_flags (call_values (call_seen call.entry) wide) ∷ flags_of self.old else flags_of self.old) }
    {
        check_call(obj, call)?;
        if path.steps.len() > PATH_STEPS {
            return Err(Refusal::PathTooDeep);
        }
        if self.is_full(path.keys, call, units) {
            return Err(Refusal::Full);
        }
        let key = call.key();
        let data = call.data();
        self.steps.extend(path.steps);
        self.bytes.extend(path.keys);
        self.bytes.extend(key);
        self.bytes.extend(data);
        add_value(&mut self.values, call, wide);
        self.units.extend(own_units(call, units));
        self.rows.extend(&[PatchRow {
            obj,
            steps: path.steps.len(),
            bytes: path.keys.len() + (key.len() + data.len()),
            action: ActionRow::new(call, units.len(), wide),
        }]);
        Ok(())
    }
}
