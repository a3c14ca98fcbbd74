// The row of a call, and what of the call lies behind it.
ghost use Rattle.std.specs.Prelude.{◌≡◌, ℕ, ◌+◌, ◌≤◌, Bool, false, ◌++◌, length};
ghost use Rattle.meaning.specs.Calls.{put_call};
ghost use Rattle.sequence_tree.specs.Sequences.{held, capacity};
ghost use Rattle.patch_call.specs.Seen.{prop_seen, entry_seen, call_seen};
ghost use Rattle.patch.specs.Made.{value_row, action_row, call_values, call_units};

use crate::rows::{ActionRow, ValueRow};
use patch_call::call::{Call, Entry};
use sequence_tree::sequence::Sequence;
use types::value::Prop;

impl ValueRow {
    fn new(e: Entry, wide: bool) -> ValueRow
        ensures { result ≡ value_row (entry_seen e.entry) wide }
    {
        ValueRow {
            content: e.value.map(|bytes| bytes.len()),
            id: e.id,
            conflict: e.conflict,
            wide,
        }
    }
}

impl ActionRow {
    fn put(p: Prop, e: Entry) -> ActionRow
        ensures { (n : ℕ) (w : Bool) → result ≡ action_row (put_call (prop_seen p.entry) (entry_seen e.entry)) n w }
    {
        let value = ValueRow::new(e, false);
        match p {
            Prop::Map(key) => ActionRow::PutMap(key.len(), value),
            Prop::Seq(i) => ActionRow::PutSeq(i, value),
        }
    }

    // What the call does; `units` is the number of a splice's units, and `wide`
    // says if an inserted value is not one unit wide.
    pub(crate) fn new(call: Call, units: usize, wide: bool) -> ActionRow
        ensures { result ≡ action_row (call_seen call.entry) units wide }
    {
        match call {
            Call::Put(p, e) => ActionRow::put(p, e),
            Call::Insert(i, _) => ActionRow::Insert(i, 1, usize::from(wide)),
            Call::DeleteSeq(i, n) => ActionRow::DeleteSeq(i, n),
            Call::DeleteMap(key) => ActionRow::DeleteMap(key.len()),
            Call::Increment(p, by, _) => ActionRow::Increment(p.map(|key| key.len()), by),
            Call::FlagConflict(p) => ActionRow::Conflict(p.map(|key| key.len())),
            Call::SpliceText(i, _) => ActionRow::SpliceText(i, units),
        }
    }
}

// How many values the call brings.
pub fn value_count(call: Call) -> usize
    ensures { (w : Bool) → result ≡ length (call_values (call_seen call.entry) w) }
{
    usize::from(matches!(call, Call::Insert(..)))
}

// The units that a splice brings; another call has none.
pub fn own_units<'u, U>(call: Call, units: &'u [U]) -> &'u [U]
    ensures { result.now ≡ call_units (call_seen call.entry) units.now }
{
    match call {
        Call::SpliceText(..) => units,
        _ => &[],
    }
}

// The value that an insert brings comes after the last. A function, as those above,
// since both types are other crates'.
pub fn add_value(values: &mut Sequence<ValueRow>, call: Call, wide: bool)
    requires { length (held values.old) + length (call_values (call_seen call) wide) ≤ capacity values.old }
    ensures held { held values.new ≡ held values.old ++ call_values (call_seen call.entry) wide }
    ensures capacity { capacity values.new ≡ capacity values.old }
{
    if let Call::Insert(_, e) = call {
        values.extend(&[ValueRow::new(e, wide)]);
    }
}
