ghost use Rattle.std.specs.Prelude.{◌≡◌};
ghost use Rattle.meaning.specs.Calls.{high_prop, long_prop, long_entry, bad_prop, zero_counter, zero_call, position_too_high, deletion_alone, too_long, bad_encoding};
ghost use Rattle.meaning.specs.Documents.{well_spelt};
ghost use Rattle.patch_call.specs.Seen.{prop_seen, content_seen, entry_seen, call_seen};
ghost use Rattle.patch_call.specs.Refused.{answer, early};

use crate::call::{Call, Entry};
use text_value::is_utf8;
use types::bounds::{DELETION_LENGTH, KEY_BYTES, LAST_POSITION, SCALAR_BYTES, SPLICE_BYTES};
use types::error::Refusal;
use types::types::ObjId;
use types::value::{Prop, ScalarValue, Value};

fn is_high(p: Prop) -> bool
    ensures { result ≡ high_prop (prop_seen p.entry) }
{
    matches!(p, Prop::Seq(i) if i > LAST_POSITION)
}

fn is_long(p: Prop) -> bool
    ensures { result ≡ long_prop (prop_seen p.entry) }
{
    matches!(p, Prop::Map(key) if key.len() > KEY_BYTES)
}

fn is_long_entry(e: Entry) -> bool
    ensures { result ≡ long_entry (entry_seen e.entry) }
{
    e.value.byte_len() > SCALAR_BYTES
}

fn is_bad(p: Prop) -> bool
    ensures { result ≡ bad_prop (prop_seen p.entry) }
{
    matches!(p, Prop::Map(key) if !is_utf8(key))
}

// Whether a string is UTF-8; bytes may be anything. The crate `document` has the same test: below both, `types` has
// the values, `text_value` the test of UTF-8, and `meaning`, which has both, no code.
fn is_text(value: Value) -> bool
    ensures { result ≡ well_spelt (content_seen value.entry) }
{
    match value {
        Value::Scalar(ScalarValue::Str(s)) => is_utf8(s),
        _ => true,
    }
}

impl<'a> Call<'a> {
    // Whether an identity that it gives has counter 0.
    fn has_zero_id(self) -> bool
        ensures { result ≡ zero_call (call_seen self.entry) }
    {
        match self {
            Call::Put(_, e) | Call::Insert(_, e) => e.id.counter == 0,
            Call::Increment(_, _, id) => id.counter == 0,
            _ => false,
        }
    }

    fn is_too_high(self) -> bool
        ensures { result ≡ position_too_high (call_seen self.entry) }
    {
        match self {
            Call::Put(p, _) | Call::Increment(p, _, _) | Call::FlagConflict(p) => is_high(p),
            Call::Insert(i, _) | Call::DeleteSeq(i, _) | Call::SpliceText(i, _) => {
                i > LAST_POSITION
            }
            Call::DeleteMap(_) => false,
        }
    }

    // Whether it deletes nothing, or too much.
    fn has_bad_length(self) -> bool
        ensures { result ≡ deletion_alone (call_seen self.entry) }
    {
        matches!(self, Call::DeleteSeq(_, n) if n == 0 || n > DELETION_LENGTH)
    }

    fn is_too_long(self) -> bool
        ensures { result ≡ too_long (call_seen self.entry) }
    {
        match self {
            Call::Put(p, e) => is_long(p) || is_long_entry(e),
            Call::Insert(_, e) => is_long_entry(e),
            Call::DeleteMap(key) => key.len() > KEY_BYTES,
            Call::Increment(p, _, _) | Call::FlagConflict(p) => is_long(p),
            Call::SpliceText(_, text) => text.len() > SPLICE_BYTES,
            Call::DeleteSeq(_, _) => false,
        }
    }

    fn is_badly_encoded(self) -> bool
        ensures { result ≡ bad_encoding (call_seen self.entry) }
    {
        match self {
            Call::Put(p, e) => is_bad(p) || !is_text(e.value),
            Call::Insert(_, e) => !is_text(e.value),
            Call::DeleteMap(bytes) | Call::SpliceText(_, bytes) => !is_utf8(bytes),
            Call::Increment(p, _, _) | Call::FlagConflict(p) => is_bad(p),
            Call::DeleteSeq(_, _) => false,
        }
    }
}

// The first refusal, of those that a call meets wherever it is made.
pub fn check_call(obj: ObjId, call: Call) -> Result<(), Refusal>
    ensures { result ≡ answer (early obj (call_seen call.entry)) }
{
    if obj.0.counter == 0 && !obj.is_root() || call.has_zero_id() {
        return Err(Refusal::ZeroCounter);
    }
    if call.is_too_high() {
        return Err(Refusal::PositionTooHigh);
    }
    if call.has_bad_length() {
        return Err(Refusal::DeletionLength);
    }
    if call.is_too_long() {
        return Err(Refusal::TooLong);
    }
    if call.is_badly_encoded() {
        return Err(Refusal::InvalidEncoding);
    }
    Ok(())
}
