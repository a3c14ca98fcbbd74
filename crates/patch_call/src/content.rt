ghost use Rattle.std.specs.Prelude.{◌≡◌};
ghost use Rattle.patch_call.specs.Seen.{prop_seen, content_seen, call_seen};
ghost use Rattle.patch_call.specs.Contents.{prop_key, content_data, call_key, call_data};

use crate::call::Call;
use types::value::{Prop, ScalarValue, Value};

fn key_of<'a>(p: Prop<'a>) -> &'a [u8]
    ensures { result.now ≡ prop_key (prop_seen p.entry) }
{
    match p {
        Prop::Map(key) => key,
        Prop::Seq(_) => &[],
    }
}

fn data_of<'a>(value: Value<'a>) -> &'a [u8]
    ensures { result.now ≡ content_data (content_seen value.entry) }
{
    match value {
        Value::Scalar(ScalarValue::Str(s) | ScalarValue::Bytes(s)) => s,
        _ => &[],
    }
}

impl<'a> Call<'a> {
    // The bytes of the key that it names; none where it names a position.
    pub fn key(self) -> &'a [u8]
        ensures { result.now ≡ call_key (call_seen self.entry) }
    {
        match self {
            Call::Put(p, _) | Call::Increment(p, _, _) | Call::FlagConflict(p) => key_of(p),
            Call::DeleteMap(key) => key,
            _ => &[],
        }
    }

    // The bytes of the string or byte string that it places; none for another value.
    pub fn data(self) -> &'a [u8]
        ensures { result.now ≡ call_data (call_seen self.entry) }
    {
        match self {
            Call::Put(_, e) | Call::Insert(_, e) => data_of(e.value),
            _ => &[],
        }
    }
}
