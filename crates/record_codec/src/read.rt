ghost use Rattle.std.specs.Prelude.{◌≡◌, None, MatchOption, IsSomeAnd};
ghost use Rattle.record_codec.specs.Codec.{get32, get64, get_text};
ghost use Rattle.record_codec.specs.Layout.{get_id, get_head, get_content_of, get_content, get_key, get_slot};
ghost use Rattle.document.specs.Views.{content_seen, entry_seen};
ghost use Rattle.record_codec.specs.Seen.{saw, itself, behind};

use crate::code::{flag_at, kind_at};
use crate::entry_type::EntryType;
use document::view::{Entry, Head};
use types::types::{ObjId, OpId};
use types::value::{ScalarValue, Value};

// Each reader takes its part from the front of the bytes and hands on the
// rest, or finds that the bytes do not follow the layout. A pair, and no
// cursor: a contract tells what was read and what is left, which a cursor
// would hold just so.

// A number of 4 bytes, highest first.
pub fn take_u32(bytes: &[u8]) -> Option<(u32, &[u8])>
    ensures { saw itself result ≡ get32 bytes.now }
{
    let (number, rest) = bytes.split_first_chunk::<4>()?;
    Some((u32::from_be_bytes(*number), rest))
}

// A number of 8 bytes, highest first. Not generic in the number:
// `from_be_bytes` is each type's own, and no trait of the library has it.
fn take_u64(bytes: &[u8]) -> Option<(u64, &[u8])>
    ensures { saw itself result ≡ get64 bytes.now }
{
    let (number, rest) = bytes.split_first_chunk::<8>()?;
    Some((u64::from_be_bytes(*number), rest))
}

// A length and that many bytes.
pub fn take_text(bytes: &[u8]) -> Option<(&[u8], &[u8])>
    ensures { saw behind result ≡ get_text bytes.now }
{
    let (length, rest) = take_u32(bytes)?;
    rest.split_at_checked(length as usize)
}

// An identity: counter and actor.
fn take_id(bytes: &[u8]) -> Option<(OpId, &[u8])>
    ensures { saw itself result ≡ get_id bytes.now }
{
    let (counter, rest) = take_u32(bytes)?;
    let (actor, rest) = take_u32(rest)?;
    Some((OpId { counter, actor }, rest))
}

// What stands before a row.
pub fn take_head(bytes: &[u8]) -> Option<(Head, &[u8])>
    ensures { saw itself result ≡ get_head bytes.now }
{
    let (id, rest) = take_id(bytes)?;
    let (parent, rest) = take_id(rest)?;
    let (code, rest) = take_u32(rest)?;
    let kind = kind_at(code)?;
    let head = Head {
        id: ObjId(id),
        parent: ObjId(parent),
        kind,
    };
    Some((head, rest))
}

// The same reading, of what is made of its value.
fn read_as<'a, A, B, F: FnOnce(A) -> B>(
    read: Option<(A, &'a [u8])>,
    make: F,
) -> Option<(B, &'a [u8])>
    requires { F.IsAlwaysCallable make }
    ensures { MatchOption read.entry (result ≡ None) (λ p. IsSomeAnd result (λ q. F.post make p.0 q.0 × (q.1.now ≡ p.1.now))) }
{
    let (value, rest) = read?;
    Some((make(value), rest))
}

// The content that follows a type.
fn take_content_of(of: EntryType, bytes: &[u8]) -> Option<(Value<'_>, &[u8])>
    ensures { saw content_seen result ≡ get_content_of of bytes.now }
{
    match of {
        EntryType::Null => Some((Value::Scalar(ScalarValue::Null), bytes)),
        EntryType::False => Some((Value::Scalar(ScalarValue::Boolean(false)), bytes)),
        EntryType::True => Some((Value::Scalar(ScalarValue::Boolean(true)), bytes)),
        EntryType::Int => read_as(take_u64(bytes), |n| {
            Value::Scalar(ScalarValue::Int(n.cast_signed()))
        }),
        EntryType::Uint => read_as(take_u64(bytes), |n| Value::Scalar(ScalarValue::Uint(n))),
        EntryType::Timestamp => read_as(take_u64(bytes), |n| {
            Value::Scalar(ScalarValue::Timestamp(n.cast_signed()))
        }),
        EntryType::Counter => read_as(take_u64(bytes), |n| {
            Value::Scalar(ScalarValue::Counter(n.cast_signed()))
        }),
        EntryType::Str => read_as(take_text(bytes), |s| Value::Scalar(ScalarValue::Str(s))),
        EntryType::Bytes => read_as(take_text(bytes), |s| Value::Scalar(ScalarValue::Bytes(s))),
        EntryType::Object(kind) => Some((Value::Object(kind), bytes)),
    }
}

// A type's code and its content.
fn take_value(bytes: &[u8]) -> Option<(Value<'_>, &[u8])>
    ensures { saw content_seen result ≡ get_content bytes.now }
{
    let (code, rest) = take_u32(bytes)?;
    take_content_of(EntryType::try_from(code).ok()?, rest)
}

// A key where the row has keys, else the empty one.
fn take_key(keyed: bool, bytes: &[u8]) -> Option<(&[u8], &[u8])>
    ensures { saw behind result ≡ get_key keyed bytes.now }
{
    if keyed {
        take_text(bytes)
    } else {
        Some((&[], bytes))
    }
}

// An entry, with a key where the row has keys.
pub fn take_entry(keyed: bool, bytes: &[u8]) -> Option<(Entry<'_>, &[u8])>
    ensures { saw entry_seen result ≡ get_slot keyed bytes.now }
{
    let (key, rest) = take_key(keyed, bytes)?;
    let (value, rest) = take_value(rest)?;
    let (id, rest) = take_id(rest)?;
    let (code, rest) = take_u32(rest)?;
    let conflict = flag_at(code)?;
    Some((
        Entry {
            key,
            value,
            id,
            conflict,
        },
        rest,
    ))
}
