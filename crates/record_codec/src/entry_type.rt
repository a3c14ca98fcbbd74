ghost use Rattle.std.specs.Prelude.{◌≡◌};
ghost use Rattle.std.specs.Result.{result_ok};

use crate::code::kind_at;
use types::types::ObjType;

// The type of an entry, as its code says it.
#[derive(Clone, Copy)]
pub enum EntryType {
    Null,
    False,
    True,
    Int,
    Uint,
    Timestamp,
    Counter,
    Str,
    Bytes,
    Object(ObjType),
}

// A code that stands for no type.
#[derive(Clone, Copy, Debug)]
pub struct UnknownCode;

impl TryFrom<u32> for EntryType {
    ghost use Rattle.record_codec.specs.Layout.{type_at};

    type Error = UnknownCode;

    ghost try_from_gives = { λ code r. result_ok r ≡ type_at code };

    fn try_from(code: u32) -> Result<EntryType, UnknownCode> {
        match code {
            0 => Ok(EntryType::Null),
            1 => Ok(EntryType::False),
            2 => Ok(EntryType::True),
            3 => Ok(EntryType::Int),
            4 => Ok(EntryType::Uint),
            5 => Ok(EntryType::Timestamp),
            6 => Ok(EntryType::Counter),
            7 => Ok(EntryType::Str),
            8 => Ok(EntryType::Bytes),
            // Objects follow, by the codes of their kinds.
            9.. => kind_at(code - 9).map(EntryType::Object).ok_or(UnknownCode),
        }
    }
}
