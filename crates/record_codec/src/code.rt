ghost use Rattle.std.specs.Prelude.{◌≡◌};
ghost use Rattle.record_codec.specs.Layout.{kind_at, flag_at};

use types::types::ObjType;

// What a code of the layout stands for. `TryFrom` cannot be implemented here,
// since the types are another crate's.

pub fn kind_at(code: u32) -> Option<ObjType>
    ensures { result ≡ kind_at code }
{
    match code {
        0 => Some(ObjType::Map),
        1 => Some(ObjType::Table),
        2 => Some(ObjType::List),
        3 => Some(ObjType::Text),
        _ => None,
    }
}

pub fn flag_at(code: u32) -> Option<bool>
    ensures { result ≡ flag_at code }
{
    match code {
        0 => Some(false),
        1 => Some(true),
        _ => None,
    }
}
