// What a text is: UTF-8 as RFC 3629 defines it, and its units in the kind that a screen counts in.
#![tactic(auto)]

mod bytes;
mod code_point;

ghost use Rattle.std.specs.Prelude.{◌≡◌, ℕ, ◌≤◌, true, List, [], ◌∷◌, ◌++◌, length, is_some, IfSome, is_ok, IfOk, IsUtf8 as LibraryUtf8, Decides, nat_le};
ghost use Rattle.text_value.specs.Rfc3629.{utf8, IsUtf8, code_points, OnlyReading};
ghost use Rattle.text_value.specs.Units.{byte_units, point_units, Wrote};

pub use bytes::Utf8;
pub use code_point::CodePoint;
use std::str::Utf8Error;

// Whether the bytes are UTF-8: by the test, by the standard, and for the library's texts, which is all one.
pub fn is_utf8(bytes: &[u8]) -> bool
    ensures test { result ≡ utf8 bytes.now }
    ensures rfc { Decides result (IsUtf8 bytes.now) }
    ensures library { Decides result (LibraryUtf8 bytes.now) }
{
    read(bytes).is_ok()
}

// The bytes as a text, where they are UTF-8. Its code points are the only ones that the bytes encode.
pub fn as_text(bytes: &[u8]) -> Option<&str>
    ensures test { is_some result ≡ utf8 bytes.now }
    ensures rfc { Decides (is_some result) (IsUtf8 bytes.now) }
    ensures text { IfSome result (λ s. (s.now ≡ bytes.now) × OnlyReading bytes.now (code_points bytes.now)) }
{
    read(bytes).ok()
}

// The library's answer, with what it says by the standard.
fn read(bytes: &[u8]) -> Result<&str, Utf8Error>
    ensures test { is_ok result ≡ utf8 bytes.now }
    ensures rfc { Decides (is_ok result) (IsUtf8 bytes.now) }
    ensures library { Decides (is_ok result) (LibraryUtf8 bytes.now) }
    ensures text { IfOk result (λ s. (s.now ≡ bytes.now) × OnlyReading bytes.now (code_points bytes.now)) }
{
    std::str::from_utf8(bytes)
}

// A kind of unit in which a text is counted.
pub trait TextValue {
    type Elem: Copy;

    // The units of a text, given by its bytes.
    ghost units: { List ℕ → List Self.Elem };

    // How many units the text has.
    fn width(s: &str) -> usize
        ensures { result ≡ length (units s.now) };

    // Whether the text has at most `room` units. It need not be read where its bytes are no more than that.
    fn fits(s: &str, room: usize) -> bool
        ensures { result ≡ nat_le (length (units s.now)) room }
    {
        s.len() <= room || Self::width(s) <= room
    }

    // Writes the units from place 0 on and says how many they are; where they have no room, writes none.
    fn write_units(s: &str, out: &mut [Self::Elem]) -> Option<usize>
        ensures { Wrote (units s.now) out.old result out.new };

    // No text has more units than bytes, and the empty one has none.
    ghost fewer: { (s : List ℕ) → length (units s) ≤ length s };

    ghost none: { units [] ≡ [] };

    // The units of a joined text are those of its parts in a row.
    ghost joined: { (s t : List ℕ) → utf8 s ≡ true → units (s ++ t) ≡ units s ++ units t };

    // Texts with the same units are the same.
    ghost same: { (s t : List ℕ) → utf8 s ≡ true → utf8 t ≡ true → units s ≡ units t → s ≡ t };
}

// What counts in a text for a value that is no string: U+FFFC.
pub fn replacement() -> &'static str
    ensures bytes { byte_units result.now ≡ 239 ∷ 191 ∷ 188 ∷ [] }
    ensures point { point_units result.now ≡ 65532 ∷ [] }
{
    "\u{FFFC}"
}

#[cfg(test)]
mod tests;
