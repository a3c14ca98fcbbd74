ghost use Rattle.std.specs.Prelude.{◌≡◌};
ghost use Rattle.types.specs.Values.{bytes_of_scalar, bytes_of_value, ForString, MapsScalar, ForValueString, MapsValue, ForKey, MapsProp};

use crate::types::ObjType;

// A scalar whose strings and byte strings are held as `S`: as the bytes
// themselves, or as how many they are.
#[derive(Clone, Copy)]
pub enum ScalarOf<S> {
    Null,
    Boolean(bool),
    Int(i64),
    Uint(u64),
    Timestamp(i64),
    Counter(i64),
    Str(S),
    Bytes(S),
}

impl<S> ScalarOf<S> {
    // The same scalar, its string or byte string held otherwise.
    pub fn map<T, F: FnOnce(S) -> T>(self, f: F) -> ScalarOf<T>
        requires { ForString self (F.pre f) }
        ensures { MapsScalar (F.post f) self result }
    {
        match self {
            ScalarOf::Null => ScalarOf::Null,
            ScalarOf::Boolean(b) => ScalarOf::Boolean(b),
            ScalarOf::Int(n) => ScalarOf::Int(n),
            ScalarOf::Uint(n) => ScalarOf::Uint(n),
            ScalarOf::Timestamp(n) => ScalarOf::Timestamp(n),
            ScalarOf::Counter(n) => ScalarOf::Counter(n),
            ScalarOf::Str(s) => ScalarOf::Str(f(s)),
            ScalarOf::Bytes(s) => ScalarOf::Bytes(f(s)),
        }
    }
}

// A scalar over borrowed bytes. The bytes of a `Str` may be no UTF-8: the
// calls that take one judge it.
pub type ScalarValue<'a> = ScalarOf<&'a [u8]>;

impl<'a> ScalarValue<'a> {
    // How many bytes it counts for: only strings and byte strings count any.
    pub fn byte_len(self) -> usize
        ensures { result ≡ bytes_of_scalar self.entry }
    {
        match self {
            ScalarValue::Str(s) | ScalarValue::Bytes(s) => s.len(),
            _ => 0,
        }
    }
}

// What is put or inserted: a new, empty object of a kind, or a scalar.
#[derive(Clone, Copy)]
pub enum ValueOf<S> {
    Object(ObjType),
    Scalar(ScalarOf<S>),
}

impl<S> ValueOf<S> {
    // The same value, its string or byte string held otherwise.
    pub fn map<T, F: FnOnce(S) -> T>(self, f: F) -> ValueOf<T>
        requires { ForValueString self (F.pre f) }
        ensures { MapsValue (F.post f) self result }
    {
        match self {
            ValueOf::Object(kind) => ValueOf::Object(kind),
            ValueOf::Scalar(s) => ValueOf::Scalar(s.map(f)),
        }
    }
}

pub type Value<'a> = ValueOf<&'a [u8]>;

impl<'a> Value<'a> {
    pub fn byte_len(self) -> usize
        ensures { result ≡ bytes_of_value self.entry }
    {
        match self {
            Value::Object(_) => 0,
            Value::Scalar(s) => s.byte_len(),
        }
    }
}

// Where in an object: a map's or table's key, held as `K`, or a list's or
// text's position.
#[derive(Clone, Copy)]
pub enum PropOf<K> {
    Map(K),
    Seq(usize),
}

impl<K> PropOf<K> {
    // The same place, its key held otherwise.
    pub fn map<T, F: FnOnce(K) -> T>(self, f: F) -> PropOf<T>
        requires { ForKey self (F.pre f) }
        ensures { MapsProp (F.post f) self result }
    {
        match self {
            PropOf::Map(key) => PropOf::Map(f(key)),
            PropOf::Seq(i) => PropOf::Seq(i),
        }
    }
}

// The key's bytes may be no UTF-8: the calls that take one judge it.
pub type Prop<'a> = PropOf<&'a [u8]>;
