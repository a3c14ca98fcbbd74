ghost use Rattle.std.specs.Prelude.{◌≡◌, Some};
ghost use Rattle.types.specs.Identities.{compare_ids, root_id, is_root};
ghost use Rattle.types.specs.Kinds.{is_sequence, kind_name};

use std::cmp::Ordering;
use std::fmt;

// The identity of an entry: a counter and the actor that counted.
#[derive(Clone, Copy, PartialEq, Eq, PartialOrd, Ord, Debug)]
pub struct OpId {
    pub counter: u32,
    pub actor: u32,
}

impl OpId {
    pub fn new(counter: u32, actor: u32) -> OpId
        ensures { result ≡ record { counter = counter; actor = actor } }
    {
        OpId { counter, actor }
    }

    // The order of identities: by counter, then by actor.
    pub fn compare(self, other: OpId) -> Ordering
        ensures { result ≡ compare_ids self other }
    {
        self.cmp(&other)
    }
}

// The identity of an object, of a type of its own, so that it never meets
// that of an entry by accident.
#[derive(Clone, Copy, PartialEq, Eq, PartialOrd, Ord, Debug)]
pub struct ObjId(pub OpId);

impl ObjId {
    // The root of every document.
    pub fn root() -> ObjId
        ensures { result ≡ root_id }
    {
        ObjId(OpId {
            counter: 0,
            actor: 0,
        })
    }

    pub fn is_root(self) -> bool
        ensures { result ≡ is_root self }
    {
        self == ObjId::root()
    }

    // The same order. Both are the derived order, under the name that
    // contracts cite.
    pub fn compare(self, other: ObjId) -> Ordering
        ensures { result ≡ compare_ids self.0 other.0 }
    {
        self.0.compare(other.0)
    }
}

// The kinds of objects. A table is told from a map in documents and patches,
// and is a map on the screen.
#[derive(Clone, Copy, PartialEq, Eq, Debug)]
pub enum ObjType {
    Map,
    Table,
    List,
    Text,
}

impl ObjType {
    // Lists and texts have positions; maps and tables have keys.
    pub fn is_sequence(self) -> bool
        ensures { result ≡ is_sequence self }
    {
        matches!(self, ObjType::List | ObjType::Text)
    }
}

impl fmt::Display for ObjType {
    ghost output = { λ k. Some (kind_name k) };

    fn fmt<W: fmt::Write>(&self, f: &mut fmt::Formatter<W>) -> fmt::Result {
        f.write_str(match self {
            ObjType::Map => "map",
            ObjType::Table => "table",
            ObjType::List => "list",
            ObjType::Text => "text",
        })
    }
}
