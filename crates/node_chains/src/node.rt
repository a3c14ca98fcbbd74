// The nodes of a value.
ghost use Rattle.std.specs.Prelude.{◌≡◌};
ghost use Rattle.node_chains.specs.Contents.{is_map};

// What a node holds. The bytes of a string lie in the node's slot, the units of a text in its row.
#[derive(Clone, Copy)]
pub enum Content {
    Null,
    Boolean(bool),
    Int(i64),
    Uint(u64),
    Timestamp(i64),
    Counter(i64),
    Str,
    Bytes,
    Map,
    List,
    Text,
}

impl Content {
    pub fn is_map(self) -> bool
        ensures { result ≡ is_map self }
    {
        matches!(self, Content::Map)
    }
}

// What a node is as an entry: its content, its conflict flag, and how many bytes of its slots its key and its string have.
#[derive(Clone, Copy)]
pub struct Item {
    pub content: Content,
    pub conflict: bool,
    pub key_len: u32,
    pub string_len: u32,
}

impl Item {
    // What stands at a free place.
    pub const NONE: Item = Item {
        content: Content::Null,
        conflict: false,
        key_len: 0,
        string_len: 0,
    };

    // What stands at the root.
    pub const ROOT: Item = Item {
        content: Content::Map,
        conflict: false,
        key_len: 0,
        string_len: 0,
    };
}

// An entry, with the place of its parent and its depth below the root. Places and no boxes: the memory is lent.
#[derive(Clone, Copy)]
pub struct Node {
    pub item: Item,
    pub parent: u32,
    pub depth: u32,
}
