use crate::shelf::{OpenTables, ShelfTables};
use crate::table::{Cell, EntryRow, ObjectRow, Window};
use document::document::Document;
use types::types::{ObjId, ObjType, OpId};
use types::value::ScalarOf;

const ROOT: ObjId = ObjId(OpId {
    counter: 0,
    actor: 0,
});

const LIST: ObjId = ObjId(OpId {
    counter: 1,
    actor: 7,
});

const BYTES: &[u8] = b"shelfbook";

// A list under the key "shelf", which holds the string "book".
const ENTRIES: [EntryRow; 2] = [
    EntryRow {
        key: Window { from: 0, len: 5 },
        cell: Cell::Object(ObjType::List),
        id: OpId {
            counter: 1,
            actor: 7,
        },
        conflict: false,
    },
    EntryRow {
        key: Window { from: 0, len: 0 },
        cell: Cell::Scalar(ScalarOf::Str(Window { from: 5, len: 4 })),
        id: OpId {
            counter: 2,
            actor: 7,
        },
        conflict: true,
    },
];

fn objects(parent: ObjId) -> [ObjectRow; 2] {
    [
        ObjectRow {
            id: ROOT,
            parent: ROOT,
            kind: ObjType::Map,
            row: Window { from: 0, len: 1 },
        },
        ObjectRow {
            id: LIST,
            parent,
            kind: ObjType::List,
            row: Window { from: 1, len: 1 },
        },
    ]
}

// Whether the first entry of an object is flagged and has no key.
fn begins_flagged<D: Document>(doc: &D, id: ObjId) -> bool {
    doc.entry(id, 0)
        .is_some_and(|e| e.conflict && e.key.is_empty())
}

#[test]
fn tells_its_rows(rt: HostRuntime) {
    let rows = objects(ROOT);
    let mut tables = ShelfTables::bare_root();
    assert!(rt; tables.open(&rows, &ENTRIES, BYTES).is_ok());
    assert_eq!(rt; tables.size(LIST), 1);
    assert!(rt; begins_flagged(&tables, LIST));
}

#[test]
fn refuses_a_list_that_is_its_own_parent(rt: HostRuntime) {
    let rows = objects(LIST);
    let mut tables = ShelfTables::bare_root();
    assert!(rt; tables.open(&rows, &ENTRIES, BYTES).is_err());
    assert_eq!(rt; tables.size(ROOT), 0);
}
