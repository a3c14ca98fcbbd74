use crate::find::compare_keys;
use crate::tables::Tables;
use node_chains::node::{Item, Node};
use std::cmp::Ordering;

const BLANK: Node = Node {
    item: Item::NONE,
    parent: 0,
    depth: 0,
};

#[test]
fn starts_empty(rt: HostRuntime) {
    let mut nodes = [BLANK; 4];
    let mut starts = [9u32; 5];
    let mut chain = [9u32; 2];
    let mut keys = [9u8; 256];
    let mut strings = [9u8; 1024];
    let mut begins = [9u32; 5];
    let mut units = [9u8; 8];
    let tables = Tables::new(
        &mut nodes,
        &mut starts,
        &mut chain,
        &mut keys,
        &mut strings,
        &mut begins,
        &mut units,
    );
    assert_eq!(rt; tables.children(0).len(), 0);
    assert_eq!(rt; tables.children(3).len(), 2);
    assert_eq!(rt; tables.key(2).len(), 0);
    assert_eq!(rt; tables.text(1).len(), 0);
    assert_eq!(rt; tables.unit_count(), 0);
}

#[test]
fn orders_keys(rt: HostRuntime) {
    assert_eq!(rt; compare_keys(b"a", b"ab"), Ordering::Less);
    assert_eq!(rt; compare_keys(b"b", b"ab"), Ordering::Greater);
    assert_eq!(rt; compare_keys(b"ab", b"ab"), Ordering::Equal);
}
