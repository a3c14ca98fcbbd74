use crate::orders::{KeyOrder, SOUGHT, obj_id_order};
use crate::set::{OrderedSet, find};
use types::types::{ObjId, OpId};

#[test]
fn serves_as_a_queue(rt: HostRuntime) {
    let first = ObjId(OpId {
        counter: 2,
        actor: 5,
    });
    let last = ObjId(OpId {
        counter: 9,
        actor: 1,
    });
    let mut places = [ObjId::root(); 2];
    let mut queue = OrderedSet::new();
    assert!(rt; queue.insert(&obj_id_order(), &mut places, last).is_ok());
    assert!(rt; queue.insert(&obj_id_order(), &mut places, first).is_ok());
    assert!(rt; queue.insert(&obj_id_order(), &mut places, last).is_ok());
    assert!(rt;
        queue
            .insert(&obj_id_order(), &mut places, ObjId::root())
            .is_err()
    );
    assert_eq!(rt; queue.remove_first(&mut places), Some(first));
    assert_eq!(rt; queue.first(&places), Some(last));
    assert_eq!(rt; queue.len(), 1);
}

#[test]
fn finds_a_key_in_no_row(rt: HostRuntime) {
    let order = KeyOrder {
        starts: &[0, 1, 3],
        bytes: b"zab",
        sought: b"b",
    };
    let one = [1];
    assert_eq!(rt; find(&order, &one, SOUGHT), Err(1));
    assert_eq!(rt; find(&order, &one, 0), Err(1));
    assert_eq!(rt; find(&order, &one, 1), Ok(0));
}
