use crate::error::SequenceError;
use crate::sequence::Sequence;

#[test]
fn replaces_in_place(rt: HostRuntime) {
    let mut places = [0u8; 4];
    let mut s = Sequence::new(&mut places);
    assert!(rt; s.push(7).is_ok());
    assert!(rt; s.insert(0, 5).is_ok());
    assert!(rt; s.splice(1, 0, b"ab").is_ok());
    assert_eq!(rt; s.insert(0, 1), Err(SequenceError::Full));
    assert_eq!(rt; s.remove(4), Err(SequenceError::OutOfRange));
    assert!(rt; s.remove(1).is_ok());
    assert_eq!(rt; s.get(1), Some(98));
    assert_eq!(rt; s.len(), 3);
}

#[test]
fn replaces_where_there_is_room(rt: HostRuntime) {
    let mut places = [0u8; 4];
    let mut s = Sequence::new(&mut places);
    s.extend(b"abc");
    s.replace(0, 2, b"xyz");
    assert_eq!(rt; s.as_slice(), b"xyzc".as_slice());
    s.clear();
    assert_eq!(rt; s.len(), 0);
}
