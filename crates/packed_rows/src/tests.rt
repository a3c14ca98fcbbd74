use crate::packed::PackedRows;
use sequence_tree::error::SequenceError;

#[test]
fn keeps_other_rows(rt: HostRuntime) {
    let mut places = [0u8; 8];
    let mut starts = [9u32; 3];
    let mut rows = PackedRows::new(&mut places, &mut starts);
    assert!(rt; rows.splice(1, 0, 0, b"xyz").is_ok());
    assert!(rt; rows.splice(0, 0, 0, b"ab").is_ok());
    assert!(rt; rows.splice(1, 1, 1, b"--").is_ok());
    assert_eq!(rt; rows.splice(2, 0, 0, b""), Err(SequenceError::OutOfRange));
    assert_eq!(rt; rows.row(0).len(), 2);
    assert_eq!(rt; rows.row(1).len(), 4);
    assert_eq!(rt; rows.used(), 6);
}
