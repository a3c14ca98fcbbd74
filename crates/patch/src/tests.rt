use crate::memory::PatchMemory;
use crate::rows::{ActionRow, ContentRow, PatchRow, Path, PropRow, ScalarRow, StepRow, ValueRow};
use patch_call::call::{Call, Entry};
use std::alloc::Global;
use std::test::Fail;
use types::bounds::{BUILDER_BYTES, BUILDER_PATCHES, BUILDER_UNITS, BUILDER_VALUES, PATH_STEPS};
use types::error::Refusal;
use types::types::{ObjId, OpId};
use types::value::{Prop, ScalarValue, Value};

const ROOT: Path<'static> = Path {
    steps: &[],
    keys: &[],
};

// Places for a memory of patches whose texts are in bytes.
#[derive(Drop)]
struct Places {
    rows: Vec<PatchRow>,
    steps: Vec<StepRow>,
    values: Vec<ValueRow>,
    units: Vec<u8>,
    bytes: Vec<u8>,
}

impl Places {
    fn new(alloc: Global) -> Result<Places, Fail> {
        let row = PatchRow {
            obj: ObjId::root(),
            steps: 0,
            bytes: 0,
            action: ActionRow::DeleteSeq(0, 1),
        };
        let step = StepRow {
            leaves: ObjId::root(),
            prop: PropRow::Seq(0),
        };
        let value = ValueRow {
            content: ContentRow::Scalar(ScalarRow::Null),
            id: OpId::new(1, 1),
            conflict: false,
            wide: false,
        };
        Ok(Places {
            rows: vec![in alloc; row; BUILDER_PATCHES]?,
            steps: vec![in alloc; step; BUILDER_PATCHES * PATH_STEPS]?,
            values: vec![in alloc; value; BUILDER_VALUES]?,
            units: vec![in alloc; 0; BUILDER_UNITS]?,
            bytes: vec![in alloc; 0; BUILDER_BYTES]?,
        })
    }

    fn memory(&mut self) -> Option<PatchMemory<'_, u8>> {
        PatchMemory::new(
            &mut self.rows,
            &mut self.steps,
            &mut self.values,
            &mut self.units,
            &mut self.bytes,
        )
    }
}

// A string put under "title" of the root is read back with its bytes.
#[test]
fn reads_back_what_was_appended(rt: HostRuntime) -> Result<(), Fail> {
    let mut places = Places::new(rt.alloc())?;
    let mut memory = places.memory().ok_or("too few places")?;
    let dune = Entry {
        value: Value::Scalar(ScalarValue::Str(b"Dune")),
        id: OpId::new(2, 1),
        conflict: false,
    };
    let put = Call::Put(Prop::Map(b"title"), dune);
    assert_eq!(rt; memory.append(ObjId::root(), ROOT, put, &[], false), Ok(()));
    let (patch, past) = memory.next(memory.first()).ok_or("no patch")?;
    assert_eq!(rt; patch.bytes, b"titleDune".as_slice());
    assert_eq!(rt; patch.row.obj, ObjId::root());
    assert!(rt; matches!(patch.row.action, ActionRow::PutMap(5, _)));
    assert!(rt; memory.next(past).is_none());
    let batch = memory.take();
    memory.discard(batch);
    assert!(rt; memory.next(memory.first()).is_none());
    Ok(())
}

// Refusals 3, 6 and 7, at the bounds 1,048,576, 16 and 4,096.
#[test]
fn refuses_past_the_bounds(rt: HostRuntime) -> Result<(), Fail> {
    let mut places = Places::new(rt.alloc())?;
    let mut memory = places.memory().ok_or("too few places")?;
    let root = ObjId::root();
    let deep = [StepRow {
        leaves: root,
        prop: PropRow::Seq(0),
    }; 17];
    let path = Path {
        steps: &deep,
        keys: &[],
    };
    let longest = Call::DeleteSeq(0, 1048576);
    assert_eq!(rt;
        memory.append(root, path, longest, &[], false),
        Err(Refusal::PathTooDeep)
    );
    assert_eq!(rt; memory.append(root, ROOT, longest, &[], false), Ok(()));
    assert_eq!(rt; memory.join_delete(1), Err(Refusal::DeletionLength));
    for _ in 1..4096 {
        assert_eq!(rt;
            memory.append(root, ROOT, Call::DeleteSeq(0, 1), &[], false),
            Ok(())
        );
    }
    assert_eq!(rt;
        memory.append(root, ROOT, longest, &[], false),
        Err(Refusal::Full)
    );
    Ok(())
}
