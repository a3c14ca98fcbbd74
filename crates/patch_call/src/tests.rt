use crate::call::{Call, Entry};
use crate::check_call;
use types::error::Refusal;
use types::types::{ObjId, ObjType, OpId};
use types::value::{Prop, ScalarValue, Value};

fn entry(value: Value, counter: u32) -> Entry {
    Entry {
        value,
        id: OpId { counter, actor: 1 },
        conflict: false,
    }
}

// What the root answers to a call.
fn root_answer(call: Call) -> Result<(), Refusal> {
    check_call(ObjId::root(), call)
}

#[test]
fn refuses_past_the_bounds(rt: HostRuntime) {
    let list = entry(Value::Object(ObjType::List), 1);
    assert_eq!(rt; root_answer(Call::Insert(1048575, list)), Ok(()));
    assert_eq!(rt;
        root_answer(Call::Insert(1048576, list)),
        Err(Refusal::PositionTooHigh)
    );
    assert_eq!(rt;
        root_answer(Call::DeleteSeq(0, 0)),
        Err(Refusal::DeletionLength)
    );
    assert_eq!(rt; root_answer(Call::DeleteSeq(0, 1048576)), Ok(()));
    assert_eq!(rt;
        root_answer(Call::DeleteSeq(0, 1048577)),
        Err(Refusal::DeletionLength)
    );
    let letters = [b'a'; 257];
    assert_eq!(rt; root_answer(Call::DeleteMap(&letters[..64])), Ok(()));
    assert_eq!(rt;
        root_answer(Call::DeleteMap(&letters[..65])),
        Err(Refusal::TooLong)
    );
    let long = entry(Value::Scalar(ScalarValue::Bytes(&letters[..257])), 1);
    assert_eq!(rt; root_answer(Call::Insert(0, long)), Err(Refusal::TooLong));
}

#[test]
fn tells_text_from_bytes(rt: HostRuntime) {
    let text = entry(Value::Scalar(ScalarValue::Str(b"\xff")), 1);
    let bytes = entry(Value::Scalar(ScalarValue::Bytes(b"\xff")), 1);
    assert_eq!(rt;
        root_answer(Call::Put(Prop::Map(b"k"), text)),
        Err(Refusal::InvalidEncoding)
    );
    assert_eq!(rt; root_answer(Call::Put(Prop::Map(b"k"), bytes)), Ok(()));
    assert_eq!(rt;
        root_answer(Call::SpliceText(0, b"\xc3")),
        Err(Refusal::InvalidEncoding)
    );
    assert_eq!(rt; root_answer(Call::SpliceText(0, b"\xc3\xa9")), Ok(()));
    assert_eq!(rt; Call::Put(Prop::Map(b"k"), bytes).key().len(), 1);
    assert_eq!(rt;
        Call::Put(Prop::Map(b"key"), bytes).data(),
        b"\xff".as_slice()
    );
}

#[test]
fn gives_the_lowest_number(rt: HostRuntime) {
    let nobody = entry(Value::Scalar(ScalarValue::Null), 0);
    let high = Prop::Seq(1048576);
    assert_eq!(rt;
        root_answer(Call::Put(high, nobody)),
        Err(Refusal::ZeroCounter)
    );
    assert_eq!(rt;
        root_answer(Call::FlagConflict(high)),
        Err(Refusal::PositionTooHigh)
    );
    let unnamed = ObjId(OpId {
        counter: 0,
        actor: 7,
    });
    assert_eq!(rt;
        check_call(unnamed, Call::DeleteMap(b"k")),
        Err(Refusal::ZeroCounter)
    );
}
