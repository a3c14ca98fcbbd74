// A document as a tree, from its root, by the questions of the interface alone.
use document::document::Document;
use document::view::Entry;
use text_value::as_text;
use types::bounds::DOCUMENT_OBJECTS;
use types::types::{ObjId, OpId};
use types::value::{ScalarValue, Value};

pub fn show_document<D: Document>(rt: &HostRuntime, doc: &D) -> anyhow::Result<()> {
    show_object(rt, doc, ObjId::root(), DOCUMENT_OBJECTS)
}

// The rows below an object; there are at most `left` levels more, since each
// level has an object of its own.
fn show_object<D: Document>(
    rt: &HostRuntime,
    doc: &D,
    id: ObjId,
    left: usize,
) -> anyhow::Result<()> {
    if left == 0 {
        return Ok(());
    }
    if let Some(text) = doc.text(id) {
        indent(rt, left)?;
        show_text(rt, text)?;
        println!(rt)?;
    }
    let keyed = has_keys(doc, id);
    for n in 0..doc.size(id) {
        if let Some(entry) = doc.entry(id, n) {
            indent(rt, left)?;
            show_entry(rt, keyed, n, entry)?;
            if let Value::Object(_) = entry.value {
                show_object(rt, doc, ObjId(entry.id), left - 1)?;
            }
        }
    }
    Ok(())
}

fn has_keys<D: Document>(doc: &D, id: ObjId) -> bool {
    doc.object(id).is_some_and(|head| !head.kind.is_sequence())
}

fn indent(rt: &HostRuntime, left: usize) -> anyhow::Result<()> {
    for _ in left..DOCUMENT_OBJECTS + 1 {
        print!(rt; "  ")?;
    }
    Ok(())
}

// An entry's key or position, what it holds, and a mark for a conflict.
fn show_entry(rt: &HostRuntime, keyed: bool, n: usize, entry: Entry<'_>) -> anyhow::Result<()> {
    if keyed {
        show_plain(rt, entry.key)?;
    } else {
        print!(rt; "{n}")?;
    }
    print!(rt; ": ")?;
    show_value(rt, entry.value, entry.id)?;
    if entry.conflict {
        print!(rt; " !")?;
    }
    println!(rt)?;
    Ok(())
}

fn show_value(rt: &HostRuntime, value: Value<'_>, id: OpId) -> anyhow::Result<()> {
    match value {
        Value::Scalar(scalar) => show_scalar(rt, scalar),
        Value::Object(kind) => {
            print!(rt; "{kind} ({}, {})", id.counter, id.actor)?;
            Ok(())
        }
    }
}

// By hand: the bytes of a string are printed as text, which the crate of
// values does not know.
fn show_scalar(rt: &HostRuntime, scalar: ScalarValue<'_>) -> anyhow::Result<()> {
    match scalar {
        ScalarValue::Null => print!(rt; "null")?,
        ScalarValue::Boolean(b) => print!(rt; "{b}")?,
        ScalarValue::Int(n) => print!(rt; "int {n}")?,
        ScalarValue::Uint(n) => print!(rt; "uint {n}")?,
        ScalarValue::Timestamp(n) => print!(rt; "timestamp {n}")?,
        ScalarValue::Counter(n) => print!(rt; "counter {n}")?,
        ScalarValue::Str(s) => {
            print!(rt; "str ")?;
            show_text(rt, s)?;
        }
        ScalarValue::Bytes(s) => {
            print!(rt; "bytes")?;
            for b in s {
                print!(rt; " {b:02X}")?;
            }
        }
    }
    Ok(())
}

fn show_text(rt: &HostRuntime, bytes: &[u8]) -> anyhow::Result<()> {
    print!(rt; "'")?;
    show_plain(rt, bytes)?;
    print!(rt; "'")?;
    Ok(())
}

// Bytes that are UTF-8 in every document.
fn show_plain(rt: &HostRuntime, bytes: &[u8]) -> anyhow::Result<()> {
    if let Some(text) = as_text(bytes) {
        print!(rt; "{text}")?;
    }
    Ok(())
}
