// Opens records that come as lines of hex digits, and prints for each the
// refusal's number, or what is reached from the root.
#![tactic(auto)]

use document::document::Document;
use record::record::{OpenRecord, ShelfRecord};
use std::alloc::{AllocError, Global};
use std::io::{BufRead, BufReader};
use std::ops::Add;
use types::bounds::DOCUMENT_OBJECTS;
use types::types::ObjId;
use types::value::Value;

fn main(rt: HostRuntime) -> anyhow::Result<()> {
    let heap = rt.alloc();
    for line in BufReader::new(heap, rt.stdin())?.lines(heap) {
        let bytes = unhex(heap, line?.as_str().as_bytes())?;
        show_answer(&rt, bytes.as_slice())?;
    }
    Ok(())
}

// The bytes that pairs of hex digits stand for.
fn unhex(heap: Global, text: &[u8]) -> Result<Vec<u8>, AllocError> {
    let mut bytes = Vec::new(heap);
    for pair in text.chunks(2) {
        if let [high, low] = pair {
            bytes.push(digit(*high).wrapping_mul(16).wrapping_add(digit(*low)))?;
        }
    }
    Ok(bytes)
}

// By hand: `to_digit` takes capitals too, which are 0 here.
fn digit(c: u8) -> u8 {
    match c {
        b'0'..=b'9' => c - b'0',
        b'a'..=b'f' => c - b'a' + 10,
        _ => 0,
    }
}

fn show_answer(rt: &HostRuntime, bytes: &[u8]) -> anyhow::Result<()> {
    let mut record = ShelfRecord::bare_root();
    match record.open(bytes) {
        Ok(()) => {
            let all = tally(&record, ObjId::root(), DOCUMENT_OBJECTS);
            println!(rt; "ok {} {} {}", all.objects, all.entries, all.text)?;
        }
        Err(refusal) => println!(rt; "{}", refusal.number())?,
    }
    Ok(())
}

// Objects, entries and text bytes.
#[derive(Clone, Copy, Default)]
struct Tallied {
    objects: usize,
    entries: usize,
    text: usize,
}

impl Add for Tallied {
    type Output = Tallied;

    fn add(self, more: Tallied) -> Tallied {
        Tallied {
            objects: self.objects.saturating_add(more.objects),
            entries: self.entries.saturating_add(more.entries),
            text: self.text.saturating_add(more.text),
        }
    }
}

// What an object and all below it have; there are at most `left` levels more.
fn tally<D: Document>(doc: &D, id: ObjId, left: usize) -> Tallied {
    if left == 0 {
        return Tallied::default();
    }
    let own = Tallied {
        objects: 1,
        ..Tallied::default()
    };
    if let Some(bytes) = doc.text(id) {
        return Tallied {
            text: bytes.len(),
            ..own
        };
    }
    let entries = doc.size(id);
    let below = left - 1;
    (0..entries)
        .filter_map(|n| doc.entry(id, n))
        .filter(|entry| matches!(entry.value, Value::Object(_)))
        .map(|entry| tally(doc, ObjId(entry.id), below))
        .fold(Tallied { entries, ..own }, Tallied::add)
}
