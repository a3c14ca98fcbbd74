// Times the two documents: opening a full record, and asking for entries
// through the interface. Times differ from run to run, so they go to standard
// error.
#![tactic(auto)]

use anyhow::anyhow;
use document::document::Document;
use record::record::{OpenRecord, ShelfRecord};
use std::alloc::{AllocError, Global};
use std::time::Instant;
use std::{env, fs};
use tables::shelf::{OpenTables, ShelfTables};
use tables::table::{Cell, EntryRow, ObjectRow, Window};
use types::types::{ObjId, ObjType, OpId};
use types::value::ScalarOf;

const OPENINGS: u32 = 200;

const ROUNDS: u32 = 500;

const NOWHERE: Window = Window { from: 0, len: 0 };

fn main(rt: HostRuntime) -> anyhow::Result<()> {
    for path in env::args(&rt)?.skip(1) {
        let bytes = fs::read(&rt, path.as_str())?;
        time_record(&rt, bytes.as_slice())?;
    }
    time_tables(&rt)
}

fn time_record(rt: &HostRuntime, bytes: &[u8]) -> anyhow::Result<()> {
    let mut record = ShelfRecord::bare_root();
    let start = Instant::now(rt)?;
    let opened = (0..OPENINGS).filter(|_| record.open(bytes).is_ok()).count();
    let micros = start.elapsed(rt)?.as_micros();
    eprintln!(rt;
        "a record of {} bytes opened {opened} times: {micros} microseconds",
        bytes.len()
    )?;
    time_asking(rt, "record", &record)
}

fn time_tables(rt: &HostRuntime) -> anyhow::Result<()> {
    let entries = many_entries(rt.alloc())?;
    let root = ObjectRow {
        id: ObjId::root(),
        parent: ObjId::root(),
        kind: ObjType::Map,
        row: NOWHERE,
    };
    let list = ObjectRow {
        id: listed(),
        kind: ObjType::List,
        row: Window {
            from: 0,
            len: entries.len(),
        },
        ..root
    };
    let objects = [root, list];
    let mut tables = ShelfTables::bare_root();
    if tables.open(&objects, entries.as_slice(), b"").is_err() {
        return Err(anyhow!("the tables are refused"));
    }
    time_asking(rt, "tables", &tables)
}

// The list that is asked.
fn listed() -> ObjId {
    ObjId(OpId::new(1, 1))
}

fn many_entries(heap: Global) -> Result<Vec<EntryRow>, AllocError> {
    let mut entries = Vec::new(heap);
    for counter in 1..=2000 {
        entries.push(EntryRow {
            key: NOWHERE,
            cell: Cell::Scalar(ScalarOf::Null),
            id: OpId::new(counter, 1),
            conflict: false,
        })?;
    }
    Ok(entries)
}

fn time_asking<D: Document>(rt: &HostRuntime, name: &str, doc: &D) -> anyhow::Result<()> {
    let start = Instant::now(rt)?;
    let mut asked = 0u64;
    let mut sum = 0u32;
    for _ in 0..ROUNDS {
        for entry in (0..doc.size(listed())).filter_map(|n| doc.entry(listed(), n)) {
            asked = asked.saturating_add(1);
            sum = sum.wrapping_add(entry.id.counter);
        }
    }
    let micros = start.elapsed(rt)?.as_micros();
    eprintln!(rt; "{name}: {asked} entries asked for: {micros} microseconds (sum {sum})")?;
    Ok(())
}
