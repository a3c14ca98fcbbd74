// The program of the shelf. Its arguments are files, each shown as the word
// before it says: `lines FILE` tells of each line whether it is UTF-8, and its
// units; `record FILE` opens a record and prints its document as a tree.
#![tactic(auto)]

mod lines;
mod tree;

use lines::show_lines;
use record::record::{OpenRecord, ShelfRecord};
use std::{env, fs};
use tree::show_document;

fn main(rt: HostRuntime) -> anyhow::Result<()> {
    // How the next files are shown.
    let mut show: fn(&HostRuntime, &str) -> anyhow::Result<()> = show_lines;
    for word in env::args(&rt)?.skip(1) {
        match word.as_str() {
            "lines" => show = show_lines,
            "record" => show = show_record,
            path => show(&rt, path)?,
        }
    }
    Ok(())
}

// The record's document, or why it is refused.
fn show_record(rt: &HostRuntime, path: &str) -> anyhow::Result<()> {
    let bytes = fs::read(rt, path)?;
    let mut record = ShelfRecord::bare_root();
    match record.open(bytes.as_slice()) {
        Ok(()) => {
            println!(rt; "{path}: a document")?;
            show_document(rt, &record)
        }
        Err(refusal) => {
            println!(rt; "{path}: refused by {}, {refusal:?}", refusal.number())?;
            Ok(())
        }
    }
}
