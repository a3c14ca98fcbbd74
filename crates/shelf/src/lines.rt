// The lines of a file, and their units in each kind of unit.
use std::fmt::Radix;
use std::fs;
use text_value::{CodePoint, TextValue, Utf8, as_text};

// Each line of the file; what follows the last line feed is a line if there is any.
pub fn show_lines(rt: &HostRuntime, path: &str) -> anyhow::Result<()> {
    let bytes = fs::read(rt, path)?;
    for (n, line) in bytes.split_inclusive(|b| *b == b'\n').enumerate() {
        let line = line.strip_suffix(b"\n").unwrap_or(line);
        show_line(rt, n.saturating_add(1), line)?;
    }
    Ok(())
}

// One line: its number, and its units or that it is no text.
fn show_line(rt: &HostRuntime, number: usize, line: &[u8]) -> anyhow::Result<()> {
    let Some(text) = as_text(line) else {
        println!(rt; "line {number}: not UTF-8")?;
        return Ok(());
    };
    println!(rt; "line {number}: UTF-8")?;
    show_units::<Utf8>(rt, text, "bytes", 2)?;
    show_units::<CodePoint>(rt, text, "code points", 4)
}

// How many units the text has, and each in at least so many hex digits.
fn show_units<T: TextValue>(
    rt: &HostRuntime,
    text: &str,
    name: &str,
    digits: usize,
) -> anyhow::Result<()>
where
    T::Elem: Default + Radix,
{
    let mut places = vec![in rt.alloc(); T::Elem::default(); T::width(text)]?;
    if let Some(n) = T::write_units(text, places.as_mut_slice()) {
        print!(rt; "  {n} {name}:")?;
        for unit in places.iter() {
            print!(rt; " {unit:0digits$X}")?;
        }
        println!(rt)?;
    }
    Ok(())
}
