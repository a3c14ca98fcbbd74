// The examples of RFC 3629 and the ways in which bytes fail to be UTF-8.
use super::*;
use std::process::Abort;
use std::test::Fail;

// The bytes are a text with these code points, and cut short of its end they are one only between two of them.
fn reads(rt: &impl Abort, bytes: &[u8], points: &[u32]) -> Result<(), Fail> {
    let s = as_text(bytes).ok_or("no UTF-8")?;
    let mut out = [0u32; 4];
    assert_eq!(rt; CodePoint::write_units(s, &mut out), Some(points.len()));
    assert!(rt; points.len() <= 4);
    assert_eq!(rt; &out[0..points.len()], points);
    for n in 0..bytes.len() {
        assert_eq!(rt; is_utf8(&bytes[0..n]), bytes[n] < 0x80 || 0xC0 <= bytes[n]);
    }
    Ok(())
}

#[test]
fn examples(rt: HostRuntime) -> Result<(), Fail> {
    reads(
        &rt,
        b"\x41\xE2\x89\xA2\xCE\x91\x2E",
        &[0x41, 0x2262, 0x391, 0x2E],
    )?;
    reads(
        &rt,
        b"\xED\x95\x9C\xEA\xB5\xAD\xEC\x96\xB4",
        &[0xD55C, 0xAD6D, 0xC5B4],
    )?;
    reads(
        &rt,
        b"\xE6\x97\xA5\xE6\x9C\xAC\xE8\xAA\x9E",
        &[0x65E5, 0x672C, 0x8A9E],
    )?;
    reads(&rt, b"\xEF\xBB\xBF\xF0\xA3\x8E\xB4", &[0xFEFF, 0x233B4])
}

#[test]
fn edges(rt: HostRuntime) -> Result<(), Fail> {
    reads(&rt, b"\x00\x7F\xC2\x80\xDF\xBF", &[0, 0x7F, 0x80, 0x7FF])?;
    reads(
        &rt,
        b"\xE0\xA0\x80\xED\x9F\xBF\xEE\x80\x80\xEF\xBF\xBF",
        &[0x800, 0xD7FF, 0xE000, 0xFFFF],
    )?;
    reads(
        &rt,
        b"\xF0\x90\x80\x80\xF4\x8F\xBF\xBF",
        &[0x10000, 0x10FFFF],
    )
}

// No bytes are UTF-8 that begin with a 10xxxxxx, are longer than need be, mean a surrogate or lie above 10FFFF.
const MALFORMED: [&[u8]; 15] = [
    b"\x80",
    b"\xBF",
    b"a\x80",
    b"\xC3(",
    b"\xE2\x82(",
    b"\xC0\x80",
    b"\xC1\xBF",
    b"\xE0\x80\x80",
    b"\xE0\x9F\xBF",
    b"\xF0\x80\x80\x80",
    b"\xF0\x8F\xBF\xBF",
    b"\xED\xA0\x80",
    b"\xED\xBF\xBF",
    b"\xED\xA0\x81\xED\xB0\x80",
    b"\xF4\x90\x80\x80",
];

#[test]
fn malformed(rt: HostRuntime) {
    for bytes in MALFORMED {
        assert!(rt; !is_utf8(bytes));
    }
    for lead in 0xF5..=0xFFu8 {
        assert!(rt; !is_utf8(&[lead, 0x80, 0x80, 0x80]));
    }
}

#[test]
fn no_room(rt: HostRuntime) {
    let mut out = [7u8, 8];
    assert_eq!(rt; Utf8::write_units(replacement(), &mut out), None);
    assert_eq!(rt; out, [7, 8]);
    assert!(rt; CodePoint::fits(replacement(), 1) && !Utf8::fits(replacement(), 2));
}
