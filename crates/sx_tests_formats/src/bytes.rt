//! Worked rows: bytes that were written down by hand, and printed texts.

use std::alloc::{AllocError, Global};
use sx_bytes::*;

// 1, 2, 3, 4 and 5 in 1, 2, 4, 8 and 16 bytes, then two bytes as they are.
fn fields() -> [u8; 33] {
    [
        1, 0, 2, 0, 0, 0, 3, 0, 0, 0, 0, 0, 0, 0, 4, 0, 0, 0, 0, 0, 0, 0, 0, 0, 0, 0, 0, 0, 0, 0,
        5, 8, 9,
    ]
}

fn each_width(reader: &mut Reader) -> Result<(u8, u16, u32, u64, u128), Short> {
    let one = reader.get_u8()?;
    let two = reader.get_u16()?;
    let three = reader.get_u32()?;
    let four = reader.get_u64()?;
    Ok((one, two, three, four, reader.get_u128()?))
}

// Whether the fields are read, and after them two bytes, and no third one.
fn are_read(bytes: &[u8]) -> Option<bool> {
    let mut reader = Reader::new(bytes);
    let widths = each_width(&mut reader).ok()?;
    let left = reader.left();
    let raw = reader.raw(2).ok()?;
    let ended = reader.get_u8() == Err(Short { at: 33 });
    Some(widths == (1, 2, 3, 4, 5) && left == 2 && raw == [8, 9].as_slice() && ended)
}

// The same two bytes as one number, which the reader goes back for.
fn last_two(bytes: &[u8]) -> Option<u16> {
    let mut reader = Reader::new(bytes);
    reader.raw(33).ok()?;
    if reader.place() < 31 {
        return None;
    }
    reader.back(31);
    reader.get_u16().ok()
}

#[test]
fn reads_each_width(rt: HostRuntime) {
    let bytes = fields();
    assert!(rt; are_read(&bytes) == Some(true));
    assert!(rt; last_two(&bytes) == Some(0x0809));
}

// The number 4 as a field of this range, or where the fault is and which.
fn four_within(low: u64, high: u64) -> Result<u64, (u64, u8)> {
    let mut reader = Reader::new(&[0, 0, 0, 0, 0, 0, 0, 4]);
    match reader.field_u64(low, high, Form::SeqRange) {
        Ok(number) => Ok(number),
        Err(refused) => Err((refused.at, refused.fault.number())),
    }
}

#[test]
fn a_field_is_read_whole_and_then_tested(rt: HostRuntime) {
    assert!(rt; four_within(4, 4) == Ok(4));
    assert!(rt; four_within(0, 3) == Err((0, 5)));
    assert!(rt; four_within(5, u64::MAX) == Err((0, 5)));
}

fn write_fields(alloc: Global) -> Result<Writer, NoMemory> {
    let mut writer = Writer::new(alloc);
    writer.put_u8(1)?;
    writer.put_u16(2)?;
    writer.put_u32(3)?;
    writer.put_u64(4)?;
    writer.put_u128(5)?;
    writer.raw(&[8, 9])?;
    Ok(writer)
}

// Whether the fields are written, and which of the bytes are left of three.
fn are_written(alloc: Global) -> Option<bool> {
    let mut writer = write_fields(alloc).ok()?;
    writer.reserve(64).ok()?;
    let whole = writer.bytes() == fields().as_slice();
    if writer.bytes().len() < 3 {
        return None;
    }
    writer.cut(3);
    Some(whole && writer.bytes() == [1, 0, 2].as_slice())
}

#[test]
fn writes_each_width(rt: HostRuntime) {
    assert!(rt; are_written(rt.alloc()) == Some(true));
}

#[test]
fn faults_have_names_in_texts(rt: HostRuntime) -> Result<(), AllocError> {
    let error = ReadError::from(Short { at: 259 });
    let text = format!(in rt.alloc(); "{error}")?;
    assert!(rt; text.as_str() == "at 259: Short");
    field_laws();
    Ok(())
}
