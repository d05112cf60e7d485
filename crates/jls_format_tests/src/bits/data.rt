//! Data bits read and written, with the stuffed bits at each place.

ghost use Rattle.std.specs.Prelude.{◌^◌, ◌≤◌, ◌<◌};

use jls_bits::*;
use std::alloc::{AllocError, Global};
use std::test::Fail;

/// The data bits of up to 16 bytes, as ones and zeros.
fn bits_text(alloc: Global, bytes: &[u8]) -> Result<Vec<u8>, AllocError> {
    let mut reader = BitReader::over(bytes);
    let mut text = Vec::new(alloc);
    for _ in 0..128 {
        let Some(bit) = reader.read_bit() else {
            break;
        };
        text.push(if bit { b'1' } else { b'0' })?;
    }
    Ok(text)
}

/// Bytes, their data bits as ones and zeros, and whether they are whole.
const DATA_BITS: [(&[u8], &[u8], bool); 12] = [
    (&[], b"", true),
    (&[0x81], b"10000001", true),
    (&[0xFF], b"11111111", true),
    (&[0xFF, 0x7F], b"111111111111111", true),
    (&[0xFF, 0x80, 0x00], b"11111111", false),
    (&[0xFF, 0xFF], b"11111111", false),
    (&[0xFF, 0x2A, 0x01], b"11111111010101000000001", true),
    (&[0x2A, 0xFF, 0x01], b"00101010111111110000001", true),
    (&[0x2A, 0x01, 0xFF], b"001010100000000111111111", true),
    (
        &[0xFF, 0x7F, 0xFF, 0x00],
        b"111111111111111111111110000000",
        true,
    ),
    (&[0x00, 0xFF, 0x90], b"0000000011111111", false),
    (&[0xFE, 0x80, 0xFF], b"111111101000000011111111", true),
];

/// Whether these are all the data bits of the bytes, which are whole or not.
fn have_bits(alloc: Global, bytes: &[u8], text: &[u8], whole: bool) -> Result<bool, AllocError> {
    let reader = BitReader::over(bytes);
    Ok(
        reader.left() == text.len() as u128
            && reader.is_whole() == whole
            && bits_text(alloc, bytes)?.as_slice() == text,
    )
}

#[test]
fn bytes_give_their_data_bits(rt: HostRuntime) -> Result<(), Fail> {
    for &(bytes, text, whole) in &DATA_BITS {
        assert!(rt; have_bits(rt.alloc(), bytes, text, whole)?, "{bytes:?}");
    }
    Ok(())
}

#[test]
fn reading_counts_down(rt: HostRuntime) {
    let mut reader = BitReader::over(&[0xFF, 0x7F, 0xFF, 0x80]);
    for read in 0..23u8 {
        assert!(rt; reader.left() == (23 - read) as u128 && !reader.is_whole());
        assert!(rt; reader.read_bit() == Some(true));
    }
    assert!(rt; reader.left() == 0);
    for _ in 0..2 {
        assert!(rt; reader.read_bit() == None);
    }
    assert!(rt; !reader.is_whole());
}

/// So many ones, pushed one by one.
fn ones(alloc: Global, count: usize) -> Result<Vec<u8>, AllocError> {
    let mut writer = BitWriter::new(alloc);
    for _ in 0..count {
        writer.push_bit(true)?;
    }
    writer.finish()
}

/// How many ones are written, and the bytes.
const PADDED: [(usize, &[u8]); 8] = [
    (0, &[]),
    (1, &[0x80]),
    (7, &[0xFE]),
    (8, &[0xFF, 0x00]),
    (9, &[0xFF, 0x40]),
    (15, &[0xFF, 0x7F]),
    (16, &[0xFF, 0x7F, 0x80]),
    (23, &[0xFF, 0x7F, 0xFF, 0x00]),
];

#[test]
fn bits_are_padded_with_zeros(rt: HostRuntime) -> Result<(), Fail> {
    for &(count, bytes) in &PADDED {
        assert!(rt;
            ones(rt.alloc(), count)?.as_slice() == bytes,
            "{count} ones"
        );
    }
    Ok(())
}

/// Whether one number alone is written as these bytes.
fn is_alone(alloc: Global, number: u32, count: u8, bytes: &[u8]) -> Result<bool, AllocError>
    requires count { count ≤ 32 }
    requires number { number < 2 ^ count }
{
    let mut writer = BitWriter::new(alloc);
    writer.push_bits(number, count)?;
    Ok(writer.finish()?.as_slice() == bytes)
}

/// What is written of a number after one of no bit.
fn after_nothing(alloc: Global) -> Result<Vec<u8>, AllocError> {
    let mut writer = BitWriter::new(alloc);
    writer.push_bits(0, 0)?;
    writer.push_bits(0x8000_0001, 32)?;
    writer.finish()
}

/// What is written of numbers of several lengths, one after the other.
fn several(alloc: Global) -> Result<Vec<u8>, AllocError> {
    let mut writer = BitWriter::new(alloc);
    writer.push_bits(5, 3)?;
    writer.push_bit(false)?;
    writer.push_bits(0x1FF, 9)?;
    writer.push_bits(0x7F, 7)?;
    writer.finish()
}

#[test]
fn numbers_are_pushed_with_their_top_bit_first(rt: HostRuntime) -> Result<(), Fail> {
    let alloc = rt.alloc();
    assert!(rt; is_alone(alloc, 255, 8, &[0xFF, 0x00])?);
    assert!(rt; is_alone(alloc, 0, 32, &[0, 0, 0, 0])?);
    assert!(rt; is_alone(alloc, 0xFFFF_FFFF, 32, &[0xFF, 0x7F, 0xFF, 0x7F, 0xC0])?);
    let ends = [0x80, 0x00, 0x00, 0x01];
    assert!(rt; after_nothing(alloc)?.as_slice() == ends.as_slice());
    assert!(rt; several(alloc)?.as_slice() == [0xAF, 0xFF, 0x78].as_slice());
    Ok(())
}

#[test]
fn more_than_64_kib_are_written_and_read(rt: HostRuntime) -> Result<(), Fail> {
    let mut writer = BitWriter::new(rt.alloc());
    for _ in 0..20_000 {
        writer.push_bits(0xFFFF_FFFF, 32)?;
    }
    let bytes = writer.finish()?;
    // 42,666 pairs of bytes have 15 ones each, and ten ones are left.
    assert!(rt; bytes.len() == 85_334 && bytes.last() == Some(&0x60));
    let reader = BitReader::over(&bytes);
    assert!(rt; reader.is_whole() && reader.left() == 640_005);
    Ok(())
}

#[test]
fn bytes_are_unstuffed_one_after_another(rt: HostRuntime) {
    let mut unstuffer = Unstuffer::new();
    let table = [
        (0xFF, Some((255, 8))),
        (0x7F, Some((127, 7))),
        (0xFF, Some((255, 8))),
        (0x80, None),
        (0x00, None),
        (0xFF, None),
        (0x00, None),
    ];
    for (byte, bits) in table {
        assert!(rt; unstuffer.push(byte) == bits, "{byte:x}");
    }
}
