//! Golomb codes written and read, cut and damaged.

ghost use Rattle.std.specs.Prelude.{◌≡◌, ◌+◌, ◌^◌, ◌≤◌, length};

use jls_bits::*;
use std::alloc::{AllocError, Global};
use std::test::Fail;

/// Which Golomb code: its k, its longest length g, and the bits qbpp of the number after an escape.
#[derive(Clone, Copy)]
struct Code {
    k: u8,
    g: u8,
    qbpp: u8,
}

/// Samples of 8 bits in regular mode, where k is 2: the least escape is 92.
const OF_K_2: Code = Code {
    k: 2,
    g: 32,
    qbpp: 8,
};

/// A writer of these bits, given as ones and zeros.
fn written(alloc: Global, text: &[u8]) -> Result<BitWriter, AllocError> {
    let mut writer = BitWriter::new(alloc);
    for digit in text {
        writer.push_bit(*digit == b'1')?;
    }
    Ok(writer)
}

/// Whether the code of a number is these bits, and whether a reader over them gives the number back and stops after
/// its code.
fn is_code(alloc: Global, text: &str, mapped: u32, code: Code) -> Result<bool, AllocError>
    requires k { code.k ≤ 16 }
    requires qbpp { (1 ≤ code.qbpp) × (code.qbpp ≤ 16) }
    requires g { (code.qbpp + 2 ≤ code.g) × (code.g ≤ 64) }
    requires mapped { mapped ≤ 2 ^ code.qbpp }
{
    let Code { k, g, qbpp } = code;
    let mut writer = BitWriter::new(alloc);
    write_golomb(&mut writer, mapped, k, g, qbpp)?;
    let bytes = writer.finish()?;
    let expected = written(alloc, text.as_bytes())?.finish()?;
    let mut reader = BitReader::over(&bytes);
    let all = reader.left();
    let number = read_golomb(&mut reader, k, g, qbpp);
    let length = text.len() as u128;
    Ok(
        bytes == expected
            && number == Some(mapped)
            && all >= length
            && reader.left() == all - length,
    )
}

/// Codes at k 2, and their numbers.
const CODES: [(&str, u32); 5] = [
    ("00000000100", 32),
    ("0000000000000000000000111", 91),
    ("00000000000000000000000101011011", 92),
    ("00000000000000000000000101011101", 94),
    ("00000000000000000000000111111111", 256),
];

#[test]
fn numbers_have_their_codes(rt: HostRuntime) -> Result<(), Fail> {
    for &(text, mapped) in &CODES {
        assert!(rt;
            is_code(rt.alloc(), text, mapped.min(256), OF_K_2)?,
            "{mapped}"
        );
    }
    Ok(())
}

#[test]
fn codes_of_the_least_length(rt: HostRuntime) -> Result<(), Fail> {
    let least = Code {
        k: 0,
        g: 3,
        qbpp: 1,
    };
    for (text, mapped) in [("1", 0u32), ("010", 1), ("011", 2)] {
        assert!(rt;
            is_code(rt.alloc(), text, mapped.min(2), least)?,
            "{mapped}"
        );
    }
    Ok(())
}

/// The bits, the number, k and g; qbpp is 16.
const CODES_AT_ENDS: [(&str, u32, u8, u8); 7] = [
    ("11111111111111111", 65535, 16, 64),
    ("010000000000000000", 65536, 16, 64),
    ("011111111111111111", 65536, 16, 18),
    ("00000000000000000000000000000000000000000000001", 46, 0, 64),
    (
        "0000000000000000000000000000000000000000000000010000000000101110",
        47,
        0,
        64,
    ),
    (
        "0000000000000000000000000000000000000000000000011111111111111111",
        65536,
        0,
        64,
    ),
    ("010000000000000000", 1, 0, 18),
];

#[test]
fn codes_at_the_ends_of_k_and_g(rt: HostRuntime) -> Result<(), Fail> {
    for &(text, mapped, k, g) in &CODES_AT_ENDS {
        let code = Code {
            k: k.min(16),
            g: g.max(18).min(64),
            qbpp: 16,
        };
        assert!(rt;
            is_code(rt.alloc(), text, mapped.min(65536), code)?,
            "{text}"
        );
    }
    Ok(())
}

/// What a reader finds at the start of exactly these bits, and how many it leaves. Other bits, zeros, fill up the first
/// byte and are passed before.
fn read_alone(alloc: Global, text: &[u8], code: Code) -> Result<(Option<u32>, u128), AllocError>
    requires k { code.k ≤ 16 }
    requires qbpp { (1 ≤ code.qbpp) × (code.qbpp ≤ 16) }
    requires g { (code.qbpp + 2 ≤ code.g) × (code.g ≤ 64) }
{
    let filler = (8 - text.len() % 8) % 8;
    let mut writer = BitWriter::new(alloc);
    for _ in 0..filler {
        writer.push_bit(false)?;
    }
    for digit in text {
        writer.push_bit(*digit == b'1')?;
    }
    let bytes = writer.finish()?;
    let mut reader = BitReader::over(&bytes);
    for _ in 0..filler {
        let _passed = reader.read_bit();
    }
    let number = read_golomb(&mut reader, code.k, code.g, code.qbpp);
    Ok((number, reader.left()))
}

#[test]
fn a_code_that_is_cut_is_none(rt: HostRuntime) -> Result<(), Fail> {
    let alloc = rt.alloc();
    let codes: [(&[u8], u32); 2] = [
        (b"00000000000000000000000101011101", 94),
        (b"00000000100", 32),
    ];
    for (code, number) in codes {
        for length in 0..code.len() {
            let read = read_alone(alloc, &code[..length], OF_K_2)?;
            assert!(rt; read == (None, length as u128), "{length} bits");
        }
        assert!(rt; read_alone(alloc, code, OF_K_2)? == (Some(number), 0));
    }
    Ok(())
}

/// Bits, their k, and the number that is read from them and how many bits are left then.
const NO_CODES: [(&[u8], u8, Option<u32>, u128); 4] = [
    // An escape for 91, which has a short code.
    (b"00000000000000000000000101011010", 2, None, 32),
    // One zero more than announces an escape.
    (b"000000000000000000000000101011101", 2, None, 33),
    // All 256 numbers of an escape have a short code at k 4.
    (b"00000000000000000000000111111110", 4, None, 32),
    // A quotient of 1 at k 16: more than 2^qbpp.
    (b"010000000000000001", 16, Some(65537), 0),
];

#[test]
fn a_reader_stays_where_no_code_stands(rt: HostRuntime) -> Result<(), Fail> {
    for &(bits, k, number, left) in &NO_CODES {
        let code = Code {
            k: k.min(16),
            g: 32,
            qbpp: 8,
        };
        let read = read_alone(rt.alloc(), bits, code)?;
        assert!(rt; read == (number, left), "{bits:?}");
    }
    Ok(())
}

/// A reader that was pushed these bits up to the first that decides, how many it took, and its last answer.
fn reported(bits: &[u8], code: Code) -> (GolombReader, usize, GolombStep)
    requires k { code.k ≤ 16 }
    requires qbpp { (1 ≤ code.qbpp) × (code.qbpp ≤ 16) }
    requires g { (code.qbpp + 2 ≤ code.g) × (code.g ≤ 64) }
    ensures { result.0.qbpp ≡ code.qbpp }
{
    let mut reader = GolombReader::new(code.k, code.g, code.qbpp);
    for (index, digit) in bits.iter().enumerate() {
        match reader.push(*digit == b'1') {
            GolombStep::More => {}
            step => return (reader, index + 1, step),
        }
    }
    (reader, bits.len(), GolombStep::More)
}

/// Bits, their k, how many are taken, and the last answer. At k 2 the least escape is 92; at k 4 there is none, since 256 has a short
/// code.
const DECIDED: [(&[u8], u8, usize, GolombStep); 9] = [
    (b"0000000010", 2, 10, GolombStep::More),
    (b"00000000100", 2, 11, GolombStep::Done(32)),
    (b"00000000000000000000000", 2, 23, GolombStep::More),
    (b"000000000000000000000000", 2, 24, GolombStep::Refused),
    (b"0000000000000000000000010", 2, 25, GolombStep::More),
    (b"00000000000000000000000100", 2, 26, GolombStep::Refused),
    (b"0000000000000000000000", 4, 22, GolombStep::More),
    (b"00000000000000000000000", 4, 23, GolombStep::Refused),
    (b"1", 0, 1, GolombStep::Done(0)),
];

#[test]
fn a_reader_answers_at_the_first_bit_that_decides(rt: HostRuntime) {
    for &(bits, k, count, step) in &DECIDED {
        let code = Code {
            k: k.min(16),
            g: 32,
            qbpp: 8,
        };
        let (_, taken, answer) = reported(bits, code);
        assert!(rt; taken == count && answer == step, "{bits:?}");
    }
}

/// The bits so far, and the first and the last number that they allow: 32 to 35 have eight zeros, an escape that begins 0101 is a number
/// from 81 to 96, of which 92 and more have no short code.
const ALLOWED: [(&[u8], u32, u32); 7] = [
    (b"", 0, 256),
    (b"00000000", 32, 256),
    (b"000000001", 32, 35),
    (b"0000000010", 32, 33),
    (b"00000000100", 32, 32),
    (b"000000000000000000000001", 92, 256),
    (b"0000000000000000000000010101", 92, 96),
];

#[test]
fn a_cut_code_allows_the_numbers_whose_codes_it_begins(rt: HostRuntime) {
    for &(bits, first, last) in &ALLOWED {
        let (reader, _, _) = reported(bits, OF_K_2);
        for number in 0..257 {
            let allowed = first <= number && number <= last;
            assert!(rt; reader.allows(number) == allowed, "{bits:?} {number}");
        }
    }
    let (refused, _, _) = reported(b"000000000000000000000000", OF_K_2);
    assert!(rt; !refused.allows(256));
}

/// A chunk of up to 50 bits, given as ones and zeros.
fn chunk_of(bits: &[u8]) -> Chunk
    ensures { length result ≤ 50 }
{
    let mut chunk = Chunk::new();
    for digit in bits {
        if chunk.len() < 50 {
            chunk.append((*digit == b'1') as u8, 1);
        }
    }
    chunk
}

#[test]
fn a_chunk_gives_a_code_its_bits(rt: HostRuntime) {
    let code = b"00000000101";
    for cut in 0..11 {
        let mut first = chunk_of(&code[..cut]);
        let CodeStep::More(state) = CodeState::START.push_chunk(2, 32, 8, &mut first) else {
            panic!(rt; "a code is whole at {cut}")
        };
        assert!(rt; first.is_empty());
        let mut second = chunk_of(&code[cut..]);
        second.append(0b101, 3);
        let CodeStep::Done(number) = state.push_chunk(2, 32, 8, &mut second) else {
            panic!(rt; "no code is whole after {cut}")
        };
        assert!(rt; number == 33 && second.len() == 3, "cut at {cut}");
    }
}

/// The bits, with k, LIMIT and qbpp; the number of the short code at the start, and how many bits are left. 33 is 8 times 4 and 1; at k 2
/// and LIMIT 32 an escape has 23 zeros, so 91 is the last number with a short code.
const SHORT_CODES: [(&[u8], (u8, u8, u8), Option<u32>, u8); 12] = [
    (b"", (2, 32, 8), None, 0),
    (b"00000000", (2, 32, 8), None, 8),
    (b"000000001", (2, 32, 8), None, 9),
    (b"0000000010", (2, 32, 8), None, 10),
    (b"00000000101", (2, 32, 8), Some(33), 0),
    (b"00000000101110", (2, 32, 8), Some(33), 3),
    (b"0000000000000000000000111", (2, 32, 8), Some(91), 0),
    (b"00000000000000000000000101011011", (2, 32, 8), None, 32),
    (b"0010", (0, 32, 8), Some(2), 1),
    (b"1111111111111111", (16, 64, 16), None, 16),
    (b"11111111111111110", (16, 64, 16), Some(65534), 0),
    (b"010000000000000000", (0, 18, 16), None, 18),
];

#[test]
fn a_short_code_is_taken_where_it_stands_whole(rt: HostRuntime) {
    for &(bits, (k, g, qbpp), number, left) in &SHORT_CODES {
        let (k, g, qbpp) = (k.min(16), g.max(18).min(64), qbpp.max(1).min(16));
        let mut chunk = chunk_of(bits);
        let taken = chunk.take_code(k, g, qbpp);
        assert!(rt; taken == number && chunk.len() == left, "{bits:?}");
    }
}
