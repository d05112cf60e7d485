//! The pictures of the files, as texts.

use std::alloc::{AllocError, Global};

/// A picture of noise: 75 times what came before, modulo 65,537. A sample is that modulo how many values there are. The noise begins anew
/// after so many lines, with the next number.
#[derive(Clone, Copy)]
struct Picture {
    precision: u8,
    values: u32,
    width: u16,
    height: u16,
    components: u8,
    begin: u32,
    lines: u32,
}

/// The picture of `eight`, from which the others differ.
const OF_EIGHT: Picture = Picture {
    precision: 8,
    values: 256,
    width: 24,
    height: 20,
    components: 1,
    begin: 1,
    lines: 20,
};

fn picture_of(name: &str) -> Option<Picture> {
    match name {
        "eight" | "comment" => Some(OF_EIGHT),
        "sixteen" => Some(Picture {
            precision: 16,
            values: 65_536,
            width: 16,
            height: 14,
            begin: 2,
            ..OF_EIGHT
        }),
        "deep" => Some(Picture {
            precision: 16,
            width: 16,
            height: 14,
            begin: 4,
            ..OF_EIGHT
        }),
        "narrow" | "reset" | "fives" | "tens" => Some(Picture {
            values: 32,
            begin: 5,
            ..OF_EIGHT
        }),
        "broad" | "broad_reset" => Some(Picture {
            values: 32,
            width: 96,
            height: 6,
            begin: 7,
            lines: 6,
            ..OF_EIGHT
        }),
        "scans" | "pixels" => Some(Picture {
            width: 8,
            height: 8,
            components: 3,
            begin: 3,
            lines: 8,
            ..OF_EIGHT
        }),
        "restarts" => Some(Picture {
            width: 8,
            height: 12,
            begin: 10,
            lines: 4,
            ..OF_EIGHT
        }),
        _ => None,
    }
}

/// The identifiers of so many components.
fn ids_of(components: u8) -> &'static [u8] {
    if components == 3 {
        b"\x01\x02\x03"
    } else {
        b"\x01"
    }
}

/// Appends a line of noise. The answer is where it has come to.
fn put_noise(text: &mut Vec<u8>, picture: &Picture, begin: u32) -> Result<u32, AllocError> {
    let mut noise = begin;
    for _ in 0..picture.width {
        noise = noise.wrapping_mul(75) % 65_537;
        let sample = noise.checked_rem(picture.values).unwrap_or(0);
        text.extend_from_slice(&sample.to_be_bytes()[2..])?;
    }
    Ok(noise)
}

/// The text of a picture, each of whose lines has one reading, which has no source (docs/FORMAT.md).
pub(crate) fn text_of(alloc: Global, name: &str) -> Result<Option<Vec<u8>>, AllocError> {
    let Some(picture) = picture_of(name) else {
        return Ok(None);
    };
    let height = u32::from(picture.height);
    let entries = height.wrapping_mul(u32::from(picture.components));
    let mut text = Vec::from_slice(alloc, b"JLSP\x02")?;
    text.push(picture.precision)?;
    text.extend_from_slice(&picture.width.to_be_bytes())?;
    text.extend_from_slice(&picture.height.to_be_bytes())?;
    text.push(picture.components)?;
    text.extend_from_slice(ids_of(picture.components))?;
    text.extend_from_slice(&entries.to_be_bytes())?;
    let mut noise = 0;
    for entry in 0..entries {
        if let Some(0) = entry.checked_rem(picture.lines) {
            noise = entry
                .checked_div(picture.lines)
                .unwrap_or(0)
                .wrapping_add(picture.begin);
        }
        let component = entry.checked_div(height).unwrap_or(0);
        let line = entry.checked_rem(height).unwrap_or(0);
        text.extend_from_slice(&component.to_be_bytes()[3..])?;
        text.extend_from_slice(&line.to_be_bytes()[2..])?;
        text.extend_from_slice(&1u64.to_be_bytes())?;
        noise = put_noise(&mut text, &picture, noise)?;
        text.extend_from_slice(&0u64.to_be_bytes())?;
    }
    Ok(Some(text))
}
