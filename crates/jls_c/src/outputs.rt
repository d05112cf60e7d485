//! What was mended, in buffers.

ghost use Rattle.jls_c.specs.Mended as reported;
ghost use Rattle.jls_c.specs.Mended.{IsPut, IsTooLong};
ghost use Rattle.std.specs.Prelude.{◌≡◌, ◌≢◌, ◌≤◌, IfOk, length};

use crate::answer::{DONE, OUT_OF_MEMORY, SHORT_ROOM};
use crate::cause::JlsMendInfo;
use jls_mend::Mended;
use std::alloc::{AllocError, Global};

/// The bytes of all outputs, and of the lines behind them.
fn bytes_of(alloc: Global, mended: &Mended) -> Result<Vec<u8>, AllocError>
    ensures { IfOk result (λ bytes. bytes.items ≡ reported.bytes_in mended.now) }
{
    let mut bytes = Vec::new(alloc);
    for output in &mended.outputs {
        bytes.extend_from_slice(&output.bytes)?;
    }
    bytes.extend_from_slice(&mended.lines)?;
    Ok(bytes)
}

/// How many bytes each output has.
fn sizes_of(alloc: Global, mended: &Mended) -> Result<Vec<u64>, AllocError>
    ensures { IfOk result (λ sizes. sizes.items ≡ reported.sizes_in mended.now) }
{
    let mut sizes = Vec::new(alloc);
    for output in &mended.outputs {
        sizes.push(output.bytes.len() as u64)?;
    }
    Ok(sizes)
}

/// Whether there is a mended file.
fn has_file(mended: &Mended) -> bool
    ensures { result ≡ reported.has_file mended.now }
{
    mended
        .outputs
        .iter()
        .any(|output| output.name.as_str() == "FILE")
}

/// What is reported of what was mended, which has these bytes and sizes.
fn mended_info(mended: &Mended, bytes: &[u8], sizes: &[u64]) -> JlsMendInfo
    requires bytes { bytes.now ≡ reported.bytes_in mended.now }
    requires sizes { sizes.now ≡ reported.sizes_in mended.now }
    ensures { result ≡ reported.mended_info mended.now }
{
    JlsMendInfo {
        bytes: bytes.len() as u64,
        outputs: sizes.len() as u64,
        lines: mended.lines.len() as u64,
        copy: 0,
        offset: 0,
        has_copy: 0,
        cause: 0,
        fault: 0,
        has_file: u8::from(has_file(mended)),
        is_promised: u8::from(mended.is_promised),
        is_whole: u8::from(mended.is_whole),
        has_list: 0,
        list: 0,
        line: 0,
    }
}

/// Puts what was mended into buffers, and tells of it.
pub(crate) fn put_mended(
    alloc: Global,
    mended: &Mended,
    info: &mut JlsMendInfo,
    outputs: &mut [u8],
    output_sizes: &mut [u64],
) -> u32
    ensures known { result ≤ 3 }
    ensures answers { result ≢ 2 }
    ensures done { result ≡ DONE → IsPut mended.now info.new outputs.old outputs.new output_sizes.old output_sizes.new }
    ensures short_room { result ≡ SHORT_ROOM → IsTooLong mended.now info.new (length outputs.old) (length output_sizes.old) }
    ensures out_of_memory { result ≡ OUT_OF_MEMORY → info.new ≡ info.old }
    ensures outputs_kept { result ≢ DONE → outputs.new ≡ outputs.old }
    ensures sizes_kept { result ≢ DONE → output_sizes.new ≡ output_sizes.old }
{
    let Ok(bytes) = bytes_of(alloc, mended) else {
        return OUT_OF_MEMORY;
    };
    let Ok(sizes) = sizes_of(alloc, mended) else {
        return OUT_OF_MEMORY;
    };
    *info = mended_info(mended, &bytes, &sizes);
    let count = bytes.len();
    let many = sizes.len();
    if count > outputs.len() || many > output_sizes.len() {
        return SHORT_ROOM;
    }
    outputs[..count].copy_from_slice(&bytes);
    output_sizes[..many].copy_from_slice(&sizes);
    DONE
}
