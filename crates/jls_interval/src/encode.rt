//! Writing an interval.

ghost use Rattle.std.specs.Prelude.{◌≡◌, ◌+◌, ◌<◌, ◌≤◌, [], get_or, length, map, IfOk, OnOk};
ghost use Rattle.std.specs.List.{AllByRecursion};
ghost use Rattle.jls_bits.specs.Pad.{IsPad};
ghost use Rattle.jls_interval.specs.Lines.{IsLine};
ghost use Rattle.jls_interval.specs.Fits.{FitsInterval};
ghost use Rattle.jls_interval.specs.Code.{code};
ghost use Rattle.jls_interval.specs.Encoding.{AreWritten, HasWritten, written_by};
ghost use Rattle.jls_interval.specs.SampleCodes.{parameters_of};
ghost use Rattle.jls_interval.specs.Reads.{packed};
ghost use Rattle.jls_interval.specs.ReadBack.{PackedLinesReadBack};

use crate::coder::Coder;
use crate::encode_line::write_line;
use crate::encoder::Encoder;
use crate::place::Place;
use jls_bits::BitWriter;
use jls_values::Params;
use std::alloc::{AllocError, Global};

/// Line j, or an empty one where there is none.
fn line_at<'a>(lines: &[&'a [u16]], j: usize) -> &'a [u16]
    ensures { result.now ≡ get_or (map (λ l. l.now) lines.now) j [] }
{
    match lines.get(j) {
        None => &[],
        Some(line) => line,
    }
}

/// Writes line j, where the lines before it were written.
pub(crate) fn write_next_line(
    encoder: &mut Encoder,
    width: u16,
    components: u8,
    lines: &[&[u16]],
    j: usize,
) -> Result<(), AllocError>
    requires components_at_least { 1 ≤ components }
    requires components_at_most { components ≤ 4 }
    requires each { AllByRecursion (IsLine (parameters_of encoder.old.coder) width) (map (λ l. l.now) lines.now) }
    requires within { j < length lines.now }
    requires before { HasWritten encoder.old width components (map (λ l. l.now) lines.now) j }
    ensures written { OnOk result (AreWritten (parameters_of encoder.old.coder) width components (map
        (λ l. l.now) lines.now) (j + 1) (written_by encoder.new)) }
    ensures parameters { parameters_of encoder.new.coder ≡ parameters_of encoder.old.coder }
{
    let place = Place::after(&lines[..j], usize::from(components));
    write_line(encoder, &place, line_at(lines, j))?;
    Ok(())
}

/// Writes the bits of the lines, one line after another.
fn write_lines(
    encoder: &mut Encoder,
    width: u16,
    components: u8,
    lines: &[&[u16]],
) -> Result<(), AllocError>
    requires lines { FitsInterval (parameters_of encoder.old.coder) width components (map (λ l. l.now) lines.now) }
    requires start { HasWritten encoder.old width components (map (λ l. l.now) lines.now) 0 }
    ensures { OnOk result (encoder.new.writer ≡ code (parameters_of encoder.old.coder) width components (map (λ l. l.now) lines.now)) }
{
    for j in 0..lines.len() {
        write_next_line(encoder, width, components, lines, j)?;
    }
    Ok(())
}

/// The bytes that lines are written as, where they fit an interval (`fits`). The width is that of a line in samples. The lines stand row
/// by row, and in a row by component. The components share the cells, and each has a RUNindex of its own (ITU-T T.87, A.7 and B.2). The
/// bytes are the pad of the lines' code: as few as there can be without 0xFF at the end. The only refusal is out of memory.
pub fn encode_interval(
    alloc: Global,
    params: &Params,
    width: u16,
    components: u8,
    lines: &[&[u16]],
) -> Result<Vec<u8>, AllocError>
    requires { FitsInterval params.now width components (map (λ l. l.now) lines.now) }
    ensures packed { IfOk result (λ bytes. bytes.items ≡ packed params.now width components (map (λ l. l.now) lines.now)) }
    ensures pad { IfOk result (λ bytes. IsPad (code params.now width components (map (λ l. l.now) lines.now)) bytes.items) }
{
    let mut encoder = Encoder {
        writer: BitWriter::new(alloc),
        coder: Coder::new(params),
    };
    write_lines(&mut encoder, width, components, lines)?;
    let Encoder { writer, .. } = encoder;
    writer.finish()
}

/// A law: the bytes that lines are written as read as these lines, and as no others.
pub fn packed_lines_read_back()
    ensures { PackedLinesReadBack }
{}
