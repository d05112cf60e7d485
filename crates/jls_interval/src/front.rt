//! Writing the first lines of an interval: the bytes that they fill, and where each line ends in them.

ghost use Rattle.std.specs.Prelude.{◌≡◌, [], map, IfOk, OnOk};
ghost use Rattle.jls_interval.specs.Code.{code};
ghost use Rattle.jls_interval.specs.SampleCodes.{parameters_of};
ghost use Rattle.jls_interval.specs.Encoding.{HasWritten};
ghost use Rattle.jls_interval.specs.Fronts.{AreFirstLines, LinesEndAt, IsFrontOf, FrontsBeginPieces};

use crate::coder::Coder;
use crate::encode::write_next_line;
use crate::encoder::Encoder;
use jls_bits::{BitPlace, BitWriter, fronts_begin};
use jls_values::Params;
use std::alloc::{AllocError, Global};

/// The front of an interval's first lines.
#[derive(Drop)]
pub struct Front {
    /// The bytes that the code of these lines fills.
    pub bytes: Vec<u8>,
    /// Where the code of each line ends in these bytes, and in the one after them.
    pub ends: Vec<BitPlace>,
}

/// Writes the bits of the lines, one line after another, and notes where each ends.
fn write_with_ends(
    encoder: &mut Encoder,
    width: u16,
    components: u8,
    lines: &[&[u16]],
    ends: &mut Vec<BitPlace>,
) -> Result<(), AllocError>
    requires lines { AreFirstLines (parameters_of encoder.old.coder) width components (map (λ l. l.now) lines.now) }
    requires start { HasWritten encoder.old width components (map (λ l. l.now) lines.now) 0 }
    requires none { ends.old.items ≡ [] }
    ensures code { OnOk result (encoder.new.writer ≡ code (parameters_of encoder.old.coder) width components (map
        (λ l. l.now) lines.now)) }
    ensures ends { OnOk result (LinesEndAt (parameters_of encoder.old.coder) width components (map
        (λ l. l.now) lines.now) ends.new.items) }
{
    for j in 0..lines.len() {
        write_next_line(encoder, width, components, lines, j)?;
        let end = encoder.writer.place()?;
        ends.push(end)?;
    }
    Ok(())
}

/// The front of an interval's first lines, under these parameters and of this width. The lines stand row by row, and in a row by
/// component; they can end inside a row. The bytes are those that the bits of the lines fill (ITU-T T.87, A.1). Whatever lines follow, the
/// code begins with these bytes. Each line ends after so many whole bytes, and fewer bits than the next byte carries. The only refusal
/// is out of memory.
pub fn encode_front(
    alloc: Global,
    params: &Params,
    width: u16,
    components: u8,
    lines: &[&[u16]],
) -> Result<Front, AllocError>
    requires { AreFirstLines params.now width components (map (λ l. l.now) lines.now) }
    ensures { IfOk result (λ front. IsFrontOf params.now width components (map (λ l. l.now) lines.now) front) }
{
    let mut encoder = Encoder {
        writer: BitWriter::new(alloc),
        coder: Coder::new(params),
    };
    let mut ends = Vec::new(alloc);
    write_with_ends(&mut encoder, width, components, lines, &mut ends)?;
    let Encoder { writer, .. } = encoder;
    let bytes = writer.into_front()?;
    Ok(Front { bytes, ends })
}

/// A law: a piece that begins with the code of some lines begins with the front of the first of them.
pub fn fronts_begin_pieces()
    ensures { FrontsBeginPieces }
{
    fronts_begin();
}
