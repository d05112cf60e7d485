//! Pictures as PNM.

ghost use Rattle.jls_write.specs.Outcomes.{HandedOut, HandedPrefix, StoppedBy};
ghost use Rattle.jls_write.specs.Pnm.{is_wide, row_bytes, raster, pnm};
ghost use Rattle.jls_write.specs.Waiting.{PutAfter};
ghost use Rattle.std.specs.Prelude.{◌≡◌, ◌+◌, ◌<◌, ◌≤◌, ◌^◌, ◌++◌, length, IfErr, OnOk};

use crate::output::OutputFault;
use crate::picture::Picture;
use crate::pixels::{PIXELS, lines_of_row, put_columns};
use crate::pnm_header::{largest_sample, pnm_header};
use crate::waiting::Waiting;
use jls_io::Sink;

/// Puts a line of the raster after what waits, and hands out what there is no room for. Its lines are lent once.
fn write_row<W: Sink>(
    sink: &mut W,
    waiting: &mut Waiting,
    picture: &Picture<'_>,
    row: u16,
    wide: bool,
) -> Result<(), OutputFault>
    requires row_in { row < picture.now.shape.height }
    requires is_wide { wide ≡ is_wide picture.now.shape }
    requires early { waiting.old.gone < 2 ^ 60 }
    requires few { length waiting.old.bytes.items < 4096 }
    ensures few { OnOk result (length waiting.new.bytes.items < 4096) }
    ensures all { OnOk result (PutAfter (W.history sink.old) (W.history sink.new) (W.contents sink.old) (W.contents sink.new)
        waiting.old.bytes.items waiting.old.gone waiting.new.bytes.items waiting.new.gone (row_bytes picture.now row)) }
    ensures prefix { IfErr result (λ fault. StoppedBy fault waiting.old.gone (HandedPrefix (W.history sink.old) (W.history sink.new)
        (W.contents sink.old) (W.contents sink.new) (waiting.old.bytes.items ++ row_bytes picture.now row))) }
{
    let lines = lines_of_row(picture, row);
    let width = picture.shape().width();
    let mut start = 0;
    while start < width {
        let end = start + (width - start).min(PIXELS);
        put_columns(&mut waiting.bytes, &lines, start, end, wide);
        waiting.make_room(sink)?;
        start = end;
    }
    Ok(())
}

/// Puts the raster after what waits, and hands out what there is no room for.
fn write_raster<W: Sink>(
    sink: &mut W,
    waiting: &mut Waiting,
    picture: &Picture<'_>,
) -> Result<(), OutputFault>
    requires begun { waiting.old.gone ≡ 0 }
    requires few { length waiting.old.bytes.items < 4096 }
    ensures all { OnOk result (PutAfter (W.history sink.old) (W.history sink.new) (W.contents sink.old) (W.contents sink.new)
        waiting.old.bytes.items waiting.old.gone waiting.new.bytes.items waiting.new.gone (raster picture.now)) }
    ensures early { OnOk result (waiting.new.gone < 2 ^ 60) }
    ensures prefix { IfErr result (λ fault. StoppedBy fault waiting.old.gone (HandedPrefix (W.history sink.old) (W.history sink.new)
        (W.contents sink.old) (W.contents sink.new) (waiting.old.bytes.items ++ raster picture.now))) }
{
    let wide = largest_sample(picture.shape()) >= 256;
    for row in 0..picture.shape().height() {
        write_row(sink, waiting, picture, row, wide)?;
    }
    Ok(())
}

/// Hands the PNM file of a picture to a sink: PGM for one component, PPM for three, and PAM for two and four. Maxval is the
/// largest sample of the precision, and a sample has two bytes where that is 256 or more. It takes no memory, and the only
/// fault is `Write`.
pub fn write_pnm<W: Sink>(picture: &Picture<'_>, sink: &mut W) -> Result<(), OutputFault>
    ensures all { OnOk result (HandedOut (W.history sink.old) (W.history sink.new)
        (W.contents sink.old) (W.contents sink.new) (pnm picture.now)) }
    ensures prefix { IfErr result (λ fault. StoppedBy fault 0 (HandedPrefix (W.history sink.old) (W.history sink.new)
        (W.contents sink.old) (W.contents sink.new) (pnm picture.now))) }
{
    let mut waiting = Waiting::of(&pnm_header(picture.shape()));
    write_raster(sink, &mut waiting, picture)?;
    waiting.hand_out(sink)
}
