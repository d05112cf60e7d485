//! Pictures that are written to a sink.

ghost use Rattle.jls_examples.specs.Written.{StopsAtFault};
ghost use Rattle.jls_write.specs.WrittenFile.{written_file};
ghost use Rattle.jls_write.specs.Options.{OptionsFit};
ghost use Rattle.jls_write.specs.Outcomes.{HandedOut, HandedPrefix, StoppedBy};
ghost use Rattle.jls_write.specs.Pnm.{pnm};
ghost use Rattle.std.specs.Prelude.{IfErr, OnOk};

use jls_io::Sink;
use jls_write::{Options, OutputFault, Picture, write_jls, write_pnm};
use std::alloc::Global;

/// Why a JPEG-LS file was not handed out whole.
#[derive(Clone, Copy, Debug, PartialEq, Eq)]
pub enum WriteFault {
    /// The options don't fit the picture (`Options::fits`). Nothing was handed out.
    DoesNotFit,
    /// The file was begun. The fault says how many bytes had gone out.
    Output(OutputFault),
}

/// Hands the PNM file of a picture to a sink. The only fault is `Write`, with the number of bytes that had gone out.
pub fn hand_out_pnm<W: Sink>(picture: &Picture<'_>, sink: &mut W) -> Result<(), OutputFault>
    ensures all { OnOk result (HandedOut (W.history sink.old) (W.history sink.new)
        (W.contents sink.old) (W.contents sink.new) (pnm picture.now)) }
    ensures prefix { IfErr result (λ fault. StoppedBy fault 0 (HandedPrefix (W.history sink.old) (W.history sink.new)
        (W.contents sink.old) (W.contents sink.new) (pnm picture.now))) }
{
    write_pnm(picture, sink)
}

/// Hands the JPEG-LS file of a picture to a sink. `DoesNotFit` comes exactly where the options don't fit the picture, and then the
/// sink is not touched. `Output` comes where a write fails or memory runs out.
pub fn hand_out_jls<W: Sink>(
    alloc: Global,
    picture: &Picture<'_>,
    options: &Options,
    sink: &mut W,
) -> Result<(), WriteFault>
    ensures fit { OnOk result (OptionsFit picture.now options.now) }
    ensures all { OnOk result (HandedOut (W.history sink.old) (W.history sink.new)
        (W.contents sink.old) (W.contents sink.new) (written_file picture.now options.now)) }
    ensures stops { IfErr result (λ fault. StopsAtFault picture.now options.now
        (W.history sink.old) (W.history sink.new) (W.contents sink.old) (W.contents sink.new) fault) }
{
    if !options.fits(picture) {
        return Err(WriteFault::DoesNotFit);
    }
    match write_jls(alloc, picture, options, sink) {
        Ok(()) => Ok(()),
        Err(fault) => Err(WriteFault::Output(fault)),
    }
}
