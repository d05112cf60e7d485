//! The command `write`.

ghost use Rattle.std.specs.Prelude.{◌≡◌, true, OnOk, IfErr};
ghost use Rattle.jls_io.specs.Event.{GrewBy};
ghost use Rattle.jls_io.specs.Outputs.{HandsOut};
ghost use Rattle.jls_cli.specs.Outputs.{StopsAtOutput};
ghost use Rattle.jls_write.specs.Unsettled.{NamesFirstUnsettled};
ghost use Rattle.jls_write.specs.WrittenFile.{written_file};
ghost use Rattle.jls_write.specs.Options.{OptionsFit};
ghost use Rattle.jls_write.specs.Pnm.{pnm};
ghost use Rattle.jls_salvage_run.specs.WritingFiles.{file, cut_refusal, FitsFormat, IsTooLarge, options_for, StopsAtFile, takes_memory};
ghost use Rattle.jls_salvage_run.specs.WritingFiles.{unsettled_refusal, WritesFile};

use crate::inputs::open_and_read;
use jls_cli::{Cause, Done, Refusal, create};
use jls_io::Desk;
use jls_partial::Partial;
use jls_values::Params;
use jls_write::{
    Options, OutputFault, Picture, PictureFault, pictures_are_whole, write_jls, write_pnm,
};
use std::alloc::Global;

/// The format of a written picture.
#[derive(Clone, Copy, Debug, PartialEq, Eq)]
pub enum Format {
    /// PGM for one component, PPM for three, and PAM for two and four.
    Pnm,
    /// JPEG-LS with the default parameters of the precision (ITU-T T.87, C.2.4.1.1.1). With `line` all components stand in one
    /// scan, line by line, and else each in one of its own. `ri` is the restart interval in rows, and 0 means that there are
    /// no restart markers.
    Jls { line: bool, ri: u16 },
}

/// The refusal that tells of a line of an input which isn't settled.
fn refusal_of_unsettled<'a>(name: &'a str, partial: &Partial, fault: PictureFault) -> Refusal<'a>
    requires { NamesFirstUnsettled partial.now fault }
    ensures { result ≡ unsettled_refusal name.entry partial.now fault }
{
    let PictureFault::Unsettled(component, line) = fault;
    let cause = Cause::Unsettled {
        id: partial.shape().ids()[component as usize],
        line,
        disputed: partial.count(component, line) > 1,
    };
    Refusal { name, cause }
}

/// The refusal that tells what became of an output.
fn refusal_of_output<'a>(name: &'a str, fault: OutputFault) -> Refusal<'a>
    ensures { result ≡ cut_refusal name.entry fault }
{
    match fault {
        OutputFault::Write(count) => Refusal {
            name,
            cause: Cause::NotWritten(count),
        },
        OutputFault::OutOfMemory(_) => Refusal {
            name,
            cause: Cause::OutOfMemory,
        },
    }
}

/// How a picture is written as JPEG-LS.
fn jls_options(picture: &Picture<'_>, line: bool, ri: u16) -> Options
    ensures { result ≡ options_for line ri picture.now }
{
    let params = Params::default_for(picture.shape().precision());
    Options::new(line, ri, params)
}

/// Creates the output of this name and hands the PNM file of the picture to it.
fn hand_out_pnm<'a, D: Desk>(
    desk: &mut D,
    name: &'a str,
    picture: &Picture<'_>,
) -> Result<(), Refusal<'a>>
    ensures written { OnOk result (GrewBy (HandsOut name.now (pnm picture.now)) (D.history desk.old) (D.history desk.new)) }
    ensures stopped { IfErr result (λ refusal.
        GrewBy (StopsAtOutput name.now (pnm picture.now) refusal) (D.history desk.old) (D.history desk.new)) }
    ensures named { IfErr result (λ refusal. refusal.name.now ≡ name.now) }
{
    create(desk, name)?;
    write_pnm(picture, desk).map_err(|fault| refusal_of_output(name, fault))
}

/// Creates the output of this name and hands the JPEG-LS file of the picture to it, if the options fit.
fn hand_out_jls<'a, D: Desk>(
    alloc: Global,
    desk: &mut D,
    options: &Options,
    name: &'a str,
    picture: &Picture<'_>,
) -> Result<(), Refusal<'a>>
    ensures fit { OnOk result (OptionsFit picture.now options.now) }
    ensures written { OnOk result (GrewBy (HandsOut name.now (written_file picture.now options.now)) (D.history desk.old)
        (D.history desk.new)) }
    ensures stopped { IfErr result (λ refusal. GrewBy (StopsAtFile (OptionsFit picture.now options.now)
        (OptionsFit picture.now options.now → ⊥) true (written_file picture.now options.now) refusal)
        (D.history desk.old) (D.history desk.new)) }
    ensures named { IfErr result (λ refusal. refusal.name.now ≡ name.now) }
{
    if !options.fits(picture) {
        return Err(Refusal {
            name,
            cause: Cause::TooLarge,
        });
    }
    create(desk, name)?;
    write_jls(alloc, picture, options, desk).map_err(|fault| refusal_of_output(name, fault))
}

/// Creates the output of this name and hands the file of the picture to it, if it can be written so.
fn hand_out<'a, D: Desk>(
    alloc: Global,
    desk: &mut D,
    format: Format,
    name: &'a str,
    picture: &Picture<'_>,
) -> Result<(), Refusal<'a>>
    ensures fit { OnOk result (FitsFormat format picture.now) }
    ensures written { OnOk result (GrewBy (HandsOut name.now (file format picture.now)) (D.history desk.old) (D.history desk.new)) }
    ensures stopped { IfErr result (λ refusal. GrewBy (StopsAtFile (FitsFormat format picture.now) (IsTooLarge format picture.now)
        (takes_memory format) (file format picture.now) refusal) (D.history desk.old) (D.history desk.new)) }
    ensures named { IfErr result (λ refusal. refusal.name.now ≡ name.now) }
{
    match format {
        Format::Pnm => hand_out_pnm(desk, name, picture),
        Format::Jls { line, ri } => {
            // All else about default parameters fits.
            pictures_are_whole(picture);
            let options = jls_options(picture, line, ri);
            hand_out_jls(alloc, desk, &options, name, picture)
        }
    }
}

/// The command `write`: reads one input and writes its picture, each line of which has to be settled. The output is
/// created only when that is known.
pub fn write<'a, D: Desk>(
    alloc: Global,
    desk: &mut D,
    format: Format,
    out: &'a str,
    file: &'a str,
) -> Result<Done, Refusal<'a>>
    ensures { GrewBy (WritesFile format out.now file.now result) (D.history desk.old) (D.history desk.new) }
{
    let input = open_and_read(alloc, desk, file)?;
    let partial = input.partial();
    let picture = Picture::of(partial).map_err(|fault| refusal_of_unsettled(file, partial, fault))?;
    hand_out(alloc, desk, format, out, &picture)?;
    let whole = input.is_whole();
    Ok(Done {
        settled: true,
        whole,
    })
}
