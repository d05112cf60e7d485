//! The trace of a damaged copy, which the command `check` prints.

ghost use Rattle.std.specs.List.{flat_map};
ghost use Rattle.std.specs.Prelude.{◌≡◌, ◌++◌, codes, decimal, OnOk};
ghost use Rattle.jls_salvage_run.specs.Tracing.{end_line, kind_text, more_line, piece_line, stop_line, trace};

use jls_copy::{End, PieceKind, PieceRecord};
use jls_report::put_number;
use jls_station::{ReadStop, TakeReport};
use std::alloc::AllocError;

/// Appends a word, a number and a newline.
fn put_count(out: &mut Vec<u8>, word: &str, count: u64) -> Result<(), AllocError>
    ensures { OnOk result (out.new.items ≡ out.old.items ++ (word.now ++ decimal count ++ codes "\n")) }
{
    out.extend_from_slice(word.as_bytes())?;
    put_number(out, count)?;
    out.extend_from_slice(b"\n")?;
    Ok(())
}

fn put_kind(out: &mut Vec<u8>, kind: PieceKind) -> Result<(), AllocError>
    ensures { OnOk result (out.new.items ≡ out.old.items ++ kind_text kind) }
{
    let text: &[u8] = match kind {
        PieceKind::Broken => b" broken\n",
        PieceKind::Long => b" long\n",
        PieceKind::Beyond => b" beyond\n",
    };
    out.extend_from_slice(text)?;
    Ok(())
}

/// Appends the line of a piece that did not read.
fn put_piece(out: &mut Vec<u8>, piece: &PieceRecord) -> Result<(), AllocError>
    ensures { OnOk result (out.new.items ≡ out.old.items ++ piece_line piece.now) }
{
    out.extend_from_slice(b"piece ")?;
    put_number(out, u64::from(piece.scan))?;
    out.extend_from_slice(b" ")?;
    put_number(out, u64::from(piece.interval))?;
    out.extend_from_slice(b" ")?;
    put_number(out, piece.offset)?;
    put_kind(out, piece.kind)
}

#[tactic(auto, using(jls_report::proofs::OneMore::flat_map_take_more))]
fn put_pieces(out: &mut Vec<u8>, pieces: &[PieceRecord]) -> Result<(), AllocError>
    ensures { OnOk result (out.new.items ≡ out.old.items ++ flat_map piece_line pieces.now) }
{
    for piece in pieces {
        put_piece(out, piece)?;
    }
    Ok(())
}

/// Appends how many pieces were not kept, if there are such.
fn put_more(out: &mut Vec<u8>, kept: u64, count: u64) -> Result<(), AllocError>
    ensures { OnOk result (out.new.items ≡ out.old.items ++ more_line kept count) }
{
    if kept < count {
        put_count(out, "pieces more ", count - kept)
    } else {
        Ok(())
    }
}

fn put_end(out: &mut Vec<u8>, end: End) -> Result<(), AllocError>
    ensures { OnOk result (out.new.items ≡ out.old.items ++ end_line end) }
{
    match end {
        End::Eoi(offset) => put_count(out, "end eoi ", offset),
        End::Input(offset) => put_count(out, "end input ", offset),
        End::Header(fault, offset) => {
            out.extend_from_slice(b"end fault ")?;
            put_number(out, u64::from(fault.number()))?;
            put_count(out, " ", offset)
        }
    }
}

fn put_stop(out: &mut Vec<u8>, stop: ReadStop, count: u64) -> Result<(), AllocError>
    ensures { OnOk result (out.new.items ≡ out.old.items ++ stop_line stop count) }
{
    match stop {
        ReadStop::Whole => Ok(()),
        ReadStop::Failed => put_count(out, "read failed ", count),
        ReadStop::Turns => put_count(out, "read stopped ", count),
    }
}

/// Appends the trace of a copy.
pub(crate) fn put_trace(out: &mut Vec<u8>, report: &TakeReport) -> Result<(), AllocError>
    ensures { OnOk result (out.new.items ≡ out.old.items ++ trace report.now.found report.now.stop) }
{
    put_pieces(out, report.pieces())?;
    put_more(out, report.pieces().len() as u64, report.piece_count())?;
    put_end(out, report.ended())?;
    put_stop(out, report.stop(), report.count())
}
