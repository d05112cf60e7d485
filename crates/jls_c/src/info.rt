//! What a caller is reported beside the lines.

ghost use Rattle.jls_c.specs.Info as reported;
ghost use Rattle.jls_c.specs.Lines.{line_statuses};
ghost use Rattle.std.specs.Prelude.{◌≡◌, ◌==◌, count_by};

use crate::answer::{NO_PICTURE, OUT_OF_MEMORY};
use jls_copy::{CopyFault, CopyRead, End, PieceKind, PieceRecord};
use jls_partial::Partial;

/// What a copy says of its picture, how many lines it gives, and how it ended.
#[repr(C)]
#[derive(Clone, Copy)]
pub struct JlsInfo {
    pub samples: u64,
    pub bytes: u64,
    pub faulty_pieces: u64,
    pub end_offset: u64,
    pub lines: u64,
    pub missing: u64,
    pub settled: u64,
    pub disputed: u64,
    pub width: u16,
    pub height: u16,
    pub precision: u8,
    pub components: u8,
    pub end: u8,
    pub fault: u8,
}

/// A piece of scan data that didn't read as the lines of its interval.
#[repr(C)]
#[derive(Clone, Copy)]
pub struct JlsPiece {
    pub offset: u64,
    pub interval: u32,
    pub scan: u8,
    pub kind: u8,
}

/// How many lines have the status of this number.
fn count_of(statuses: &[u8], number: u8) -> u64
    ensures { result ≡ count_by (λ status. status == number) statuses.now }
{
    statuses.iter().filter(|status| **status == number).count() as u64
}

/// The number of an end.
fn end_number(ended: End) -> u8
    ensures { result ≡ reported.end_number ended }
{
    match ended {
        End::Eoi(_) => 0,
        End::Input(_) => 1,
        End::Header(_, _) => 2,
    }
}

/// Where an end is.
fn end_offset(ended: End) -> u64
    ensures { result ≡ reported.end_offset ended }
{
    match ended {
        End::Eoi(offset) => offset,
        End::Input(offset) => offset,
        End::Header(_, offset) => offset,
    }
}

/// The number of the fault of an end, or 0.
fn end_fault(ended: End) -> u8
    ensures { result ≡ reported.end_fault ended }
{
    match ended {
        End::Eoi(_) => 0,
        End::Input(_) => 0,
        End::Header(fault, _) => fault.number(),
    }
}

/// What is reported of a partial picture whose lines have these statuses.
pub(crate) fn info_of_partial(partial: &Partial, statuses: &[u8]) -> JlsInfo
    requires { statuses.now ≡ line_statuses partial.now }
    ensures { result ≡ reported.info_of_partial partial.now }
{
    let shape = partial.shape();
    let components = shape.ids().len() as u8;
    let size = u64::from(shape.height()) * u64::from(shape.width());
    JlsInfo {
        samples: u64::from(components) * size,
        bytes: 0,
        faulty_pieces: 0,
        end_offset: 0,
        lines: u64::from(components) * u64::from(shape.height()),
        missing: count_of(statuses, 0),
        settled: count_of(statuses, 1),
        disputed: count_of(statuses, 2),
        width: shape.width(),
        height: shape.height(),
        precision: shape.precision(),
        components,
        end: 0,
        fault: 0,
    }
}

/// What is reported of a copy whose lines have these statuses.
pub(crate) fn info_of(read: &CopyRead, statuses: &[u8]) -> JlsInfo
    requires { statuses.now ≡ line_statuses read.now.partial }
    ensures { result ≡ reported.info_of read.now }
{
    let mut info = info_of_partial(read.partial(), statuses);
    info.faulty_pieces = read.piece_count();
    info.end_offset = end_offset(read.ended());
    info.end = end_number(read.ended());
    info.fault = end_fault(read.ended());
    info
}

/// What is reported of bytes that give nothing.
pub(crate) fn info_of_fault(fault: u8, offset: u64) -> JlsInfo
    ensures { result ≡ reported.info_of_fault fault offset }
{
    JlsInfo {
        samples: 0,
        bytes: 0,
        faulty_pieces: 0,
        end_offset: offset,
        lines: 0,
        missing: 0,
        settled: 0,
        disputed: 0,
        width: 0,
        height: 0,
        precision: 0,
        components: 0,
        end: 2,
        fault,
    }
}

/// Tells why a copy gives nothing, and answers its number.
pub(crate) fn refuse(fault: CopyFault, info: &mut JlsInfo) -> u32
    ensures answer { result ≡ reported.answer_of fault }
    ensures info { info.new ≡ reported.refused_info fault info.old }
{
    match fault {
        CopyFault::NoPicture(fault, offset) => {
            *info = info_of_fault(fault.number(), offset);
            NO_PICTURE
        }
        CopyFault::OutOfMemory => OUT_OF_MEMORY,
    }
}

/// The number of a kind.
fn kind_number(kind: PieceKind) -> u8
    ensures { result ≡ reported.kind_number kind }
{
    match kind {
        PieceKind::Broken => 0,
        PieceKind::Long => 1,
        PieceKind::Beyond => 2,
    }
}

/// What is reported of a piece.
pub(crate) fn piece_of(piece: PieceRecord) -> JlsPiece
    ensures { result ≡ reported.piece_of piece }
{
    JlsPiece {
        offset: piece.offset,
        interval: piece.interval,
        scan: piece.scan,
        kind: kind_number(piece.kind),
    }
}
