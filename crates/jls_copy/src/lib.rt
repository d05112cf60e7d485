//! One copy of a picture as a JPEG-LS file, which may be damaged. The crate reads its segments, and the pieces of its scan data between
//! restart markers. It reads the lines that each piece gives (ITU-T T.87 with the marker syntax of ITU-T T.81).
//!
//! - `machine`, `place`: take bytes at the current place in the copy. A segment that stands whole in the slice is taken at once
//! - `cut_search`, `ff_search`: find the next place that can end a piece
//! - `scan`, `piece`, `piece_decoder`: the current scan and piece. All bytes up to the next possible cut go to the decoder at once, which
//!   stays on the heap
//! - `piece_in_hand`: the piece in hand with its first lines, for a caller
//! - `fill`: counts fill bytes
//! - `findings`: the readings and records so far
//! - `end`: where a copy ends
//! - `profile_reader`, `reader`, `wide_reader`: the public form, under a profile, under the strict and the wide one
//! - `course_laws`, `cut_laws`, `copy_laws`: the laws
//!
//! Definitions: `ScanData`, `Numbers`, `Course`, `IntervalOf`, `Pieces`, `CutPieces`, `ReadCopy`, `CopyReads`, `CutLaws`, `CourseLaws`,
//! `CopyLaws`, `Prefixes`, `InHand`, `TellingLaws`. The other files are needed inside the crate only.
//!
//! Not proved:
//!
//! - That a damaged copy gives only readings of its picture. In general that is false. Damaged bytes can decode to other lines, and a false
//!   restart marker can give a piece a false number. After a changed header, an undamaged piece can decode to other lines. `jls_headline`
//!   says when it is true.
//!
//! # How a copy is read
//!
//! This follows a byte of a damaged JPEG-LS file from `CopyReader::feed` to a reading in a partial picture. The rules are those of ITU-T
//! T.81, annex B, and T.87, annex C. What this project chose is marked *own*. Definitions are in `specs/`. Those of *decodes*, `long` and
//! `broken` are in `specs/` of jls_piece.
//!
//! ## The course of a copy
//!
//! A copy is a list of bytes. Its *course* is SOI, then *units*, and an *end*. A unit is a marker segment without a fault. If the segment
//! begins a scan, the unit includes the scan data. The end is EOI, the end of the input, or the first invalid header. An invalid header
//! ends the copy, and what was read before it is kept (own).
//!
//!     FF D8 | FF F7 .. | FF DD 00 04 00 01 | FF DA .. 80 ..   FF D0 50 ..   FF D1 70 ..   | FF D9
//!     SOI     frame      restart interval    scan     piece 0 RST0  piece 1 RST1  piece 2   end: Eoi
//!             \______/   \_______________/   \__________________________________________/
//!             segment    segment             a unit with scan data
//!
//! `IsCourse bytes c` says that the whole list of bytes has the course c. Every list of bytes has exactly one course
//! (`every_copy_has_a_course`, `copies_have_one_course`). If it does not begin with SOI, the course has no unit and ends with that fault.
//!
//! ## Pieces
//!
//! *Marks* divide scan data: one or more bytes FF, then the code of RST0 to RST7. The bytes before the first mark, between two marks, and
//! after the last are a *piece* each. A piece can be empty. These rules are the project's own:
//!
//! - Scan data ends at EOI, SOS, DRI, LSE, COM or an APPn, or with the input.
//! - Bytes FF before a mark, before such a marker, or at the input's end belong to no piece.
//! - Other codes from 80 to FE, SOI and SOF55 among them, don't divide. They stay in the piece, which is then broken.
//!
//! Scan data is divided in exactly one way. This is the law `scan_data_has_one_cut`, of a definition of its own, `IsCut`. The pieces of a
//! unit of a course are the pieces of this division (`units_are_cut`).
//!
//! `next_cut` searches for the next place that can end a piece, sixteen bytes at a time. It is a byte FF with a byte of 80 or more after
//! it, which data bits never have. The reader hands all bytes before such a place to the decoder as one slice. From there it goes byte by
//! byte.
//!
//! ## Numbers
//!
//! Each interval but the last is followed by a mark. That of interval i is RSTm, where m is i mod 8. The first piece has number 0. After a
//! mark, the piece gets the least number above the last one given whose interval can follow that mark (own). A number beyond the last
//! interval is not given. Such a piece is recorded as `beyond`, and not decoded.
//!
//! If fewer than eight marks in a row are lost, and every marker seen is a true one, each piece gets its true number. This is a law of
//! lists of marks (`lost_marks_are_bridged`), and of the pieces of a copy (`numbers_come_back` of `jls_headline`). A damaged pair of bytes
//! such as FF D3 can look like a restart marker. Pieces after it may get false numbers.
//!
//! ## What a piece gives
//!
//! A piece with a number is decoded as that interval. Contexts and the lines above start anew in each interval.
//!
//! - It *decodes* to lines if its data bits are the code of these lines and at most seven further bits (own). The definitions say that it
//!   *reads as* them.
//! - It is `long` if more bits follow the code.
//! - Otherwise it is `broken`.
//!
//! The lines of a piece that decodes are placed row by row, and within a row by component. A piece that is long, broken or beyond gives no
//! lines but a record. The first 4,096 records are kept, and all are counted.
//!
//! If the input's end cuts off the last piece, and that piece doesn't decode, its *head* still counts (own). The head is the lines whose
//! code is complete before the cut. It exists if the data bits break off inside the code of some lines. The record stays. A piece that a
//! marker ends has no head, since such damage is no cut. A piece beyond the last interval has none either.
//!
//! ## The reader
//!
//! `CopyReader` takes the bytes in slices of any size, and keeps no bytes of a scan. It is in one of these places of the course:
//!
//! - before SOI;
//! - where a marker may begin;
//! - in the length of a segment, or in its payload;
//! - in scan data, with a decoder of the current piece;
//! - at the end.
//!
//! It holds at most 65,535 bytes of a payload, unless memory was refused. This is proved as an invariant. It does not count bytes FF that
//! may be fill: it only notes whether there are none, one, or more.
//!
//! It is proved that the reader finds the course that is defined on the whole list of bytes. After each byte, its place describes the
//! course of the bytes so far. Some bytes are taken at once: data of a piece, fill, a payload or a part of it, and a segment that stands
//! whole in the slice. They lead to where single bytes lead (`BytesLead`). So the contract of `finish` is about the course of all bytes
//! fed, and not about the slices.
//!
//! `feed` refuses only if memory runs out. From then on every `feed` is refused, `finish` answers out of memory, and nothing is promised of
//! `fed` and `is_done`. Bytes after the copy's end are counted and ignored. Unless memory is refused, `finish` gives a picture if and only
//! if a frame was taken.
#![tactic(auto)]

mod copy_laws;
mod course_laws;
mod cut_laws;
mod cut_search;
mod end;
mod ff_search;
mod fill;
mod findings;
mod machine;
mod piece;
mod piece_decoder;
mod piece_in_hand;
mod place;
mod profile_laws;
mod profile_reader;
mod reader;
mod scan;
mod wide_reader;

pub use copy_laws::{
    bytes_decide, final_ends_stay, other_ends_change, prefixes_go_on, prefixes_keep_readings,
    prefixes_settle_pieces, prefixes_stay_broken, records_are_of_faulty_pieces,
};
pub use course_laws::{
    copies_have_one_course, ends_stand_at_their_offsets, every_copy_has_a_course,
    pieces_stand_at_their_offsets,
};
pub use cut_laws::{
    lost_marks_are_bridged, marks_beyond_change_nothing, numbers_are_least, scan_data_has_one_cut,
    units_are_cut,
};
pub use cut_search::next_cut;
pub use end::End;
pub use piece::{PieceKind, PieceRecord};
pub use piece_in_hand::PieceInHand;
pub use profile_laws::{
    bytes_decide_under, copies_have_one_course_under, ends_stand_at_their_offsets_under,
    every_copy_has_a_course_under, final_ends_stay_under, other_ends_change_under,
    pieces_stand_at_their_offsets_under, prefixes_go_on_under, prefixes_keep_readings_under,
    prefixes_settle_pieces_under, prefixes_stay_broken_under, records_are_of_faulty_pieces_under,
    strict_pieces_are_by_line,
};
pub use profile_reader::ProfileReader;
pub use reader::{CopyFault, CopyRead, CopyReader};
pub use wide_reader::WideReader;
