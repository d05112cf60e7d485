//! The headline, and the laws beside it: what is written of a station, and files that read as a picture. Each law is a function that
//! changes nothing and whose contract is the law.

ghost use Rattle.jls_headline.specs.Headline.{SameCopiesHoldTheSame, SameCopiesWriteTheSame, SameSourcesAreOneStation};
ghost use Rattle.jls_headline.specs.Headline.{DamagedCopiesWriteThePicture};
ghost use Rattle.jls_headline.specs.HeadlineLaws.{SameReadingsSayTheSame, SameCopiesSayTheSame, BytesAfterTheEndChangeNothing};
ghost use Rattle.jls_headline.specs.HeadlineLaws.{FilesReadAsOne, SameSourcesSameText};
ghost use Rattle.jls_headline.specs.ReadsAs.{FilesReadBack};

use jls_write::{Picture, pictures_are_whole};

/// A law, the one that this product is trusted for. It speaks of stations for which public calls read copies (`Collected`).
///
/// For two stations of one shape, calls read the same copies, in any order and with any repeats. A copy for which memory ran out was read
/// again. Then both hold exactly the readings that these copies give, and so the same ones. Two calls of `write_jls` under equal options
/// hand the same bytes to their sinks, and two of `write_pnm` do. Two reports have the same text. Now let the copies be read under the same
/// sources, also where memory ran out and a copy was read again. Then the stations are equal, and so are the bytes of two calls of
/// `to_bytes`. This is said of calls that answer Ok.
///
/// Now let calls read damaged copies of one picture alone, in some of which each line survives. Then each line of the station is settled,
/// as the picture's. `Picture::of` answers the picture. Under options that fit, what `write_jls` hands to its sink reads as that picture
/// and as no other.
///
/// A damaged copy may have lost whole restart intervals, fewer than eight restart markers in a row before one that is seen. The markers
/// that are seen must be true ones. No piece may decode to other lines than the picture's, even if it is damaged or a header before it
/// was changed. For pieces that were only truncated or extended, after true headers, this is proved (`trimmed_copies_are_damaged`).
pub fn same_copies_give_the_picture()
    ensures same { SameCopiesHoldTheSame }
    ensures same_sources { SameSourcesAreOneStation }
    ensures writes { SameCopiesWriteTheSame }
    ensures damaged { DamagedCopiesWriteThePicture }
{}

/// A law: what a station reports, shows and writes rests on its shape and its readings. So stations of one shape for which calls read the
/// same copies have the same report, the same picture, the same PNM file, and under equal options the same JPEG-LS file. If the copies were
/// read under the same sources, their texts are the same.
pub fn same_copies_write_the_same_bytes()
    ensures readings { SameReadingsSayTheSame }
    ensures same { SameCopiesSayTheSame }
    ensures same_sources { SameSourcesSameText }
{}

/// A law: bytes after the end of a copy, as after its EOI, change nothing. Two lists of bytes that differ there alone are one copy
/// (`IsSameCopy`).
pub fn bytes_after_the_end_change_nothing()
    ensures { BytesAfterTheEndChangeNothing }
{}

/// A law: the JPEG-LS file of each picture that `Picture::of` answers, under any options that fit it, reads as that picture and no other.
pub fn written_pictures_read_back(picture: &Picture<'_>)
    ensures { FilesReadBack picture.now }
{
    pictures_are_whole(picture);
}

/// A law: a file reads as one picture at most.
pub fn files_read_as_one()
    ensures { FilesReadAsOne }
{}
