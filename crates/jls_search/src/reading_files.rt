//! The files, each of which is read once.

ghost use Rattle.std.specs.Prelude.{◌-◌, ◌^◌, ◌≤◌, ◌∷◌, [], ℕ, List, Some, length, Option, IfOk, IfSome};
ghost use Rattle.std.specs.List.{AllByRecursion};
ghost use Rattle.jls_diff.specs.PartsOf.{bytes_of, parts_of};
ghost use Rattle.jls_search.specs.Choices.{IsPath, IsWhole, prefix_of};
ghost use Rattle.jls_search.specs.Search.{IsKeptReader, IsShort, files_of, lists_of};
ghost use Rattle.jls_marker.specs.SegmentLaws.{AreBytes};
ghost use Rattle.jls_search.specs.Files.{files_taken};
ghost use Rattle.jls_search.specs.Reading.{AreRead, HasTakenFiles, ReadsMore};

use crate::file::take_read;
use crate::files::Files;
use crate::reading_splices::read_splices;
use crate::seen::{Seen, see};
use jls_copy::{CopyFault, CopyRead, WideReader};
use jls_station::Station;
use std::alloc::{AllocError, Global};

/// What is kept of files that were read.
#[derive(Drop)]
pub(crate) struct FilesRead {
    /// What is seen of each.
    pub(crate) seen: Vec<Seen>,
    /// The station that took them. It has the shape of the first frame. There is none before that.
    pub(crate) station: Option<Station>,
}

/// The station that takes what was read of a file: the one that there is, or one of the file's shape.
fn station_for(alloc: Global, station: Option<Station>, read: &CopyRead) -> Station
    ensures { (source : Option ℕ) (files : List (List ℕ)) → HasTakenFiles source files station → HasTakenFiles source files (Some result) }
{
    match station {
        Some(station) => station,
        None => Station::new(alloc, read.partial().shape().to_owned()),
    }
}

/// Adds the file that was fed.
pub(crate) fn read_file(
    alloc: Global,
    source: Option<u32>,
    before: FilesRead,
    reader: WideReader,
) -> Result<FilesRead, AllocError>
    ensures { IfOk result (λ read. IfSome reader (λ file. AreBytes file → ReadsMore source (file ∷ []) before read)) }
{
    let FilesRead { mut seen, station } = before;
    match reader.finish() {
        Ok(read) => {
            seen.push(see(&read))?;
            let mut station = station_for(alloc, station, &read);
            take_read(&mut station, source, read)?;
            Ok(FilesRead {
                seen,
                station: Some(station),
            })
        }
        Err(CopyFault::NoPicture(fault, offset)) => {
            seen.push(Seen::NoFrame(fault, offset))?;
            Ok(FilesRead { seen, station })
        }
        Err(CopyFault::OutOfMemory) => Err(AllocError),
    }
}

/// Adds a copy.
fn read_copy(
    alloc: Global,
    source: Option<u32>,
    before: FilesRead,
    copy: &[u8],
) -> Result<FilesRead, AllocError>
    ensures { IfOk result (λ read. ReadsMore source (copy.now ∷ []) before read) }
{
    let mut reader = WideReader::new(alloc);
    reader.feed(copy)?;
    read_file(alloc, source, before, reader)
}

/// Reads the copies, in turn.
fn read_copies(
    alloc: Global,
    source: Option<u32>,
    copies: &[&[u8]],
) -> Result<FilesRead, AllocError>
    ensures { IfOk result (λ read. AreRead source (bytes_of copies.now) read) }
{
    let mut read = FilesRead {
        seen: Vec::new(alloc),
        station: None,
    };
    for copy in copies {
        read = read_copy(alloc, source, read, copy)?;
    }
    Ok(read)
}

/// Reads the copies and then the splices, each once.
pub(crate) fn read_files(
    alloc: Global,
    source: Option<u32>,
    files: &Files<'_, '_>,
) -> Result<FilesRead, AllocError>
    requires whole { AllByRecursion (IsWhole files.now.parts.now) (lists_of files.now.splices.now) }
    requires short { IsShort files.now.parts.now }
    requires reader { IfSome files.now.reader.now (IsKeptReader files.now.parts.now) }
    ensures { IfOk result (λ read. AreRead source (files_taken files.now) read) }
{
    let copies = read_copies(alloc, source, files.copies)?;
    read_splices(alloc, source, copies, files)
}
