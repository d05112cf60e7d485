//! The laws of written files. Each is a function that does nothing and whose contract is the law.

ghost use Rattle.jls_file_laws.specs.Covering.{IntervalsAreRows, IntervalsCover, ContainsThePicture};
ghost use Rattle.jls_file_laws.specs.FileLaw.{FileLaw, FileIsRead};

/// The intervals of a scan are its rows, each once and in order, for every restart interval.
pub fn intervals_are_rows()
    ensures { IntervalsAreRows }
{}

/// The intervals of all scans of a file are the picture: each component and line once, and nothing else.
pub fn intervals_cover()
    ensures cover { IntervalsCover }
    ensures contains { ContainsThePicture }
{}

/// The course of a written file takes the picture's shape and ends at EOI. Its pieces give the picture's lines, each component
/// and line once, and none is faulty.
pub fn written_files_read_back()
    ensures { FileLaw }
{}

/// A reader of copies answers this of a written file. It has the picture's shape, its lines as the only readings, no faulty piece, and the
/// end at EOI.
pub fn written_files_are_read()
    ensures { FileIsRead }
{}
