//! The law of files that were completed by EOI. It is a function that does nothing and whose contract is the law.

ghost use Rattle.jls_splice_laws.specs.CompletedLaws.{CompletedFilesReadAlike, FilesAreCompletedOnce};

use jls_copy::{copies_have_one_course_under, prefixes_keep_readings_under};

/// A law: a file of bytes without a fault, completed by EOI, ends at EOI and has no fault. It has the same headers, and gives the same
/// readings and no others. Each file is completed to one list of bytes.
pub fn completed_files_read_alike()
    ensures alike { CompletedFilesReadAlike }
    ensures once { FilesAreCompletedOnce }
{
    copies_have_one_course_under();
    prefixes_keep_readings_under();
}
