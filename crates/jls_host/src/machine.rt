//! What a machine does with files, for an output.

use crate::choice::{Kind, Standing};
use std::io;
use std::io::Write;

/// What a machine does with files, for an output. A test stands in for it. No contract says what a call does to a file.
pub trait Machine {
    /// A file that is open for writing.
    type File: Write + Drop;

    /// What stands at the name.
    fn standing(&mut self, name: &str) -> Standing;

    /// Whether a file of this name opens for writing. It is closed again, and stays as it is.
    fn opens(&mut self, name: &str) -> bool;

    /// The kind of the file of this name, or of the one that a link leads to.
    fn kind(&mut self, name: &str) -> Kind;

    /// The permission bits of the file of this name, or of the one that a link leads to, if they are known.
    fn mode(&mut self, name: &str) -> Option<u32>;

    /// Whether the file of this name, or the one that a link leads to, was opened as an input.
    fn is_input(&mut self, name: &str) -> bool;

    /// Whether both names, or links of these names, lead to one file.
    fn are_one(&mut self, name: &str, other: &str) -> bool;

    /// Whether the files of these names have the same bytes.
    fn are_equal(&mut self, name: &str, other: &str) -> io::Result<bool>;

    /// Opens the output of this name for writing, emptied.
    fn create(&mut self, name: &str) -> io::Result<Self::File>;

    /// Makes a file of this name, which must not be there. It has at most these permission bits, if there are any.
    fn create_new(&mut self, name: &str, mode: Option<u32>) -> io::Result<Self::File>;

    /// Gives the file of this name, which is no link, a second name, which nothing has.
    fn link(&mut self, name: &str, second: &str) -> io::Result<()>;

    /// Writes what the file of this name has to a file that is open.
    fn copy(&mut self, name: &str, to: &mut Self::File) -> io::Result<()>;

    /// Gives the file these permission bits, if there are any, and has all of it stored for good.
    fn sync(&mut self, file: &Self::File, mode: Option<u32>) -> io::Result<()>;

    /// Gives a file another name, in place of the file that has it.
    fn rename(&mut self, from: &str, to: &str) -> io::Result<()>;

    /// Has the names of the folder that the name stands in stored for good.
    fn sync_folder(&mut self, name: &str) -> io::Result<()>;

    /// Removes the file of this name.
    fn remove(&mut self, name: &str) -> io::Result<()>;
}
