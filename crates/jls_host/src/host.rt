//! The files and standard streams of the machine.

ghost use Rattle.std.specs.Prelude.{◌≤◌, length, IfOk};

use crate::choice::{Ending, Guard, Kind, Standing, kind_of_file};
use crate::machine::Machine;
use crate::name::Name;
use crate::output::{Output, Unmade, Why};
use crate::recorded::{Past, Recorded};
use jls_io::Open;
use std::fs::{File, Metadata, OpenOptions};
use std::io::{Read, Write};
use std::os::fd::AsRawFd;
use std::os::unix::fs::{MetadataExt, OpenOptionsExt, PermissionsExt};
use std::path::Path;
use std::rt::{Stdin, Stdout};
use std::{fs, io, mem};

/// What tells a file from every other one: its device, and its number there.
#[derive(Clone, Copy, Debug, PartialEq, Eq)]
struct Identity {
    device: u64,
    number: u64,
}

/// An input that is open.
#[derive(Drop)]
enum Input {
    Standard(Stdin),
    File(File),
}

/// An output that is open.
#[derive(Drop)]
enum Opened {
    Standard(Stdout),
    File(Output<File>),
}

/// The calls of the system, each as it is, and the files that were opened as inputs.
#[derive(Drop)]
struct Calls<'a> {
    rt: &'a HostRuntime,
    inputs: &'a [Identity],
}

/// Files by their names, where `-` is standard input as an input and standard output as an output. Each read and each write is one call of
/// the system, or none where nothing is open. Nothing is buffered, tried again or counted here. Reads go to the input that was opened last,
/// and writes to the output that was created last. An opening that fails changes neither. An output is whole when another is created, and
/// is kept then. How an output is made, and what becomes of it, `Output` says. No contract says any of this.
#[derive(Drop)]
pub struct HostFiles<'a> {
    rt: &'a HostRuntime,
    guard: Guard,
    input: Option<Input>,
    inputs: Vec<Identity>,
    past: Past,
    output: Option<Opened>,
    not_created: Option<Unmade>,
    unkept: Option<Unmade>,
}

/// The file that standard input is.
const STANDARD_INPUT: &str = "/dev/stdin";

/// The most bytes of a file that are read in one call.
const CHUNK: usize = 4096;

/// Reads until the buffer is full or the file ends, and answers how many bytes came.
fn fill(file: &mut File, into: &mut [u8]) -> io::Result<usize>
    ensures within { IfOk result (λ n. n ≤ length into.new) }
{
    let mut filled = 0;
    while filled < into.len() {
        let count = file.read(&mut into[filled..])?;
        if count == 0 {
            break;
        }
        filled += count;
    }
    Ok(filled)
}

/// The kind of the file of this name, or of the one that a link leads to.
fn kind(rt: &HostRuntime, name: &str) -> io::Result<Kind> {
    let metadata = match fs::metadata(rt, name) {
        Ok(metadata) => metadata,
        Err(error) if error.kind() == io::ErrorKind::NotFound => return Ok(Kind::NoFile),
        Err(error) => return Err(error),
    };
    if !metadata.is_file() {
        return Ok(Kind::NoFile);
    }
    let mut first = [0; 4];
    fill(&mut File::open(rt, name)?, &mut first)?;
    Ok(kind_of_file(first[0], first[1], first[2], first[3]))
}

/// Whether the rest of two files is equal.
fn are_equal(one: &mut File, other: &mut File) -> io::Result<bool> {
    let mut left = [0; CHUNK];
    let mut right = [0; CHUNK];
    for _ in 0..u64::MAX {
        let count = fill(one, &mut left)?;
        if fill(other, &mut right)? != count || left[..count] != right[..count] {
            return Ok(false);
        }
        if count == 0 {
            break;
        }
    }
    Ok(true)
}

fn identity_of(metadata: &Metadata) -> Identity {
    Identity {
        device: metadata.dev(),
        number: metadata.ino(),
    }
}

/// The identity of the file of this name, or of the one that a link leads to.
fn identity_at(rt: &HostRuntime, name: &str) -> io::Result<Identity> {
    Ok(identity_of(&fs::metadata(rt, name)?))
}

/// Notes the file of an input. Where memory runs out it isn't noted: then it is kept, if it is an output too.
fn note(inputs: &mut Vec<Identity>, metadata: io::Result<Metadata>) {
    if let Ok(metadata) = metadata {
        let _ = inputs.push(identity_of(&metadata));
    }
}

/// Ends an output, if it is a file. `Err` has its name, where it could not be kept.
fn end_of(
    calls: &mut Recorded<Calls<'_>>,
    output: Option<Opened>,
    ending: Ending,
) -> Result<(), Unmade> {
    match output {
        Some(Opened::File(output)) => output.end(calls, ending),
        _ => Ok(()),
    }
}

/// The folder that a name stands in.
fn folder(name: &str) -> &str {
    match Path::new(name).parent() {
        Some(folder) if !folder.as_str().is_empty() => folder.as_str(),
        _ => ".",
    }
}

impl Machine for Calls<'_> {
    type File = File;

    fn standing(&mut self, name: &str) -> Standing {
        match fs::symlink_metadata(self.rt, name) {
            Ok(metadata) if metadata.is_file() => {
                Standing::Regular(metadata.permissions().mode() & 0o7777)
            }
            Err(error) if error.kind() == io::ErrorKind::NotFound => Standing::Absent,
            _ => Standing::Other,
        }
    }

    fn opens(&mut self, name: &str) -> bool {
        OpenOptions::new().write(true).open(self.rt, name).is_ok()
    }

    fn kind(&mut self, name: &str) -> Kind {
        kind(self.rt, name).unwrap_or(Kind::Unknown)
    }

    fn mode(&mut self, name: &str) -> Option<u32> {
        let metadata = fs::metadata(self.rt, name).ok()?;
        Some(metadata.permissions().mode() & 0o7777)
    }

    fn is_input(&mut self, name: &str) -> bool {
        match identity_at(self.rt, name) {
            Ok(identity) => self.inputs.contains(&identity),
            Err(_) => false,
        }
    }

    fn are_one(&mut self, name: &str, other: &str) -> bool {
        match (identity_at(self.rt, name), identity_at(self.rt, other)) {
            (Ok(one), Ok(other)) => one == other,
            _ => false,
        }
    }

    fn are_equal(&mut self, name: &str, other: &str) -> io::Result<bool> {
        are_equal(
            &mut File::open(self.rt, name)?,
            &mut File::open(self.rt, other)?,
        )
    }

    fn create(&mut self, name: &str) -> io::Result<File> {
        File::create(self.rt, name)
    }

    fn create_new(&mut self, name: &str, mode: Option<u32>) -> io::Result<File> {
        let mut options = OpenOptions::new();
        options.write(true).create_new(true);
        if let Some(mode) = mode {
            options.mode(mode & 0o777);
        }
        options.open(self.rt, name)
    }

    fn link(&mut self, name: &str, second: &str) -> io::Result<()> {
        fs::hard_link(self.rt, name, second)
    }

    fn copy(&mut self, name: &str, to: &mut File) -> io::Result<()> {
        io::copy(&mut File::open(self.rt, name)?, to)?;
        Ok(())
    }

    fn sync(&mut self, file: &File, mode: Option<u32>) -> io::Result<()> {
        if let Some(mode) = mode {
            file.set_permissions(fs::Permissions::from_mode(mode))?;
        }
        file.sync_all()
    }

    fn rename(&mut self, from: &str, to: &str) -> io::Result<()> {
        fs::rename(self.rt, from, to)
    }

    fn sync_folder(&mut self, name: &str) -> io::Result<()> {
        File::open(self.rt, folder(name))?.sync_all()
    }

    fn remove(&mut self, name: &str) -> io::Result<()> {
        fs::remove_file(self.rt, name)
    }
}

impl<'a> HostFiles<'a> {
    /// No file is open yet.
    pub fn new(rt: &'a HostRuntime, guard: Guard) -> HostFiles<'a> {
        HostFiles {
            rt,
            guard,
            input: None,
            inputs: Vec::new(rt.alloc()),
            past: Past::new(),
            output: None,
            not_created: None,
            unkept: None,
        }
    }

    /// The output that was not created, and why. A name of more than 4,096 bytes is not told.
    pub fn not_created(&self) -> Option<&Unmade> {
        self.not_created.as_ref()
    }

    /// Ends the output that was created last. `Err` has its name, where it could not be kept.
    fn end_last(&mut self, ending: Ending) -> Result<(), Unmade> {
        let last = self.output.take();
        let calls = Calls {
            rt: self.rt,
            inputs: &self.inputs,
        };
        let mut calls = Recorded::resumed(calls, mem::replace(&mut self.past, Past::new()));
        let ended = end_of(&mut calls, last, ending);
        self.past = calls.into_past();
        ended
    }

    /// Ends the output that was created last, when the run has ended. `Err` has the name of an output that could not be kept: of the one
    /// before it, if there is such a one.
    pub fn end(&mut self, ending: Ending) -> Result<(), Unmade> {
        let ended = self.end_last(ending);
        match self.unkept.take() {
            Some(unmade) => Err(unmade),
            None => ended,
        }
    }

    /// Makes the output of this name.
    fn make(&mut self, name: &str) -> Result<Output<File>, Why> {
        let calls = Calls {
            rt: self.rt,
            inputs: &self.inputs,
        };
        let mut calls = Recorded::resumed(calls, mem::replace(&mut self.past, Past::new()));
        let made = Output::create(&mut calls, name, self.guard);
        self.past = calls.into_past();
        made
    }
}

impl Read for HostFiles<'_> {
    fn read(&mut self, into: &mut [u8]) -> io::Result<usize> {
        match &mut self.input {
            None => Ok(0),
            Some(Input::Standard(stdin)) => stdin.read(into),
            Some(Input::File(file)) => file.read(into),
        }
    }
}

impl Write for HostFiles<'_> {
    fn write(&mut self, bytes: &[u8]) -> io::Result<usize> {
        match &mut self.output {
            None => Ok(0),
            Some(Opened::Standard(stdout)) => stdout.write(bytes),
            Some(Opened::File(output)) => {
                let calls = Calls {
                    rt: self.rt,
                    inputs: &self.inputs,
                };
                let mut calls = Recorded::resumed(calls, mem::replace(&mut self.past, Past::new()));
                let written = output.write(&mut calls, bytes);
                self.past = calls.into_past();
                written
            }
        }
    }

    fn flush(&mut self) -> io::Result<()> {
        Ok(())
    }
}

impl Open for HostFiles<'_> {
    fn open_input(&mut self, name: &str) -> io::Result<()> {
        if name == "-" {
            let metadata = fs::metadata(self.rt, STANDARD_INPUT);
            note(&mut self.inputs, metadata);
            self.input = Some(Input::Standard(self.rt.stdin()));
            return Ok(());
        }
        let file = File::open(self.rt, name)?;
        let metadata = file.metadata();
        note(&mut self.inputs, metadata);
        self.input = Some(Input::File(file));
        Ok(())
    }

    fn create_output(&mut self, name: &str) -> io::Result<()> {
        if let Err(unmade) = self.end_last(Ending::Keep) {
            self.unkept = Some(unmade);
        }
        if name == "-" {
            self.output = Some(Opened::Standard(self.rt.stdout()));
            return Ok(());
        }
        match self.make(name) {
            Ok(output) => {
                self.output = Some(Opened::File(output));
                Ok(())
            }
            Err(why) => {
                self.not_created = Name::from(name).ok().map(|name| Unmade { name, why });
                Err(io::Error::from(io::ErrorKind::PermissionDenied))
            }
        }
    }
}

/// Files that stand in for standard streams that are closed, so that no other file gets their descriptors.
#[derive(Drop)]
pub struct Streams {
    input: Option<File>,
    output: Option<File>,
    faults: Option<File>,
}

/// The null device, if it gets a descriptor of at most this number.
fn stand_in(rt: &HostRuntime, options: &OpenOptions, most: i32) -> Option<File> {
    match options.open(rt, "/dev/null") {
        Ok(file) if file.as_raw_fd() <= most => Some(file),
        _ => None,
    }
}

/// Takes the descriptors of standard streams that are closed. Reads of such an input fail, and writes to such an output.
pub fn hold_streams(rt: &HostRuntime) -> Streams {
    Streams {
        input: stand_in(rt, OpenOptions::new().write(true), 0),
        output: stand_in(rt, OpenOptions::new().read(true), 2),
        faults: stand_in(rt, OpenOptions::new().read(true), 2),
    }
}
