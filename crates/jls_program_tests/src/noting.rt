//! A machine that notes what it is asked, and lets a call fail.

use jls_host::{Kind, Machine, Standing};
use std::io;
use std::io::Write;

/// A file that takes everything.
#[derive(Drop)]
pub(crate) struct Taker;

impl Write for Taker {
    fn write(&mut self, bytes: &[u8]) -> io::Result<usize> {
        Ok(bytes.len())
    }

    fn flush(&mut self) -> io::Result<()> {
        Ok(())
    }
}

/// What stands at OUT and at `OUT~`, and which call fails, by the word that is noted of it, and how.
#[derive(Clone, Copy)]
pub(crate) struct Manners {
    pub(crate) standing: Standing,
    pub(crate) opens: bool,
    pub(crate) kind: Kind,
    pub(crate) is_input: bool,
    pub(crate) is_equal: bool,
    pub(crate) kept: (Standing, Kind),
    pub(crate) is_kept: bool,
    pub(crate) links: bool,
    pub(crate) fails: &'static str,
    pub(crate) error: io::ErrorKind,
}

pub(crate) const GOOD: Manners = Manners {
    standing: Standing::Regular(0o640),
    opens: true,
    kind: Kind::Other,
    is_input: false,
    is_equal: false,
    kept: (Standing::Absent, Kind::NoFile),
    is_kept: false,
    links: true,
    fails: "",
    error: io::ErrorKind::Other,
};

/// A machine on which the first two names beside an output are there, and then as many more as were made.
#[derive(Drop)]
pub(crate) struct Noting {
    pub(crate) calls: String,
    pub(crate) manners: Manners,
    pub(crate) made: usize,
}

impl Noting {
    /// Notes a call by its word and a name, and lets it fail if it is to.
    fn note(&mut self, word: &str, name: &str) -> io::Result<()> {
        self.calls.push_str(word)?;
        self.calls.push_str(name)?;
        self.calls.push_str("\n")?;
        if self.manners.fails.strip_prefix(word) == Some(name) {
            return Err(io::Error::from(self.manners.error));
        }
        Ok(())
    }

    /// Makes a file of this name, if it isn't there.
    fn make(&mut self, name: &str) -> io::Result<()> {
        let free = match self.made {
            0 => "OUT.jls-salvage-3",
            _ => "OUT.jls-salvage-4",
        };
        if name != free {
            return Err(io::Error::from(io::ErrorKind::AlreadyExists));
        }
        self.made = self.made.saturating_add(1);
        Ok(())
    }
}

impl Machine for Noting {
    type File = Taker;

    fn standing(&mut self, name: &str) -> Standing {
        match name {
            "OUT" => self.manners.standing,
            _ => self.manners.kept.0,
        }
    }

    fn opens(&mut self, name: &str) -> bool {
        self.note("opens ", name).is_ok() && self.manners.opens
    }

    fn kind(&mut self, name: &str) -> Kind {
        match name {
            "OUT" => self.manners.kind,
            _ => self.manners.kept.1,
        }
    }

    fn mode(&mut self, _name: &str) -> Option<u32> {
        Some(0o640)
    }

    fn is_input(&mut self, name: &str) -> bool {
        name == "OUT" && self.manners.is_input
    }

    fn are_one(&mut self, _name: &str, _other: &str) -> bool {
        self.manners.is_kept
    }

    fn are_equal(&mut self, name: &str, _other: &str) -> io::Result<bool> {
        self.note("compare ", name)?;
        Ok(self.manners.is_equal)
    }

    fn create(&mut self, name: &str) -> io::Result<Taker> {
        self.note("create ", name)?;
        Ok(Taker)
    }

    fn create_new(&mut self, name: &str, mode: Option<u32>) -> io::Result<Taker> {
        self.note(if mode.is_some() { "like " } else { "new " }, name)?;
        self.make(name)?;
        Ok(Taker)
    }

    fn link(&mut self, _name: &str, second: &str) -> io::Result<()> {
        self.note("link ", second)?;
        if !self.manners.links {
            return Err(io::Error::from(io::ErrorKind::Unsupported));
        }
        self.make(second)
    }

    fn copy(&mut self, name: &str, _to: &mut Taker) -> io::Result<()> {
        self.note("copy ", name)
    }

    fn sync(&mut self, _file: &Taker, mode: Option<u32>) -> io::Result<()> {
        let word = match mode {
            Some(0o640) => "sync 640",
            Some(_) => "sync otherwise",
            None => "sync",
        };
        self.note(word, "")
    }

    fn rename(&mut self, from: &str, to: &str) -> io::Result<()> {
        self.note("rename ", from)?;
        self.note("to ", to)
    }

    fn sync_folder(&mut self, name: &str) -> io::Result<()> {
        self.note("folder of ", name)
    }

    fn remove(&mut self, name: &str) -> io::Result<()> {
        self.note("remove ", name)
    }
}

pub(crate) const ABSENT: Manners = Manners {
    standing: Standing::Absent,
    ..GOOD
};

pub(crate) const LINK: Manners = Manners {
    standing: Standing::Other,
    ..GOOD
};

pub(crate) const READ_ONLY: Manners = Manners {
    opens: false,
    ..GOOD
};

/// Files beside an output can't be made: the disk is full, or the folder takes none.
pub(crate) const FULL: Manners = Manners {
    fails: "like OUT.jls-salvage-1",
    error: io::ErrorKind::StorageFull,
    ..GOOD
};

pub(crate) const CLOSED: Manners = Manners {
    fails: "like OUT.jls-salvage-1",
    error: io::ErrorKind::PermissionDenied,
    ..GOOD
};

pub(crate) const UNSYNCED: Manners = Manners {
    fails: "sync 640",
    ..GOOD
};

pub(crate) const UNNAMED: Manners = Manners {
    fails: "to OUT",
    ..GOOD
};

pub(crate) const FOLDER_UNSYNCED: Manners = Manners {
    fails: "folder of OUT",
    ..GOOD
};

/// OUT is a partial picture with other bytes, and no input.
pub(crate) const OLDER: Manners = Manners {
    kind: Kind::Partial,
    ..GOOD
};

/// The same, and a link leads to it.
pub(crate) const OLDER_BY_LINK: Manners = Manners {
    standing: Standing::Other,
    ..OLDER
};
