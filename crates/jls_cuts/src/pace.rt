//! How many bytes the last samples of a reader took.

ghost use Rattle.std.specs.Prelude.{◌≡◌, ◌<◌, ◌≤◌, length};

use jls_copy::WideReader;

/// How many samples lie between two marks at least.
const APART: u64 = 3000;

/// How far a reader had come.
#[derive(Clone, Copy)]
struct Mark {
    fed: u64,
    samples: u64,
}

/// Two marks on the way of a reader.
#[derive(Clone, Copy)]
pub(crate) struct Pace {
    earlier: Mark,
    later: Mark,
}

impl Pace {
    /// The pace of a reader that was fed nothing.
    pub(crate) fn new() -> Pace {
        let mark = Mark { fed: 0, samples: 0 };
        Pace {
            earlier: mark,
            later: mark,
        }
    }

    /// Goes on to where the reader is, if it is far enough from the later mark.
    pub(crate) fn go_on(&mut self, reader: &WideReader) {
        let samples = reader.samples_read();
        if samples >= self.later.samples.saturating_add(APART) {
            self.earlier = self.later;
            self.later = Mark {
                fed: reader.fed(),
                samples,
            };
        }
    }

    /// How many bytes a reader was fed since the earlier mark, and how many samples it read.
    pub(crate) fn since(self, reader: &WideReader) -> (u64, u64) {
        (
            reader.fed().saturating_sub(self.earlier.fed),
            reader.samples_read().saturating_sub(self.earlier.samples),
        )
    }
}
