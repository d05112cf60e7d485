//! The lines of the picture: what copies say of each, and what is settled.

use std::alloc::{AllocError, Global};

/// What some copy says of a line.
#[derive(Drop)]
struct Reading {
    samples: Vec<u16>,
    /// The largest of them.
    largest: u16,
}

/// What one copy goes on with at a line that is disputed.
#[derive(Clone, Copy)]
pub(crate) struct OwnReading {
    pub(crate) copy: usize,
    /// The index of the reading at its place.
    pub(crate) reading: usize,
}

/// What is known of one line.
#[derive(Drop)]
struct Line {
    /// What copies said, each once.
    readings: Vec<Reading>,
    /// The index of the one that is settled.
    settled: Option<usize>,
    /// If it is disputed, what each copy goes on with.
    disputed: Vec<OwnReading>,
}

/// The lines of the picture, row by row, and in a row by component. A reading is told by its index among those of its place.
#[derive(Drop)]
pub(crate) struct Picture {
    alloc: Global,
    lines: Vec<Line>,
}

fn largest_of(samples: &[u16]) -> u16 {
    let mut largest = 0u16;
    for sample in samples {
        largest = largest.max(*sample);
    }
    largest
}

impl Picture {
    /// So many lines, of which nothing is known.
    pub(crate) fn new(alloc: Global, count: usize) -> Result<Picture, AllocError> {
        let mut lines = Vec::new(alloc);
        for _ in 0..count {
            lines.push(Line {
                readings: Vec::new(alloc),
                settled: None,
                disputed: Vec::new(alloc),
            })?;
        }
        Ok(Picture { alloc, lines })
    }

    /// How many lines it has.
    pub(crate) fn len(&self) -> usize {
        self.lines.len()
    }

    /// Notes a reading of the line at this place, and answers its index. The place has to be one of the picture. Of a settled line no other
    /// reading is kept, so that its index says only that it is another.
    pub(crate) fn note(&mut self, place: usize, samples: Vec<u16>) -> Result<usize, AllocError> {
        let Some(line) = self.lines.get_mut(place) else {
            return Ok(0);
        };
        for (index, reading) in line.readings.iter().enumerate() {
            if reading.samples.as_slice() == samples.as_slice() {
                return Ok(index);
            }
        }
        let index = line.readings.len();
        let largest = largest_of(&samples);
        let samples = if line.settled.is_some() {
            Vec::new(self.alloc)
        } else {
            samples
        };
        line.readings.push(Reading { samples, largest })?;
        Ok(index)
    }

    /// The samples of a reading; none, where there is no such reading.
    pub(crate) fn samples(&self, place: usize, reading: usize) -> &[u16] {
        match self.lines.get(place) {
            None => &[],
            Some(line) => match line.readings.get(reading) {
                None => &[],
                Some(reading) => &reading.samples,
            },
        }
    }

    /// Whether no sample of a reading is above this one.
    pub(crate) fn is_at_most(&self, place: usize, reading: usize, maxval: u16) -> bool {
        let Some(line) = self.lines.get(place) else {
            return false;
        };
        match line.readings.get(reading) {
            None => false,
            Some(reading) => reading.largest <= maxval,
        }
    }

    /// The reading that is settled at this place.
    pub(crate) fn settled(&self, place: usize) -> Option<usize> {
        self.lines.get(place)?.settled
    }

    /// Whether some line is settled.
    pub(crate) fn has_settled(&self) -> bool {
        self.lines.iter().any(|line| line.settled.is_some())
    }

    /// Whether the line at this place is disputed.
    pub(crate) fn is_disputed(&self, place: usize) -> bool {
        match self.lines.get(place) {
            None => false,
            Some(line) => line.settled.is_none() && !line.disputed.is_empty(),
        }
    }

    /// Whether some line is disputed.
    pub(crate) fn has_disputed(&self) -> bool {
        (0..self.lines.len()).any(|place| self.is_disputed(place))
    }

    /// Whether nothing is decided of the line at this place: it is neither settled nor disputed.
    pub(crate) fn is_open(&self, place: usize) -> bool {
        match self.lines.get(place) {
            None => false,
            Some(line) => line.settled.is_none() && line.disputed.is_empty(),
        }
    }

    /// The reading that this copy goes on with: the settled one, or its own in a dispute.
    pub(crate) fn own(&self, place: usize, copy: usize) -> Option<usize> {
        let line = self.lines.get(place)?;
        if line.settled.is_some() {
            return line.settled;
        }
        for own in line.disputed.iter() {
            if own.copy == copy {
                return Some(own.reading);
            }
        }
        None
    }

    /// Settles a line. Its other readings are let go.
    pub(crate) fn settle(&mut self, place: usize, settled: usize) {
        let alloc = self.alloc;
        if let Some(line) = self.lines.get_mut(place) {
            line.settled = Some(settled);
            for (index, reading) in line.readings.iter_mut().enumerate() {
                if index != settled {
                    reading.samples = Vec::new(alloc);
                }
            }
        }
    }

    /// Marks a line as disputed, by readings with which copies go on.
    pub(crate) fn dispute(&mut self, place: usize, readings: Vec<OwnReading>) {
        if let Some(line) = self.lines.get_mut(place) {
            line.disputed = readings;
        }
    }

    /// The lines that are settled.
    pub(crate) fn into_lines(self) -> Result<Vec<Option<Vec<u16>>>, AllocError> {
        let Picture { alloc, lines } = self;
        let mut all = Vec::new(alloc);
        for line in lines {
            let Line {
                mut readings,
                settled,
                ..
            } = line;
            let reading = match settled {
                Some(index) if index < readings.len() => Some(readings.swap_remove(index)),
                _ => None,
            };
            all.push(reading.map(|reading| {
                let Reading { samples, .. } = reading;
                samples
            }))?;
        }
        Ok(all)
    }
}
