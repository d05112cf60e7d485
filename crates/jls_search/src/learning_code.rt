//! What lines would cost in a code that learns more of a picture than JPEG-LS does. No contract speaks of it.
//!
//! A sample is predicted from its neighbours by weights that are learned. What errors cost is learned for each of some contexts. Lines of a
//! true picture cost less in it than in their file. Lines that were read from wrong bytes cost more, as their neighbours say little.

/// How many neighbours of a sample its prediction goes by.
const NEIGHBOURS: usize = 6;

/// How many contexts there are.
const CONTEXTS: usize = 16;

/// How many parts a sample is counted in.
const PARTS_OF_SAMPLE: i64 = 16;

/// How many parts a bit is counted in.
pub const PARTS_OF_BIT: u64 = 256;

/// The bits after the point of a weight.
const WEIGHT_BITS: u32 = 16;

/// A weight of one half.
const HALF: i64 = 1 << 15;

/// The greatest weight, and the least without its sign.
const MOST_WEIGHT: i64 = 1 << 18;

/// By how much a step is scaled, and by how many bits its products are scaled down. They make a step of one part in 128.
const STEP_SCALE: i64 = 1 << 30;

const STEP_BITS: u32 = 21;

/// Over how many errors of a context their mean goes.
const MEMORY: u64 = 32;

/// The first mean of the errors of context 0, in parts of a sample. It doubles with each context.
const FIRST_MEAN: u64 = 8;

/// The cost of an error as great as the mean, in parts of a bit: the binary logarithm of e.
const COST_OF_MEAN: u64 = 369;

/// What is added to a mean, in parts of a sample, so that no error costs too much.
const LEAST_MEAN: u64 = 2;

/// What is added to the power of the neighbours, so that small differences teach little.
const LEAST_POWER: i64 = 256;

/// How much the square of the mean error counts in it.
const ERROR_POWER: i64 = 8;

/// Neighbours of a sample: west, north, northwest, northeast, two to the west, two to the north.
type Neighbours = [i64; NEIGHBOURS];

/// What the code has learned.
#[derive(Clone, Copy)]
pub struct LearningCode {
    /// The weight of each neighbour.
    weights: [i64; NEIGHBOURS],
    /// The mean error of each context, times `MEMORY`, in parts of a sample.
    sums: [u64; CONTEXTS],
}

/// The sample in this column, or another value past the end.
fn sample_or(line: &[u16], column: usize, other: i64) -> i64 {
    match line.get(column) {
        Some(sample) => i64::from(*sample),
        None => other,
    }
}

/// The sample so many columns before this one, or another value.
fn sample_before(line: &[u16], column: usize, count: usize, other: i64) -> i64 {
    match column.checked_sub(count) {
        Some(place) => sample_or(line, place, other),
        None => other,
    }
}

/// The neighbours of the sample in this column. Those that lack are as the nearest one.
fn neighbours(line: &[u16], above: &[u16], two_above: &[u16], column: usize) -> Neighbours {
    let over = sample_or(above, column, 0);
    let west = sample_before(line, column, 1, over);
    let north = sample_or(above, column, west);
    [
        west,
        north,
        sample_before(above, column, 1, north),
        sample_or(above, column.saturating_add(1), north),
        sample_before(line, column, 2, west),
        sample_or(two_above, column, north),
    ]
}

/// How much two samples differ.
fn difference(first: i64, second: i64) -> u64 {
    first.saturating_sub(second).unsigned_abs()
}

/// The context of a sample, by how much its neighbours differ.
fn context_of(near: &Neighbours) -> usize {
    let differing = difference(near[0], near[2])
        .saturating_add(difference(near[1], near[2]))
        .saturating_add(difference(near[1], near[3]))
        .saturating_add(difference(near[0], near[4]));
    match differing.checked_ilog2() {
        Some(log) => (log as usize).saturating_add(1).min(CONTEXTS - 1),
        None => 0,
    }
}

/// The mean of the four nearest neighbours, in parts of a sample.
fn mean_of(near: &Neighbours) -> i64 {
    near[0]
        .saturating_add(near[1])
        .saturating_add(near[2])
        .saturating_add(near[3])
        .saturating_mul(PARTS_OF_SAMPLE / 4)
}

/// How much each neighbour differs from their mean, in parts of a sample.
fn offsets_of(near: &Neighbours, mean: i64) -> Neighbours {
    let mut offsets = [0; NEIGHBOURS];
    for place in 0..NEIGHBOURS {
        offsets[place] = near[place]
            .saturating_mul(PARTS_OF_SAMPLE)
            .saturating_sub(mean);
    }
    offsets
}

/// The sum of the products.
fn product(first: &Neighbours, second: &Neighbours) -> i64 {
    let mut sum: i64 = 0;
    for place in 0..NEIGHBOURS {
        sum = sum.saturating_add(first[place].saturating_mul(second[place]));
    }
    sum
}

/// About the binary logarithm of a number, in parts of a bit.
fn logarithm(number: u64) -> u64 {
    let Some(whole) = number.checked_ilog2() else {
        return 0;
    };
    let scaled = number
        .saturating_mul(PARTS_OF_BIT)
        .checked_shr(whole)
        .unwrap_or(0);
    u64::from(whole)
        .saturating_mul(PARTS_OF_BIT)
        .saturating_add(scaled.saturating_sub(PARTS_OF_BIT))
}

/// What an error costs where the mean is this one, both in parts of a sample. The cost is in parts of a bit.
fn cost_of(error: u64, mean: u64) -> u64 {
    let unit = PARTS_OF_SAMPLE.unsigned_abs();
    let width = logarithm(unit.saturating_add(mean.saturating_mul(2)));
    let beyond = error
        .saturating_mul(COST_OF_MEAN)
        .checked_div(mean.saturating_add(LEAST_MEAN))
        .unwrap_or(0);
    width.saturating_sub(logarithm(unit)).saturating_add(beyond)
}

/// A size as a signed number.
fn signed(size: u64) -> i64 {
    i64::try_from(size).unwrap_or(i64::MAX)
}

impl LearningCode {
    /// One that has learned nothing.
    pub fn new() -> LearningCode {
        let mut sums = [0; CONTEXTS];
        let mut sum = FIRST_MEAN.saturating_mul(MEMORY);
        for context in 0..CONTEXTS {
            sums[context] = sum;
            sum = sum.saturating_mul(2);
        }
        LearningCode {
            weights: [HALF, HALF, -HALF / 2, HALF / 2, 0, 0],
            sums,
        }
    }

    /// The mean error of a context, which learns of one more.
    fn learn_mean(&mut self, context: usize, error: u64) -> u64 {
        match self.sums.get_mut(context) {
            Some(sum) => {
                let mean = *sum / MEMORY;
                *sum = sum.saturating_sub(mean).saturating_add(error);
                mean
            }
            None => 0,
        }
    }

    /// Moves the weights towards those that had predicted better.
    fn learn_weights(&mut self, offsets: &Neighbours, error: i64, mean: u64) {
        let mean = signed(mean);
        let power = product(offsets, offsets)
            .saturating_add(mean.saturating_mul(mean).saturating_mul(ERROR_POWER))
            .saturating_add(LEAST_POWER);
        let step = error
            .saturating_mul(STEP_SCALE)
            .checked_div(power)
            .unwrap_or(0);
        for place in 0..NEIGHBOURS {
            let moved = step.saturating_mul(offsets[place]) >> STEP_BITS;
            self.weights[place] = self.weights[place]
                .saturating_add(moved)
                .clamp(-MOST_WEIGHT, MOST_WEIGHT);
        }
    }

    /// What a sample costs among these neighbours, in parts of a bit. The code learns of it.
    fn cost_of_sample(&mut self, near: &Neighbours, sample: i64) -> u64 {
        let mean = mean_of(near);
        let offsets = offsets_of(near, mean);
        let predicted = mean.saturating_add(product(&self.weights, &offsets) >> WEIGHT_BITS);
        let error = sample
            .saturating_mul(PARTS_OF_SAMPLE)
            .saturating_sub(predicted);
        let size = error.unsigned_abs();
        let usual = self.learn_mean(context_of(near), size);
        self.learn_weights(&offsets, error, usual);
        cost_of(size, usual)
    }

    /// What a line costs below these two, in parts of a bit. The code learns of it. Where there is no such line, it is empty.
    pub fn cost_of_line(&mut self, line: &[u16], above: &[u16], two_above: &[u16]) -> u64 {
        let mut cost: u64 = 0;
        for column in 0..line.len() {
            let near = neighbours(line, above, two_above, column);
            let sample = sample_or(line, column, 0);
            cost = cost.saturating_add(self.cost_of_sample(&near, sample));
        }
        cost
    }
}
