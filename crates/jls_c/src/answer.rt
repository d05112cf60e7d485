//! What the exported functions answer, by number.

/// All was done.
pub const DONE: u32 = 0;
/// Memory was refused.
pub const OUT_OF_MEMORY: u32 = 1;
/// The copy has no frame.
pub const NO_PICTURE: u32 = 2;
/// A buffer of the caller is too short.
pub const SHORT_ROOM: u32 = 3;
/// The bytes, or of two the first, are no partial picture.
pub const NO_PARTIAL: u32 = 4;
/// The second bytes are no partial picture.
pub const NO_SECOND_PARTIAL: u32 = 5;
/// Two partial pictures are of different shapes.
pub const SHAPES_DIFFER: u32 = 6;
/// There is no such shape, or it has another number of samples.
pub const BAD_FRAME: u32 = 7;
/// A sample has more bits than the precision.
pub const LARGE_SAMPLE: u32 = 8;
/// A restart interval would have more than 2^28 samples.
pub const LARGE_INTERVAL: u32 = 9;
/// The sizes of copies don't add up, there are fewer than two, or with a list none, or a search may try nothing.
pub const BAD_COPIES: u32 = 14;
/// Something stops the mending of copies.
pub const NOT_MENDED: u32 = 15;
/// The sizes of lists of bad places don't add up, or one is of no copy.
pub const BAD_LISTS: u32 = 17;
