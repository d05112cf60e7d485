//! The bytes of pixels.

ghost use Rattle.arrayvec.specs.ArrayVec.{array_vec_len};
ghost use Rattle.jls_write.specs.Picture.{line_of};
ghost use Rattle.jls_write.specs.Pnm.{is_wide, sample_bytes};
ghost use Rattle.jls_write.specs.Waiting.{column_bytes, AreLinesTo};
ghost use Rattle.std.specs.List.{flat_map, range_with_len};
ghost use Rattle.std.specs.Prelude.{◌≡◌, ◌+◌, ◌-◌, ◌*◌, ◌<◌, ◌≤◌, ◌++◌, [], ◌∷◌, false, length, map, get_or};

use crate::picture::Picture;
use crate::waiting::ROOM;
use arrayvec::ArrayVec;

/// How many pixels are appended at once.
pub(crate) const PIXELS: u16 = 512;

/// The lines of a row, by component.
pub(crate) fn lines_of_row<'a>(picture: &'a Picture<'_>, row: u16) -> ArrayVec<&'a [u16], 4>
    requires { row < picture.now.shape.height }
    ensures lines { map (λ line. line.now) result.items
        ≡ map (λ component. line_of picture.now component row) (range_with_len 0 (length picture.now.shape.ids)) }
    ensures they_fit { AreLinesTo (is_wide picture.now.shape) picture.now.shape.width (map (λ line. line.now) result.items) }
{
    let mut lines = ArrayVec::new();
    for component in 0..picture.shape().ids().len() as u8 {
        lines.push(picture.line(component, row));
    }
    lines
}

/// Appends a sample, in one byte or, where it is wide, in two.
#[inline(always)]
fn put_sample(bytes: &mut ArrayVec<u8, ROOM>, sample: u16, wide: bool)
    requires room { array_vec_len bytes.old + 2 ≤ 8192 }
    requires fits { wide ≡ false → sample < 256 }
    ensures items { bytes.new.items ≡ bytes.old.items ++ sample_bytes wide sample }
    ensures len { array_vec_len bytes.new ≤ array_vec_len bytes.old + 2 }
{
    if wide {
        let [high, low] = sample.to_be_bytes();
        bytes.push(high);
        bytes.push(low);
    } else {
        bytes.push(sample as u8);
    }
}

/// Appends the samples of a column, one of each line.
#[inline(always)]
fn put_column(bytes: &mut ArrayVec<u8, ROOM>, lines: &[&[u16]], column: u16, wide: bool)
    requires room { array_vec_len bytes.old + 8 ≤ 8192 }
    requires they_fit { AreLinesTo wide (column + 1) (map (λ line. line.now) lines.now) }
    ensures items { bytes.new.items ≡ bytes.old.items ++ column_bytes wide (map (λ line. line.now) lines.now) column }
    ensures len { array_vec_len bytes.new ≤ array_vec_len bytes.old + 8 }
{
    for line in lines {
        put_sample(bytes, line[column as usize], wide);
    }
}

/// Appends the samples of a line from the column `start` on and before `end`.
fn put_samples(bytes: &mut ArrayVec<u8, ROOM>, line: &[u16], start: u16, end: u16, wide: bool)
    requires room { array_vec_len bytes.old + 4096 ≤ 8192 }
    requires columns { start ≤ end }
    requires few { end ≤ start + 512 }
    requires they_fit { AreLinesTo wide end (line.now ∷ []) }
    ensures items { bytes.new.items ≡ bytes.old.items
        ++ flat_map (λ column. sample_bytes wide (get_or line.now column 0)) (range_with_len start (end - start)) }
    ensures len { array_vec_len bytes.new ≤ array_vec_len bytes.old + 2 * (end - start) }
{
    for column in start..end {
        put_sample(bytes, line[column as usize], wide);
    }
}

/// Appends the columns from `start` on and before `end`, each with one sample of each line.
pub(crate) fn put_columns(
    bytes: &mut ArrayVec<u8, ROOM>,
    lines: &[&[u16]],
    start: u16,
    end: u16,
    wide: bool,
)
    requires room { array_vec_len bytes.old + 4096 ≤ 8192 }
    requires columns { start ≤ end }
    requires few { end ≤ start + 512 }
    requires they_fit { AreLinesTo wide end (map (λ line. line.now) lines.now) }
    ensures items { bytes.new.items ≡ bytes.old.items
        ++ flat_map (column_bytes wide (map (λ line. line.now) lines.now)) (range_with_len start (end - start)) }
    ensures len { array_vec_len bytes.new ≤ array_vec_len bytes.old + 8 * (end - start) }
{
    if let [line] = lines {
        put_samples(bytes, line, start, end, wide);
        return;
    }
    for column in start..end {
        put_column(bytes, lines, column, wide);
    }
}
