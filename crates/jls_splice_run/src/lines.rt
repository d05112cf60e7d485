//! The lines of what was found.

ghost use Rattle.std.specs.Prelude.{◌≡◌, ◌++◌, codes, decimal, OnOk, take};
ghost use Rattle.std.specs.List.{flat_map};
ghost use Rattle.jls_splice_run.specs.Lines.{before_line, differ_line, differ_lines, eoi_line, files_line, found_text};
ghost use Rattle.jls_splice_run.specs.Lines.{groups_end as spec_groups_end, groups_line, limit_line, lists_words, more_line};
ghost use Rattle.jls_splice_run.specs.Lines.{outcome_lines, progress_line, promise_line, samples_end};
ghost use Rattle.jls_splice_run.specs.Lines.{search_lines, single_line, splices_line, used_up_line};

use crate::differences::Difference;
use crate::found::{CutFileEnd, GroupSearch, Promise, SearchReport};
use jls_report::put_number;
use std::alloc::AllocError;

/// How many differences have a line.
const MOST_LINES: usize = 4096;

/// Appends the line of a difference.
fn put_difference(out: &mut Vec<u8>, difference: Difference) -> Result<(), AllocError>
    ensures { OnOk result (out.new.items ≡ out.old.items ++ differ_line difference) }
{
    out.extend_from_slice(b"differ ")?;
    put_number(out, difference.offset)?;
    out.extend_from_slice(b" ")?;
    put_number(out, difference.length)?;
    out.extend_from_slice(b"\n")?;
    Ok(())
}

/// Appends a line for each of these differences.
#[tactic(auto, using(jls_report::proofs::OneMore::flat_map_take_more))]
fn put_each(out: &mut Vec<u8>, differences: &[Difference]) -> Result<(), AllocError>
    ensures { OnOk result (out.new.items ≡ out.old.items ++ flat_map differ_line differences.now) }
{
    for difference in differences {
        put_difference(out, *difference)?;
    }
    Ok(())
}

/// Appends how many differences have no line, if there are such.
fn put_more(out: &mut Vec<u8>, count: usize) -> Result<(), AllocError>
    ensures { OnOk result (out.new.items ≡ out.old.items ++ more_line count) }
{
    if count > MOST_LINES {
        out.extend_from_slice(b"differ more ")?;
        put_number(out, (count - MOST_LINES) as u64)?;
        out.extend_from_slice(b"\n")?;
    }
    Ok(())
}

/// The first of these differences, each of which has a line.
fn first_ones(differences: &[Difference]) -> &[Difference]
    ensures { result.now ≡ take 4096 differences.now }
{
    if differences.len() > MOST_LINES {
        &differences[..MOST_LINES]
    } else {
        differences
    }
}

/// Appends the lines of the first differences, and how many more there are.
pub(crate) fn put_differences(
    out: &mut Vec<u8>,
    differences: &[Difference],
) -> Result<(), AllocError>
    ensures { OnOk result (out.new.items ≡ out.old.items ++ differ_lines differences.now) }
{
    put_each(out, first_ones(differences))?;
    put_more(out, differences.len())
}

/// Appends how many splices were taken.
fn put_splices(out: &mut Vec<u8>, splices: usize) -> Result<(), AllocError>
    ensures { OnOk result (out.new.items ≡ out.old.items ++ splices_line splices) }
{
    out.extend_from_slice(b"splices ")?;
    put_number(out, splices as u64)?;
    out.extend_from_slice(b"\n")?;
    Ok(())
}

/// Appends that the search of all splices was cut off, if it was.
fn put_used_up(out: &mut Vec<u8>, is_used_up: bool) -> Result<(), AllocError>
    ensures { OnOk result (out.new.items ≡ out.old.items ++ used_up_line is_used_up) }
{
    if is_used_up {
        out.extend_from_slice(b"tries used up\n")?;
    }
    Ok(())
}

/// Appends the ceiling of the search that counts, where none was given and it has one.
fn put_limit(out: &mut Vec<u8>, ceiling: Option<u16>) -> Result<(), AllocError>
    ensures { OnOk result (out.new.items ≡ out.old.items ++ limit_line ceiling) }
{
    let Some(ceiling) = ceiling else {
        return Ok(());
    };
    out.extend_from_slice(b"limit ")?;
    put_number(out, u64::from(ceiling))?;
    out.extend_from_slice(b"\n")?;
    Ok(())
}

/// How the line of the search by groups ends.
fn groups_end(is_used_up: bool) -> &'static [u8]
    ensures { result.now ≡ spec_groups_end is_used_up }
{
    if is_used_up {
        b", tries used up\n"
    } else {
        b"\n"
    }
}

/// Appends what the search by groups came to, if there was one.
fn put_groups(out: &mut Vec<u8>, by_groups: Option<GroupSearch>) -> Result<(), AllocError>
    ensures { OnOk result (out.new.items ≡ out.old.items ++ groups_line by_groups) }
{
    let Some(search) = by_groups else {
        return Ok(());
    };
    out.extend_from_slice(b"by groups ")?;
    put_number(out, search.groups as u64)?;
    out.extend_from_slice(groups_end(search.is_used_up))?;
    Ok(())
}

/// Appends how a line ends: with the ceiling, if there is one, after these words.
fn put_samples(out: &mut Vec<u8>, words: &[u8], ceiling: Option<u16>) -> Result<(), AllocError>
    ensures { OnOk result (out.new.items ≡ out.old.items ++ samples_end words.now ceiling) }
{
    if let Some(ceiling) = ceiling {
        out.extend_from_slice(words)?;
        put_number(out, u64::from(ceiling))?;
    }
    out.extend_from_slice(b"\n")?;
    Ok(())
}

/// Appends where the cut file ends, if one was taken.
fn put_before(out: &mut Vec<u8>, before: Option<CutFileEnd>) -> Result<(), AllocError>
    ensures { OnOk result (out.new.items ≡ out.old.items ++ before_line before) }
{
    let Some(end) = before else {
        return Ok(());
    };
    out.extend_from_slice(b"before ")?;
    put_number(out, end.offset)?;
    put_samples(out, b", samples up to ", end.ceiling)
}

/// Appends that a promise is of copies without bad places, if lists name these.
fn put_lists(out: &mut Vec<u8>, has_lists: bool) -> Result<(), AllocError>
    ensures { OnOk result (out.new.items ≡ out.old.items ++ lists_words has_lists) }
{
    if has_lists {
        out.extend_from_slice(b" (copies are without their bad places)")?;
    }
    Ok(())
}

/// Appends that the picture is promised, within the ceiling if there is one.
fn put_picture(out: &mut Vec<u8>, has_lists: bool, ceiling: Option<u16>) -> Result<(), AllocError>
    ensures { OnOk result (out.new.items ≡ out.old.items ++ promise_line has_lists (Promise.Picture ceiling)) }
{
    out.extend_from_slice(
        b"promise picture if the true file has what one copy has at each differ, and what all have elsewhere",
    )?;
    put_lists(out, has_lists)?;
    put_samples(out, b" and samples are up to ", ceiling)
}

/// Appends that the picture is promised by what copies hold.
fn put_held(out: &mut Vec<u8>, has_lists: bool) -> Result<(), AllocError>
    ensures { OnOk result (out.new.items ≡ out.old.items ++ promise_line has_lists Promise.Held) }
{
    out.extend_from_slice(
        b"promise picture if copies of one coding are of one file of it, true outside of their differs, there as long as printed, ",
    )?;
    out.extend_from_slice(b"with the marker segments of the mended file")?;
    put_lists(out, has_lists)?;
    out.extend_from_slice(b"\n")?;
    Ok(())
}

/// Appends which promise holds.
fn put_promise(out: &mut Vec<u8>, has_lists: bool, promise: Promise) -> Result<(), AllocError>
    ensures { OnOk result (out.new.items ≡ out.old.items ++ promise_line has_lists promise) }
{
    match promise {
        Promise::Picture(ceiling) => put_picture(out, has_lists, ceiling),
        Promise::Held => put_held(out, has_lists),
        Promise::Lines => {
            out.extend_from_slice(b"promise lines\n")?;
            Ok(())
        }
    }
}

/// Appends how many files get numbers, if these were asked for.
fn put_files(out: &mut Vec<u8>, files: Option<usize>) -> Result<(), AllocError>
    ensures { OnOk result (out.new.items ≡ out.old.items ++ files_line files) }
{
    let Some(count) = files else {
        return Ok(());
    };
    out.extend_from_slice(b"files ")?;
    put_number(out, count as u64)?;
    out.extend_from_slice(b"\n")?;
    Ok(())
}

/// Appends that EOI was added to a file that is handed out, if it was.
fn put_eoi(out: &mut Vec<u8>, is_eoi_added: bool) -> Result<(), AllocError>
    ensures { OnOk result (out.new.items ≡ out.old.items ++ eoi_line is_eoi_added) }
{
    if is_eoi_added {
        out.extend_from_slice(b"eoi added\n")?;
    }
    Ok(())
}

/// Appends that there is no single file, if one was asked for.
fn put_single(out: &mut Vec<u8>, lacks_single_file: bool) -> Result<(), AllocError>
    ensures { OnOk result (out.new.items ≡ out.old.items ++ single_line lacks_single_file) }
{
    if lacks_single_file {
        out.extend_from_slice(b"no single file\n")?;
    }
    Ok(())
}

/// Appends the lines of what the searches came to.
pub(crate) fn put_searches(out: &mut Vec<u8>, report: &SearchReport) -> Result<(), AllocError>
    ensures { OnOk result (out.new.items ≡ out.old.items ++ search_lines report.now) }
{
    put_splices(out, report.splices)?;
    put_used_up(out, report.is_used_up)?;
    put_limit(out, report.ceiling)?;
    put_groups(out, report.by_groups)
}

/// Appends the lines of what is made of it.
pub(crate) fn put_outcome(out: &mut Vec<u8>, report: &SearchReport) -> Result<(), AllocError>
    ensures { OnOk result (out.new.items ≡ out.old.items ++ outcome_lines report.now) }
{
    put_before(out, report.before)?;
    put_files(out, report.files)?;
    put_eoi(out, report.is_eoi_added)?;
    put_single(out, report.lacks_single_file)?;
    put_promise(out, report.has_lists, report.promise)
}

/// Appends the lines of what was found, in ASCII: where copies differ, in order, and what the search came to. Each ends with a newline.
/// `Err` comes where memory is refused, and says nothing of what was appended.
pub fn put_found(
    out: &mut Vec<u8>,
    differences: &[Difference],
    report: &SearchReport,
) -> Result<(), AllocError>
    ensures { OnOk result (out.new.items ≡ out.old.items ++ found_text differences.now report.now) }
{
    put_differences(out, differences)?;
    put_searches(out, report)?;
    put_outcome(out, report)
}

/// Appends the line that says how far a search is: how many prefixes and files were tried, and how many files were found.
pub fn put_progress(out: &mut Vec<u8>, tries: u32, files: usize) -> Result<(), AllocError>
    ensures { OnOk result (out.new.items ≡ out.old.items ++ progress_line tries files) }
{
    put_number(out, u64::from(tries))?;
    out.extend_from_slice(b" tries, ")?;
    put_number(out, files as u64)?;
    out.extend_from_slice(b" files\n")?;
    Ok(())
}
