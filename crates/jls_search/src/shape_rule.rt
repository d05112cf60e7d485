//! The rule of the shape that is taken.

ghost use Rattle.std.specs.Prelude.{◌≡◌, ◌<◌, ◌↔◌, length, IsTrue, IsFalse, IfSome, IfNone};
ghost use Rattle.std.specs.List.{AllByRecursion, Contains};
ghost use Rattle.jls_diff.specs.PartsOf.{bytes_of};
ghost use Rattle.jls_search.specs.Files.{files_taken, splices_found};
ghost use Rattle.jls_search.specs.Shapes.{IsShapeFound};
ghost use Rattle.jls_search.specs.Seen.{AreSeen, HasItIfFaultless, IsNotFaultless, IsWithoutFrame, IsFirstFrame, HasOtherFrame};
ghost use Rattle.jls_search.specs.Seen.{SomeFaultlessHasOther, IsFirstOtherFrame, IsNamed, IsOfCopies};
ghost use Rattle.jls_search.specs.declared.seen.Seen.TheVariants.{Faultless};

use crate::files::Files;
use crate::seen::Seen;
use crate::shape_found::ShapeFound;
use jls_values::Shape;

/// The shape of the first file that has no fault.
pub(crate) fn first_faultless(seen: &[Seen]) -> Option<&Shape>
    ensures some { IfSome result (λ shape. Contains seen.now (Faultless shape.now)) }
    ensures none { IfNone result (AllByRecursion IsNotFaultless seen.now) }
{
    for file in seen {
        if let Seen::Faultless(shape) = file {
            return Some(shape);
        }
    }
    None
}

/// Whether each file that has no fault has this shape.
fn agree(seen: &[Seen], shape: &Shape) -> bool
    ensures same { IsTrue result → AllByRecursion (HasItIfFaultless shape.now) seen.now }
    ensures other { IsFalse result → SomeFaultlessHasOther shape.now seen.now }
{
    for file in seen {
        if let Seen::Faultless(own) = file {
            if *own != *shape {
                return false;
            }
        }
    }
    true
}

/// The shape of the first frame.
fn first_frame(seen: &[Seen]) -> Option<&Shape>
    ensures some { IfSome result (λ shape. IsFirstFrame shape.now seen.now) }
    ensures none { IfNone result (AllByRecursion IsWithoutFrame seen.now) }
{
    for file in seen {
        match file {
            Seen::Faultless(shape) => return Some(shape),
            Seen::Faulty(shape) => return Some(shape),
            Seen::NoFrame(_, _) => {}
        }
    }
    None
}

/// Whether the file has a frame of another shape.
fn has_other_frame(file: &Seen, shape: &Shape) -> bool
    ensures { IsTrue result ↔ HasOtherFrame shape.now file.now }
{
    match file {
        Seen::Faultless(own) => *own != *shape,
        Seen::Faulty(own) => *own != *shape,
        Seen::NoFrame(_, _) => false,
    }
}

/// The number of the first file that has a frame of another shape.
fn first_other(seen: &[Seen], shape: &Shape) -> Option<usize>
    ensures some { IfSome result (λ copy. IsFirstOtherFrame shape.now seen.now copy) }
    ensures none { IfNone result (AllByRecursion (λ file. HasOtherFrame shape.now file → ⊥) seen.now) }
{
    for (copy, file) in seen.iter().enumerate() {
        if has_other_frame(file, shape) {
            return Some(copy);
        }
    }
    None
}

/// The copy that is named where shapes differ: the first whose frame is another than the first one, or copy 0 if none is.
fn copy_to_name(copies: &[Seen]) -> usize
    ensures { IsNamed copies.now result }
{
    match first_frame(copies) {
        Some(shape) => first_other(copies, shape).unwrap_or(0),
        None => 0,
    }
}

/// What comes of copies where no file is without a fault.
fn shape_of_copies(copies: &[Seen]) -> ShapeFound
    requires { 0 < length copies.now }
    ensures { IsOfCopies copies.now result }
{
    match first_frame(copies) {
        Some(shape) => ShapeFound::Taken(shape.to_owned()),
        None => match &copies[0] {
            Seen::NoFrame(fault, offset) => ShapeFound::NoFrame(*fault, *offset),
            _ => unreachable!(),
        },
    }
}

/// The shape of the files taken, by what is seen of each. Each file that has no fault, of the copies and of the splices, has it. Where
/// there is no such file it is that of the first copy with a frame.
pub(crate) fn find_shape(seen: &[Seen], files: &Files<'_, '_>) -> ShapeFound
    requires some_copy { 0 < length files.now.copies.now }
    requires seen { AreSeen (files_taken files.now) seen.now }
    ensures { IsShapeFound (bytes_of files.now.copies.now) (splices_found files.now) result }
{
    let copies = &seen[..files.copies.len()];
    match first_faultless(seen) {
        None => shape_of_copies(copies),
        Some(shape) => {
            if agree(seen, shape) {
                ShapeFound::Taken(shape.to_owned())
            } else {
                ShapeFound::Differ(copy_to_name(copies))
            }
        }
    }
}
