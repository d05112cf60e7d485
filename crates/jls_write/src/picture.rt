//! A whole picture, lent from a settled partial picture or from samples.

ghost use Rattle.jls_partial.specs.Status.{IsComponentSettled, IsSettled};
ghost use Rattle.jls_write.specs.Picture.{picture_of, line_of};
ghost use Rattle.jls_write.specs.Samples.{picture_in};
ghost use Rattle.jls_write.specs.Unsettled.{IsFirstUnsettledLine, IsFirstUnsettled, NamesFirstUnsettled};
ghost use Rattle.jls_write.specs.WholePictures.{IsPicture, IsWholePicture};
ghost use Rattle.std.specs.List.{AllByRecursion};
ghost use Rattle.std.specs.Prelude.{◌≡◌, ◌<◌, ◌*◌, ◌^◌, length, IfOk, IfErr, OnOk, MatchOption};

use crate::lender::Lender;
use jls_partial::Partial;
use jls_values::Shape;
use std::marker::Model;
use thiserror::Error;

/// Why a partial picture is no whole picture.
#[derive(Clone, Copy, Debug, PartialEq, Eq, Error)]
pub enum PictureFault {
    /// This line of the component with this index is missing or disputed. It is the first such line, by component in
    /// the order of the frame, and then by line.
    #[error("line {1} of the component with index {0} is not settled")]
    Unsettled(u8, u16),
}

/// A picture each line of which is known. It lends its lines from the partial picture or the samples that it was made of, and so takes
/// no memory.
#[derive(Drop)]
pub struct Picture<'a> {
    lender: Lender<'a>,
}

impl<'a> Model for Picture<'a> {
    ghost use Rattle.jls_write.specs.Lent.{picture_lent, LendsAll};
    ghost use Rattle.jls_write.specs.Picture.{WholePicture};

    ghost Value = { WholePicture };

    ghost view = { λ a. picture_lent a.lender };

    ghost invariant = { λ a. LendsAll a.lender };
}

/// The first line of a component that isn't settled.
fn unsettled_line(partial: &Partial, component: u8) -> Option<u16>
    requires { component < length partial.now.shape.ids }
    ensures { MatchOption result (IsComponentSettled partial.now component) (λ line. IsFirstUnsettledLine partial.now component line) }
{
    for line in 0..partial.shape().height() {
        if partial.count(component, line) != 1 {
            return Some(line);
        }
    }
    None
}

/// The first line of all that isn't settled, with its component.
fn first_unsettled(partial: &Partial) -> Option<(u8, u16)>
    ensures { MatchOption result (IsSettled partial.now) (λ at. IsFirstUnsettled partial.now at.0 at.1) }
{
    for component in 0..partial.shape().ids().len() as u8 {
        match unsettled_line(partial, component) {
            Some(line) => return Some((component, line)),
            None => (),
        }
    }
    None
}

impl<'a> Picture<'a> {
    /// The picture, if each line is settled. It takes no memory.
    pub fn of(partial: &'a Partial) -> Result<Picture<'a>, PictureFault>
        ensures settled { OnOk result (IsSettled partial.now) }
        ensures picture { IfOk result (λ picture. picture ≡ picture_of partial.now) }
        ensures unsettled { IfErr result (λ fault. NamesFirstUnsettled partial.now fault) }
    {
        match first_unsettled(partial) {
            Some((component, line)) => Err(PictureFault::Unsettled(component, line)),
            None => Ok(Picture {
                lender: Lender::Settled(partial),
            }),
        }
    }

    /// The picture of samples that stand by component in the order of the frame, and then by line from top to bottom. It copies none.
    pub fn of_samples(shape: &'a Shape, samples: &'a [u16]) -> Picture<'a>
        requires count { length samples.now ≡ length shape.now.ids * (shape.now.height * shape.now.width) }
        requires in_range { AllByRecursion (λ sample. sample < 2 ^ shape.now.precision) samples.now }
        ensures { result ≡ picture_in shape.now samples.now }
    {
        Picture {
            lender: Lender::Samples(shape, samples),
        }
    }

    /// The shape.
    pub fn shape(&self) -> &Shape
        ensures { result.now ≡ self.now.shape }
    {
        self.lender.shape()
    }

    /// A line of the component with this index: its samples from left to right, as many as the shape is wide.
    pub fn line(&self, component: u8, line: u16) -> &[u16]
        requires component_in { component < length self.now.shape.ids }
        requires line_in { line < self.now.shape.height }
        ensures value { result.now ≡ line_of self.now component line }
        ensures width { length result.now ≡ self.now.shape.width }
        ensures samples { AllByRecursion (λ sample. sample < 2 ^ self.now.shape.precision) result.now }
    {
        self.lender.line(component, line)
    }
}

/// A law: each value of this type is a picture in its ranges, of which no line is left out. So what `Picture::of` and
/// `Picture::of_samples` answer meets the premises of the laws on pictures and their files.
pub fn pictures_are_whole(picture: &Picture<'_>)
    ensures picture { IsPicture picture.now }
    ensures whole { IsWholePicture picture.now }
{
    picture.lender.is_whole();
}
