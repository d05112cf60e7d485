//! The codes of markers: the byte that follows FF (ITU-T T.81, table B.1; ITU-T T.87, C.1.1).

ghost use Rattle.std.specs.Prelude.{◌≡◌};
ghost use Rattle.jls_marker.specs.MarkerCodes as codes;

/// The first of the restart markers.
pub const RST0: u8 = 0xD0;

/// The last of the restart markers.
pub const RST7: u8 = 0xD7;

/// Start of image.
pub const SOI: u8 = 0xD8;

/// End of image.
pub const EOI: u8 = 0xD9;

/// Start of scan.
pub const SOS: u8 = 0xDA;

/// Define restart interval.
pub const DRI: u8 = 0xDD;

/// The first of the application segments.
pub const APP0: u8 = 0xE0;

/// The last of the application segments.
pub const APP15: u8 = 0xEF;

/// Start of a JPEG-LS frame.
pub const SOF55: u8 = 0xF7;

/// JPEG-LS preset parameters.
pub const LSE: u8 = 0xF8;

/// Comment.
pub const COM: u8 = 0xFE;

/// Whether a segment of this project follows the marker with this code.
#[tactic(auto, unfolding(crate::specs::MarkerCodes::has_segment))]
pub fn has_segment(code: u8) -> bool
    ensures { result ≡ codes.has_segment code }
{
    matches!(code, SOF55 | SOS | LSE | DRI | COM | APP0..=APP15)
}
