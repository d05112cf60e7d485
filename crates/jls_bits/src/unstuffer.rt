//! The data bits of bytes that come one after another.

ghost use Rattle.std.specs.Prelude.{◌≡◌, ◌≤◌, ◌<◌, ◌^◌, true, false, [], ◌∷◌, ◌++◌, IfSome, IfNone};
ghost use Rattle.jls_bits.specs.Bits.{bits, bits_read, is_whole};

use crate::pushed::PushedBytes;
use crate::stuffing::{ends_data, width_after};
use std::marker::Model;

/// Gives the data bits of bytes that come one after another, without the bit that is stuffed after each byte 0xFF
/// (ITU-T T.87, A.1). It keeps no byte but the last. A contract sees the list of the bytes pushed.
#[derive(Drop)]
pub struct Unstuffer {
    pushed: PushedBytes,
    /// The last byte, or 0 before the first.
    last: u8,
    /// Whether a byte of 0x80 or more followed 0xFF.
    ended: bool,
}

impl Model for Unstuffer {
    ghost use Rattle.std.specs.Prelude.{ℕ, List};
    ghost use Rattle.jls_bits.specs.Unstuffing.{IsUnstuffing};

    ghost Value = { List ℕ };

    ghost view = { λ u. u.pushed.list };

    ghost invariant = { λ u. IsUnstuffing u.pushed.list u.last u.ended };
}

impl Unstuffer {
    /// No byte yet.
    pub fn new() -> Unstuffer
        ensures { result ≡ [] }
    {
        Unstuffer {
            pushed: PushedBytes::new(),
            last: 0,
            ended: false,
        }
    }

    /// A second one that was given the same bytes. It takes no memory.
    pub fn to_owned(&self) -> Unstuffer
        ensures { result ≡ self.now }
    {
        Unstuffer {
            pushed: self.pushed.to_owned(),
            last: self.last,
            ended: self.ended,
        }
    }

    /// The data bits of the next byte, as a number and how many they are: 8, or 7 after 0xFF. None for a byte of 0x80
    /// or more that follows 0xFF, and for each byte from then on: these have no data bits.
    pub fn push(&mut self, byte: u8) -> Option<(u8, u8)>
        ensures pushed { self.new ≡ self.old ++ byte ∷ [] }
        ensures whole { IfSome result (λ x. is_whole self.new ≡ true) }
        ensures bits { IfSome result (λ x. bits_read self.new ≡ bits_read self.old ++ bits x.1 x.0) }
        ensures count { IfSome result (λ x. (7 ≤ x.1) × (x.1 ≤ 8)) }
        ensures value { IfSome result (λ x. x.0 < 2 ^ x.1) }
        ensures none { IfNone result (is_whole self.new ≡ false) }
    {
        self.pushed.note(byte);
        if self.ended {
            return None;
        }
        if self.last != 0xFF {
            self.last = byte;
            return Some((byte, 8));
        }
        if ends_data(self.last, byte) {
            self.ended = true;
            return None;
        }
        let count = width_after(self.last);
        self.last = byte;
        Some((byte, count))
    }
}
