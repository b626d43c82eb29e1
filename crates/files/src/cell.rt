// What the memories are made of.
ghost use Rattle.std.specs.Prelude.{ℕ, ◌≡◌, refl, ◌^◌, ◌<◌, ◌≤◌, List, map};
ghost use Rattle.std.proofs.Common.{sym, lit≤};
ghost use Rattle.std.proofs.lemmas.List.{map-id};
ghost use Rattle.files.specs.Sizes.{image_digits, word_digits, frame_digits};

use crate::sizes::{FRAME_DIGITS, IMAGE_DIGITS, WORD_DIGITS};

// A word of a memory: a number, which a line of the memory's file gives in so many hexadecimal digits.
pub trait Cell: Copy {
    const DIGITS: usize;

    ghost DIGITS: { ℕ };

    // Its number, and those of a memory.
    ghost number: { Self → ℕ };

    ghost numbers: { List Self → List ℕ };

    fn number(self) -> u64
        ensures { result ≡ number self };

    // The word that has a number of so many digits.
    fn of(v: u64) -> Self
        requires { v < 16 ^ DIGITS }
        ensures { number result ≡ v };

    // A number of so many digits fits 64 bits.
    ghost few: { DIGITS ≤ 12 };

    ghost each: { (words : List Self) → numbers words ≡ map number words };

    // A copy of a word is the same.
    ghost copied: { (word : Self) → Self.is_infallible word };

    ghost same: { (word copy : Self) → Self.is_clone word copy → copy ≡ word };
}

// A word of the instruction image: the low 48 bits are written.
impl Cell for u64 {
    const DIGITS: usize = IMAGE_DIGITS;

    ghost DIGITS = { image_digits };

    ghost number = { λ word. word };

    ghost numbers = { λ words. words };

    ghost few = { lit≤ tt };

    ghost each = { λ words. sym (map-id words) };

    ghost copied = { λ word. tt };

    ghost same = { λ word copy e. e };

    fn number(self) -> u64 {
        self
    }

    fn of(v: u64) -> u64 {
        v
    }
}

// A word of the data memory, of the disk or of a register.
impl Cell for u32 {
    const DIGITS: usize = WORD_DIGITS;

    ghost DIGITS = { word_digits };

    ghost number = { λ word. word };

    ghost numbers = { λ words. words };

    ghost few = { lit≤ tt };

    ghost each = { λ words. sym (map-id words) };

    ghost copied = { λ word. tt };

    ghost same = { λ word copy e. e };

    fn number(self) -> u64 {
        u64::from(self)
    }

    fn of(v: u64) -> u32 {
        v as u32
    }
}

// A byte of the frame.
impl Cell for u8 {
    const DIGITS: usize = FRAME_DIGITS;

    ghost DIGITS = { frame_digits };

    ghost number = { λ word. word };

    ghost numbers = { λ words. words };

    ghost few = { lit≤ tt };

    ghost each = { λ words. sym (map-id words) };

    ghost copied = { λ word. tt };

    ghost same = { λ word copy e. e };

    fn number(self) -> u64 {
        u64::from(self)
    }

    fn of(v: u64) -> u8 {
        v as u8
    }
}
