//! Words of the computer's memory, and their arithmetic.

ghost use Rattle.std.specs.Prelude.{◌≡◌, ℕ, ◌^◌, ◌<◌, bit_and, bit_or, bit_xor};
ghost use Rattle.sift_base.specs.Word.{signed_of, add, sub, mul, div, rem, shl, shr, lt, eq, mid};

use std::marker::Model;

/// A word of the computer's memory: 16 bits. A clause sees it as its number, from 0 to 65,535.
#[derive(Clone, Copy, Debug, Default, PartialEq, Eq)]
pub struct Word {
    bits: u16,
}

impl Model for Word {
    ghost Value = { ℕ };

    ghost view = { λ w. w.bits };

    ghost invariant = { λ w. w.bits < 2 ^ 16 };

    ghost inverse = { λ n. record { bits = n } };
}

impl Word {
    /// The word with these bits, unsigned.
    pub fn of(n: u16) -> Word
        ensures { result ≡ n }
    {
        Word { bits: n }
    }

    /// The bits of the word, unsigned.
    pub fn get(self) -> u16
        ensures { result ≡ self }
    {
        self.bits
    }

    /// The word in two's complement, from -32,768 to 32,767.
    pub fn signed(self) -> i16
        ensures { result ≡ signed_of self }
    {
        self.bits.cast_signed()
    }

    /// The sum. It wraps, as the computer's adder does.
    pub fn add(self, b: Word) -> Word
        ensures { result ≡ add self b }
    {
        Word::of(self.bits.wrapping_add(b.bits))
    }

    /// The difference. It wraps.
    pub fn sub(self, b: Word) -> Word
        ensures { result ≡ sub self b }
    {
        Word::of(self.bits.wrapping_sub(b.bits))
    }

    /// The low word of the product.
    pub fn mul(self, b: Word) -> Word
        ensures { result ≡ mul self b }
    {
        Word::of(self.bits.wrapping_mul(b.bits))
    }

    /// The signed quotient, truncated toward zero. By zero it is 0, and -32,768 by -1 wraps to -32,768.
    pub fn div(self, b: Word) -> Word
        ensures { result ≡ div self b }
    {
        if b.bits == 0 {
            return Word::of(0);
        }
        Word::of(self.signed().wrapping_div(b.signed()).cast_unsigned())
    }

    /// The signed remainder, with the sign of `self`. By zero it is 0, and so it is for -32,768 by -1.
    pub fn rem(self, b: Word) -> Word
        ensures { result ≡ rem self b }
    {
        if b.bits == 0 {
            return Word::of(0);
        }
        Word::of(self.signed().wrapping_rem(b.signed()).cast_unsigned())
    }

    /// The bits that are set in both.
    pub fn and(self, b: Word) -> Word
        ensures { result ≡ bit_and self b }
    {
        Word::of(self.bits & b.bits)
    }

    /// The bits that are set in some of the two.
    pub fn or(self, b: Word) -> Word
        ensures { result ≡ bit_or self b }
    {
        Word::of(self.bits | b.bits)
    }

    /// The bits that are set in one of the two alone.
    pub fn xor(self, b: Word) -> Word
        ensures { result ≡ bit_xor self b }
    {
        Word::of(self.bits ^ b.bits)
    }

    /// The bits moved up by `b`, unsigned. Zeros come in, so from 16 on it is 0.
    pub fn shl(self, b: Word) -> Word
        ensures { result ≡ shl self b }
    {
        Word::of(self.bits.checked_shl(u32::from(b.bits)).unwrap_or(0))
    }

    /// The bits moved down by `b`, unsigned. Zeros come in, so from 16 on it is 0.
    pub fn shr(self, b: Word) -> Word
        ensures { result ≡ shr self b }
    {
        Word::of(self.bits.checked_shr(u32::from(b.bits)).unwrap_or(0))
    }

    /// 1 where `self` is below `b` as signed numbers, else 0.
    pub fn lt(self, b: Word) -> Word
        ensures { result ≡ lt self b }
    {
        Word::of(u16::from(self.signed() < b.signed()))
    }

    /// 1 where both words are equal, else 0.
    pub fn eq(self, b: Word) -> Word
        ensures { result ≡ eq self b }
    {
        Word::of(u16::from(self == b))
    }

    /// The middle of the three, as signed numbers.
    pub fn mid(a: Word, b: Word, c: Word) -> Word
        ensures { result ≡ mid a b c }
    {
        let (low, high) = if a.signed() <= b.signed() {
            (a, b)
        } else {
            (b, a)
        };
        if c.signed() <= low.signed() {
            low
        } else if high.signed() <= c.signed() {
            high
        } else {
            c
        }
    }
}
