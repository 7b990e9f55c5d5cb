//! The lexemes of a text, with their places.

ghost use Rattle.std.specs.Prelude.{◌≡◌, ◌↔◌, ◌<◌, ◌≤◌, ℕ, IsTrue, length, slice_index, EachIndex, ◌∷◌, [], IfSome, IfNone, IfOk, drop};
ghost use Rattle.std.specs.Char.{digit_value, IsAsciiAlphabetic};
ghost use Rattle.std.specs.Str.{byte};
ghost use Rattle.std.specs.Str.Parse.{digits_value};
ghost use Rattle.sift_base.specs.Name.{IsNameByte};
ghost use Rattle.sift_parse.specs.Written.{kept, IsRun, Continues, BeginsLetter, BeginsDigit, SpellsSign, NoSign, IsSignAt, NoSignAt, IsLexemeAt, NoLexemeAt, IsHexLength, IsNumberAt, lexeme_of, IsGap, IsLexed, placed_of};
ghost use Rattle.sift_parse.specs.Lexeme.{numeral, is_blank, after_gap, text_limit};
ghost use Rattle.sift_parse.specs.Scanned.{end_stop};

use crate::task::{ParseStop, place};
use crate::token::Sign;
use sift_base::{NoMemory, is_name_byte};
use sift_lang::Op;
use std::alloc::Global;

// ---- runs of bytes of one kind

/// What is kept of a number that is greater than a text may hold. So a number of any length is read in 32 bits.
const TOO_LARGE: u32 = 65_536;

/// How many bytes at the front may stand in a name.
fn name_len(bytes: &[u8]) -> usize
    ensures { IsRun IsNameByte bytes.now result }
{
    for (i, b) in bytes.iter().enumerate() {
        if !is_name_byte(*b) {
            return i;
        }
    }
    bytes.len()
}

/// How many bytes at the front are digits.
fn digits_len(bytes: &[u8], radix: u32) -> usize
    requires low { 2 ≤ radix }
    requires high { radix ≤ 36 }
    ensures { IsRun (λ b. digit_value b < radix) bytes.now result }
{
    for (i, b) in bytes.iter().enumerate() {
        if !char::from(*b).is_digit(radix) {
            return i;
        }
    }
    bytes.len()
}

/// What is kept of the number that the digits write.
fn number_kept(digits: &[u8], radix: u32) -> u32
    requires low { 2 ≤ radix }
    requires high { radix ≤ 36 }
    requires digits { EachIndex digits.now (λ k. digit_value (slice_index digits.now k) < radix) }
    ensures { result ≡ kept (digits_value radix digits.now) }
{
    let mut n: u32 = 0;
    for b in digits {
        let digit = char::from(*b).to_digit(radix).unwrap_or(0);
        n = (n * radix + digit).min(TOO_LARGE);
    }
    n
}

/// Whether the bytes begin with what may not follow a number directly: a letter or `_`.
fn continues_number(bytes: &[u8]) -> bool
    ensures { IsTrue result ↔ Continues bytes.now }
{
    match bytes {
        [b, ..] => b.is_ascii_alphabetic() || *b == b'_',
        [] => false,
    }
}

/// Whether the bytes begin with a lower-case letter, as a word does.
fn begins_name(bytes: &[u8]) -> bool
    ensures { IsTrue result ↔ BeginsLetter bytes.now }
{
    match bytes {
        [b, ..] => b.is_ascii_lowercase(),
        [] => false,
    }
}

/// Whether the bytes begin with a digit, as a number does.
fn begins_number(bytes: &[u8]) -> bool
    ensures { IsTrue result ↔ BeginsDigit bytes.now }
{
    match bytes {
        [b, ..] => b.is_ascii_digit(),
        [] => false,
    }
}

// ---- the lexeme at the front of bytes

/// What the bytes of a text are, before names are taken for what they name.
#[derive(Clone, Copy)]
pub(crate) enum Lexeme<'a> {
    /// A word of the form of a name, keywords among them.
    Word(&'a [u8]),
    /// A number, or 65536 for a greater one.
    Numeral(u32),
    Operator(Op),
    Mark(Sign),
}

/// The sign of two bytes.
fn long_sign<'a>(first: u8, second: u8) -> Option<Lexeme<'a>>
    ensures found { IfSome result (λ l. SpellsSign (lexeme_of l) (first ∷ second ∷ [])) }
    ensures none { IfNone result (NoSign (first ∷ second ∷ [])) }
{
    match (first, second) {
        (b'=', b'=') => Some(Lexeme::Operator(Op::Eq)),
        (b'<', b'<') => Some(Lexeme::Operator(Op::Shl)),
        (b'>', b'>') => Some(Lexeme::Operator(Op::Shr)),
        _ => None,
    }
}

/// The sign of one byte.
fn short_sign<'a>(byte: u8) -> Option<Lexeme<'a>>
    ensures found { IfSome result (λ l. SpellsSign (lexeme_of l) (byte ∷ [])) }
    ensures none { IfNone result (NoSign (byte ∷ [])) }
{
    let lexeme = match byte {
        b'+' => Lexeme::Operator(Op::Add),
        b'-' => Lexeme::Operator(Op::Sub),
        b'*' => Lexeme::Operator(Op::Mul),
        b'/' => Lexeme::Operator(Op::Div),
        b'%' => Lexeme::Operator(Op::Rem),
        b'&' => Lexeme::Operator(Op::And),
        b'|' => Lexeme::Operator(Op::Or),
        b'^' => Lexeme::Operator(Op::Xor),
        b'<' => Lexeme::Operator(Op::Lt),
        b'=' => Lexeme::Mark(Sign::Assign),
        b'(' => Lexeme::Mark(Sign::OpenParen),
        b')' => Lexeme::Mark(Sign::CloseParen),
        b'{' => Lexeme::Mark(Sign::OpenBrace),
        b'}' => Lexeme::Mark(Sign::CloseBrace),
        b',' => Lexeme::Mark(Sign::Comma),
        b'.' => Lexeme::Mark(Sign::Dot),
        b';' => Lexeme::Mark(Sign::Semicolon),
        _ => return None,
    };
    Some(lexeme)
}

/// The sign at the front, and how many bytes it has.
fn sign_at<'a>(bytes: &[u8]) -> Option<(Lexeme<'a>, usize)>
    ensures found { IfSome result (λ r. IsSignAt bytes.now (lexeme_of r.0) r.1) }
    ensures none { IfNone result (NoSignAt bytes.now) }
{
    // The longer sign first: else `<<` would be two comparisons.
    let (first, rest) = bytes.split_first()?;
    if let Some(second) = rest.first()
        && let Some(sign) = long_sign(*first, *second)
    {
        return Some((sign, 2));
    }
    Some((short_sign(*first)?, 1))
}

/// How many hexadecimal digits stand after `0x` at the front.
fn hex_len(bytes: &[u8]) -> usize
    ensures { IsHexLength bytes.now result }
{
    match bytes {
        [b'0', b'x', digits @ ..] => digits_len(digits, 16),
        _ => 0,
    }
}

/// How a number is written at the front: the radix of its digits, where they begin, and how many they are.
fn digits_at(bytes: &[u8]) -> (u32, usize, usize)
    ensures { IsNumberAt bytes.now result.0 result.1 result.2 }
{
    // Without a digit behind it `0x` is the number 0 and an `x`, which may not follow it.
    match hex_len(bytes) {
        0 => (10, 0, digits_len(bytes, 10)),
        len => (16, 2, len),
    }
}

/// The number at the front, and how many bytes it has.
fn number_at(bytes: &[u8]) -> Option<(u32, usize)>
    requires { BeginsDigit bytes.now }
    ensures found { IfSome result (λ r. IsLexemeAt bytes.now (numeral r.0) r.1) }
    ensures none { IfNone result (NoLexemeAt bytes.now) }
{
    let (radix, start, len) = digits_at(bytes);
    let (digits, rest) = bytes[start..].split_at(len);
    if continues_number(rest) {
        return None;
    }
    Some((number_kept(digits, radix), start + len))
}

/// The lexeme at the front, and how many bytes it has.
fn lexeme_at(bytes: &[u8]) -> Option<(Lexeme<'_>, usize)>
    ensures found { IfSome result (λ r. IsLexemeAt bytes.now (lexeme_of r.0) r.1) }
    ensures none { IfNone result (NoLexemeAt bytes.now) }
{
    if begins_name(bytes) {
        let len = name_len(bytes);
        return Some((Lexeme::Word(&bytes[..len]), len));
    }
    if begins_number(bytes) {
        let (number, len) = number_at(bytes)?;
        return Some((Lexeme::Numeral(number), len));
    }
    sign_at(bytes)
}

// ---- the lexemes of a text

/// A lexeme and the place of its first byte.
#[derive(Clone, Copy)]
pub(crate) struct Placed<'a> {
    pub lexeme: Lexeme<'a>,
    pub at: usize,
}

/// The lexemes of a text as far as there are any, and the place where the next would begin.
#[derive(Drop)]
pub(crate) struct Lexed<'a> {
    pub placed: Vec<Placed<'a>>,
    pub end: usize,
}

impl Lexed<'_> {
    /// What is answered to the bytes that begin no lexeme, where a text of this length has any.
    pub fn stop(&self, len: usize) -> Option<ParseStop>
        requires { self.now.end ≤ text_limit }
        ensures { result ≡ end_stop self.now.end len }
    {
        if self.end < len {
            Some(ParseStop::Lex {
                at: place(self.end),
            })
        } else {
            None
        }
    }
}

/// Whether the byte is blank.
fn is_space(byte: u8) -> bool
    ensures { result ≡ is_blank byte }
{
    byte == b' ' || byte == b'\t' || byte == b'\n' || byte == b'\r'
}

/// How many bytes of blanks and comments stand at the front.
fn gap_len(bytes: &[u8]) -> usize
    ensures { IsGap bytes.now result }
{
    let mut in_comment = false;
    for (i, byte) in bytes.iter().enumerate() {
        if in_comment {
            in_comment = *byte != b'\n';
        } else if *byte == b'#' {
            in_comment = true;
        } else if !is_space(*byte) {
            return i;
        }
    }
    bytes.len()
}

/// The lexemes of the text.
pub(crate) fn lex(alloc: Global, text: &[u8]) -> Result<Lexed<'_>, NoMemory>
    ensures { IfOk result (λ r. IsLexed text.now (placed_of r.placed.items) r.end) }
{
    let mut placed = Vec::new(alloc);
    let mut at = gap_len(text);
    while let Some((lexeme, len)) = lexeme_at(&text[at..]) {
        placed.push(Placed { lexeme, at })?;
        at += len;
        at += gap_len(&text[at..]);
    }
    Ok(Lexed { placed, end: at })
}
