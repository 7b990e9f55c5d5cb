//! Lines of a report, printed.

ghost use Rattle.std.specs.Prelude.{◌≡◌, ◌<◌, ◌++◌, ◌∷◌, [], false, codes, string_bytes, OnOk};
ghost use Rattle.std.specs.Fmt.{decimal, digit_glyph, signed_decimal};
ghost use Rattle.sift_base.specs.Units.{members};
ghost use Rattle.sift_line.specs.Bad.{caught_text};
ghost use Rattle.sift_line.specs.Line.{line_text, printed};
ghost use Rattle.sift_line.specs.declared.line.ReportLine.TheVariants.{Unit, Frame, Last};
ghost use Rattle.sift_line.specs.Part.{margin_text, text_or_dash, unit_digit, units_text, word_text, words_text};

use crate::catch::{Bad, catches_in};
use crate::line::ReportLine;
use crate::number::{Item, push_list};
use arrayvec::ArrayVec;
use sift_base::{UnitId, UnitSet, Word};
use sift_config::Config;
use std::alloc::AllocError;

/// Appends a line, with its line feed.
pub fn push_line(text: &mut String, line: &ReportLine) -> Result<(), AllocError>
    ensures { OnOk result (string_bytes text.new ≡ string_bytes text.old ++ printed line.now) }
{
    push_fields(text, line)?;
    text.push_str("\n")
}

/// Appends the fields of a line, with blanks between them.
fn push_fields(text: &mut String, line: &ReportLine) -> Result<(), AllocError>
    ensures { OnOk result (string_bytes text.new ≡ string_bytes text.old ++ line_text line.now) }
{
    match line {
        ReportLine::Unit {
            f,
            u,
            cfg,
            clk,
            ins,
            outs,
            bad,
        } => push_account(text, *f, *u, cfg, *clk, ins, outs, bad),
        ReportLine::Faulty { f, u } => push_state(text, *f, *u, "faulty"),
        ReportLine::Idle { f, u } => push_state(text, *f, *u, "idle"),
        ReportLine::Frame {
            f,
            skew,
            slack,
            margin,
        } => push_figures(text, *f, *skew, *slack, *margin),
        ReportLine::Last {
            frames,
            cfg,
            margin,
        } => push_end(text, *frames, cfg, *margin),
    }
}

/// Appends what a unit tells that works in its own configuration.
fn push_account(
    text: &mut String,
    f: u32,
    u: UnitId,
    cfg: &Config,
    clk: i64,
    ins: &[Word],
    outs: &[Word],
    bad: &Bad,
) -> Result<(), AllocError>
    ensures { OnOk result (string_bytes text.new
        ≡ string_bytes text.old ++ line_text (Unit f u cfg.now clk (record { items = ins.now }) (record { items = outs.now }) bad.now)) }
{
    push_head(text, f, u)?;
    push_standing(text, cfg, clk)?;
    push_words(text, ins, outs)?;
    text.push_str(" bad=")?;
    push_caught(text, bad)
}

/// Appends the configuration and the clock of a unit.
fn push_standing(text: &mut String, cfg: &Config, clk: i64) -> Result<(), AllocError>
    ensures { OnOk result (string_bytes text.new
        ≡ string_bytes text.old ++ codes "cfg=" ++ units_text cfg.now ++ codes " clk=" ++ signed_decimal clk) }
{
    text.push_str("cfg=")?;
    push_config(text, cfg)?;
    write!(text, " clk={clk}")
}

/// Appends the words that a unit read and voted.
fn push_words(text: &mut String, ins: &[Word], outs: &[Word]) -> Result<(), AllocError>
    ensures { OnOk result (string_bytes text.new
        ≡ string_bytes text.old ++ codes " in=" ++ words_text ins.now ++ codes " out=" ++ words_text outs.now) }
{
    text.push_str(" in=")?;
    push_list(text, ins)?;
    text.push_str(" out=")?;
    push_list(text, outs)
}

/// Appends the frame, the unit and the state of a unit that tells no account.
fn push_state(text: &mut String, f: u32, u: UnitId, state: &str) -> Result<(), AllocError>
    ensures { OnOk result (string_bytes text.new
        ≡ string_bytes text.old ++ codes "f=" ++ decimal f ++ codes " u=" ++ unit_digit u ∷ codes " " ++ state.now) }
{
    push_head(text, f, u)?;
    text.push_str(state)
}

/// Appends what is told of a whole frame.
fn push_figures(
    text: &mut String,
    f: u32,
    skew: Option<i64>,
    slack: Option<i64>,
    margin: bool,
) -> Result<(), AllocError>
    ensures { OnOk result (string_bytes text.new ≡ string_bytes text.old ++ line_text (Frame f skew slack margin)) }
{
    write!(text, "f={f}")?;
    push_ticks(text, " skew=", skew)?;
    push_ticks(text, " slack=", slack)?;
    push_margin(text, margin)
}

/// Appends the end of a report.
fn push_end(text: &mut String, frames: u32, cfg: &Config, margin: bool) -> Result<(), AllocError>
    ensures { OnOk result (string_bytes text.new ≡ string_bytes text.old ++ line_text (Last frames cfg.now margin)) }
{
    write!(text, "end frames={frames} cfg=")?;
    push_config(text, cfg)?;
    push_margin(text, margin)
}

/// Appends the frame and the unit that a line begins with, and a blank.
pub fn push_head(text: &mut String, f: u32, u: UnitId) -> Result<(), AllocError>
    ensures { OnOk result (string_bytes text.new
        ≡ string_bytes text.old ++ codes "f=" ++ decimal f ++ codes " u=" ++ unit_digit u ∷ codes " ") }
{
    write!(text, "f={f} u=")?;
    push_unit(text, u)?;
    text.push(' ')
}

/// Appends the margin that a line ends with.
fn push_margin(text: &mut String, margin: bool) -> Result<(), AllocError>
    ensures { OnOk result (string_bytes text.new ≡ string_bytes text.old ++ codes " margin=" ++ margin_text margin) }
{
    text.push_str(" margin=")?;
    text.push_str(if margin { "ok" } else { "lost" })
}

/// Appends the units that were caught.
fn push_caught(text: &mut String, bad: &Bad) -> Result<(), AllocError>
    ensures { OnOk result (string_bytes text.new ≡ string_bytes text.old ++ caught_text bad.now) }
{
    match bad {
        Bad::Plain(units) => push_units(text, &members_of(*units)),
        Bad::ByKind(caught) => push_list(text, &catches_in(caught)),
    }
}

/// The members of a set, ascending.
pub fn members_of(units: UnitSet) -> ArrayVec<UnitId, 8>
    ensures { result.items ≡ members units }
{
    let everyone = Config::all(8);
    let mut list = ArrayVec::new();
    for i in 0..everyone.len() {
        let unit = everyone.unit_at(i);
        if units.has(unit) {
            list.push(unit);
        }
    }
    list
}

/// Appends a configuration.
fn push_config(text: &mut String, config: &Config) -> Result<(), AllocError>
    ensures { OnOk result (string_bytes text.new ≡ string_bytes text.old ++ units_text config.now) }
{
    for i in 0..config.len() {
        push_unit(text, config.unit_at(i))?;
    }
    Ok(())
}

/// Appends units, or `-` where there is none.
fn push_units(text: &mut String, units: &[UnitId]) -> Result<(), AllocError>
    ensures { OnOk result (string_bytes text.new ≡ string_bytes text.old ++ units_text units.now) }
{
    if units.is_empty() {
        return text.push('-');
    }
    for unit in units {
        push_unit(text, *unit)?;
    }
    Ok(())
}

/// Appends the digit of a unit.
pub fn push_unit(text: &mut String, u: UnitId) -> Result<(), AllocError>
    ensures { OnOk result (string_bytes text.new ≡ string_bytes text.old ++ unit_digit u ∷ []) }
{
    text.push(char::from(b'0' + u.get()))
}

/// Appends a label, and ticks behind it, or `-` where there is no number of them.
fn push_ticks(text: &mut String, label: &str, ticks: Option<i64>) -> Result<(), AllocError>
    ensures { OnOk result (string_bytes text.new
        ≡ string_bytes text.old ++ label.now ++ text_or_dash signed_decimal ticks) }
{
    text.push_str(label)?;
    match ticks {
        Some(ticks) => write!(text, "{ticks}"),
        None => text.push('-'),
    }
}

impl Item for Word {
    ghost item_text = { word_text };

    fn push(self, text: &mut String) -> Result<(), AllocError> {
        push_word(text, self)
    }
}

/// Appends a word as four hexadecimal digits.
pub fn push_word(text: &mut String, word: Word) -> Result<(), AllocError>
    ensures { OnOk result (string_bytes text.new ≡ string_bytes text.old ++ word_text word) }
{
    let bits = word.get();
    text.push(hex_digit(bits / 4096))?;
    text.push(hex_digit(bits / 256 % 16))?;
    text.push(hex_digit(bits / 16 % 16))?;
    text.push(hex_digit(bits % 16))
}

/// The hexadecimal digit of a value.
fn hex_digit(value: u16) -> char
    requires { value < 16 }
    ensures below { result < 128 }
    ensures digit { result ≡ digit_glyph false value }
{
    let value = value as u8;
    char::from(if value < 10 {
        b'0' + value
    } else {
        b'a' + (value - 10)
    })
}
