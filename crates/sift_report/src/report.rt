//! The report of a flight: its lines, as values, and its text.

ghost use Rattle.std.specs.Prelude.{◌≡◌, ◌<◌, ◌++◌, IfOk, OnOk, string_bytes, ◌-◌, true};
ghost use Rattle.std.specs.List.{All};
ghost use Rattle.sift_base.specs.Units.{has};
ghost use Rattle.sift_conduct.specs.Conduct.{account_of};
ghost use Rattle.sift_mission.specs.Parts.{flown_of};
ghost use Rattle.sift_flight.specs.Figures.{margin_at};
ghost use Rattle.sift_flight.specs.Told.{IsWhole, told};
ghost use Rattle.sift_line.specs.Line.{IsLine, printed, text_of_lines};
ghost use Rattle.sift_line.specs.Bad.{bad_in};
ghost use Rattle.sift_line.specs.declared.line.ReportLine.TheVariants.{Unit as unit};
ghost use Rattle.sift_report.specs.Sheet.{end_of, frame_lines, sheet_of, frame_line, last_line, unit_line};

use arrayvec::ArrayVec;
use sift_base::{NoMemory, UnitId};
use sift_conduct::Account;
use sift_flight::{Flight, account_at, config_at, is_sound_at, margin_at, skew_at, slack_at};
use sift_line::{Bad, ReportLine, Version, push_line};
use sift_mission::Mission;
use std::alloc::{AllocError, Global};

/// The report of a whole flight, in this version. Each of its lines reads back.
pub fn report_text(
    alloc: Global,
    mission: &Mission,
    flight: &Flight,
    version: Version,
) -> Result<String, NoMemory>
    requires { IsWhole (flown_of mission.now) mission.now.layout flight.now }
    ensures text { IfOk result (λ text. string_bytes text
        ≡ text_of_lines (sheet_of (flown_of mission.now) (told (flown_of mission.now) flight.now) version)) }
    ensures lines { IfOk result (λ _. All IsLine
        (sheet_of (flown_of mission.now) (told (flown_of mission.now) flight.now) version)) }
{
    let mut text = String::new(alloc);
    let mut margin = true;
    for f in 0..mission.parts().frames {
        margin = margin && is_sound_at(mission, flight, f);
        push_frame(&mut text, mission, flight, version, f, margin)?;
    }
    push_one(&mut text, &last_line(mission, flight, margin))?;
    Ok(text)
}

/// Appends one line, which holds its fields.
fn push_one(text: &mut String, line: &ReportLine) -> Result<(), AllocError>
    ensures text { OnOk result (string_bytes text.new ≡ string_bytes text.old ++ printed line.now) }
    ensures line { IsLine line.now }
{
    line.holds_its_fields();
    push_line(text, line)
}

/// Appends the lines of a frame that has this margin.
fn push_frame(
    text: &mut String,
    mission: &Mission,
    flight: &Flight,
    version: Version,
    f: u32,
    margin: bool,
) -> Result<(), AllocError>
    requires whole { IsWhole (flown_of mission.now) mission.now.layout flight.now }
    requires frame { f < (flown_of mission.now).frames }
    requires margin { margin ≡ margin_at (flown_of mission.now) (told (flown_of mission.now) flight.now) f }
    ensures text { OnOk result (string_bytes text.new ≡ string_bytes text.old
        ++ text_of_lines (frame_lines (flown_of mission.now) (told (flown_of mission.now) flight.now) version f)) }
    ensures lines { OnOk result (All IsLine (frame_lines (flown_of mission.now) (told (flown_of mission.now) flight.now) version f)) }
{
    let everyone = mission.everyone();
    for i in 0..everyone.len() {
        push_one(
            text,
            &unit_line(mission, flight, version, f, everyone.unit_at(i)),
        )?;
    }
    push_one(text, &frame_line(mission, flight, f, margin))
}

/// The last line of a whole flight's report, with its line feed.
pub fn last_line_text(alloc: Global, mission: &Mission, flight: &Flight) -> Result<String, NoMemory>
    requires { IsWhole (flown_of mission.now) mission.now.layout flight.now }
    ensures { IfOk result (λ text. string_bytes text
        ≡ end_of (flown_of mission.now) (told (flown_of mission.now) flight.now)) }
{
    let mut text = String::new(alloc);
    push_end(&mut text, mission, flight)?;
    Ok(text)
}

/// Appends the last line of a whole flight's report, with its line feed.
pub fn push_end(text: &mut String, mission: &Mission, flight: &Flight) -> Result<(), AllocError>
    requires { IsWhole (flown_of mission.now) mission.now.layout flight.now }
    ensures { OnOk result (string_bytes text.new ≡ string_bytes text.old
        ++ end_of (flown_of mission.now) (told (flown_of mission.now) flight.now)) }
{
    let margin = margin_at(mission, flight, mission.parts().frames - 1);
    push_line(text, &last_line(mission, flight, margin))?;
    Ok(())
}

/// The line of a unit in a frame, as a report of this version tells it.
pub fn unit_line(
    mission: &Mission,
    flight: &Flight,
    version: Version,
    f: u32,
    u: UnitId,
) -> ReportLine
    requires whole { IsWhole (flown_of mission.now) mission.now.layout flight.now }
    requires unit { has (flown_of mission.now).units u ≡ true }
    requires frame { f < (flown_of mission.now).frames }
    ensures { result ≡ unit_line (flown_of mission.now) (told (flown_of mission.now) flight.now) version f u }
{
    if !mission.works(u, f) {
        return ReportLine::Faulty { f, u };
    }
    let account = account_at(mission, flight, u, f);
    if !account.cfg.has(u) {
        return ReportLine::Idle { f, u };
    }
    account_line(version, f, u, account)
}

/// What a working unit of its own configuration tells of a frame, from its account.
fn account_line(version: Version, f: u32, u: UnitId, account: &Account) -> ReportLine
    ensures { result ≡ unit f u (account_of account.now).cfg (account_of account.now).clk (record { items = (account_of account.now).ins })
        (record { items = (account_of account.now).outs }) (bad_in version (account_of account.now).bad) }
{
    ReportLine::Unit {
        f,
        u,
        cfg: account.cfg,
        clk: account.clk,
        ins: ArrayVec::try_from(account.ins.as_slice()).unwrap(),
        outs: ArrayVec::try_from(account.outs.as_slice()).unwrap(),
        bad: Bad::of(version, account.bad),
    }
}

/// What is told of a whole frame that has this margin.
pub fn frame_line(mission: &Mission, flight: &Flight, f: u32, margin: bool) -> ReportLine
    requires whole { IsWhole (flown_of mission.now) mission.now.layout flight.now }
    requires frame { f < (flown_of mission.now).frames }
    requires margin { margin ≡ margin_at (flown_of mission.now) (told (flown_of mission.now) flight.now) f }
    ensures { result ≡ frame_line (flown_of mission.now) (told (flown_of mission.now) flight.now) f }
{
    ReportLine::Frame {
        f,
        skew: skew_at(mission, flight, f),
        slack: slack_at(mission, flight, f),
        margin,
    }
}

/// The last line, where the last frame has this margin.
pub fn last_line(mission: &Mission, flight: &Flight, margin: bool) -> ReportLine
    requires whole { IsWhole (flown_of mission.now) mission.now.layout flight.now }
    requires margin { margin ≡ margin_at (flown_of mission.now) (told (flown_of mission.now) flight.now) ((flown_of mission.now).frames - 1) }
    ensures { result ≡ last_line (flown_of mission.now) (told (flown_of mission.now) flight.now) }
{
    let frames = mission.frames();
    ReportLine::Last {
        frames,
        cfg: config_at(mission, flight, frames),
        margin,
    }
}
