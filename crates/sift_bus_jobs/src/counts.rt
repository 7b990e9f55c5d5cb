//! What the logs of a flight tell of the faulty bus.

ghost use Rattle.std.specs.Prelude.{◌≡◌, ◌<◌, ◌≤◌, ◌++◌, All, OnOk, length, string_bytes};
ghost use Rattle.std.specs.List.{sum_by};
ghost use Rattle.sift_base.specs.Units.{unit_limit};
ghost use Rattle.sift_bus_port.specs.Buses.{bus_count};
ghost use Rattle.sift_bus_port.specs.Logs.{count_in, log_of};
ghost use Rattle.sift_bus_jobs.specs.Text.{end_line, frame_text, words_text};

use sift_bus_port::BusLog;
use std::alloc::AllocError;

/// Appends what the logs tell of a bus: how many words it got wrong in each frame in which it did,
/// and whether there is such a frame.
pub fn push_words(
    text: &mut String,
    bus: u8,
    frames: u32,
    logs: &[BusLog],
) -> Result<(), AllocError>
    requires bus { bus < bus_count }
    requires few { length logs.now ≤ unit_limit }
    requires frames { All (λ log. (log_of log).ranges.frames ≡ frames) logs.now }
    ensures { OnOk result (string_bytes text.new ≡ string_bytes text.old
        ++ words_text bus frames (λ f. sum_by (λ log. count_in (log_of log) f bus) logs.now)) }
{
    let mut bad = false;
    for f in 0..frames {
        let words = wrong_in(logs, f, bus);
        push_frame(text, bus, f, words)?;
        bad |= words > 0;
    }
    push_end(text, bus, bad)
}

/// How many words of a frame a bus got wrong, by all logs.
fn wrong_in(logs: &[BusLog], f: u32, bus: u8) -> u64
    requires bus { bus < bus_count }
    requires few { length logs.now ≤ unit_limit }
    requires frame { All (λ log. f < (log_of log).ranges.frames) logs.now }
    ensures { result ≡ sum_by (λ log. count_in (log_of log) f bus) logs.now }
{
    let mut words = 0;
    for log in logs {
        words += u64::from(log.count(f, bus));
    }
    words
}

/// Appends the line of a frame in which a bus got so many words wrong, where it got any wrong.
fn push_frame(text: &mut String, bus: u8, f: u32, words: u64) -> Result<(), AllocError>
    ensures { OnOk result (string_bytes text.new ≡ string_bytes text.old ++ frame_text bus f words) }
{
    if words == 0 {
        return Ok(());
    }
    write!(text, "f={f} bus={bus} words={words}\n")
}

/// Appends the last line.
fn push_end(text: &mut String, bus: u8, bad: bool) -> Result<(), AllocError>
    ensures { OnOk result (string_bytes text.new ≡ string_bytes text.old ++ end_line bus bad) }
{
    if bad {
        write!(text, "buses bad={bus}\n")
    } else {
        text.push_str("buses bad=-\n")
    }
}
