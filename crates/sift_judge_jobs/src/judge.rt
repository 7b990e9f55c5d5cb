//! The command `judge`.

ghost use Rattle.std.specs.Prelude.{◌≡◌, IfOk};
ghost use Rattle.sift_judge_jobs.specs.Judge.{ReportGives, no_line, told};
ghost use Rattle.sift_mission.specs.Parts.{data_of};
ghost use Rattle.sift_judge_jobs.specs.Judged.{RunsAreJudgedYes};

use crate::lines::{Divided, divide, read_lines};
use sift_base::{NoMemory, Stop};
use sift_jobs::{Flier, REPORT, run_is_headlined, version_of};
use sift_judge::{Verdict, judge, lines_have_one_verdict};
use sift_load::{
    MissionJob, begin_for_bytes, bytes_state_one_mission, loading_gives_one,
    loading_has_own_statuses,
};
use sift_mission::Mission;
use sift_options::{Flag, Options};
use sift_reply::{Begun, NoWork, Reply, Work};
use sift_report::{Version, lines_come_apart, sheets_have_their_version};
use sift_row::Command;
use std::alloc::Global;

/// The most bytes of a document, the divider and a report.
const INPUT_LIMIT: u32 = 8_388_608;

/// `judge`: tells whether the report in the input, which is of this version, is one that the
/// mission in the input may have. Nothing is flown.
#[derive(Clone, Copy)]
pub struct JudgeJob {
    pub version: Version,
}

impl<M: Drop, W: Work> Command<M, W> for JudgeJob {
    ghost use Rattle.sift_judge_jobs.specs.Judge.{judge_row};

    ghost row_of = { λ means. judge_row };

    fn word() -> &'static str {
        "judge"
    }

    fn flags() -> &'static [Flag] {
        &[REPORT]
    }

    fn of(options: Options<'_>) -> Option<Self> {
        Some(JudgeJob {
            version: version_of(options),
        })
    }

    fn limit(self) -> Option<u32> {
        Some(INPUT_LIMIT)
    }

    fn begin(self, alloc: Global, means: M, bytes: &[u8]) -> Result<Begun<W>, NoMemory> {
        let version = self.version;
        match divide(bytes) {
            Some(Divided { document, report }) => {
                begin_for_bytes(alloc, means, ReportJob { report, version }, document)
            }
            None => Ok(Begun::Replied(no_line(alloc, 0)?)),
        }
    }

    fn keeps_its_row() {
        loading_has_own_statuses::<(), NoWork, ReportJob<'static>>();
        loading_gives_one::<(), NoWork, ReportJob<'static>>();
        lines_have_one_verdict();
    }
}

/// A report of this version, to be judged for the mission that a document states.
#[derive(Clone, Copy)]
pub struct ReportJob<'a> {
    report: &'a [u8],
    version: Version,
}

impl<M: Drop, W: Work> MissionJob<M, W> for ReportJob<'_> {
    ghost use Rattle.sift_judge_jobs.specs.Judge.{ReportGives};

    ghost gives_for = { λ means job. ReportGives job.version job.report.now };

    fn begin_for(self, alloc: Global, _means: M, mission: Mission) -> Result<Begun<W>, NoMemory> {
        Ok(Begun::Replied(self.reply_for(alloc, &mission)?))
    }
}

impl ReportJob<'_> {
    /// The reply for a mission: the verdict, or the first line that is none.
    fn reply_for(self, alloc: Global, mission: &Mission) -> Result<Reply, NoMemory>
        ensures { IfOk result (ReportGives self.entry.version self.entry.report.now (data_of mission.now)) }
    {
        match read_lines(alloc, self.report, self.version) {
            Ok(lines) => told(alloc, judge(mission, &lines)),
            Err(Stop::Refused(number)) => no_line(alloc, number),
            Err(Stop::NoMemory) => Err(NoMemory),
        }
    }
}

/// The reply that tells a verdict.
fn told(alloc: Global, verdict: Verdict) -> Result<Reply, NoMemory>
    ensures { IfOk result (λ reply. reply ≡ told verdict) }
{
    match verdict {
        Verdict::Yes => Ok(Reply::fixed(0, "yes\n")),
        Verdict::No { frame, rule } => {
            let mut line = String::new(alloc);
            write!(line, "no frame {frame} rule {rule}\n")?;
            Ok(Reply::made(13, line))
        }
    }
}

/// The reply where this line of a report is the first that is none, or, where it is 0, where no
/// line divides the input.
fn no_line(alloc: Global, number: usize) -> Result<Reply, NoMemory>
    ensures { IfOk result (λ reply. reply ≡ no_line number) }
{
    let mut line = String::new(alloc);
    write!(line, "report line {number}\n")?;
    Ok(Reply::made(12, line))
}

// ---- laws

/// The report that `run` gives to a document is judged yes behind that document and the line that
/// divides, in the same version: the lines that are read from it are those of the flight's sheet,
/// which have the headline.
pub fn runs_are_judged_yes<F: Flier>()
    ensures { (flier : F) → RunsAreJudgedYes (F.flying flier) }
{
    run_is_headlined::<F>();
    sheets_have_their_version();
    lines_come_apart();
    bytes_state_one_mission();
    lines_have_one_verdict();
}
