//! The missions of the rows, as documents state them, reports of two, which a plain simulator wrote that shares nothing
//! with this program, and the report and votes of a third, which were worked out by hand. Those of five and eight units that read a sensor have two tasks that each put out its word.

ghost use Rattle.std.specs.Prelude.{◌≡◌, IfOk, length};
ghost use Rattle.sift_base.specs.Units.{unit_limit};

use sift_base::NoMemory;
use sift_mission::Mission;
use sift_rogue::Silent;
use sift_scenario::mission_of;
use std::alloc::Global;
use std::test::Fail;

/// Five units and two frames.
pub(crate) const FIVE: &str =
    "units = 5\nframes = 2\nsubframes = 20\nsensor = [{name = 'x', words = [1]}]\n\
    task = [{name = 'a', start = [5], text = 'out 0 = sense x;'}, {name = 'b', start = [7], text = 'out 0 = sense x;'}]\n";

/// Eight units and ten frames. From six units on the tasks run in one subframe, on the first three units and the next
/// three.
const EIGHT: &str =
    "units = 8\nframes = 10\nsubframes = 20\nsensor = [{name = 'x', words = [1, 2, 3]}]\n\
    task = [{name = 'a', start = [5], text = 'out 0 = sense x;'}, {name = 'b', start = [7], text = 'out 0 = sense x;'}]\n\
    table = [{size = 4, run = [4, 6], poll = [6, 8], at = ['0123', '0123']}, \
    {size = 5, run = [4, 6], poll = [6, 8], at = ['01234', '01234']}, \
    {size = 6, run = [4, 4], poll = [7, 9], at = ['012', '345']}, \
    {size = 7, run = [4, 4], poll = [7, 9], at = ['012', '345']}, \
    {size = 8, run = [4, 4], poll = [7, 9], at = ['012', '345']}]\n";

/// A mission of one frame and four units.
pub(crate) const COUNT: &str =
    "units = 4\nframes = 1\n[[task]]\nname = \"count\"\nstart = [5]\nlinear = [3, 1]\n";

/// Its report: each unit votes 3 * 5 + 1.
pub(crate) const COUNT_REPORT: &str = "f=0 u=0 cfg=0123 clk=0 in=- out=0010 bad=-\n\
    f=0 u=1 cfg=0123 clk=0 in=- out=0010 bad=-\n\
    f=0 u=2 cfg=0123 clk=0 in=- out=0010 bad=-\n\
    f=0 u=3 cfg=0123 clk=0 in=- out=0010 bad=-\n\
    f=0 skew=0 slack=1 margin=ok\n\
    end frames=1 cfg=0123 margin=ok\n";

/// Two frames of five units that count. Unit 4 turns stray in frame 0, and its rogue is asked once.
pub(crate) const STORM: &str =
    "units = 5\nframes = 2\ntask = [{name = 'count', start = [5], linear = [3, 1]}]\n\
    fault = [{unit = 4, from = 0, storm = {number = 1, strays = 1}}]\n";

/// Its report, whether a stray is heard or absence: each catches unit 4 by a poll and by its clock, and it is out of the next
/// configuration.
pub(crate) const STORM_REPORT: &str = "f=0 u=0 cfg=01234 clk=0 in=- out=0010 bad=4pc\n\
    f=0 u=1 cfg=01234 clk=0 in=- out=0010 bad=4pc\n\
    f=0 u=2 cfg=01234 clk=0 in=- out=0010 bad=4pc\n\
    f=0 u=3 cfg=01234 clk=0 in=- out=0010 bad=4pc\n\
    f=0 u=4 faulty\n\
    f=0 skew=0 slack=1 margin=ok\n\
    f=1 u=0 cfg=0123 clk=0 in=- out=0031 bad=-\n\
    f=1 u=1 cfg=0123 clk=0 in=- out=0031 bad=-\n\
    f=1 u=2 cfg=0123 clk=0 in=- out=0031 bad=-\n\
    f=1 u=3 cfg=0123 clk=0 in=- out=0031 bad=-\n\
    f=1 u=4 faulty\n\
    f=1 skew=0 slack=1 margin=ok\n\
    end frames=2 cfg=0123 margin=ok\n";

/// The same flight where its rogue is asked five times.
pub(crate) const HEARD: &str =
    "units = 5\nframes = 2\ntask = [{name = 'count', start = [5], linear = [3, 1]}]\n\
    fault = [{unit = 4, from = 0, storm = {number = 1, strays = 5}}]\n";

/// Its report, where the units 0 and 1 hear the word of unit 4 that is due, and the units 2 and 3 another.
pub(crate) const HEARD_REPORT: &str = "f=0 u=0 cfg=01234 clk=0 in=- out=0010 bad=4c\n\
    f=0 u=1 cfg=01234 clk=0 in=- out=0010 bad=4c\n\
    f=0 u=2 cfg=01234 clk=0 in=- out=0010 bad=4pc\n\
    f=0 u=3 cfg=01234 clk=0 in=- out=0010 bad=4pc\n\
    f=0 u=4 faulty\n\
    f=0 skew=0 slack=1 margin=ok\n\
    f=1 u=0 cfg=0123 clk=0 in=- out=0031 bad=-\n\
    f=1 u=1 cfg=0123 clk=0 in=- out=0031 bad=-\n\
    f=1 u=2 cfg=0123 clk=0 in=- out=0031 bad=-\n\
    f=1 u=3 cfg=0123 clk=0 in=- out=0031 bad=-\n\
    f=1 u=4 faulty\n\
    f=1 skew=0 slack=1 margin=ok\n\
    end frames=2 cfg=0123 margin=ok\n";

/// And its votes, where the other word is 7.
pub(crate) const HEARD_VOTES: &str =
    "f=0 u=0 t=count.0 words=0:0010,1:0010,2:0010,3:0010,4:0010 vote=0010\n\
    f=0 u=1 t=count.0 words=0:0010,1:0010,2:0010,3:0010,4:0010 vote=0010\n\
    f=0 u=2 t=count.0 words=0:0010,1:0010,2:0010,3:0010,4:0007 vote=0010\n\
    f=0 u=3 t=count.0 words=0:0010,1:0010,2:0010,3:0010,4:0007 vote=0010\n\
    f=1 u=0 t=count.0 words=0:0031,1:0031,2:0031,3:0031 vote=0031\n\
    f=1 u=1 t=count.0 words=0:0031,1:0031,2:0031,3:0031 vote=0031\n\
    f=1 u=2 t=count.0 words=0:0031,1:0031,2:0031,3:0031 vote=0031\n\
    f=1 u=3 t=count.0 words=0:0031,1:0031,2:0031,3:0031 vote=0031\n\
    end frames=2 cfg=0123 margin=ok\n";

/// Six units with three sensors and four tasks, of which unit 5 turns stray in frame 10.
pub(crate) const STRAY: &str = "units = 6\nframes = 50\n\
    [clock]\nskew = 20\nerror = 2\nrate = 2\nlength = 50\nstart = [0, 5, -5, 10, -10, 3]\ndrift = [1, 0, -1, 2, -2, 0]\n\
    [[sensor]]\nname = \"a\"\nwords = [10, 12, 14]\n\
    [[sensor]]\nname = \"b\"\nwords = [11, 12, 13]\n\
    [[sensor]]\nname = \"c\"\nwords = [50, -3, 14]\n\
    [[task]]\nname = \"pitch\"\nstart = [0]\ntext = \"out 0 = mid(sense a, sense b, sense c);\"\n\
    [[task]]\nname = \"sum\"\nstart = [100]\ntext = \"out 0 = last sum.0 + now pitch.0;\"\n\
    [[task]]\nname = \"elev\"\nstart = [0]\ntext = \"out 0 = now sum.0 / 4 - now pitch.0;\"\n\
    [[task]]\nname = \"trim\"\nstart = [0, 0]\n\
    text = \"let d = last elev.0; if d < 0 { out 0 = 0 - d; } else { out 0 = d; } out 1 = now elev.0 * 2;\"\n\
    [[fault]]\nunit = 5\nfrom = 10\nstorm = {number = 1, strays = 100000}\n";

/// The mission that a document states.
pub(crate) fn stated(alloc: Global, document: &str) -> Result<Mission, Fail> {
    let table = toml::table_from_str(alloc, document)?;
    let mission = mission_of(alloc, &table).ok();
    Ok(mission.ok_or("the document states no mission")?)
}

/// The mission of eight units.
pub(crate) fn eight_units(alloc: Global) -> Result<Mission, Fail>
    ensures { IfOk result (λ mission. mission.units ≡ 8) }
{
    let mission = stated(alloc, EIGHT)?;
    if mission.parts().units != 8 {
        return Err(Fail::new("another mission than the document's"));
    }
    Ok(mission)
}

/// A rogue that rests, for each unit that there may be.
pub(crate) fn silents(alloc: Global) -> Result<Vec<Silent>, NoMemory>
    ensures { IfOk result (λ rogues. length rogues.items ≡ unit_limit) }
{
    let rogues = [
        Silent, Silent, Silent, Silent, Silent, Silent, Silent, Silent,
    ];
    Ok(Vec::from_array(alloc, rogues)?)
}
