//! The names that the texts of the rows use, and the tasks that they are.

ghost use Rattle.std.specs.Prelude.{◌≡◌, IfOk, length, sum};
ghost use Rattle.sift_lang.specs.Sound.{AllNowsBelow, IsSound};
ghost use Rattle.sift_lang.specs.Tree.{tree_of};
ghost use Rattle.sift_parse.specs.Outcome.{AreNames};
ghost use Rattle.sift_parse.specs.Roll.{first_word, roll_of};

use sift_base::Name;
use sift_lang::Task;
use sift_parse::{Names, parse_task};
use std::alloc::Global;
use std::test::Fail;

/// A name of a row.
fn name(text: &str) -> Result<Name, Fail>
    ensures { IfOk result (λ n. n.bytes ≡ text.now) }
{
    match Name::from(text) {
        Ok(name) => Ok(name),
        Err(_) => Err(Fail::new("a name of a row")),
    }
}

/// The sensors `a` and `b`, and the tasks `first` of two words, `this` of eight, whose text it is, and `later` of one.
pub(crate) fn names(alloc: Global) -> Result<Names, Fail>
    ensures names { IfOk result (λ n. AreNames (roll_of n)) }
    ensures sensors { IfOk result (λ n. length (roll_of n).sensors ≡ 2) }
    ensures words { IfOk result (λ n. sum (roll_of n).sizes ≡ 11) }
    ensures made { IfOk result (λ n. first_word (roll_of n) (roll_of n).this ≡ 2) }
{
    Ok(Names {
        sensors: vec![in alloc; name("a")?, name("b")?]?,
        tasks: vec![in alloc;
            (name("first")?, 2),
            (name("this")?, 8),
            (name("later")?, 1),
        ]?,
        this: 1,
    })
}

/// The task that a text is.
pub(crate) fn task_of(alloc: Global, text: &str) -> Result<Task, Fail>
    ensures sound { IfOk result (λ task. IsSound 2 11 (tree_of task)) }
    ensures nows { IfOk result (λ task. AllNowsBelow 2 (tree_of task)) }
{
    let names = names(alloc)?;
    match parse_task(alloc, text, &names) {
        Ok(task) => Ok(task),
        Err(_) => Err(Fail::new("the text of a row is refused")),
    }
}
