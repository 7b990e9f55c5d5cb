//! What the crate of a command exports.

ghost use Rattle.std.specs.Prelude.{◌≡◌, ◌∷◌, IfNone, IfOk, IfSome, map, string_bytes};
ghost use Rattle.sift_options.specs.Options.{allowed_by, given_by};
ghost use Rattle.sift_reply.specs.Begun.{ComesTo};
ghost use Rattle.sift_row.specs.Row.{Asks, IsKept, duty_of};

use sift_base::NoMemory;
use sift_options::{Flag, Options, are_options};
use sift_reply::{Begun, Work};
use std::alloc::Global;

/// A job that a row of the list of commands is for.
pub trait Command<M, W: Work>: Copy {
    ghost use Rattle.sift_row.specs.Row.{Row};

    /// Its row, by such means.
    ghost row_of: { M → Row Self };

    /// The word of the command.
    fn word() -> &'static str
        ensures { (means : M) → result.now ≡ (row_of means).word };

    /// The options that it may have.
    fn flags() -> &'static [Flag]
        ensures { (means : M) → map allowed_by result.now ≡ (row_of means).flags };

    /// What these options ask for.
    fn of(options: Options<'_>) -> Option<Self>
        ensures { (means : M) → result ≡ (row_of means).job_of (given_by options.entry) };

    /// The most bytes of its input. There is none where it reads nothing.
    fn limit(self) -> Option<u32>
        ensures { (means : M) → result ≡ (duty_of ((row_of means).does self)).limit };

    /// A reply to these bytes, the whole input, or what is left to be done for one. A job that reads nothing is handed none.
    fn begin(self, alloc: Global, means: M, bytes: &[u8]) -> Result<Begun<W>, NoMemory>
        ensures { IfOk result (ComesTo W.gives ((duty_of ((row_of means).does self)).gives bytes.now)) };

    /// Its row is kept.
    fn keeps_its_row()
        ensures { (means : M) → IsKept (row_of means) };
}

/// What words ask of this command.
pub fn asked<M, W: Work, C: Command<M, W>>(words: &[String]) -> Option<C>
    ensures found { (means : M) → IfSome result (Asks (C.row_of means) (map string_bytes words.now)) }
    ensures none { (means : M) → IfNone result ((job : C) → ¬ Asks (C.row_of means) (map string_bytes words.now) job) }
{
    let [word, rest @ ..] = words else {
        return None;
    };
    if word.as_str() != C::word() {
        return None;
    }
    if !are_options(C::flags(), rest) {
        return None;
    }
    C::of(Options { words: rest })
}
