//! The words of a text.

ghost use Rattle.std.specs.Prelude.{◌≡◌, ◌<◌, ◌∷◌, IfOk, length, map, string_bytes};
ghost use Rattle.sift_call.specs.Words.{lines, words_in};

use sift_base::NoMemory;
use std::alloc::Global;

/// The words of a text, one a line. Bytes that aren't UTF-8 have none, as words of a command line that aren't.
pub fn words_of(alloc: Global, text: &[u8]) -> Result<Vec<String>, NoMemory>
    ensures { IfOk result (λ words. map string_bytes words.items ≡ words_in text.now) }
{
    match std::str::from_utf8(text) {
        Ok(text) => lines_of(alloc, text),
        Err(_) => Ok(Vec::new(alloc)),
    }
}

/// The lines of a text.
fn lines_of(alloc: Global, text: &str) -> Result<Vec<String>, NoMemory>
    ensures { IfOk result (λ found. map string_bytes found.items ≡ lines text.now) }
{
    let mut found = Vec::new(alloc);
    let mut rest = text;
    while !rest.is_empty() {
        let (line, after) = first_line(rest);
        found.push(String::from_str(alloc, line)?)?;
        rest = after;
    }
    Ok(found)
}

/// The first line of a text that isn't empty, and what follows it.
fn first_line(text: &str) -> (&str, &str)
    requires { 0 < length text.now }
    ensures first { lines text.now ≡ result.0.now ∷ lines result.1.now }
    ensures shorter { length result.1.now < length text.now }
{
    match text.split_once('\n') {
        Some(cut) => cut,
        None => (text, ""),
    }
}
