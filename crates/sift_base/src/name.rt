//! Names of sensors, tasks and locals.

ghost use Rattle.std.specs.Prelude.{◌↔◌, ℕ, IsTrue};
ghost use Rattle.std.specs.List.{Contains};
ghost use Rattle.sift_base.specs.Name.{IsName, HasNameForm, IsNameByte, keywords};

use arrayvec::ArrayString;

/// The name of a sensor, a task or a local.
pub type Name = ArrayString<NAME_LIMIT>;

/// The most bytes of a name.
pub const NAME_LIMIT: usize = 16;

/// Whether the text may name a sensor, a task or a local.
pub fn is_name(text: &str) -> bool
    ensures { IsTrue result ↔ IsName text.now }
{
    has_name_form(text.as_bytes()) && text.len() <= NAME_LIMIT && !is_keyword(text)
}

fn has_name_form(bytes: &[u8]) -> bool
    ensures { IsTrue result ↔ HasNameForm bytes.now }
{
    match bytes {
        [first, rest @ ..] => first.is_ascii_lowercase() && rest.iter().all(|&b| is_name_byte(b)),
        [] => false,
    }
}

/// Whether the byte may follow in a name: a lower-case letter, a digit or `_`.
pub fn is_name_byte(byte: u8) -> bool
    ensures { IsTrue result ↔ IsNameByte byte }
{
    byte.is_ascii_lowercase() || byte.is_ascii_digit() || byte == b'_'
}

fn is_keyword(text: &str) -> bool
    ensures { IsTrue result ↔ Contains keywords text.now }
{
    matches!(
        text,
        "let" | "out" | "if" | "else" | "repeat" | "mid" | "sense" | "now" | "last"
    )
}
