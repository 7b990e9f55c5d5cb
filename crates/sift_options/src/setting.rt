//! The options of a command, as the words after the command give them.

ghost use Rattle.std.specs.Prelude.{ℕ, ◌≡◌, ◌≤◌, ◌<◌, ◌↔◌, ◌∷◌, [], IfNone, IfSome, IsTrue, Some, None, length, map, option_map, string_bytes};
ghost use Rattle.sift_options.specs.Options.{AreOptions, BeginsWithDigit, IsAllowed, IsNumber, IsOneOf, MayBe, allowed_by, given_by, is_sign, is_signed, number_of, settings, value_in, within};
ghost use Rattle.std.specs.List.{after_first, before_first};

// ---- options whose numbers have a range

/// The number of an option, where it is given and in this range.
pub fn within(given: Option<u64>, low: u64, high: u64) -> Option<u64>
    ensures number { result ≡ within low high given }
    ensures from { IfSome result (λ n. low ≤ n) }
    ensures to { IfSome result (λ n. n ≤ high) }
{
    let number = given?;
    if low <= number && number <= high {
        Some(number)
    } else {
        None
    }
}

// ---- options

/// An option that a command may have.
#[derive(Clone, Copy)]
pub struct Flag {
    pub name: &'static str,
    pub numbers: Numbers,
}

/// The numbers that an option may have.
#[derive(Clone, Copy)]
pub enum Numbers {
    /// One digit, from 1 to this.
    Digit(u64),
    /// Any, in 1 to 20 decimal digits, the first of which may be 0.
    Any,
}

/// Words that may be options.
#[derive(Clone, Copy)]
pub struct Options<'a> {
    pub words: &'a [String],
}

impl Options<'_> {
    /// The number of an option, where it is given.
    pub fn number(self, flag: Flag) -> Option<u64>
        ensures { result ≡ given_by self.entry flag.name.now }
    {
        number_of(value_in(self.words, flag.name)?)
    }
}

/// Whether words are options, each one of these and at most once.
pub fn are_options(flags: &[Flag], words: &[String]) -> bool
    ensures { IsTrue result ↔ AreOptions (map allowed_by flags.now) (map string_bytes words.now) }
{
    let Some(Setting { name, value, rest }) = first_setting(words) else {
        return true;
    };
    is_one_of(flags, name, value) && value_in(rest, name).is_none() && are_options(flags, rest)
}

// ---- the options in words

/// An option: its name, the text of its value, and the words behind it.
#[derive(Clone, Copy)]
struct Setting<'a> {
    name: &'a str,
    value: &'a str,
    rest: &'a [String],
}

/// The option with which the words begin, where there are any.
fn first_setting(words: &[String]) -> Option<Setting<'_>>
    ensures first { IfSome result (λ setting. settings (map string_bytes words.now)
        ≡ record { name = setting.name.now; value = setting.value.now } ∷ settings (map string_bytes setting.rest.now)) }
    ensures fewer { IfSome result (λ setting. length setting.rest.now < length words.now) }
    ensures none { IfNone result (settings (map string_bytes words.now) ≡ []) }
{
    let [first, rest @ ..] = words else {
        return None;
    };
    let first = first.as_str();
    if let Some((name, value)) = in_one_word(first) {
        return Some(Setting { name, value, rest });
    }
    match rest {
        [] => Some(Setting {
            name: first,
            value: "",
            rest,
        }),
        [value, rest @ ..] => Some(Setting {
            name: first,
            value: value.as_str(),
            rest,
        }),
    }
}

/// The name and the value in a word that has both.
fn in_one_word(word: &str) -> Option<(&str, &str)>
    ensures both { IfSome result (λ parts. (parts.0.now ≡ before_first is_sign word.now) × (parts.1.now ≡ after_first is_sign word.now)) }
    ensures signed { IfSome result (λ _. IsTrue (is_signed word.now)) }
    ensures none { IfNone result (¬ IsTrue (is_signed word.now)) }
{
    word.split_once('=')
}

/// The text of the value of the first option with this name.
fn value_in<'a>(words: &'a [String], name: &str) -> Option<&'a str>
    ensures { option_map (λ value. value.now) result ≡ value_in (settings (map string_bytes words.now)) name.now }
{
    let setting = first_setting(words)?;
    if setting.name == name {
        Some(setting.value)
    } else {
        value_in(setting.rest, name)
    }
}

/// Whether an option is one of these, with a number that it may have.
fn is_one_of(flags: &[Flag], name: &str, value: &str) -> bool
    ensures { IsTrue result ↔ IsOneOf (map allowed_by flags.now) (record { name = name.now; value = value.now }) }
{
    for flag in flags {
        if is_allowed(*flag, name, value) {
            return true;
        }
    }
    false
}

/// Whether an option is this one, with a number that it may have.
fn is_allowed(flag: Flag, name: &str, value: &str) -> bool
    ensures { IsTrue result ↔ IsAllowed (record { name = name.now; value = value.now }) (allowed_by flag) }
{
    match number_of(value) {
        Some(number) => flag.name == name && may_be(flag.numbers, value, number),
        None => false,
    }
}

/// Whether an option may have this number, with this text.
fn may_be(numbers: Numbers, text: &str, number: u64) -> bool
    ensures { IsTrue result ↔ MayBe numbers text.now number }
{
    match numbers {
        Numbers::Digit(limit) => text.len() == 1 && 1 <= number && number <= limit,
        Numbers::Any => true,
    }
}

/// The number that a text is.
fn number_of(text: &str) -> Option<u64>
    ensures { result ≡ number_of text.now }
{
    digits(text)
}

/// The number whose digits a text is.
fn digits(text: &str) -> Option<u64>
    ensures found { IfSome result (IsNumber text.now) }
    ensures exact { (n : ℕ) → IsNumber text.now n → result ≡ Some n }
{
    if text.len() > 20 || !is_begun(text) {
        return None;
    }
    text.parse().ok()
}

/// Whether a text begins with a digit.
fn is_begun(text: &str) -> bool
    ensures { IsTrue result ↔ BeginsWithDigit text.now }
{
    matches!(text.as_bytes(), [b'0'..=b'9', ..])
}
