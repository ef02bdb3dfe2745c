//! The words of the command line.

ghost use Rattle.std.specs.Prelude.{◌≡◌, ◌≤◌, true, length, drop, IfSome};
ghost use Rattle.m36_top.specs.Words.{steps_limit, steps_of, with_operand, with_steps, with_user};
ghost use Rattle.m36_top.specs.Words.{with_unaudited, expecting, steps_prefix, user_prefix};
ghost use Rattle.m36_top.specs.Words.{is_steps_with_value, is_user_with_value};
ghost use Rattle.m36_top.specs.Words.{with_option_or_operand, with_word, complete_given};
ghost use Rattle.m36_top.specs.Words.{with_words, nothing_given, command_of};

use crate::command::Command;
use crate::names::{Operand, operand_of};
use crate::table::command_in;
use m36_acl::User;
use m36_outside::Text;
use m36_text::short_decimal_in;

/// The most digits of a number of steps.
const MOST_DIGITS: usize = 8;

/// The greatest number that `--steps` accepts.
const MOST_STEPS: u64 = 10000000;

/// What the next word is read as.
#[derive(Clone, Copy)]
pub enum Expects {
    /// An option or an operand.
    Any,
    /// The value of `--steps`.
    Steps,
    /// The value of `--user`.
    User,
    /// An operand, after `--`.
    Operand,
}

/// The operand and the options that were read so far, after the command word.
#[derive(Drop)]
pub struct Given {
    /// The operand.
    pub operand: Option<Operand>,
    /// The value of `--user`.
    pub user: Option<User>,
    /// The value of `--steps`.
    pub steps: Option<u32>,
    /// What the next word is read as.
    pub expects: Expects,
    /// Whether `--unaudited` is given.
    pub unaudited: bool,
}

/// The value of `--steps`: 1 to 8 decimal digits, at most 10,000,000. None if the text is not of
/// this form.
pub fn steps_of(text: &[u8]) -> Option<u32>
    ensures value { result ≡ steps_of text.now }
    ensures most { IfSome result (λ n. n ≤ steps_limit) }
{
    let steps = short_decimal_in(text, MOST_DIGITS, 0, MOST_STEPS)?;
    Some(steps as u32)
}

// Before the first word: no operand and no option.
fn nothing_given() -> Given
    ensures { result ≡ nothing_given }
{
    Given {
        operand: None,
        user: None,
        steps: None,
        expects: Expects::Any,
        unaudited: false,
    }
}

// The `with_` functions add an operand or an option to what was read so far. None means that it was
// given before, or that the word does not have its form; then the words are no command.

// Adds the operand.
fn with_operand(mut given: Given, word: &[u8]) -> Option<Given>
    ensures { result ≡ with_operand given word.now }
{
    match given.operand {
        Some(_) => None,
        None => {
            given.operand = Some(operand_of(word)?);
            Some(given)
        }
    }
}

// Adds `--steps` with the value `text`.
fn with_steps(mut given: Given, text: &[u8]) -> Option<Given>
    ensures { result ≡ with_steps given text.now }
{
    match given.steps {
        Some(_) => None,
        None => {
            given.steps = Some(steps_of(text)?);
            Some(given)
        }
    }
}

// Adds `--user` with the value `text`.
fn with_user(mut given: Given, text: &[u8]) -> Option<Given>
    ensures { result ≡ with_user given text.now }
{
    match given.user {
        Some(_) => None,
        None => {
            given.user = Some(User::read(text)?);
            Some(given)
        }
    }
}

// Adds `--unaudited`.
fn with_unaudited(mut given: Given) -> Option<Given>
    ensures { result ≡ with_unaudited given }
{
    if given.unaudited {
        return None;
    }
    given.unaudited = true;
    Some(given)
}

// The operand and options so far, with what the next word is read as.
fn expecting(mut given: Given, expects: Expects) -> Given
    ensures { result ≡ expecting given expects }
{
    given.expects = expects;
    given
}

// Whether a word is `--steps=` and a value.
fn is_steps_with_value(word: &[u8]) -> bool
    ensures value { result ≡ is_steps_with_value word.now }
    ensures long { result ≡ true → length steps_prefix ≤ length word.now }
{
    word.len() >= 8 && &word[..8] == b"--steps=".as_slice()
}

// What follows `--steps=`.
#[tactic(auto, using(m36_text::proofs::Splitting::rest_whole))]
fn value_of_steps(word: &[u8]) -> &[u8]
    requires { length steps_prefix ≤ length word.now }
    ensures { result.now ≡ drop (length steps_prefix) word.now }
{
    &word[8..]
}

// Whether a word is `--user=` and a value.
fn is_user_with_value(word: &[u8]) -> bool
    ensures value { result ≡ is_user_with_value word.now }
    ensures long { result ≡ true → length user_prefix ≤ length word.now }
{
    word.len() >= 7 && &word[..7] == b"--user=".as_slice()
}

// What follows `--user=`.
#[tactic(auto, using(m36_text::proofs::Splitting::rest_whole))]
fn value_of_user(word: &[u8]) -> &[u8]
    requires { length user_prefix ≤ length word.now }
    ensures { result.now ≡ drop (length user_prefix) word.now }
{
    &word[7..]
}

// Adds a word where an option or the operand may follow.
fn with_option_or_operand(given: Given, word: &[u8]) -> Option<Given>
    ensures { result ≡ with_option_or_operand given word.now }
{
    if word == b"--".as_slice() {
        return Some(expecting(given, Expects::Operand));
    }
    if word == b"--steps".as_slice() {
        return Some(expecting(given, Expects::Steps));
    }
    if word == b"--user".as_slice() {
        return Some(expecting(given, Expects::User));
    }
    if word == b"--unaudited".as_slice() {
        return with_unaudited(given);
    }
    if is_steps_with_value(word) {
        return with_steps(given, value_of_steps(word));
    }
    if is_user_with_value(word) {
        return with_user(given, value_of_user(word));
    }
    with_operand(given, word)
}

// Adds a word, which is read as what is expected.
#[tactic(auto, unfolding(crate::specs::Words::with_word))]
fn with_word(given: Given, word: &[u8]) -> Option<Given>
    ensures { result ≡ with_word given word.now }
{
    match given.expects {
        Expects::Any => with_option_or_operand(given, word),
        Expects::Steps => with_steps(expecting(given, Expects::Any), word),
        Expects::User => with_user(expecting(given, Expects::Any), word),
        Expects::Operand => with_operand(given, word),
    }
}

// The operand and options at the end of the words; None if the value of an option is missing.
fn complete_given(given: Given) -> Option<Given>
    ensures { result ≡ complete_given given.expects given }
{
    match given.expects {
        Expects::Any | Expects::Operand => Some(given),
        Expects::Steps | Expects::User => None,
    }
}

// Reads the operand and the options from all words after the command word; None if they are no
// command.
#[tactic(auto, using(crate::proofs::WordLaws::words_in_turn))]
fn read_given(words: &[Text]) -> Option<Given>
    ensures { result ≡ with_words nothing_given words.now }
{
    let mut given = nothing_given();
    for word in words {
        given = with_word(given, word.bytes())?;
    }
    complete_given(given)
}

/// The command that the words ask for; None exactly if they are no command.
#[tactic(auto, unfolding(crate::specs::Words::command_of))]
pub fn command_of(words: &[Text]) -> Option<Command>
    ensures { result ≡ command_of words.now }
{
    let [word, rest @ ..] = words else {
        return None;
    };
    let given = read_given(rest)?;
    command_in(word.bytes(), given)
}
