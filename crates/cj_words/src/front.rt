//! Options at the front of words.
ghost use Rattle.std.specs.Prelude.{◌≡◌, ◌<◌, [], ◌∷◌, false, Option, Some, None, IfSome, IfNone, length, true, position, ◌==◌};
ghost use Rattle.cj_words.specs.Options as spec;
ghost use Rattle.cj_kvn.specs.Lines.{is_equals};
ghost use Rattle.cj_words.specs.Options.{given_of, in_front, has_equals};
ghost use Rattle.std.specs.List.{before_first, after_first};

use crate::option::{Opt, option_name};
use crate::settings::Word;

/// An option with its value, which is empty for a flag, and the words behind them.
#[derive(Clone, Copy)]
pub struct Front<'w> {
    pub name: &'w [u8],
    pub value: &'w [u8],
    pub rest: &'w [Word],
}

/// The option at the front of the words, where there is one.
pub fn front_of(words: &[Word]) -> Option<Front<'_>>
    ensures some { IfSome result (λ f. given_of words.now ≡ in_front true (record { name = f.name.now; value = f.value.now }) (given_of f.rest.now)) }
    ensures shorter { IfSome result (λ f. length f.rest.now < length words.now) }
    ensures none { IfNone result (given_of words.now ≡ spec.if_empty words.now) }
{
    let [word, rest @ ..] = words else {
        return None;
    };
    let word = word.as_slice();
    if is_flag(word) {
        return Some(Front {
            name: word,
            value: b"",
            rest,
        });
    }
    match split_at_equals(word) {
        Some((name, value)) => alone(name, value, rest),
        None => with_next(word, rest),
    }
}

/// Whether the option has no value.
fn is_flag(name: &[u8]) -> bool
    ensures { result ≡ spec.is_flag name.now }
{
    name == option_name(Opt::AsHermite3)
        || name == option_name(Opt::Changed)
        || name == option_name(Opt::Rtn)
        || name == option_name(Opt::Coverage)
        || name == option_name(Opt::MustCover)
        || name == option_name(Opt::Brief)
        || name == option_name(Opt::Large)
        || is_telling(name)
}

/// Whether it is the name of an option that says what else is told.
pub fn is_telling(name: &[u8]) -> bool
    ensures { result ≡ spec.is_telling_name name.now }
{
    name == option_name(Opt::Warnings) || name == option_name(Opt::AllFaults)
}

fn with_next<'w>(name: &'w [u8], words: &'w [Word]) -> Option<Front<'w>>
    ensures some { IfSome result (λ f. (f.name.now ≡ name.now) × (spec.is_value f.value.now ≡ true) × (words.now ≡ f.value.now ∷ f.rest.now)) }
    ensures none { IfNone result (spec.none_next words.now ≡ true) }
{
    match words {
        [value, rest @ ..] => {
            let value = value.as_slice();
            if is_value(value) {
                Some(Front { name, value, rest })
            } else {
                None
            }
        }
        [] => None,
    }
}

fn alone<'w>(name: &'w [u8], value: &'w [u8], rest: &'w [Word]) -> Option<Front<'w>>
    ensures some { IfSome result (λ f. (f.name.now ≡ name.now) × (f.value.now ≡ value.now) × (f.rest.now ≡ rest.now) × (spec.may_have name.now value.now ≡ true)) }
    ensures none { IfNone result (spec.may_have name.now value.now ≡ false) }
{
    if is_flag(name) || value.is_empty() {
        None
    } else {
        Some(Front { name, value, rest })
    }
}

/// What stands before and behind the first `=` of a word, where there is one.
pub fn split_at_equals(word: &[u8]) -> Option<(&[u8], &[u8])>
    ensures none { IfNone result (has_equals word.now ≡ false) }
    ensures some { IfSome result (λ parts. has_equals word.now ≡ true) }
    ensures parts { IfSome result (λ parts. (parts.0.now ≡ before_first is_equals word.now) × (parts.1.now ≡ after_first is_equals word.now)) }
{
    let at = equals_in(word)?;
    Some((&word[..at], &word[at + 1..]))
}

fn equals_in(word: &[u8]) -> Option<usize>
    ensures { result ≡ position is_equals word.now }
{
    word.iter().position(|b| *b == b'=')
}

/// Whether a word may stand on its own as a directory or as a value.
pub fn is_value(word: &[u8]) -> bool
    ensures { result ≡ spec.is_value word.now }
{
    match word {
        [] => false,
        [first, ..] => *first != b'-',
    }
}
