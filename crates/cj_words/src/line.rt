//! The parts of a command line.
ghost use Rattle.std.specs.Prelude.{◌≡◌, Some, option_map};
ghost use Rattle.cj_words.specs.Lines as spec;
ghost use Rattle.cj_words.specs.Lines.{plain_line};

use crate::command::Verb;
use crate::front::is_value;
use crate::settings::Word;

/// A command, its directory, and the words behind them, which are to be its options.
#[derive(Clone, Copy)]
pub struct Line<'w> {
    pub verb: Verb,
    pub directory: &'w [u8],
    pub options: &'w [Word],
}

/// The parts of words that begin with a command, and with a directory where the command has one.
pub fn line_of(words: &[Word]) -> Option<Line<'_>>
    ensures { option_map plain_line result ≡ spec.line_of words.now }
{
    let [word, rest @ ..] = words else {
        return None;
    };
    line_behind(verb_of(word.as_slice())?, rest)
}

/// The command that a word names.
pub fn verb_of(word: &[u8]) -> Option<Verb>
    ensures { result ≡ spec.verb_of word.now }
{
    if word == b"screen".as_slice() {
        Some(Verb::Screen)
    } else if word == b"check".as_slice() {
        Some(Verb::Check)
    } else if word == b"generate".as_slice() {
        Some(Verb::Generate)
    } else if word == b"selfrun".as_slice() {
        Some(Verb::Selfrun)
    } else if word == b"rewrite".as_slice() {
        Some(Verb::Rewrite)
    } else if word == b"thin".as_slice() {
        Some(Verb::Thin)
    } else if word == b"rescreen".as_slice() {
        Some(Verb::Rescreen)
    } else {
        None
    }
}

fn line_behind(verb: Verb, words: &[Word]) -> Option<Line<'_>>
    ensures { option_map plain_line result ≡ spec.line_behind (Some verb) words.now }
{
    match verb {
        Verb::Screen | Verb::Check | Verb::Generate | Verb::Rewrite | Verb::Thin | Verb::Rescreen =>
            with_directory(verb, words),
        Verb::Selfrun => Some(Line {
            verb,
            directory: b".",
            options: words,
        }),
    }
}

fn with_directory(verb: Verb, words: &[Word]) -> Option<Line<'_>>
    ensures { option_map plain_line result ≡ spec.with_directory verb words.now }
{
    match words {
        [directory, options @ ..] if is_value(directory.as_slice()) => Some(Line {
            verb,
            directory: directory.as_slice(),
            options,
        }),
        _ => None,
    }
}
