//! What is wrong with words that are not of the grammar.
ghost use Rattle.std.specs.Prelude.{IfSome};
ghost use Rattle.cj_advice.specs.Options.{IsOwn};

use crate::near::{OPTIONS, nearest_option, option_named};
use cj_words::{
    Opt, Verb, Word, front_of, is_known, line_of, option_name, split_at_equals, verb_of,
};

/// What is wrong with the words of a command line. They lend what it names.
#[derive(Clone, Copy, Debug, PartialEq, Eq)]
pub enum Slip<'w> {
    /// No word stands.
    Nothing,
    /// The first word is no command.
    NoCommand {
        word: &'w [u8],
    },
    /// The word asks for a notice, and stands beside others.
    NotAlone {
        word: &'w [u8],
    },
    /// No directory stands behind the command.
    NoDirectory {
        verb: Verb,
    },
    /// The word is no option of the command, and this one is the nearest that is.
    NoOption {
        word: &'w [u8],
        verb: Verb,
        nearest: Opt,
    },
    /// The word stands where an option should, and does not begin as one.
    Stray {
        word: &'w [u8],
        verb: Verb,
    },
    /// The option lacks its value.
    NoValue {
        option: Opt,
    },
    /// The option has a value, and is a flag.
    ValueOfFlag {
        option: Opt,
    },
    /// The option stands twice.
    Twice {
        option: Opt,
    },
    /// This end of the window is not given, where both have to be.
    NoEnd {
        option: Opt,
    },
    /// The option asks something of a report, and none is named.
    NoReport {
        option: Opt,
    },
    /// The option does not go together with the other one, which stands too.
    NotBeside {
        option: Opt,
        other: Opt,
    },
}

/// Each command once.
pub const VERBS: [Verb; 7] = [
    Verb::Screen,
    Verb::Check,
    Verb::Generate,
    Verb::Selfrun,
    Verb::Rewrite,
    Verb::Thin,
    Verb::Rescreen,
];

/// A command as it stands on the command line.
pub fn verb_name(verb: Verb) -> &'static str {
    match verb {
        Verb::Screen => "screen",
        Verb::Check => "check",
        Verb::Generate => "generate",
        Verb::Selfrun => "selfrun",
        Verb::Rewrite => "rewrite",
        Verb::Thin => "thin",
        Verb::Rescreen => "rescreen",
    }
}

/// What is first found wrong with the words of a command line, none where they are of the grammar.
pub fn slip_in(words: &[Word]) -> Option<Slip<'_>>
    ensures { IfSome result IsOwn }
{
    let [word, ..] = words else {
        return Some(Slip::Nothing);
    };
    let word = word.as_slice();
    let Some(verb) = verb_of(word) else {
        return Some(slip_of_first(word));
    };
    match line_of(words) {
        Some(line) => slip_in_options(line.options, verb),
        None => Some(Slip::NoDirectory { verb }),
    }
}

fn slip_of_first(word: &[u8]) -> Slip<'_>
    ensures { IsOwn result }
{
    if asks_for_notice(word) {
        Slip::NotAlone { word }
    } else {
        Slip::NoCommand { word }
    }
}

/// Whether a word asks for something to be shown in place of a run, where it stands alone.
fn asks_for_notice(word: &[u8]) -> bool {
    NOTICES.iter().any(|notice| *notice == word)
}

const NOTICES: [&[u8]; 4] = [b"--help", b"-h", b"--version", b"--explain"];

fn slip_in_options(words: &[Word], verb: Verb) -> Option<Slip<'_>>
    ensures { IfSome result IsOwn }
{
    let mut rest = words;
    while let Some(front) = front_of(rest) {
        if !is_known(front.name, verb) {
            return Some(slip_of_name(front.name, verb));
        }
        rest = front.rest;
    }
    match rest {
        [word, ..] => Some(slip_of_word(word.as_slice(), verb)),
        [] => match repeated(words) {
            Some(slip) => Some(slip),
            None => slip_of_all(words, verb),
        },
    }
}

/// What is wrong with a name that is of no option of the command.
fn slip_of_name(name: &[u8], verb: Verb) -> Slip<'_>
    ensures { IsOwn result }
{
    match name {
        [b'-', ..] if asks_for_notice(name) => Slip::NotAlone { word: name },
        [b'-', ..] => Slip::NoOption {
            word: name,
            verb,
            nearest: nearest_option(name, verb),
        },
        _ => Slip::Stray { word: name, verb },
    }
}

/// What is wrong with a word that no option begins with.
fn slip_of_word(word: &[u8], verb: Verb) -> Slip<'_>
    ensures { IsOwn result }
{
    let name = name_in(word);
    if !is_known(name, verb) {
        return slip_of_name(name, verb);
    }
    match option_named(name) {
        Some(
            option @ (Opt::AsHermite3
            | Opt::Changed
            | Opt::Rtn
            | Opt::Coverage
            | Opt::MustCover
            | Opt::Brief
            | Opt::Warnings
            | Opt::AllFaults
            | Opt::Large),
        ) => Slip::ValueOfFlag { option },
        Some(option) => Slip::NoValue { option },
        None => Slip::Stray { word, verb },
    }
}

/// What stands before the first `=` of a word, all of it where it has none.
fn name_in(word: &[u8]) -> &[u8] {
    match split_at_equals(word) {
        Some((name, _)) => name,
        None => word,
    }
}

/// The first option that stands twice among options.
fn repeated(words: &[Word]) -> Option<Slip<'_>>
    ensures { IfSome result IsOwn }
{
    for option in &OPTIONS {
        if count_of(words, *option) > 1 {
            return Some(Slip::Twice { option: *option });
        }
    }
    None
}

/// What is wrong with the options of a command together.
fn slip_of_all(words: &[Word], verb: Verb) -> Option<Slip<'_>>
    ensures { IfSome result IsOwn }
{
    match verb {
        Verb::Rescreen => slip_of_rescreening(words),
        Verb::Check => slip_of_checking(words),
        Verb::Screen | Verb::Generate | Verb::Selfrun | Verb::Rewrite | Verb::Thin => None,
    }
}

fn slip_of_checking(words: &[Word]) -> Option<Slip<'_>>
    ensures { IfSome result IsOwn }
{
    let option = Opt::Coverage;
    if count_of(words, option) > 0 && count_of(words, Opt::Report) == 0 {
        return Some(Slip::NoReport { option });
    }
    None
}

fn slip_of_rescreening(words: &[Word]) -> Option<Slip<'_>>
    ensures { IfSome result IsOwn }
{
    for end in &ENDS {
        if count_of(words, *end) == 0 {
            return Some(Slip::NoEnd { option: *end });
        }
    }
    if count_of(words, Opt::Changed) > 0 {
        return shaping(words, Opt::Changed);
    }
    None
}

/// The first option that asks something of messages or of the certificate, which does not go together with the other.
fn shaping(words: &[Word], other: Opt) -> Option<Slip<'_>>
    ensures { IfSome result IsOwn }
{
    for option in &SHAPING {
        if count_of(words, *option) > 0 {
            return Some(Slip::NotBeside {
                option: *option,
                other,
            });
        }
    }
    None
}

/// The ends of the window.
const ENDS: [Opt; 2] = [Opt::From, Opt::To];

/// What asks something of messages or of the certificate.
const SHAPING: [Opt; 4] = [Opt::Originator, Opt::CertVersion, Opt::Rtn, Opt::Brief];

/// How often the option stands.
fn count_of(words: &[Word], option: Opt) -> usize {
    let mut count: usize = 0;
    let mut rest = words;
    while let Some(front) = front_of(rest) {
        if front.name == option_name(option) {
            count = count.saturating_add(1);
        }
        rest = front.rest;
    }
    count
}
