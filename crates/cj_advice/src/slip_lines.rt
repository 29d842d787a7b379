//! What is told of words that are not of the grammar.
use crate::near::option_named;
use crate::ranges::range_of;
use crate::slips::{Slip, VERBS, verb_name};
use cj_words::{Opt, Verb, is_known, option_name};
use std::alloc::AllocError;

/// Appends the two lines that tell a slip, the end of the second left out.
pub fn push_slip(text: &mut Vec<u8>, slip: Slip<'_>) -> Result<(), AllocError> {
    text.extend_from_slice(b"hint: ")?;
    match slip {
        Slip::Nothing => {
            text.extend_from_slice(b"a command is wanted")?;
            push_commands(text)
        }
        Slip::NoCommand { word } => {
            push_word(text, word)?;
            text.extend_from_slice(b" is no command")?;
            push_commands(text)
        }
        Slip::NotAlone { word } => push_not_alone(text, word),
        Slip::NoDirectory { verb } => {
            text.extend_from_slice(verb_name(verb).as_bytes())?;
            text.extend_from_slice(
                b" wants a directory behind it, before its options\nhint: as in conj ",
            )?;
            text.extend_from_slice(verb_name(verb).as_bytes())?;
            text.extend_from_slice(b" samples/crossing")
        }
        Slip::NoOption {
            word,
            verb,
            nearest,
        } => push_no_option(text, word, verb, nearest),
        Slip::Stray { word, verb } => push_stray(text, word, verb),
        Slip::NoValue { option } => {
            text.extend_from_slice(option_name(option))?;
            text.extend_from_slice(
                b" lacks its value: one that begins with - is joined by =\nhint: ",
            )?;
            text.extend_from_slice(range_of(option).means.as_bytes())
        }
        Slip::ValueOfFlag { option } => {
            text.extend_from_slice(option_name(option))?;
            text.extend_from_slice(b" has no value\nhint: write it alone")
        }
        Slip::Twice { option } => {
            text.extend_from_slice(option_name(option))?;
            text.extend_from_slice(b" stands twice\nhint: leave one of the two out")
        }
        Slip::NoEnd { option } => {
            text.extend_from_slice(b"rescreen wants ")?;
            text.extend_from_slice(option_name(option))?;
            text.extend_from_slice(b"\nhint: old and new files are screened over one window: ")?;
            text.extend_from_slice(b"give --from and --to")
        }
        Slip::NoReport { option } => {
            text.extend_from_slice(option_name(option))?;
            text.extend_from_slice(b" stands beside --report\nhint: ")?;
            text.extend_from_slice(b"the certificate does not tell which ticks objects cover")
        }
        Slip::NotBeside { option, other } => {
            text.extend_from_slice(option_name(option))?;
            text.extend_from_slice(b" does not stand beside ")?;
            text.extend_from_slice(option_name(other))?;
            text.extend_from_slice(
                b"\nhint: changed pairs alone have no messages and no certificate",
            )
        }
    }
}

fn push_commands(text: &mut Vec<u8>) -> Result<(), AllocError> {
    text.extend_from_slice(
        b"\nhint: screen, rescreen, check, rewrite, generate, selfrun or thin; conj --help",
    )
}

fn push_not_alone(text: &mut Vec<u8>, word: &[u8]) -> Result<(), AllocError> {
    push_word(text, word)?;
    if word == b"--explain".as_slice() {
        text.extend_from_slice(b" stands alone, or before one cause\n")?;
        text.extend_from_slice(b"hint: two words are one in quotes: conj --explain \"Epoch Form\"")
    } else {
        text.extend_from_slice(b" stands alone, or behind a command alone\n")?;
        text.extend_from_slice(b"hint: as in conj --help and conj screen --help")
    }
}

fn push_no_option(
    text: &mut Vec<u8>,
    word: &[u8],
    verb: Verb,
    nearest: Opt,
) -> Result<(), AllocError> {
    push_word(text, word)?;
    text.extend_from_slice(b" is no option of ")?;
    text.extend_from_slice(verb_name(verb).as_bytes())?;
    text.extend_from_slice(b"; nearest: ")?;
    text.extend_from_slice(option_name(nearest))?;
    text.extend_from_slice(b"\nhint: ")?;
    match option_named(word) {
        Some(option) => push_takers(text, option),
        None => {
            text.extend_from_slice(b"conj ")?;
            text.extend_from_slice(verb_name(verb).as_bytes())?;
            text.extend_from_slice(b" --help lists its options")
        }
    }
}

/// Appends which commands take an option.
fn push_takers(text: &mut Vec<u8>, option: Opt) -> Result<(), AllocError> {
    text.extend_from_slice(b"it is an option of")?;
    let mut end: &[u8] = b" ";
    for verb in &VERBS {
        if is_known(option_name(option), *verb) {
            text.extend_from_slice(end)?;
            text.extend_from_slice(verb_name(*verb).as_bytes())?;
            end = b", ";
        }
    }
    Ok(())
}

fn push_stray(text: &mut Vec<u8>, word: &[u8], verb: Verb) -> Result<(), AllocError> {
    push_word(text, word)?;
    text.extend_from_slice(b" stands where an option should, which begins with --\nhint: ")?;
    match verb {
        Verb::Selfrun => text.extend_from_slice(b"selfrun has no directory: it works in memory"),
        Verb::Screen | Verb::Check | Verb::Generate | Verb::Rewrite | Verb::Thin | Verb::Rescreen =>
            { text.extend_from_slice(b"a name or a time with a blank in it is one word in quotes") }
    }
}

/// Appends the front of a word, of which each byte that is not printable is shown as `?`.
fn push_word(text: &mut Vec<u8>, word: &[u8]) -> Result<(), AllocError> {
    for byte in word.iter().take(SHOWN) {
        let shown = if 33 <= *byte && *byte <= 126 {
            *byte
        } else {
            b'?'
        };
        text.push(shown)?;
    }
    if word.len() > SHOWN {
        text.extend_from_slice(b"..")?;
    }
    Ok(())
}

/// How many bytes of a word are shown, so that a line keeps to 78 characters.
const SHOWN: usize = 18;
