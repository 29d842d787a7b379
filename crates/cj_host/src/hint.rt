use cj_advice::{hint_on_files, hint_text, known_causes_text};
use cj_status::Status;
use cj_words::Word;
use std::io::{IsTerminal, Write};

/// Says behind a fault line what is meant and what helps, where standard error is a terminal: programs read the line alone. The words are those of
/// the command line, none where they could not be read.
pub fn print_hint(rt: &HostRuntime, status: &Status, words: Option<&[Word]>) {
    if status.number() == 0 || !rt.stderr().is_terminal() {
        return;
    }
    if let Ok(text) = hint_text(rt.alloc(), status, words) {
        let _ = rt.stderr().write_all(&text);
    }
}

/// The same behind the fault lines of several files, the first of which is that of the status.
pub fn print_hint_on_files(rt: &HostRuntime, status: &Status) {
    if !rt.stderr().is_terminal() {
        return;
    }
    if let Ok(text) = hint_on_files(rt.alloc(), status) {
        let _ = rt.stderr().write_all(&text);
    }
}

/// Names on standard error the causes that there are, to one who asked for another.
pub fn print_known_causes(rt: &HostRuntime) {
    if let Ok(text) = known_causes_text(rt.alloc()) {
        let _ = rt.stderr().write_all(&text);
    }
}
