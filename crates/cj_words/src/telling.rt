//! What a command line asks to be told beside how the run ends.
ghost use Rattle.std.specs.Prelude.{◌≡◌};
ghost use Rattle.cj_words.specs.Telling as spec;

use crate::commands::command_in;
use crate::given::is_given;
use crate::line::line_of;
use crate::option::Opt;
use crate::settings::Word;

/// What is to be told beside how a run ends. What is found and put does not depend on it.
#[derive(Clone, Copy, Debug, PartialEq, Eq)]
pub struct Telling {
    /// What a person may not have meant, wherever standard error goes.
    pub warnings: bool,
    /// The first fault of each file that is refused, and not that of the first such file alone.
    pub all_faults: bool,
}

/// What the words of a command line, without the program's name, ask to be told. Words that `read_command` does not accept ask for nothing.
pub fn telling_of(words: &[Word]) -> Telling
    ensures { result ≡ spec.telling_of words.now }
{
    let Some(line) = line_of(words) else {
        return NOTHING;
    };
    match command_in(line) {
        Ok(_) => Telling {
            warnings: is_given(line.options, Opt::Warnings),
            all_faults: is_given(line.options, Opt::AllFaults),
        },
        Err(_) => NOTHING,
    }
}

/// Nothing more than how the run ends.
const NOTHING: Telling = Telling {
    warnings: false,
    all_faults: false,
};
