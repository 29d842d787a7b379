//! The directories that a command line names.
ghost use Rattle.std.specs.Prelude.{◌≡◌, Option, Some};
ghost use Rattle.cj_words.specs.Places as spec;
ghost use Rattle.cj_words.specs.Places.{plain_places};

use crate::commands::command_in;
use crate::given::value_of;
use crate::line::line_of;
use crate::option::Opt;
use crate::settings::Word;

/// The directories of a command line, lent by its words.
#[derive(Clone, Copy, Debug, PartialEq, Eq)]
pub struct Places<'w> {
    /// The directory of the command: where its files lie, and its results without a directory of their own.
    pub directory: &'w [u8],
    /// The directory in which the certificate lies, where that is not the same: 1 to 1,000 bytes, none below 32 and none 127.
    pub certificates: Option<&'w [u8]>,
    /// The directory that is made for the results, where they have one of their own: 1 to 1,000 such bytes.
    pub results: Option<&'w [u8]>,
}

/// The directories that the words of a command line name, without the program's name.
///
/// The directory is the current one, `.`, where the command has none and where the words begin with no command and its directory. The other
/// two are those of options that stand on a command line which `read_command` accepts. Its command is the same whatever they name: what is
/// asked of files does not depend on where they lie.
pub fn places_of(words: &[Word]) -> Places<'_>
    ensures { plain_places result ≡ spec.places_of words.now }
{
    let Some(line) = line_of(words) else {
        return HERE;
    };
    match command_in(line) {
        Ok(_) => Places {
            directory: line.directory,
            certificates: value_of(line.options, Opt::CertDir),
            results: value_of(line.options, Opt::Out),
        },
        Err(_) => Places {
            directory: line.directory,
            ..HERE
        },
    }
}

/// The current directory, and no other.
const HERE: Places<'static> = Places {
    directory: b".",
    certificates: None,
    results: None,
};
