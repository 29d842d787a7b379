//! The header of a file.
ghost use Rattle.std.specs.Prelude.{◌≡◌};
ghost use Rattle.cj_kvn.specs.Faults.{Tells};
ghost use Rattle.cj_oem.specs.Readers.{head_of};
ghost use Rattle.cj_oem.specs.Stages as spec;

use cj_formats::OemCause;

/// Which keys the header has given.
#[derive(Clone, Copy)]
pub(crate) struct Head {
    pub(crate) date: bool,
    pub(crate) originator: bool,
    pub(crate) classification: bool,
    pub(crate) message: bool,
}

impl Head {
    pub(crate) const EMPTY: Head = Head {
        date: false,
        originator: false,
        classification: false,
        message: false,
    };

    /// The header with a further key.
    pub(crate) fn with(self, key: &[u8]) -> Result<Head, OemCause>
        ensures { Tells head_of result (spec.with_head_key (head_of self) key.now) }
    {
        if key == b"CREATION_DATE".as_slice() {
            once(self.date, Head { date: true, ..self })
        } else if key == b"ORIGINATOR".as_slice() {
            once(
                self.originator,
                Head {
                    originator: true,
                    ..self
                },
            )
        } else if key == b"CLASSIFICATION".as_slice() {
            once(
                self.classification,
                Head {
                    classification: true,
                    ..self
                },
            )
        } else if key == b"MESSAGE_ID".as_slice() {
            once(
                self.message,
                Head {
                    message: true,
                    ..self
                },
            )
        } else if key == b"CCSDS_OEM_VERS".as_slice() {
            Err(OemCause::Twice)
        } else {
            Err(OemCause::Unknown)
        }
    }
}

/// The header with a key, unless that was given.
fn once(given: bool, head: Head) -> Result<Head, OemCause>
    ensures { Tells head_of result (spec.once given (head_of head)) }
{
    if given {
        Err(OemCause::Twice)
    } else {
        Ok(head)
    }
}
