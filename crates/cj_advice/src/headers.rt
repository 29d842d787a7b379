//! Which line of a certificate's head is not that of the case, or not of the form.
use crate::certificates::{HEADER, TEXT_FORM};
use crate::hint::Hint;

/// What is meant by a head that is refused at this line.
pub fn hint_on_header(line: u32) -> Hint {
    match line {
        2 => Hint {
            means: "the window is not that of the certificate",
            helps: "give --from and --to as the run had them: see WINDOW of its report",
        },
        3 => Hint {
            means: "the threshold is not that of the certificate",
            helps: "give --threshold as the run had it: see THRESHOLD of its report, in nm",
        },
        4 => Hint {
            means: "the number of objects is not that of the certificate",
            helps: "the folder has other files than it had, or --suffix or --sizes differs",
        },
        _ => HEADER.hint(),
    }
}

/// What is meant by a line that is not of the form, where it is this one: the first tells the version.
pub fn hint_on_form(line: u32) -> Hint {
    match line {
        1 => Hint {
            means: "the certificate is of no version that is read here",
            helps: "give --brief where the run had it, else take the certificate anew",
        },
        _ => TEXT_FORM.hint(),
    }
}
