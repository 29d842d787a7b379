//! What the values of options may be.
use crate::hint::Hint;
use cj_words::Opt;

/// What the value of an option may be, and what stands for one that is left out.
pub fn range_of(option: Opt) -> Hint {
    match option {
        Opt::Threshold => Hint {
            means: "--threshold is a whole number of metres from 1 to 1000000",
            helps: "left out it is 5000",
        },
        Opt::Workers => Hint {
            means: "--workers is a whole number from 1 to 16",
            helps: "left out it is 1",
        },
        Opt::From => Hint {
            means: "--from is a time from 1972 to 2099, as 2025-01-01T00:00:00, in UTC",
            helps: "left out it is where the first ephemeris begins to be useable",
        },
        Opt::To => Hint {
            means: "--to is such a time as 2025-01-01T00:00:00, and not before --from",
            helps: "left out it is where the last ephemeris ends to be useable",
        },
        Opt::Suffix => Hint {
            means: "--suffix is 1 to 20 bytes of printable ASCII, no blank and no /",
            helps: "left out it is .oem",
        },
        Opt::Cert => Hint {
            means: "--cert is a name of 1 to 200 bytes: printable ASCII, no blank, no /",
            helps: "left out it is screen.cert; --cert-dir names the folder of both",
        },
        Opt::Originator => Hint {
            means: "--originator is 1 to 40 letters, digits, _ and -",
            helps: "left out it is CONJ",
        },
        Opt::Cells => Hint {
            means: "--cells is a whole number from 1 to 4000000, 400000000 with --large",
            helps: "left out it is the greatest of them",
        },
        Opt::Seed => Hint {
            means: "--seed is a whole number from 0 to 18446744073709551615",
            helps: "left out it is 1",
        },
        Opt::Objects => Hint {
            means: "--objects is a whole number from 1 to 2000",
            helps: "left out it is 50",
        },
        Opt::Minutes => Hint {
            means: "--minutes is a whole number from 1 to 1440",
            helps: "left out it is 120",
        },
        Opt::AsHermite3 => Hint {
            means: "--as-hermite3 has no value",
            helps: "left out each file has to declare HERMITE of degree 3",
        },
        Opt::Sizes => Hint {
            means: "--sizes is a name of 1 to 200 bytes: printable ASCII, no blank, no /",
            helps: "left out all objects are points; the file has to lie in DIR",
        },
        Opt::Primaries => Hint {
            means: "--primaries is a name of 1 to 200 bytes: printable ASCII, no blank, no /",
            helps: "left out all pairs are looked at; the file has to lie in DIR",
        },
        Opt::CertVersion => Hint {
            means: "--cert-version is 1 or 2, not beside --brief, --large, --primaries",
            helps: "left out it is 1",
        },
        Opt::Update => Hint {
            means: "--update is 1 to 20 bytes: printable ASCII, no blank, no /; not --suffix",
            helps: "left out rescreen takes .new, and check and rewrite take no update",
        },
        Opt::Changed => Hint {
            means: "--changed has no value",
            helps: "left out all pairs are told",
        },
        Opt::Report => Hint {
            means: "--report is a name of 1 to 200 bytes: printable ASCII, no blank, no /",
            helps: "left out no report is checked; --cert-dir names its folder",
        },
        Opt::Out => Hint {
            means: "--out is a path of 1 to 1000 bytes without control characters",
            helps: "left out the results go into DIR",
        },
        Opt::CertDir => Hint {
            means: "--cert-dir is a path of 1 to 1000 bytes without control characters",
            helps: "left out certificate and report lie in DIR",
        },
        Opt::Rtn => Hint {
            means: "--rtn has no value",
            helps: "left out messages do not tell the relative state",
        },
        Opt::Coverage => Hint {
            means: "--coverage has no value",
            helps: "left out the report does not tell which ticks objects cover",
        },
        Opt::MustCover => Hint {
            means: "--must-cover has no value",
            helps: "left out objects need not cover the window",
        },
        Opt::Brief => Hint {
            means: "--brief has no value",
            helps: "left out certificates are written and read in full",
        },
        Opt::Within => Hint {
            means: "--within is a whole number of metres from 1 to 1000",
            helps: "left out it is 1",
        },
        Opt::Warnings => Hint {
            means: "--warnings has no value",
            helps: "left out warnings are told at a terminal alone",
        },
        Opt::AllFaults => Hint {
            means: "--all-faults has no value",
            helps: "left out a run ends with the first file that is refused",
        },
        Opt::Large => Hint {
            means: "--large has no value",
            helps: "left out a run takes at most 2000 objects and 2000000 states",
        },
    }
}
