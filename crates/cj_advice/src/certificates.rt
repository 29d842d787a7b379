//! Causes of certificates and of the reports beside them.
use crate::advice::Advice;
use cj_formats::{CertCause, CheckCause};
use cj_status::CertificateCause;

pub fn advice_on(cause: CertificateCause) -> Advice {
    match cause {
        CertificateCause::NoFile => NO_FILE,
        CertificateCause::Text(cause) => advice_on_text(cause),
        CertificateCause::Refused(cause) => advice_on_check(cause),
        CertificateCause::NoReport => NO_REPORT,
        CertificateCause::Report => REPORT,
    }
}

fn advice_on_text(cause: CertCause) -> Advice {
    match cause {
        CertCause::Form => TEXT_FORM,
        CertCause::Range => TEXT_RANGE,
        CertCause::End => TEXT_END,
    }
}

fn advice_on_check(cause: CheckCause) -> Advice {
    match cause {
        CheckCause::Header => HEADER,
        CheckCause::SizeOf => SIZE_OF,
        CheckCause::PrimaryOf => PRIMARY_OF,
        CheckCause::ShellOf => SHELL_OF,
        CheckCause::BoxOf => BOX_OF,
        CheckCause::Untiled => UNTILED,
        CheckCause::Stranger => STRANGER,
        CheckCause::NotFar => NOT_FAR,
        CheckCause::NotNear => NOT_NEAR,
        CheckCause::NotBand => NOT_BAND,
    }
}

const NO_FILE: Advice = Advice {
    means: "no file has the certificate's name",
    helps: "name it by --cert, and its folder by --cert-dir where it is not DIR",
    more: "\
Without --cert the name is screen.cert. A run with --out has put it into that
folder: --cert-dir names the folder then.
",
    wrong: "conj check samples/resting --cert other.cert\n",
    right: "conj check samples/resting --cert screen.cert\n",
};

pub const TEXT_FORM: Advice = Advice {
    means: "no line of a certificate may stand here so",
    helps: "take the certificate anew from who made it: it is not as written",
    more: "\
docs/FORMATS.md has the lines of a certificate and their order. What the
program writes is of this form. A file that is not was changed, or is none.
One that a run wrote with --brief is read with --brief.
",
    wrong: "CELL 1 2 1735689600000000 1735689659999999 X\n",
    right: "CELL 1 2 1735689600000000 1735689659999999 N\n",
};

const TEXT_RANGE: Advice = Advice {
    means: "a number in the certificate is out of its range",
    helps: "take the certificate anew from who made it: it is not as written",
    more: "\
docs/FORMATS.md has the range of each number. Times are microseconds since
1970 and lie in the years from 1972 to 2099. The first of two bounds is not
above the second.
",
    wrong: "SHELL 1 7000000000000001 7000000000000000\n",
    right: "SHELL 1 7000000000000000 7000000000000000\n",
};

const TEXT_END: Advice = Advice {
    means: "the certificate ends too early or goes on behind END",
    helps: "copy it anew: it may have been cut off, or two put into one",
    more: "\
END is the last line, with its line feed, and nothing stands behind it.
",
    wrong: "CELL 1 2 1735689660000000 1735689660000000 N\n",
    right: "\
CELL 1 2 1735689660000000 1735689660000000 N
END
",
};

pub const HEADER: Advice = Advice {
    means: "window, threshold or number of objects differ",
    helps: "repeat the options of the run; line 2, 3 or 4 tells which one differs",
    more: "\
A check asks for the certificate of one case: these files, this window, this
threshold. Line 2 is the window: --from and --to have to be those of the run.
Line 3 is the threshold in nanometres: --threshold. Line 4 is the number of
objects: the folder has other files than it had, or --suffix is another one.
The report's lines WINDOW and THRESHOLD tell what the run was asked.
",
    wrong: "THRESHOLD 4999000000000\n",
    right: "THRESHOLD 5000000000000\n",
};

const SIZE_OF: Advice = Advice {
    means: "an object's size is not that of the run",
    helps: "give --sizes as the run had it, and the same file of sizes",
    more: "\
A certificate of version 2, or in brief, tells the size of each object in
nanometres, 0 where the run had no --sizes. The report tells them in its lines
SIZE.
",
    wrong: "SIZE 1 1500000000\n",
    right: "SIZE 1 0\n",
};

const PRIMARY_OF: Advice = Advice {
    means: "the primaries are not those of the run",
    helps: "give --primaries as the run had it, and the same file of primaries",
    more: "\
A certificate in brief tells the number of each object that --primaries names.
The report tells them by lines PRIMARY.
",
    wrong: "PRIMARY 2\n",
    right: "PRIMARY 1\n",
};

const SHELL_OF: Advice = Advice {
    means: "a shell does not hold its object, or is another's",
    helps: "the ephemerides are not those of the run, or the line was changed",
    more: "\
A line SHELL tells between which distances from the Earth's center an object
stays in the window. It is decided anew from the ephemerides. Compare the
files with those of the run: their number and order count too.
",
    wrong: "SHELL 1 7000000000000001 7000000000000001\n",
    right: "SHELL 1 7000000000000000 7000000000000000\n",
};

const BOX_OF: Advice = Advice {
    means: "a box does not hold its object, or is not the next",
    helps: "the ephemerides are not those of the run, or the line was changed",
    more: "\
A line BOX tells in which box an object stays in a minute of the window. Each
object has one for each minute in which it has data, in order of time. They
are decided anew from the ephemerides.
",
    wrong: "BOX 1 0 7000000000000001 7000000000000001 0 0 0 0\n",
    right: "BOX 1 0 7000000000000000 7000000000000000 0 0 0 0\n",
};

const UNTILED: Advice = Advice {
    means: "for some time of a pair the certificate has no cell",
    helps: "other files or options than the run's, or a line that was left out",
    more: "\
Where shells and boxes do not tell two objects apart, cells have to say of
each microsecond whether they are near; in brief they may be left out where
the tracks show by themselves that the objects are far. The line that is told
comes too early: a cell before it is missing or ends too soon.
",
    wrong: "\
CELL 1 2 1735689600000000 1735689659999998 N
CELL 1 2 1735689660000000 1735689660000000 N
",
    right: "\
CELL 1 2 1735689600000000 1735689659999999 N
CELL 1 2 1735689660000000 1735689660000000 N
",
};

const STRANGER: Advice = Advice {
    means: "a cell stands that should not stand here",
    helps: "other files or options than the run's, or a line that was added",
    more: "\
A cell is one of a pair and minute that shells and boxes do not tell apart,
and begins where the one before has ended. This one is of another pair or
time, or stands twice.
",
    wrong: "\
CELL 1 2 1735689660000000 1735689660000000 N
CELL 1 2 1735689660000000 1735689660000000 N
",
    right: "CELL 1 2 1735689660000000 1735689660000000 N\n",
};

const NOT_FAR: Advice = Advice {
    means: "a cell says far, and the tracks do not show that",
    helps: "take its claim as not shown: the two may come within the threshold",
    more: "\
A cell of kind F says that two objects are further apart than the threshold
from its first to its last microsecond. The hulls of the two tracks there do
not show it. A certificate that the program wrote for these files is not
refused so: the files are others, or the line was changed.
",
    wrong: "CELL 1 2 1735689600000000 1735689659999999 F\n",
    right: "CELL 1 2 1735689600000000 1735689659999999 N\n",
};

const NOT_NEAR: Advice = Advice {
    means: "a cell says near, and the tracks do not show that",
    helps: "take its claim as not shown: the two may stay apart",
    more: "\
A cell of kind N says that two objects are within the threshold from its first
to its last microsecond. The hulls of the two tracks there do not show it. A
certificate that the program wrote for these files is not refused so: the
files are others, or the line was changed.
",
    wrong: "CELL 1 2 1735689629400000 1735689629400000 N\n",
    right: "CELL 1 2 1735689629400000 1735689629400000 F\n",
};

const NOT_BAND: Advice = Advice {
    means: "a cell says undecided, and the tracks do not show it",
    helps: "take its claim as not shown: the two may be near or apart there",
    more: "\
A cell of kind U says that the distance of two objects is within a millimetre
of the threshold from its first to its last microsecond. The hulls of the two
tracks there do not show it. A certificate that the program wrote for these
files is not refused so: the files are others, or the line was changed.
",
    wrong: "CELL 1 2 1735689630000000 1735689630000000 U\n",
    right: "CELL 1 2 1735689630000000 1735689630000000 N\n",
};

const NO_REPORT: Advice = Advice {
    means: "no file has the name that --report gives",
    helps: "the report lies where the certificate does: DIR or --cert-dir",
    more: "\
--report takes a name and no path. Without it no report is checked.
",
    wrong: "conj check samples/resting --report other.report\n",
    right: "conj check samples/resting --report screen.report\n",
};

const REPORT: Advice = Advice {
    means: "the report is not that of the certificate's cells",
    helps: "the line told is the first that differs, is missing, or is too much",
    more: "\
The certificate is accepted, so that its cells are true. The report that they
make is written anew and compared byte by byte. A report of another run, of
other sizes or options, or one that was changed is told so, even by one digit.
",
    wrong: "SPAN NEAR 2025-01-01T00:00:29.538121 2025-01-01T00:00:30.461880\n",
    right: "SPAN NEAR 2025-01-01T00:00:29.538120 2025-01-01T00:00:30.461880\n",
};
