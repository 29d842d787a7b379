//! What is beyond a limit.
use crate::advice::Advice;
use crate::cause::LimitCause;

pub fn advice_on(limit: LimitCause) -> Advice {
    match limit {
        LimitCause::Objects => OBJECTS,
        LimitCause::FileBytes => FILE_BYTES,
        LimitCause::Nodes => NODES,
        LimitCause::Window => WINDOW,
        LimitCause::Slots => SLOTS,
        LimitCause::Cells => CELLS,
        LimitCause::Told => TOLD,
    }
}

const OBJECTS: Advice = Advice {
    means: "there are more than 2000 objects, or 50000: --large",
    helps: "give --large, or screen fewer files, by folders or another --suffix",
    more: "\
The number that is told is that of the files in DIR whose names end with the
suffix. A run takes at most 2,000 of them; screen and check take 50,000 with
--large. Pairs of objects in two different folders are screened by no run.
",
    wrong: "conj screen catalogue\n",
    right: "conj screen catalogue --suffix .leo.oem\n",
};

const FILE_BYTES: Advice = Advice {
    means: "a file has more bytes than a run takes",
    helps: "64 MiB for an ephemeris or sizes, 1 GiB (--large: 4) for the others",
    more: "\
An ephemeris or a file of sizes has at most 67,108,864 bytes, a certificate
and a report that are checked at most 1,073,741,824, or 4,294,967,290 with
--large. Cut the ephemeris into files of a shorter time, in folders of their
own, or screen a shorter window, so that the certificate is shorter.
",
    wrong: "conj check year\n",
    right: "conj check january\n",
};

const NODES: Advice = Advice {
    means: "more than 2000000 states in all, or 64000000: --large",
    helps: "give --large, or screen fewer files, of a shorter time, longer step",
    more: "\
The number that is told is that of the states in the files up to one of them,
in byte order of names. A run takes at most 2,000,000; screen and check take
64,000,000 with --large. All states of a file count, also those outside the
window: --from and --to do not help.
",
    wrong: "conj screen catalogue\n",
    right: "conj screen catalogue --suffix .leo.oem\n",
};

const WINDOW: Advice = Advice {
    means: "the window is longer than fourteen days",
    helps: "give --from and --to; workflow/ screens a long window in parts",
    more: "\
The number that is told is the length in microseconds; fourteen days are
1,209,600,000,000. Where --from or --to is left out, the window begins with
the earliest useable time of all files and ends with the latest.
",
    wrong: "conj screen DIR --from 2025-01-01T00:00:00 --to 2025-02-01T00:00:00\n",
    right: "conj screen DIR --from 2025-01-01T00:00:00 --to 2025-01-08T00:00:00\n",
};

const SLOTS: Advice = Advice {
    means: "objects times minutes over 4000000, 64000000: --large",
    helps: "give --large, a shorter window by --from and --to, or fewer files",
    more: "\
The number that is told is that of the objects times the minutes of the
window. A run takes at most 4,000,000: 2,000 objects over 33 hours, or 198
over fourteen days. screen and check take 64,000,000 with --large: 44,413
objects over a day, or 3,174 over fourteen.
",
    wrong: "conj screen DIR --from 2025-01-01T00:00:00 --to 2025-01-14T00:00:00\n",
    right: "conj screen DIR --from 2025-01-01T00:00:00 --to 2025-01-02T00:00:00\n",
};

const CELLS: Advice = Advice {
    means: "more stretches of time are told apart than --cells",
    helps: "shorter window, fewer files, smaller --threshold, or more --cells",
    more: "\
The number that is told is the limit: that of --cells, at most 4,000,000, or
400,000,000 with --large. The time of each two objects that come near each
other is halved until each stretch is far, near or undecided. Objects whose
distance stays about the threshold have many stretches. Of a certificate with
more cells than the greatest --cells no report is checked.
",
    wrong: "conj screen samples/catalogue --cells 10\n",
    right: "conj screen samples/catalogue --cells 1000\n",
};

const TOLD: Advice = Advice {
    means: "more than 80000000 stretches of time are to be told",
    helps: "shorter window, fewer files, or smaller --threshold",
    more: "\
The number that is told is the limit. A certificate in brief tells the
stretches of each two objects in a minute, unless all of them are far: a run
with --large writes at most 80,000,000 of them, so that a check can read its
certificate. Nothing is written where there are more.
",
    wrong: "conj screen sky --large --threshold 100000\n",
    right: "conj screen sky --large --threshold 5000\n",
};
