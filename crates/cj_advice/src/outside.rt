//! Faults of the system.
use crate::advice::Advice;

pub const READ_FAULT: Advice = Advice {
    means: "a folder or a file could not be read",
    helps: "see that it is there, and that you may read it",
    more: "\
A second line names the file and the system's reason, where there is memory
for it. DIR has to be a folder, and all of its files that are taken have to
be readable. A name that is not UTF-8 makes the listing fail.
",
    wrong: "conj screen samples/crosing\n",
    right: "conj screen samples/crossing\n",
};

pub const WRITE_FAULT: Advice = Advice {
    means: "a result could not be written",
    helps: "see that you may write there, that there is room, that --out is new",
    more: "\
A second line names the file and the system's reason, where there is memory
for it. Without --out the results go into DIR, where no other run may be
writing at the time, and where none may take the place of a file that is
read. With --out nothing may have that name yet, and nothing is left of it.
",
    wrong: "conj screen samples/crossing --out samples\n",
    right: "conj screen samples/crossing --out results\n",
};

pub const OUT_OF_MEMORY: Advice = Advice {
    means: "memory ran out",
    helps: "fewer files, a shorter window, a smaller --threshold, --workers 1",
    more: "\
Memory goes into the states of all files, the boxes of each object and
minute, and the stretches of time that are told apart. One worker lets each
file go before it reads the next. docs/SCALE.md tells what runs took.
",
    wrong: "conj screen catalogue --workers 16\n",
    right: "conj screen catalogue --workers 1\n",
};
