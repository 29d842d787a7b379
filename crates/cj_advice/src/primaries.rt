//! Causes of files of primaries.
use crate::advice::Advice;
use cj_formats::PrimariesCause;
use cj_kvn::KvnCause;

pub fn advice_on(cause: PrimariesCause) -> Advice {
    match cause {
        PrimariesCause::Kvn(KvnCause::NotPrintable) => NOT_PRINTABLE,
        PrimariesCause::Kvn(KvnCause::NoLineForm) => NO_LINE_FORM,
        PrimariesCause::Form => FORM,
        PrimariesCause::Twice => TWICE,
        PrimariesCause::Unknown => UNKNOWN,
    }
}

const NOT_PRINTABLE: Advice = Advice {
    means: "the line has a byte that is not printable ASCII",
    helps: "write the line in ASCII; behind COMMENT any byte may stand",
    more: "\
A designator is of printable ASCII. Behind COMMENT any byte may stand.
In the first line here a no-break space, the byte A0, is written \\xA0.
",
    wrong: "2025-001A\\xA0\n",
    right: "2025-001A\n",
};

const NO_LINE_FORM: Advice = Advice {
    means: "the line has a = and is no row",
    helps: "write the designator alone",
    more: "\
Each line is a designator. A designator with a = in it cannot be named.
",
    wrong: "2025-001A = ours\n",
    right: "2025-001A\n",
};

const FORM: Advice = Advice {
    means: "the line is not a designator alone",
    helps: "write the designator as in OBJECT_ID, one a line",
    more: "\
A row has one field. A designator with a blank in it cannot be named.
",
    wrong: "2025-001A 2025-001B\n",
    right: "\
2025-001A
2025-001B
",
};

const TWICE: Advice = Advice {
    means: "this designator is named already",
    helps: "leave one of the two lines out",
    more: "\
A designator stands once.
",
    wrong: "\
2025-001A
2025-001A
",
    right: "2025-001A\n",
};

const UNKNOWN: Advice = Advice {
    means: "no object has this designator",
    helps: "write it as in OBJECT_ID of its ephemeris, or leave the line out",
    more: "\
The designators are compared letter by letter. An object whose ephemeris is
not among the files that are taken cannot be a primary.
",
    wrong: "2025-1A\n",
    right: "2025-001A\n",
};

pub const NO_PRIMARIES: Advice = Advice {
    means: "the file of --primaries is not there, or names nobody",
    helps: "the file has to lie in DIR and to name one object at least",
    more: "\
--primaries takes the name of the file, and no path. The name is compared
letter by letter with those of the files in DIR. A run without a primary would
look at no pair.
",
    wrong: "conj screen samples/crossing --primaries ours.txt\n",
    right: "conj screen samples/crossing --primaries fleet.txt\n",
};
