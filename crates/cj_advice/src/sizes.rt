//! Causes of files of sizes.
use crate::advice::Advice;
use cj_formats::SizesCause;
use cj_kvn::KvnCause;

pub fn advice_on(cause: SizesCause) -> Advice {
    match cause {
        SizesCause::Kvn(KvnCause::NotPrintable) => NOT_PRINTABLE,
        SizesCause::Kvn(KvnCause::NoLineForm) => NO_LINE_FORM,
        SizesCause::Form => FORM,
        SizesCause::Number => NUMBER,
        SizesCause::Range => RANGE,
        SizesCause::Twice => TWICE,
    }
}

const NOT_PRINTABLE: Advice = Advice {
    means: "the line has a byte that is not printable ASCII",
    helps: "write the line in ASCII; behind COMMENT any byte may stand",
    more: "\
Accents, no-break spaces and control characters may stand in comments alone.
In the first line here a no-break space, the byte A0, is written \\xA0.
",
    wrong: "2025-001A\\xA01.5\n",
    right: "2025-001A 1.5\n",
};

const NO_LINE_FORM: Advice = Advice {
    means: "the line has a = and is no row",
    helps: "put blanks alone between the designator and the radius",
    more: "\
Each line is a designator and a radius with blanks between. A designator with
a = in it cannot be given a size.
",
    wrong: "2025-001A = 1.5\n",
    right: "2025-001A 1.5\n",
};

const FORM: Advice = Advice {
    means: "the line is not a designator and a radius",
    helps: "write the designator as in OBJECT_ID, a blank, the radius in metres",
    more: "\
A row has two fields, and no unit. A designator with a blank in it cannot be
given a size.
",
    wrong: "2025-001A 1.5 m\n",
    right: "2025-001A 1.5\n",
};

const NUMBER: Advice = Advice {
    means: "the radius is no number that can be read",
    helps: "write it in metres with a point, as 0.75",
    more: "\
A number is an optional sign, digits with at most one point, and perhaps E or
e with an exponent of one to four digits.
",
    wrong: "2025-001A 1,5\n",
    right: "2025-001A 1.5\n",
};

const RANGE: Advice = Advice {
    means: "the radius is below 0 or above 1000 metres",
    helps: "radii are in metres: is this one in millimetres?",
    more: "\
A radius is that of a sphere round the object, in metres, from 0 to 1000.
",
    wrong: "2025-001A 1500\n",
    right: "2025-001A 1.5\n",
};

const TWICE: Advice = Advice {
    means: "this designator has a radius already",
    helps: "leave one of the two lines out",
    more: "\
A designator stands once: of two radii nobody can tell which one is meant,
even where they are the same.
",
    wrong: "\
2025-001A 1.5
2025-001A 1.5
",
    right: "2025-001A 1.5\n",
};

pub const NO_SIZES: Advice = Advice {
    means: "no file has the name that --sizes gives",
    helps: "the file has to lie in DIR; --sizes takes its name, and no path",
    more: "\
The name is compared letter by letter with those of the files in DIR.
",
    wrong: "conj screen samples/crossing --sizes radii.txt\n",
    right: "conj screen samples/crossing --sizes sizes.txt\n",
};

pub const MIXED_FRAMES: Advice = Advice {
    means: "the file's frame is not that of the first file",
    helps: "all in EME2000, or all in GCRF: scripts/prepare turns GCRF into EME2000",
    more: "\
The two frames differ by less than a metre in a low orbit, which is more than
is left open here. The first file is the first one in byte order of names.
scripts/prepare turns files of either frame into EME2000.
",
    wrong: "REF_FRAME = GCRF\n",
    right: "REF_FRAME = EME2000\n",
};
