//! Causes of ephemerides.
use crate::advice::Advice;
use cj_epoch::EpochFault;
use cj_formats::OemCause;
use cj_kvn::KvnCause;

pub fn advice_on(cause: OemCause) -> Advice {
    match cause {
        OemCause::Name => NAME,
        OemCause::Kvn(KvnCause::NotPrintable) => NOT_PRINTABLE,
        OemCause::Kvn(KvnCause::NoLineForm) => NO_LINE_FORM,
        OemCause::Order => ORDER,
        OemCause::Version => VERSION,
        OemCause::Twice => TWICE,
        OemCause::Unknown => UNKNOWN,
        OemCause::Missing => MISSING,
        OemCause::Interpolation => INTERPOLATION,
        OemCause::ObjectChanged => OBJECT_CHANGED,
        OemCause::Center => CENTER,
        OemCause::Frame => FRAME,
        OemCause::TimeSystem => TIME_SYSTEM,
        OemCause::Epoch(fault) => advice_on_epoch(fault),
        OemCause::Fields => FIELDS,
        OemCause::Number => NUMBER,
        OemCause::CoordinateRange => COORDINATE_RANGE,
        OemCause::RateRange => RATE_RANGE,
        OemCause::TimesFall => TIMES_FALL,
        OemCause::StepTooLong => STEP_TOO_LONG,
        OemCause::LeapSecond => LEAP_SECOND,
        OemCause::TooFewNodes => TOO_FEW_NODES,
        OemCause::UseableSpan => USEABLE_SPAN,
        OemCause::SegmentsOverlap => SEGMENTS_OVERLAP,
        OemCause::MatrixForm => MATRIX_FORM,
    }
}

fn advice_on_epoch(fault: EpochFault) -> Advice {
    match fault {
        EpochFault::Form => EPOCH_FORM,
        EpochFault::Range => EPOCH_RANGE,
        EpochFault::SecondSixty => SECOND_SIXTY,
        EpochFault::TooFine => TOO_FINE,
    }
}

const NAME: Advice = Advice {
    means: "the file's name is too long, or not printable ASCII",
    helps: "rename the file: 1 to 200 bytes, each of them printable ASCII",
    more: "\
The report names each object's file. Such a name has 1 to 200 bytes, and each
of them is printable ASCII: no accents, no control characters. The name of
the first line here has the byte C4, which is written \\xC4.
",
    wrong: "s\\xC4t-a.oem\n",
    right: "sat-a.oem\n",
};

const NOT_PRINTABLE: Advice = Advice {
    means: "the line has a byte that is not printable ASCII",
    helps: "write the line in ASCII; behind COMMENT any byte may stand",
    more: "\
Letters with accents, no-break spaces and control characters may stand in
comments alone. An editor, a web page or a file of UTF-16 often brings one in.
In the first line here it is the byte C4, which is written \\xC4.
",
    wrong: "OBJECT_NAME = S\\xC4T A\n",
    right: "OBJECT_NAME = SAT A\n",
};

const NO_LINE_FORM: Advice = Advice {
    means: "the key before = is not of A to Z, 0 to 9 and _",
    helps: "write the key in capitals, as in ORIGINATOR = OPS",
    more: "\
A line with = is a key and its value. A key is of capital letters, digits and
_ alone. Where it is the first line of a file that begins with <, the file is
XML: scripts/prepare reads that, and makes a file of keys and values of it.
",
    wrong: "originator = OPS\n",
    right: "ORIGINATOR = OPS\n",
};

const ORDER: Advice = Advice {
    means: "a line of this kind may not stand here",
    helps: "keep the order: header, META_START to META_STOP, states, covariances",
    more: "\
A file is a header and then one or more segments. A segment is its metadata
between META_START and META_STOP, its states, and perhaps covariances between
COVARIANCE_START and COVARIANCE_STOP. Behind covariances stands the next
segment or the end of the file. Where line 1 is refused so, the file is
perhaps no ephemeris of this form at all: no OEM, or not in KVN notation.
",
    wrong: "\
INTERPOLATION_DEGREE = 3
2025-01-01T00:00:00 7000 -225 0 0 7.5 0
",
    right: "\
INTERPOLATION_DEGREE = 3
META_STOP
2025-01-01T00:00:00 7000 -225 0 0 7.5 0
",
};

const VERSION: Advice = Advice {
    means: "the version is none of 1.0, 2.0 and 3.0",
    helps: "files of CCSDS 502.0-B-2 begin with CCSDS_OEM_VERS = 2.0",
    more: "\
The first line that says something is CCSDS_OEM_VERS with one of these three
values. What is read is the same for all three.
",
    wrong: "CCSDS_OEM_VERS = 4.0\n",
    right: "CCSDS_OEM_VERS = 2.0\n",
};

const TWICE: Advice = Advice {
    means: "this key was given before, in this part of the file",
    helps: "leave one of the two lines out",
    more: "\
In the header and in each block of metadata a key stands at most once: of two
values nobody can tell which one is meant, even where they are the same.
",
    wrong: "\
OBJECT_NAME = SAT A
OBJECT_NAME = SAT A
",
    right: "OBJECT_NAME = SAT A\n",
};

const UNKNOWN: Advice = Advice {
    means: "the key is none of those that may stand here",
    helps: "leave the line out, or write COMMENT and a blank before it",
    more: "\
The header has CCSDS_OEM_VERS, CREATION_DATE, ORIGINATOR, CLASSIFICATION and
MESSAGE_ID. Metadata have OBJECT_NAME, OBJECT_ID, CENTER_NAME, REF_FRAME,
REF_FRAME_EPOCH, TIME_SYSTEM, START_TIME, STOP_TIME, USEABLE_START_TIME,
USEABLE_STOP_TIME, INTERPOLATION and INTERPOLATION_DEGREE. Covariances have
EPOCH and COV_REF_FRAME.
",
    wrong: "\
TIME_SYSTEM = UTC
MASS = 500
",
    right: "\
TIME_SYSTEM = UTC
COMMENT MASS = 500
",
};

const MISSING: Advice = Advice {
    means: "a key, a text or an end that has to be there is not",
    helps: "the part that this line ends lacks it: conj --explain Missing lists all",
    more: "\
At META_START the header lacks CREATION_DATE or ORIGINATOR. At META_STOP the
metadata lack OBJECT_NAME, OBJECT_ID, CENTER_NAME, REF_FRAME, TIME_SYSTEM,
START_TIME or STOP_TIME. At OBJECT_NAME or OBJECT_ID the value is empty.
Behind the last line the file ends before the states of a segment, or within
its covariances: it may have been cut off.
",
    wrong: "\
CREATION_DATE = 2025-01-01T00:00:00
META_START
",
    right: "\
CREATION_DATE = 2025-01-01T00:00:00
ORIGINATOR = OPS
META_START
",
};

const INTERPOLATION: Advice = Advice {
    means: "the file does not declare HERMITE of degree 3",
    helps: "--as-hermite3 takes it by the cubic: another curve than the file means",
    more: "\
What is screened is the cubic through each two states, their places and their
rates. So each segment has to declare INTERPOLATION = HERMITE and
INTERPOLATION_DEGREE = 3, or its writer meant another curve. With
--as-hermite3 the cubic is taken whatever a file declares. The result is then
certain for the cubics and not for the curves that were meant. In a low orbit
the two differ by less than a metre where states are a minute apart, and by
kilometres where they are ten minutes apart. scripts/prepare makes files that
stay within a bound that it tells.
",
    wrong: "\
INTERPOLATION = LAGRANGE
INTERPOLATION_DEGREE = 7
",
    right: "\
INTERPOLATION = HERMITE
INTERPOLATION_DEGREE = 3
",
};

const OBJECT_CHANGED: Advice = Advice {
    means: "name or designator is not that of the first segment",
    helps: "a file has one object: put the other one into a file of its own",
    more: "\
All segments of a file have the same OBJECT_NAME and OBJECT_ID, letter by
letter. The example is of a file whose other segment is of SAT A.
",
    wrong: "\
META_START
OBJECT_NAME = SAT B
",
    right: "\
META_START
OBJECT_NAME = SAT A
",
};

const CENTER: Advice = Advice {
    means: "the center is not the Earth",
    helps: "take the file out of the folder: only orbits about EARTH are screened",
    more: "\
CENTER_NAME is EARTH, in letters of either case. Files about another body or
about a barycenter cannot be screened together with these.
",
    wrong: "CENTER_NAME = MOON\n",
    right: "CENTER_NAME = EARTH\n",
};

const FRAME: Advice = Advice {
    means: "the frame is not EME2000 or GCRF, or it changes",
    helps: "scripts/prepare turns ITRF, TEME, TOD, MOD and others into EME2000",
    more: "\
REF_FRAME is EME2000 or GCRF, and the same in all segments of a file. In a
frame that turns with the Earth the cubic between two states would be another
curve. scripts/prepare makes ephemerides in EME2000, and says how far they are
from the others at most.
",
    wrong: "REF_FRAME = ITRF2020\n",
    right: "REF_FRAME = EME2000\n",
};

const TIME_SYSTEM: Advice = Advice {
    means: "the time system is not UTC",
    helps: "scripts/prepare turns TAI, TT, GPS and UT1 into UTC",
    more: "\
All times of all files are UTC, so that they can be compared. Others differ
from it by up to a minute and more, in which objects move hundreds of
kilometres.
",
    wrong: "TIME_SYSTEM = GPS\n",
    right: "TIME_SYSTEM = UTC\n",
};

const EPOCH_FORM: Advice = Advice {
    means: "a time is not of the form 2025-01-01T00:00:00",
    helps: "write YYYY-MM-DDThh:mm:ss or YYYY-DDDThh:mm:ss, perhaps .ffffff, Z",
    more: "\
A time has a date, T and a time of day to the second. The date has month and
day, or the day of the year with three digits. A point and further digits may
follow, and then a Z. There is no blank within, and no other time zone.
",
    wrong: "2025-01-01 7000 -225 0 0 7.5 0\n",
    right: "2025-01-01T00:00:00 7000 -225 0 0 7.5 0\n",
};

const EPOCH_RANGE: Advice = Advice {
    means: "there is no such day or time from 1972 to 2099",
    helps: "see month, day, hour and minute; the year is from 1972 to 2099",
    more: "\
The day has to be one of the calendar, hours are from 00 to 23, minutes from
00 to 59. In 1972 UTC got its leap seconds.
",
    wrong: "START_TIME = 2025-02-29T00:00:00\n",
    right: "START_TIME = 2025-01-01T00:00:00\n",
};

const SECOND_SIXTY: Advice = Advice {
    means: "the second of a time is 60",
    helps: "leave this state out, or give it at a second from 00 to 59",
    more: "\
A leap second itself is no instant that is screened. Where the file means the
next minute, write that. Where it means the leap second, end the segment
before it and begin another one behind it.
",
    wrong: "STOP_TIME = 2025-01-01T00:00:60\n",
    right: "STOP_TIME = 2025-01-01T00:01:00\n",
};

const TOO_FINE: Advice = Advice {
    means: "a time has digits below a microsecond",
    helps: "give at most six decimals; what follows them may only be 0",
    more: "\
Times are whole microseconds. Nothing is rounded in silence, since in a tenth
of a microsecond an object moves most of a millimetre.
",
    wrong: "START_TIME = 2025-01-01T00:00:00.0000005\n",
    right: "START_TIME = 2025-01-01T00:00:00\n",
};

const FIELDS: Advice = Advice {
    means: "a state has neither 7 nor 10 fields",
    helps: "a time without blank, x y z in km, rates in km/s, perhaps accelerations",
    more: "\
A state is one line: its time, three coordinates in km, three rates in km/s,
and perhaps three accelerations, which are not used. Blanks stand between
them, and no commas; between day and time stands T, and no blank. Files
without rates cannot be screened: the cubic wants them.
",
    wrong: "2025-01-01T00:00:00 7000 -225 0\n",
    right: "2025-01-01T00:00:00 7000 -225 0 0 7.5 0\n",
};

const NUMBER: Advice = Advice {
    means: "a field is no number that can be read",
    helps: "write it with a point, as 7000.25 or 7.00025E3; no comma, no NaN",
    more: "\
A number is an optional sign, digits with at most one point, and perhaps E or
e with an exponent of one to four digits. Accelerations and covariances have
to be below 10^100 in size.
",
    wrong: "2025-01-01T00:00:00 7000,0 -225 0 0 7.5 0\n",
    right: "2025-01-01T00:00:00 7000 -225 0 0 7.5 0\n",
};

const COORDINATE_RANGE: Advice = Advice {
    means: "a coordinate is more than 500000 km in size",
    helps: "coordinates are in km: are these metres?",
    more: "\
x, y and z are in km and each at most 500,000 in size, which is beyond the
Moon. Seven digits before the point are often metres.
",
    wrong: "2025-01-01T00:00:00 7000000 -225000 0 0 7.5 0\n",
    right: "2025-01-01T00:00:00 7000 -225 0 0 7.5 0\n",
};

const RATE_RANGE: Advice = Advice {
    means: "a rate is more than 20 km/s in size",
    helps: "rates are in km/s: are these m/s?",
    more: "\
The three rates are in km/s and each at most 20 in size. In no closed orbit
about the Earth is an object faster than 12 km/s.
",
    wrong: "2025-01-01T00:00:00 7000 -225 0 0 7500 0\n",
    right: "2025-01-01T00:00:00 7000 -225 0 0 7.5 0\n",
};

const TIMES_FALL: Advice = Advice {
    means: "a state is not later than the one before",
    helps: "sort the states by time; of two at one time leave one out",
    more: "\
Within a segment each state is later than the one before. At a manoeuvre,
where two states have the same time, end the segment and begin another one.
",
    wrong: "\
2025-01-01T00:00:00 7000 -225 0 0 7.5 0
2025-01-01T00:00:00 7000 225 0 0 7.5 0
",
    right: "\
2025-01-01T00:00:00 7000 -225 0 0 7.5 0
2025-01-01T00:01:00 7000 225 0 0 7.5 0
",
};

const STEP_TOO_LONG: Advice = Advice {
    means: "a state is more than an hour after the one before",
    helps: "give states at least each hour, or end the segment at the gap",
    more: "\
Between two states that are far apart in time the cubic says little of the
orbit. Where the file has a gap, end the segment before it and begin another
one behind it: in a gap the object is not screened.
",
    wrong: "\
2025-01-01T00:00:00 7000 -225 0 0 7.5 0
2025-01-01T01:01:00 7000 225 0 0 7.5 0
",
    right: "\
2025-01-01T00:00:00 7000 -225 0 0 7.5 0
2025-01-01T00:01:00 7000 225 0 0 7.5 0
",
};

const LEAP_SECOND: Advice = Advice {
    means: "a leap second lies between this state and the last",
    helps: "end the segment before the leap second, and begin one behind it",
    more: "\
Time in UTC is counted without leap seconds, so that between two such states
a second would be missing. Two segments, one on each side, say what is meant;
scripts/prepare makes them.
",
    wrong: "\
2016-12-31T23:59:00 7000 -225 0 0 7.5 0
2017-01-01T00:00:00 7000 225 0 0 7.5 0
",
    right: "\
2016-12-31T23:59:00 7000 -225 0 0 7.5 0
2016-12-31T23:59:59 7000 217.5 0 0 7.5 0
",
};

const TOO_FEW_NODES: Advice = Advice {
    means: "a segment has fewer than two states",
    helps: "give it a second state, or take the segment out of the file",
    more: "\
A curve lies between two states. The line that is told stands behind the
states of the segment.
",
    wrong: "\
2025-01-01T00:00:00 7000 -225 0 0 7.5 0
COVARIANCE_START
",
    right: "\
2025-01-01T00:00:00 7000 -225 0 0 7.5 0
2025-01-01T00:01:00 7000 225 0 0 7.5 0
COVARIANCE_START
",
};

const USEABLE_SPAN: Advice = Advice {
    means: "the useable time is empty, or goes beyond the states",
    helps: "let START_TIME, STOP_TIME or USEABLE_.. lie from first to last state",
    more: "\
A segment is useable from USEABLE_START_TIME to USEABLE_STOP_TIME, or where
these are not given from START_TIME to STOP_TIME. Outside its states there is
no curve. The example's last state is at 00:01:00. The line that is told
stands behind the states of the segment.
",
    wrong: "STOP_TIME = 2025-01-01T00:05:00\n",
    right: "STOP_TIME = 2025-01-01T00:01:00\n",
};

pub const UNCOVERED: Advice = Advice {
    means: "the object has no state at this tick of the window",
    helps: "give a later --from or an earlier --to, or leave --must-cover out",
    more: "\
With --must-cover each object has a state at each microsecond of the window,
from its first to its last. The tick that is told is the first at which this
one has none: it lies outside the useable time of all its segments. With
--coverage the report tells of each object which ticks it covers.
",
    wrong: "conj screen DIR --must-cover\n",
    right: "conj screen DIR --coverage\n",
};

const SEGMENTS_OVERLAP: Advice = Advice {
    means: "a segment begins before the one before has ended",
    helps: "set USEABLE_START_TIME or USEABLE_STOP_TIME so that they do not",
    more: "\
At each instant one segment tells where the object is. Useable times of
neighbours may share one microsecond, which is then the later segment's. The
segment before that of the example ends at 00:01:00.
",
    wrong: "\
START_TIME = 2025-01-01T00:00:30
STOP_TIME = 2025-01-01T00:02:00
",
    right: "\
START_TIME = 2025-01-01T00:01:00
STOP_TIME = 2025-01-01T00:02:00
",
};

const MATRIX_FORM: Advice = Advice {
    means: "a covariance does not have its form of six rows",
    helps: "EPOCH, perhaps COV_REF_FRAME, then rows of 1, 2, 3, 4, 5, 6 numbers",
    more: "\
A covariance is the lower triangle of a matrix, row by row. EPOCH comes first,
COV_REF_FRAME may follow it once, and after the sixth row the next EPOCH or
COVARIANCE_STOP.
",
    wrong: "\
1E-4 0 0
0 1E-4 0
",
    right: "\
1E-4
0 1E-4
",
};
