ghost use Rattle.std.specs.Prelude.{◌≡◌};
ghost use Rattle.cj_advice.specs.Causes as causes;
ghost use Rattle.cj_host.specs.CommandLine as spec;
ghost use Rattle.cj_words.specs.Lines as lines;

use crate::command_help::command_help;
use cj_advice::{Cause, cause_named, explanation, known_causes_text, list_of_causes};
use cj_status::Status;
use cj_words::{UsageFault, Verb, Word, verb_of};
use std::alloc::{AllocError, Global};
use std::io::Write;

/// What the program shows in place of a run.
#[derive(Clone, Copy, Debug, PartialEq, Eq)]
pub enum Notice {
    /// All commands and their options.
    Help,
    /// One command and its options.
    CommandHelp(Verb),
    /// The version, and the formats that are read and written.
    Version,
    /// All causes that a fault line tells.
    Causes,
    /// One of them at length.
    Explanation(Cause),
    /// A cause was asked for that there is not.
    NoCause,
}

/// The notice that the words ask for in place of a run.
pub fn asked_notice(words: &[Word]) -> Option<Notice>
    ensures { result ≡ spec.notice_of words.now }
{
    let [word, rest @ ..] = words else {
        return None;
    };
    notice_before(word.as_slice(), rest)
}

/// The notice that a word asks for before these.
fn notice_before(word: &[u8], rest: &[Word]) -> Option<Notice>
    ensures { result ≡ spec.notice_before word.now rest.now }
{
    match rest {
        [] => notice_alone(word),
        [next, others @ ..] => notice_beside(word, next.as_slice(), others),
    }
}

/// The notice that two words ask for beside these.
fn notice_beside(word: &[u8], next: &[u8], others: &[Word]) -> Option<Notice>
    ensures { result ≡ spec.notice_beside word.now next.now others.now }
{
    match others {
        [] => notice_of_two(word, next),
        [_, ..] => None,
    }
}

fn notice_alone(word: &[u8]) -> Option<Notice>
    ensures { result ≡ spec.notice_alone word.now }
{
    if asks_help(word) {
        Some(Notice::Help)
    } else if word == b"--version".as_slice() {
        Some(Notice::Version)
    } else if word == b"--explain".as_slice() {
        Some(Notice::Causes)
    } else {
        None
    }
}

fn notice_of_two(word: &[u8], next: &[u8]) -> Option<Notice>
    ensures { result ≡ spec.notice_of_two word.now next.now }
{
    if word == b"--explain".as_slice() {
        Some(notice_of_cause(next))
    } else {
        notice_behind_verb(word, next)
    }
}

fn notice_behind_verb(word: &[u8], next: &[u8]) -> Option<Notice>
    ensures { result ≡ spec.notice_behind_verb (lines.verb_of word.now) next.now }
{
    match verb_of(word) {
        Some(verb) => notice_behind(verb, next),
        None => None,
    }
}

fn notice_of_cause(word: &[u8]) -> Notice
    ensures { result ≡ spec.notice_of_cause (causes.cause_named word.now) }
{
    match cause_named(word) {
        Some(cause) => Notice::Explanation(cause),
        None => Notice::NoCause,
    }
}

fn notice_behind(verb: Verb, word: &[u8]) -> Option<Notice>
    ensures { result ≡ spec.notice_behind verb word.now }
{
    if asks_help(word) {
        Some(Notice::CommandHelp(verb))
    } else if word == b"--version".as_slice() {
        Some(Notice::Version)
    } else {
        None
    }
}

fn asks_help(word: &[u8]) -> bool
    ensures { result ≡ spec.asks_help word.now }
{
    word == b"--help".as_slice() || word == b"-h".as_slice()
}

/// Prints a notice to standard output. That it cannot be printed is a write fault, and a cause that there is not one of the words.
pub fn print_notice(rt: &HostRuntime, notice: Notice) -> Status {
    if notice == Notice::NoCause {
        return Status::Usage(UsageFault::Words);
    }
    match notice_text(rt.alloc(), notice) {
        Ok(text) => print(rt, &text),
        Err(_) => Status::OutOfMemory,
    }
}

fn print(rt: &HostRuntime, text: &[u8]) -> Status {
    match rt.stdout().write_all(text) {
        Ok(()) => Status::Ok,
        Err(_) => Status::WriteFault,
    }
}

/// What is shown, on standard output but for the causes that are told to one who asked for another.
pub fn notice_text(alloc: Global, notice: Notice) -> Result<Vec<u8>, AllocError> {
    match notice {
        Notice::Help => Vec::from_slice(alloc, HELP.as_bytes()),
        Notice::CommandHelp(verb) => command_help(alloc, HELP, verb),
        Notice::Version => version_text(alloc),
        Notice::Causes => list_of_causes(alloc),
        Notice::Explanation(cause) => explanation(alloc, cause),
        Notice::NoCause => known_causes_text(alloc),
    }
}

fn version_text(alloc: Global) -> Result<Vec<u8>, AllocError> {
    let text = format!(in alloc; "conj {VERSION}\n{FORMATS}")?;
    Ok(text.into_bytes())
}

/// The version of the program, which stands nowhere else.
const VERSION: &str = "0.1.0";

const FORMATS: &str = "\
reads:
  ephemerides   OEM of CCSDS 502.0-B-2, KVN, CCSDS_OEM_VERS 1.0, 2.0 and 3.0
  certificates  CONJ-CERT 1, 2 and 3
  reports       CONJ-REPORT 1
writes:
  reports       CONJ-REPORT 1, CONJ-CHANGED 1
  certificates  CONJ-CERT 1, 2 and 3
  messages      CDM of CCSDS 508.0-B-1, KVN, CCSDS_CDM_VERS 1.0
  catalogues    OEM of CCSDS 502.0-B-2, KVN, CCSDS_OEM_VERS 2.0
  ephemerides   OEM of CCSDS 502.0-B-2, KVN, CCSDS_OEM_VERS 2.0
";

const HELP: &str = "\
conj - certified all-on-all conjunction screening of ephemerides

Usage:
  conj screen DIR [OPTIONS]
  conj rescreen DIR [OPTIONS]
  conj check DIR [OPTIONS]
  conj generate DIR [OPTIONS]
  conj selfrun [OPTIONS]
  conj rewrite DIR [OPTIONS]
  conj thin DIR [OPTIONS]
  conj COMMAND --help    the options of one command
  conj --explain         what a fault line may tell, a line each
  conj --explain CAUSE   one of these at length, as conj --explain Frame
  conj --help            this
  conj --version         the version, and what formats are read and written

screen reads the ephemerides in the directory DIR, one object in each file
whose name has the suffix (CCSDS 502.0-B-2 OEM in KVN form, UTC, cubic Hermite
states), finds every approach of every pair of objects that comes within the
threshold at a microsecond of the window, writes the report DIR/screen.report
and its reasons, the certificate DIR/screen.cert, and prints a summary. Where
both objects have a covariance it writes a conjunction data message (CCSDS
508.0-B-1), DIR/000001.cdm for encounter 1. It is proved that no such approach
of the interpolated tracks is missed, where DIR gives the bytes that it holds
and keeps those that it is given.

rescreen screens DIR again after some files changed. a.oem.new stands in place
of a.oem, or beside the others where there is no a.oem; where it is empty it
takes a.oem away. It writes what screen writes of the files that then stand,
and prints one line more: how many of the pairs that are not parted are as
they were. With --changed it tells those pairs alone that are not as they
were, and writes the report DIR/changed.report and nothing more.

check reads the same ephemerides and the certificate, and decides anew whether
it is accepted for them, and with --report NAME whether the report is that of
the certificate and the ephemerides.

generate writes a made-up catalogue into DIR, which has to be there, one
ephemeris for each object.

selfrun screens such a catalogue in memory, has the certificate checked, and
prints the summary. It has no directory.

rewrite does what check does, and writes an accepted certificate in version 2,
which has fewer lines, as DIR/screen.cert2. One in brief is written as it is.

thin writes each ephemeris of DIR with fewer nodes, a.oem as DIR/a.oem.thin.
At each microsecond the object has a place where it had one, and that is
within a stated length of where it was. It prints the numbers of files, of
nodes read and of nodes kept.

The miss distance of an encounter is that between the centers of its objects,
with and without --sizes. The threshold is measured between the centers too.
With --sizes it is measured between the surfaces: an approach is reported
where the centers come within the threshold and both radii.

Options stand in any order, each at most once. One with a value is two words
or one, as --threshold 1000 or --threshold=1000.

Options of screen, rescreen, check, rewrite and selfrun:
  --threshold METRES  greatest distance that is reported, 1 to 1000000
                      (default 5000)
Options of screen, rescreen, check and rewrite:
  --from EPOCH        first instant of the window in UTC, as
                      2025-01-01T00:00:00.000000 or 2025-001T00:00:00Z
                      (default: where the first ephemeris begins to be
                      useable; rescreen has none)
  --to EPOCH          last instant of the window, not before the first
                      (default: where the last ephemeris ends to be useable;
                      rescreen has none)
  --sizes NAME        file of DIR with the radius of each object in metres:
                      the threshold is then measured from surface to surface
                      (default: all objects are points)
  --primaries NAME    file of DIR with designators, one a line: only pairs
                      with one of these objects are looked at, and the
                      certificate is in brief (default: all pairs)
  --brief             the certificate is in brief, that is, in version 3: it
                      leaves out what is far throughout; not with
                      --cert-version (default: in full)
Options of screen, rescreen, check, rewrite and thin:
  --suffix TEXT       how names of ephemerides end, 1 to 20 bytes (default
                      .oem)
  --as-hermite3       take a file that declares another interpolation, or
                      none, by the cubic through its nodes: the result is of
                      these cubics, not of the curves that the files mean
Options of screen, rescreen and selfrun:
  --workers N         how many threads share the work, 1 to 16 (default 1)
  --cells N           greatest number of stretches of time that are told
                      apart, 1 to 4000000, or 400000000 with --large
                      (default: the greatest)
Options of screen and rescreen:
  --originator TEXT   who makes messages, 1 to 40 letters, digits, _ and -
                      (default CONJ)
  --cert-version N    the version of the certificate, 1 or 2 (default 1);
                      not with --brief, --large or --primaries
  --rtn               add six lines to each message: place and velocity of the
                      second object less those of the first, along the radial,
                      transverse and normal axes of the first
  --must-cover        refuse the first file whose object has no state at some
                      microsecond of the window, and tell that microsecond
Options of screen, rescreen and check:
  --coverage          the report tells when in the window each object has a
                      state, and the summary how many have none at some
                      microsecond; of check with --report alone
Options of rescreen, check and rewrite:
  --update TEXT       how names of updates end, 1 to 20 bytes, not as --suffix
                      says (default of rescreen .new; left out of check and
                      rewrite no file is an update)
Options of rescreen:
  --changed           tell the pairs alone that are not as they were; not with
                      --originator, --cert-version, --rtn or --brief
Options of screen and check:
  --large             take up to 50000 objects, 64000000 states and 64000000
                      objects times minutes, with the certificate in brief
                      (default: 2000, 2000000 and 4000000)
Options of check and rewrite:
  --cert NAME         the certificate's file (default screen.cert)
  --cert-dir DIR      the directory of the certificate, and of the report
                      (default: that of the ephemerides)
Options of check:
  --report NAME       the report's file, in the directory of the certificate
                      (default: no report is checked)
Options of screen, rescreen, generate, rewrite and thin:
  --out NEW           the directory that is made for the results, which are
                      there together or not at all; nothing may have its name
                      yet (default: they are put into DIR, in place of those
                      of an earlier run)
Options of generate and selfrun:
  --seed N            what the objects are drawn from (default 1)
  --objects N         how many objects, 1 to 2000 (default 50)
  --minutes N         how many minutes they cover, 1 to 1440 (default 120)
Options of thin:
  --within METRES     how far an object may be from where it was, 1 to 1000
                      (default 1)
Options of screen, rescreen, check and rewrite that change no result:
  --warnings          say on standard error what may not be meant, as a
                      directory without ephemerides (default: at a terminal
                      alone)
  --all-faults        where a file is refused, go on and tell the first fault
                      of each file

Exit status:
  0  done
  1  the certificate is not accepted, or the report
  2  usage: the words are not as above, or a value is out of its range
  3  an ephemeris, or the file of sizes or of primaries, was refused
  4  a file of DIR could not be read
  5  a result could not be written
  6  a limit was exceeded
  7  out of memory
";
