ghost use Rattle.std.specs.Prelude.{◌≡◌, ◌≤◌, true, is_some};
ghost use Rattle.cj_base.specs.Bounds.{MOST_LEAVES, MOST_MADE_OBJECTS};
ghost use Rattle.cj_formats.specs.declared.cert_format.CertFormat.TheVariants.{Brief};

use crate::settings::Settings;
use cj_formats::CertFormat;

/// The command that the first word of a command line names.
#[derive(Clone, Copy, Debug, PartialEq, Eq)]
pub enum Verb {
    Screen,
    Check,
    Generate,
    Selfrun,
    Rewrite,
    Thin,
    Rescreen,
}

/// What a command line asks for.
#[derive(Clone, Copy, Debug, PartialEq, Eq)]
pub enum Command<'w> {
    /// The files of a directory are screened.
    Screen(Screening<'w>),
    /// The certificate in a directory is checked against its files.
    Check(Checking<'w>),
    /// A made-up catalogue is written into a directory.
    Generate(Recipe),
    /// A made-up catalogue is screened.
    Selfrun(Selfrun),
    /// The certificate in a directory is checked and put in version 2.
    Rewrite(Checking<'w>),
    /// The ephemerides of a directory are put with fewer nodes.
    Thin(Thinning<'w>),
    /// The files of a directory are screened again, some of them in place of others.
    Rescreen(Rescreening<'w>),
}

/// How the files of a directory are screened. The originator is lent by the words.
#[derive(Clone, Copy, Debug, PartialEq, Eq)]
pub struct Screening<'w> {
    pub settings: Settings<'w>,
    /// How many workers share the work, from 1 to 16.
    pub workers: u32,
    /// Who makes the messages: 1 to 40 letters, digits, `_` or `-`.
    pub originator: &'w [u8],
    /// The greatest number of leaves, from 1 to that of the limits.
    pub cells: u64,
    /// How the certificate is written: in full, in one of its versions, or in brief, as that of a whole sky is.
    pub format: CertFormat,
    /// Whether messages tell the state of the second object along the radial, transverse and normal axes of the first.
    pub rtn: bool,
    pub ghost some_workers: { 1 ≤ workers },
    pub ghost most_workers: { workers ≤ 16 },
    pub ghost some_cells: { 1 ≤ cells },
    pub ghost most_cells: { cells ≤ settings.limits.leaves },
    pub ghost in_brief: { settings.large ≡ true → format ≡ Brief },
}

/// Which certificate is checked against the files of a directory, or rewritten, and which report beside it. Their names are lent by the words.
#[derive(Clone, Copy, Debug, PartialEq, Eq)]
pub struct Checking<'w> {
    pub settings: Settings<'w>,
    /// The name of the certificate's file: 1 to 200 bytes from 33 to 126, none of them `/`.
    pub certificate: &'w [u8],
    /// The name of the report's file, where one is to be checked beside the certificate: 1 to 200 such bytes. Of a rewriting there is none.
    pub report: Option<&'w [u8]>,
    /// What the names of update files end with, where files may be updates: 1 to 20 bytes from 33 to 126, none of them `/`, and not the suffix.
    pub update: Option<&'w [u8]>,
    /// Whether the certificate may be in brief.
    pub brief: bool,
}

/// How the files of a directory are screened again, where some of them are updates of others. The update suffix is lent by the words.
#[derive(Clone, Copy, Debug, PartialEq, Eq)]
pub struct Rescreening<'w> {
    /// How they are screened. Both ends of the window are given.
    pub screening: Screening<'w>,
    /// What the names of update files end with: 1 to 20 bytes from 33 to 126, none of them `/`, and not the suffix.
    pub update: &'w [u8],
    /// Whether the pairs that changed are told alone.
    pub changed: bool,
    pub ghost begins: { is_some screening.settings.from ≡ true },
    pub ghost ends: { is_some screening.settings.to ≡ true },
}

/// How a catalogue is made up.
#[derive(Clone, Copy, Debug, PartialEq, Eq)]
pub struct Recipe {
    /// What its objects are drawn from.
    pub seed: u64,
    /// How many objects it has, from 1 to 2,000.
    pub objects: u32,
    /// How many minutes it covers, from 1 to 1,440.
    pub minutes: u32,
    pub ghost some_objects: { 1 ≤ objects },
    pub ghost most_objects: { objects ≤ MOST_MADE_OBJECTS },
    pub ghost some_minutes: { 1 ≤ minutes },
    pub ghost most_minutes: { minutes ≤ 1440 },
}

/// How a made-up catalogue is screened.
#[derive(Clone, Copy, Debug, PartialEq, Eq)]
pub struct Selfrun {
    /// The greatest miss distance that is reported, in metres, from 1 to 1,000,000.
    pub threshold: u64,
    /// How many workers share the work, from 1 to 16.
    pub workers: u32,
    /// The greatest number of leaves, from 1 to the usual one, 4,000,000.
    pub cells: u64,
    pub recipe: Recipe,
    pub ghost some_workers: { 1 ≤ workers },
    pub ghost most_workers: { workers ≤ 16 },
    pub ghost some: { 1 ≤ threshold },
    pub ghost most: { threshold ≤ 1_000_000 },
    pub ghost some_cells: { 1 ≤ cells },
    pub ghost most_cells: { cells ≤ MOST_LEAVES },
}

/// How the ephemerides of a directory are put with fewer nodes. The suffix is lent by the words.
#[derive(Clone, Copy, Debug, PartialEq, Eq)]
pub struct Thinning<'w> {
    /// What the names of the files that are taken end with: 1 to 20 bytes from 33 to 126, none of them `/`.
    pub suffix: &'w [u8],
    /// Whether a file that does not declare the cubic is taken as if it did.
    pub as_hermite3: bool,
    /// How far an object may be at any microsecond from where it was, in metres, from 1 to 1,000.
    pub within: u64,
    pub ghost some: { 1 ≤ within },
    pub ghost most: { within ≤ 1000 },
}
