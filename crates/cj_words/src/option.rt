ghost use Rattle.std.specs.Prelude.{◌≡◌};
ghost use Rattle.cj_words.specs.Options.{name_of};

/// An option of the command line.
#[derive(Clone, Copy, Debug, PartialEq, Eq)]
pub enum Opt {
    /// The greatest miss distance that is reported, in metres.
    Threshold,
    /// How many workers share the work.
    Workers,
    /// The first tick of the window.
    From,
    /// The last tick of the window.
    To,
    /// What the names of the files that are taken end with.
    Suffix,
    /// The file of the certificate that is checked.
    Cert,
    /// Who makes the messages.
    Originator,
    /// The greatest number of leaves.
    Cells,
    /// What a made-up catalogue is drawn from.
    Seed,
    /// How many objects it has.
    Objects,
    /// How many minutes it covers.
    Minutes,
    /// Whether a file that does not declare the cubic is taken as if it did; a flag.
    AsHermite3,
    /// The file of the sizes of objects.
    Sizes,
    /// The file of the primaries, the objects whose pairs alone are looked at; then the certificate is in brief.
    Primaries,
    /// In which version the certificate is written.
    CertVersion,
    /// What the names of update files end with.
    Update,
    /// Whether the pairs that changed are told alone; a flag.
    Changed,
    /// The file of the report that is checked beside the certificate.
    Report,
    /// The directory that is made for the results.
    Out,
    /// The directory in which the certificate lies.
    CertDir,
    /// Whether messages tell the state of the second object along the axes of the first; a flag.
    Rtn,
    /// Whether the report tells which ticks of the window each object covers; a flag.
    Coverage,
    /// Whether an object that does not cover the window is refused; a flag.
    MustCover,
    /// Whether the certificate is in brief, which is version 3; a flag.
    Brief,
    /// How far an object with fewer nodes may be from where it was, in metres.
    Within,
    /// Whether what a person may not have meant is told wherever standard error goes; a flag.
    Warnings,
    /// Whether the first fault of each file that is refused is told; a flag.
    AllFaults,
    /// Whether a run may take a whole sky; then the certificate is in brief. A flag.
    Large,
}

/// What is wrong with a command line.
#[derive(Clone, Copy, Debug, PartialEq, Eq)]
pub enum UsageFault {
    /// It is not of the grammar.
    Words,
    /// The value of the option is out of its range.
    Value { option: Opt },
}

/// The option as it stands on the command line.
pub fn option_name(option: Opt) -> &'static [u8]
    ensures { result.now ≡ name_of option }
{
    match option {
        Opt::Threshold => b"--threshold",
        Opt::Workers => b"--workers",
        Opt::From => b"--from",
        Opt::To => b"--to",
        Opt::Suffix => b"--suffix",
        Opt::Cert => b"--cert",
        Opt::Originator => b"--originator",
        Opt::Cells => b"--cells",
        Opt::Seed => b"--seed",
        Opt::Objects => b"--objects",
        Opt::Minutes => b"--minutes",
        Opt::AsHermite3 => b"--as-hermite3",
        Opt::Sizes => b"--sizes",
        Opt::Primaries => b"--primaries",
        Opt::CertVersion => b"--cert-version",
        Opt::Update => b"--update",
        Opt::Changed => b"--changed",
        Opt::Report => b"--report",
        Opt::Out => b"--out",
        Opt::CertDir => b"--cert-dir",
        Opt::Rtn => b"--rtn",
        Opt::Coverage => b"--coverage",
        Opt::MustCover => b"--must-cover",
        Opt::Brief => b"--brief",
        Opt::Within => b"--within",
        Opt::Warnings => b"--warnings",
        Opt::AllFaults => b"--all-faults",
        Opt::Large => b"--large",
    }
}
