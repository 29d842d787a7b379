//! The options among the words of a command line.
ghost use Rattle.std.specs.Prelude.{◌≡◌, ◌<◌, IsTrue, Option};
ghost use Rattle.std.specs.Option.{option_copied};
ghost use Rattle.std.specs.Str.{bytes_eq};
ghost use Rattle.cj_words.specs.Options as spec;
ghost use Rattle.cj_words.specs.Options.{given_of, listed, name_of};

use crate::command::Verb;
use crate::front::{front_of, is_telling};
use crate::option::{Opt, option_name};
use crate::settings::Word;

/// Whether the words are options, each one of the command and given at most once, and these go together.
#[tactic(auto, using(crate::proofs::FrontLemmas::known_listed))]
pub fn are_options(words: &[Word], verb: Verb) -> bool
    ensures { result ≡ spec.are_accepted verb (given_of words.now) }
{
    are_known(words, verb) && are_single(words) && go_together(words, verb)
}

#[tactic(auto, unfolding(crate::specs::Options::are_single))]
fn are_single(words: &[Word]) -> bool
    requires { IsTrue (spec.are_listed (given_of words.now)) }
    ensures { result ≡ spec.are_single (listed (given_of words.now)) }
{
    are_directory_single(words)
        && are_catalogue_single(words)
        && are_results_single(words)
        && are_others_single(words)
}

/// Whether each option of the commands that read the files of a directory stands at most once.
fn are_directory_single(words: &[Word]) -> bool
    requires { IsTrue (spec.are_listed (given_of words.now)) }
    ensures { result ≡ spec.are_directory_single (listed (given_of words.now)) }
{
    is_single(words, Opt::Threshold)
        && is_single(words, Opt::From)
        && is_single(words, Opt::To)
        && is_single(words, Opt::Suffix)
        && is_single(words, Opt::AsHermite3)
        && is_single(words, Opt::Sizes)
        && is_single(words, Opt::Warnings)
        && is_single(words, Opt::AllFaults)
}

/// Whether each option of the commands that make up a catalogue does.
fn are_catalogue_single(words: &[Word]) -> bool
    requires { IsTrue (spec.are_listed (given_of words.now)) }
    ensures { result ≡ spec.are_catalogue_single (listed (given_of words.now)) }
{
    is_single(words, Opt::Seed) && is_single(words, Opt::Objects) && is_single(words, Opt::Minutes)
}

/// Whether each option that says what is written and where does.
fn are_results_single(words: &[Word]) -> bool
    requires { IsTrue (spec.are_listed (given_of words.now)) }
    ensures { result ≡ spec.are_results_single (listed (given_of words.now)) }
{
    is_single(words, Opt::Originator)
        && is_single(words, Opt::CertVersion)
        && is_single(words, Opt::Report)
        && is_single(words, Opt::Out)
        && is_single(words, Opt::CertDir)
        && is_single(words, Opt::Rtn)
        && is_single(words, Opt::Coverage)
        && is_single(words, Opt::Brief)
}

/// Whether each other option does.
fn are_others_single(words: &[Word]) -> bool
    requires { IsTrue (spec.are_listed (given_of words.now)) }
    ensures { result ≡ spec.are_others_single (listed (given_of words.now)) }
{
    is_single(words, Opt::Workers)
        && is_single(words, Opt::Cert)
        && is_single(words, Opt::Cells)
        && is_single(words, Opt::Update)
        && is_single(words, Opt::Changed)
        && is_single(words, Opt::MustCover)
        && is_single(words, Opt::Within)
        && is_single(words, Opt::Large)
        && is_single(words, Opt::Primaries)
}

fn is_single(words: &[Word], option: Opt) -> bool
    requires { IsTrue (spec.are_listed (given_of words.now)) }
    ensures { result ≡ spec.is_single option (listed (given_of words.now)) }
{
    count_of(words, option) <= 1
}

/// Whether the options of a command go together.
fn go_together(words: &[Word], verb: Verb) -> bool
    requires { IsTrue (spec.are_listed (given_of words.now)) }
    ensures { result ≡ spec.go_together verb (listed (given_of words.now)) }
{
    match verb {
        Verb::Rescreen => {
            has_ends(words) && !(is_given(words, Opt::Changed) && shapes_outputs(words))
        }
        Verb::Check => has_report(words),
        Verb::Screen | Verb::Generate | Verb::Selfrun | Verb::Rewrite | Verb::Thin => true,
    }
}

/// Whether both ends of the window stand.
fn has_ends(words: &[Word]) -> bool
    requires { IsTrue (spec.are_listed (given_of words.now)) }
    ensures { result ≡ spec.has_ends (listed (given_of words.now)) }
{
    is_given(words, Opt::From) && is_given(words, Opt::To)
}

/// Whether a report is named where it is to tell which ticks each object covers.
fn has_report(words: &[Word]) -> bool
    requires { IsTrue (spec.are_listed (given_of words.now)) }
    ensures { result ≡ spec.has_report (listed (given_of words.now)) }
{
    !is_given(words, Opt::Coverage) || is_given(words, Opt::Report)
}

/// Whether an option is given with which the certificate is in brief.
fn implies_brief(words: &[Word]) -> bool
    requires { IsTrue (spec.are_listed (given_of words.now)) }
    ensures { result ≡ spec.implies_brief (listed (given_of words.now)) }
{
    is_given(words, Opt::Large) || is_given(words, Opt::Primaries)
}

/// Whether the certificate may be in brief, as it is where a run may take a whole sky and where primaries are named.
pub fn asks_brief(words: &[Word]) -> bool
    requires { IsTrue (spec.are_listed (given_of words.now)) }
    ensures { result ≡ spec.asks_brief (listed (given_of words.now)) }
{
    is_given(words, Opt::Brief) || implies_brief(words)
}

/// Whether something is asked of messages or of the certificate.
fn shapes_outputs(words: &[Word]) -> bool
    requires { IsTrue (spec.are_listed (given_of words.now)) }
    ensures { result ≡ spec.shapes_outputs (listed (given_of words.now)) }
{
    is_given(words, Opt::Originator)
        || is_given(words, Opt::CertVersion)
        || is_given(words, Opt::Rtn)
        || is_given(words, Opt::Brief)
}

fn are_known(words: &[Word], verb: Verb) -> bool
    ensures { result ≡ spec.are_known verb (given_of words.now) }
{
    let mut rest = words;
    while let Some(front) = front_of(rest) {
        if !is_known(front.name, verb) {
            return false;
        }
        rest = front.rest;
    }
    rest.is_empty()
}

/// Whether it is the name of an option of the command.
pub fn is_known(name: &[u8], verb: Verb) -> bool
    ensures { result ≡ spec.is_name verb name.now }
{
    match verb {
        Verb::Screen => is_of_screening(name) || is_named(name, Opt::Large),
        Verb::Check => {
            is_of_checking(name)
                || is_named(name, Opt::Report)
                || is_named(name, Opt::Coverage)
                || is_named(name, Opt::Large)
        }
        Verb::Generate => is_of_catalogue(name) || is_named(name, Opt::Out),
        Verb::Selfrun => {
            is_named(name, Opt::Threshold)
                || is_named(name, Opt::Workers)
                || is_named(name, Opt::Cells)
                || is_of_catalogue(name)
        }
        Verb::Rewrite => is_of_checking(name) || is_named(name, Opt::Out),
        Verb::Thin => {
            is_named(name, Opt::Suffix)
                || is_named(name, Opt::AsHermite3)
                || is_named(name, Opt::Out)
                || is_named(name, Opt::Within)
        }
        Verb::Rescreen => {
            is_of_screening(name) || is_named(name, Opt::Update) || is_named(name, Opt::Changed)
        }
    }
}

/// Whether it is an option of each command that screens the files of a directory.
fn is_of_screening(name: &[u8]) -> bool
    ensures { result ≡ spec.is_screening_name name.now }
{
    is_of_directory(name)
        || is_named(name, Opt::Workers)
        || is_named(name, Opt::Originator)
        || is_named(name, Opt::Cells)
        || is_named(name, Opt::CertVersion)
        || is_named(name, Opt::Out)
        || is_named(name, Opt::Rtn)
        || is_named(name, Opt::Coverage)
        || is_named(name, Opt::MustCover)
        || is_named(name, Opt::Brief)
        || is_named(name, Opt::Primaries)
}

/// Whether it is an option of each command that checks the certificate of a directory.
fn is_of_checking(name: &[u8]) -> bool
    ensures { result ≡ spec.is_checking_name name.now }
{
    is_of_directory(name)
        || is_named(name, Opt::Cert)
        || is_named(name, Opt::CertDir)
        || is_named(name, Opt::Update)
        || is_named(name, Opt::Brief)
        || is_named(name, Opt::Primaries)
}

/// Whether it is an option of each command that reads the files of a directory.
fn is_of_directory(name: &[u8]) -> bool
    ensures { result ≡ spec.is_directory_name name.now }
{
    is_named(name, Opt::Threshold)
        || is_named(name, Opt::From)
        || is_named(name, Opt::To)
        || is_named(name, Opt::Suffix)
        || is_named(name, Opt::AsHermite3)
        || is_named(name, Opt::Sizes)
        || is_telling(name)
}

/// Whether it is an option of each command that makes up a catalogue.
fn is_of_catalogue(name: &[u8]) -> bool
    ensures { result ≡ spec.is_catalogue_name name.now }
{
    is_named(name, Opt::Seed) || is_named(name, Opt::Objects) || is_named(name, Opt::Minutes)
}

/// Whether it is the name of this option.
fn is_named(name: &[u8], option: Opt) -> bool
    ensures { result ≡ bytes_eq name.now (name_of option) }
{
    name == option_name(option)
}

/// Whether the option stands.
pub fn is_given(words: &[Word], option: Opt) -> bool
    requires { IsTrue (spec.are_listed (given_of words.now)) }
    ensures { result ≡ spec.is_given option (listed (given_of words.now)) }
{
    1 <= count_of(words, option)
}

fn count_of(words: &[Word], option: Opt) -> usize
    requires { IsTrue (spec.are_listed (given_of words.now)) }
    ensures { result ≡ spec.count_of option (listed (given_of words.now)) }
{
    let mut count = 0;
    let mut rest = words;
    while let Some(front) = front_of(rest) {
        if is_named(front.name, option) {
            count += 1;
        }
        rest = front.rest;
    }
    count
}

/// The value of an option, where it stands.
pub fn value_of(words: &[Word], option: Opt) -> Option<&[u8]>
    requires { IsTrue (spec.are_listed (given_of words.now)) }
    ensures { option_copied result ≡ spec.value_of option (listed (given_of words.now)) }
{
    let mut rest = words;
    while let Some(front) = front_of(rest) {
        if is_named(front.name, option) {
            return Some(front.value);
        }
        rest = front.rest;
    }
    None
}
