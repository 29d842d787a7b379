//! From options to the settings over the files of a directory.
ghost use Rattle.std.specs.Prelude.{◌≡◌, ◌≤◌, IsTrue, Option, Some, None, IfOk, option_map};
ghost use Rattle.std.specs.Option.{option_copied};
ghost use Rattle.cj_base.specs.PlainTicks.{micros_of};
ghost use Rattle.cj_words.specs.Options as options;
ghost use Rattle.cj_words.specs.Options.{given_of, listed};
ghost use Rattle.cj_words.specs.Settings as spec;
ghost use Rattle.cj_words.specs.Settings.{lent_bytes, plain_settings, said};

use crate::given::{is_given, value_of};
use crate::limits::limits_of;
use crate::numbers::{number_or, out_of_range};
use crate::option::{Opt, UsageFault};
use crate::settings::{Settings, Word};
use crate::texts::{file_text_or, name_or};
use cj_base::Tick;
use cj_epoch::read_epoch;

/// The greatest miss distance that is reported, in metres.
pub fn threshold_of(words: &[Word]) -> Result<u64, UsageFault>
    requires { IsTrue (options.are_listed (given_of words.now)) }
    ensures value { result ≡ spec.threshold_of (listed (given_of words.now)) }
    ensures some { IfOk result (λ n. 1 ≤ n) }
    ensures most { IfOk result (λ n. n ≤ 1_000_000) }
{
    match number_or(value_of(words, Opt::Threshold), 1, 1_000_000, 5000) {
        Some(threshold) => Ok(threshold),
        None => Err(out_of_range(Opt::Threshold)),
    }
}

/// What the names of the files that are taken end with.
pub fn suffix_of(words: &[Word]) -> Result<&[u8], UsageFault>
    requires { IsTrue (options.are_listed (given_of words.now)) }
    ensures { said lent_bytes result ≡ spec.suffix_of (listed (given_of words.now)) }
{
    match file_text_or(value_of(words, Opt::Suffix), 20, b".oem") {
        Some(suffix) => Ok(suffix),
        None => Err(out_of_range(Opt::Suffix)),
    }
}

/// The settings with this threshold but for the files of sizes and of primaries, which stand behind the other options.
#[tactic(auto, unfolding(crate::specs::Settings::unsized_of))]
pub fn unsized_of(words: &[Word], threshold: u64) -> Result<Settings<'_>, UsageFault>
    requires listed { IsTrue (options.are_listed (given_of words.now)) }
    requires some { 1 ≤ threshold }
    requires most { threshold ≤ 1_000_000 }
    ensures value { said plain_settings result ≡ spec.unsized_of threshold (listed (given_of words.now)) }
    ensures large { IfOk result (λ asked. asked.large ≡ options.is_given Opt.Large (listed (given_of words.now))) }
{
    let Some(from) = epoch_or(value_of(words, Opt::From)) else {
        return Err(out_of_range(Opt::From));
    };
    let Some(to) = epoch_or(value_of(words, Opt::To)) else {
        return Err(out_of_range(Opt::To));
    };
    if !are_in_order(from, to) {
        return Err(out_of_range(Opt::To));
    }
    let suffix = suffix_of(words)?;
    let large = is_given(words, Opt::Large);
    Ok(Settings {
        threshold,
        from,
        to,
        suffix,
        as_hermite3: is_given(words, Opt::AsHermite3),
        sizes: None,
        primaries: None,
        coverage: is_given(words, Opt::Coverage),
        must_cover: is_given(words, Opt::MustCover),
        large,
        limits: limits_of(large),
    })
}

/// These settings with the files of sizes and of primaries that the options name, where they name them.
#[tactic(auto, unfolding(crate::specs::Settings::sized_of))]
pub fn sized_of<'w>(
    mut settings: Settings<'w>,
    words: &'w [Word],
) -> Result<Settings<'w>, UsageFault>
    requires { IsTrue (options.are_listed (given_of words.now)) }
    ensures value { said plain_settings result ≡ spec.sized_of (plain_settings settings.entry) (listed (given_of words.now)) }
    ensures limits { IfOk result (λ sized. sized.limits ≡ settings.entry.limits) }
    ensures large { IfOk result (λ sized. sized.large ≡ settings.entry.large) }
{
    let Some(sizes) = name_or(value_of(words, Opt::Sizes)) else {
        return Err(out_of_range(Opt::Sizes));
    };
    let Some(primaries) = name_or(value_of(words, Opt::Primaries)) else {
        return Err(out_of_range(Opt::Primaries));
    };
    settings.sizes = sizes;
    settings.primaries = primaries;
    Ok(settings)
}

/// The tick that a value says, none where it is left out.
fn epoch_or(value: Option<&[u8]>) -> Option<Option<Tick>>
    ensures { option_map (λ tick. option_map micros_of tick) result ≡ spec.epoch_or (option_copied value.entry) }
{
    match value {
        None => Some(None),
        Some(text) => match read_epoch(text) {
            Ok(tick) => Some(Some(tick)),
            Err(_) => None,
        },
    }
}

fn are_in_order(from: Option<Tick>, to: Option<Tick>) -> bool
    ensures { result ≡ spec.are_in_order (option_map micros_of from) (option_map micros_of to) }
{
    match (from, to) {
        (Some(from), Some(to)) => from.micros <= to.micros,
        _ => true,
    }
}
