ghost use Rattle.std.specs.Prelude.{◌≡◌};
ghost use Rattle.std.specs.Option.{option_copied};
ghost use Rattle.cj_words.specs.Settings.{plain_settings};
ghost use Rattle.cj_inputs.specs.InputFiles as spec;

use cj_words::Settings;

/// The names of files that are no ephemerides whatever they end with: those of sizes and of primaries, where there are such.
#[derive(Clone, Copy)]
pub struct Apart<'w> {
    pub sizes: Option<&'w [u8]>,
    pub primaries: Option<&'w [u8]>,
}

impl<'w> Apart<'w> {
    /// Those that settings name.
    pub fn of(settings: &Settings<'w>) -> Apart<'w>
        ensures { spec.plain_apart result ≡ spec.apart_of (plain_settings settings.now) }
    {
        Apart {
            sizes: settings.sizes,
            primaries: settings.primaries,
        }
    }

    /// There are none.
    pub fn none() -> Apart<'w>
        ensures { spec.plain_apart result ≡ spec.none_apart }
    {
        Apart {
            sizes: None,
            primaries: None,
        }
    }

    /// Whether the file with this name is one of them.
    pub fn has(self, name: &[u8]) -> bool
        ensures { result ≡ spec.is_apart (spec.plain_apart self.entry) name.now }
    {
        has_name(self.sizes, name) || has_name(self.primaries, name)
    }
}

/// Whether a file is named, and this is its name.
fn has_name(file: Option<&[u8]>, name: &[u8]) -> bool
    ensures { result ≡ spec.has_name (option_copied file.entry) name.now }
{
    match file {
        Some(other) => name == other,
        None => false,
    }
}
