ghost use Rattle.std.specs.Prelude.{◌≡◌};
ghost use Rattle.std.specs.Option.{option_copied};
ghost use Rattle.cj_host.specs.Inputs as spec;
ghost use Rattle.cj_host.specs.Inputs.{plain_inputs};
ghost use Rattle.cj_words.specs.Commands.{command_of};
ghost use Rattle.cj_words.specs.Settings.{plain_settings};

use cj_words::{Command, Settings, Word, read_command};

/// The files of a directory that a run reads: those whose names end with the suffix or with the update suffix, those of sizes and of
/// primaries, and the report that is checked.
#[derive(Clone, Copy, Debug, PartialEq, Eq)]
pub struct Inputs<'w> {
    suffix: Option<&'w [u8]>,
    update: Option<&'w [u8]>,
    sizes: Option<&'w [u8]>,
    primaries: Option<&'w [u8]>,
    report: Option<&'w [u8]>,
}

impl<'w> Inputs<'w> {
    /// A run that reads no file of the directory.
    pub fn none() -> Inputs<'w>
        ensures { plain_inputs result ≡ spec.nothing }
    {
        Inputs {
            suffix: None,
            update: None,
            sizes: None,
            primaries: None,
            report: None,
        }
    }

    /// What the run of these words reads. A certificate is no part of it: what `rewrite` makes of one may take its place.
    pub fn of(words: &'w [Word]) -> Inputs<'w>
        ensures { plain_inputs result ≡ spec.reads_of (command_of words.now) }
    {
        match read_command(words) {
            Ok(Command::Screen(screening)) => Inputs::of_settings(screening.settings, None, None),
            Ok(Command::Check(checking)) => {
                Inputs::of_settings(checking.settings, checking.update, checking.report)
            }
            Ok(Command::Rewrite(checking)) => {
                Inputs::of_settings(checking.settings, checking.update, None)
            }
            Ok(Command::Rescreen(rescreening)) => Inputs::of_settings(
                rescreening.screening.settings,
                Some(rescreening.update),
                None,
            ),
            Ok(Command::Thin(thinning)) => Inputs {
                suffix: Some(thinning.suffix),
                ..Inputs::none()
            },
            _ => Inputs::none(),
        }
    }

    fn of_settings(
        settings: Settings<'w>,
        update: Option<&'w [u8]>,
        report: Option<&'w [u8]>,
    ) -> Inputs<'w>
        ensures { plain_inputs result ≡ spec.reads_asked (plain_settings settings.entry) (option_copied update.entry) (option_copied report.entry) }
    {
        Inputs {
            suffix: Some(settings.suffix),
            update,
            sizes: settings.sizes,
            primaries: settings.primaries,
            report,
        }
    }

    /// Whether a file of this name is read.
    pub fn have(&self, name: &[u8]) -> bool
        ensures { result ≡ spec.is_read (plain_inputs self.now) name.now }
    {
        has_suffix(self.suffix, name)
            || has_suffix(self.update, name)
            || has_name(self.sizes, name)
            || has_name(self.primaries, name)
            || has_name(self.report, name)
    }
}

fn has_suffix(suffix: Option<&[u8]>, name: &[u8]) -> bool
    ensures { result ≡ spec.has_suffix (option_copied suffix.entry) name.now }
{
    match suffix {
        Some(suffix) => name.ends_with(suffix),
        None => false,
    }
}

fn has_name(other: Option<&[u8]>, name: &[u8]) -> bool
    ensures { result ≡ spec.has_name (option_copied other.entry) name.now }
{
    match other {
        Some(other) => name == other,
        None => false,
    }
}
