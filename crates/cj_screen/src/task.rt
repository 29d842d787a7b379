ghost use Rattle.std.specs.Prelude.{◌≡◌};
ghost use Rattle.cj_screen.specs.Tasks.{puts_files};

use cj_case::Problem;
use cj_inputs::{LoneTracks, Updating};
use cj_outputs::AnyCertificate;
use cj_words::{Recipe, Rescreening, Screening, Selfrun, Thinning};

/// What a command line asks for, once all that it reads is accepted.
#[derive(Drop)]
pub enum Task<'w> {
    /// A problem is screened.
    Screen(Problem, Screening<'w>),
    /// It is told that the certificate is accepted.
    Accept,
    /// A catalogue is made up.
    Make(Recipe),
    /// A made-up catalogue is screened.
    Selfrun(Selfrun),
    /// A certificate that is accepted is put, as it is rewritten.
    Renew(AnyCertificate),
    /// Tracks are put with fewer nodes.
    Thin(LoneTracks, Thinning<'w>),
    /// A problem is screened again after updates.
    Rescreen(Updating, Rescreening<'w>),
}

impl Task<'_> {
    /// Whether files are put, and not only what goes to standard output.
    pub fn puts_files(&self) -> bool
        ensures { result ≡ puts_files self.now }
    {
        match self {
            Task::Screen(..)
            | Task::Make(_)
            | Task::Renew(_)
            | Task::Thin(..)
            | Task::Rescreen(..) => true,
            Task::Accept | Task::Selfrun(_) => false,
        }
    }
}
