use crate::difference::Difference;
use crate::stage::Stage;
use crate::warning::Warning;
use std::sync::Wait;

/// What a worker passes before each of its turns. It is also told how far the run has come. What it does with that is its own: no clause speaks of it,
/// and nothing that a run finds or puts hangs on it.
pub trait Gate {
    /// Called before each turn of a worker. The turns of a run are counted from 1, and their number stays at the greatest
    /// value of a `u64` once it is reached. The call may wait.
    fn enter<R: Wait>(&self, rt: &R, worker: u32, turn: u64);

    /// A stage begins, or begins anew, with so many parts.
    fn begin(&self, _stage: Stage, _parts: u64) {}

    /// So many more parts of a stage are done.
    fn advance(&self, _stage: Stage, _parts: u64) {}

    /// A worker has looked at cells: so many more are halved, and so many more are leaves.
    fn looked(&self, _worker: u32, _halved: u64, _closed: u64) {}

    /// Whether somebody wants to be warned. Where nobody does, nothing is looked for of which to warn.
    fn is_warned(&self) -> bool {
        false
    }

    /// Warns of so many things of a kind. This is the name of the first.
    fn warn(&self, _warning: Warning, _count: u64, _first: &[u8]) {}

    /// Whether somebody wants to be told, where a file is refused, the first fault of each file.
    fn wants_all_faults(&self) -> bool {
        false
    }

    /// Tells the fault line of a file that is refused.
    fn refuse(&self, _line: &[u8]) {}

    /// Tells what a certificate that is refused states otherwise than the case has it.
    fn differ(&self, _difference: Difference) {}
}

/// A gate that is always open: it returns at once.
#[derive(Clone, Copy, Debug, Default, PartialEq, Eq)]
pub struct OpenGate;

impl Gate for OpenGate {
    fn enter<R: Wait>(&self, _rt: &R, _worker: u32, _turn: u64) {}
}
