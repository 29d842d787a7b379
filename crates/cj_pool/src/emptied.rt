ghost use Rattle.std.specs.Prelude.{◌≡◌, length};

use crate::refinery::Refinery;
use crate::run::Run;
use cj_case::Problem;
use cj_ledger::Ledger;

/// What is left of a refinery whose deques are given up.
#[derive(Drop)]
pub(crate) struct Emptied<'p> {
    pub problem: &'p Problem,
    pub limit: u64,
    pub ledger: Ledger,
}

impl<'p, K: Run> Refinery<'p, K> {
    /// Gives up the deques, and the memory that they hold.
    pub(crate) fn without_deques(self) -> Emptied<'p>
        ensures problem { result.problem.now ≡ self.entry.problem }
        ensures limit { result.limit ≡ self.entry.limit }
        ensures ledger { result.ledger ≡ self.entry.ledger }
        ensures opening { result.ledger.opening ≡ record { roots = length self.entry.roots; shares = self.entry.hands } }
    {
        let Refinery {
            problem,
            limit,
            thieves: _,
            ledger,
            of: _,
        } = self;
        Emptied {
            problem,
            limit,
            ledger,
        }
    }
}
