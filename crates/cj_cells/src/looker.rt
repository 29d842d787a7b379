use crate::ready_pair::ReadyPair;
use cj_case::Problem;
use std::marker::Model;

/// Looks at many cells of a problem in turn, for less where they have the same two pieces as the one before. Its type keeps that
/// what it has made ready are pieces of the problem.
#[derive(Drop)]
pub struct Looker<'p> {
    pub(crate) problem: &'p Problem,
    pub(crate) last: Option<ReadyPair>,
}

impl<'p> Model for Looker<'p> {
    ghost use Rattle.std.specs.Prelude.{IfSome};
    ghost use Rattle.cj_case.specs.declared.problem.Problem.{Problem};
    ghost use Rattle.cj_case.specs.Problems.{plain_problem};
    ghost use Rattle.cj_cells.specs.ReadyPairs.{IsReadyPair};

    ghost Value = { Problem };

    ghost view = { λ l. l.problem.now };

    ghost invariant = { λ l. IfSome l.last (IsReadyPair (plain_problem l.problem.now)) };
}
