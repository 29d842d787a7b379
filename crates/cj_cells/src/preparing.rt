//! The pieces of a cell, made ready.
ghost use Rattle.std.specs.Prelude.{◌≡◌};
ghost use Rattle.cj_case.specs.Problems.{plain_problem};
ghost use Rattle.cj_hermite.specs.Roots.{KeepPieces};
ghost use Rattle.cj_cells.specs.ReadyPairs.{IsReadyPair};

use crate::ready_pair::ReadyPair;
use cj_case::{Cell, Problem};
use cj_hermite::{piece_of, ready};
use cj_interval::Divisor;

/// The pieces of both objects over a cell whose ticks have the same two pieces, made ready: for less where they are as long as one
/// that was made ready before.
pub(crate) fn prepare(problem: &Problem, cell: Cell, like: &Divisor) -> ReadyPair
    requires { KeepPieces (plain_problem problem.now) cell.pair.a cell.pair.b cell.first.micros cell.last.micros }
    ensures pair { result.pair ≡ cell.pair }
    ensures first { result.first ≡ cell.first }
    ensures last { result.last ≡ cell.last }
    ensures ready { IsReadyPair (plain_problem problem.now) result }
{
    let first = piece_of(problem, cell.pair.a, cell.first);
    let second = piece_of(problem, cell.pair.b, cell.first);
    let a = ready(&first, like);
    ReadyPair {
        pair: cell.pair,
        first: cell.first,
        last: cell.last,
        a,
        b: ready(&second, &a.divisor),
    }
}
