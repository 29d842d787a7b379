//! The look at a cell of a problem.
ghost use Rattle.std.specs.Prelude.{◌≡◌, ◌+◌};
ghost use Rattle.cj_case.specs.Problems.{plain_problem};
ghost use Rattle.cj_bezier.specs.Halves.{AreHalves};
ghost use Rattle.cj_case.specs.Cells.{plain_cell};
ghost use Rattle.cj_bezier.specs.RootLeaves.{kind_of_cell};
ghost use Rattle.cj_cells.specs.Looks.{kind_found, IfClosed, IfHalves};
ghost use Rattle.cj_hermite.specs.Roots.{KeepPieces};

use crate::looker::Looker;
use crate::outcome::Look;
use crate::preparing::prepare;
use crate::ready_look::look_at;
use cj_case::{Cell, Problem};
use cj_interval::Divisor;
use cj_steps::Steps;
use std::sync::ledger::Ledger;

/// How long the pieces of most tracks are: a minute of ticks.
pub(crate) const USUAL_SPAN: u64 = 60_000_000;

impl<'p> Looker<'p> {
    /// Looks at cells of a problem.
    pub fn new(problem: &'p Problem) -> Self
        ensures { result ≡ problem.now }
    {
        Looker {
            problem,
            last: None,
        }
    }

    /// The leaf of a cell whose ticks have the same two pieces, where they are of one kind, or else its halves. Its pieces are made
    /// ready where they are not those of the last cell for which that was done.
    pub fn look(&mut self, cell: Cell) -> Look
        requires { KeepPieces (plain_problem self.old) cell.pair.a cell.pair.b cell.first.micros cell.last.micros }
        ensures same { self.new ≡ self.old }
        ensures kind { kind_found result ≡ kind_of_cell (plain_problem self.old) (plain_cell cell) }
        ensures closed { IfClosed result (λ leaf. leaf.cell ≡ cell) }
        ensures halved { IfHalves result (AreHalves cell) }
    {
        let threshold = self.problem.pair_threshold(cell.pair);
        let mut like = Divisor::new(USUAL_SPAN);
        if let Some(last) = &self.last {
            if last.are_of(cell) {
                return look_at(&last.a, &last.b, threshold, cell);
            }
            like = last.b.divisor;
        }
        let ready = prepare(self.problem, cell, &like);
        self.last = Some(ready);
        look_at(&ready.a, &ready.b, threshold, cell)
    }
}

/// The leaf of a cell whose ticks have the same two pieces, where they are of one kind, or else its halves: a look at one cell alone.
pub fn look(problem: &Problem, cell: Cell) -> Look
    requires { KeepPieces (plain_problem problem.now) cell.pair.a cell.pair.b cell.first.micros cell.last.micros }
    ensures kind { kind_found result ≡ kind_of_cell (plain_problem problem.now) (plain_cell cell) }
    ensures closed { IfClosed result (λ leaf. leaf.cell ≡ cell) }
    ensures halved { IfHalves result (AreHalves cell) }
{
    Looker::new(problem).look(cell)
}

/// The same, and one step more.
pub fn look_once<L: Ledger>(problem: &Problem, cell: Cell, steps: &mut Steps<L>) -> Look
    requires { KeepPieces (plain_problem problem.now) cell.pair.a cell.pair.b cell.first.micros cell.last.micros }
    ensures kind { kind_found result ≡ kind_of_cell (plain_problem problem.now) (plain_cell cell) }
    ensures closed { IfClosed result (λ leaf. leaf.cell ≡ cell) }
    ensures halved { IfHalves result (AreHalves cell) }
    ensures steps { steps.new ≡ steps.old + 1 }
{
    steps.tick();
    look(problem, cell)
}
