//! The look at a cell of two pieces made ready.
ghost use Rattle.std.specs.Prelude.{◌≡◌, ◌^◌, ◌<◌, ◌≤◌};
ghost use Rattle.cj_hermite.specs.Interpolant.{IsOver};
ghost use Rattle.cj_hermite.specs.Ready.{curve_ready};
ghost use Rattle.cj_bezier.specs.RootLeaves.{kind_between};
ghost use Rattle.cj_cells.specs.Looks.{kind_found, IfClosed, IfHalves};
ghost use Rattle.cj_bezier.specs.Halves.{AreHalves};

use crate::outcome::Look;
use cj_base::Tick;
use cj_bezier::{Verdict, judge};
use cj_case::{Cell, Kind, Leaf};
use cj_hermite::Ready;

/// The halves of a cell of two ticks or more.
fn halves(cell: Cell) -> (Cell, Cell)
    requires { cell.first.micros < cell.last.micros }
    ensures { AreHalves cell result.0 result.1 }
{
    let middle = (cell.first.micros + cell.last.micros) / 2;
    let left = Cell {
        pair: cell.pair,
        root: cell.root,
        first: cell.first,
        last: Tick { micros: middle },
    };
    let right = Cell {
        pair: cell.pair,
        root: cell.root,
        first: Tick { micros: middle + 1 },
        last: cell.last,
    };
    (left, right)
}

#[tactic(auto, unfolding(cj_bezier::specs::RootLeaves::kind_between))]
/// The leaf of a cell that is of one kind, or its halves.
pub(crate) fn look_at(a: &Ready, b: &Ready, thr: u64, cell: Cell) -> Look
    requires first_over { IsOver (curve_ready a.now) cell.first.micros cell.last.micros }
    requires second_over { IsOver (curve_ready b.now) cell.first.micros cell.last.micros }
    requires least { 10 ^ 9 ≤ thr }
    requires most { thr ≤ 10 ^ 16 }
    ensures kind { kind_found result ≡ kind_between (curve_ready a.now) (curve_ready b.now) thr cell.first.micros cell.last.micros }
    ensures closed { IfClosed result (λ leaf. leaf.cell ≡ cell) }
    ensures halved { IfHalves result (AreHalves cell) }
{
    let kind = match judge(a, b, thr, cell.first, cell.last) {
        Verdict::Far => Kind::Far,
        Verdict::Near => Kind::Near,
        Verdict::Undecided => Kind::Undecided,
        Verdict::Split => {
            let (left, right) = halves(cell);
            return Look::Halves(left, right);
        }
    };
    Look::Closed(Leaf { cell, kind })
}
