//! Roots, made ready for the hulls of their cells.
ghost use Rattle.std.specs.Prelude.{◌≡◌, ◌*◌, ◌^◌, ◌<◌, ◌≤◌, length};
ghost use Rattle.cj_hermite.specs.Interpolant.{curve_of, IsOver};
ghost use Rattle.cj_case.specs.PlainProblems.{threshold_of};
ghost use Rattle.cj_case.specs.Problems.{plain_problem};
ghost use Rattle.cj_hermite.specs.Ready.{curve_ready};
ghost use Rattle.cj_bezier.specs.Gaps.{gap_terms, hull_gap};
ghost use Rattle.cj_bezier.specs.Verdicts.{supported};

use cj_base::Window;
use cj_bezier::{gap, hull_ready, supports};
use cj_case::{Pair, Problem};
use cj_cert::CellLine;
use cj_hermite::{CommonRun, Ready, ready};
use cj_interval::Divisor;

/// A root: ticks of a pair at which both are at one piece each, made ready.
#[derive(Clone, Copy)]
pub struct Root {
    pub pair: Pair,
    pub ticks: Window,
    /// The threshold of the pair in nm.
    pub thr: u64,
    pub first: Ready,
    pub second: Ready,
    pub ghost least: { 10 ^ 9 ≤ thr },
    pub ghost most: { thr ≤ 1002 * 10 ^ 12 },
}

impl Root {
    pub fn new(problem: &Problem, pair: Pair, run: &CommonRun) -> Self
        requires { pair.b < length problem.now.tracks }
        ensures pair { result.pair ≡ pair }
        ensures ticks { result.ticks ≡ run.now.ticks }
        ensures threshold { result.thr ≡ threshold_of (plain_problem problem.now) pair.a pair.b }
        ensures first { curve_ready result.first ≡ curve_of run.now.first }
        ensures second { curve_ready result.second ≡ curve_of run.now.second }
    {
        let (x, y) = (&run.first, &run.second);
        let first = ready(x, &Divisor::new(x.t1.since(x.t0)));
        let second = ready(y, &first.divisor);
        Root {
            pair,
            ticks: run.ticks,
            thr: problem.pair_threshold(pair),
            first,
            second,
        }
    }

    /// Whether the gap of both hulls over a cell supports its kind.
    pub fn supports(&self, cell: &CellLine) -> bool
        requires one { IsOver (curve_ready self.now.first) cell.now.first.micros cell.now.last.micros }
        requires other { IsOver (curve_ready self.now.second) cell.now.first.micros cell.now.last.micros }
        ensures { result ≡ supported
            (gap_terms (hull_gap (curve_ready self.now.first) (curve_ready self.now.second) cell.now.first.micros cell.now.last.micros))
            self.now.thr cell.now.kind }
    {
        let a = hull_ready(&self.first, cell.first, cell.last);
        let b = hull_ready(&self.second, cell.first, cell.last);
        supports(&gap(&a, &b), self.thr, cell.kind)
    }
}
