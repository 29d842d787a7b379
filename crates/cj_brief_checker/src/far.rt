//! Whether a root is far throughout.
ghost use Rattle.std.specs.Prelude.{◌≡◌, ℕ, ◌^◌, ◌≤◌};
ghost use Rattle.cj_case.specs.PlainProblems.{PlainProblem};
ghost use Rattle.cj_hermite.specs.Interpolant.{IsOver};
ghost use Rattle.cj_hermite.specs.Ready.{curve_ready};
ghost use Rattle.cj_bezier.specs.RootLeaves.{is_far_throughout as the_test};
ghost use Rattle.cj_bezier.specs.Verdicts.{cell_verdict};
ghost use Rattle.cj_checker.specs.Tiling.{AreOver, IsOf, root_from};
ghost use Rattle.cj_brief_checker.specs.FarThroughout.{IsVerdictOf, are_far as the_are_far};

use cj_base::Tick;
use cj_bezier::{Verdict, judge};
use cj_checker::Root;
use cj_hermite::Ready;

/// The verdict on all ticks of a root.
pub(crate) fn verdict_of(root: &Root) -> Verdict
    requires some { root.now.ticks.first.micros ≤ root.now.ticks.last.micros }
    requires over { AreOver root.now root.now.ticks.first.micros root.now.ticks.last.micros }
    ensures { IsVerdictOf root.now result }
{
    let (first, last) = (root.ticks.first, root.ticks.last);
    judge(&root.first, &root.second, root.thr, first, last)
}

/// Whether each leaf of a root is far, by the verdict on all of its ticks.
pub(crate) fn is_far_throughout(root: &Root, verdict: Verdict) -> bool
    requires some { root.now.ticks.first.micros ≤ root.now.ticks.last.micros }
    requires over { AreOver root.now root.now.ticks.first.micros root.now.ticks.last.micros }
    requires verdict { IsVerdictOf root.now verdict }
    ensures { (case : PlainProblem) → IsOf case root.now → result ≡ the_test case (root_from root.now root.now.ticks.first.micros) }
{
    let (first, last) = (root.ticks.first, root.ticks.last);
    are_far(&root.first, &root.second, root.thr, verdict, first, last)
}

/// Whether two pieces are far, by a threshold in nm and the verdict on the ticks from `first` to `last`, in each of the parts to which these
/// are halved: part by part, and at the first part that is closed and not far it is known that they are not.
fn are_far(a: &Ready, b: &Ready, thr: u64, verdict: Verdict, first: Tick, last: Tick) -> bool
    requires order { first.micros ≤ last.micros }
    requires first_over { IsOver (curve_ready a.now) first.micros last.micros }
    requires second_over { IsOver (curve_ready b.now) first.micros last.micros }
    requires least { 10 ^ 9 ≤ thr }
    requires most { thr ≤ 10 ^ 16 }
    requires verdict { verdict ≡ cell_verdict (curve_ready a.now) (curve_ready b.now) thr first.micros last.micros }
    ensures { (one other : ℕ) → result ≡ the_are_far thr (curve_ready a.now) (curve_ready b.now) one other first.micros last.micros }
{
    match verdict {
        Verdict::Far => true,
        Verdict::Near => false,
        Verdict::Undecided => false,
        Verdict::Split => {
            let middle = Tick {
                micros: (first.micros + last.micros) / 2,
            };
            let next = middle.next();
            are_far(a, b, thr, judge(a, b, thr, first, middle), first, middle)
                && are_far(a, b, thr, judge(a, b, thr, next, last), next, last)
        }
    }
}
