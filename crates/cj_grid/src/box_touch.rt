//! Whether two boxes touch.
ghost use Rattle.std.specs.Prelude.{◌≡◌, ℕ, ◌+◌, ◌^◌, ◌<◌, ◌≤◌, IsFalse};
ghost use Rattle.cj_hermite.specs.Interpolant.{Curve};
ghost use Rattle.cj_hermite.specs.Distance.{IsFar};
ghost use Rattle.cj_bezier.specs.SlotBoxes.{IsPlaceIn, are_touching};
ghost use Rattle.cj_case.specs.Boxes.{plain_box};

use cj_bezier::box_touches;
use cj_case::AxisBox;
use cj_steps::Steps;
use std::sync::ledger::Ledger;

/// Whether two boxes are apart by at most a threshold in nm on each axis. It is one step.
pub fn touches<L: Ledger>(a: &AxisBox, b: &AxisBox, thr: u64, steps: &mut Steps<L>) -> bool
    requires least { 10 ^ 9 ≤ thr }
    requires most { thr ≤ 10 ^ 16 }

    ensures value { result ≡ are_touching thr a.now b.now }
    ensures steps { steps.new ≡ steps.old + 1 }

    // Interpolants with places in boxes that do not touch are far.
    ensures law { (c d : Curve) (m : ℕ) → 0 < c.span → 0 < d.span → IsPlaceIn c m (plain_box a.now) → IsPlaceIn d m (plain_box b.now)
        → IsFalse result → IsFar c d thr m }
{
    steps.tick();
    box_touches(a, b, thr)
}
