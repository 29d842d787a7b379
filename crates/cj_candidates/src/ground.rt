ghost use Rattle.std.specs.Prelude.{◌≡◌, length};
ghost use Rattle.cj_case.specs.Problems.{plain_problem};
ghost use Rattle.cj_case.specs.Slots.{slot_count};
ghost use Rattle.cj_case.specs.Boxes.{plain_rows};
ghost use Rattle.cj_bezier.specs.Candidates.{shells_of};
ghost use Rattle.cj_bezier.specs.AllBoxes.{boxes_of};
ghost use Rattle.cj_candidates.specs.SoughtPairs.{ArePairsOf, pairs_sought};

use crate::sought_pairs::Sought;
use cj_case::{Measured, Problem};

/// What is known of the objects of a problem before their pairs are compared: their shells, and their boxes in all slots; and which pairs are compared.
#[derive(Clone, Copy)]
pub struct Ground<'g, 's> {
    pub problem: &'g Problem,
    pub measured: &'g Measured,
    /// How many slots the window has.
    pub slots: u32,
    pub sought: Sought<'s>,
    pub ghost in_shells: { measured.now.shells.items ≡ shells_of (plain_problem problem.now) },
    pub ghost in_boxes: { plain_rows measured.now.boxes.rows ≡ boxes_of (plain_problem problem.now) },
    pub ghost in_slots: { measured.now.boxes.slots ≡ slots },
    pub ghost counted: { slots ≡ slot_count problem.now.window.first.micros problem.now.window.last.micros },
    pub ghost are_pairs: { ArePairsOf (length (plain_problem problem.now).tracks) (pairs_sought (plain_problem problem.now) sought) },
}
