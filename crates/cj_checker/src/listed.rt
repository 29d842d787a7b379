//! The boxes that a certificate lists, by slot and object.
ghost use Rattle.std.specs.Prelude.{◌≡◌, ℕ, ◌-◌, ◌^◌, ◌<◌, ◌≤◌, if◌then◌else◌, IfOk, None, Some, length, option_map, vec_len};
ghost use Rattle.cj_case.specs.Problems.{plain_problem};
ghost use Rattle.cj_case.specs.Boxes.{plain_box};
ghost use Rattle.cj_case.specs.Tables.{IsEven, value_at};
ghost use Rattle.cj_cert.specs.Certificates.{plain_box_line, plain_certificate};
ghost use Rattle.cj_cert.specs.Listed.{box_listed, is_line_of};
ghost use Rattle.cj_checker.specs.First.{box_failure};
ghost use Rattle.cj_checker.specs.ListedBoxes.{table_of};

use cj_case::{AxisBox, BySlot, Problem, slot_count};
use cj_cert::{BoxLine, Certificate};
use std::alloc::{AllocError, Global};

/// The box of each object in each slot, by the number of the line that has it.
#[derive(Drop)]
pub(crate) struct Listed<'c> {
    boxes: &'c [BoxLine],
    /// The number of the line, counted from 1, and 0 where there is none.
    numbers: BySlot<u32>,
}

impl<'c> Listed<'c> {
    /// The table of a certificate whose boxes are accepted.
    pub(crate) fn new(
        alloc: Global,
        problem: &Problem,
        cert: &'c Certificate,
    ) -> Result<Self, AllocError>
        requires few { vec_len cert.now.boxes < 2 ^ 32 - 5 }
        requires accepted { box_failure (plain_problem problem.now) (plain_certificate cert.now) ≡ None }
        ensures { IfOk result (λ listed. table_of listed ≡ box_listed (plain_certificate cert.now).boxes) }
    {
        let boxes = cert.boxes.as_slice();
        let objects = problem.tracks.as_slice().len() as u32;
        let mut numbers = BySlot::of_one(alloc, objects, slot_count(problem.window), 0)?;
        // From the last line to the first, so that each place keeps the first line that has it.
        let mut number = boxes.len() as u32;
        while 0 < number {
            enter(&mut numbers, &boxes[number as usize - 1], number);
            number -= 1;
        }
        Ok(Listed { boxes, numbers })
    }

    /// How many places it has: one for each object and slot.
    pub(crate) fn places(&self) -> usize {
        self.numbers
            .objects()
            .saturating_mul(self.numbers.slots() as usize)
    }

    /// The box of an object in a slot, where one is listed.
    pub(crate) fn of(&self, slot: u32, object: u32) -> Option<AxisBox>
        ensures { option_map plain_box result ≡ table_of self.now slot object }
    {
        if self.numbers.slots() <= slot || self.numbers.objects() <= object as usize {
            return None;
        }
        let before = self.numbers.at(object, slot).checked_sub(1)?;
        let line = self.boxes.get(before as usize)?;
        Some(line.area)
    }
}

/// Enters the number of a line in each of its slots.
fn enter(numbers: &mut BySlot<u32>, line: &BoxLine, number: u32)
    requires some { line.now.first ≤ line.now.last }
    requires slots { line.now.last < numbers.old.slots }
    requires few { numbers.old.slots < 2 ^ 32 }
    requires objects { line.now.object < length numbers.old.rows }
    ensures even { IsEven numbers.new }
    ensures objects { length numbers.new.rows ≡ length numbers.old.rows }
    ensures slots { numbers.new.slots ≡ numbers.old.slots }
    ensures entered { (slot object : ℕ) → value_at numbers.new.rows object slot
        ≡ (if is_line_of object slot (plain_box_line line.now) then Some number else value_at numbers.old.rows object slot) }
{
    numbers.fill(line.object, line.first, line.last + 1 - line.first, number);
}
