//! The candidates of a slot, by the listed shells and the exact boxes.
ghost use Rattle.std.specs.Prelude.{◌≡◌, ◌<◌, All, length, map, OnOk};
ghost use Rattle.cj_case.specs.Pairs.{ArePairsKept, objects_of};
ghost use Rattle.cj_case.specs.Problems.{plain_problem};
ghost use Rattle.cj_case.specs.Slots.{slot_count};
ghost use Rattle.cj_brief.specs.Certificates.{plain_brief};
ghost use Rattle.cj_brief_checker.specs.Shown.{AreBoxes};
ghost use Rattle.cj_brief_checker.specs.SlotPairs.{AreInOrder, candidates_in};

use cj_brief::BriefCertificate;
use cj_case::{AxisBox, BySlot, Pair, Problem};
use cj_checker::Sweep;
use std::alloc::{AllocError, Global};

/// Puts pairs in order, each once.
fn put_in_order(pairs: &mut Vec<Pair>)
    ensures order { AreInOrder pairs.new.items }
    ensures from { ArePairsKept pairs.new.items pairs.old.items }
    ensures kept { ArePairsKept pairs.old.items pairs.new.items }
{
    pairs.sort_unstable();
    pairs.dedup();
}

/// The candidates of a slot, and what they are found by.
#[derive(Drop)]
pub(crate) struct SlotPairs {
    here: Vec<Option<AxisBox>>,
    sweep: Sweep,
    pub pairs: Vec<Pair>,
}

impl SlotPairs {
    pub(crate) fn new(alloc: Global) -> Self {
        SlotPairs {
            here: Vec::new(alloc),
            sweep: Sweep::new(alloc),
            pairs: Vec::new(alloc),
        }
    }

    /// Finds the candidates of a slot, in order, by the boxes of all objects in all slots.
    pub(crate) fn find(
        &mut self,
        problem: &Problem,
        boxes: &BySlot<Option<AxisBox>>,
        cert: &BriefCertificate,
        slot: u32,
    ) -> Result<(), AllocError>
        requires boxes { AreBoxes (plain_problem problem.now) boxes.now }
        requires shells { length cert.now.shells.items ≡ length problem.now.tracks }
        requires exists { slot < slot_count problem.now.window.first.micros problem.now.window.last.micros }
        ensures exist { OnOk result (All (λ pair. pair.b < length problem.now.tracks) self.new.pairs.items) }
        ensures value { OnOk result (map objects_of self.new.pairs.items ≡ candidates_in (plain_problem problem.now) (plain_brief cert.now) slot) }
    {
        let objects = problem.tracks.as_slice().len() as u32;
        boxes.in_slot(slot, &mut self.here)?;
        self.sweep.find(
            problem,
            &cert.shells,
            &self.here,
            0,
            objects,
            &mut self.pairs,
        )?;
        put_in_order(&mut self.pairs);
        Ok(())
    }
}
