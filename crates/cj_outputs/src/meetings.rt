//! From the leaves of a problem to its encounters and what is told of them.
ghost use Rattle.std.specs.Prelude.{◌≤◌, length, All, IfOk, OnOk};
ghost use Rattle.cj_base.specs.Bounds.{MOST_LEAVES};
ghost use Rattle.cj_case.specs.Problems.{plain_problem};
ghost use Rattle.cj_case.specs.Leaves.{plain_leaves};
ghost use Rattle.cj_case.specs.Order.{AreInOrder};
ghost use Rattle.cj_meet.specs.Closest.{HasNearest, KeepTheirPieces};
ghost use Rattle.cj_meet.specs.Encounters.{encounters_of};
ghost use Rattle.cj_meet.specs.Spans.{HaveExactSpans};
ghost use Rattle.cj_outputs.specs.Meetings.{AreMeetings};

use crate::messages::note_messages;
use cj_case::{Closest, Encounter, Leaf, Problem};
use cj_io::Gate;
use cj_meet::{closest_approaches, encounters};
use std::alloc::{AllocError, Global};
use std::thread::Threads;

/// The encounters of a problem, and what is told of each.
#[derive(Drop)]
pub struct Meetings {
    /// The encounters of the leaves.
    pub encounters: Vec<Encounter>,
    /// The closest approach of each encounter.
    pub closest: Vec<Closest>,
    /// Whether each encounter has a message.
    pub messages: Vec<bool>,
}

/// The encounters of these leaves of a problem, whose closest approaches so many workers search.
pub fn find_meetings<R: Threads + Sync, G: Gate + Sync>(
    rt: &R,
    alloc: Global,
    gate: &G,
    problem: &Problem,
    leaves: &[Leaf],
    workers: u32,
) -> Result<Meetings, AllocError>
    requires in_order { AreInOrder (plain_leaves leaves.now) }
    requires few { length leaves.now ≤ MOST_LEAVES }
    requires pieces { KeepTheirPieces (plain_problem problem.now) (plain_leaves leaves.now) }
    ensures meetings { IfOk result (AreMeetings (plain_problem problem.now) (plain_leaves leaves.now)) }
    ensures spans { HaveExactSpans (plain_leaves leaves.now) }
    ensures nearest { OnOk result (All (HasNearest (plain_problem problem.now)) (encounters_of (plain_leaves leaves.now))) }
{
    let encounters = encounters(alloc, leaves)?;
    let closest = closest_approaches(rt, alloc, gate, problem, leaves, &encounters, workers)?;
    let messages = note_messages(alloc, problem, &encounters, &closest)?;
    Ok(Meetings {
        encounters,
        closest,
        messages,
    })
}
