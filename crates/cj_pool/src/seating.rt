//! Hands on their stations.
ghost use Rattle.std.specs.Prelude.{◌≡◌, length, map, All, IfOk};
ghost use Rattle.std.specs.List.{range_with_len};
ghost use Rattle.cj_case.specs.Problems.{plain_problem};
ghost use Rattle.cj_ledger.specs.Counts.{fresh};
ghost use Rattle.cj_pool.specs.Hands.{IsUnstarted, roots_dealt};
ghost use Rattle.cj_pool.specs.Refined.{numbers_of};
ghost use Rattle.cj_pool.specs.RootLists.{AreRoots};
ghost use Rattle.cj_pool.specs.Stations.{AreDealt, AreStations, IsUnused, own_deques};

use crate::hand::Hand;
use crate::run::Run;
use crate::station::Station;
use arrayvec::ArrayVec;
use cj_case::Problem;
use cj_cells::Looker;
use cj_ledger::Share;
use std::alloc::{AllocError, Global};
use std::marker::PhantomData;

/// A hand for each station, with one of the shares and room for so many leaves.
pub(crate) fn seat<'p, K: Run>(
    alloc: Global,
    problem: &'p Problem,
    mut stations: Vec<Station<K>>,
    mut shares: Vec<Share>,
    room: usize,
) -> Result<Vec<Hand<'p, K>>, AllocError>
    requires problem { problem.now ≡ K.problem }
    requires roots { AreRoots (plain_problem K.problem) K.roots }
    requires stations { AreStations K.workers stations.items }
    requires len { (length stations.items ≡ K.workers) × (length shares.items ≡ K.workers) }
    requires unused { All IsUnused stations.items }
    requires dealt { AreDealt K.roots stations.items }
    requires shares { All (λ share. share.count ≡ fresh share.count.opening share.count.roots) shares.items }
    ensures numbers { IfOk result (λ hands. numbers_of hands.items ≡ range_with_len 0 K.workers) }
    ensures deques { IfOk result (λ hands. All (λ hand. hand.deques ≡ own_deques stations.items) hands.items) }
    ensures unstarted { IfOk result (λ hands. All IsUnstarted hands.items) }
    ensures opening { IfOk result (λ hands. All (λ hand. hand.opening ≡ roots_dealt K.roots K.workers hand.number) hands.items) }
    ensures shares { IfOk result (λ seated. map (λ hand. hand.share) seated.items ≡ shares.items) }
{
    let mut hands = Vec::new(alloc);
    while let Some(station) = stations.pop() {
        let Some(share) = shares.pop() else {
            unreachable!()
        };
        let looker = Looker::new(problem);
        let leaves = Vec::with_capacity(alloc, room)?;
        hands.push(Hand {
            looker,
            station,
            kept: ArrayVec::new(),
            leaves,
            share,
            uncounted: 0,
            wants: 0,
            of: PhantomData,
        })?;
    }
    hands.reverse();
    Ok(hands)
}
