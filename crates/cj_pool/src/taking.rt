//! Hands taken apart.
ghost use Rattle.cj_pool.specs.declared.station.Station.{Station};
ghost use Rattle.std.specs.Prelude.{◌≡◌, ℕ, ◌+◌, [], ◌∷◌, ◌++◌, length, map, All, IfOk, OnOk};
ghost use Rattle.std.specs.List.{range_with_len};
ghost use Rattle.cj_case.specs.declared.cell.Cell.{Cell};
ghost use Rattle.cj_case.specs.Problems.{plain_problem};
ghost use Rattle.cj_ledger.specs.Shares.{IsOf};
ghost use Rattle.cj_pool.specs.Hands.{Accounts, IsHandOf, settled_share};
ghost use Rattle.cj_pool.specs.Refined.{in_runs, kept_in, leaves_in, numbers_of};
ghost use Rattle.cj_pool.specs.Stations.{AreStations, IsStationOf, weigh_all_taken, weigh_given};
ghost use Rattle.cj_pool.specs.Weights.{weigh};

use crate::hand::Hand;
use crate::refinery::Refinery;
use crate::run::Run;
use crate::station::Station;
use cj_case::{Cell, Leaf};
use cj_ledger::{Ledger, Share};
use std::alloc::{AllocError, Global};

/// What hands are made of.
#[derive(Drop)]
pub(crate) struct Parts<K: Run> {
    pub stations: Vec<Station<K>>,
    pub shares: Vec<Share>,
    /// The leaves that they have closed, hand by hand.
    pub runs: Vec<Vec<Leaf>>,
    /// The cells that they keep.
    pub kept: Vec<Cell>,
}

impl<K: Run> Parts<K> {
    /// Adds what one hand is made of.
    fn add(
        &mut self,
        station: Station<K>,
        share: Share,
        closed: Vec<Leaf>,
        kept: &[Cell],
    ) -> Result<(), AllocError>
        ensures stations { OnOk result (self.new.stations.items ≡ self.old.stations.items ++ station ∷ []) }
        ensures shares { OnOk result (self.new.shares.items ≡ self.old.shares.items ++ share ∷ []) }
        ensures leaves { OnOk result (in_runs self.new.runs.items ≡ in_runs self.old.runs.items ++ closed.items) }
        ensures kept { OnOk result (self.new.kept.items ≡ self.old.kept.items ++ kept.now) }
    {
        self.stations.push(station)?;
        self.shares.push(share)?;
        self.runs.push(closed)?;
        self.kept.extend_from_slice(kept)?;
        Ok(())
    }
}

/// Adds the parts of one hand, whose share has then counted all of its leaves.
fn take_one<'p, K: Run>(
    parts: &mut Parts<K>,
    ledger: &Ledger,
    hand: Hand<'p, K>,
) -> Result<(), AllocError>
    requires { IsOf ledger.now hand.share }
    ensures shares { OnOk result (parts.new.shares.items ≡ parts.old.shares.items ++ settled_share hand.entry ∷ []) }
    ensures leaves { OnOk result (in_runs parts.new.runs.items ≡ in_runs parts.old.runs.items ++ hand.entry.closed) }
    ensures kept { OnOk result (parts.new.kept.items ≡ parts.old.kept.items ++ hand.entry.kept) }
    ensures station { OnOk result ((s : Station K) × (parts.new.stations.items ≡ parts.old.stations.items ++ s ∷ [])
        × IsStationOf K.workers hand.entry s) }
    ensures account { Accounts (plain_problem K.problem) K.roots K.workers hand.entry }
{
    let Hand {
        looker: _,
        station,
        kept,
        leaves,
        mut share,
        uncounted,
        wants: _,
        of: _,
    } = hand;
    ledger.close(&mut share, uncounted);
    parts.add(station, share, leaves, kept.as_slice())
}

/// Takes hands apart, in their order.
pub(crate) fn take_apart<'p, K: Run>(
    alloc: Global,
    refinery: &Refinery<'p, K>,
    mut hands: Vec<Hand<'p, K>>,
) -> Result<Parts<K>, AllocError>
    requires hands { All (IsHandOf refinery.now) hands.items }
    requires all { numbers_of hands.items ≡ range_with_len 0 K.workers }

    // The stations are those of all hands, with what was given to them and what they have taken.
    ensures stations { IfOk result (λ parts. AreStations K.workers parts.stations.items) }
    ensures len { IfOk result (λ parts. length parts.stations.items ≡ K.workers) }
    ensures given { IfOk result (λ parts. (w : Cell → ℕ) → weigh_given w parts.stations.items
        ≡ weigh (λ h. weigh w h.opening + weigh w h.pushed) hands.entry.items) }
    ensures taken { IfOk result (λ parts. (w : Cell → ℕ) → weigh_all_taken w parts.stations.items
        ≡ weigh (λ h. weigh (weigh w) h.taken) hands.entry.items) }

    // The shares, which have counted all leaves, the leaves and the kept cells are those of the hands, in their order.
    ensures shares { IfOk result (λ parts. parts.shares.items ≡ map settled_share hands.entry.items) }
    ensures leaves { IfOk result (λ parts. in_runs parts.runs.items ≡ leaves_in hands.entry.items) }
    ensures kept { IfOk result (λ parts. parts.kept.items ≡ kept_in hands.entry.items) }
    ensures accounts { OnOk result (All (Accounts (plain_problem K.problem) K.roots K.workers) hands.entry.items) }
{
    let mut parts = Parts {
        stations: Vec::new(alloc),
        shares: Vec::new(alloc),
        runs: Vec::new(alloc),
        kept: Vec::new(alloc),
    };
    while !hands.is_empty() {
        take_one(&mut parts, &refinery.ledger, hands.remove(0))?;
    }
    Ok(parts)
}
