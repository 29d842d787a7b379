//! Deques for any number of hands, each with a pass to each other.
ghost use Rattle.std.specs.Prelude.{◌≡◌, ◌<◌, [], ◌∷◌, ◌++◌, length, All, IfOk, OnOk};
ghost use Rattle.crossbeam_deque.specs.Handles.{worker_deque, worker_view, worker_flavor};
ghost use Rattle.cj_pool.specs.Accounts.{whole};
ghost use Rattle.cj_pool.specs.Passes.{deques, deques_of, takens, AreReady};
ghost use Rattle.cj_pool.specs.Stations.{AreStations, GaveAPart, IsUnopened, IsUnused, own_deques};

use crate::rule::Thief;
use crate::run::Run;
use crate::station::Station;
use crate::steps::{another, new_deque};
use std::alloc::{AllocError, Global};

/// A station with a deque of its own, and no pass.
fn new_station<K: Run>(alloc: Global, number: u32, room: usize) -> Result<Station<K>, AllocError>
    requires { 0 < K.workers }
    ensures number { IfOk result (λ s. s.number ≡ number) }
    ensures own { IfOk result (λ s. (worker_view s.own ≡ whole K.workers) × (worker_flavor s.own ≡ 0)) }
    ensures alone { IfOk result (λ s. (s.below.items ≡ []) × (s.above.items ≡ [])) }
{
    Ok(Station {
        number,
        own: new_deque(alloc, room)?,
        below: Vec::new(alloc),
        above: Vec::new(alloc),
    })
}

/// Gives a station and a later one a pass to each other's deque.
fn swap_passes<K: Run>(earlier: &mut Station<K>, later: &mut Station<K>) -> Result<(), AllocError>
    requires earlier { 1 < (worker_view earlier.old.own).parts }
    requires later { 1 < (worker_view later.old.own).parts }
    ensures numbers { (earlier.new.number ≡ earlier.old.number) × (later.new.number ≡ later.old.number) }
    ensures below { earlier.new.below ≡ earlier.old.below }
    ensures above { later.new.above ≡ later.old.above }
    ensures parts { OnOk result (GaveAPart earlier.old.own earlier.new.own × GaveAPart later.old.own later.new.own) }
    ensures to_later { OnOk result ((deques earlier.new.above.items ≡ deques earlier.old.above.items ++ worker_deque later.old.own ∷ [])
        × (AreReady earlier.old.above.items → AreReady earlier.new.above.items)) }
    ensures to_earlier { OnOk result ((deques later.new.below.items ≡ deques later.old.below.items ++ worker_deque earlier.old.own ∷ [])
        × (AreReady later.old.below.items → AreReady later.new.below.items)) }
    ensures taken { OnOk result ((takens earlier.new.above.items ≡ takens earlier.old.above.items ++ [] ∷ [])
        × (takens later.new.below.items ≡ takens later.old.below.items ++ [] ∷ [])) }
{
    earlier.above.push(another(&mut later.own))?;
    later.below.push(another(&mut earlier.own))?;
    Ok(())
}

/// Gives each of these stations and the next one a pass to each other's deque.
fn swap_with_each<K: Run>(
    stations: &mut [Station<K>],
    next: &mut Station<K>,
) -> Result<(), AllocError>
    requires stations { AreStations K.workers stations.old }
    requires few { length stations.old < K.workers }
    requires number { next.old.number ≡ length stations.old }
    requires own { (worker_view next.old.own ≡ whole K.workers) × (worker_flavor next.old.own ≡ 0) }
    requires alone { (next.old.below.items ≡ []) × (next.old.above.items ≡ []) }
    ensures stations { OnOk result (AreStations K.workers (stations.new ++ next.new ∷ [])) }
    ensures unused { OnOk result (All IsUnused stations.old → All IsUnused (stations.new ++ next.new ∷ [])) }
    ensures unopened { OnOk result (All IsUnopened stations.old → All IsUnopened (stations.new ++ next.new ∷ [])) }
{
    for earlier in stations.iter_mut() {
        swap_passes(earlier, next)?;
    }
    Ok(())
}

/// So many stations, with deques for so many cells each at first.
pub(crate) fn new_stations<K: Run>(
    alloc: Global,
    count: u32,
    room: usize,
) -> Result<Vec<Station<K>>, AllocError>
    requires { (count ≡ K.workers) × (0 < count) }
    ensures len { IfOk result (λ stations. length stations.items ≡ count) }
    ensures stations { IfOk result (λ stations. AreStations K.workers stations.items) }
    ensures unused { IfOk result (λ stations. All IsUnused stations.items) }
    ensures unopened { IfOk result (λ stations. All IsUnopened stations.items) }
{
    let mut stations: Vec<Station<K>> = Vec::new(alloc);
    for number in 0..count {
        let mut next = new_station(alloc, number, room)?;
        swap_with_each(&mut stations, &mut next)?;
        stations.push(next)?;
    }
    Ok(stations)
}

/// The ends of all deques at which hands steal.
pub(crate) fn thieves_of<K: Run>(
    alloc: Global,
    stations: &[Station<K>],
) -> Result<Vec<Thief<K>>, AllocError>
    ensures { IfOk result (λ thieves. deques_of thieves.items ≡ own_deques stations.now) }
{
    let mut thieves = Vec::new(alloc);
    for station in stations {
        thieves.push(station.own.stealer()?)?;
    }
    Ok(thieves)
}
