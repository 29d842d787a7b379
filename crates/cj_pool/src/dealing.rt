//! The roots on the deques.
ghost use Rattle.std.specs.Prelude.{◌≡◌, ℕ, ◌<◌, [], ◌∷◌, ◌++◌, Ok, length, map, vec_len, slice_index_or, All, IfOk, OnOk};
ghost use Rattle.crossbeam_deque.specs.Handles.{worker_view};
ghost use Rattle.cj_case.specs.Problems.{plain_problem};
ghost use Rattle.cj_pool.specs.Hands.{roots_dealt};
ghost use Rattle.cj_pool.specs.RootLists.{AreRoots};
ghost use Rattle.cj_pool.specs.Stations.{AreDealt, AreStations, IsLike, IsUnopened, IsUnused, OwnsDeque, own_deques};
ghost use Rattle.cj_pool.specs.Tree.{InTree};

use crate::run::Run;
use crate::station::Station;
use crate::steps::open;
use crate::work::Work;
use cj_case::Cell;
use std::alloc::{AllocError, Global};
use std::marker::PhantomData;
use std::thread;
use std::thread::Threads;

/// Pushes a root to the deque of a station.
fn receive<K: Run>(station: &mut Station<K>, root: Cell) -> Result<(), AllocError>
    requires tree { InTree (plain_problem K.problem) K.roots root }
    requires part { OwnsDeque station.old }
    ensures like { IsLike station.old station.new }
    ensures opening { OnOk result ((worker_view station.new.own).opening ≡ (worker_view station.old.own).opening ++ root ∷ []) }
{
    match open(&mut station.own, Work::new(root)) {
        Ok(()) => Ok(()),
        Err(_) => Err(AllocError),
    }
}

/// Pushes to the deque of a station its own of these roots, in order: those whose number modulo so many is the station's.
fn receive_own<K: Run>(
    station: &mut Station<K>,
    roots: &[Cell],
    count: u32,
) -> Result<(), AllocError>
    requires some { 0 < count }
    requires roots { (roots.now ≡ K.roots) × AreRoots (plain_problem K.problem) roots.now }
    requires part { OwnsDeque station.old }
    requires unopened { IsUnopened station.old }
    ensures like { IsLike station.old station.new }
    ensures dealt { OnOk result ((worker_view station.new.own).opening ≡ roots_dealt roots.now count station.old.number) }
{
    for root in roots {
        if root.root % count == station.number {
            receive(station, *root)?;
        }
    }
    Ok(())
}

/// A station with its own of these roots.
fn served<K: Run>(
    mut station: Station<K>,
    roots: &[Cell],
    count: u32,
) -> Result<Station<K>, AllocError>
    requires some { 0 < count }
    requires roots { (roots.now ≡ K.roots) × AreRoots (plain_problem K.problem) roots.now }
    requires part { OwnsDeque station }
    requires unopened { IsUnopened station }
    ensures like { IfOk result (λ with_roots. IsLike station with_roots) }
    ensures dealt { IfOk result (λ with_roots. (worker_view with_roots.own).opening ≡ roots_dealt roots.now count station.number) }
{
    receive_own(&mut station, roots, count)?;
    Ok(station)
}

/// Serves what stands at a place with what is its own.
trait Serve {
    type Place;

    ghost accepts: { Self → Self.Place → Type 0 };

    ghost gives: { Self → Self.Place → Self.Place → Type 0 };

    fn serve(&self, place: Self::Place) -> Result<Self::Place, AllocError>
        requires { accepts self.now place }
        ensures { IfOk result (gives self.now place) };
}

/// The roots that are dealt, and among how many stations.
#[derive(Drop)]
struct Hoard<'r, K: Run> {
    roots: &'r [Cell],
    count: u32,
    of: PhantomData<K>,
}

impl<'r, K: Run> Serve for Hoard<'r, K> {
    type Place = Station<K>;

    ghost accepts = { λ hoard station. (0 < hoard.count) × (hoard.roots.now ≡ K.roots) × AreRoots (plain_problem K.problem) hoard.roots.now
        × OwnsDeque station × IsUnopened station };

    ghost gives = { λ hoard old new. IsLike old new × ((worker_view new.own).opening ≡ roots_dealt hoard.roots.now hoard.count old.number) };

    fn serve(&self, place: Station<K>) -> Result<Station<K>, AllocError> {
        served(place, self.roots, self.count)
    }
}

/// Serves each place by a thread of its own, where there are so many.
fn serve_all<S: Serve + Sync, R: Threads + Sync>(
    rt: &R,
    server: &S,
    places: Vec<S::Place>,
) -> Result<Vec<Result<S::Place, AllocError>>, AllocError>
where
    S::Place: Send + Drop,
    requires { All (S.accepts server.now) places.items }
    ensures len { IfOk result (λ done. vec_len done ≡ vec_len places) }
    ensures each { IfOk result (λ done. (i : ℕ) (d e : _) → i < vec_len places
        → IfOk (slice_index_or done.items i d) (S.gives server.now (slice_index_or places.items i e))) }
{
    thread::map_vec(rt, places, &|place| server.serve(place))
}

/// Each station with its own of these roots, by a thread of its own, where there are so many.
fn serve_each<K: Run + Send + Sync, R: Threads + Sync>(
    rt: &R,
    stations: Vec<Station<K>>,
    roots: &[Cell],
    count: u32,
) -> Result<Vec<Result<Station<K>, AllocError>>, AllocError>
    requires some { 0 < count }
    requires roots { (roots.now ≡ K.roots) × AreRoots (plain_problem K.problem) roots.now }
    requires parts { All OwnsDeque stations.items }
    requires unopened { All IsUnopened stations.items }
    ensures len { IfOk result (λ served. vec_len served ≡ vec_len stations) }
    ensures like { IfOk result (λ served. (i : ℕ) (d e : _) → i < vec_len stations
        → IfOk (slice_index_or served.items i d) (IsLike (slice_index_or stations.items i e))) }
    ensures dealt { IfOk result (λ served. (i : ℕ) (d e : _) → i < vec_len stations
        → IfOk (slice_index_or served.items i d) (λ station. (worker_view station.own).opening
        ≡ roots_dealt roots.now count (slice_index_or stations.items i e).number)) }
{
    let hoard = Hoard {
        roots,
        count,
        of: PhantomData,
    };
    serve_all(rt, &hoard, stations)
}

/// All stations, where each was served.
fn all_served<K: Run>(
    alloc: Global,
    served: Vec<Result<Station<K>, AllocError>>,
) -> Result<Vec<Station<K>>, AllocError>
    ensures { IfOk result (λ stations. map Ok stations.items ≡ served.items) }
{
    let mut stations = Vec::new(alloc);
    for station in served {
        stations.push(station?)?;
    }
    Ok(stations)
}

/// The stations with all roots, each of which is pushed to the deque whose number is that of the root modulo the number of deques.
pub(crate) fn deal<K: Run + Send + Sync, R: Threads + Sync>(
    rt: &R,
    alloc: Global,
    stations: Vec<Station<K>>,
    roots: &[Cell],
    workers: u32,
) -> Result<Vec<Station<K>>, AllocError>
    requires workers { (workers ≡ K.workers) × (0 < workers) }
    requires stations { AreStations K.workers stations.items }
    requires len { length stations.items ≡ workers }
    requires unopened { All IsUnopened stations.items }
    requires roots { (roots.now ≡ K.roots) × AreRoots (plain_problem K.problem) roots.now }
    ensures len { IfOk result (λ dealt. length dealt.items ≡ workers) }
    ensures stations { IfOk result (λ dealt. AreStations K.workers dealt.items) }
    ensures deques { IfOk result (λ dealt. own_deques dealt.items ≡ own_deques stations.items) }
    ensures unused { All IsUnused stations.items → IfOk result (λ dealt. All IsUnused dealt.items) }
    ensures dealt { IfOk result (λ dealt. AreDealt roots.now dealt.items) }
{
    let served = serve_each(rt, stations, roots, workers)?;
    all_served(alloc, served)
}
