//! Hands on the cells of one crossing: on one thread by scripted turns, and on threads with several gates.
ghost use Rattle.std.specs.Prelude.{◌≡◌, ◌≤◌, length, All, IfOk};
ghost use Rattle.std.specs.List.{range_with_len};
ghost use Rattle.cj_case.specs.Problems.{plain_problem};
ghost use Rattle.cj_case.specs.Slots.{slot_count};
ghost use Rattle.cj_pool.specs.Hands.{IsHandOf};
ghost use Rattle.cj_pool.specs.Refined.{numbers_of};
ghost use Rattle.cj_pool.specs.RootLists.{AreRoots};
ghost use Rattle.cj_pool.specs.Runs.{IsRunOf};

use cj_case::{Cell, Leaf, Pair, Problem};
use cj_cells::{RefineError, order_roots, refine_all, roots_of_slot};
use cj_hermite::Hints;
use cj_io::{Gate, OpenGate};
use cj_ledger::Totals;
use cj_pool::{FinishError, Hand, Refined, Refinery, Run, Turn, leaves_by_hands};
use cj_samples::crossing;
use std::alloc::{AllocError, Global};
use std::marker::Brand;
use std::panic::Expect;
use std::process::Abort;
use std::sync::Wait;
use std::sync::atomic::{AtomicBool, Ordering};
use std::thread;
use std::thread::Threads;

const BOTH: [Pair; 1] = [Pair { a: 0, b: 1 }];

const LIMIT: u64 = 1000;

/// What the crossing comes to: one root, and one halving less than there are leaves.
const TOTALS: Totals = Totals {
    roots: 1,
    splits: 48,
    closes: 49,
};

/// The roots of the first of two slots: of the crossing, the minute.
fn roots_of(alloc: Global, problem: &Problem) -> Result<Vec<Cell>, RefineError>
    requires tracks { length problem.now.tracks ≡ 2 }
    requires slots { slot_count problem.now.window.first.micros problem.now.window.last.micros ≡ 2 }
    ensures roots { IfOk result (λ roots. AreRoots (plain_problem problem.now) roots.items) }
    ensures few { IfOk result (λ roots. length roots.items ≤ 10) }
{
    let mut hints = Hints::new(alloc, 2)?;
    let mut roots = Vec::new(alloc);
    roots_of_slot(alloc, problem, 0, &BOTH, 10, &mut hints, &mut roots)?;
    order_roots(&mut roots);
    Ok(roots)
}

/// The two hands of a refinery for two, by their numbers.
fn pair_of<'p, K: Run>(
    _refinery: &Refinery<'p, K>,
    mut hands: Vec<Hand<'p, K>>,
) -> (Hand<'p, K>, Hand<'p, K>)
    requires hands { All (IsHandOf _refinery.now) hands.items }
    requires numbers { numbers_of hands.items ≡ range_with_len 0 2 }
    ensures zero { IsHandOf _refinery.now result.0 × (result.0.number ≡ 0) }
    ensures one { IsHandOf _refinery.now result.1 × (result.1.number ≡ 1) }
{
    let Some(one) = hands.pop() else {
        unreachable!()
    };
    let Some(zero) = hands.pop() else {
        unreachable!()
    };
    (zero, one)
}

/// A refinery for two hands.
fn for_two<'p, K: Run + Send + Sync, R: Threads + Sync>(
    rt: &R,
    alloc: Global,
    problem: &'p Problem,
    roots: Vec<Cell>,
) -> Result<(Refinery<'p, K>, Hand<'p, K>, Hand<'p, K>), AllocError>
    requires { IsRunOf problem.now roots.items 2 1000 K.problem K.roots K.workers }
    ensures zero { IfOk result (λ r. IsHandOf r.0 r.1 × (r.1.number ≡ 0)) }
    ensures one { IfOk result (λ r. IsHandOf r.0 r.2 × (r.2.number ≡ 1)) }
    ensures refinery { IfOk result (λ r. r.0.hands ≡ 2) }
{
    let (refinery, hands) = Refinery::new(rt, alloc, problem, roots, 2, LIMIT)?;
    let (zero, one) = pair_of(&refinery, hands);
    Ok((refinery, zero, one))
}

/// The leaves and totals of a refinery, from its two hands.
fn finished<'p, K: Run, R: Threads + Sync>(
    rt: &R,
    alloc: Global,
    refinery: Refinery<'p, K>,
    zero: Hand<'p, K>,
    one: Hand<'p, K>,
) -> Result<Refined, FinishError>
    requires zero { IsHandOf refinery zero × (zero.number ≡ 0) }
    requires one { IsHandOf refinery one × (one.number ≡ 1) }
    requires two { refinery.hands ≡ 2 }
{
    let hands = vec![in alloc; zero, one]?;
    refinery.finish(rt, alloc, hands)
}

/// A turn in which the hand halves a cell.
fn split<'p, K: Run, R: Abort>(
    rt: &R,
    alloc: Global,
    refinery: &Refinery<'p, K>,
    hand: &mut Hand<'p, K>,
) -> Result<(), AllocError>
    requires { IsHandOf refinery.now hand.old }
    ensures { IsHandOf refinery.now hand.new × (hand.new.number ≡ hand.old.number) }
{
    let turn = hand.turn(alloc, refinery)?;
    assert_eq!(rt; turn, Turn::Split);
    Ok(())
}

/// What two hands do before all is finished.
#[derive(Clone, Copy)]
enum Script {
    /// Hand zero halves the root, and then hand one a half, which it has stolen.
    ZeroAndOne,
    /// Hand one halves the root, which it has stolen, and then hand zero a half, which it has stolen.
    OneAndZero,
    /// The run of hand zero leaves nothing to hand one.
    ZeroAlone,
    /// They take no turn: all cells are left in the deques.
    Nothing,
}

/// The turns of a script in which no hand runs.
fn take_turns<'p, K: Run, R: Abort>(
    rt: &R,
    alloc: Global,
    refinery: &Refinery<'p, K>,
    zero: &mut Hand<'p, K>,
    one: &mut Hand<'p, K>,
    script: Script,
) -> Result<(), AllocError>
    requires zero { IsHandOf refinery.now zero.old }
    requires one { IsHandOf refinery.now one.old }
    ensures zero { IsHandOf refinery.now zero.new × (zero.new.number ≡ zero.old.number) }
    ensures one { IsHandOf refinery.now one.new × (one.new.number ≡ one.old.number) }
{
    match script {
        Script::ZeroAndOne => {
            split(rt, alloc, refinery, zero)?;
            split(rt, alloc, refinery, one)
        }
        Script::OneAndZero => {
            split(rt, alloc, refinery, one)?;
            split(rt, alloc, refinery, zero)
        }
        _ => Ok(()),
    }
}

/// What such a script comes to.
fn by_turns<K: Run + Send + Sync, R: Threads + Sync + Abort>(
    rt: &R,
    alloc: Global,
    problem: &Problem,
    roots: Vec<Cell>,
    script: Script,
) -> Result<Refined, FinishError>
    requires { IsRunOf problem.now roots.items 2 1000 K.problem K.roots K.workers }
{
    let (refinery, mut zero, mut one) = for_two::<K, R>(rt, alloc, problem, roots)?;
    take_turns(rt, alloc, &refinery, &mut zero, &mut one, script)?;
    finished(rt, alloc, refinery, zero, one)
}

/// What the run of hand zero comes to. Hand one finds that no cell is live.
fn by_zero<K: Run + Send + Sync, R: Threads + Wait + Sync + Abort>(
    rt: &R,
    alloc: Global,
    problem: &Problem,
    roots: Vec<Cell>,
) -> Result<Refined, FinishError>
    requires { IsRunOf problem.now roots.items 2 1000 K.problem K.roots K.workers }
{
    let (refinery, zero, mut one) = for_two::<K, R>(rt, alloc, problem, roots)?;
    let zero = zero.run(rt, alloc, &refinery, &OpenGate);
    let turn = one.turn(alloc, &refinery)?;
    assert_eq!(rt; turn, Turn::Done);
    finished(rt, alloc, refinery, zero, one)
}

/// What a script comes to.
fn refined_by<K: Run + Send + Sync, R: Threads + Wait + Sync + Abort>(
    rt: &R,
    alloc: Global,
    problem: &Problem,
    roots: Vec<Cell>,
    script: Script,
) -> Result<Refined, FinishError>
    requires { IsRunOf problem.now roots.items 2 1000 K.problem K.roots K.workers }
{
    match script {
        Script::ZeroAlone => by_zero::<K, R>(rt, alloc, problem, roots),
        _ => by_turns::<K, R>(rt, alloc, problem, roots, script),
    }
}

/// What one thread finds.
fn of_one_thread(alloc: Global, problem: &Problem) -> Result<Vec<Leaf>, RefineError>
    requires tracks { length problem.now.tracks ≡ 2 }
    requires slots { slot_count problem.now.window.first.micros problem.now.window.last.micros ≡ 2 }
{
    let roots = roots_of(alloc, problem)?;
    refine_all(alloc, &OpenGate, problem, &roots, LIMIT)
}

/// What the crossing comes to by a script is what one thread finds, with its totals.
fn assert_script<R: Threads + Wait + Sync + Abort>(rt: &R, alloc: Global, script: Script) {
    let problem = crossing(alloc).expect(rt, "no fault");
    let roots = roots_of(alloc, &problem).expect(rt, "no fault");
    let refined = refined_by::<Brand, R>(rt, alloc, &problem, roots, script).expect(rt, "no fault");
    let expected = of_one_thread(alloc, &problem).expect(rt, "no fault");
    assert!(rt; refined.leaves.as_slice() == expected.as_slice());
    assert_eq!(rt; refined.totals, TOTALS);
}

#[test]
fn the_second_turn_steals(rt: HostRuntime) {
    assert_script(&rt, rt.alloc(), Script::ZeroAndOne);
}

#[test]
fn both_turns_steal(rt: HostRuntime) {
    assert_script(&rt, rt.alloc(), Script::OneAndZero);
}

#[test]
fn a_run_leaves_no_cell(rt: HostRuntime) {
    assert_script(&rt, rt.alloc(), Script::ZeroAlone);
}

#[test]
fn cells_that_are_left_are_refined(rt: HostRuntime) {
    assert_script(&rt, rt.alloc(), Script::Nothing);
}

/// The first of so many turns of a hand that closes no cell and halves none.
fn first_without_cell<'p, K: Run>(
    alloc: Global,
    refinery: &Refinery<'p, K>,
    hand: &mut Hand<'p, K>,
    turns: u32,
) -> Result<Option<Turn>, AllocError>
    requires { IsHandOf refinery.now hand.old }
{
    for _ in 0..turns {
        match hand.turn(alloc, refinery)? {
            Turn::Closed => {}
            Turn::Split => {}
            Turn::Kept => {}
            other => return Ok(Some(other)),
        }
    }
    Ok(None)
}

/// The first turn of hand one that finds no cell, while hand zero keeps one.
fn one_beside_zero<K: Run + Send + Sync, R: Threads + Sync + Abort>(
    rt: &R,
    alloc: Global,
    problem: &Problem,
    roots: Vec<Cell>,
) -> Result<Option<Turn>, AllocError>
    requires { IsRunOf problem.now roots.items 2 1000 K.problem K.roots K.workers }
{
    let (refinery, mut zero, mut one) = for_two::<K, R>(rt, alloc, problem, roots)?;
    split(rt, alloc, &refinery, &mut zero)?;
    first_without_cell(alloc, &refinery, &mut one, 1000)
}

#[test]
fn a_hand_is_idle_while_another_keeps_a_cell(rt: HostRuntime) {
    let alloc = rt.alloc();
    let problem = crossing(alloc).expect(&rt, "no fault");
    let roots = roots_of(alloc, &problem).expect(&rt, "no fault");
    let turn = one_beside_zero::<Brand, _>(&rt, alloc, &problem, roots).expect(&rt, "no fault");
    assert_eq!(rt; turn, Some(Turn::Idle { live: 1 }));
}

/// What stands in the deque of a hand from which nobody steals, and what it keeps, as its turns tell; and how often it kept both halves.
#[derive(Clone, Copy)]
struct Told {
    deque: u32,
    kept: u32,
    both: u32,
}

/// The same after a turn. A half is pushed where the deque has fewer than four cells, and only where it has four or more both are kept.
fn told_by<R: Abort>(rt: &R, turn: Turn, before: Told) -> Told {
    let mut told = before;
    if told.kept > 0 {
        told.kept -= 1;
    } else {
        told.deque = told.deque.saturating_sub(1);
    }
    match turn {
        Turn::Closed => told,
        Turn::Split => {
            assert!(rt; told.deque < 4);
            told.deque = told.deque.saturating_add(1);
            told.kept = told.kept.saturating_add(1);
            told
        }
        Turn::Kept => {
            assert!(rt; told.deque >= 4);
            told.kept = told.kept.saturating_add(2);
            told.both = told.both.saturating_add(1);
            told
        }
        _ => before,
    }
}

/// How often a hand whose deque has one root keeps both halves, in so many turns.
fn times_both_kept<'p, K: Run, R: Abort>(
    rt: &R,
    alloc: Global,
    refinery: &Refinery<'p, K>,
    hand: &mut Hand<'p, K>,
    turns: u32,
) -> Result<u32, AllocError>
    requires { IsHandOf refinery.now hand.old }
{
    let mut told = Told {
        deque: 1,
        kept: 0,
        both: 0,
    };
    for _ in 0..turns {
        let turn = hand.turn(alloc, refinery)?;
        told = told_by(rt, turn, told);
    }
    Ok(told.both)
}

/// How often hand zero keeps both halves while hand one takes no turn.
fn times_zero_keeps_both<K: Run + Send + Sync, R: Threads + Sync + Abort>(
    rt: &R,
    alloc: Global,
    problem: &Problem,
    roots: Vec<Cell>,
) -> Result<u32, AllocError>
    requires { IsRunOf problem.now roots.items 2 1000 K.problem K.roots K.workers }
{
    let (refinery, mut zero, _one) = for_two::<K, R>(rt, alloc, problem, roots)?;
    times_both_kept(rt, alloc, &refinery, &mut zero, 1000)
}

#[test]
fn both_halves_are_kept_only_while_the_deque_has_four(rt: HostRuntime) {
    let alloc = rt.alloc();
    let problem = crossing(alloc).expect(&rt, "no fault");
    let roots = roots_of(alloc, &problem).expect(&rt, "no fault");
    let times = times_zero_keeps_both::<Brand, _>(&rt, alloc, &problem, roots).expect(
        &rt, "no fault",
    );
    assert!(rt; times > 0);
}

/// What a problem of one crossing comes to by so many hands on threads, within a limit.
fn on_threads<R: Threads + Wait + Sync, G: Gate + Sync>(
    rt: &R,
    alloc: Global,
    gate: &G,
    problem: &Problem,
    workers: u32,
    limit: u64,
) -> Result<Vec<Leaf>, RefineError>
    requires tracks { length problem.now.tracks ≡ 2 }
    requires slots { slot_count problem.now.window.first.micros problem.now.window.last.micros ≡ 2 }
    requires some { 1 ≤ workers }
    requires few { workers ≤ 16 }
    requires low { 10 ≤ limit }
    requires high { limit ≤ 1000 }
{
    let roots = roots_of(alloc, problem)?;
    leaves_by_hands::<Brand, R, G>(rt, alloc, gate, problem, roots, workers, limit)
}

/// The leaves of the crossing by so many hands on threads are those of one thread, each time.
fn same_each_time<R: Threads + Wait + Sync + Abort, G: Gate + Sync>(
    rt: &R,
    alloc: Global,
    gate: &G,
    workers: u32,
    times: u32,
)
    requires some { 1 ≤ workers }
    requires few { workers ≤ 16 }
{
    let problem = crossing(alloc).expect(rt, "no fault");
    let expected = of_one_thread(alloc, &problem).expect(rt, "no fault");
    for _ in 0..times {
        let leaves = on_threads(rt, alloc, gate, &problem, workers, LIMIT).expect(rt, "no fault");
        assert!(rt; leaves.as_slice() == expected.as_slice());
    }
}

#[test]
fn as_many_hands_as_one_likes(rt: HostRuntime) {
    let alloc = rt.alloc();
    same_each_time(&rt, alloc, &OpenGate, 1, 20);
    same_each_time(&rt, alloc, &OpenGate, 2, 100);
    same_each_time(&rt, alloc, &OpenGate, 3, 20);
    same_each_time(&rt, alloc, &OpenGate, 16, 20);
}

/// A gate at which one worker waits before each of its turns, for so many looks at a flag that nobody sets.
#[derive(Drop)]
struct Slow {
    worker: u32,
    looks: u32,
    flag: AtomicBool,
}

impl Slow {
    fn new(worker: u32, looks: u32) -> Slow {
        Slow {
            worker,
            looks,
            flag: AtomicBool::new(false),
        }
    }
}

impl Gate for Slow {
    fn enter<R: Wait>(&self, _rt: &R, worker: u32, _turn: u64) {
        if worker == self.worker {
            for _ in 0..self.looks {
                self.flag.load(Ordering::SeqCst);
            }
        }
    }
}

#[test]
fn one_of_two_hands_waits_at_each_turn(rt: HostRuntime) {
    let alloc = rt.alloc();
    same_each_time(&rt, alloc, &Slow::new(0, 1_000), 2, 100);
    same_each_time(&rt, alloc, &Slow::new(1, 1_000), 2, 100);
}

/// A gate for two workers: before its first turn each says that it is there, and looks for the other.
#[derive(Drop)]
struct Meeting {
    zero: AtomicBool,
    one: AtomicBool,
    zero_saw_one: AtomicBool,
    one_saw_zero: AtomicBool,
}

impl Meeting {
    fn new() -> Meeting {
        Meeting {
            zero: AtomicBool::new(false),
            one: AtomicBool::new(false),
            zero_saw_one: AtomicBool::new(false),
            one_saw_zero: AtomicBool::new(false),
        }
    }
}

/// Gives way until a flag is set, but not for ever; whether it was.
fn is_set_soon(flag: &AtomicBool) -> bool {
    for _ in 0..10_000_000u32 {
        if flag.load(Ordering::SeqCst) {
            return true;
        }
        thread::yield_now();
    }
    false
}

impl Gate for Meeting {
    fn enter<R: Wait>(&self, _rt: &R, worker: u32, turn: u64) {
        if turn > 1 {
            return;
        }
        if worker == 0 {
            self.zero.store(true, Ordering::SeqCst);
            self.zero_saw_one
                .store(is_set_soon(&self.one), Ordering::SeqCst);
        } else {
            self.one.store(true, Ordering::SeqCst);
            self.one_saw_zero
                .store(is_set_soon(&self.zero), Ordering::SeqCst);
        }
    }
}

/// Neither worker leaves the gate before it has seen the other there: so they are there at the same time.
#[test]
fn two_workers_meet_at_the_gate(rt: HostRuntime) {
    let alloc = rt.alloc();
    let gate = Meeting::new();
    same_each_time(&rt, alloc, &gate, 2, 1);
    assert!(rt; gate.zero_saw_one.load(Ordering::SeqCst));
    assert!(rt; gate.one_saw_zero.load(Ordering::SeqCst));
}

/// How many leaves the crossing comes to by so many hands, within a limit.
fn leaves_within<R: Threads + Wait + Sync>(
    rt: &R,
    alloc: Global,
    workers: u32,
    limit: u64,
) -> Result<usize, RefineError>
    requires some { 1 ≤ workers }
    requires few { workers ≤ 16 }
    requires low { 10 ≤ limit }
    requires high { limit ≤ 1000 }
{
    let problem = crossing(alloc)?;
    let leaves = on_threads(rt, alloc, &OpenGate, &problem, workers, limit)?;
    Ok(leaves.len())
}

#[test]
fn more_leaves_than_the_limit(rt: HostRuntime) {
    let alloc = rt.alloc();
    assert_eq!(rt; leaves_within(&rt, alloc, 1, 49), Ok(49));
    assert_eq!(rt; leaves_within(&rt, alloc, 2, 49), Ok(49));
    assert_eq!(rt; leaves_within(&rt, alloc, 1, 48), Err(RefineError::TooMany));
    assert_eq!(rt; leaves_within(&rt, alloc, 2, 48), Err(RefineError::TooMany));
    assert_eq!(rt; leaves_within(&rt, alloc, 2, 30), Err(RefineError::TooMany));
}
