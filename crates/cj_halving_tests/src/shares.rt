ghost use Rattle.std.specs.Prelude.{◌≡◌, ◌<◌, [], vec_len, All, IfOk, OnOk};
ghost use Rattle.cj_ledger.specs.Shares.{IsOf};

use cj_ledger::{Ledger, Share, Totals, Why};
use std::alloc::{AllocError, Global};
use std::panic::Expect;
use std::process::Abort;
use std::test::*;
use std::thread::{Threads, join};

/// What a share is asked.
#[derive(Clone, Copy)]
enum Call {
    Split,
    CloseAndSplit,
    Close(u64),
    Live,
    Halt(Why),
    Halted,
}

/// What it is answered.
#[derive(Clone, Copy, Debug, PartialEq, Eq)]
enum Answer {
    Nothing,
    Number(u64),
    Cause(Option<Why>),
}

use Answer::{Cause, Nothing, Number};
use Call::{Close, CloseAndSplit, Halt, Halted, Live, Split};
use Why::{Cells, Memory};

/// Which share is asked what, and what it is answered.
type Line = (usize, Call, Answer);

fn asked(ledger: &Ledger, share: &mut Share, call: Call) -> Answer
    requires { IsOf ledger.now share.old }
    ensures { IsOf ledger.now share.new }
{
    match call {
        Split => Number(ledger.split(share)),
        CloseAndSplit => Number(ledger.close_and_split(share)),
        Close(cells) => {
            ledger.close(share, cells);
            Nothing
        }
        Live => Number(ledger.live(share)),
        Halt(why) => {
            ledger.halt(share, why);
            Nothing
        }
        Halted => Cause(ledger.halted(share)),
    }
}

/// Follows a script on one thread, and answers the totals of all shares.
fn followed<R: Abort>(
    rt: &R,
    alloc: Global,
    roots: u64,
    count: u32,
    script: &[Line],
) -> Result<Totals, AllocError>
    requires { 0 < count }
{
    let (ledger, mut shares) = Ledger::start(alloc, roots, count)?;
    for (at, call, answer) in script {
        assert!(rt; *at < shares.len());
        let share = &mut shares[*at];
        assert_eq!(rt; asked(&ledger, share, *call), *answer);
    }
    Ok(ledger.total(shares))
}

const ALONE: [Line; 7] = [
    (0, Live, Number(3)),
    (0, Split, Number(4)),
    (0, Live, Number(4)),
    (0, Close(1), Nothing),
    (0, Close(1), Nothing),
    (0, Live, Number(2)),
    (0, Halted, Cause(None)),
];

/// What one share did, the other is told.
const TWO_AND_ONE_ROOT: [Line; 5] = [
    (0, Split, Number(2)),
    (1, Live, Number(2)),
    (0, Close(1), Nothing),
    (1, Close(1), Nothing),
    (1, Live, Number(0)),
];

const STOPPED_BY_MEMORY_AND_CELLS: [Line; 7] = [
    (0, Halted, Cause(None)),
    (0, Halt(Memory), Nothing),
    (1, Halted, Cause(Some(Memory))),
    (1, Halt(Memory), Nothing),
    (0, Halted, Cause(Some(Memory))),
    (1, Halt(Cells), Nothing),
    (0, Halted, Cause(Some(Cells))),
];

const STOPPED_BY_CELLS_AND_MEMORY: [Line; 4] = [
    (1, Halt(Cells), Nothing),
    (0, Halted, Cause(Some(Cells))),
    (0, Halt(Memory), Nothing),
    (1, Halted, Cause(Some(Cells))),
];

const THREE_IN_TURN: [Line; 9] = [
    (2, Split, Number(11)),
    (0, Split, Number(12)),
    (1, Close(1), Nothing),
    (2, Split, Number(13)),
    (1, Live, Number(12)),
    (0, Close(1), Nothing),
    (0, Close(1), Nothing),
    (2, Close(1), Nothing),
    (1, Live, Number(9)),
];

/// A close that is counted with the next split, and two that are counted together. No closes change nothing.
const CLOSES_KEPT_BACK: [Line; 7] = [
    (0, Split, Number(2)),
    (0, CloseAndSplit, Number(3)),
    (1, Live, Number(2)),
    (0, Close(2), Nothing),
    (1, Live, Number(0)),
    (0, Close(0), Nothing),
    (1, Live, Number(0)),
];

/// The numbers are taken modulo 2^64.
const BELOW_NONE: [Line; 4] = [
    (0, Close(1), Nothing),
    (1, Live, Number(u64::MAX)),
    (1, Split, Number(1)),
    (0, Live, Number(0)),
];

const BEYOND_ALL: [Line; 3] = [
    (0, Split, Number(0)),
    (0, Live, Number(0)),
    (0, Split, Number(1)),
];

fn counted(roots: u64, splits: u64, closes: u64) -> Totals {
    Totals {
        roots,
        splits,
        closes,
    }
}

#[test]
fn shares_follow_scripts(rt: HostRuntime) {
    let scripts: [(u64, u32, &[Line], Totals); 8] = [
        (3, 1, &ALONE, counted(3, 1, 2)),
        (1, 2, &TWO_AND_ONE_ROOT, counted(1, 1, 2)),
        (5, 2, &STOPPED_BY_MEMORY_AND_CELLS, counted(5, 0, 0)),
        (5, 2, &STOPPED_BY_CELLS_AND_MEMORY, counted(5, 0, 0)),
        (10, 16, &THREE_IN_TURN, counted(10, 3, 4)),
        (1, 2, &CLOSES_KEPT_BACK, counted(1, 2, 3)),
        (0, 2, &BELOW_NONE, counted(0, 1, 1)),
        (u64::MAX, 1, &BEYOND_ALL, counted(u64::MAX, 2, 0)),
    ];
    for (roots, count, script, totals) in scripts {
        assert!(rt; count > 0);
        assert_eq!(rt;
            followed(&rt, rt.alloc(), roots, count, script).expect(&rt, "no fault"),
            totals
        );
    }
}

/// Splits and closes so many times, in two calls and in one.
fn work(ledger: &Ledger, mut share: Share, times: u64) -> Share
    requires { IsOf ledger.now share }
    ensures { IsOf ledger.now result }
{
    for _ in 0..times {
        ledger.split(&mut share);
        ledger.close_and_split(&mut share);
        ledger.close(&mut share, 1);
    }
    share
}

fn totals_of_two_threads<R: Threads + Sync>(
    rt: &R,
    ledger: Ledger,
    mut shares: Vec<Share>,
    first: Share,
    second: Share,
) -> Result<Totals, AllocError>
    requires first { IsOf ledger first }
    requires second { IsOf ledger second }
    requires shares { (shares.items ≡ []) × (ledger.opening.shares ≡ 2) }
{
    let (first, second) = join(
        rt,
        || -> Share
            requires { IsOf ledger first }
            ensures { IsOf ledger result }
        { work(&ledger, first, 100_000) },
        || -> Share
            requires { IsOf ledger second }
            ensures { IsOf ledger result }
        { work(&ledger, second, 50_000) },
    );
    shares.push(first)?;
    shares.push(second)?;
    Ok(ledger.total(shares))
}

#[test]
fn two_threads_count_beside_each_other(rt: HostRuntime) {
    let (ledger, mut shares) = Ledger::start(rt.alloc(), 3, 2).expect(&rt, "no fault");
    let second = shares.pop().unwrap();
    let first = shares.pop().unwrap();
    let totals = totals_of_two_threads(&rt, ledger, shares, first, second).expect(&rt, "no fault");
    assert_eq!(rt; totals, counted(3, 300_000, 300_000));
}
