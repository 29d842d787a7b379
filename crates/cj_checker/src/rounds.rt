//! The candidates with their slots, in order: row by row of their first objects, so many rows at a time as memory is to be had for.
ghost use Rattle.std.specs.Prelude.{◌≡◌, ℕ, ◌+◌, ◌<◌, ◌≤◌, Bool, All, true, map, length, IfOk, OnOk};
ghost use Rattle.std.specs.List.{range_with_len};
ghost use Rattle.cj_base.specs.Bounds.{MOST_OBJECTS};
ghost use Rattle.cj_case.specs.Boxes.{plain_boxes};
ghost use Rattle.cj_cert.specs.Certificates.{plain_certificate};
ghost use Rattle.cj_cert.specs.Listed.{box_listed};
ghost use Rattle.cj_checker.specs.ListedBoxes.{table_of};
ghost use Rattle.cj_case.specs.Pairs.{HasPair};
ghost use Rattle.cj_checker.specs.Keys.{AreInOrder, AreKeysIn, AreKeysKept, HasKey, IsKeyOf, is_listed, keys_listed, plain_key};

use crate::enough::{enough_keys, leave_enough};
use crate::keys::Key;
use crate::listed::Listed;
use crate::sweep::Sweep;
use cj_case::{AxisBox, Pair, Problem, slot_count};
use cj_cert::Certificate;
use std::alloc::{AllocError, Global};

/// The keys of some rows.
#[derive(Drop)]
pub(crate) struct Round {
    /// The first object behind these rows.
    pub end: u32,
    pub keys: Vec<Key>,
}

/// The listed boxes of a slot, of so many objects.
fn fill(
    listed: &Listed,
    objects: u32,
    slot: u32,
    boxes: &mut Vec<Option<AxisBox>>,
) -> Result<(), AllocError>
    ensures { OnOk result (plain_boxes boxes.new.items ≡ map (table_of listed.now slot) (range_with_len 0 objects)) }
{
    boxes.clear();
    for object in 0..objects {
        boxes.push(listed.of(slot, object))?;
    }
    Ok(())
}

/// Appends the key of a pair in a slot, if the pair lies in some rows.
fn append_key(
    pair: Pair,
    slot: u32,
    first: u32,
    end: u32,
    keys: &mut Vec<Key>,
) -> Result<(), AllocError>
    requires few { pair.b ≤ MOST_OBJECTS }
    ensures keys { OnOk result ((candidate : ℕ → ℕ → ℕ → Bool) (objects slots : ℕ) → slot < slots → pair.b < objects
        → candidate pair.a pair.b slot ≡ true
        → AreKeysIn candidate first end objects slots keys.old.items → AreKeysIn candidate first end objects slots keys.new.items) }
    ensures kept { OnOk result (AreKeysKept keys.old.items keys.new.items) }
    ensures found { OnOk result (first ≤ pair.a → pair.a < end → HasKey keys.new.items pair.a pair.b slot) }
{
    if first <= pair.a && pair.a < end {
        keys.push(Key::new(pair, slot))?;
    }
    Ok(())
}

/// Appends the keys in a slot of those pairs that lie in some rows.
fn append_keys(
    pairs: &[Pair],
    slot: u32,
    first: u32,
    end: u32,
    keys: &mut Vec<Key>,
) -> Result<(), AllocError>
    requires few { All (λ pair. pair.b ≤ MOST_OBJECTS) pairs.now }
    ensures keys { OnOk result ((candidate : ℕ → ℕ → ℕ → Bool) (objects slots : ℕ) → slot < slots
        → All (λ pair. pair.b < objects) pairs.now → All (λ pair. candidate pair.a pair.b slot ≡ true) pairs.now
        → AreKeysIn candidate first end objects slots keys.old.items → AreKeysIn candidate first end objects slots keys.new.items) }
    ensures kept { OnOk result (AreKeysKept keys.old.items keys.new.items) }
    ensures found { OnOk result ((a b : ℕ) → HasPair pairs.now a b → first ≤ a → a < end → HasKey keys.new.items a b slot) }
{
    for pair in pairs {
        append_key(*pair, slot, first, end, keys)?;
    }
    Ok(())
}

/// Lists that are kept from slot to slot.
#[derive(Drop)]
struct Work {
    boxes: Vec<Option<AxisBox>>,
    sweep: Sweep,
    pairs: Vec<Pair>,
}

impl Work {
    fn new(alloc: Global) -> Self {
        Work {
            boxes: Vec::new(alloc),
            sweep: Sweep::new(alloc),
            pairs: Vec::new(alloc),
        }
    }

    /// Finds the candidates of some rows in a slot, in any order.
    fn find_pairs(
        &mut self,
        problem: &Problem,
        cert: &Certificate,
        listed: &Listed,
        first: u32,
        end: u32,
        slot: u32,
    ) -> Result<(), AllocError>
        requires objects { cert.now.objects ≡ length problem.now.tracks }
        requires shells { length cert.now.shells.items ≡ length problem.now.tracks }
        requires boxes { table_of listed.now ≡ box_listed (plain_certificate cert.now).boxes }
        requires within { end ≤ length problem.now.tracks }
        ensures exist { OnOk result (All (λ pair. pair.b < length problem.now.tracks) self.new.pairs.items) }
        ensures candidate { OnOk result (All (λ pair. is_listed problem.now cert.now pair.a pair.b slot ≡ true) self.new.pairs.items) }
        ensures found { OnOk result ((a b : ℕ) → first ≤ a → a < end → a < b → is_listed problem.now cert.now a b slot ≡ true
            → HasPair self.new.pairs.items a b) }
    {
        let objects = problem.tracks.as_slice().len() as u32;
        fill(listed, objects, slot, &mut self.boxes)?;
        self.sweep.find(
            problem,
            &cert.shells,
            &self.boxes,
            first,
            end,
            &mut self.pairs,
        )?;
        Ok(())
    }
}

/// Collects the keys of the rows from one on, slot by slot: of all of them, or of the first rows that have enough where they become far
/// more. The end of the rows.
fn collect(
    problem: &Problem,
    cert: &Certificate,
    listed: &Listed,
    first: u32,
    enough: usize,
    work: &mut Work,
    keys: &mut Vec<Key>,
) -> Result<u32, AllocError>
    requires objects { cert.now.objects ≡ length problem.now.tracks }
    requires shells { length cert.now.shells.items ≡ length problem.now.tracks }
    requires boxes { table_of listed.now ≡ box_listed (plain_certificate cert.now).boxes }
    requires rows { first < length problem.now.tracks }
    ensures some { IfOk result (λ end. first < end) }
    ensures within { IfOk result (λ end. end ≤ length problem.now.tracks) }
    ensures keys { IfOk result (λ end. All (λ key. IsKeyOf problem.now cert.now first end (plain_key key)) keys.new.items) }
    ensures found { IfOk result (λ end. (a b slot : ℕ)
        → IsKeyOf problem.now cert.now first end (record { a = a; b = b; slot = slot }) → HasKey keys.new.items a b slot) }
{
    keys.clear();
    let mut end = problem.tracks.as_slice().len() as u32;
    for slot in 0..slot_count(problem.window) {
        work.find_pairs(problem, cert, listed, first, end, slot)?;
        append_keys(&work.pairs, slot, first, end, keys)?;
        end = leave_enough(first, end, enough, keys);
    }
    Ok(end)
}

/// Puts keys in order of pair and slot, each once.
fn put_in_order(keys: &mut Vec<Key>)
    ensures order { AreInOrder keys.new.items }
    ensures from { AreKeysKept keys.new.items keys.old.items }
    ensures kept { AreKeysKept keys.old.items keys.new.items }
{
    keys.sort_unstable();
    keys.dedup();
}

/// The keys of the rows from one on, in order: of as many rows as memory is to be had for, and as so many lines of cells can tile.
pub(crate) fn round_from(
    alloc: Global,
    problem: &Problem,
    cert: &Certificate,
    listed: &Listed,
    first: u32,
    lines: usize,
) -> Result<Round, AllocError>
    requires objects { cert.now.objects ≡ length problem.now.tracks }
    requires shells { length cert.now.shells.items ≡ length problem.now.tracks }
    requires boxes { table_of listed.now ≡ box_listed (plain_certificate cert.now).boxes }
    requires rows { first < length problem.now.tracks }
    ensures some { IfOk result (λ round. first < round.end) }
    ensures within { IfOk result (λ round. round.end ≤ length problem.now.tracks) }
    ensures keys { IfOk result (λ round. map plain_key round.keys.items ≡ keys_listed problem.now cert.now first round.end) }
{
    let enough = enough_keys(lines, listed.places());
    let mut work = Work::new(alloc);
    let mut keys = Vec::new(alloc);
    let end = collect(problem, cert, listed, first, enough, &mut work, &mut keys)?;
    put_in_order(&mut keys);
    Ok(Round { end, keys })
}
