ghost use Rattle.std.specs.Prelude.{◌≡◌, ◌+◌, ◌<◌, ◌≤◌, ◌==◌, ◌&&◌, false, List, [], ◌∷◌, ◌++◌, length, if◌then◌else◌, IfOk, OnOk, All};
ghost use Rattle.cj_base.specs.Bounds.{MOST_LEAVES};
ghost use Rattle.cj_case.specs.Leaves.{PlainLeaf, plain_leaf, plain_leaves};
ghost use Rattle.cj_case.specs.declared.encounter.Mark.TheVariants as Mark;
ghost use Rattle.cj_case.specs.Order.{AreInOrder, HaveTicks};
ghost use Rattle.cj_meet.specs.Encounters.{AreEncounters, encounters_of, groups_in, Describes, is_far, is_near_mark, mark_of};
ghost use Rattle.cj_meet.specs.Spans.{HaveExactSpans};

use cj_case::{Encounter, Kind, Leaf, Mark};
use std::alloc::{AllocError, Global};

/// The encounters of the leaves of a run, in order of pair and time. The only error is want of memory.
pub fn encounters(alloc: Global, leaves: &[Leaf]) -> Result<Vec<Encounter>, AllocError>
    requires in_order { AreInOrder (plain_leaves leaves.now) }
    requires few { length leaves.now ≤ MOST_LEAVES }

    ensures groups { IfOk result (λ es.
        groups_in (plain_leaves leaves.now) es.items ≡ encounters_of (plain_leaves leaves.now)) }
    ensures described { IfOk result (λ es. All (Describes (plain_leaves leaves.now)) es.items) }

    // A near span of a pair holds ticks of its near leaves, and all of those lie in such spans. So with undecided ones.
    ensures exact_spans { HaveExactSpans (plain_leaves leaves.now) }
{
    let mut found = Vec::new(alloc);
    for (at, leaf) in leaves.iter().enumerate() {
        add(&mut found, leaf, at as u32)?;
    }
    Ok(found)
}

// Adds the leaf that comes after so many others, if it is not far.
fn add(found: &mut Vec<Encounter>, leaf: &Leaf, at: u32) -> Result<(), AllocError>
    requires room { at < MOST_LEAVES }
    requires within { All (λ e. e.past ≤ at) found.old.items }
    ensures within { OnOk result (All (λ e. e.past ≤ at + 1) found.new.items) }
    // Whatever leaves come before it, if these are their encounters.
    ensures found { OnOk result ((ss : List PlainLeaf) →
        length ss ≡ at → HaveTicks ss → AreInOrder (ss ++ plain_leaf leaf.now ∷ []) →
        AreEncounters ss found.old.items → AreEncounters (ss ++ plain_leaf leaf.now ∷ []) found.new.items) }
{
    match leaf.kind {
        Kind::Far => Ok(()),
        Kind::Near => add_marked(found, leaf, Mark::Near, at),
        Kind::Undecided => add_marked(found, leaf, Mark::Undecided, at),
    }
}

// Adds a leaf that is not far, whose mark this is: to the last encounter where it goes on, else as a new one.
fn add_marked(
    found: &mut Vec<Encounter>,
    leaf: &Leaf,
    mark: Mark,
    at: u32,
) -> Result<(), AllocError>
    requires room { at < MOST_LEAVES }
    requires within { All (λ e. e.past ≤ at) found.old.items }
    requires not_far { is_far (plain_leaf leaf.now) ≡ false }
    requires marked { mark ≡ mark_of (plain_leaf leaf.now ∷ []) }
    ensures within { OnOk result (All (λ e. e.past ≤ at + 1) found.new.items) }
    ensures found { OnOk result ((ss : List PlainLeaf) →
        length ss ≡ at → HaveTicks ss → AreInOrder (ss ++ plain_leaf leaf.now ∷ []) →
        AreEncounters ss found.old.items → AreEncounters (ss ++ plain_leaf leaf.now ∷ []) found.new.items) }
{
    match found.last() {
        Some(last) if goes_on(last, leaf) => {
            let longer = extended(last, leaf, mark, at + 1);
            let place = found.len() - 1;
            found[place] = longer;
            Ok(())
        }
        _ => {
            found.push(begun(leaf, mark, at))?;
            Ok(())
        }
    }
}

// Whether the leaf is of the same pair and begins at the next tick.
fn goes_on(last: &Encounter, leaf: &Leaf) -> bool
    ensures { result ≡ (last.now.pair.a == leaf.now.cell.pair.a
        && (last.now.pair.b == leaf.now.cell.pair.b && last.now.last.micros + 1 == leaf.now.cell.first.micros)) }
{
    last.pair == leaf.cell.pair && last.last.micros + 1 == leaf.cell.first.micros
}

// The encounter with one more leaf at its end.
fn extended(last: &Encounter, leaf: &Leaf, mark: Mark, past: u32) -> Encounter
    requires later { last.now.last.micros ≤ leaf.now.cell.first.micros }
    requires behind { last.now.past ≤ past }
    ensures kept { (result.pair ≡ last.now.pair) × (result.first ≡ last.now.first) × (result.leaf ≡ last.now.leaf) }
    ensures end { (result.last ≡ leaf.now.cell.last) × (result.past ≡ past) }
    ensures mark { result.mark ≡ (if is_near_mark last.now.mark then Mark.Near else mark) }
{
    Encounter {
        pair: last.pair,
        first: last.first,
        last: leaf.cell.last,
        mark: match last.mark {
            Mark::Near => Mark::Near,
            Mark::Undecided => mark,
        },
        leaf: last.leaf,
        past,
    }
}

// The encounter that begins with this leaf.
fn begun(leaf: &Leaf, mark: Mark, at: u32) -> Encounter
    requires { at < MOST_LEAVES }
    ensures cell { (result.pair ≡ leaf.now.cell.pair) × (result.first ≡ leaf.now.cell.first) × (result.last ≡ leaf.now.cell.last) }
    ensures place { (result.leaf ≡ at) × (result.past ≡ at + 1) }
    ensures mark { result.mark ≡ mark }
{
    Encounter {
        pair: leaf.cell.pair,
        first: leaf.cell.first,
        last: leaf.cell.last,
        mark,
        leaf: at,
        past: at + 1,
    }
}
