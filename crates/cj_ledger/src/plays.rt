//! The steps of a share on the words, and what each tells it.
use crate::count::Count;
use atomic_table::Play;

/// A load of the live cells.
pub struct LoadsLive;

impl<S> Play<S, Count> for LoadsLive {
    ghost use Rattle.std.specs.Prelude.{◌≡◌};
    ghost use Rattle.cj_ledger.specs.Counts.{told_live};
    ghost use Rattle.cj_ledger.specs.Words.{KnowsLive};

    ghost then = { λ step before found after. (after ≡ (told_live before.0 found, before.1)) × KnowsLive before.0 found };
}

/// A load of the leaves.
pub struct LoadsLeaves;

impl<S> Play<S, Count> for LoadsLeaves {
    ghost use Rattle.std.specs.Prelude.{◌≡◌};
    ghost use Rattle.cj_ledger.specs.Counts.{told_leaves};
    ghost use Rattle.cj_ledger.specs.Words.{KnowsLeaves};

    ghost then = { λ step before found after. (after ≡ (told_leaves before.0 found, before.1)) × KnowsLeaves before.0 found };
}

/// A load of the halt bits.
pub struct LoadsHalts;

impl<S> Play<S, Count> for LoadsHalts {
    ghost use Rattle.std.specs.Prelude.{◌≡◌};
    ghost use Rattle.cj_ledger.specs.Counts.{told_halts};
    ghost use Rattle.cj_ledger.specs.Words.{KnowsHalts};

    ghost then = { λ step before found after. (after ≡ (told_halts before.0 found, before.1)) × KnowsHalts before.0 found };
}

/// The first step of a split: one live cell more.
pub struct AddsLive;

impl<S> Play<S, Count> for AddsLive {
    ghost use Rattle.std.specs.Prelude.{◌≡◌};
    ghost use Rattle.cj_ledger.specs.Counts.{after_first};

    ghost then = { λ step before found after. after ≡ (after_first before.0, before.1) };
}

/// The second step of a split: one leaf more, and their new number is told.
pub struct AddsLeaf;

impl<S> Play<S, Count> for AddsLeaf {
    ghost use Rattle.std.specs.Prelude.{◌≡◌, ◌+◌, ◌%◌, ◌^◌};
    ghost use Rattle.cj_ledger.specs.Counts.{after_second};

    ghost then = { λ step before found after. after ≡ (after_second before.0 ((found + 1) % 2 ^ 64), before.1) };
}

/// Both steps of a split and a close, which leave the live cells as they are: one leaf more, and their new number is told.
pub struct ClosesAndSplits;

impl<S> Play<S, Count> for ClosesAndSplits {
    ghost use Rattle.std.specs.Prelude.{◌≡◌, ◌+◌, ◌%◌, ◌^◌};
    ghost use Rattle.cj_ledger.specs.Counts.{after_split, after_closes};

    ghost then = { λ step before found after. after ≡ (after_split (after_closes before.0 1) ((found + 1) % 2 ^ 64), before.1) };
}

/// So many live cells less.
pub struct Closes;

impl<S> Play<S, Count> for Closes {
    ghost use Rattle.std.specs.Prelude.{◌≡◌};
    ghost use Rattle.cj_ledger.specs.Counts.{after_closes};

    ghost then = { λ step before found after. after ≡ (after_closes before.0 step.first, before.1) };
}

/// The bit of `Why::Cells` is set.
pub struct SetsCells;

impl<S> Play<S, Count> for SetsCells {
    ghost use Rattle.std.specs.Prelude.{◌≡◌};
    ghost use Rattle.cj_ledger.specs.Counts.{after_halt};
    ghost use Rattle.cj_ledger.specs.declared.why.Why.TheVariants.{Cells};

    ghost then = { λ step before found after. after ≡ (after_halt Cells before.0, before.1) };
}

/// The bit of `Why::Memory` is set.
pub struct SetsMemory;

impl<S> Play<S, Count> for SetsMemory {
    ghost use Rattle.std.specs.Prelude.{◌≡◌};
    ghost use Rattle.cj_ledger.specs.Counts.{after_halt};
    ghost use Rattle.cj_ledger.specs.declared.why.Why.TheVariants.{Memory};

    ghost then = { λ step before found after. after ≡ (after_halt Memory before.0, before.1) };
}
