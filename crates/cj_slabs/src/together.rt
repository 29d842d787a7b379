use std::sync::atomic::{AtomicBool, AtomicU64, Ordering};

/// What threads that search slabs tell each other. Nothing is proved of it: it says when to stop and when to keep no more, and what was counted
/// by then says whether it is too many.
#[derive(Drop)]
pub struct Together {
    /// The leaves that they have found.
    leaves: AtomicU64,
    /// Those of them that are told.
    told: AtomicU64,
    /// Whether one of them is at a crowded slot.
    at_crowd: AtomicBool,
    /// Whether one of them cannot go on.
    halted: AtomicBool,
}

impl Together {
    pub fn new() -> Together {
        Together {
            leaves: AtomicU64::new(0),
            told: AtomicU64::new(0),
            at_crowd: AtomicBool::new(false),
            halted: AtomicBool::new(false),
        }
    }

    /// Whether all are to stop: more leaves are found than the limit, or one of them cannot go on.
    pub fn is_over(&self, limit: u64) -> bool {
        self.leaves.load(Ordering::SeqCst) > limit || self.halted.load(Ordering::SeqCst)
    }

    /// Whether a thread may go on to a slot. None may, where another is at a crowded slot and this one is crowded too.
    pub fn begin(&self, limit: u64, is_crowded: bool) -> bool {
        if is_crowded && self.at_crowd.swap(true, Ordering::SeqCst) {
            self.halt();
        }
        !self.is_over(limit)
    }

    /// A thread is through with a slot.
    pub fn end(&self, is_crowded: bool) {
        if is_crowded {
            self.at_crowd.store(false, Ordering::SeqCst);
        }
    }

    /// So many leaves more are found.
    pub fn add(&self, leaves: u64) {
        self.leaves.fetch_add(leaves, Ordering::SeqCst);
    }

    /// So many leaves more are told. Whether all of them are more than the limit.
    pub fn tell(&self, leaves: u64, limit: u64) -> bool {
        self.told
            .fetch_add(leaves, Ordering::SeqCst)
            .saturating_add(leaves)
            > limit
    }

    /// One of them cannot go on.
    pub fn halt(&self) {
        self.halted.store(true, Ordering::SeqCst);
    }
}
