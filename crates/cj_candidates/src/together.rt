use std::sync::atomic::{AtomicBool, AtomicUsize, Ordering};

/// What threads that search slots tell each other. Nothing is proved of it: it says when to stop, and the roots that were found by then
/// say whether they are too many.
#[derive(Drop)]
pub struct Together {
    /// The roots that they have found.
    found: AtomicUsize,
    /// Whether one of them is at a crowded slot.
    at_crowd: AtomicBool,
    /// Whether another one came to a crowded slot meanwhile.
    crowded: AtomicBool,
}

impl Together {
    pub fn new() -> Together {
        Together {
            found: AtomicUsize::new(0),
            at_crowd: AtomicBool::new(false),
            crowded: AtomicBool::new(false),
        }
    }

    /// Whether all are to stop: more roots are found than the limit, or two threads are at crowded slots.
    pub fn is_over(&self, limit: u64) -> bool {
        self.found.load(Ordering::SeqCst) as u64 > limit || self.crowded.load(Ordering::SeqCst)
    }

    /// Whether a thread may go on to a slot.
    pub fn begin(&self, limit: u64, is_crowded: bool) -> bool {
        if is_crowded && self.at_crowd.swap(true, Ordering::SeqCst) {
            self.crowded.store(true, Ordering::SeqCst);
        }
        !self.is_over(limit)
    }

    /// So many roots more are found.
    pub fn add(&self, roots: usize) {
        self.found.fetch_add(roots, Ordering::SeqCst);
    }

    /// A thread is through with a slot.
    pub fn end(&self, is_crowded: bool) {
        if is_crowded {
            self.at_crowd.store(false, Ordering::SeqCst);
        }
    }
}
