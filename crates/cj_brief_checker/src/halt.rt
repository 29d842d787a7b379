use std::sync::atomic::{AtomicBool, Ordering};

/// Whether the workers are to leave what is not begun. Nothing is proved of it: what is left is done later, where it is wanted.
#[derive(Drop)]
pub(crate) struct Halt {
    called: AtomicBool,
}

impl Halt {
    pub(crate) fn new() -> Halt {
        Halt {
            called: AtomicBool::new(false),
        }
    }

    pub(crate) fn call(&self) {
        self.called.store(true, Ordering::Relaxed);
    }

    pub(crate) fn is_called(&self) -> bool {
        self.called.load(Ordering::Relaxed)
    }
}
