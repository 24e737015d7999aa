// A gate that shows that two scripts are inside at once.
use js_io::Gate;
use std::sync::atomic::{AtomicU64, Ordering};
use std::thread;

const TURNS: u32 = 100_000_000;

// A gate that holds script 0 until script 1 has entered, and for so many turns at most.
#[derive(Drop)]
pub(crate) struct HoldsFirst {
    entered: AtomicU64,
    ran_out: AtomicU64,
}

impl HoldsFirst {
    pub(crate) fn new() -> Self {
        HoldsFirst {
            entered: AtomicU64::new(0),
            ran_out: AtomicU64::new(0),
        }
    }

    // Whether the first was let go with turns left.
    pub(crate) fn was_met(&self) -> bool {
        self.ran_out.load(Ordering::SeqCst) == 0
    }
}

impl Gate for HoldsFirst {
    fn enter(&self, script: u32) {
        if script == 1 {
            self.entered.store(1, Ordering::SeqCst);
            return;
        }
        for _ in 0..TURNS {
            if self.entered.load(Ordering::SeqCst) == 1 {
                return;
            }
            thread::yield_now();
        }
        self.ran_out.store(1, Ordering::SeqCst);
    }

    fn leave(&self, _script: u32) {}
}
