//! Waits that end.

use std::hint;
use std::sync::atomic::{AtomicBool, AtomicU32, Ordering};

/// The number of times that a waiting thread looks before it gives up.
const LOOKS: u32 = 20_000_000;

/// A limit on waits: each waiting thread looks at most `LOOKS` times, and once one gave up, none
/// waits any more.
#[derive(Drop)]
pub struct Patience {
    is_gone: AtomicBool,
}

impl Patience {
    pub fn new() -> Patience {
        Patience {
            is_gone: AtomicBool::new(false),
        }
    }

    /// Waits until `seen` is the awaited number. Returns whether it is.
    pub fn await_number(&self, seen: &AtomicU32, awaited: u32) -> bool {
        for _ in 0..LOOKS {
            if seen.load(Ordering::SeqCst) == awaited {
                return true;
            }
            if self.is_gone() {
                return false;
            }
            hint::spin_loop();
        }
        self.is_gone.store(true, Ordering::SeqCst);
        false
    }

    /// Returns whether a thread gave up.
    pub fn is_gone(&self) -> bool {
        self.is_gone.load(Ordering::SeqCst)
    }
}
