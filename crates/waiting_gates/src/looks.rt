//! Waiting for what another thread tells.

use std::sync::atomic::AtomicBool;
use std::sync::atomic::Ordering::SeqCst;
use std::thread::yield_now;

/// Looks so many times at most, and lets other threads run between two looks. Whether it saw that the flag was set.
pub fn is_set_within(flag: &AtomicBool, turns: u64) -> bool {
    for _ in 0..turns {
        if flag.load(SeqCst) {
            return true;
        }
        yield_now();
    }
    false
}
