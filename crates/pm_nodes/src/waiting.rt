//! Passes a short time without giving the processor up.

use std::hint;

/// How often a thread tells the processor that it waits, in one pause.
const PAUSES: u32 = 20;

/// Passes the time between two looks at what other threads do. It does not yield: on a machine that is busy with other work a
/// yield waits for all of that.
pub fn pause() {
    for _ in 0..PAUSES {
        hint::spin_loop();
    }
}
