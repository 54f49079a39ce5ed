use std::sync::Wait;
use std::sync::atomic::AtomicU64;
use std::thread::yield_now;
use std::time::Duration;

/// The shortest sleep of a lane that finds nothing to do, in microseconds.
const SHORTEST: u64 = 10;

/// How often a sleep doubles at most: the longest is 320 microseconds.
const DOUBLINGS: u32 = 5;

/// Lets time pass for a lane that found nothing to do in its last turn and in `idle` turns before it, and answers how many
/// these are together. At first other threads have their turn, and then it sleeps, each time twice as long up to 320
/// microseconds. So a lane that had something to do a short while ago looks again soon, and one that hasn't had for long
/// hardly disturbs the others. It promises nothing but its return.
pub fn pause<R: Wait>(rt: &R, idle: u32) -> u32 {
    if idle == 0 {
        yield_now();
        return 1;
    }
    let micros = SHORTEST << (idle - 1).min(DOUBLINGS);
    AtomicU64::new(0).park_timeout(rt, 0, Duration::from_micros(micros));
    idle.saturating_add(1)
}
