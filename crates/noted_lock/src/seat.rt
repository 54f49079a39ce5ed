//! A lock's seats.
ghost use Rattle.noted_lock.specs.Seats.{IsOutside};

use crate::view::View;
use atomic_table::Badge;

/// The right to take turns at one lock.
///
/// It has a number, and the note that the value behind the lock has for this number. It goes into the
/// lock by `enter`, and comes back by `leave` with the note of the value that is left there. All seats
/// of a lock together close it; a seat that is dropped keeps it from being closed.
#[derive(Drop)]
pub struct LockSeat {
    pub(crate) badge: Badge<View>,
    ghost outside: { IsOutside badge.views },
}
