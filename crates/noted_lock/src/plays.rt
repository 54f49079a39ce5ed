//! What each kind of step tells the seat that makes it.
ghost use Rattle.noted_lock.specs.Plays.{took, recorded, gave, made_one, next_seat, both};
ghost use Rattle.noted_lock.specs.Rule.{spent};

use crate::rule::{Noted, Written};
use crate::view::View;
use atomic_table::{Join, Play, Split};
use std::marker::PhantomData;

/// Take the turn: a compare and exchange of 0 by 1.
pub struct Take;

impl<T: Noted> Play<Option<T>, View> for Take {
    ghost then = { took T.note };
}

/// Record the value's note, while the value is out of the slot: a store of 1.
pub struct Record<W> {
    written: PhantomData<W>,
}

impl<T, W: Written> Play<Option<T>, View> for Record<W> {
    ghost then = { recorded W.written };
}

/// Give the turn back, while the value is in the slot: a store of 0.
pub struct Give;

impl<T> Play<Option<T>, View> for Give {
    ghost then = { gave };
}

/// Split the next seat off the one that makes the lock.
pub struct Make;

impl Split<View> for Make {
    ghost left = { made_one };

    ghost right = { next_seat };
}

/// Join a seat to the one that closes the lock.
pub struct Gather;

impl Join<View> for Gather {
    ghost both = { both };

    ghost spent = { spent };
}
