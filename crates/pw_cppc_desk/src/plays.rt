ghost use Rattle.std.specs.Prelude.{ℕ, None, Option};
ghost use Rattle.pw_cppc.specs.declared.entry.CppcEntry.{CppcEntry as entry};
ghost use Rattle.pw_cppc_desk.specs.Tracks.{joined_track, left_track, right_track, spent_track};
ghost use Rattle.pw_cppc_desk.specs.Slots.{Given};
ghost use Rattle.pw_cppc_desk.specs.Plays.{claimed_step, drew_step, gone_step};
ghost use Rattle.pw_cppc_desk.specs.Plays.{opened_step, put_step};
ghost use Rattle.pw_cppc_desk.specs.Asked.{led_in, looked_in, no_entry};

use crate::{Ledger, Track};
use atomic_table::{Join, Play, Split};
use pw_regs::Registers;
use std::marker::{Brand, PhantomData};

/// What a step is about, which the call that makes it picks: what was given to open, the entry, and the
/// registers' count.
pub trait Asked {
    ghost given: { Option Given };

    ghost entry: { entry };

    ghost count: { ℕ };
}

impl Asked for Brand {
    ghost given = { None };

    ghost entry = { no_entry };

    ghost count = { 0 };
}

/// The turn is taken, or found held.
pub struct Lock<Q> {
    asked: PhantomData<Q>,
}

impl<R: Registers, Q: Asked> Play<Option<Ledger<R>>, Track> for Lock<Q> {
    ghost then = { led_in R.Registers Q.given };
}

/// The turn is given back with an entry more.
pub struct Commit<Q> {
    asked: PhantomData<Q>,
}

impl<R, Q: Asked> Play<Option<Ledger<R>>, Track> for Commit<Q> {
    ghost then = { put_step Q.entry Q.count };
}

/// The turn is given back, and all is as it was.
pub struct Unlock<Q> {
    asked: PhantomData<Q>,
}

impl<R, Q: Asked> Play<Option<Ledger<R>>, Track> for Unlock<Q> {
    ghost then = { gone_step Q.count };
}

/// The slot comes in hand for the first time.
pub struct Claim;

impl<R> Play<Option<Ledger<R>>, Track> for Claim {
    ghost then = { claimed_step };
}

/// The turn is free for the first time.
pub struct OpenTurn<Q> {
    asked: PhantomData<Q>,
}

impl<R, Q: Asked> Play<Option<Ledger<R>>, Track> for OpenTurn<Q> {
    ghost then = { opened_step Q.count };
}

/// A number is drawn, or another seat drew it.
pub struct Draw;

impl<R> Play<Option<Ledger<R>>, Track> for Draw {
    ghost then = { drew_step };
}

/// The number of seats made is read.
pub struct Look<Q> {
    asked: PhantomData<Q>,
}

impl<R, Q: Asked> Play<Option<Ledger<R>>, Track> for Look<Q> {
    ghost then = { looked_in Q.given };
}

/// The number and the parts of a new seat, which the call picks that makes it.
pub trait Share {
    ghost number: { ℕ };

    ghost parts: { ℕ };
}

impl Share for Brand {
    ghost number = { 0 };

    ghost parts = { 0 };
}

/// A seat is split.
pub struct SplitSeat<Q> {
    share: PhantomData<Q>,
}

impl<Q: Share> Split<Track> for SplitSeat<Q> {
    ghost left = { left_track Q.number Q.parts };

    ghost right = { right_track Q.number Q.parts };
}

/// Two seats are joined.
pub struct JoinSeats;

impl Join<Track> for JoinSeats {
    ghost both = { joined_track };

    ghost spent = { spent_track };
}
