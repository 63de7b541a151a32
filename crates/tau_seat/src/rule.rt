//! The rule of the table, and what its steps tell.
ghost use Rattle.std.specs.Prelude.{ℕ};

use crate::kept::Kept;
use crate::view::{Named, SeatView};
use atomic_table::{Join, Play, Split, TableRule};
use std::marker::{Brand, PhantomData};

pub struct Ticketed<B> {
    marker: PhantomData<B>,
}

impl<B: Kept> TableRule<Option<B>, SeatView<B::Key, B::Entry>, Named<B::Key>> for Ticketed<B> {
    ghost use Rattle.tau_seat.specs.Rule.{Orderly, first_view};

    ghost holds = { Orderly B.key_of B.entries B.is_sound };

    ghost first = { first_view };
}

pub struct Draw<B> {
    marker: PhantomData<B>,
}

impl<B: Kept> Play<Option<B>, SeatView<B::Key, B::Entry>> for Draw<B> {
    ghost use Rattle.tau_seat.specs.Plays.{drawn};

    ghost then = { drawn };
}

pub struct Look<B> {
    marker: PhantomData<B>,
}

impl<B: Kept> Play<Option<B>, SeatView<B::Key, B::Entry>> for Look<B> {
    ghost use Rattle.tau_seat.specs.Plays.{looked};

    ghost then = { looked B.key_of B.entries B.is_sound };
}

pub struct Learn<B> {
    marker: PhantomData<B>,
}

impl<B: Kept> Play<Option<B>, SeatView<B::Key, B::Entry>> for Learn<B> {
    ghost use Rattle.tau_seat.specs.Plays.{learned};

    ghost then = { learned B.key_of B.entries B.is_sound };
}

pub struct Count<B> {
    marker: PhantomData<B>,
}

impl<B: Kept> Play<Option<B>, SeatView<B::Key, B::Entry>> for Count<B> {
    ghost use Rattle.tau_seat.specs.Plays.{counted};

    ghost then = { counted B.key_of B.entries B.is_sound };
}

pub struct Serve<B> {
    marker: PhantomData<B>,
}

impl<B: Kept> Play<Option<B>, SeatView<B::Key, B::Entry>> for Serve<B> {
    ghost use Rattle.tau_seat.specs.Plays.{served};

    ghost then = { served };
}

/// A number that is known when the program runs.
pub trait Cutting {
    ghost keep: { ℕ };
}

impl Cutting for Brand {
    ghost keep = { 0 };
}

/// A seat keeps the first numbers, and the other one gets the rest.
pub struct Cut<C> {
    marker: PhantomData<C>,
}

impl<G, E, C: Cutting> Split<SeatView<G, E>> for Cut<C> {
    ghost use Rattle.tau_seat.specs.Plays.{front_of, back_of};

    ghost left = { front_of C.keep };

    ghost right = { back_of C.keep };
}

pub struct Both;

impl<G, E> Join<SeatView<G, E>> for Both {
    ghost use Rattle.tau_seat.specs.Plays.{both_of, spent};

    ghost both = { both_of };

    ghost spent = { spent };
}
