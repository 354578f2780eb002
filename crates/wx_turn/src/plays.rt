//! The kinds of step on the table, each with what it tells the seat that makes it.
ghost use Rattle.wx_turn.specs.Turns.{unnumbered_view};
ghost use Rattle.wx_turn.specs.Steps.{Draws, Looks, GivesBack, Numbers, Learns};
ghost use Rattle.wx_turn.specs.Steps.{Counts, LooksLast, joined_view, spent_view};

use crate::stands::Stands;
use crate::view::View;
use atomic_table::{Join, Play, Split};
use std::marker::PhantomData;

/// Draws a ticket.
pub(crate) struct Draw;

impl<S, E, F> Play<Option<S>, View<E, F>> for Draw {
    ghost then = { Draws };
}

/// Looks whether the own ticket is served.
pub(crate) struct Look<S> {
    state: PhantomData<S>,
}

impl<S: Stands> Play<Option<S>, View<S::Entry, S::Fixed>> for Look<S> {
    ghost then = { Looks S.stands S.fixed };
}

/// Ends the turn: the next ticket is served.
pub(crate) struct Serve<S> {
    state: PhantomData<S>,
}

impl<S: Stands> Play<Option<S>, View<S::Entry, S::Fixed>> for Serve<S> {
    ghost then = { GivesBack S.stands S.fixed };
}

/// Takes the next number for a seat that has none.
pub(crate) struct Number<S> {
    state: PhantomData<S>,
}

impl<S: Stands> Play<Option<S>, View<S::Entry, S::Fixed>> for Number<S> {
    ghost then = { Numbers S.stands S.fixed };
}

/// Looks at the whole history, after a join.
pub(crate) struct Learn<S> {
    state: PhantomData<S>,
}

impl<S: Stands> Play<Option<S>, View<S::Entry, S::Fixed>> for Learn<S> {
    ghost then = { Learns S.stands S.fixed };
}

/// Counts the seats that were numbered.
pub(crate) struct Count<S> {
    state: PhantomData<S>,
}

impl<S: Stands> Play<Option<S>, View<S::Entry, S::Fixed>> for Count<S> {
    ghost then = { Counts S.stands S.fixed };
}

/// Looks whether the last ticket is served.
pub(crate) struct LookLast<S> {
    state: PhantomData<S>,
}

impl<S: Stands> Play<Option<S>, View<S::Entry, S::Fixed>> for LookLast<S> {
    ghost then = { LooksLast S.stands S.fixed };
}

/// Makes a seat without a number from another one.
pub(crate) struct SplitOff;

impl<E, F> Split<View<E, F>> for SplitOff {
    ghost left = { λ v. v };

    ghost right = { unnumbered_view };
}

/// Takes a seat into another one.
pub(crate) struct TakeIn;

impl<E, F> Join<View<E, F>> for TakeIn {
    ghost both = { joined_view };

    ghost spent = { spent_view };
}
