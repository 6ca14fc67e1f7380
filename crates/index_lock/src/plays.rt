//! The kinds of step on the table, each with what it tells.
use crate::logged::Logged;
use crate::view::View;
use atomic_table::{Join, Play, Split};

/// Takes the lock, where the word is the one expected.
pub(crate) struct Acquire;

impl<S: Logged> Play<Option<S>, View<S::Entry, S::Origin>> for Acquire {
    ghost use Rattle.index_lock.specs.Rule.{acquired};

    ghost then = { acquired S.log S.origin };
}

/// Gives the lock back.
pub(crate) struct Release;

impl<S: Logged> Play<Option<S>, View<S::Entry, S::Origin>> for Release {
    ghost use Rattle.index_lock.specs.Rule.{released};

    ghost then = { released S.log S.origin };
}

/// A load after a join, which tells that both tokens had seen beginnings of what is kept.
pub(crate) struct Settle;

impl<S: Logged> Play<Option<S>, View<S::Entry, S::Origin>> for Settle {
    ghost use Rattle.index_lock.specs.Rule.{settled};

    ghost then = { settled };
}

/// Gives the slot back empty, for good.
pub(crate) struct End;

impl<S: Logged> Play<Option<S>, View<S::Entry, S::Origin>> for End {
    ghost use Rattle.index_lock.specs.Rule.{ended};

    ghost then = { ended };
}

/// A new token knows what the old one knows.
pub(crate) struct Copies;

impl<E, O> Split<View<E, O>> for Copies {
    ghost left = { λ view. view };

    ghost right = { λ view. view };
}

/// One token keeps the longer log, and the other is spent.
pub(crate) struct KeepsLonger;

impl<E, O> Join<View<E, O>> for KeepsLonger {
    ghost use Rattle.index_lock.specs.Rule.{joined_view};
    ghost use Rattle.index_lock.specs.declared.view.View.TheVariants.{Spent};

    ghost both = { joined_view };

    ghost spent = { Spent };
}
