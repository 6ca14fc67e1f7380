//! The token of one that waits outside the lock.
use crate::logged::Logged;
use crate::view::Token;
use std::marker::Model;

/// A token of one lock, of no bytes. Contracts see it as the lock, the log that it has seen and the
/// lock's origin.
pub struct Seat<S: Logged> {
    token: Token<S>,
}

/// What a split gives.
pub enum Split<S: Logged> {
    /// Two tokens, each of which has seen what the one had.
    Two(Seat<S>, Seat<S>),
    /// The token comes back, where there was no memory. A split takes none today.
    OutOfMemory(Seat<S>),
}

impl<S: Logged> Model for Seat<S> {
    ghost use Rattle.std.specs.Prelude.{◌≡◌, []};
    ghost use Rattle.index_lock.specs.Tokens.{SeatFacts};

    ghost Value = { SeatFacts S.Entry S.Origin };

    ghost use Rattle.index_lock.specs.Rule.{known_by};
    ghost use Rattle.index_lock.specs.declared.view.View.TheVariants.{Rests};

    ghost view = { λ seat. let known = known_by S.blank_origin seat.token.me.0 in
        record { lock = seat.token.table_id; seen = known.log; origin = known.origin } };

    ghost invariant = { λ seat.
        seat.token.me ≡ (Rests (known_by S.blank_origin seat.token.me.0), []) };
}

impl<S: Logged> Seat<S> {
    ghost use Rattle.std.specs.Prelude.{◌≡◌, []};
    ghost use Rattle.index_lock.specs.Rule.{IsTokenOf};
    ghost use Rattle.index_lock.specs.declared.view.Known.{Known};
    ghost use Rattle.index_lock.specs.declared.view.View.TheVariants.{Rests};

    pub(crate) fn of(token: Token<S>) -> Seat<S>
        requires { (known : Known S.Entry S.Origin) × (token.me ≡ (Rests known, [])) }
        ensures { IsTokenOf result token }
    {
        Seat { token }
    }

    pub(crate) fn into_token(self) -> Token<S>
        ensures { IsTokenOf self result }
    {
        let Self { token } = self;
        token
    }
}

impl<S: Logged> Drop for Seat<S> {
    fn drop(self) {
        let Self { token: _ } = self;
    }
}
