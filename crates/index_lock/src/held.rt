//! The guard: a token that has the lock, with the value.
use crate::logged::Logged;
use crate::view::Token;
use std::marker::Model;

/// The lock's value, for as long as it is held. Contracts see the lock, the value, and the log and
/// the origin that the value had at `enter`. It can't be let go: `leave` takes it, or `into_value`.
pub struct Held<S: Logged> {
    value: S,
    token: Token<S>,
}

impl<S: Logged> Model for Held<S> {
    ghost use Rattle.std.specs.Prelude.{◌≡◌, [], ◌∷◌, None};
    ghost use Rattle.index_lock.specs.Tokens.{HeldLockFacts};

    ghost Value = { HeldLockFacts S S.Entry S.Origin };

    ghost use Rattle.index_lock.specs.Rule.{known_by};
    ghost use Rattle.index_lock.specs.declared.view.View.TheVariants.{Holds};

    ghost view = { λ held. let known = known_by S.blank_origin held.token.me.0 in record {
      lock = held.token.table_id;
      value = held.value;
      seen = known.log;
      origin = known.origin;
    } };

    ghost invariant = { λ held.
        held.token.me ≡ (Holds (known_by S.blank_origin held.token.me.0), (0, None) ∷ []) };
}

impl<S: Logged> Held<S> {
    ghost use Rattle.std.specs.Prelude.{◌≡◌, [], ◌∷◌, None};
    ghost use Rattle.index_lock.specs.Rule.{IsTokenUnder};
    ghost use Rattle.index_lock.specs.declared.view.Known.{Known};
    ghost use Rattle.index_lock.specs.declared.view.View.TheVariants.{Holds};
    ghost use Rattle.std.specs.Borrow.{Lends, sem};
    ghost use Rattle.index_lock.specs.contracts.held.Held.{the_row as held_row};

    pub(crate) fn of(value: S, token: Token<S>) -> Held<S>
        requires { (known : Known S.Entry S.Origin) × (token.me ≡ (Holds known, (0, None) ∷ [])) }
        ensures value { result.value ≡ value }
        ensures token { IsTokenUnder result None token }
    {
        Held { value, token }
    }

    pub(crate) fn into_parts(self) -> (S, Token<S>)
        ensures value { result.0 ≡ self.value }
        ensures token { IsTokenUnder self None result.1 }
    {
        let Self { value, token } = self;
        (value, token)
    }

    pub fn value(&self) -> &S
        ensures { result.now ≡ self.now.value }
    {
        &self.value
    }

    /// Lends the value to be changed. Whatever is done to it, `leave` asks that its log goes on
    /// from that at `enter`.
    pub fn value_mut(&mut self) -> &mut S
        ensures* writes_back { sem 𝓛 (Lends
            (held_row S.row S.Entry.row S.Origin.row ⟦<S as Logged>⟧)
            S.row self.entry result (λ w. record self.entry.now { value = w })) }
        ensures value { result.now ≡ self.old.value }
    {
        &mut self.value
    }
}
