//! Lengths that fields state.

ghost use Rattle.std.specs.Prelude.{◌≡◌};
ghost use Rattle.upstream_wire.specs.Framing.{length_of};

use crate::limits::BODY_LIMIT;

/// The number of a length, where it is one that a body has: decimal digits, as many as come.
#[tactic(auto, using(crate::proofs::NumberLemmas::too_long))]
pub(crate) fn length_of(value: &[u8]) -> Option<u64>
    ensures { result ≡ length_of value.now }
{
    if value.is_empty() {
        return None;
    }
    let mut number: u64 = 0;
    let mut at = 0;
    while at < value.len() {
        if number > BODY_LIMIT {
            return None;
        }
        let b = value[at];
        if !b.is_ascii_digit() {
            return None;
        }
        number = number * 10 + (b - b'0') as u64;
        at += 1;
    }
    if number > BODY_LIMIT {
        return None;
    }
    Some(number)
}
