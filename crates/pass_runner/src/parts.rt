//! The first hand of a pass, and those that help.

ghost use Rattle.std.specs.Prelude.{◌≡◌, ◌∷◌, ◌<◌, ◌≤◌, [], vec_capacity, vec_len, IfErr, IfOk};
ghost use Rattle.std.specs.List.{sum_by};
ghost use Rattle.pass_runner.specs.Helped.{BeginsWithLook, loads_counted, hands_in};

use crate::helper::{Helper, Task};
use crossbeam_utils::CachePadded;
use std::alloc::Global;

/// The first hand, which walks and settles, the others, of which the first one looks for files and
/// the rest read, and room for all hands to come back.
#[derive(Drop)]
pub(crate) struct Parts<T: Drop> {
    pub(crate) first: T,
    pub(crate) helpers: Vec<Helper<T>>,
    pub(crate) room: Vec<T>,
}

/// Takes the hands apart, or gives them back where there is no memory.
pub(crate) fn apart<T: Drop>(alloc: Global, hands: Vec<T>) -> Result<Parts<T>, Vec<T>>
    requires { 0 < vec_len hands }
    ensures hands { IfOk result (λ parts.
        hands.items ≡ parts.first ∷ hands_in parts.helpers.items) }
    ensures tasks { IfOk result (λ parts. BeginsWithLook parts.helpers.items) }
    ensures count { IfOk result (λ parts. vec_len parts.helpers < vec_len hands) }
    ensures room { IfOk result (λ parts.
        (parts.room.items ≡ []) × (vec_len hands ≤ vec_capacity parts.room)) }
    ensures err { IfErr result (λ back. back ≡ hands) }
{
    let count = hands.len();
    let Ok(room) = Vec::with_capacity(alloc, count) else {
        return Err(hands);
    };
    let Ok(helpers) = Vec::with_capacity(alloc, count) else {
        return Err(hands);
    };
    let mut hands = hands;
    let first = hands.remove(0);
    Ok(Parts {
        first,
        helpers: helpers_of(hands, helpers),
        room,
    })
}

/// Hands as helpers: the first looks for files, the others read.
fn helpers_of<T: Drop>(hands: Vec<T>, helpers: Vec<Helper<T>>) -> Vec<Helper<T>>
    requires none { helpers.items ≡ [] }
    requires room { vec_len hands ≤ vec_capacity helpers }
    ensures hands { hands_in result.items ≡ hands.items }
    ensures tasks { BeginsWithLook result.items }
    ensures count { vec_len result ≡ vec_len hands }
{
    let mut helpers = helpers;
    for hand in hands {
        let task = if helpers.is_empty() {
            Task::Look
        } else {
            Task::Read
        };
        helpers.push_reserved(Helper {
            hand,
            task,
            asked: CachePadded::new(0),
        });
    }
    helpers
}

/// The hands in their order again, and the number of openings that were counted, up to the largest
/// `u64`.
pub(crate) fn together<T: Drop>(first: T, helpers: Vec<Helper<T>>, room: Vec<T>) -> (Vec<T>, u64)
    requires none { room.items ≡ [] }
    requires room { vec_len helpers < vec_capacity room }
    ensures hands { result.0.items ≡ first ∷ hands_in helpers.items }
    ensures asked { result.1 ≤ sum_by loads_counted helpers.items }
{
    let mut hands = room;
    hands.push_reserved(first);
    let mut asked: u64 = 0;
    for helper in helpers {
        let Helper {
            hand,
            task: _,
            asked: more,
        } = helper;
        asked = asked.saturating_add(more.into_inner());
        hands.push_reserved(hand);
    }
    (hands, asked)
}
