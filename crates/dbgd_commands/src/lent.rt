//! The hands that a scan is made with, or the rows of links of a server, apart from the others.

ghost use Rattle.std.specs.Prelude.{◌≡◌, ◌+◌, ◌≤◌, [], ◌++◌, drop, min, take, vec_capacity, vec_len, IfOk, OnErr, OnOk};
ghost use Rattle.dbgd_words.specs.Limits.{IsScanFit};

use std::alloc::{AllocError, Global};

/// Those that aren't asked, and room for all.
#[derive(Drop)]
pub struct Others<T: Drop> {
    pub rest: Vec<T>,
    pub room: Vec<T>,
}

/// How many hands a scan by so many workers asks: two, and one for each worker, or all that there are.
pub fn asked(workers: u64, hands: usize) -> usize
    requires { IsScanFit workers }
    ensures { result ≡ min (workers + 2) hands }
{
    let count = (workers + 2) as usize;
    if count < hands { count } else { hands }
}

/// Leaves so many, from the first on, and takes the others off. Where there is no memory all are
/// left.
pub fn lend<T: Drop>(
    alloc: Global,
    hands: &mut Vec<T>,
    count: usize,
) -> Result<Others<T>, AllocError>
    requires { count ≤ vec_len hands.old }
    ensures front { OnOk result (hands.new.items ≡ take count hands.old.items) }
    ensures count { OnOk result (vec_len hands.new ≡ count) }
    ensures others { IfOk result (λ others. others.rest.items ≡ drop count hands.old.items) }
    ensures long { IfOk result (λ others. vec_len others.rest + count ≡ vec_len hands.old) }
    ensures none { IfOk result (λ others. others.room.items ≡ []) }
    ensures empty { IfOk result (λ others. vec_len others.room ≡ 0) }
    ensures room { IfOk result (λ others. vec_len hands.old ≤ vec_capacity others.room) }
    ensures err { OnErr result (hands.new ≡ hands.old) }
{
    let room = Vec::with_capacity(alloc, hands.len())?;
    let others = hands.split_off(count)?;
    Ok(Others { rest: others, room })
}

/// All in their order again: those that were lent, and behind them the others.
pub fn rejoin<T: Drop>(hands: &mut Vec<T>, others: Others<T>)
    requires none { others.room.items ≡ [] }
    requires empty { vec_len others.room ≡ 0 }
    requires room { vec_len hands.old + vec_len others.rest ≤ vec_capacity others.room }
    ensures all { hands.new.items ≡ hands.old.items ++ others.rest.items }
    ensures long { vec_len hands.new ≡ vec_len hands.old + vec_len others.rest }
{
    let Others {
        rest: mut others,
        mut room,
    } = others;
    let Ok(()) = room.append(hands) else {
        unreachable!()
    };
    let Ok(()) = room.append(&mut others) else {
        unreachable!()
    };
    *hands = room;
}
