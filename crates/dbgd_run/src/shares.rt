//! The counters of a server.

ghost use Rattle.std.specs.Prelude.{◌≡◌, ◌+◌, All, vec_len, IfOk};
ghost use Rattle.dbgd_metrics.specs.Shares.{IsNewShare};
ghost use Rattle.dbgd_words.specs.Limits.{IsScanFit};
ghost use Rattle.dbgd_run.specs.Workers.{IsFreshShare};

use dbgd_metrics::{Book, Drawn, Share, ShareSplit};
use std::alloc::{AllocError, Global};
use std::sync::Wait;

/// A share for the passes, and one for each worker.
#[derive(Drop)]
pub(crate) struct Shares {
    pub(crate) own: Share,
    pub(crate) others: Vec<Share>,
}

/// Gives a share a row. That none is left, which doesn't come, is answered as want of memory.
fn drawn<R: Wait>(rt: &R, book: &Book, share: Share) -> Result<Share, AllocError>
    requires { IsNewShare book.now.id share }
    ensures { IfOk result (λ drawn. IsFreshShare book.now drawn) }
{
    match book.draw(rt, share) {
        Drawn::Drawn(share) => Ok(share),
        Drawn::Full(_) => Err(AllocError),
    }
}

/// Two shares of one that has no row.
fn split(book: &Book, share: Share) -> (Share, Share)
    requires { IsNewShare book.now.id share }
    ensures { IsNewShare book.now.id result.0 × IsNewShare book.now.id result.1 }
{
    match book.split(share) {
        ShareSplit::Two(first, second) => (first, second),
        ShareSplit::OutOfMemory(_) => unreachable!(),
    }
}

/// Shares with rows of their own, so many, split off from one that has none, and that one.
fn split_shares<R: Wait>(
    rt: &R,
    alloc: Global,
    book: &Book,
    share: Share,
    count: u64,
) -> Result<(Share, Vec<Share>), AllocError>
    requires { IsNewShare book.now.id share }
    ensures own { IfOk result (λ shares. IsNewShare book.now.id shares.0) }
    ensures others { IfOk result (λ shares. All (IsFreshShare book.now) shares.1.items) }
    ensures count { IfOk result (λ shares. vec_len shares.1 ≡ count) }
{
    let mut own = share;
    let mut others = Vec::new(alloc);
    for _ in 0..count {
        let (first, second) = split(book, own);
        own = first;
        others.push(drawn(rt, book, second)?)?;
    }
    Ok((own, others))
}

/// A new counter table for so many workers, with the shares, each of which has its row.
pub(crate) fn new_shares<R: Wait>(
    rt: &R,
    alloc: Global,
    workers: u64,
) -> Result<(Book, Shares), AllocError>
    requires { IsScanFit workers }
    ensures rows { IfOk result (λ made. made.0.rows ≡ workers + 1) }
    ensures own { IfOk result (λ made. IsFreshShare made.0 made.1.own) }
    ensures others { IfOk result (λ made. All (IsFreshShare made.0) made.1.others.items) }
    ensures count { IfOk result (λ made. vec_len made.1.others ≡ workers) }
{
    let (book, share) = Book::make(alloc, workers + 1)?;
    let (own, others) = split_shares(rt, alloc, &book, share, workers)?;
    let own = drawn(rt, &book, own)?;
    Ok((book, Shares { own, others }))
}
