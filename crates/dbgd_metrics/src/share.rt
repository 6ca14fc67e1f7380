//! What one thread counts with.
use crate::number::{NUMBERS, Number};
use crate::view::Token;
use std::marker::Model;

/// A seat of the counter table. Contracts see the table, the row if it has drawn one, its numbers,
/// its mark, the loads that it has noted, and how many rows it knows to be drawn.
pub struct Share {
    pub(crate) token: Token,
    pub(crate) row: Option<u64>,
    pub(crate) marked: bool,
}

/// What a split gives.
#[derive(Drop)]
pub enum ShareSplit {
    /// Two shares without a row.
    Two(Share, Share),
    /// The share comes back, where there was no memory. A split takes none today.
    OutOfMemory(Share),
}

/// What a draw gives.
#[derive(Drop)]
pub enum Drawn {
    /// The share has a row.
    Drawn(Share),
    /// Every row was drawn, and the share comes back without one.
    Full(Share),
}

impl Model for Share {
    ghost use Rattle.dbgd_metrics.specs.Seats.{HasSeat, share_with};
    ghost use Rattle.dbgd_metrics.specs.Shares.{ShareFacts};

    ghost Value = { ShareFacts };

    ghost view = { λ share. share_with share.token share.marked };

    ghost invariant = { λ share. HasSeat share.token share.row share.marked };
}

impl Share {
    ghost use Rattle.std.specs.Prelude.{◌≡◌, ◌<◌, IsSome, IfSome};
    ghost use Rattle.dbgd_metrics.specs.Numbers.{number_place};
    ghost use Rattle.dbgd_metrics.specs.Rule.{word_at};
    ghost use Rattle.dbgd_metrics.specs.Seats.{IsSeatOf};

    /// Whether a count was ever refused.
    pub fn is_marked(&self) -> bool
        ensures { result ≡ self.now.marked }
    {
        self.marked
    }

    /// The word of a number in the share's row.
    pub(crate) fn word(&self, number: Number) -> usize
        requires { IsSome self.now.row }
        ensures value { IfSome self.now.row (λ row. result ≡ word_at row (number_place number)) }
        ensures there { result < self.now.book.words }
    {
        match self.row {
            Some(row) => (1 + NUMBERS * row + number.place()) as usize,
            None => unreachable!(),
        }
    }

    /// The share's seat.
    pub(crate) fn into_token(self) -> Token
        ensures { IsSeatOf self result }
    {
        let Self {
            token,
            row: _,
            marked: _,
        } = self;
        token
    }
}

impl Drop for Share {
    fn drop(self) {
        let Self {
            token: _,
            row: _,
            marked: _,
        } = self;
    }
}
