//! The counter table: how it is made, and how shares come by their rows.
ghost use Rattle.std.specs.Prelude.{◌≡◌, ◌<◌, ◌≤◌, ◌*◌, ◌+◌, length, replicate, None, IfOk, MatchOption};
ghost use Rattle.dbgd_metrics.specs.declared.book.TheConstants.{MOST_ROWS};
ghost use Rattle.dbgd_metrics.specs.declared.number.TheConstants.{NUMBERS};
ghost use Rattle.dbgd_metrics.specs.Numbers.{count_of_numbers, most_rows};
ghost use Rattle.dbgd_metrics.specs.Draws.{Draws, DrawsApart, GetsRow, SeesNone};
ghost use Rattle.dbgd_metrics.specs.Shares.{IsNewShare};
ghost use Rattle.dbgd_metrics.specs.Splits.{SplitsShare};

use crate::number::NUMBERS;
use crate::plays::{Blank, Notices, TakesNext};
use crate::share::{Drawn, Share, ShareSplit};
use crate::view::{BookTable, Token};
use atomic_table::Table;
use std::alloc::{AllocError, Global};
use std::marker::Model;
use std::sync::Wait;

/// The most rows of a table.
pub const MOST_ROWS: u64 = 65;

/// A table of counters. Contracts see which table it is, and how many rows it has.
#[derive(Drop)]
pub struct Book {
    pub(crate) table: BookTable,
    pub(crate) rows: u64,
}

impl Model for Book {
    ghost use Rattle.std.specs.Prelude.{◌≡◌, ◌+◌, ◌*◌, ◌≤◌};
    ghost use Rattle.dbgd_metrics.specs.Numbers.{most_rows};
    ghost use Rattle.dbgd_metrics.specs.Rule.{word_at};
    ghost use Rattle.dbgd_metrics.specs.Shares.{BookFacts};

    ghost Value = { BookFacts };

    ghost view = { λ book. record { id = book.table.shared.table_id; rows = book.rows } };

    ghost invariant = { λ book. (book.table.shared.table_id.words ≡ word_at book.rows 0)
        × (book.table.shared.key ≡ book.rows) × (book.rows ≤ most_rows) };
}

impl Book {
    /// A table of so many rows of zeros, with a first share.
    pub fn make(alloc: Global, rows: u64) -> Result<(Book, Share), AllocError>
        requires { (1 ≤ rows) × (rows ≤ MOST_ROWS) }
        ensures rows { IfOk result (λ made. made.0.rows ≡ rows) }
        ensures share { IfOk result (λ made. IsNewShare made.0.id made.1) }
        ensures numbers { (NUMBERS ≡ count_of_numbers) × (MOST_ROWS ≡ most_rows) }
    {
        let words = vec![in alloc; 0; (1 + NUMBERS * rows) as usize]?;
        let (table, token) = Table::of_words(alloc, words.as_slice(), &rows)?;
        let share = Share {
            token,
            row: None,
            marked: false,
        };
        Ok((Book { table, rows }, share))
    }

    /// Makes a second share, which has no row. Of a share with a row it is one that draws a row behind it.
    pub fn split(&self, mut share: Share) -> ShareSplit
        requires book { share.book ≡ self.now.id }
        ensures { SplitsShare share result }
    {
        let token = self.table.shared.split_seat::<Blank>(&mut share.token);
        let other = Share {
            token,
            row: None,
            marked: false,
        };
        ShareSplit::Two(share, other)
    }

    /// Gives a share the next row that no other has, if there is one left.
    #[tactic(auto, using(crate::proofs::Apart::draws_apart))]
    pub fn draw<R: Wait>(&self, rt: &R, mut share: Share) -> Drawn
        requires book { share.book ≡ self.now.id }
        requires no_row { share.row ≡ None }
        ensures draws { Draws self.now.rows share result }
        ensures apart { DrawsApart }
    {
        match self.draw_row(rt, &mut share.token) {
            Some(row) => {
                share.row = Some(row);
                Drawn::Drawn(share)
            }
            None => Drawn::Full(share),
        }
    }

    // The first row that is left, which is then the seat's, if there is one.
    fn draw_row<R: Wait>(&self, rt: &R, token: &mut Token) -> Option<u64>
        requires table { token.old.table_id ≡ self.now.id }
        requires no_row { token.old.me.0.row ≡ None }
        ensures { MatchOption result (SeesNone self.now.rows token.old token.new)
            (GetsRow self.now.rows token.old token.new) }
    {
        let shared = &self.table.shared;
        for _ in rt.forever() {
            let drawn = shared.load::<Notices>(token, 0);
            if drawn >= self.rows {
                return None;
            }
            if shared.compare_exchange::<TakesNext>(token, 0, drawn, drawn + 1) == drawn {
                return Some(drawn);
            }
        }
        unreachable!()
    }
}
