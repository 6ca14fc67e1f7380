//! The totals over all rows, and the page.
ghost use Rattle.std.specs.Prelude.{◌≡◌, ◌<◌, List, IsSome, IfOk};
ghost use Rattle.std.specs.String.{string_bytes};
ghost use Rattle.dbgd_metrics.specs.Columns.{AddUp, AddsUp};
ghost use Rattle.dbgd_metrics.specs.Numbers.{count_of_numbers};
ghost use Rattle.dbgd_metrics.specs.Rule.{Looked};
ghost use Rattle.dbgd_metrics.specs.Totals.{IsPage, OnlyNotes};
ghost use Rattle.dbgd_metrics.specs.declared.view.Load.{Load};

use crate::book::Book;
use crate::number::NUMBERS;
use crate::page::page;
use crate::plays::Notices;
use crate::share::Share;
use crate::view::Token;
use std::alloc::{AllocError, Global};

impl Book {
    // The sum of one number over all rows.
    fn total(&self, token: &mut Token, place: u64) -> u128
        requires table { token.old.table_id ≡ self.now.id }
        requires place { place < count_of_numbers }
        ensures { AddsUp self.now.rows place token.old token.new result }
    {
        let mut total = 0;
        for row in 0..self.rows {
            let word = (1 + NUMBERS * row + place) as usize;
            total += u128::from(self.table.shared.load::<Notices>(token, word));
        }
        total
    }

    // The sum of each number over all rows.
    fn totals(&self, alloc: Global, token: &mut Token) -> Result<Vec<u128>, AllocError>
        requires { token.old.table_id ≡ self.now.id }
        ensures totals { IfOk result (λ totals.
            AddUp self.now.rows count_of_numbers token.old token.new totals.items) }
        ensures same { (more : List Load) × Looked token.old token.new more }
    {
        let mut totals = Vec::new(alloc);
        for place in 0..NUMBERS {
            totals.push(self.total(token, place))?;
        }
        Ok(totals)
    }

    /// The page of the totals. Each word is loaded once, at a moment within this call; the numbers
    /// of other shares may grow in between.
    pub fn text(&self, alloc: Global, share: &mut Share) -> Result<String, AllocError>
        requires book { share.old.book ≡ self.now.id }
        requires row { IsSome share.old.row }
        ensures page { IfOk result (λ text. IsPage self.now.rows share.old share.new (string_bytes text)) }
        ensures same { OnlyNotes share.old share.new }
    {
        // The check knows how many words the table has only where the table is looked at.
        let _ = &self.table;
        let totals = self.totals(alloc, &mut share.token)?;
        page(alloc, totals.as_slice())
    }
}
