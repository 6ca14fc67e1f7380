//! Rows that say what the files of a world are.

ghost use Rattle.std.specs.Prelude.{◌≡◌, ◌≤◌, ◌↔◌, IsErr, IfOk, IfErr};
ghost use Rattle.row_types.specs.Limits.{ArePinnedRowLimits};
ghost use Rattle.row_types.specs.Row.{too_large_row};

use crate::limits::{EDITION, FILE_LIMIT};
use crate::name::Name;
use crate::reading::Reading;
use crate::row::Row;
use crate::world::Truth;
use file_formats::Why;
use std::alloc::{AllocError, Global};
use std::marker::{Model, PhantomData};

/// A row that is true in the world `W`. Contracts see it as the row.
#[derive(Drop)]
pub struct TrueRow<W: Truth> {
    row: Row,
    of: PhantomData<W>,
}

impl<W: Truth> Model for TrueRow<W> {
    ghost use Rattle.row_types.specs.Row.{RowFacts};

    ghost Value = { RowFacts };

    ghost view = { λ t. t.row };

    ghost invariant = { λ t. W.true_row t.row };
}

impl<W: Truth> TrueRow<W> {
    /// The row, which is true.
    pub fn new(row: Row) -> TrueRow<W>
        requires { W.true_row row }
        ensures { result ≡ row }
    {
        TrueRow {
            row,
            of: PhantomData,
        }
    }

    /// The row of a file that is larger than a file that is read, or the name back. No memory is taken.
    pub fn too_large(name: Name) -> Result<TrueRow<W>, Name>
        ensures refused { IsErr result ↔ (name.stamp.size ≤ FILE_LIMIT) }
        ensures value { IfOk result (λ row. row ≡ too_large_row name) }
        ensures back { IfErr result (λ given. given ≡ name) }
        ensures limits { ArePinnedRowLimits }
    {
        if name.stamp.size <= FILE_LIMIT {
            return Err(name);
        }
        Ok(TrueRow::new(Row {
            name,
            edition: EDITION,
            reading: Reading::Plain(Why::TooLarge),
        }))
    }

    /// The row.
    pub fn row(&self) -> &Row
        ensures value { result.now ≡ self.now }
        ensures holds { W.true_row self.now }
    {
        &self.row
    }

    /// The row, given back. No memory is taken.
    pub fn into_row(self) -> Row
        ensures value { result ≡ self }
        ensures holds { W.true_row self }
    {
        let TrueRow { row, of: _ } = self;
        row
    }

    /// A copy.
    pub fn copy(&self, alloc: Global) -> Result<TrueRow<W>, AllocError>
        ensures { IfOk result (λ row. row ≡ self.now) }
    {
        Ok(TrueRow {
            row: self.row.copy(alloc)?,
            of: PhantomData,
        })
    }
}
