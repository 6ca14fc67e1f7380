//! What is kept of a file.

ghost use Rattle.std.specs.Prelude.{◌≡◌, ◌≤◌, IfOk};

use crate::name::Name;
use crate::reading::Reading;
use std::alloc::{AllocError, Global};
use std::marker::Model;

/// What a file was found to be, by the rules of an edition. Contracts see it as a record of the three.
#[derive(Drop)]
pub struct Row {
    /// Which file it is.
    pub name: Name,
    /// The edition of the rules, at least 1.
    pub edition: u8,
    /// What it was found to be.
    pub reading: Reading,
}

impl Model for Row {
    ghost use Rattle.std.specs.Prelude.{◌≤◌};
    ghost use Rattle.row_types.specs.Row.{RowFacts};

    ghost Value = { RowFacts };

    ghost view = { λ r. record { name = r.name; edition = r.edition; reading = r.reading } };

    ghost invariant = { λ r. 1 ≤ r.edition };
}

impl Row {
    /// The row of these parts.
    pub fn new(name: Name, edition: u8, reading: Reading) -> Row
        requires { 1 ≤ edition }
        ensures { result ≡ record { name = name; edition = edition; reading = reading } }
    {
        Row {
            name,
            edition,
            reading,
        }
    }

    /// A copy.
    pub fn copy(&self, alloc: Global) -> Result<Row, AllocError>
        ensures { IfOk result (λ row. row ≡ self.now) }
    {
        Ok(Row {
            name: self.name.copy(alloc)?,
            edition: self.edition,
            reading: self.reading.copy(alloc)?,
        })
    }
}
