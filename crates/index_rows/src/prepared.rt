//! What room was made for.

ghost use Rattle.std.specs.Prelude.{◌≡◌, ◌≢◌, ◌∷◌, []};
ghost use Rattle.index_rows.specs.Rows.{void_of};

use crate::change::Change;
use row_types::{Name, Row};

/// The change that room was made for last, until it is made.
#[derive(Drop)]
pub enum Prepared {
    /// None, or it was made.
    Nothing,
    /// A put of an equal row.
    Put(Row),
    /// A drop of the row of this name.
    Drop(Name),
}

/// The row's name.
pub(crate) fn into_name(row: Row) -> Name
    ensures { result ≡ row.name }
{
    let Row {
        name,
        edition: _,
        reading: _,
    } = row;
    name
}

/// The change without effect that stands for the prepared one.
pub(crate) fn void_change(prepared: Prepared) -> Change
    requires { prepared ≢ Prepared.Nothing }
    ensures { void_of prepared ≡ result ∷ [] }
{
    match prepared {
        Prepared::Put(row) => Change {
            put: false,
            name: into_name(row),
        },
        Prepared::Drop(name) => Change { put: true, name },
        Prepared::Nothing => unreachable!(),
    }
}
