//! Stamps of rows.

ghost use Rattle.std.specs.Prelude.{◌≡◌};
ghost use Rattle.index_rows.specs.Rows.{row_names};
ghost use Rattle.row_types.specs.Name.{stamp_at};
ghost use Rattle.scan_queue.specs.Names.{IsByPath};
ghost use Rattle.index_state.specs.Plan.{has_stamp};

use index_rows::Rows;
use row_types::{CanonPath, Stamp, Truth};

/// The stamp of the path's row.
pub(crate) fn row_stamp<W: Truth>(rows: &Rows<W>, path: &CanonPath) -> Option<Stamp>
    ensures value { result ≡ stamp_at (row_names rows.now.rows) path.now }
    ensures by_path { IsByPath (row_names rows.now.rows) }
{
    match rows.get(path) {
        Some(row) => Some(row.name.stamp),
        None => None,
    }
}

/// Whether there is a stamp, and it is this one.
pub(crate) fn has_stamp(found: &Option<Stamp>, stamp: Stamp) -> bool
    ensures { result ≡ has_stamp found.now stamp }
{
    match found {
        Some(other) => stamp == *other,
        None => false,
    }
}
