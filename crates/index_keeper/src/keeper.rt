//! The trait that stands for an open store.

ghost use Rattle.std.specs.Prelude.{◌≡◌, Bool, IfSome};
ghost use Rattle.index_keeper.specs.Answers.{for_change, for_rows, rows_given};
ghost use Rattle.index_keeper.specs.Keeper.{AreRowsKept, AsksKeeper, ShownKeeper};
ghost use Rattle.index_keeper.specs.Tables.{put_bytes, removal_of};
ghost use Rattle.index_keeper.specs.TrueRows.{SpellsTrueRow};

use crate::answer::{KeepAnswer, KeptAnswer};
use row_types::Truth;
use std::alloc::Global;

/// An open store of rows of a world: a database, or a form in memory. Each object counts its own
/// faults.
pub trait Keeper<W: Truth>: Send + Drop {
    /// Whether the keeper tells its tables. It is a fact of the type.
    ghost told: { Bool };

    /// What it shows at a moment. The count of faults is that since the opening; it never falls,
    /// and stands still at 2^64 - 1. The changes may be told where the tables aren't.
    ghost shows: { Self → ShownKeeper };

    /// All rows of the tables, by path.
    fn rows(&mut self, alloc: Global) -> KeptAnswer
        ensures asks { AsksKeeper told (shows self.old) (shows self.new) (for_rows result) }
        ensures rows { IfSome (rows_given result) (AreRowsKept W.true_row) };

    /// Keeps the bytes under the path, in place of those that were kept there.
    fn put(&mut self, alloc: Global, path: &str, bytes: &[u8]) -> KeepAnswer
        requires { SpellsTrueRow W.true_row path.now bytes.now }
        ensures { AsksKeeper told (shows self.old) (shows self.new)
            (for_change (put_bytes path.now bytes.now) result) };

    /// Keeps nothing under the path. It is done too where nothing was kept there.
    fn remove(&mut self, alloc: Global, path: &str) -> KeepAnswer
        ensures { AsksKeeper told (shows self.old) (shows self.new)
            (for_change (removal_of path.now) result) };

    /// The number of the opening, which is greater than that of each earlier opening of the store.
    fn epoch(&self) -> u64
        ensures { result ≡ (shows self.now).epoch };
}
