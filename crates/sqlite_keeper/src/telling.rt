//! Whether a store of bytes tells what it holds.

use sqlite::{Alter, FileStore, MemStore};
use sqlite_disk::Disk;

/// A store of bytes below a database, which may tell what it holds. One in memory does; over a disk it doesn't, since another
/// program may write the file. Its laws are the premises of the clauses on a told database.
pub trait Telling: Alter {
    ghost use Rattle.std.specs.Prelude.{◌≡◌, Bool, true, IsTrue};
    ghost use Rattle.sqlite.specs.Held.{Held, state};
    ghost use Rattle.sqlite.specs.State.{HasCleanDisk};
    ghost use Rattle.sqlite_keeper.specs.Told.{IsNumbered, IsDatabaseTold};

    /// Whether it tells. It is a fact of the type.
    ghost tells: { Bool };

    /// One that tells takes no wrong answer as true.
    ghost clean: { tells ≡ true → (c : Held Self) → HasCleanDisk (state Self.Store c) };

    /// A database over one that tells is never shut.
    ghost opened: { tells ≡ true → (c : Held Self) → IsTrue (state Self.Store c).is_open };

    /// It numbers its rows.
    ghost numbered: { tells ≡ true → (c : Held Self) → IsDatabaseTold (state Self.Store c) →
        IsNumbered (state Self.Store c) };
}

impl Telling for MemStore {
    ghost use Rattle.std.specs.Prelude.{true};
    ghost use Rattle.std.proofs.Common.{inl, refl, subst};
    ghost use Rattle.sqlite.proofs.Callers.{memory_is_clean};
    ghost use Rattle.sqlite.specs.Schema.{Schema};
    ghost use Rattle.sqlite_catalog.proofs.LayoutLemmas.{objects_rise, table_shape};
    ghost use Rattle.sqlite_catalog.specs.Listing.{IsSound};
    ghost use Rattle.sqlite_trees.specs.Memory.{memory_is_listed, memory_is_ordered, memory_view};
    ghost use Rattle.sqlite_trees.specs.View.{IsShaped};
    ghost use Rattle.sqlite_trees.specs.declared.store.Shape.{Shape};
    ghost use Rattle.sqlite_keeper.specs.Schema.{rows_table};

    ghost tells = { true };

    ghost clean = { λ _ c. memory_is_clean c };

    ghost opened = { λ _ c. refl };

    ghost numbered = { λ _ c told.
        let sound = subst (λ (s : Schema). IsSound s (memory_view c.store).trees)
        told.schema.is told.sound in
        let rises = objects_rise (memory_view c.store) (memory_is_listed c.store)
        (memory_is_ordered c.store) in
        let shaped = table_shape (memory_is_listed c.store) rises.0 sound.lists.listed rows_table
        (inl refl) in
        subst (λ (s : Shape). IsShaped s ((memory_view c.store).trees 0)) shaped.0
        (memory_is_ordered c.store 0) };
}

impl<D: Disk> Telling for FileStore<D> {
    ghost use Rattle.std.specs.Prelude.{false};
    ghost use Rattle.std.proofs.lemmas.Bool.{false≢true};

    ghost tells = { false };

    ghost clean = { λ e. absurd (false≢true e) };

    ghost opened = { λ e. absurd (false≢true e) };

    ghost numbered = { λ e. absurd (false≢true e) };
}
