//! Worlds in which a row says what a file is read as.

ghost use Rattle.std.specs.Prelude.{◌≡◌, true};
ghost use Rattle.row_types.specs.Reading.{IsTrueRow};
ghost use Rattle.row_types.specs.Row.{RowFacts};

use row_types::{OpenWorld, Truth};
use tree_trait::TwoWorld;

/// A world whose true rows are those of the reader of ELF files. It has no calls.
pub trait ElfTruth: Truth {
    /// A row of the edition is true where its reading is that of a version of its name.
    ghost read_rows: { (row : RowFacts) → IsTrueRow Self.version row → Self.true_row row };

    /// In a told world no other row is true, but for the rows of files above FILE_LIMIT.
    ghost only_read: { Self.told ≡ true → (row : RowFacts) → Self.true_row row
        → IsTrueRow Self.version row };
}

impl ElfTruth for OpenWorld {
    ghost use Rattle.std.proofs.lemmas.Bool.{false≢true};

    ghost read_rows = { λ _ h. h.edition };

    ghost only_read = { λ e. absurd (false≢true e) };
}

impl ElfTruth for TwoWorld {
    ghost read_rows = { λ _ h. h };

    ghost only_read = { λ _ _ h. h };
}
