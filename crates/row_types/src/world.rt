//! Worlds: what a path and a stamp name.

ghost use Rattle.std.specs.Prelude.{◌≡◌, ℕ, ◌<◌, List, Bool, true, false, length};
ghost use Rattle.row_types.specs.Name.{NameFacts};
ghost use Rattle.row_types.specs.Row.{RowFacts, too_large_row};
ghost use Rattle.row_types.specs.Stamp.{StampFacts};
ghost use Rattle.row_types.specs.declared.limits.TheConstants.{EDITION, FILE_LIMIT};

/// What the files of a world are. Nothing of a world is code: only contracts speak of it.
pub trait Truth {
    /// Whether it is told what the files are. A world that isn't told claims nothing of them.
    ghost told: { Bool };

    /// The file at this path with this stamp may have these bytes.
    ghost version: { List ℕ → StampFacts → List ℕ → Type 0 };

    /// The row says what the file of its name is.
    ghost true_row: { RowFacts → Type 0 };

    /// A file that is larger than a file that is read is found to be that, whatever its bytes.
    ghost too_large: { (name : NameFacts) → FILE_LIMIT < name.stamp.size → true_row (too_large_row name) };

    /// In a told world a path and a stamp name at most one content.
    ghost one_content: { told ≡ true → (path : List ℕ) (stamp : StampFacts) (a b : List ℕ) → version path stamp a → version path stamp b → a ≡ b };

    /// In a told world a content has as many bytes as its stamp says.
    ghost sized: { told ≡ true → (path : List ℕ) (stamp : StampFacts) (b : List ℕ) → version path stamp b → length b ≡ stamp.size };

    /// In a world that isn't told each list of as many bytes as a stamp says is a content of it.
    ghost any_content: { told ≡ false → (path : List ℕ) (stamp : StampFacts) (b : List ℕ) → length b ≡ stamp.size → version path stamp b };

    /// In a told world a name has at most one true row.
    ghost one_row: { told ≡ true → (a b : RowFacts) → a.name ≡ b.name → true_row a → true_row b → a ≡ b };

    /// A true row is of the edition whose rows this program makes. So an index holds rows of the edition alone, and what it takes
    /// is any row that is true.
    ghost of_edition: { (row : RowFacts) → true_row row → row.edition ≡ EDITION };
}

/// The world of real files, which isn't told: each content is one of each name, and each row of the edition
/// is true.
#[derive(Clone, Copy)]
pub struct OpenWorld;

impl Truth for OpenWorld {
    ghost use Rattle.std.specs.Prelude.{◌≡◌, false, refl};
    ghost use Rattle.std.proofs.lemmas.Bool.{false≢true};
    ghost use Rattle.row_types.specs.declared.limits.TheConstants.{EDITION};

    ghost told = { false };

    ghost version = { λ _ _ _. Unit {0} };

    ghost true_row = { λ row. row.edition ≡ EDITION };

    ghost too_large = { λ _ _. refl };

    ghost one_content = { λ e. absurd (false≢true e) };

    ghost sized = { λ e. absurd (false≢true e) };

    ghost any_content = { λ _ _ _ _ _. tt };

    ghost one_row = { λ e. absurd (false≢true e) };

    ghost of_edition = { λ _ h. h };
}
