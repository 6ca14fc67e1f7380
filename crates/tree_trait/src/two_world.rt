//! A told world of one path with two versions.

use row_types::Truth;

/// The world in which `/w/a` is `x` at one time and `yy` at another, and no other file has a
/// content.
#[derive(Clone, Copy)]
pub struct TwoWorld;

impl Truth for TwoWorld {
    ghost use Rattle.std.specs.Prelude.{true};
    ghost use Rattle.std.proofs.lemmas.Bool.{true≢false};
    ghost use Rattle.row_types.specs.Reading.{IsTrueRow};
    ghost use Rattle.row_types.proofs.TrueRowLemmas.{too_large_is_true};
    ghost use Rattle.tree_trait.specs.TwoWorld.{IsEither, either_is_one, either_is_sized, one_of_two_rows};

    ghost told = { true };

    ghost version = { IsEither };

    ghost true_row = { IsTrueRow IsEither };

    ghost too_large = { too_large_is_true IsEither };

    ghost one_content = { either_is_one };

    ghost sized = { either_is_sized };

    ghost any_content = { λ e. absurd (true≢false e) };

    ghost one_row = { one_of_two_rows };

    ghost of_edition = { λ _ h. h.edition };
}
