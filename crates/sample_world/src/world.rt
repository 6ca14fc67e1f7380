//! The sample world.

use elf_reading::ElfTruth;
use row_types::Truth;

/// The told world in which the samples are the files, and no other file has a content. A row is
/// true where it says what such a file is found to be, or that a file is too large.
#[derive(Clone, Copy)]
pub struct SampleWorld;

impl Truth for SampleWorld {
    ghost use Rattle.std.specs.Prelude.{true};
    ghost use Rattle.std.proofs.lemmas.Bool.{true≢false};
    ghost use Rattle.row_types.specs.Reading.{IsTrueRow};
    ghost use Rattle.row_types.proofs.TrueRowLemmas.{too_large_is_true};
    ghost use Rattle.sample_world.specs.Samples.{IsSample};
    ghost use Rattle.sample_world.specs.World.{one_content, one_sample_row, sample_sized};

    ghost told = { true };

    ghost version = { IsSample };

    ghost true_row = { IsTrueRow IsSample };

    ghost too_large = { too_large_is_true IsSample };

    ghost one_content = { λ _. one_content };

    ghost sized = { λ _. sample_sized };

    ghost any_content = { λ e. absurd (true≢false e) };

    ghost one_row = { λ _. one_sample_row };

    ghost of_edition = { λ _ h. h.edition };
}

impl ElfTruth for SampleWorld {
    ghost read_rows = { λ _ h. h };

    ghost only_read = { λ _ _ h. h };
}
