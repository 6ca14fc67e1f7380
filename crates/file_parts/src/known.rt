//! What a picture says where all is there that an answer rests on. A sound picture has a file that
//! agrees with it, so nothing is needed then.

ghost use Rattle.std.specs.Prelude.{◌⊎◌, ◌≤◌, IfOk, Ok};
ghost use Rattle.std.specs.Option.{option_copied};
ghost use Rattle.file_formats.specs.Identity.{Identity};
ghost use Rattle.file_formats.specs.Parts.{IsSomePart, IsSomeSection};
ghost use Rattle.file_picture.specs.Picture.{sum_of};
ghost use Rattle.row_types.specs.declared.limits.TheConstants.{READ_LIMIT};
ghost use Rattle.file_formats.specs.Windows.{IsSomeWindow};
ghost use Rattle.elf_classify.specs.Views.{IsIdentityOfEach};
ghost use Rattle.file_parts.specs.Found.{AreWide, HasIdentity, IsBare, ReadsIdentityOfEach, ReadsSourcesOfEach};
ghost use Rattle.file_parts.specs.Wholes.{IsSectionOfEach, IsThereWhole};

use elf_classify::{IdentView, PartsView, SectionView, ident_view, parts_view, section_view};
use elf_reading::sources_of;
use file_picture::Picture;
use row_types::{Ident, Sources, Why};
use std::alloc::{AllocError, Global};

/// The identity of each file that agrees with a picture, or the first reason why it has none.
pub fn identity_known(picture: &Picture) -> Result<Ident, Why>
    requires { IsThereWhole IsSomeWindow picture.now }
    ensures { IsIdentityOfEach picture.now result }
{
    // For its clause: the pieces of a picture neither overlap nor touch.
    let _size = picture.size();
    match ident_view(picture) {
        IdentView::Ident(ident) => Ok(ident),
        IdentView::Plain(why) => Err(why),
        IdentView::Need { .. } => unreachable!(),
    }
}

/// The section of a name in each file that agrees with a picture.
pub fn section_known<'a>(picture: &'a Picture, name: &[u8]) -> Option<&'a [u8]>
    requires { IsThereWhole (IsSomeSection name.now) picture.now }
    ensures { IsSectionOfEach name.now picture.now (option_copied result) }
{
    // For its clause: the pieces of a picture neither overlap nor touch.
    let _size = picture.size();
    match section_view(picture, name) {
        SectionView::Section(found) => found,
        SectionView::Need { .. } => unreachable!(),
    }
}

/// The identity that the reading gives of each file that agrees with a picture, or the first reason why
/// it gives none. It takes no memory.
pub fn identity_found(picture: &Picture) -> Result<Ident, Why>
    requires decides { IsThereWhole IsSomeWindow picture.now ⊎ AreWide picture.now }
    requires small { sum_of picture.now.pieces ≤ READ_LIMIT }
    ensures { ReadsIdentityOfEach picture.now result }
{
    // For its clause: the pieces of a picture neither overlap nor touch.
    let _size = picture.size();
    match ident_view(picture) {
        IdentView::Ident(ident) => Ok(ident),
        IdentView::Plain(why) => Err(why),
        IdentView::Need { .. } => Err(Why::TooLarge),
    }
}

/// The section of a name in each file that agrees with a picture, whose reading has an identity.
pub fn section_found<'a>(picture: &'a Picture, name: &[u8]) -> Option<&'a [u8]>
    requires decides { IsThereWhole (IsSomeSection name.now) picture.now ⊎ AreWide picture.now }
    requires known { HasIdentity picture.now }
    ensures { IsSectionOfEach name.now picture.now (option_copied result) }
{
    // For its clause: the pieces of a picture neither overlap nor touch.
    let _size = picture.size();
    section_known(picture, name)
}

/// The source paths that the reading gives of each file that agrees with a picture, where it gives an
/// identity.
pub fn sources_found(alloc: Global, picture: &Picture) -> Result<Sources, AllocError>
    requires decides { IsThereWhole IsSomePart picture.now ⊎ AreWide picture.now ⊎ IsBare picture.now }
    requires small { sum_of picture.now.pieces ≤ READ_LIMIT }
    requires known { HasIdentity picture.now }
    ensures { IfOk result (λ paths. (identity : Identity) → ReadsIdentityOfEach picture.now (Ok identity)
        → ReadsSourcesOfEach picture.now identity paths) }
{
    // For its clause: the pieces of a picture neither overlap nor touch.
    let _size = picture.size();
    match parts_view(picture) {
        PartsView::Parts(parts) => sources_of(alloc, parts),
        PartsView::Need { .. } => Ok(Sources::new(alloc)),
    }
}
