//! Pictures that are certified for a build-id and a class.

ghost use Rattle.std.specs.Prelude.{◌≡◌, IfErr, IfOk};
ghost use Rattle.file_formats.specs.Windows.{IsSomeWindow};
ghost use Rattle.file_picture.specs.Agrees.{IsOfEach};
ghost use Rattle.answer_check.specs.Certified.{IsCertified};
ghost use Rattle.answer_check.specs.Checked.{FaultsView, IsCheckedPicture, checked};

use crate::view::{ViewFault, view_fault};
use file_picture::Picture;
use row_types::{BuildId, Kind};
use std::marker::Model;

/// A picture of a file, such that each file that agrees with it has the kept build-id and class.
/// Contracts see it as a record of the class, the id's bytes and the picture.
#[derive(Drop)]
pub struct Checked {
    kind: Kind,
    id: BuildId,
    picture: Picture,
}

impl Model for Checked {
    ghost use Rattle.answer_check.specs.Checked.{CheckedFacts, IsCheckedPicture, checked};

    ghost Value = { CheckedFacts };

    ghost view = { λ c. checked c.kind c.id c.picture };

    ghost invariant = { λ c. IsCheckedPicture c.kind c.id c.picture };
}

/// Certifies that each file that agrees with this picture is of this class and build-id, or hands the
/// picture back with a range that is needed, or with the first reason why none of them is. It takes
/// no memory.
pub fn check_view(
    kind: Kind,
    id: &BuildId,
    picture: Picture,
) -> Result<Checked, (ViewFault, Picture)>
    ensures ok { IfOk result (λ c. c ≡ checked kind id.now picture) }
    ensures certified { IfOk result (λ _. IsOfEach IsSomeWindow (IsCertified kind id.now) picture) }
    ensures fault { IfErr result (λ e. FaultsView kind id.now picture e.0) }
    ensures same { IfErr result (λ e. e.1 ≡ picture) }
{
    // For its clause: the pieces of a picture neither overlap nor touch.
    let _size = picture.size();
    match view_fault(kind, id, &picture) {
        Some(fault) => Err((fault, picture)),
        None => Ok(Checked {
            kind,
            id: *id,
            picture,
        }),
    }
}

impl Checked {
    /// The class that the file is certified for.
    pub fn kind(&self) -> Kind
        ensures { result ≡ self.now.kind }
    {
        self.kind
    }

    /// The build-id that the file is certified for.
    pub fn id(&self) -> &BuildId
        ensures { result.now ≡ self.now.id }
    {
        &self.id
    }

    /// The picture.
    pub fn picture(&self) -> &Picture
        ensures value { result.now ≡ self.now.picture }
        ensures checked { IsCheckedPicture self.now.kind self.now.id result.now }
    {
        &self.picture
    }

    /// The picture, to be filled further.
    pub fn into_picture(self) -> Picture
        ensures { result ≡ self.picture }
    {
        let Checked {
            kind: _,
            id: _,
            picture,
        } = self;
        picture
    }
}
