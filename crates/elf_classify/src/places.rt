//! Where the sections stand that a file's debug information stands in.

ghost use Rattle.file_picture.specs.Picture.{IsPicture};
ghost use Rattle.elf_classify.specs.DebugViews.{AreDebugPlaces, AreNamePlaces, IsNamePlace, KnowsIdentity};

use crate::named::first_named;
use elf_file::ElfView;
use file_formats::ET_REL;
use file_picture::{Need, Picture, View};

/// A range of no bytes.
const NOWHERE: Need = Need { at: 0, len: 0 };

/// Where the section of a name stands; no bytes where it isn't handed out.
fn place(file: &ElfView<'_>, name: &[u8]) -> Need
    ensures { IsNamePlace file.now name.now result }
{
    // For its clause: what is known of each file whose table can be read.
    file.knows();
    match first_named(file, name) {
        Some(at) => at,
        None => NOWHERE,
    }
}

/// Where the six sections stand.
fn places_in(file: &ElfView<'_>) -> [Need; 6]
    ensures { AreNamePlaces file.now result }
{
    [
        place(file, b".debug_info"),
        place(file, b".debug_abbrev"),
        place(file, b".debug_line"),
        place(file, b".debug_str"),
        place(file, b".debug_line_str"),
        place(file, b".debug_str_offsets"),
    ]
}

/// Where the debug sections stand of each file that agrees with a picture whose identity is known,
/// whether they are there or not: all at once, without memory. A section that isn't handed out has a
/// range of no bytes, as has each of a file that the linker has still to put together.
pub fn debug_places(picture: &Picture) -> [Need; 6]
    requires { KnowsIdentity picture.now }
    ensures { AreDebugPlaces picture.now result }
{
    // For its clause: the pieces of a picture neither overlap nor touch.
    let _size = picture.size();
    match ElfView::open(View::part(picture)) {
        Ok(file) => {
            if file.kind() == ET_REL {
                [NOWHERE; 6]
            } else {
                places_in(&file)
            }
        }
        Err(_) => unreachable!(),
    }
}
