//! The reader of ELF files.

ghost use Rattle.std.specs.Prelude.{◌≡◌, ◌≤◌, ◌<◌, IfOk};
ghost use Rattle.row_types.specs.Reading.{IsVersionRead};
ghost use Rattle.row_types.specs.Row.{too_large_row};
ghost use Rattle.tree_trait.specs.Found.{found_name};
ghost use Rattle.tree_trait.specs.Reader.{IsRowOf};

use crate::elf_truth::ElfTruth;
use crate::reading::reading_of;
use crate::view::read_view;
use row_types::{EDITION, FILE_LIMIT, Name, READ_LIMIT, Reading, Row, TrueRow, Truth};
use std::alloc::{AllocError, Global};
use tree_trait::{Found, Opened, Reader, ViewAnswer};

/// Makes the row of a file by its identity and the source paths that its DWARF names.
#[derive(Clone, Copy)]
pub struct ElfReader;

impl<W: ElfTruth> Reader<W> for ElfReader {
    #[tactic(auto, using(crate::proofs::ReadLemmas::large_is_read))]
    fn read(&self, alloc: Global, name: Name, found: &Found<W>) -> Result<TrueRow<W>, AllocError> {
        if name.stamp.size > FILE_LIMIT {
            return Ok(large_row(name));
        }
        if name.stamp.size > READ_LIMIT {
            return Err(AllocError);
        }
        small_row(alloc, name, found)
    }

    fn read_view<F: Drop>(
        &self,
        alloc: Global,
        name: Name,
        opened: &Opened<W, F>,
        from: u64,
    ) -> ViewAnswer<W> {
        read_view(alloc, name, opened.picture(), from)
    }
}

/// The row of a file above [`FILE_LIMIT`], whatever its bytes. No memory is taken.
pub fn large_row<W: Truth>(name: Name) -> TrueRow<W>
    requires { FILE_LIMIT < name.stamp.size }
    ensures { result ≡ too_large_row name }
{
    match TrueRow::too_large(name) {
        Ok(row) => row,
        Err(_) => unreachable!(),
    }
}

/// The row of a file of at most [`READ_LIMIT`] bytes that was found under its name.
#[tactic(auto, using(crate::proofs::ReadLemmas::rows_read))]
fn small_row<W: ElfTruth>(
    alloc: Global,
    name: Name,
    found: &Found<W>,
) -> Result<TrueRow<W>, AllocError>
    requires found { found_name found.now ≡ name }
    requires small { name.stamp.size ≤ READ_LIMIT }
    ensures { IfOk result (IsRowOf name found.now.bytes) }
{
    // For its clause: these are the bytes of the file's version.
    found.is_version();
    let reading = reading_of(alloc, found.bytes.as_slice())?;
    Ok(row_of(name, reading))
}

/// The row of a file of at most [`FILE_LIMIT`] bytes, some version of which is found to be this. No memory is taken.
#[tactic(auto, using(crate::proofs::ReadLemmas::read_is_true))]
pub(crate) fn row_of<W: ElfTruth>(name: Name, reading: Reading) -> TrueRow<W>
    requires read { IsVersionRead W.version name reading }
    requires small { name.stamp.size ≤ FILE_LIMIT }
    ensures { result ≡ record { name = name; edition = EDITION; reading = reading } }
{
    TrueRow::new(Row::new(name, EDITION, reading))
}
