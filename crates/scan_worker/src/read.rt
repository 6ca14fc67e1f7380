//! One listed file.

ghost use Rattle.std.specs.Prelude.{◌≡◌, ◌≢◌, ℕ, ◌<◌, List, [], IfOk};
ghost use Rattle.std.specs.Bool.{OnTrue, OnFalse};
ghost use Rattle.std.specs.String.{string_bytes};
ghost use Rattle.row_types.specs.declared.limits.TheConstants.{FILE_LIMIT};
ghost use Rattle.tree_trait.specs.Asks.{AsksTree};
ghost use Rattle.tree_trait.specs.Open.{IsOpenedAs, open_facts, was_too_large};
ghost use Rattle.scan_worker.specs.Read.{ReadsName, heard_opening, opening_leads_to};
ghost use Rattle.scan_worker.specs.Parts.{ReadsOpenFile};

use crate::parts::read_parts;
use elf_reading::large_row;
use row_types::{FILE_LIMIT, Name, Stamp, TrueRow, Truth};
use scan_queue::Seen;
use std::alloc::{AllocError, Global};
use tree_trait::{OpenAnswer, Opened, Reader, Tree};

/// What the reading of a listed file gives.
#[derive(Drop)]
pub enum NameRead<W: Truth> {
    /// Its row.
    Row(TrueRow<W>),
    /// Another file stood there, or none.
    Altered(Seen),
    /// The opening or a read failed, and the hand's count of faults rose.
    Failed,
    /// Memory was refused, for the opening, for a read or for the row.
    OutOfMemory,
}

/// Opens a listed file, and reads the parts of it that its row rests on. The opening's limit is
/// [`FILE_LIMIT`]; the row of a larger file says so, and nothing of it is read.
pub fn read_name<W: Truth, T: Tree<W>, R: Reader<W>>(
    alloc: Global,
    hand: &mut T,
    reader: &R,
    name: &Name,
) -> NameRead<W>
    ensures { ReadsName T.told W.version name.now (T.shows hand.old) (T.shows hand.new) result }
{
    match open_listed(alloc, hand, name) {
        OpenAnswer::Opened { file, stamp } => {
            if is_other(stamp, name) {
                NameRead::Altered(Seen::File(stamp))
            } else {
                read_same(alloc, hand, reader, name, file, stamp)
            }
        }
        OpenAnswer::TooLarge { stamp } => read_large(alloc, name, stamp),
        OpenAnswer::Gone => NameRead::Altered(Seen::Gone),
        OpenAnswer::Failed => NameRead::Failed,
        OpenAnswer::OutOfMemory => NameRead::OutOfMemory,
    }
}

/// Opens a listed file.
fn open_listed<W: Truth, T: Tree<W>>(
    alloc: Global,
    hand: &mut T,
    name: &Name,
) -> OpenAnswer<T::File>
    ensures asks { AsksTree T.told W.version (T.shows hand.old) (T.shows hand.new)
        (heard_opening name.now (open_facts result)) }
    ensures name { IsOpenedAs T.opened name.now.path result }
{
    hand.open_file(alloc, name.path.text(), FILE_LIMIT)
}

/// Whether a stamp isn't the listed one.
fn is_other(stamp: Stamp, name: &Name) -> bool
    ensures other { OnTrue result (stamp ≢ name.now.stamp) }
    ensures same { OnFalse result (stamp ≡ name.now.stamp) }
{
    stamp != name.stamp
}

/// A copy of a name, and one of its path.
fn copies(alloc: Global, name: &Name) -> Result<(Name, String), AllocError>
    ensures { IfOk result (λ copies. (copies.0 ≡ name.now)
        × (string_bytes copies.1 ≡ name.now.path)) }
{
    let own = name.copy(alloc)?;
    let path = String::from_str(alloc, name.path.text())?;
    Ok((own, path))
}

/// What a file that was opened with the listed stamp gives.
fn read_same<W: Truth, T: Tree<W>, R: Reader<W>>(
    alloc: Global,
    hand: &mut T,
    reader: &R,
    name: &Name,
    file: T::File,
    stamp: Stamp,
) -> NameRead<W>
    requires same { stamp ≡ name.now.stamp }
    requires known { (b : List ℕ) × W.version name.now.path stamp b }
    requires opened { T.opened file ≡ record { path = name.now.path; stamp = stamp } }
    ensures { ReadsOpenFile T.told W.version name.now stamp (T.shows hand.old) (T.shows hand.new)
        result }
{
    let Ok((own, path)) = copies(alloc, name) else {
        return NameRead::OutOfMemory;
    };
    read_parts(
        alloc,
        hand,
        reader,
        own,
        Opened::new(alloc, path, stamp, file),
    )
}

/// What a file that is larger than a file that is read gives.
fn read_large<W: Truth>(alloc: Global, name: &Name, stamp: Stamp) -> NameRead<W>
    requires { FILE_LIMIT < stamp.size }
    ensures { opening_leads_to W.version name.now (was_too_large stamp) [] result }
{
    if is_other(stamp, name) {
        return NameRead::Altered(Seen::File(stamp));
    }
    match name.copy(alloc) {
        Ok(own) => NameRead::Row(large_row(own)),
        Err(_) => NameRead::OutOfMemory,
    }
}
