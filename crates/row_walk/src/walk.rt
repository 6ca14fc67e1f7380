//! The walk.

ghost use Rattle.std.specs.Prelude.{◌≡◌, [], List, Bool, IfOk, OnOk, fold, take};
ghost use mathlib.Core.List.{IsPrefix};
ghost use Rattle.row_types.specs.Ascends.{AscendsBy};
ghost use Rattle.index_rows.specs.declared.change.Change.{Change};
ghost use Rattle.row_walk.specs.Found.{found_path};
ghost use Rattle.row_walk.specs.Walk.{IsStep, IsWalk, IsWalkOf, after_look, after_row, taken};
ghost use Rattle.row_walk.specs.declared.found.Found.{Found};

use crate::found::Found;
use crate::kept::Kept;
use crate::looked::{Look, Looked, MOST_CHANGES, copied, looks_of};
use crate::place::Place;
use crate::wants::Wants;
use index_keeper::Keeper;
use index_rows::Change;
use index_state::State;
use row_types::Truth;
use std::alloc::{AllocError, Global};
use std::marker::Model;

/// A walk over the rows of an index in short holds. What is kept of them is mended as the log grows.
/// Contracts see it as a record of what is kept, the place, and how many changes of the log were
/// heard of.
#[derive(Drop)]
pub struct RowWalk {
    kept: Kept,
    place: Place,
    heard: usize,
    alloc: Global,
}

impl Model for RowWalk {
    ghost use Rattle.row_walk.specs.Walk.{WalkFacts};

    ghost Value = { WalkFacts };

    ghost view = { λ w. record { kept = w.kept; place = w.place; heard = w.heard } };
}

impl RowWalk {
    /// A walk that begins at this index.
    pub fn new<W: Truth, K: Keeper<W>>(alloc: Global, index: &State<W, K>) -> RowWalk
        ensures { (keeps : Found → Bool) → IsWalk W.true_row keeps index.now.log result }
    {
        RowWalk {
            kept: Kept::new(alloc),
            place: Place::Start,
            heard: index.changes_after(0).len(),
            alloc,
        }
    }

    /// Looks at what stands at the paths up to the place that the next changes name, or else, with
    /// no change left, at the next rows. Nothing is tested.
    pub fn look<W: Truth, K: Keeper<W>>(&self, index: &State<W, K>) -> Result<Looked, AllocError>
        ensures step { IfOk result (IsStep self.now index.now) }
        ensures walk { (keeps : Found → Bool) (before : List Change)
            → IsPrefix before index.now.log → IsWalk W.true_row keeps before self.now
            → IfOk result (λ looked.
            IsWalkOf W.told W.true_row keeps index.now (taken keeps looked self.now)) }
    {
        let changes = index.changes_after(self.heard);
        if changes.is_empty() {
            return copied(self.alloc, index, &self.place);
        }
        let next = first(changes);
        let looks = looks_of(self.alloc, index, &self.place, next)?;
        Ok(Looked::Mended {
            looks,
            heard: self.heard + next.len(),
        })
    }

    /// Takes in what was looked at, of which it keeps what is wanted. No index is needed for it.
    pub fn take_in<T: Wants>(mut self, looked: Looked, wanted: &T) -> Result<RowWalk, AllocError>
        ensures { IfOk result (λ walk. walk ≡ taken (T.wants wanted.now) looked self) }
    {
        match looked {
            Looked::Mended { looks, heard } => {
                take_looks(&mut self.kept, looks, wanted)?;
                self.heard = heard;
            }
            Looked::Copied { rows, place } => {
                take_rows(&mut self.kept, rows, wanted)?;
                self.place = place;
            }
        }
        Ok(self)
    }

    /// What is kept, in path order.
    pub fn found(&self) -> &[Found]
        ensures { result.now ≡ self.now.kept }
    {
        self.kept.found()
    }

    /// How many changes of the log were heard of.
    pub fn heard(&self) -> u64
        ensures { result ≡ self.now.heard }
    {
        self.heard as u64
    }
}

/// The first changes.
fn first(changes: &[Change]) -> &[Change]
    ensures { result.now ≡ take MOST_CHANGES changes.now }
{
    &changes[..changes.len().min(MOST_CHANGES)]
}

/// Takes in what stands at paths.
fn take_looks<T: Wants>(kept: &mut Kept, looks: Vec<Look>, wanted: &T) -> Result<(), AllocError>
    ensures { OnOk result (kept.new ≡ fold (after_look (T.wants wanted.now)) kept.old looks.items) }
{
    for look in looks {
        take_look(kept, look, wanted)?;
    }
    Ok(())
}

/// Takes in what stands at a path.
fn take_look<T: Wants>(kept: &mut Kept, look: Look, wanted: &T) -> Result<(), AllocError>
    ensures { OnOk result (kept.new ≡ after_look (T.wants wanted.now) kept.old look) }
{
    match look {
        Look::Gone(path) => kept.drop_path(&path),
        Look::There(found) => {
            if wanted.wants(&found) {
                kept.put(found)?;
            } else {
                kept.drop_path(&found.path);
            }
        }
    }
    Ok(())
}

/// Takes in rows.
fn take_rows<T: Wants>(kept: &mut Kept, rows: Vec<Found>, wanted: &T) -> Result<(), AllocError>
    ensures { OnOk result (kept.new ≡ fold (after_row (T.wants wanted.now)) kept.old rows.items) }
{
    for found in rows {
        if wanted.wants(&found) {
            kept.put(found)?;
        }
    }
    Ok(())
}
