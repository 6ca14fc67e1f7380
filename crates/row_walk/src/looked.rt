//! What a walk looks at in one hold.

ghost use Rattle.std.specs.Prelude.{◌≡◌, IfOk};
ghost use Rattle.row_walk.specs.Looked.{Copies, IsLastPlace, is_copied, is_last, look_at, looks_of, rows_behind};

use crate::found::{Found, found_of};
use crate::place::{Place, is_behind};
use index_keeper::Keeper;
use index_rows::{Change, RowIter};
use index_state::State;
use row_types::{CanonPath, Truth};
use std::alloc::{AllocError, Global};

/// The largest number of changes that are heard of in one hold. Each may take a search by path, which
/// takes as long as some ten rows.
pub const MOST_CHANGES: usize = 25;

/// The largest number of rows that are seen in one hold.
pub const MOST_ROWS: usize = 256;

/// What stands at a path.
#[derive(Drop)]
pub enum Look {
    /// No row.
    Gone(CanonPath),
    /// A row.
    There(Found),
}

/// What was looked at in one hold.
#[derive(Drop)]
pub enum Looked {
    /// What stands at paths up to the place, which the next changes name.
    Mended {
        /// What stands there, in the order of the changes.
        looks: Vec<Look>,
        /// How many changes of the log were heard of.
        heard: usize,
    },
    /// The next rows behind the place.
    Copied {
        /// The rows, in path order.
        rows: Vec<Found>,
        /// How far they go.
        place: Place,
    },
}

impl Looked {
    /// Whether all changes were heard of.
    pub fn is_copied(&self) -> bool
        ensures { result ≡ is_copied self.now }
    {
        match self {
            Looked::Copied { .. } => true,
            Looked::Mended { .. } => false,
        }
    }

    /// Whether all rows were seen and all changes heard of.
    pub fn is_last(&self) -> bool
        ensures { result ≡ is_last self.now }
    {
        match self {
            Looked::Copied {
                rows: _,
                place: Place::End,
            } => true,
            Looked::Copied { .. } | Looked::Mended { .. } => false,
        }
    }
}

/// What stands at the paths up to the place that the changes name.
pub(crate) fn looks_of<W: Truth, K: Keeper<W>>(
    alloc: Global,
    index: &State<W, K>,
    place: &Place,
    changes: &[Change],
) -> Result<Vec<Look>, AllocError>
    ensures { IfOk result (λ looks. looks.items ≡ looks_of place.now index.now.rows changes.now) }
{
    let mut looks = Vec::new(alloc);
    for change in changes {
        let path = &change.name.path;
        if !is_behind(place, path) {
            looks.push(look_at(alloc, index, path)?)?;
        }
    }
    Ok(looks)
}

/// What stands at the path.
fn look_at<W: Truth, K: Keeper<W>>(
    alloc: Global,
    index: &State<W, K>,
    path: &CanonPath,
) -> Result<Look, AllocError>
    ensures { IfOk result (λ look. look ≡ look_at path.now index.now.rows) }
{
    match index.row_at(path) {
        Some(row) => Ok(Look::There(found_of(alloc, row)?)),
        None => Ok(Look::Gone(path.copy(alloc)?)),
    }
}

/// The next rows behind the place.
pub(crate) fn copied<W: Truth, K: Keeper<W>>(
    alloc: Global,
    index: &State<W, K>,
    place: &Place,
) -> Result<Looked, AllocError>
    ensures { IfOk result (λ looked. Copies (rows_behind place.now index.now.rows) looked) }
{
    match place {
        Place::Start => copy_rows(alloc, index.rows()),
        Place::At(path) => copy_rows(alloc, index.rows_after(path)),
        Place::End => Ok(Looked::Copied {
            rows: Vec::new(alloc),
            place: Place::End,
        }),
    }
}

/// The next rows, and how far they go.
fn copy_rows(alloc: Global, mut left: RowIter<'_>) -> Result<Looked, AllocError>
    ensures { IfOk result (λ looked. Copies left.entry looked) }
{
    let mut rows = Vec::with_capacity(alloc, MOST_ROWS)?;
    while rows.len() < MOST_ROWS {
        match left.next() {
            None => return Ok(Looked::Copied {
                rows,
                place: Place::End,
            }),
            Some(row) => rows.push(found_of(alloc, row)?)?,
        }
    }
    let place = last_place(alloc, rows.as_slice())?;
    Ok(Looked::Copied { rows, place })
}

/// The place of the last.
fn last_place(alloc: Global, rows: &[Found]) -> Result<Place, AllocError>
    ensures { IfOk result (λ place. IsLastPlace rows.now place) }
{
    match rows.last() {
        Some(found) => Ok(Place::At(found.path.copy(alloc)?)),
        None => Ok(Place::Start),
    }
}
