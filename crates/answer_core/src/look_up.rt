//! The candidates of a route, picked while the lock is held.

ghost use Rattle.std.specs.Prelude.{◌≡◌, ◌++◌, map, IfOk, OnOk};
ghost use Rattle.answer_core.specs.Candidates.{as_class, candidates, is_in_one, of_class};
ghost use Rattle.answer_core.specs.Candidates.{source_in};
ghost use Rattle.row_types.specs.declared.identity.Kind.TheVariants as kind;
ghost use Rattle.answer_core.specs.Local.{Picks};
ghost use Rattle.index_lock.specs.Tokens.{IsLater};

use crate::candidate::Candidate;
use index_desk::look_once;
use index_keeper::Keeper;
use index_lock::{Seat, TurnLock};
use index_rows::RowIter;
use index_state::{State, show_index};
use path_scope::is_under;
use row_types::{BuildId, CanonPath, Kind, Truth};
use std::alloc::{AllocError, Global};
use std::sync::Wait;
use webapi_routes::Route;

/// What is picked from an index.
#[derive(Drop)]
pub(crate) struct Picked {
    /// The length of the log.
    pub generation: u64,
    /// The candidates by the rows, where there is memory.
    pub list: Result<Vec<Candidate>, AllocError>,
}

/// Takes the lock once, to pick the candidates.
pub(crate) fn look_up<W: Truth, K: Keeper<W>, R: Wait>(
    rt: &R,
    alloc: Global,
    lock: &TurnLock<State<W, K>>,
    seat: Seat<State<W, K>>,
    route: &Route,
    folders: &[CanonPath],
) -> (Seat<State<W, K>>, Picked)
    requires { seat.lock ≡ lock.now }
    ensures later { IsLater seat result.0 }
    ensures picks { Picks W.true_row result.0.seen folders.now route.now result.1 }
{
    look_once(
        rt,
        lock,
        seat,
        |index: &State<W, K>| pick(alloc, index, route, folders),
    )
}

/// Picks the candidates from this index.
fn pick<W: Truth, K: Keeper<W>>(
    alloc: Global,
    index: &State<W, K>,
    route: &Route,
    folders: &[CanonPath],
) -> Picked
    ensures { Picks W.true_row index.now.log folders.now route.now result }
{
    // For its clause alone: the rows are those of the log, and true.
    show_index(index);
    Picked {
        generation: index.standing().log,
        list: candidates(alloc, index, route, folders),
    }
}

/// The candidates by the rows of this index.
fn candidates<W: Truth, K: Keeper<W>>(
    alloc: Global,
    index: &State<W, K>,
    route: &Route,
    folders: &[CanonPath],
) -> Result<Vec<Candidate>, AllocError>
    ensures { IfOk result (λ list. list.items ≡ candidates index.now.rows folders.now route.now) }
{
    match route {
        Route::Debuginfo(id) => of_class(alloc, index, id, Kind::Debuginfo),
        Route::Executable(id) => of_class(alloc, index, id, Kind::Executable),
        Route::Section(id, _) => of_both(alloc, index, id),
        Route::Source(id, path) => of_source(alloc, index, id, path, folders),
        Route::Metrics => Ok(Vec::new(alloc)),
    }
}

/// The files of the class.
fn of_class<W: Truth, K: Keeper<W>>(
    alloc: Global,
    index: &State<W, K>,
    id: &BuildId,
    class: Kind,
) -> Result<Vec<Candidate>, AllocError>
    ensures { IfOk result (λ list. list.items ≡ of_class index.now.rows id.now class) }
{
    let mut list = Vec::new(alloc);
    push_rows(alloc, &mut list, index.with_class(id, class), class)?;
    Ok(list)
}

/// The files with debug information, and then those with code.
fn of_both<W: Truth, K: Keeper<W>>(
    alloc: Global,
    index: &State<W, K>,
    id: &BuildId,
) -> Result<Vec<Candidate>, AllocError>
    ensures { IfOk result (λ list. list.items ≡ of_class index.now.rows id.now kind.Debuginfo
        ++ of_class index.now.rows id.now kind.Executable) }
{
    let mut list = of_class(alloc, index, id, Kind::Debuginfo)?;
    let executables = index.with_class(id, Kind::Executable);
    push_rows(alloc, &mut list, executables, Kind::Executable)?;
    Ok(list)
}

/// The source, if it may be given.
fn of_source<W: Truth, K: Keeper<W>>(
    alloc: Global,
    index: &State<W, K>,
    id: &BuildId,
    path: &CanonPath,
    folders: &[CanonPath],
) -> Result<Vec<Candidate>, AllocError>
    ensures { IfOk result (λ list.
        list.items ≡ source_in index.now.rows folders.now id.now path.now) }
{
    if index.lists_source(id, path) && is_in_one(folders, path) {
        let path = path.copy(alloc)?;
        Ok(vec![in alloc; Candidate { class: None, path }]?)
    } else {
        Ok(Vec::new(alloc))
    }
}

/// Whether the path is that of one of the folders, or lies under one.
fn is_in_one(folders: &[CanonPath], path: &CanonPath) -> bool
    ensures { result ≡ is_in_one folders.now path.now }
{
    folders.iter().any(|folder| is_under(path, folder))
}

/// Adds the files of the rows, as files of this class.
fn push_rows(
    alloc: Global,
    list: &mut Vec<Candidate>,
    mut rows: RowIter<'_>,
    class: Kind,
) -> Result<(), AllocError>
    ensures { OnOk result (list.new.items ≡ list.old.items ++ map (as_class class) rows.entry) }
{
    while let Some(row) = rows.next() {
        let path = row.name.path.copy(alloc)?;
        list.push(Candidate {
            class: Some(class),
            path,
        })?;
    }
    Ok(())
}
