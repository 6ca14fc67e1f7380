//! A server on a store: its index is opened, served and let go, and the store has its keeper back.

ghost use Rattle.std.specs.Prelude.{◌≡◌, [], None, vec_len};
ghost use Rattle.std.proofs.Props.{props};
ghost use Rattle.path_scope.specs.Scope.{scope_of};
ghost use Rattle.path_canon.specs.Selected.{is_selected};
ghost use Rattle.index_state.specs.Opening.{CanOpen};
ghost use Rattle.dbgd_commands.specs.Endings.{streams};
ghost use Rattle.dbgd_run.specs.Rounds.{pass_stage};
ghost use Rattle.dbgd_run.specs.Serving.{ServesIndex, ServesKeeper, ServesStore, serve_stage};

use crate::crew::{Back, Crew, unserved};
use crate::first_pass::serve_from;
use crate::serve_end::ServeEnd;
use crate::serve_said::announce;
use crate::settings::ServeSettings;
use crate::site::SiteOf;
use crate::threads::{Index, KeeperOf, PassTools};
use dbgd_commands::{Handed, Kinds};
use index_keeper::{Store, StoreAnswer};
use index_lock::TurnLock;
use index_state::{OpenFault, open_state};
use std::sync::Wait;
use std::thread::Threads;

/// An index as it was opened: no name was spared of it.
#[derive(Drop)]
struct FreshIndex<X: Kinds> {
    state: Index<X>,
    ghost spared: { state.origin.sparing ≡ None } by { Prim.hlevel props },
}

/// Puts the index behind a lock of its own, serves, takes it out again and hands its keeper out. Where
/// there is no memory for the lock nothing is served.
fn serve_index<X: Kinds, Rt: Threads + Wait + Sync>(
    site: &SiteOf<'_, X, Rt>,
    fresh: FreshIndex<X>,
    crew: Crew<'_, X>,
    clock: &mut X::C,
    out: &mut X::O,
    err: &mut X::O,
) -> (KeeperOf<X>, Back<X>)
    ensures serves { ServesIndex (⟦<Handed<X> as ServeSettings>⟧.setting
        (scope_of site.now.roots.now (is_selected crew.entry.select)) site.now.secs site.now.folders.now crew.entry.workers.book.now.rows) X.S.K.shows fresh.state
        (pass_stage fresh.state.log crew.entry.hands.items (X.C.woke clock.old)
        (streams X.O.shows out.old err.old) crew.entry.share) crew.entry.workers.all.items result.1.end result.0
        (serve_stage result.1.hands.items (X.C.woke clock.new)
        (streams X.O.shows out.new err.new) result.1.workers.items) }
    ensures hands { vec_len result.1.hands ≡ vec_len crew.entry.hands }
    ensures count { vec_len result.1.workers ≡ vec_len crew.entry.workers.all }
{
    match TurnLock::make(site.alloc, fresh.state) {
        Ok((lock, seat)) => {
            let (tools, workers, fate, how) = serve_from::<X, Rt>(
                site, &lock, seat, crew, clock, out, err,
            );
            let PassTools { seat, hands, .. } = tools;
            let held = lock.enter(site.rt, seat);
            let state = TurnLock::into_value(lock, held);
            let broken = state.standing().broken;
            let end = ServeEnd::Served { fate, how, broken };
            let back = Back {
                hands,
                workers,
                end,
            };
            (state.into_keeper(), back)
        }
        Err(state) => (state.into_keeper(), unserved(crew, ServeEnd::Unlocked)),
    }
}

/// Opens the index on a keeper, says the first line, serves, and hands the keeper out.
fn serve_keeper<X: Kinds, Rt: Threads + Wait + Sync>(
    site: &SiteOf<'_, X, Rt>,
    keeper: KeeperOf<X>,
    crew: Crew<'_, X>,
    clock: &mut X::C,
    out: &mut X::O,
    err: &mut X::O,
) -> (KeeperOf<X>, Back<X>)
    requires { CanOpen X.S.K.told (X.S.K.shows keeper) }
    ensures serves { ServesKeeper (⟦<Handed<X> as ServeSettings>⟧.setting
        (scope_of site.now.roots.now (is_selected crew.entry.select)) site.now.secs site.now.folders.now crew.entry.workers.book.now.rows) X.S.K.shows site.now.line.now keeper
        (pass_stage [] crew.entry.hands.items (X.C.woke clock.old)
        (streams X.O.shows out.old err.old) crew.entry.share) crew.entry.workers.all.items result.1.end result.0
        (serve_stage result.1.hands.items (X.C.woke clock.new)
        (streams X.O.shows out.new err.new) result.1.workers.items) }
    ensures hands { vec_len result.1.hands ≡ vec_len crew.entry.hands }
    ensures count { vec_len result.1.workers ≡ vec_len crew.entry.workers.all }
{
    match open_state(site.alloc, keeper) {
        Ok(state) => {
            let fresh = FreshIndex { state };
            if announce(site.line, out, err) {
                serve_index::<X, Rt>(site, fresh, crew, clock, out, err)
            } else {
                (
                    fresh.state.into_keeper(),
                    unserved(crew, ServeEnd::Unannounced),
                )
            }
        }
        Err((fault, keeper)) => (keeper, unserved(crew, ServeEnd::Refused(fault))),
    }
}

/// Opens the store, serves its index, and gives the keeper back.
pub(crate) fn serve_store<X: Kinds, Rt: Threads + Wait + Sync>(
    site: &SiteOf<'_, X, Rt>,
    store: &mut X::S,
    crew: Crew<'_, X>,
    clock: &mut X::C,
    out: &mut X::O,
    err: &mut X::O,
) -> Back<X>
    ensures serves { ServesStore (⟦<Handed<X> as ServeSettings>⟧.setting
        (scope_of site.now.roots.now (is_selected crew.entry.select)) site.now.secs site.now.folders.now crew.entry.workers.book.now.rows) site.now.path.now site.now.line.now
        (X.S.shows store.old) (X.S.shows store.new)
        (pass_stage [] crew.entry.hands.items (X.C.woke clock.old)
        (streams X.O.shows out.old err.old) crew.entry.share) crew.entry.workers.all.items result.end
        (serve_stage result.hands.items (X.C.woke clock.new)
        (streams X.O.shows out.new err.new) result.workers.items) }
    ensures hands { vec_len result.hands ≡ vec_len crew.entry.hands }
    ensures count { vec_len result.workers ≡ vec_len crew.entry.workers.all }
{
    match store.open_store(site.alloc, site.path) {
        StoreAnswer::Opened(keeper) => {
            let (keeper, back) = serve_keeper::<X, Rt>(site, keeper, crew, clock, out, err);
            store.give_back(keeper);
            back
        }
        StoreAnswer::Failed => unserved(crew, ServeEnd::Refused(OpenFault::KeeperFault)),
        StoreAnswer::OutOfMemory => unserved(crew, ServeEnd::Refused(OpenFault::OutOfMemory)),
    }
}
