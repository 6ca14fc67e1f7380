//! The command `scan`.

ghost use Rattle.std.specs.Prelude.{◌≡◌, ◌+◌, ◌<◌, drop, false, vec_len, IsTrue};
ghost use Rattle.path_scope.specs.Scope.{scope_of};
ghost use Rattle.row_types.specs.Canon.{IsCanonPath};
ghost use Rattle.row_types.specs.Rules.{rules};
ghost use Rattle.index_keeper.specs.Store.{HasAll, ShownStore, TakesKeeperBack};
ghost use Rattle.index_state.specs.Opening.{CanOpen};
ghost use Rattle.tree_trait.specs.Shown.{HandsOn};
ghost use Rattle.pass_runner.specs.Owned.{HandsGo, is_hand_fault as is_hand_fault_of};
ghost use Rattle.dbgd_words.specs.Limits.{IsScanFit};
ghost use Rattle.dbgd_commands.specs.Passing.{HasMissedPath, ScansIndex};
ghost use Rattle.dbgd_commands.specs.Scan.{EndsScan, LoadsBy, RunsScan, Scans};
ghost use Rattle.dbgd_commands.specs.ScanSaid.{is_first_hand_fault, is_store_fault};
ghost use Rattle.dbgd_commands.specs.Stage.{setting};

use crate::handed::{Handed, Staged};
use crate::kinds::Kinds;
use crate::lent::{asked, lend, rejoin};
use crate::scan_end::ScanEnd;
use crate::scan_sayings::say_end;
use crate::status::Status;
use elf_reading::{ElfReader, ElfTruth};
use index_keeper::{Keeper, Store, StoreAnswer};
use index_state::{OpenFault, State, open_state};
use pass_runner::{PassEnd, scan_state};
use path_scope::Selection;
use row_types::CanonPath;
use std::alloc::Global;
use std::mem;
use std::sync::Wait;
use std::thread::Threads;
use tree_trait::{Gate, Tree};

/// Shows that a path is one that is kept. It is called for its clause alone.
fn show_path(path: &CanonPath)
    ensures { IsCanonPath path.now }
{
    // For its clause: the path is canonical.
    let _text = path.text();
}

/// Shows the same of the path of a name that was missed. It is called for its clause alone.
pub fn show_end(end: &PassEnd)
    ensures { HasMissedPath end.now }
{
    if let PassEnd::Missed(miss) = end {
        show_path(&miss.name.path);
    }
}

/// Lets an index make one pass over the folders, of the files that are selected, and hands its keeper
/// out.
fn scan_index<
    W: ElfTruth + Send + Sync,
    T: Tree<W>,
    K: Keeper<W>,
    P: Selection,
    G: Gate,
    Rt: Threads + Wait + Sync,
>(
    rt: &Rt,
    alloc: Global,
    state: State<W, K>,
    roots: &[CanonPath],
    select: &mut P,
    hands: &mut Vec<T>,
    gate: &G,
) -> (PassEnd, K)
    requires hand { 0 < vec_len hands.old }
    requires sound { state.broken ≡ false }
    ensures pass { ScansIndex (setting (rules W.version W.true_row W.told) T.told T.shows K.told)
        K.shows (scope_of roots.now (P.takes select.old))
        hands.old.items hands.new.items state result.1 result.0 }
    ensures hands { HandsGo
        (λ hand later. HandsOn T.told W.version (T.shows hand) (T.shows later) ⊥
        (IsTrue (is_hand_fault_of result.0)))
        (λ hand later. HandsOn T.told W.version (T.shows hand) (T.shows later) ⊥ ⊥)
        hands.old.items hands.new.items }
    ensures keeper { result.0 ≡ PassEnd.KeeperFault → 0 < (K.shows result.1).faults }
    ensures count { vec_len hands.new ≡ vec_len hands.old }
    ensures same { P.takes select.new ≡ P.takes select.old }
{
    let lent = mem::replace(hands, Vec::new(alloc));
    let (state, back, end) = scan_state(rt, alloc, state, lent, roots, select, &ElfReader, gate);
    *hands = back;
    // For its clause: the path of a name that was missed is one that is kept.
    show_end(&end);
    (end, state.into_keeper())
}

/// Scans the folders into the index on a keeper, and hands the keeper out.
fn scan_keeper<
    W: ElfTruth + Send + Sync,
    T: Tree<W>,
    K: Keeper<W>,
    P: Selection,
    G: Gate,
    Rt: Threads + Wait + Sync,
>(
    rt: &Rt,
    alloc: Global,
    keeper: K,
    roots: &[CanonPath],
    select: &mut P,
    hands: &mut Vec<T>,
    gate: &G,
) -> (ScanEnd, K)
    requires hand { 0 < vec_len hands.old }
    requires opens { CanOpen K.told (K.shows keeper) }
    ensures ends { (from mid into : ShownStore) → HasAll K.told from (K.shows keeper)
        → TakesKeeperBack K.told (K.shows result.1) mid into
        → EndsScan (setting (rules W.version W.true_row W.told) T.told T.shows K.told)
        (scope_of roots.now (P.takes select.old)) hands.old.items hands.new.items from into result.0 }
    ensures hands { HandsGo
        (λ hand later. HandsOn T.told W.version (T.shows hand) (T.shows later) ⊥
        (IsTrue (is_first_hand_fault result.0)))
        (λ hand later. HandsOn T.told W.version (T.shows hand) (T.shows later) ⊥ ⊥)
        hands.old.items hands.new.items }
    ensures loads { LoadsBy T.shows hands.old.items hands.new.items result.0 }
    ensures keeper { IsTrue (is_store_fault result.0) → 0 < (K.shows result.1).faults }
    ensures count { vec_len hands.new ≡ vec_len hands.old }
    ensures same { P.takes select.new ≡ P.takes select.old }
{
    match open_state(alloc, keeper) {
        Ok(state) => {
            let (end, keeper) = scan_index(rt, alloc, state, roots, select, hands, gate);
            (ScanEnd::Passed(end), keeper)
        }
        Err((fault, keeper)) => (ScanEnd::Refused(fault), keeper),
    }
}

/// Scans the folders into a store, and says how the scan ended. The store has its keeper back by
/// then.
fn scan<
    W: ElfTruth + Send + Sync,
    T: Tree<W>,
    S: Store<W>,
    P: Selection,
    G: Gate,
    Rt: Threads + Wait + Sync,
>(
    rt: &Rt,
    alloc: Global,
    path: &str,
    roots: &[CanonPath],
    select: &mut P,
    hands: &mut Vec<T>,
    store: &mut S,
    gate: &G,
) -> ScanEnd
    requires { 0 < vec_len hands.old }
    ensures scans { Scans (setting (rules W.version W.true_row W.told) T.told T.shows S.K.told)
        path.now (scope_of roots.now (P.takes select.old)) hands.old.items hands.new.items
        (S.shows store.old) (S.shows store.new) result }
    ensures count { vec_len hands.new ≡ vec_len hands.old }
    ensures same { P.takes select.new ≡ P.takes select.old }
{
    match store.open_store(alloc, path) {
        StoreAnswer::Opened(keeper) => {
            let (end, keeper) = scan_keeper(rt, alloc, keeper, roots, select, hands, gate);
            store.give_back(keeper);
            end
        }
        StoreAnswer::Failed => ScanEnd::Refused(OpenFault::KeeperFault),
        StoreAnswer::OutOfMemory => ScanEnd::Refused(OpenFault::OutOfMemory),
    }
}

/// Scans the folders into a store by so many workers, and says how the scan ended: one hand walks, one
/// looks for the files of rows, and one for each worker reads. The hands behind these aren't asked.
fn scan_by<X: Kinds, P: Selection, Rt: Threads + Wait + Sync>(
    rt: &Rt,
    alloc: Global,
    path: &str,
    workers: u64,
    roots: &[CanonPath],
    select: &mut P,
    outside: &mut Handed<X>,
) -> ScanEnd
    requires hand { 0 < vec_len outside.old.hands }
    requires fits { IsScanFit workers }
    ensures scans { Scans ⟦<Handed<X> as Staged>⟧.setting path.now
        (scope_of roots.now (P.takes select.old))
        outside.old.hands.items outside.new.hands.items
        (X.S.shows outside.old.store) (X.S.shows outside.new.store) result }
    ensures others { drop (workers + 2) outside.new.hands.items
        ≡ drop (workers + 2) outside.old.hands.items }
    ensures count { vec_len outside.new.hands ≡ vec_len outside.old.hands }
    ensures same { P.takes select.new ≡ P.takes select.old }
    ensures sinks { (outside.new.out ≡ outside.old.out) × (outside.new.err ≡ outside.old.err) }
    ensures rest { (outside.new.doors ≡ outside.old.doors) × (outside.new.links ≡ outside.old.links)
        × (outside.new.clock ≡ outside.old.clock) × (outside.new.cache ≡ outside.old.cache) }
{
    let hands = &mut outside.hands;
    let count = asked(workers, hands.len());
    match lend(alloc, hands, count) {
        Ok(others) => {
            let end = scan::<X::W, X::T, X::S, P, X::G, Rt>(
                rt,
                alloc,
                path,
                roots,
                select,
                hands,
                &mut outside.store,
                &outside.gate,
            );
            rejoin(hands, others);
            end
        }
        Err(_) => ScanEnd::Refused(OpenFault::OutOfMemory),
    }
}

/// Scans the folders into a store by so many workers, and says how that ended. A file that isn't
/// selected isn't read.
pub fn run_scan<X: Kinds, P: Selection, Rt: Threads + Wait + Sync>(
    rt: &Rt,
    alloc: Global,
    path: &str,
    workers: u64,
    roots: &[CanonPath],
    select: &mut P,
    outside: &mut Handed<X>,
) -> Status
    requires hand { 0 < vec_len outside.old.hands }
    requires fits { IsScanFit workers }
    ensures runs { RunsScan ⟦<Handed<X> as Staged>⟧.setting path.now workers
        (scope_of roots.now (P.takes select.old))
        (⟦<Handed<X> as Staged>⟧.stage outside.old).command
        (⟦<Handed<X> as Staged>⟧.stage outside.new).command result }
    ensures count { vec_len outside.new.hands ≡ vec_len outside.old.hands }
    ensures same { P.takes select.new ≡ P.takes select.old }
    ensures rest { (outside.new.doors ≡ outside.old.doors) × (outside.new.links ≡ outside.old.links)
        × (outside.new.clock ≡ outside.old.clock) × (outside.new.cache ≡ outside.old.cache) }
{
    let end = scan_by::<X, P, Rt>(rt, alloc, path, workers, roots, select, outside);
    say_end(alloc, &end, &mut outside.out, &mut outside.err)
}
