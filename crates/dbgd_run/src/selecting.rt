//! The commands that select files: their patterns are read first.

ghost use Rattle.std.specs.Prelude.{◌≡◌, ◌+◌, ◌*◌, ◌<◌, ◌≤◌, List, All, length, vec_len};
ghost use Rattle.federation.specs.Server.{ServerFacts};
ghost use Rattle.dbgd_words.specs.Limits.{IsScanFit, IsServeFit};
ghost use Rattle.dbgd_words.specs.Patterns.{pattern_texts};
ghost use Rattle.dbgd_commands.specs.Scan.{RunsScan};
ghost use Rattle.dbgd_commands.specs.Stage.{LeavesRest};
ghost use Rattle.dbgd_run.specs.Selecting.{Selects, scope_by};
ghost use Rattle.dbgd_run.specs.Serve.{RunsServe, serve_words};

use crate::refusal::say_unselected;
use crate::serve::{ServeParts, run_serve};
use dbgd_commands::{Handed, Kinds, Staged, Status, run_scan};
use dbgd_words::{ScanLine, ServeLine};
use path_canon::{Matching, Select, SelectFault};
use std::alloc::Global;
use std::sync::Wait;
use std::thread::Threads;

/// Scans the files that the patterns select.
pub(crate) fn scan_selected<X: Kinds, Rt: Threads + Wait + Sync>(
    rt: &Rt,
    alloc: Global,
    line: &ScanLine<'_>,
    outside: &mut Handed<X>,
) -> Status
    requires hand { 0 < vec_len outside.old.hands }
    requires fits { IsScanFit line.now.workers }
    ensures runs { Selects (pattern_texts line.now.patterns)
        (⟦<Handed<X> as Staged>⟧.stage outside.old) (⟦<Handed<X> as Staged>⟧.stage outside.new) result
        (RunsScan ⟦<Handed<X> as Staged>⟧.setting line.now.store.now line.now.workers
        (scope_by (pattern_texts line.now.patterns) line.now.roots.items)
        (⟦<Handed<X> as Staged>⟧.stage outside.old).command
        (⟦<Handed<X> as Staged>⟧.stage outside.new).command result
        × LeavesRest (⟦<Handed<X> as Staged>⟧.stage outside.old) (⟦<Handed<X> as Staged>⟧.stage outside.new)) }
    ensures count { vec_len outside.new.hands ≡ vec_len outside.old.hands }
    ensures rest { (outside.new.doors ≡ outside.old.doors) × (outside.new.links ≡ outside.old.links) }
{
    let patterns = line.patterns;
    let select = match Select::new(alloc, patterns.include, patterns.exclude) {
        Ok(select) => select,
        Err(fault) => return say_unselected(fault, &mut outside.out, &mut outside.err),
    };
    match select.matching(alloc) {
        Ok(mut matching) => run_scan::<X, Matching<'_>, Rt>(
            rt,
            alloc,
            line.store,
            line.workers,
            line.roots.as_slice(),
            &mut matching,
            outside,
        ),
        Err(_) => say_unselected(SelectFault::OutOfMemory, &mut outside.out, &mut outside.err),
    }
}

/// Serves the files that the patterns select.
pub(crate) fn serve_selected<X: Kinds, Rt: Threads + Wait + Sync>(
    rt: &Rt,
    alloc: Global,
    line: ServeLine<'_>,
    outside: &mut Handed<X>,
) -> Status
    requires hands { line.workers * 2 + 2 ≤ vec_len outside.old.hands }
    requires doors { vec_len outside.old.doors ≡ line.workers }
    requires links { line.workers ≤ vec_len outside.old.links }
    requires fits { IsServeFit line.workers line.port line.secs }
    ensures runs { (upstream : List ServerFacts)
        → All (λ row. length row.items ≡ length upstream) outside.old.links.items
        → Selects (pattern_texts line.entry.patterns)
        (⟦<Handed<X> as Staged>⟧.stage outside.old) (⟦<Handed<X> as Staged>⟧.stage outside.new) result
        (RunsServe ⟦<Handed<X> as Staged>⟧.setting
        (serve_words line.entry.store.now line.entry.workers line.entry.port line.entry.secs line.entry.sources.items
        upstream (pattern_texts line.entry.patterns) line.entry.roots.items)
        (⟦<Handed<X> as Staged>⟧.stage outside.old)
        (⟦<Handed<X> as Staged>⟧.stage outside.new) result) }
    ensures count { vec_len outside.new.hands ≡ vec_len outside.old.hands }
    ensures doors { vec_len outside.new.doors ≡ vec_len outside.old.doors }
    ensures rows { vec_len outside.new.links ≡ vec_len outside.old.links }
{
    let select = match Select::new(alloc, line.patterns.include, line.patterns.exclude) {
        Ok(select) => select,
        Err(fault) => return say_unselected(fault, &mut outside.out, &mut outside.err),
    };
    let ServeLine {
        store,
        workers,
        port,
        secs,
        sources,
        upstream: _,
        patterns,
        roots,
    } = line;
    let line = ServeParts {
        store,
        workers,
        port,
        secs,
        patterns,
        folders: (roots, sources),
    };
    run_serve::<X, Rt>(rt, alloc, line, &select, outside)
}
