//! The top call: all that the program does with what is handed in.

ghost use Rattle.std.specs.Prelude.{◌≡◌, ◌⊎◌, drop, false, map, true, vec_len, IfNone, IfSome};
ghost use Rattle.std.specs.String.{string_bytes};
ghost use Rattle.row_types.specs.Rules.{rules};
ghost use Rattle.dbgd_words.specs.Limits.{FitsLimits};
ghost use Rattle.dbgd_words.specs.Lines.{asked_by};
ghost use Rattle.dbgd_words.specs.Words.{line_of};
ghost use Rattle.dbgd_commands.specs.Endings.{streams};
ghost use Rattle.dbgd_commands.specs.Stage.{command_stage, rows_shown, setting, stage};
ghost use Rattle.dbgd_commands.specs.Statuses.{code_of};
ghost use Rattle.dbgd_commands.specs.declared.status.Status.TheVariants.{OutOfMemory};
ghost use Rattle.dbgd_run.specs.Needs.{HasEnough, HasHand};
ghost use Rattle.dbgd_run.specs.Runs.{DoesLine, DoesWords, IsProgramRun, Runs, waits_for_others};

use crate::find::run_find;
use crate::refusal::say_usage;
use crate::selecting::{scan_selected, serve_selected};
use dbgd_commands::{
    Handed, Kinds, Of, Outside, Staged, Status, run_ident, run_query, run_section, run_sources,
    run_trial, say, say_no_memory,
};
use dbgd_words::{Line, read_line};
use elf_reading::ElfTruth;
use federation::Link;
use find_client::Cache;
use http_wire::{Door, Sink};
use index_keeper::Store;
use std::alloc::Global;
use std::sync::Wait;
use std::thread::Threads;
use tree_trait::{Clock, Gate, Tree};

/// Does what a line of words asks that waits for nobody.
fn run_alone<X: Kinds>(alloc: Global, line: Line<'_>, outside: &mut Handed<X>) -> Status
    requires hand { HasHand (asked_by line) (vec_len outside.old.hands) }
    requires alone { waits_for_others (asked_by line) ≡ false }
    ensures law { Runs
        ⟦<Handed<X> as Staged>⟧.setting
        (asked_by line.entry)
        (⟦<Handed<X> as Staged>⟧.stage outside.old).command
        (⟦<Handed<X> as Staged>⟧.stage outside.new).command result }
    ensures hands { vec_len outside.new.hands ≡ vec_len outside.old.hands }
    ensures others { drop 1 outside.new.hands.items ≡ drop 1 outside.old.hands.items }
    ensures rest { (outside.new.doors ≡ outside.old.doors) × (outside.new.links ≡ outside.old.links)
        × (outside.new.clock ≡ outside.old.clock) × (outside.new.cache ≡ outside.old.cache) }
{
    let out = &mut outside.out;
    let err = &mut outside.err;
    match line {
        Line::Ident { path } => run_ident::<X::W, X::T, X::O>(
            alloc,
            path,
            &mut outside.hands[0],
            out,
            err,
        ),
        Line::Sources { path } => run_sources::<X::W, X::T, X::O>(
            alloc,
            path,
            &mut outside.hands[0],
            out,
            err,
        ),
        Line::Section { path, name } => {
            run_section::<X::W, X::T, X::O>(alloc, path, name, &mut outside.hands[0], out, err)
        }
        Line::Query { store, id } => {
            run_query::<X::W, X::S, X::O>(alloc, store, &id, &mut outside.store, out, err)
        }
        Line::Scan(_) | Line::Serve(_) | Line::Find(_) | Line::Trial { .. } => unreachable!(),
        Line::Program { text } => say(text.as_bytes(), Status::Done, out, err),
        Line::Help { text } => say(text.as_bytes(), Status::Done, out, err),
        Line::Usage => say_usage(out, err),
    }
}

/// Does what a line of words asks.
fn run_line<X: Kinds, Rt: Threads + Wait + Sync>(
    rt: &Rt,
    alloc: Global,
    line: Line<'_>,
    outside: &mut Handed<X>,
) -> Status
    requires hand { HasHand (asked_by line) (vec_len outside.old.hands) }
    requires fits { FitsLimits (asked_by line) }
    requires enough { HasEnough (asked_by line) (vec_len outside.old.hands)
        (vec_len outside.old.doors) outside.old.links.items }
    ensures law { DoesLine
        ⟦<Handed<X> as Staged>⟧.setting
        (asked_by line.entry)
        (⟦<Handed<X> as Staged>⟧.stage outside.old)
        (⟦<Handed<X> as Staged>⟧.stage outside.new) result }
    ensures hands { vec_len outside.new.hands ≡ vec_len outside.old.hands }
    ensures doors { vec_len outside.new.doors ≡ vec_len outside.old.doors }
    ensures links { vec_len outside.new.links ≡ vec_len outside.old.links }
{
    match line {
        Line::Scan(line) => scan_selected::<X, Rt>(rt, alloc, &line, outside),
        Line::Serve(line) => serve_selected::<X, Rt>(rt, alloc, line, outside),
        Line::Find(line) => run_find::<X, Rt>(rt, alloc, line, outside),
        Line::Trial {
            seed,
            files,
            workers,
        } => run_trial::<X, Rt>(rt, alloc, seed, files, workers, outside),
        line => run_alone::<X>(alloc, line, outside),
    }
}

/// Does what words ask.
fn run_words<X: Kinds, Rt: Threads + Wait + Sync>(
    rt: &Rt,
    alloc: Global,
    words: &[String],
    outside: &mut Handed<X>,
) -> Status
    requires hand { HasHand (line_of (map string_bytes words.now)) (vec_len outside.old.hands) }
    requires enough { HasEnough (line_of (map string_bytes words.now))
        (vec_len outside.old.hands) (vec_len outside.old.doors) outside.old.links.items }
    ensures law { DoesWords
        (setting (rules X.W.version X.W.true_row X.W.told) X.T.told X.T.shows X.S.K.told)
        (map string_bytes words.now) (⟦<Handed<X> as Staged>⟧.stage outside.old)
        (⟦<Handed<X> as Staged>⟧.stage outside.new) result }
    ensures hands { vec_len outside.new.hands ≡ vec_len outside.old.hands }
    ensures doors { vec_len outside.new.doors ≡ vec_len outside.old.doors }
    ensures links { vec_len outside.new.links ≡ vec_len outside.old.links }
{
    match read_line(alloc, words) {
        Ok(line) => run_line::<X, Rt>(rt, alloc, line, outside),
        Err(_) => say_no_memory(&mut outside.out, &mut outside.err),
    }
}

/// Does what the words after the program's name ask, and gives the exit status, unless they ask for
/// a scan, of folders or of generated files, for a server or for a search. Then nothing was read or
/// written. Where a hand is needed there is one.
pub fn run_local<
    W: ElfTruth + Send + Sync,
    T: Tree<W>,
    S: Store<W>,
    D: Door,
    L: Link,
    C: Clock + Drop,
    O: Sink,
    G: Gate + Drop,
    H: Cache + Drop,
>(alloc: Global, words: &[String], outside: &mut Outside<W, T, S, D, L, C, O, G, H>) -> Option<u8>
    requires { HasHand (line_of (map string_bytes words.now)) (vec_len outside.old.hands) }
    ensures none { IfNone result (waits_for_others (line_of (map string_bytes words.now)) ≡ true) }
    ensures some { IfSome result (λ code. (waits_for_others (line_of (map string_bytes words.now)) ≡ false)
        ⊎ (code ≡ code_of OutOfMemory)) }
    ensures idle { IfNone result (outside.new ≡ outside.old) }
    ensures run { IfSome result (IsProgramRun
        (setting (rules W.version W.true_row W.told) T.told T.shows S.K.told)
        (map string_bytes words.now)
        (stage (command_stage outside.old.hands.items (S.shows outside.old.store)
        (streams O.shows outside.old.out outside.old.err))
        (map D.shows outside.old.doors.items) (rows_shown L.shows outside.old.links.items)
        (C.woke outside.old.clock) (H.shows outside.old.cache))
        (stage (command_stage outside.new.hands.items (S.shows outside.new.store)
        (streams O.shows outside.new.out outside.new.err))
        (map D.shows outside.new.doors.items) (rows_shown L.shows outside.new.links.items)
        (C.woke outside.new.clock) (H.shows outside.new.cache))) }
    ensures hands { vec_len outside.new.hands ≡ vec_len outside.old.hands }
    ensures others { drop 1 outside.new.hands.items ≡ drop 1 outside.old.hands.items }
{
    match read_line(alloc, words) {
        Ok(Line::Scan(_) | Line::Serve(_) | Line::Find(_) | Line::Trial { .. }) => None,
        Ok(line) => Some(run_alone::<Of<W, T, S, D, L, C, O, G, H>>(alloc, line, outside).code()),
        Err(_) => Some(say_no_memory(&mut outside.out, &mut outside.err).code()),
    }
}

/// Does all that the program does, and gives the exit status. Where a hand is needed there is one. Where
/// doors are needed there are exactly these, and the hands and the rows of links that are needed, or
/// more; each row has a link for each of the other servers that are asked. A search asks the links of the
/// first row, if there is one.
pub fn run<
    W: ElfTruth + Send + Sync,
    T: Tree<W>,
    S: Store<W>,
    D: Door,
    L: Link,
    C: Clock + Drop,
    O: Sink,
    G: Gate + Drop,
    H: Cache + Drop,
    Rt: Threads + Wait + Sync,
>(rt: &Rt, alloc: Global, words: &[String], outside: &mut Outside<W, T, S, D, L, C, O, G, H>) -> u8
    requires hand { HasHand (line_of (map string_bytes words.now)) (vec_len outside.old.hands) }
    requires enough { HasEnough (line_of (map string_bytes words.now))
        (vec_len outside.old.hands) (vec_len outside.old.doors) outside.old.links.items }
    ensures run { IsProgramRun (setting (rules W.version W.true_row W.told) T.told T.shows S.K.told)
        (map string_bytes words.now)
        (stage (command_stage outside.old.hands.items (S.shows outside.old.store)
        (streams O.shows outside.old.out outside.old.err))
        (map D.shows outside.old.doors.items) (rows_shown L.shows outside.old.links.items)
        (C.woke outside.old.clock) (H.shows outside.old.cache))
        (stage (command_stage outside.new.hands.items (S.shows outside.new.store)
        (streams O.shows outside.new.out outside.new.err))
        (map D.shows outside.new.doors.items) (rows_shown L.shows outside.new.links.items)
        (C.woke outside.new.clock) (H.shows outside.new.cache)) result }
    ensures hands { vec_len outside.new.hands ≡ vec_len outside.old.hands }
    ensures doors { vec_len outside.new.doors ≡ vec_len outside.old.doors }
    ensures links { vec_len outside.new.links ≡ vec_len outside.old.links }
{
    run_words::<Of<W, T, S, D, L, C, O, G, H>, Rt>(rt, alloc, words, outside).code()
}
