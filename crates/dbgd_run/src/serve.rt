//! The command `serve`.

ghost use Rattle.std.specs.Prelude.{◌≡◌, ◌+◌, ◌*◌, ◌≤◌, ◌++◌, List, All, IfOk, OnErr, length, vec_len};
ghost use Rattle.federation.specs.Server.{ServerFacts};
ghost use Rattle.dbgd_words.specs.Limits.{IsServeFit};
ghost use Rattle.dbgd_words.specs.Patterns.{pattern_texts};
ghost use Rattle.dbgd_run.specs.Selecting.{selection_of};
ghost use Rattle.dbgd_run.specs.Serve.{RunsServe, serve_words};

use crate::crew::{dismiss, hire};
use crate::serve_said::{say_serve_end, serving_line};
use crate::serving::serve_store;
use crate::shares::new_shares;
use crate::site::Site;
use dbgd_commands::{Handed, Kinds, Staged, Status, say_no_memory};
use dbgd_words::Patterns;
use path_canon::Select;
use row_types::CanonPath;
use std::alloc::{AllocError, Global};
use std::sync::Wait;
use std::thread::Threads;

/// What the words of a server ask; which other servers stands in the rows of links.
#[derive(Drop)]
pub(crate) struct ServeParts<'a> {
    pub(crate) store: &'a str,
    pub(crate) workers: u64,
    pub(crate) port: u64,
    pub(crate) secs: u64,
    pub(crate) patterns: Patterns<'a>,
    /// Those that are scanned, and those for sources alone.
    pub(crate) folders: (Vec<CanonPath>, Vec<CanonPath>),
}

/// The folders of sources: those that are scanned, and behind them those for sources alone.
fn joined(both: (Vec<CanonPath>, Vec<CanonPath>)) -> Result<Vec<CanonPath>, AllocError>
    ensures { IfOk result (λ folders. folders.items ≡ both.0.items ++ both.1.items) }
{
    let (mut folders, mut sources) = both;
    folders.append(&mut sources)?;
    Ok(folders)
}

/// Makes and hires what a server wants, serves by the files that are selected, says how that ended, and
/// dismisses all, unless there is no memory for that.
fn serve_line<X: Kinds, Rt: Threads + Wait + Sync>(
    rt: &Rt,
    alloc: Global,
    line: ServeParts<'_>,
    select: &Select,
    outside: &mut Handed<X>,
) -> Result<Status, AllocError>
    requires hands { line.workers * 2 + 2 ≤ vec_len outside.old.hands }
    requires doors { vec_len outside.old.doors ≡ line.workers }
    requires links { line.workers ≤ vec_len outside.old.links }
    requires fits { IsServeFit line.workers line.port line.secs }
    requires select { select.now ≡ selection_of (pattern_texts line.patterns) }
    ensures runs { IfOk result (λ status. (upstream : List ServerFacts)
        → All (λ row. length row.items ≡ length upstream) outside.old.links.items → RunsServe
        ⟦<Handed<X> as Staged>⟧.setting
        (serve_words line.entry.store.now line.entry.workers line.entry.port line.entry.secs line.entry.folders.1.items
        upstream (pattern_texts line.entry.patterns) line.entry.folders.0.items)
        (⟦<Handed<X> as Staged>⟧.stage outside.old)
        (⟦<Handed<X> as Staged>⟧.stage outside.new) status) }
    ensures err { OnErr result (outside.new ≡ outside.old) }
    ensures count { vec_len outside.new.hands ≡ vec_len outside.old.hands }
    ensures doors { vec_len outside.new.doors ≡ vec_len outside.old.doors }
    ensures rows { vec_len outside.new.links ≡ vec_len outside.old.links }
{
    let text = serving_line(alloc, line.port, line.workers)?;
    let scanned = line.folders.0.len();
    let folders = joined(line.folders)?;
    let folders = folders.as_slice();
    let (book, shares) = new_shares(rt, alloc, line.workers)?;
    let matching = (&*select).matching(alloc)?;
    let (hands, doors, links) = (&mut outside.hands, &mut outside.doors, &mut outside.links);
    let (crew, rest) = hire::<X>(alloc, matching, &book, shares, hands, doors, links)?;
    let site = Site {
        rt,
        alloc,
        path: line.store,
        line: text.as_str(),
        roots: &folders[..scanned],
        folders,
        secs: line.secs,
        doors: line.workers,
        gate: &outside.gate,
    };
    let (out, err) = (&mut outside.out, &mut outside.err);
    let (store, clock) = (&mut outside.store, &mut outside.clock);
    let back = serve_store::<X, Rt>(&site, store, crew, clock, out, err);
    let status = say_serve_end(&back.end, back.workers.as_slice(), out, err);
    let (hands, doors) = (&mut outside.hands, &mut outside.doors);
    dismiss::<X>(back, rest, hands, doors, &mut outside.links);
    Ok(status)
}

/// Serves the index in a store by so many workers: the store is opened, a first pass is made, and then
/// each worker serves a door of its own, with a row of links of its own, while a pass is made after each
/// wait. Hands, doors and rows of links come back in their order.
pub(crate) fn run_serve<X: Kinds, Rt: Threads + Wait + Sync>(
    rt: &Rt,
    alloc: Global,
    line: ServeParts<'_>,
    select: &Select,
    outside: &mut Handed<X>,
) -> Status
    requires hands { line.workers * 2 + 2 ≤ vec_len outside.old.hands }
    requires doors { vec_len outside.old.doors ≡ line.workers }
    requires links { line.workers ≤ vec_len outside.old.links }
    requires fits { IsServeFit line.workers line.port line.secs }
    requires select { select.now ≡ selection_of (pattern_texts line.patterns) }
    ensures runs { (upstream : List ServerFacts)
        → All (λ row. length row.items ≡ length upstream) outside.old.links.items → RunsServe
        ⟦<Handed<X> as Staged>⟧.setting
        (serve_words line.entry.store.now line.entry.workers line.entry.port line.entry.secs line.entry.folders.1.items
        upstream (pattern_texts line.entry.patterns) line.entry.folders.0.items)
        (⟦<Handed<X> as Staged>⟧.stage outside.old)
        (⟦<Handed<X> as Staged>⟧.stage outside.new) result }
    ensures count { vec_len outside.new.hands ≡ vec_len outside.old.hands }
    ensures doors { vec_len outside.new.doors ≡ vec_len outside.old.doors }
    ensures rows { vec_len outside.new.links ≡ vec_len outside.old.links }
{
    match serve_line::<X, Rt>(rt, alloc, line, select, outside) {
        Ok(status) => status,
        Err(_) => say_no_memory(&mut outside.out, &mut outside.err),
    }
}
