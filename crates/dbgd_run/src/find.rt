//! The command `find`.

ghost use Rattle.std.specs.Prelude.{◌≡◌, vec_len};
ghost use Rattle.dbgd_commands.specs.Endings.{Gets, fault_saying};
ghost use Rattle.dbgd_commands.specs.Stage.{rows_shown};
ghost use Rattle.dbgd_commands.specs.declared.status.Status.TheVariants.{Fault};
ghost use Rattle.dbgd_run.specs.Find.{FindsFirst, RunsFind, SaysFound};

use dbgd_commands::{Handed, Kinds, Staged, Status, tell};
use dbgd_words::FindLine;
use federation::Link;
use find_client::{Cache, FindEnd, find};
use http_wire::Sink;
use std::alloc::Global;
use std::sync::Wait;
use webapi_routes::Route;

/// Looks for what a route names in the cache and then on the links of the first row, if there is one, and
/// writes it.
fn find_by<H: Cache, L: Link, O: Sink, Rt: Wait + Sync>(
    rt: &Rt,
    alloc: Global,
    route: &Route,
    cache: &mut H,
    rows: &mut Vec<Vec<L>>,
    out: &mut O,
) -> FindEnd
    ensures found { FindsFirst route.now
        (H.shows cache.old) (rows_shown L.shows rows.old.items) (O.shows out.old)
        (H.shows cache.new) (rows_shown L.shows rows.new.items) (O.shows out.new) result }
    ensures count { vec_len rows.new ≡ vec_len rows.old }
{
    if rows.is_empty() {
        let mut none: Vec<L> = Vec::new(alloc);
        return find(rt, alloc, route, cache, none.as_mut_slice(), out);
    }
    find(rt, alloc, route, cache, rows[0].as_mut_slice(), out)
}

/// Says that a call of an object of the outside failed.
fn say_failed<O: Sink>(what: &str, err: &mut O) -> Status
    ensures ends { result ≡ Fault }
    ensures err { Gets (fault_saying what.now).err (O.shows err.old) (O.shows err.new) }
{
    tell(err, "dbgd: fault ", what);
    Status::Fault
}

/// Says how a search ended, and gives the status.
fn say_found<O: Sink>(end: FindEnd, err: &mut O) -> Status
    ensures { SaysFound end (O.shows err.old) (O.shows err.new) result }
{
    match end {
        FindEnd::Cached | FindEnd::Fetched => Status::Done,
        FindEnd::NotKept => say_failed("cache", err),
        FindEnd::CacheFault => say_failed("cache", err),
        FindEnd::LinkFault => say_failed("upstream", err),
        FindEnd::WriteFault => say_failed("output", err),
        FindEnd::Nothing => {
            tell(err, "dbgd: nothing found", "");
            Status::Absent
        }
        FindEnd::OutOfMemory => {
            tell(err, "dbgd: out of memory", "");
            Status::OutOfMemory
        }
    }
}

/// Writes what a line asks for, from the cache or from the links of the first row, and says how that
/// ended.
pub(crate) fn run_find<X: Kinds, Rt: Wait + Sync>(
    rt: &Rt,
    alloc: Global,
    line: FindLine<'_>,
    outside: &mut Handed<X>,
) -> Status
    ensures runs { RunsFind line.entry.route
        (⟦<Handed<X> as Staged>⟧.stage outside.old) (⟦<Handed<X> as Staged>⟧.stage outside.new) result }
    ensures hands { vec_len outside.new.hands ≡ vec_len outside.old.hands }
    ensures doors { vec_len outside.new.doors ≡ vec_len outside.old.doors }
    ensures links { vec_len outside.new.links ≡ vec_len outside.old.links }
{
    let (cache, rows) = (&mut outside.cache, &mut outside.links);
    let end = find_by::<X::H, X::L, X::O, Rt>(
        rt,
        alloc,
        &line.route,
        cache,
        rows,
        &mut outside.out,
    );
    say_found(end, &mut outside.err)
}
