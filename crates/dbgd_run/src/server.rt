//! The doors of a server over one lock, with passes beside them where there are any.

ghost use Rattle.std.specs.Prelude.{◌≡◌, vec_len};
ghost use Rattle.std.specs.List.{AllZip};
ghost use mathlib.Core.List.{IsPrefix};
ghost use Rattle.path_scope.specs.Scope.{scope_of};
ghost use Rattle.path_canon.specs.Selected.{is_selected};
ghost use Rattle.index_lock.specs.Tokens.{IsLater};
ghost use Rattle.dbgd_commands.specs.Endings.{streams};
ghost use Rattle.dbgd_run.specs.Rounds.{KeepsPassing, pass_stage};
ghost use Rattle.dbgd_run.specs.Serving.{GoesOn, serve_stage};
ghost use Rattle.dbgd_run.specs.Workers.{WorkerServed};

use crate::beside::run_beside;
use crate::crew::Workers;
use crate::door_crew::run_doors;
use crate::passes_end::PassesEnd;
use crate::settings::ServeSettings;
use crate::site::SiteOf;
use crate::threads::{PassLead, PassLeadOf, PassTools, PassToolsOf, PassingOf, SentOf, ThreadSite};
use crate::worker::WorkerOf;
use dbgd_commands::{Handed, Kinds, Staged};
use lock_crew::{seats_in, seats_out};
use path_canon::Matching;
use std::sync::Wait;
use std::thread::Threads;

/// Has the doors of the workers served, and makes one token of all.
fn serve_alone<X: Kinds, Rt: Threads + Wait + Sync>(
    site: &SiteOf<'_, X, Rt>,
    lead: PassLeadOf<'_, '_, X>,
    workers: Workers<'_, X>,
) -> (PassToolsOf<X>, Vec<WorkerOf<X>>)
    ensures later { IsLater lead.entry.tools.seat result.0.seat }
    ensures doors { AllZip (WorkerServed (⟦<Handed<X> as ServeSettings>⟧.doors site.now.folders.now
        workers.entry.book.now.rows)
        X.D.shows X.L.shows lead.entry.tools.seat.seen result.0.seat.seen) workers.entry.all.items result.1.items }
    ensures hands { result.0.hands ≡ lead.entry.tools.hands }
    ensures share { result.0.share ≡ lead.entry.tools.share }
    ensures count { vec_len result.1 ≡ vec_len workers.entry.all }
{
    let PassLead { lock, tools, .. } = lead;
    let PassTools { seat, hands, share } = tools;
    let Workers { book, all, room } = workers;
    let (slots, back) = room;
    let (seat, mut slots) = seats_out(lock, seat, all, slots);
    let shared = ThreadSite { site, lock, book };
    run_doors::<SentOf<X>, X::G, Rt>(&shared, &mut slots);
    let (seat, all) = seats_in(lock, seat, slots, back);
    let tools = PassTools { seat, hands, share };
    (tools, all)
}

/// Has the doors of the workers served while the passes go on, and makes one token of all.
fn serve_beside<X: Kinds, Rt: Threads + Wait + Sync>(
    site: &SiteOf<'_, X, Rt>,
    lead: PassLeadOf<'_, '_, X>,
    workers: Workers<'_, X>,
    select: &mut Matching<'_>,
    clock: &mut X::C,
    out: &mut X::O,
    err: &mut X::O,
) -> (PassToolsOf<X>, Vec<WorkerOf<X>>, PassesEnd)
    ensures later { IsLater lead.entry.tools.seat result.0.seat }
    ensures doors { AllZip (WorkerServed (⟦<Handed<X> as ServeSettings>⟧.doors site.now.folders.now
        workers.entry.book.now.rows)
        X.D.shows X.L.shows lead.entry.tools.seat.seen result.0.seat.seen) workers.entry.all.items result.1.items }
    ensures passes { (log : _) × IsPrefix log result.0.seat.seen × KeepsPassing
        ⟦<Handed<X> as Staged>⟧.setting
        (scope_of site.now.roots.now (is_selected select.old)) site.now.secs
        (pass_stage lead.entry.tools.seat.seen lead.entry.tools.hands.items (X.C.woke clock.old)
        (streams X.O.shows out.old err.old) lead.entry.tools.share) result.2
        (pass_stage log result.0.hands.items (X.C.woke clock.new)
        (streams X.O.shows out.new err.new) result.0.share) }
    ensures hands { vec_len result.0.hands ≡ vec_len lead.entry.tools.hands }
    ensures count { vec_len result.1 ≡ vec_len workers.entry.all }
{
    let PassLead { lock, book, tools } = lead;
    let PassTools { seat, hands, share } = tools;
    let (slots, back) = workers.room;
    let (seat, mut slots) = seats_out(lock, seat, workers.all, slots);
    let shared = ThreadSite {
        site,
        lock,
        book: workers.book,
    };
    let mut going = Some(PassTools { seat, hands, share });
    let end = run_beside::<SentOf<X>, PassingOf<'_, X>, X::G, Rt>(
        &shared, book, &mut going, &mut slots, select, clock, out, err,
    );
    let Some(PassTools { seat, hands, share }) = going else {
        unreachable!()
    };
    let (seat, all) = seats_in(lock, seat, slots, back);
    let tools = PassTools { seat, hands, share };
    (tools, all, end)
}

/// Has the doors of the workers served, with passes beside them where some are to be made.
pub(crate) fn serve_all<X: Kinds, Rt: Threads + Wait + Sync>(
    site: &SiteOf<'_, X, Rt>,
    lead: PassLeadOf<'_, '_, X>,
    workers: Workers<'_, X>,
    passing: bool,
    select: &mut Matching<'_>,
    clock: &mut X::C,
    out: &mut X::O,
    err: &mut X::O,
) -> (PassToolsOf<X>, Vec<WorkerOf<X>>, Option<PassesEnd>)
    ensures later { IsLater lead.entry.tools.seat result.0.seat }
    ensures doors { AllZip (WorkerServed (⟦<Handed<X> as ServeSettings>⟧.doors site.now.folders.now
        workers.entry.book.now.rows)
        X.D.shows X.L.shows lead.entry.tools.seat.seen result.0.seat.seen) workers.entry.all.items result.1.items }
    ensures passes { GoesOn ⟦<Handed<X> as Staged>⟧.setting
        (scope_of site.now.roots.now (is_selected select.old)) site.now.secs passing
        (pass_stage lead.entry.tools.seat.seen lead.entry.tools.hands.items (X.C.woke clock.old)
        (streams X.O.shows out.old err.old) lead.entry.tools.share) result.2 result.0.seat.seen
        (serve_stage result.0.hands.items (X.C.woke clock.new)
        (streams X.O.shows out.new err.new) result.1.items) }
    ensures hands { vec_len result.0.hands ≡ vec_len lead.entry.tools.hands }
    ensures count { vec_len result.1 ≡ vec_len workers.entry.all }
{
    if passing {
        let (tools, all, end) = serve_beside::<X, Rt>(site, lead, workers, select, clock, out, err);
        (tools, all, Some(end))
    } else {
        let (tools, all) = serve_alone::<X, Rt>(site, lead, workers);
        (tools, all, None)
    }
}
