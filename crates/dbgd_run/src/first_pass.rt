//! The first pass of a server, and what follows it.

ghost use Rattle.std.specs.Prelude.{◌≡◌, List, Option, None, vec_len};
ghost use Rattle.path_scope.specs.Scope.{scope_of};
ghost use Rattle.path_canon.specs.Selected.{is_selected};
ghost use Rattle.index_lock.specs.Tokens.{IsLater};
ghost use Rattle.pass_runner.specs.declared.pass_end.PassEnd.{PassEnd};
ghost use Rattle.tree_trait.specs.declared.clock.Waited.{Waited};
ghost use Rattle.dbgd_commands.specs.Endings.{streams};
ghost use Rattle.dbgd_run.specs.Rounds.{pass_stage};
ghost use Rattle.dbgd_run.specs.Serve.{MakesRound};
ghost use Rattle.dbgd_run.specs.Serving.{ServesFrom, goes_on, serve_stage};

use crate::crew::Crew;
use crate::line_fate::LineFate;
use crate::passes_end::PassesEnd;
use crate::rounds::note_pass;
use crate::server::serve_all;
use crate::settings::ServeSettings;
use crate::site::SiteOf;
use crate::threads::{Index, PassLead, PassLeadOf, PassTools, PassToolsOf};
use crate::worker::WorkerOf;
use dbgd_commands::{Handed, Kinds, Staged};
use elf_reading::ElfReader;
use index_lock::{Seat, TurnLock};
use pass_runner::run_pass;
use path_canon::Matching;
use std::sync::Wait;
use std::thread::Threads;

/// Makes the first pass, says how it ended and counts it.
fn pass_first<'a, 'b, X: Kinds, Rt: Threads + Wait + Sync>(
    site: &SiteOf<'_, X, Rt>,
    lead: PassLeadOf<'a, 'b, X>,
    select: &mut Matching<'_>,
    out: &mut X::O,
    err: &mut X::O,
) -> (PassLeadOf<'a, 'b, X>, LineFate)
    ensures later { IsLater lead.entry.tools.seat result.0.tools.seat }
    ensures made { (end : PassEnd) × ((woke : Option (List Waited)) → MakesRound
        ⟦<Handed<X> as Staged>⟧.setting
        (scope_of site.now.roots.now (is_selected select.old))
        (pass_stage lead.entry.tools.seat.seen lead.entry.tools.hands.items woke
        (streams X.O.shows out.old err.old) lead.entry.tools.share)
        (record {
          end = end;
          fate = result.1;
          after = pass_stage result.0.tools.seat.seen
              result.0.tools.hands.items woke (streams X.O.shows out.new err.new) result.0.tools.share;
        })) }
    ensures hands { vec_len result.0.tools.hands ≡ vec_len lead.entry.tools.hands }
    ensures select { is_selected select.new ≡ is_selected select.old }
{
    let PassLead { lock, book, tools } = lead;
    let PassTools { seat, hands, share } = tools;
    let mut share = share;
    let (seat, hands, end) = run_pass(
        site.rt, site.alloc, lock, seat, hands, site.roots, select, &ElfReader, site.gate,
    );
    let fate = note_pass(site.alloc, end, book, &mut share, out, err);
    let tools = PassTools { seat, hands, share };
    (PassLead { lock, book, tools }, fate)
}

/// Whether passes are to be made behind the first one: where there is time between them, and its
/// line could be made.
fn goes_on(secs: u64, fate: LineFate) -> bool
    ensures { result ≡ goes_on secs fate }
{
    match fate {
        LineFate::Written | LineFate::Cut => secs > 0,
        LineFate::Unmade => false,
    }
}

/// Makes the first pass, and then has the doors served, with passes beside them unless there is no time
/// between them, or memory for the first one's line was refused.
pub(crate) fn serve_from<X: Kinds, Rt: Threads + Wait + Sync>(
    site: &SiteOf<'_, X, Rt>,
    lock: &TurnLock<Index<X>>,
    seat: Seat<Index<X>>,
    crew: Crew<'_, X>,
    clock: &mut X::C,
    out: &mut X::O,
    err: &mut X::O,
) -> (
    PassToolsOf<X>,
    Vec<WorkerOf<X>>,
    LineFate,
    Option<PassesEnd>,
)
    requires lock { seat.lock ≡ lock.now }
    requires spared { seat.origin.sparing ≡ None }
    ensures later { IsLater seat result.0.seat }
    ensures serves { ServesFrom (⟦<Handed<X> as ServeSettings>⟧.setting
        (scope_of site.now.roots.now (is_selected crew.entry.select)) site.now.secs site.now.folders.now crew.entry.workers.book.now.rows)
        (pass_stage seat.seen crew.entry.hands.items (X.C.woke clock.old)
        (streams X.O.shows out.old err.old) crew.entry.share) crew.entry.workers.all.items result.2 result.3
        result.0.seat.seen
        (serve_stage result.0.hands.items (X.C.woke clock.new)
        (streams X.O.shows out.new err.new) result.1.items) }
    ensures hands { vec_len result.0.hands ≡ vec_len crew.entry.hands }
    ensures count { vec_len result.1 ≡ vec_len crew.entry.workers.all }
{
    let Crew {
        hands,
        select,
        share,
        workers,
    } = crew;
    let tools = PassTools { seat, hands, share };
    let mut select = select;
    let book = workers.book;
    let lead = PassLead { lock, book, tools };
    let (lead, fate) = pass_first::<X, Rt>(site, lead, &mut select, out, err);
    let passing = goes_on(site.secs, fate);
    let (tools, workers, how) = serve_all::<X, Rt>(
        site,
        lead,
        workers,
        passing,
        &mut select,
        clock,
        out,
        err,
    );
    (tools, workers, fate, how)
}
