//! Doors and passes side by side.

ghost use Rattle.std.specs.Prelude.{◌≡◌, ◌<◌, All, None, vec_len};
ghost use Rattle.std.specs.List.{AllZip};
ghost use Rattle.row_types.specs.Rules.{rules};
ghost use Rattle.path_scope.specs.Scope.{scope_of};
ghost use Rattle.index_lock.specs.Tokens.{IsLater};
ghost use Rattle.lock_crew.specs.Runs.{SlotHas, SlotRan};
ghost use Rattle.conn_server.specs.Stage.{conn_setting};
ghost use Rattle.conn_server.specs.Tallied.{HasRowIn};
ghost use Rattle.dbgd_commands.specs.Endings.{streams};
ghost use Rattle.dbgd_commands.specs.Stage.{setting};
ghost use Rattle.dbgd_run.specs.Beside.{DoesWork, TakesWork};
ghost use Rattle.dbgd_run.specs.Rounds.{KeepsPassing, pass_stage};
ghost use Rattle.dbgd_run.specs.Workers.{RunsWorker};

use crate::door_crew::run_doors;
use crate::passes_end::PassesEnd;
use crate::rounds::keep_passing;
use crate::threads::{PassKinds, PassTools, ThreadKinds, ThreadSite};
use crate::worker::WorkerSlot;
use dbgd_metrics::Book;
use elf_reading::ElfReader;
use std::sync::Wait;
use std::thread::{Threads, join_mut};
use tree_trait::Gate;

/// Runs the one beside the other, and waits for both.
fn beside<X: Send, E, F: Fn(&mut X) + Sync, H: FnMut() -> E, Rt: Threads>(
    rt: &Rt,
    work: &mut X,
    f: &F,
    other: &mut H,
) -> E
    requires work { TakesWork F.Fn f.now work.old }
    requires other { H.pre other.old }
    ensures work { DoesWork F.Fn f.now work.old work.new }
    ensures other { H.step other.old result other.new }
{
    let mut first = ||
        requires { TakesWork F.Fn f.now work.now }
        ensures { DoesWork F.Fn f.entry.now work.entry.now work.exit.now }
    { f(work) };
    let ((), end) = join_mut(rt, &mut first, other);
    end
}

/// Makes passes between waits with what the passes go on with.
fn lead_passes<Y: ThreadKinds, Z: PassKinds, G: Gate, Rt: Threads + Wait + Sync>(
    shared: &ThreadSite<'_, Y::W, Y::K, G, Rt>,
    book: &Book,
    going: &mut Option<PassTools<Y::W, Y::K, Y::T>>,
    select: &mut Z::P,
    clock: &mut Z::C,
    out: &mut Z::O,
    err: &mut Z::O,
) -> PassesEnd
    requires { SlotHas (λ tools. (tools.seat.lock ≡ shared.now.lock.now) × (tools.seat.origin.sparing ≡ None)
        × (0 < vec_len tools.hands) × HasRowIn book.now tools.share) going.old }
    ensures { SlotRan (λ before after. IsLater before.seat after.seat
        × KeepsPassing
        (setting (rules Y.W.version Y.W.true_row Y.W.told) Y.T.told Y.T.shows Y.K.told)
        (scope_of shared.now.site.now.roots.now (Z.P.takes select.old)) shared.now.site.now.secs
        (pass_stage before.seat.seen before.hands.items (Z.C.woke clock.old)
        (streams Z.O.shows out.old err.old) before.share) result
        (pass_stage after.seat.seen after.hands.items (Z.C.woke clock.new)
        (streams Z.O.shows out.new err.new) after.share)
        × (vec_len after.hands ≡ vec_len before.hands)) going.old going.new }
{
    let Some(tools) = going.take() else {
        unreachable!()
    };
    let PassTools { seat, hands, share } = tools;
    let mut share = share;
    let site = shared.site;
    let (seat, hands, end) = keep_passing(
        site.rt,
        site.alloc,
        shared.lock,
        seat,
        hands,
        site.roots,
        select,
        &ElfReader,
        clock,
        site.secs,
        book,
        &mut share,
        out,
        err,
        site.gate,
    );
    *going = Some(PassTools { seat, hands, share });
    end
}

/// Has the doors of the slots served while the passes go on, and waits for all. Where no thread can
/// be made the doors are served behind the passes.
pub(crate) fn run_beside<Y: ThreadKinds, Z: PassKinds, G: Gate, Rt: Threads + Wait + Sync>(
    shared: &ThreadSite<'_, Y::W, Y::K, G, Rt>,
    book: &Book,
    going: &mut Option<PassTools<Y::W, Y::K, Y::T>>,
    slots: &mut Vec<Option<WorkerSlot<Y>>>,
    select: &mut Z::P,
    clock: &mut Z::C,
    out: &mut Z::O,
    err: &mut Z::O,
) -> PassesEnd
    requires going { SlotHas (λ tools. (tools.seat.lock ≡ shared.now.lock.now)
        × (tools.seat.origin.sparing ≡ None)
        × (0 < vec_len tools.hands) × HasRowIn book.now tools.share) going.old }
    requires slots { All (SlotHas (λ slot. (slot.seat.lock ≡ shared.now.lock.now)
        × HasRowIn shared.now.book.now slot.place.share)) slots.old.items }
    ensures going { SlotRan (λ before after. IsLater before.seat after.seat
        × KeepsPassing
        (setting (rules Y.W.version Y.W.true_row Y.W.told) Y.T.told Y.T.shows Y.K.told)
        (scope_of shared.now.site.now.roots.now (Z.P.takes select.old)) shared.now.site.now.secs
        (pass_stage before.seat.seen before.hands.items (Z.C.woke clock.old)
        (streams Z.O.shows out.old err.old) before.share) result
        (pass_stage after.seat.seen after.hands.items (Z.C.woke clock.new)
        (streams Z.O.shows out.new err.new) after.share)
        × (vec_len after.hands ≡ vec_len before.hands)) going.old going.new }
    ensures ran { AllZip (SlotRan (λ before after. IsLater before.seat after.seat
        × RunsWorker
        (conn_setting Y.W.true_row Y.T.told Y.W.version Y.T.shows shared.now.site.now.folders.now shared.now.book.now.rows)
        Y.D.shows Y.L.shows before.seat before.place after.seat after.place)) slots.old.items slots.new.items }
    ensures locks { All (SlotHas (λ slot. slot.seat.lock ≡ shared.now.lock.now)) slots.new.items }
    ensures count { vec_len slots.new ≡ vec_len slots.old }
{
    let serving = |slots: &mut Vec<Option<WorkerSlot<Y>>>|
        requires { All (SlotHas (λ slot. (slot.seat.lock ≡ shared.now.lock.now)
            × HasRowIn shared.now.book.now slot.place.share)) slots.now.items }
        ensures { AllZip (SlotRan (λ before after. IsLater before.seat after.seat
            × RunsWorker
            (conn_setting Y.W.true_row Y.T.told Y.W.version Y.T.shows shared.entry.now.site.now.folders.now
            shared.entry.now.book.now.rows)
            Y.D.shows Y.L.shows before.seat before.place after.seat after.place))
            slots.entry.now.items slots.exit.now.items
            × All (SlotHas (λ slot. slot.seat.lock ≡ shared.entry.now.lock.now)) slots.exit.now.items
            × (vec_len slots.exit.now ≡ vec_len slots.entry.now) }
    { run_doors::<Y, G, Rt>(shared, slots) };
    let mut passing = || -> PassesEnd
        requires { SlotHas (λ tools. (tools.seat.lock ≡ shared.now.lock.now)
            × (tools.seat.origin.sparing ≡ None)
            × (0 < vec_len tools.hands) × HasRowIn book.now tools.share) going.now }
        ensures { SlotRan (λ before after. IsLater before.seat after.seat
            × KeepsPassing
            (setting (rules Y.W.version Y.W.true_row Y.W.told) Y.T.told Y.T.shows Y.K.told)
            (scope_of shared.entry.now.site.now.roots.now (Z.P.takes select.entry.now)) shared.entry.now.site.now.secs
            (pass_stage before.seat.seen before.hands.items (Z.C.woke clock.entry.now)
            (streams Z.O.shows out.entry.now err.entry.now) before.share) result
            (pass_stage after.seat.seen after.hands.items (Z.C.woke clock.exit.now)
            (streams Z.O.shows out.exit.now err.exit.now) after.share)
            × (vec_len after.hands ≡ vec_len before.hands)) going.entry.now going.exit.now }
    { lead_passes::<Y, Z, G, Rt>(shared, book, going, select, clock, out, err) };
    beside(shared.site.rt, slots, &serving, &mut passing)
}
