//! One event of an index, other than its reopening.

ghost use Rattle.std.specs.Prelude.{◌≢◌, IfOk, MatchResult};
ghost use Rattle.index_events.specs.Events.{AnswersEvent, WantsFor};
ghost use Rattle.index_events.specs.declared.events.Event.{Event};

use crate::events::{Event, EventAnswer};
use index_keeper::Keeper;
use index_state::{Begun, Judged, Published, State};
use path_canon::Select;
use row_types::{BuildId, CanonPath, Kind, Name, TrueRow, Truth};
use scan_queue::{Listing, Seen};
use std::alloc::{AllocError, Global};

/// Makes the event, which is no reopening, happen to the index.
pub(crate) fn call_event<W: Truth, K: Keeper<W>>(
    alloc: Global,
    state: &mut State<W, K>,
    event: Event<W>,
) -> Result<EventAnswer, AllocError>
    requires { event ≢ Event.Reopen }
    ensures { MatchResult result
        (λ answer. AnswersEvent K.told K.shows state.old event answer state.new)
        (λ _. WantsFor K.told K.shows state.old event state.new) }
{
    match event {
        Event::Begin(listing, roots, select) => begin(alloc, state, listing, roots, select),
        Event::Take => Ok(EventAnswer::Take(state.take())),
        Event::Publish(row) => publish(alloc, state, row),
        Event::GroomTake => Ok(EventAnswer::GroomTake(state.groom_take())),
        Event::Judge(name, seen) => judge(alloc, state, &name, seen),
        Event::Miss(name, cause) => Ok(EventAnswer::Miss(state.miss(&name, cause))),
        Event::Retry => retry(state),
        Event::Look(id, kind) => look(alloc, state, &id, kind),
        Event::Reopen => unreachable!(),
    }
}

/// A pass begins.
fn begin<W: Truth, K: Keeper<W>>(
    alloc: Global,
    state: &mut State<W, K>,
    listing: Listing,
    roots: Vec<CanonPath>,
    select: Select,
) -> Result<EventAnswer, AllocError>
    ensures { MatchResult result
        (λ answer. AnswersEvent {W = W} K.told K.shows state.old (Event.Begin listing roots select) answer
        state.new)
        (λ _. WantsFor {W = W} K.told K.shows state.old (Event.Begin listing roots select) state.new) }
{
    let mut select = select;
    match state.begin(alloc, listing, roots, &mut select) {
        Begun::OutOfMemory => Err(AllocError),
        begun => Ok(EventAnswer::Begin(begun)),
    }
}

/// A row is published.
fn publish<W: Truth, K: Keeper<W>>(
    alloc: Global,
    state: &mut State<W, K>,
    row: TrueRow<W>,
) -> Result<EventAnswer, AllocError>
    ensures { MatchResult result
        (λ answer. AnswersEvent {W = W} K.told K.shows state.old (Event.Publish row) answer state.new)
        (λ _. WantsFor {W = W} K.told K.shows state.old (Event.Publish row) state.new) }
{
    match state.publish(alloc, row) {
        Published::OutOfMemory => Err(AllocError),
        said => Ok(EventAnswer::Publish(said)),
    }
}

/// A name is judged.
fn judge<W: Truth, K: Keeper<W>>(
    alloc: Global,
    state: &mut State<W, K>,
    name: &Name,
    seen: Seen,
) -> Result<EventAnswer, AllocError>
    ensures { MatchResult result
        (λ answer. AnswersEvent {W = W} K.told K.shows state.old (Event.Judge name.now seen) answer
        state.new)
        (λ _. WantsFor {W = W} K.told K.shows state.old (Event.Judge name.now seen) state.new) }
{
    match state.judge(alloc, name, seen) {
        Judged::OutOfMemory => Err(AllocError),
        said => Ok(EventAnswer::Judge(said)),
    }
}

/// The names that are out or missed get their copies, and are tried again.
fn retry<W: Truth, K: Keeper<W>>(state: &mut State<W, K>) -> Result<EventAnswer, AllocError>
    ensures { MatchResult result
        (λ answer. AnswersEvent {W = W} K.told K.shows state.old Event.Retry answer state.new)
        (λ _. WantsFor {W = W} K.told K.shows state.old Event.Retry state.new) }
{
    state.refill()?;
    Ok(EventAnswer::Retry(state.retry()))
}

/// Files are looked up.
fn look<W: Truth, K: Keeper<W>>(
    alloc: Global,
    state: &State<W, K>,
    id: &BuildId,
    kind: Kind,
) -> Result<EventAnswer, AllocError>
    ensures { IfOk result (λ answer. AnswersEvent {W = W} K.told K.shows state.now
        (Event.Look id.now kind) answer state.now) }
{
    let mut paths = Vec::new(alloc);
    for row in state.with_class(id, kind) {
        paths.push(row.name.path.copy(alloc)?)?;
    }
    Ok(EventAnswer::Look(paths))
}
