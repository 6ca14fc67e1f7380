//! Lists of events.

ghost use Rattle.std.specs.Prelude.{◌≢◌};
ghost use Rattle.row_types.specs.Faults.{HasCause};
ghost use Rattle.index_events.specs.EventParts.{Called, ComesOfEvent};
ghost use Rattle.index_events.specs.Events.{EndsEvents, MeetsFault};
ghost use Rattle.index_events.specs.Puts.{EndLasts};
ghost use Rattle.index_events.specs.declared.events.Event.{Event};

use crate::events::{Event, EventAnswer, EventsEnd};
use crate::one_event::call_event;
use crate::reopening::reopen;
use index_keeper::{Keeper, Store};
use index_state::{OpenFault, State, show_index};
use row_types::Truth;
use std::alloc::Global;

/// What came of an event.
#[derive(Drop)]
pub(crate) enum Came<W: Truth, K: Keeper<W>> {
    /// It happened, and this was answered.
    Answer(State<W, K>, EventAnswer),
    /// There was not enough memory for it.
    NoMemory(State<W, K>),
    /// It is a reopening that was refused.
    Unopened(OpenFault),
}

/// Makes the events happen to the index, one after the other, up to the first for which there is
/// not enough memory, or a reopening that is refused.
pub fn run_events<W: Truth, S: Store<W>>(
    alloc: Global,
    state: State<W, S::K>,
    store: &mut S,
    path: &str,
    events: Vec<Event<W>>,
) -> EventsEnd<W, S::K>
    ensures ends { EndsEvents W.true_row S.K.told S.K.shows path.now
        (record { index = state; store = S.shows store.old }) events.items result
        (S.shows store.new) }
    ensures cause { HasCause (S.shows store.old).faults (S.shows store.new).faults
        (MeetsFault result) }
    ensures lasts { EndLasts S.K.told S.K.shows events.items result }
{
    // For its clause: the index invariant.
    show_index(&state);
    let Ok(mut answers) = Vec::with_capacity(alloc, events.len()) else {
        return EventsEnd::Stopped { state, done: 0 };
    };
    let mut events = events;
    events.reverse();
    let mut state = state;
    while let Some(event) = events.pop() {
        let done = answers.len() as u64;
        match run_event(alloc, state, store, path, event) {
            Came::Answer(next, answer) => {
                state = next;
                answers.push_reserved(answer);
            }
            Came::NoMemory(state) => return EventsEnd::Stopped { state, done },
            Came::Unopened(fault) => return EventsEnd::Unopened { done, fault },
        }
    }
    EventsEnd::All { state, answers }
}

/// Makes one event happen.
fn run_event<W: Truth, S: Store<W>>(
    alloc: Global,
    state: State<W, S::K>,
    store: &mut S,
    path: &str,
    event: Event<W>,
) -> Came<W, S::K>
    ensures { ComesOfEvent W.true_row S.K.told S.K.shows path.now
        (record { index = state; store = S.shows store.old }) event result (S.shows store.new) }
{
    match event {
        Event::Reopen => match reopen(alloc, state, store, path) {
            Ok(state) => {
                // For its clause: the index invariant.
                show_index(&state);
                Came::Answer(state, EventAnswer::Opened)
            }
            Err(fault) => Came::Unopened(fault),
        },
        event => call_owned(alloc, state, event),
    }
}

/// Makes one event happen that is no reopening.
fn call_owned<W: Truth, K: Keeper<W>>(
    alloc: Global,
    state: State<W, K>,
    event: Event<W>,
) -> Came<W, K>
    requires { event ≢ Event.Reopen }
    ensures { Called W.true_row K.told K.shows state event result }
{
    let mut state = state;
    match call_event(alloc, &mut state, event) {
        Ok(answer) => {
            // For its clause: the index invariant.
            show_index(&state);
            Came::Answer(state, answer)
        }
        Err(_) => Came::NoMemory(state),
    }
}
