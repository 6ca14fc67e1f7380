//! What can happen to an index, and what comes of it.

use index_keeper::Keeper;
use index_state::{Begun, GroomTask, Judged, OpenFault, Published, State};
use path_canon::Select;
use row_types::{BuildId, CanonPath, Kind, Name, TrueRow, Truth};
use scan_queue::{Cause, Listing, Seen};

/// What can happen to an index.
#[derive(Drop)]
pub enum Event<W: Truth> {
    /// A pass begins over what a walk of the roots listed, where these paths are selected.
    Begin(Listing, Vec<CanonPath>, Select),
    /// The first name that is to be read goes out.
    Take,
    /// A row is published.
    Publish(TrueRow<W>),
    /// The first name that is to be looked for goes out.
    GroomTake,
    /// A name is judged by what was seen at its path.
    Judge(Name, Seen),
    /// A name that is out is missed.
    Miss(Name, Cause),
    /// The names that are out or missed get their copies, and are tried again.
    Retry,
    /// The files with an id that are of a kind are looked up.
    Look(BuildId, Kind),
    /// The keeper is given back, the store is opened again, and the index on it.
    Reopen,
}

/// What was answered to an event.
#[derive(Drop)]
pub enum EventAnswer {
    /// The answer to `begin`.
    Begin(Begun),
    /// The answer to `take`.
    Take(Option<Name>),
    /// The answer to `publish`.
    Publish(Published),
    /// The answer to `groom_take`.
    GroomTake(Option<GroomTask>),
    /// The answer to `judge`.
    Judge(Judged),
    /// The answer to `miss`.
    Miss(bool),
    /// The answer to `retry`.
    Retry(u64),
    /// The paths of the rows that were found, in order.
    Look(Vec<CanonPath>),
    /// The index is open again.
    Opened,
}

/// What came of a list of events.
#[derive(Drop)]
pub enum EventsEnd<W: Truth, K: Keeper<W>> {
    /// All happened.
    All {
        /// The index.
        state: State<W, K>,
        /// What was answered to each event, in order.
        answers: Vec<EventAnswer>,
    },
    /// There was not enough memory for the next event, or to note the answers.
    Stopped {
        /// The index after the first events.
        state: State<W, K>,
        /// How many happened.
        done: u64,
    },
    /// The next event is a reopening that was refused.
    Unopened {
        /// How many happened before it.
        done: u64,
        /// Why it was refused. A store that failed to open is a keeper's fault.
        fault: OpenFault,
    },
}
