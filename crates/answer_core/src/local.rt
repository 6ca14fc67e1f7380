//! The local answer.

ghost use Rattle.std.specs.Prelude.{◌≡◌, ◌≢◌, ◌<◌, true, length, slice_index_or};
ghost use Rattle.answer_core.specs.Local.{AgreesWithFile, AnswersRoute, AnswersFrom, HandsFile};
ghost use Rattle.answer_core.specs.Local.{IsGiven, local_facts};
ghost use Rattle.index_lock.specs.Tokens.{IsLater};
ghost use Rattle.answer_core.specs.declared.candidate.Candidate.{Candidate};
ghost use Rattle.webapi_routes.specs.declared.route.Route.TheVariants.{Metrics};

use crate::attempts::{Outcome, try_all};
use crate::candidate::Candidate;
use crate::given::Given;
use crate::look_up::{Picked, look_up};
use answer_check::{Checked, CheckedSection};
use index_keeper::Keeper;
use index_lock::{Seat, TurnLock};
use index_state::State;
use row_types::{CanonPath, Truth};
use std::alloc::Global;
use std::sync::Wait;
use tree_trait::{Gate, Tree};
use webapi_routes::Route;

/// The local answer to a route. Its generation, `gen_`, is the length of the index's log as the
/// candidates were picked. `F` is the hand's open file.
#[derive(Drop)]
pub enum Local<F: Drop> {
    /// A file of the build-id and the class that are asked.
    File {
        /// What was read of the file, and checked. It has all that its identity rests on.
        from: Checked,
        /// The open file, of which the rest may be read.
        file: F,
        /// Its path.
        path: CanonPath,
        /// The generation.
        gen_: u64,
    },
    /// The section that is asked, of a file of the build-id.
    Section {
        /// The section, with what was read of its file.
        from: CheckedSection,
        /// The file's path.
        path: CanonPath,
        /// The generation.
        gen_: u64,
    },
    /// The source that is asked.
    Source {
        /// All its bytes.
        bytes: Vec<u8>,
        /// Its path.
        path: CanonPath,
        /// The generation.
        gen_: u64,
    },
    /// No candidate passed, and no load, opening or read failed.
    Nothing {
        /// The generation.
        gen_: u64,
    },
    /// No candidate passed, and a load, an opening or a read failed.
    Fault {
        /// The generation.
        gen_: u64,
    },
    /// There was not enough memory.
    OutOfMemory,
}

/// Answers a route of a build-id from the index and the hand. The lock is taken once, to pick the
/// candidates, and left before the first of them is opened. They are opened in path order, for a
/// section those with debug information first, up to [`FILE_LIMIT`](row_types::FILE_LIMIT) bytes each; of
/// each what its identity rests on is read, for a section that section too, and the first that passes
/// is taken. A source is loaded whole, up to [`READ_LIMIT`](row_types::READ_LIMIT) bytes; where more
/// than these would be read of a file, the answer is want of memory. The gate is passed before each
/// opening or load.
pub fn answer_local<W: Truth, K: Keeper<W>, T: Tree<W>, G: Gate, R: Wait + Sync>(
    rt: &R,
    alloc: Global,
    lock: &TurnLock<State<W, K>>,
    seat: Seat<State<W, K>>,
    hand: &mut T,
    route: &Route,
    folders: &[CanonPath],
    gate: &G,
) -> (Seat<State<W, K>>, Local<T::File>)
    requires lock { seat.lock ≡ lock.now }
    requires route { route.now ≢ Metrics }
    ensures later { IsLater seat result.0 }
    ensures answer { AnswersRoute W.true_row result.0.seen folders.now
        (record { told = T.told; version = W.version; start = T.shows hand.old })
        route.now (local_facts T.opened result.1) (T.shows hand.new) }
    ensures file { HandsFile W.version (local_facts T.opened result.1) }
    ensures version { W.told ≡ true → AgreesWithFile W.version (local_facts T.opened result.1) }
{
    let (seat, picked) = look_up(rt, alloc, lock, seat, route, folders);
    let Picked { generation, list } = picked;
    match list {
        Ok(list) => (
            seat,
            answer_from(rt, alloc, hand, route, list, generation, gate),
        ),
        Err(_) => (seat, Local::OutOfMemory),
    }
}

/// The answer by these candidates at a generation.
fn answer_from<W: Truth, T: Tree<W>, G: Gate, R: Wait + Sync>(
    rt: &R,
    alloc: Global,
    hand: &mut T,
    route: &Route,
    list: Vec<Candidate>,
    generation: u64,
    gate: &G,
) -> Local<T::File>
    ensures answer { AnswersFrom
        (record { told = T.told; version = W.version; start = T.shows hand.old })
        route.now list.items generation (local_facts T.opened result) (T.shows hand.new) }
    ensures file { HandsFile W.version (local_facts T.opened result) }
    ensures version { W.told ≡ true → AgreesWithFile W.version (local_facts T.opened result) }
{
    match try_all(rt, alloc, hand, route, list.as_slice(), gate) {
        Outcome::Passed { given, place } => local_of(given, take_path(list, place), generation),
        Outcome::Nothing { fails: true } => Local::Fault { gen_: generation },
        Outcome::Nothing { fails: false } => Local::Nothing { gen_: generation },
        Outcome::OutOfMemory => Local::OutOfMemory,
    }
}

/// The path of the candidate at a place.
fn take_path(list: Vec<Candidate>, place: usize) -> CanonPath
    requires { place < length list.items }
    ensures { (one : Candidate) → one ≡ slice_index_or list.items place one → result ≡ one.path }
{
    let mut list = list;
    let Candidate { class: _, path } = list.swap_remove(place);
    path
}

/// The answer that gives this.
fn local_of<F: Drop>(given: Given<F>, path: CanonPath, generation: u64) -> Local<F>
    ensures { IsGiven given path generation result }
{
    match given {
        Given::File { from, file } => Local::File {
            from,
            file,
            path,
            gen_: generation,
        },
        Given::Section(from) => Local::Section {
            from,
            path,
            gen_: generation,
        },
        Given::Source(bytes) => Local::Source {
            bytes,
            path,
            gen_: generation,
        },
    }
}
