//! What the threads of a server share, and what its passes go on with.

ghost use Rattle.std.specs.Prelude.{◌≡◌, ◌<◌, None, vec_len};
ghost use Rattle.std.proofs.Props.{props};
ghost use Rattle.conn_server.specs.Tallied.{HasRowIn};

use crate::site::Site;
use dbgd_commands::Kinds;
use dbgd_metrics::{Book, Share};
use elf_reading::ElfTruth;
use federation::Link;
use http_wire::{Door, Sink};
use index_keeper::{Keeper, Store};
use index_lock::{Seat, TurnLock};
use index_state::State;
use path_canon::{Matching, Selection};
use row_types::Truth;
use std::marker::PhantomData;
use tree_trait::{Clock, Gate, Tree};

/// The keeper of an index, of these kinds.
pub(crate) type KeeperOf<X> = <<X as Kinds>::S as Store<<X as Kinds>::W>>::K;

/// An index, of these kinds.
pub(crate) type Index<X> = State<<X as Kinds>::W, KeeperOf<X>>;

/// The kinds of what a thread of a server takes with it. `Kinds` won't do: a bound on what may not be
/// sent to another thread isn't known there.
pub(crate) trait ThreadKinds: Send {
    /// The world whose rows are true.
    type W: ElfTruth + Send + Sync;
    /// The keeper of the index.
    type K: Keeper<Self::W>;
    /// A hand.
    type T: Tree<Self::W>;
    /// A door.
    type D: Door;
    /// A link to another server.
    type L: Link;
}

/// The kinds of these.
#[derive(Clone, Copy)]
pub(crate) struct Sent<W, K, T, D, L>(PhantomData<(W, K, T, D, L)>);

impl<W: ElfTruth + Send + Sync, K: Keeper<W>, T: Tree<W>, D: Door, L: Link> ThreadKinds
    for Sent<W, K, T, D, L> {
    type W = W;

    type K = K;

    type T = T;

    type D = D;

    type L = L;
}

/// Those of a server, of the kinds of what the program is handed.
pub(crate) type SentOf<X> = Sent<
    <X as Kinds>::W,
    KeeperOf<X>,
    <X as Kinds>::T,
    <X as Kinds>::D,
    <X as Kinds>::L,
>;

/// The kinds of what passes alone take: a selection of files, a clock, and sinks.
pub(crate) trait PassKinds {
    /// Which files are selected.
    type P: Selection;
    /// The clock between passes.
    type C: Clock;
    /// A sink of lines.
    type O: Sink;
}

/// The kinds of these.
#[derive(Clone, Copy)]
pub(crate) struct Passing<P, C, O>(PhantomData<(P, C, O)>);

impl<P: Selection, C: Clock, O: Sink> PassKinds for Passing<P, C, O> {
    type P = P;

    type C = C;

    type O = O;
}

/// Those of a server, of the kinds of what the program is handed.
pub(crate) type PassingOf<'a, X> = Passing<Matching<'a>, <X as Kinds>::C, <X as Kinds>::O>;

/// What a server is made with, the lock of its index, and the counters.
#[derive(Drop)]
pub(crate) struct ThreadSite<'a, W: Truth, K: Keeper<W>, G: Gate, Rt> {
    pub(crate) site: &'a Site<'a, G, Rt>,
    pub(crate) lock: &'a TurnLock<State<W, K>>,
    pub(crate) book: &'a Book,
}

/// What the passes go on with.
#[derive(Drop)]
pub(crate) struct PassTools<W: Truth, K: Keeper<W>, T: Drop> {
    pub(crate) seat: Seat<State<W, K>>,
    pub(crate) hands: Vec<T>,
    pub(crate) share: Share,
}

/// The same of these kinds.
pub(crate) type PassToolsOf<X> = PassTools<<X as Kinds>::W, KeeperOf<X>, <X as Kinds>::T>;

/// That with what it belongs to: a token of the lock in whose index no name was spared, a hand or more, and a
/// share of the counters that has a row.
#[derive(Drop)]
pub(crate) struct PassLead<'a, 'b, W: Truth, K: Keeper<W>, T: Drop> {
    pub(crate) lock: &'a TurnLock<State<W, K>>,
    pub(crate) book: &'b Book,
    pub(crate) tools: PassTools<W, K, T>,
    ghost locked: { tools.seat.lock ≡ lock.now },
    ghost spared: { tools.seat.origin.sparing ≡ None } by { Prim.hlevel props },
    ghost hand: { 0 < vec_len tools.hands },
    ghost row: { HasRowIn book.now tools.share } by { Prim.hlevel props },
}

/// The same of these kinds.
pub(crate) type PassLeadOf<'a, 'b, X> = PassLead<
    'a,
    'b,
    <X as Kinds>::W,
    KeeperOf<X>,
    <X as Kinds>::T,
>;
