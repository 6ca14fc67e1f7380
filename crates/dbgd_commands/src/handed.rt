//! What the program is handed.

ghost use Rattle.std.specs.Prelude.{map};
ghost use Rattle.row_types.specs.Rules.{rules};
ghost use Rattle.dbgd_commands.specs.Endings.{streams};
ghost use Rattle.dbgd_commands.specs.Stage.{ProgramStage, Setting, command_stage, rows_shown, setting, stage};

use crate::kinds::Kinds;
use elf_reading::ElfTruth;
use federation::Link;
use find_client::Cache;
use http_wire::{Door, Sink};
use index_keeper::Store;
use std::marker::PhantomData;
use tree_trait::{Clock, Gate, Tree};

/// What the program is handed: the hands that read files, of which the first serves single files,
/// the store of the index, the doors of a server, a row of links to other servers for each door, or one
/// for a search, the clock between a server's passes, the two sinks, the gate that its threads pass, and
/// the cache of a search.
#[derive(Drop)]
pub struct Outside<
    W: ElfTruth + Send + Sync,
    T: Tree<W>,
    S: Store<W>,
    D: Door,
    L: Link,
    C: Clock + Drop,
    O: Sink,
    G: Gate + Drop,
    H: Cache + Drop,
> {
    pub hands: Vec<T>,
    pub store: S,
    pub doors: Vec<D>,
    pub links: Vec<Vec<L>>,
    pub clock: C,
    pub out: O,
    pub err: O,
    pub gate: G,
    pub cache: H,
    pub of: PhantomData<W>,
}

/// All that the program is handed, of these kinds.
pub type Handed<X> = Outside<
    <X as Kinds>::W,
    <X as Kinds>::T,
    <X as Kinds>::S,
    <X as Kinds>::D,
    <X as Kinds>::L,
    <X as Kinds>::C,
    <X as Kinds>::O,
    <X as Kinds>::G,
    <X as Kinds>::H,
>;

/// What contracts know of what is handed.
pub trait Staged {
    type Hand;

    /// What a run rests on: what the types of the objects tell.
    ghost setting: { Setting Self.Hand };

    /// What the objects show at a moment.
    ghost stage: { Self → ProgramStage Self.Hand };
}

impl<
    W: ElfTruth + Send + Sync,
    T: Tree<W>,
    S: Store<W>,
    D: Door,
    L: Link,
    C: Clock + Drop,
    O: Sink,
    G: Gate + Drop,
    H: Cache + Drop,
> Staged for Outside<W, T, S, D, L, C, O, G, H> {
    type Hand = T;

    ghost setting = { setting (rules W.version W.true_row W.told) T.told T.shows S.K.told };

    ghost stage = { λ o. stage
        (command_stage o.hands.items (S.shows o.store) (streams O.shows o.out o.err))
        (map D.shows o.doors.items) (rows_shown L.shows o.links.items) (C.woke o.clock)
        (H.shows o.cache) };
}
