//! The kinds of objects that the program is handed, by one name.

use elf_reading::ElfTruth;
use federation::Link;
use find_client::Cache;
use http_wire::{Door, Sink};
use index_keeper::Store;
use std::marker::PhantomData;
use tree_trait::{Clock, Gate, Tree};

/// The kinds of what the program is handed.
pub trait Kinds {
    /// The world whose rows are true.
    type W: ElfTruth + Send + Sync;
    /// A hand.
    type T: Tree<Self::W>;
    /// The store of the index.
    type S: Store<Self::W>;
    /// A door.
    type D: Door;
    /// A link to another server.
    type L: Link;
    /// The clock between passes.
    type C: Clock + Drop;
    /// A sink.
    type O: Sink;
    /// The gate that threads pass.
    type G: Gate + Drop;
    /// The cache of what other servers sent.
    type H: Cache + Drop;
}

/// The kinds of these.
#[derive(Clone, Copy)]
pub struct Of<W, T, S, D, L, C, O, G, H>(PhantomData<(W, T, S, D, L, C, O, G, H)>);

impl<
    W: ElfTruth + Send + Sync,
    T: Tree<W>,
    S: Store<W>,
    D: Door,
    L: Link,
    C: Clock + Drop,
    O: Sink,
    G: Gate + Drop,
    H: Cache + Drop,
> Kinds for Of<W, T, S, D, L, C, O, G, H> {
    type W = W;

    type T = T;

    type S = S;

    type D = D;

    type L = L;

    type C = C;

    type O = O;

    type G = G;

    type H = H;
}
