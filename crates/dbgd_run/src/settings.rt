//! What stays while a server runs, in one word.

ghost use Rattle.std.specs.Prelude.{ℕ, List};
ghost use Rattle.path_scope.specs.Scope.{Scope};
ghost use Rattle.row_types.specs.Rules.{rules};
ghost use Rattle.conn_server.specs.Stage.{ConnSetting};
ghost use Rattle.dbgd_commands.specs.Stage.{setting};
ghost use Rattle.dbgd_run.specs.Serve.{doors_setting};
ghost use Rattle.dbgd_run.specs.Serving.{ServeSetting, serve_setting};

use dbgd_commands::Outside;
use elf_reading::ElfTruth;
use federation::Link;
use find_client::Cache;
use http_wire::{Door, Sink};
use index_keeper::Store;
use tree_trait::{Clock, Gate, Tree};

/// What contracts know of what stays while a server runs.
pub trait ServeSettings {
    type Hand;

    type Door;

    type Link;

    /// What doors are served with, by the folders of sources and the rows of the counter table.
    ghost doors: { List (List ℕ) → ℕ → ConnSetting Self.Hand };

    /// That, with what a run rests on, the scope of its passes, the seconds between them, and
    /// what a door and a link show.
    ghost setting: { Scope → ℕ → List (List ℕ) → ℕ → ServeSetting Self.Hand Self.Door Self.Link };
}

impl<
    W: ElfTruth + Send + Sync,
    T: Tree<W>,
    S: Store<W>,
    D: Door,
    L: Link,
    C: Clock + Drop,
    O: Sink,
    G: Gate + Drop,
    H: Cache + Drop,
> ServeSettings for Outside<W, T, S, D, L, C, O, G, H> {
    type Hand = T;

    type Door = D;

    type Link = L;

    ghost doors = { doors_setting (setting (rules W.version W.true_row W.told) T.told T.shows S.K.told) };

    ghost setting = { λ scope secs folders rows. serve_setting
        (setting (rules W.version W.true_row W.told) T.told T.shows S.K.told) scope secs
        (doors_setting (setting (rules W.version W.true_row W.told) T.told T.shows S.K.told) folders rows)
        D.shows L.shows };
}
