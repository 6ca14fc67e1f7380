//! What a tree in memory has, and when it fails.

ghost use Rattle.std.specs.Prelude.{All};
ghost use Rattle.tree_trait.specs.Found.{IsFound};

use crate::found::Found;
use row_types::Truth;
use std::marker::Model;

/// The files of a tree in memory at each stage, and the numbers of its calls at which something
/// happens. Calls are numbered from 0. Contracts see it as a record of lists.
#[derive(Drop)]
pub struct Script<W: Truth> {
    /// The files that are there, stage by stage.
    pub stages: Vec<Vec<Found<W>>>,
    /// The numbers of the calls before which the next stage begins, if there is one.
    pub moves: Vec<u64>,
    /// The numbers of the calls that fail.
    pub bad_calls: Vec<u64>,
}

impl<W: Truth> Model for Script<W> {
    ghost use Rattle.std.specs.Prelude.{map};
    ghost use Rattle.tree_trait.specs.Script.{ScriptFacts};

    ghost Value = { ScriptFacts };

    ghost view = { λ s. record {
      stages = map (λ stage. stage.items) s.stages.items;
      moves = s.moves.items;
      bad_calls = s.bad_calls.items;
    } };
}

impl<W: Truth> Script<W> {
    /// What is known of each file.
    pub fn know_files(&self)
        ensures { All (All (IsFound W.version)) self.now.stages }
    {
        know_stages(self.stages.as_slice());
    }
}

/// What is known of each file of a stage.
fn know_files<W: Truth>(files: &[Found<W>])
    ensures { All (IsFound W.version) files.now }
{
    for file in files {
        // For its clause: these are the bytes of the file's version.
        file.is_version();
    }
}

/// What is known of each file of each stage.
fn know_stages<W: Truth>(stages: &[Vec<Found<W>>])
    ensures { All (λ stage. All (IsFound W.version) stage.items) stages.now }
{
    for stage in stages {
        know_files(stage.as_slice());
    }
}
