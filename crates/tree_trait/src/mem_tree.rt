//! A tree in memory that answers by a script.

ghost use Rattle.std.specs.Prelude.{◌≡◌, ℕ, ◌+◌, ◌≤◌, ◌<◌, List, [], ◌∷◌, true, false, map, length, IsTrue, IsSome, IsSomeAnd, OnErr, OnOk};
ghost use Rattle.std.specs.Bool.{OnTrue, OnFalse};
ghost use Rattle.file_formats.specs.Numbers.{bytes_at};
ghost use Rattle.tree_trait.specs.Asks.{AsksTree, ReadsOpened};
ghost use Rattle.tree_trait.specs.Dir.{dir_facts};
ghost use Rattle.tree_trait.specs.Found.{found_name};
ghost use Rattle.tree_trait.specs.Heard.{load, stat, read_dir, open_file, read_at};
ghost use Rattle.tree_trait.specs.Heard.{call_failed, wants_memory, with_answers};
ghost use Rattle.tree_trait.specs.HeardCalls.{heard_facts};
ghost use Rattle.tree_trait.specs.Load.{load_facts};
ghost use Rattle.tree_trait.specs.MemTree.{IsScripted, RunsRead, RunsScript, TreeFacts, answered};
ghost use Rattle.tree_trait.specs.MemTree.{fresh_tree, is_bad_call, next_stage, tree_shows};
ghost use Rattle.tree_trait.specs.MemTree.{moved_to, with_heard, with_swaps};
ghost use Rattle.tree_trait.specs.Open.{IsOpenedAs, open_facts, room_facts};
ghost use Rattle.tree_trait.specs.Script.{is_script, names_at};
ghost use Rattle.tree_trait.specs.Swaps.{bytes_seen, read_once, swapped};

use crate::answer::LoadAnswer;
use crate::dir::DirAnswer;
use crate::found::Found;
use crate::heard::{HeardCall, heard_load, heard_open, heard_read, heard_read_dir, heard_stat};
use crate::opening::{OpenAnswer, RoomAnswer};
use crate::script::Script;
use crate::stage::{dir_in, files_at, is_listed, load_in, open_in, stage_for, stat_in};
use crate::stat::StatAnswer;
use crate::swaps::Swaps;
use crate::tree::Tree;
use row_types::{Faults, Truth};
use std::alloc::{AllocError, Global};
use std::marker::Model;

/// A tree in memory. It tells what it has and what it was asked, moves to its script's next stage
/// before the calls that the script lists, and fails exactly at the calls that the script lists.
/// A file that was opened keeps its bytes, whatever stands at its path since, but for those that are
/// swapped. Where memory to list a read of it is refused, the questions aren't told from then on.
/// Contracts see it as a record of the script, the stage, the next call's number, the questions so
/// far, where they are told, the faults, and what is swapped.
#[derive(Drop)]
pub struct MemTree<W: Truth> {
    script: Script<W>,
    stage: usize,
    calls: u64,
    heard: Option<Vec<HeardCall<W>>>,
    faults: Faults,
    swaps: Swaps<W>,
}

impl<W: Truth> Model for MemTree<W> {
    ghost use Rattle.std.specs.Prelude.{map};
    ghost use Rattle.std.specs.Option.{option_map};
    ghost use Rattle.tree_trait.specs.HeardCalls.{heard_facts};
    ghost use Rattle.tree_trait.specs.MemTree.{TreeFacts, IsScripted};

    ghost Value = { TreeFacts };

    ghost view = { λ t. record {
      script = t.script;
      stage = t.stage;
      calls = t.calls;
      heard = option_map (λ calls. map heard_facts calls.items) t.heard;
      faults = t.faults;
      swaps = t.swaps;
    } };

    ghost invariant = { λ t. IsScripted W.version t.script t.stage };
}

impl<W: Truth> MemTree<W> {
    /// The tree of a script, at its first stage.
    pub fn new(alloc: Global, script: Script<W>) -> MemTree<W>
        requires { IsTrue (is_script script) }
        ensures { result ≡ fresh_tree script }
    {
        script.know_files();
        MemTree {
            script,
            stage: 0,
            calls: 0,
            heard: Some(Vec::new(alloc)),
            faults: Faults::new(),
            swaps: Swaps::new(alloc),
        }
    }

    /// Lets these bytes stand for those of the files of a path that have as many, from the read of a
    /// number on, counted from 0 over all open files: what is read of them is no version of a told
    /// world.
    pub fn swap(&mut self, call: u64, path: &str, bytes: Vec<u8>) -> Result<(), AllocError>
        requires { W.told ≡ false }
        ensures ok { OnOk result (self.new
            ≡ with_swaps self.old (swapped self.old.swaps call path.now bytes.items)) }
        ensures err { OnErr result (self.new ≡ self.old) }
    {
        self.swaps.add(call, path, bytes)
    }

    /// Whether the next call fails.
    fn is_bad(&self) -> bool
        ensures { result ≡ is_bad_call self.now }
    {
        is_listed(self.script.bad_calls.as_slice(), self.calls)
    }

    /// The stage in which the next call is answered.
    fn next_stage(&self) -> usize
        ensures value { result ≡ next_stage self.now }
        ensures placed { result < length self.now.script.stages }
    {
        let count = self.script.stages.as_slice().len();
        stage_for(self.script.moves.as_slice(), self.calls, self.stage, count)
    }

    /// The files by which the next call is answered.
    fn next_files(&self) -> &[Found<W>]
        ensures files { map found_name result.now ≡ names_at self.now.script (next_stage self.now) }
        ensures scripted { IsScripted W.version self.now.script self.now.stage }
    {
        let stage = self.next_stage();
        files_at(self.script.stages.as_slice(), stage)
    }

    /// Moves to the stage in which a call was answered, and counts the call.
    fn end_in(&mut self, stage: usize, failed: bool)
        requires { stage < length self.old.script.stages }
        ensures value { self.new ≡ moved_to self.old stage failed }
        ensures later { self.old.faults ≤ self.new.faults }
    {
        self.stage = stage;
        self.calls = self.calls.saturating_add(1);
        if failed {
            self.faults.raise();
        }
    }

    /// Lists a call where the questions are told, or leaves the tree as it is. Says which.
    fn list(&mut self, call: HeardCall<W>) -> bool
        ensures kept { OnTrue result (self.new
            ≡ with_heard self.old (with_answers self.old.heard (heard_facts call ∷ []))) }
        ensures same { OnFalse result (self.new ≡ self.old) }
    {
        match &mut self.heard {
            Some(heard) => heard.push(call).is_ok(),
            None => true,
        }
    }

    /// Ends a call that is listed where the questions are told, or leaves the tree as it is. Says
    /// which.
    fn end_call(&mut self, call: Option<HeardCall<W>>) -> bool
        ensures ended { OnTrue result (IsSomeAnd call (λ asked.
            self.new ≡ answered self.old (heard_facts asked))) }
        ensures same { OnFalse result (self.new ≡ self.old) }
        ensures later { self.old.faults ≤ self.new.faults }
    {
        let Some(call) = call else { return false };
        let stage = self.next_stage();
        let failed = call.has_failed();
        if self.list(call) {
            self.end_in(stage, failed);
            true
        } else {
            false
        }
    }

    /// What is known of the script.
    fn know_script(&self)
        ensures { IsScripted W.version self.now.script self.now.stage }
    {
        let _script = &self.script;
    }

    /// Lists a read of an open file, by the room that it left, or leaves the tree as it is. Says which.
    fn list_read(&mut self, file: &Found<W>, at: u64, answer: RoomAnswer, room: &[u8]) -> bool
        ensures kept { OnTrue result (self.new ≡ with_heard self.old (with_answers self.old.heard
            (read_at (found_name file.now) at (room_facts answer room.now) ∷ []))) }
        ensures same { OnFalse result (self.new ≡ self.old) }
    {
        let alloc = *self.script.bad_calls.allocator();
        match heard_read(alloc, file, at, answer, room) {
            Ok(call) => self.list(call),
            Err(_) => false,
        }
    }

    /// Lists a read of an open file, by the room that it left, or tells no questions from now on.
    fn keep_read(&mut self, file: &Found<W>, at: u64, answer: RoomAnswer, room: &[u8])
        ensures listed { IsSome self.new.heard → self.new.heard ≡ with_answers self.old.heard
            (read_at (found_name file.now) at (room_facts answer room.now) ∷ []) }
        ensures same { self.new ≡ with_heard self.old self.new.heard }
    {
        if self.list_read(file, at, answer, room) {
            return;
        }
        self.heard = None;
    }

    /// Ends a read of an open file, by the room that it left, in the next stage.
    fn move_on(&mut self, file: &Found<W>, at: u64, answer: RoomAnswer, room: &[u8])
        ensures listed { IsSome self.new.heard → self.new.heard ≡ with_answers self.old.heard
            (read_at (found_name file.now) at (room_facts answer room.now) ∷ []) }
        ensures ends { self.new ≡ with_heard (answered self.old
            (read_at (found_name file.now) at (room_facts answer room.now))) self.new.heard }
        ensures later { self.old.faults ≤ self.new.faults }
    {
        let stage = self.next_stage();
        self.keep_read(file, at, answer, room);
        self.end_in(stage, answer.has_failed());
    }

    /// Counts a read of an open file.
    fn count_read(&mut self)
        ensures { self.new ≡ with_swaps self.old (read_once self.old.swaps) }
    {
        self.swaps.count();
    }

    /// Copies what the next read of an open file gives, from a place on, into all of a room.
    fn read_next(&self, file: &Found<W>, at: u64, room: &mut [u8])
        requires { at + length room.old ≤ file.now.stamp.size }
        ensures len { length room.new ≡ length room.old }
        ensures seen { room.new
            ≡ bytes_at (bytes_seen self.now.swaps file.now) at (length room.old) }
        ensures bytes { W.told ≡ true → (b : List ℕ)
            → W.version file.now.path file.now.stamp b
            → room.new ≡ bytes_at b at (length room.old) }
    {
        self.swaps.read_into(file, at, room);
    }

    /// Ends a read of an open file, by the room that it left, which failed if it was to.
    fn end_read(&mut self, file: &Found<W>, at: u64, answer: RoomAnswer, room: &[u8])
        requires { call_failed (read_at (found_name file.now) at (room_facts answer room.now))
            ≡ is_bad_call self.old }
        ensures asks { ReadsOpened true W.version (tree_shows self.old) (tree_shows self.new)
            (read_at (found_name file.now) at (room_facts answer room.now)) }
        ensures script { RunsRead self.old self.new
            (read_at (found_name file.now) at (room_facts answer room.now)) }
    {
        // For its clause: the stage is one of the script's.
        self.know_script();
        self.move_on(file, at, answer, room);
        self.count_read();
    }
}

impl<W: Truth + Send> Tree<W> for MemTree<W> {
    ghost use Rattle.std.specs.Prelude.{true};
    ghost use Rattle.tree_trait.specs.Found.{found_name};
    ghost use Rattle.tree_trait.specs.MemTree.{tree_shows};

    type File = Found<W>;

    ghost told = { true };

    ghost shows = { tree_shows };

    ghost opened = { found_name };

    fn load(&mut self, alloc: Global, path: &str, limit: u64) -> LoadAnswer<W>
        ensures asks { AsksTree true W.version (tree_shows self.old) (tree_shows self.new)
            (load path.now limit (load_facts result)) }
        ensures memory { IsTrue (wants_memory (load path.now limit (load_facts result)))
            → self.new ≡ self.old }
        ensures script { RunsScript self.old self.new (load path.now limit (load_facts result)) }
    {
        let answer = load_in(alloc, self.is_bad(), self.next_files(), path, limit);
        let call = heard_load(alloc, path, limit, &answer);
        if self.end_call(call) {
            answer
        } else {
            LoadAnswer::OutOfMemory
        }
    }

    fn stat(&mut self, alloc: Global, path: &str) -> StatAnswer
        ensures asks { AsksTree true W.version (tree_shows self.old) (tree_shows self.new)
            (stat path.now result) }
        ensures memory { IsTrue (wants_memory (stat path.now result)) → self.new ≡ self.old }
        ensures script { RunsScript self.old self.new (stat path.now result) }
    {
        let answer = stat_in(self.is_bad(), self.next_files(), path);
        let call = heard_stat(alloc, path, &answer);
        if self.end_call(call) {
            answer
        } else {
            StatAnswer::OutOfMemory
        }
    }

    fn read_dir(&mut self, alloc: Global, path: &str) -> DirAnswer
        ensures asks { AsksTree true W.version (tree_shows self.old) (tree_shows self.new)
            (read_dir path.now (dir_facts result)) }
        ensures memory { IsTrue (wants_memory (read_dir path.now (dir_facts result)))
            → self.new ≡ self.old }
        ensures script { RunsScript self.old self.new (read_dir path.now (dir_facts result)) }
    {
        let answer = dir_in(alloc, self.is_bad(), self.next_files(), path);
        let call = heard_read_dir(alloc, path, &answer);
        if self.end_call(call) {
            answer
        } else {
            DirAnswer::OutOfMemory
        }
    }

    fn open_file(&mut self, alloc: Global, path: &str, limit: u64) -> OpenAnswer<Found<W>>
        ensures asks { AsksTree true W.version (tree_shows self.old) (tree_shows self.new)
            (open_file path.now limit (open_facts result)) }
        ensures name { IsOpenedAs found_name path.now result }
        ensures memory { IsTrue (wants_memory (open_file path.now limit (open_facts result)))
            → self.new ≡ self.old }
        ensures script { RunsScript self.old self.new
            (open_file path.now limit (open_facts result)) }
    {
        let answer = open_in(alloc, self.is_bad(), self.next_files(), path, limit);
        let call = heard_open(alloc, path, limit, &answer);
        if self.end_call(call) {
            answer
        } else {
            OpenAnswer::OutOfMemory
        }
    }

    fn read_at(&mut self, file: &mut Found<W>, at: u64, room: &mut [u8]) -> RoomAnswer
        requires some { 0 < length room.old }
        requires inside { at + length room.old ≤ file.old.stamp.size }
        ensures asks { ReadsOpened true W.version (tree_shows self.old) (tree_shows self.new)
            (read_at (found_name file.old) at (room_facts result room.new)) }
        ensures name { found_name file.new ≡ found_name file.old }
        ensures len { length room.new ≡ length room.old }
        ensures bytes { result ≡ RoomAnswer.Filled → W.told ≡ true → (b : List ℕ)
            → W.version file.old.path file.old.stamp b
            → room.new ≡ bytes_at b at (length room.old) }
        ensures seen { result ≡ RoomAnswer.Filled → room.new
            ≡ bytes_at (bytes_seen self.old.swaps file.old) at (length room.old) }
        ensures keeps { file.new ≡ file.old }
        ensures script { RunsRead self.old self.new
            (read_at (found_name file.old) at (room_facts result room.new)) }
    {
        if self.is_bad() {
            self.end_read(file, at, RoomAnswer::Failed, room);
            RoomAnswer::Failed
        } else {
            self.read_next(file, at, room);
            self.end_read(file, at, RoomAnswer::Filled, room);
            RoomAnswer::Filled
        }
    }
}
