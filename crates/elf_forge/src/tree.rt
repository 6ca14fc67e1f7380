//! A tree of generated files.

ghost use Rattle.std.specs.Prelude.{◌≡◌, ℕ, ◌+◌, ◌≤◌, ◌<◌, ◌∷◌, [], List, true, false, length};
ghost use Rattle.std.specs.Prelude.{IfOk, IsTrue, IsOkAnd};
ghost use Rattle.file_formats.specs.Numbers.{bytes_at};
ghost use Rattle.tree_trait.specs.Found.{found_facts, found_name};
ghost use Rattle.std.specs.Bool.{OnTrue, OnFalse};
ghost use Rattle.tree_trait.specs.Asks.{AsksTree, ReadsOpened};
ghost use Rattle.tree_trait.specs.Dir.{dir_facts};
ghost use Rattle.tree_trait.specs.Heard.{load, stat, read_dir, open_file, read_at};
ghost use Rattle.tree_trait.specs.Heard.{wants_memory, with_answers};
ghost use Rattle.tree_trait.specs.Load.{load_facts};
ghost use Rattle.tree_trait.specs.Open.{IsOpenedAs, open_facts, room_facts, room_filled};
ghost use Rattle.elf_forge.specs.Forge.{IsPinnedFilesLimit, forged};
ghost use Rattle.elf_forge.specs.Place.{forged_stamp};
ghost use Rattle.elf_forge.specs.Tree.{RunsForged, dir_answer, fresh_forge, heard_question, load_answer};
ghost use Rattle.elf_forge.specs.Tree.{OpensForged, ReadsForged, forge_shows, open_answer, stat_answer};

use crate::digits::FILES_LIMIT;
use crate::folder::{entries_of, folder_among};
use crate::forging::forge;
use crate::place::{number_at, stamp_of};
use crate::question::Question;
use row_types::OpenWorld;
use std::alloc::{AllocError, Global};
use std::marker::Model;
use tree_trait::{DirAnswer, Found, LoadAnswer, OpenAnswer, RoomAnswer, StatAnswer, Tree};

/// A tree of generated files: that of the number k stands at `/t/f/` and k in six digits. A file is
/// made when it is loaded or opened, and none is kept. No call fails. Where memory to list a read of
/// an open file is refused, the questions aren't told from then on. Contracts see the tree as a
/// record of its seed, its number of files, and the questions so far with their answers, where they
/// are told.
#[derive(Drop)]
pub struct ForgeTree {
    seed: u64,
    files: u64,
    asked: Option<Vec<Question>>,
}

impl Model for ForgeTree {
    ghost use Rattle.std.specs.Prelude.{◌≤◌, map};
    ghost use Rattle.std.specs.Option.{option_map};
    ghost use Rattle.elf_forge.specs.Tree.{ForgeFacts, heard_question};
    ghost use Rattle.elf_forge.specs.declared.digits.TheConstants.{FILES_LIMIT};

    ghost Value = { ForgeFacts };

    ghost view = { λ t. record {
      seed = t.seed;
      files = t.files;
      heard = option_map (λ asked. map (heard_question t.seed t.files) asked.items) t.asked;
    } };

    ghost invariant = { λ t. t.files ≤ FILES_LIMIT };
}

impl ForgeTree {
    /// The tree of the files of the numbers below `files`.
    pub fn new(alloc: Global, seed: u64, files: u64) -> ForgeTree
        requires { files ≤ FILES_LIMIT }
        ensures value { result ≡ fresh_forge seed files }
        ensures limit { IsPinnedFilesLimit }
    {
        ForgeTree {
            seed,
            files,
            asked: Some(Vec::new(alloc)),
        }
    }

    /// Lists a question where they are told, or leaves the tree as it is. Says which.
    fn list(&mut self, question: Question) -> bool
        ensures kept { OnTrue result (self.new ≡ record self.old {
          heard = with_answers self.old.heard (heard_question self.old.seed self.old.files question ∷ []);
        }) }
        ensures same { OnFalse result (self.new ≡ self.old) }
    {
        let Some(asked) = &mut self.asked else {
            return true;
        };
        asked.push(question).is_ok()
    }

    /// Keeps a question, if there is memory for it. Says whether.
    fn keep(&mut self, question: Result<Question, AllocError>) -> bool
        ensures kept { OnTrue result (IsOkAnd question (λ asked. self.new ≡ record self.old {
          heard = with_answers self.old.heard (heard_question self.old.seed self.old.files asked ∷ []);
        })) }
        ensures same { OnFalse result (self.new ≡ self.old) }
    {
        match question {
            Ok(question) => self.list(question),
            Err(_) => false,
        }
    }
}

/// The file of a number.
fn found(alloc: Global, seed: u64, k: u64, path: &str) -> Result<Found<OpenWorld>, AllocError>
    requires { k < FILES_LIMIT }
    ensures { IfOk result (λ found.
        found ≡ found_facts path.now (forged_stamp seed k) (forged seed k)) }
{
    let bytes = forge(alloc, seed, k)?;
    let path = String::from_str(alloc, path)?;
    Ok(Found::new(path, stamp_of(seed, k), bytes))
}

/// What a load answers, among so many files.
fn load_in(
    alloc: Global,
    seed: u64,
    files: u64,
    path: &str,
    limit: u64,
) -> Result<LoadAnswer<OpenWorld>, AllocError>
    requires { files ≤ FILES_LIMIT }
    ensures { IfOk result (λ answer.
        load_facts answer ≡ load_answer seed files path.now limit) }
{
    let Some(k) = number_at(files, path) else {
        return Ok(LoadAnswer::Gone);
    };
    let stamp = stamp_of(seed, k);
    if limit < stamp.size {
        return Ok(LoadAnswer::TooLarge { stamp });
    }
    Ok(LoadAnswer::Found(found(alloc, seed, k, path)?))
}

/// What an opening answers, among so many files.
fn open_in(
    alloc: Global,
    seed: u64,
    files: u64,
    path: &str,
    limit: u64,
) -> Result<OpenAnswer<Found<OpenWorld>>, AllocError>
    requires { files ≤ FILES_LIMIT }
    ensures value { IfOk result (λ answer.
        open_facts answer ≡ open_answer seed files path.now limit) }
    ensures name { IfOk result (IsOpenedAs found_name path.now) }
    ensures opens { IfOk result (OpensForged seed files path.now) }
{
    let Some(k) = number_at(files, path) else {
        return Ok(OpenAnswer::Gone);
    };
    let stamp = stamp_of(seed, k);
    if limit < stamp.size {
        return Ok(OpenAnswer::TooLarge { stamp });
    }
    let file = found(alloc, seed, k, path)?;
    Ok(OpenAnswer::Opened { file, stamp })
}

/// What a look answers, among so many files.
fn stat_in(seed: u64, files: u64, path: &str) -> StatAnswer
    requires { files ≤ FILES_LIMIT }
    ensures { result ≡ stat_answer seed files path.now }
{
    match number_at(files, path) {
        Some(k) => StatAnswer::File(stamp_of(seed, k)),
        None if folder_among(files, path).is_some() => StatAnswer::Folder,
        None => StatAnswer::Gone,
    }
}

/// What the reading of a folder answers, among so many files.
fn dir_in(alloc: Global, files: u64, path: &str) -> Result<DirAnswer, AllocError>
    ensures { IfOk result (λ answer. dir_facts answer ≡ dir_answer files path.now) }
{
    let Some(folder) = folder_among(files, path) else {
        return Ok(DirAnswer::Gone);
    };
    Ok(DirAnswer::Listed {
        entries: entries_of(alloc, files, folder)?,
        skipped: 0,
    })
}

impl ForgeTree {
    /// Loads a file, and keeps the question.
    fn load_forged(&mut self, alloc: Global, path: &str, limit: u64) -> LoadAnswer<OpenWorld>
        ensures forged { RunsForged self.old self.new (load path.now limit (load_facts result)) }
        ensures few { self.old.files ≤ FILES_LIMIT }
    {
        let Ok(answer) = load_in(alloc, self.seed, self.files, path, limit) else {
            return LoadAnswer::OutOfMemory;
        };
        if self.keep(Question::load(alloc, path, limit)) {
            answer
        } else {
            LoadAnswer::OutOfMemory
        }
    }

    /// Looks at a path, and keeps the question.
    fn stat_forged(&mut self, alloc: Global, path: &str) -> StatAnswer
        ensures forged { RunsForged self.old self.new (stat path.now result) }
        ensures few { self.old.files ≤ FILES_LIMIT }
    {
        let answer = stat_in(self.seed, self.files, path);
        if self.keep(Question::stat(alloc, path)) {
            answer
        } else {
            StatAnswer::OutOfMemory
        }
    }

    /// Reads a folder, and keeps the question.
    fn dir_forged(&mut self, alloc: Global, path: &str) -> DirAnswer
        ensures forged { RunsForged self.old self.new (read_dir path.now (dir_facts result)) }
        ensures few { self.old.files ≤ FILES_LIMIT }
    {
        let Ok(answer) = dir_in(alloc, self.files, path) else {
            return DirAnswer::OutOfMemory;
        };
        if self.keep(Question::read_dir(alloc, path)) {
            answer
        } else {
            DirAnswer::OutOfMemory
        }
    }

    /// Opens a file, and keeps the question.
    fn open_forged(&mut self, alloc: Global, path: &str, limit: u64) -> OpenAnswer<Found<OpenWorld>>
        ensures forged { RunsForged self.old self.new
            (open_file path.now limit (open_facts result)) }
        ensures few { self.old.files ≤ FILES_LIMIT }
        ensures name { IsOpenedAs found_name path.now result }
        ensures opens { OpensForged self.old.seed self.old.files path.now result }
    {
        let Ok(answer) = open_in(alloc, self.seed, self.files, path, limit) else {
            return OpenAnswer::OutOfMemory;
        };
        if self.keep(Question::open(alloc, path, limit)) {
            answer
        } else {
            OpenAnswer::OutOfMemory
        }
    }

    /// Lists a read that filled a room where the questions are told, or leaves the tree as it is.
    /// Says which.
    fn list_read(&mut self, file: &Found<OpenWorld>, at: u64, room: &[u8]) -> bool
        ensures kept { OnTrue result (self.new ≡ record self.old {
          heard = with_answers self.old.heard (read_at (found_name file.now) at (room_filled room.now) ∷ []);
        }) }
        ensures same { OnFalse result (self.new ≡ self.old) }
        ensures few { self.old.files ≤ FILES_LIMIT }
    {
        let Some(asked) = &self.asked else {
            return true
        };
        let alloc = *asked.allocator();
        self.keep(Question::read(alloc, file, at, room))
    }

    /// Lists a read that filled a room, or tells no questions from now on.
    fn keep_read(&mut self, file: &Found<OpenWorld>, at: u64, room: &[u8])
        ensures forged { ReadsForged self.old self.new
            (read_at (found_name file.now) at (room_filled room.now)) }
        ensures few { self.old.files ≤ FILES_LIMIT }
    {
        if self.list_read(file, at, room) {
            return;
        }
        self.asked = None;
    }
}

impl Tree<OpenWorld> for ForgeTree {
    ghost use Rattle.std.specs.Prelude.{true};
    ghost use Rattle.tree_trait.specs.Found.{found_name};
    ghost use Rattle.elf_forge.specs.Tree.{forge_shows};

    type File = Found<OpenWorld>;

    ghost told = { true };

    ghost shows = { forge_shows };

    ghost opened = { found_name };

    fn load(&mut self, alloc: Global, path: &str, limit: u64) -> LoadAnswer<OpenWorld>
        ensures asks { AsksTree true (λ _ _ _. Unit {0}) (forge_shows self.old) (forge_shows self.new)
            (load path.now limit (load_facts result)) }
        ensures memory { IsTrue (wants_memory (load path.now limit (load_facts result)))
            → self.new ≡ self.old }
        ensures forged { RunsForged self.old self.new (load path.now limit (load_facts result)) }
    {
        self.load_forged(alloc, path, limit)
    }

    fn stat(&mut self, alloc: Global, path: &str) -> StatAnswer
        ensures asks { AsksTree true (λ _ _ _. Unit {0}) (forge_shows self.old) (forge_shows self.new)
            (stat path.now result) }
        ensures memory { IsTrue (wants_memory (stat path.now result)) → self.new ≡ self.old }
        ensures forged { RunsForged self.old self.new (stat path.now result) }
    {
        self.stat_forged(alloc, path)
    }

    fn read_dir(&mut self, alloc: Global, path: &str) -> DirAnswer
        ensures asks { AsksTree true (λ _ _ _. Unit {0}) (forge_shows self.old) (forge_shows self.new)
            (read_dir path.now (dir_facts result)) }
        ensures memory { IsTrue (wants_memory (read_dir path.now (dir_facts result)))
            → self.new ≡ self.old }
        ensures forged { RunsForged self.old self.new (read_dir path.now (dir_facts result)) }
    {
        self.dir_forged(alloc, path)
    }

    fn open_file(&mut self, alloc: Global, path: &str, limit: u64) -> OpenAnswer<Found<OpenWorld>>
        ensures asks { AsksTree true (λ _ _ _. Unit {0}) (forge_shows self.old) (forge_shows self.new)
            (open_file path.now limit (open_facts result)) }
        ensures name { IsOpenedAs found_name path.now result }
        ensures memory { IsTrue (wants_memory (open_file path.now limit (open_facts result)))
            → self.new ≡ self.old }
        ensures forged { RunsForged self.old self.new
            (open_file path.now limit (open_facts result)) }
        ensures opens { OpensForged self.old.seed self.old.files path.now result }
    {
        self.open_forged(alloc, path, limit)
    }

    fn read_at(&mut self, file: &mut Found<OpenWorld>, at: u64, room: &mut [u8]) -> RoomAnswer
        requires some { 0 < length room.old }
        requires inside { at + length room.old ≤ file.old.stamp.size }
        ensures asks { ReadsOpened true (λ _ _ _. Unit {0}) (forge_shows self.old)
            (forge_shows self.new) (read_at (found_name file.old) at (room_facts result room.new)) }
        ensures name { found_name file.new ≡ found_name file.old }
        ensures len { length room.new ≡ length room.old }
        ensures bytes { result ≡ RoomAnswer.Filled → false ≡ true → (b : List ℕ) → Unit {0}
            → room.new ≡ bytes_at b at (length room.old) }
        ensures answer { result ≡ RoomAnswer.Filled }
        ensures own { room.new ≡ bytes_at file.old.bytes at (length room.old) }
        ensures keeps { file.new ≡ file.old }
        ensures forged { ReadsForged self.old self.new
            (read_at (found_name file.old) at (room_filled room.new)) }
    {
        file.read_into(at, room);
        self.keep_read(file, at, room);
        RoomAnswer::Filled
    }
}
