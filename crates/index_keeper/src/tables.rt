//! The tables of a store in memory.

ghost use Rattle.std.specs.Prelude.{◌≡◌, ◌++◌, [], IfOk, OnOk, OnErr, option_map};
ghost use Rattle.index_keeper.specs.Tables.{AscendsByPath, bytes_under, edited, put_bytes, removal_of};
ghost use Rattle.index_keeper.specs.Tables.{undo_of};
ghost use Rattle.index_keeper.specs.Tree.{kept_in};

use crate::edit::Edit;
use crate::kept::Kept;
use std::alloc::{AllocError, Global};
use std::collections::BTreeMap;
use std::marker::Model;

/// Rows by path, each path once, in a tree; those that a store begins with stand in a list before
/// it until the first change. Contracts see all of them as one list.
#[derive(Drop)]
pub struct Tables {
    given: Vec<Kept>,
    tree: BTreeMap<String, Vec<u8>>,
}

impl Model for Tables {
    ghost use Rattle.std.specs.Prelude.{List, ◌++◌};
    ghost use Rattle.index_keeper.specs.Tables.{KeptFacts, AscendsByPath};
    ghost use Rattle.index_keeper.specs.Tree.{kept_in};

    ghost Value = { List KeptFacts };

    ghost view = { λ t. t.given.items ++ kept_in t.tree.entries };

    ghost invariant = { λ t. AscendsByPath (t.given.items ++ kept_in t.tree.entries) };
}

impl Tables {
    /// No rows.
    pub fn new(alloc: Global) -> Tables
        ensures { result ≡ [] }
    {
        Tables::of(alloc, Vec::new(alloc))
    }

    /// The tables of these rows.
    pub fn of(alloc: Global, rows: Vec<Kept>) -> Tables
        requires { AscendsByPath rows.items }
        ensures { result ≡ rows.items }
    {
        Tables {
            given: rows,
            tree: BTreeMap::new(alloc),
        }
    }

    /// Copies of the rows, by path.
    pub fn copies(&self, alloc: Global) -> Result<Vec<Kept>, AllocError>
        ensures rows { IfOk result (λ copies. copies.items ≡ self.now) }
        ensures ascend { AscendsByPath self.now }
    {
        copy_all(alloc, self.given.as_slice(), &self.tree)
    }

    /// The change that takes back what a change of the path does.
    pub fn undo(&mut self, alloc: Global, path: &str) -> Result<Edit, AllocError>
        ensures value { IfOk result (λ edit. edit ≡ undo_of path.now self.old) }
        ensures same { self.new ≡ self.old }
    {
        settle(&mut self.given, &mut self.tree, alloc)?;
        Ok(Edit {
            path: String::from_str(alloc, path)?,
            bytes: copy_at(alloc, &self.tree, path)?,
        })
    }

    /// Makes a change, of copies of its parts, or leaves the tables as they are.
    pub fn edit(&mut self, alloc: Global, edit: &Edit) -> Result<(), AllocError>
        ensures ok { OnOk result (self.new ≡ edited self.old edit.now) }
        ensures back { OnOk result (edited self.new (undo_of edit.now.path self.old) ≡ self.old) }
        ensures err { OnErr result (self.new ≡ self.old) }
    {
        settle(&mut self.given, &mut self.tree, alloc)?;
        match &edit.bytes {
            Some(bytes) => {
                put_row(&mut self.tree, alloc, edit.path.as_str(), bytes.as_slice())?;
            }
            None => remove_row(&mut self.tree, edit.path.as_str()),
        }
        Ok(())
    }
}

/// Moves the rows of the list into the tree, as far as memory suffices.
fn settle(
    given: &mut Vec<Kept>,
    tree: &mut BTreeMap<String, Vec<u8>>,
    alloc: Global,
) -> Result<(), AllocError>
    requires { AscendsByPath (given.old.items ++ kept_in tree.old.entries) }
    ensures same { given.new.items ++ kept_in tree.new.entries
        ≡ given.old.items ++ kept_in tree.old.entries }
    ensures ok { OnOk result (given.new.items ≡ []) }
{
    while let Some(row) = given.last() {
        put_row(tree, alloc, row.path.as_str(), row.bytes.as_slice())?;
        let _moved = given.pop();
    }
    Ok(())
}

/// Copies of the rows of the list, and of those of the tree behind them.
fn copy_all(
    alloc: Global,
    given: &[Kept],
    tree: &BTreeMap<String, Vec<u8>>,
) -> Result<Vec<Kept>, AllocError>
    ensures { IfOk result (λ copies. copies.items ≡ given.now ++ kept_in tree.now.entries) }
{
    let mut copies = copies_of(alloc, given)?;
    for (path, bytes) in tree {
        copies.push(Kept::of(alloc, path.as_str(), bytes.as_slice())?)?;
    }
    Ok(copies)
}

/// Copies of the rows.
fn copies_of(alloc: Global, rows: &[Kept]) -> Result<Vec<Kept>, AllocError>
    ensures { IfOk result (λ copies. copies.items ≡ rows.now) }
{
    let mut copies = Vec::with_capacity(alloc, rows.len())?;
    for row in rows {
        copies.push(row.copy(alloc)?)?;
    }
    Ok(copies)
}

/// A copy of the bytes that are kept under the path, if any.
fn copy_at(
    alloc: Global,
    tree: &BTreeMap<String, Vec<u8>>,
    path: &str,
) -> Result<Option<Vec<u8>>, AllocError>
    ensures { IfOk result (λ copy. option_map (λ bytes. bytes.items) copy ≡ bytes_under path.now
        (kept_in tree.now.entries)) }
{
    match tree.get(path) {
        Some(bytes) => Ok(Some(Vec::from_slice(alloc, bytes.as_slice())?)),
        None => Ok(None),
    }
}

/// Keeps a copy of the bytes under a copy of the path, or leaves the rows as they are.
fn put_row(
    tree: &mut BTreeMap<String, Vec<u8>>,
    alloc: Global,
    path: &str,
    bytes: &[u8],
) -> Result<(), AllocError>
    requires { AscendsByPath (kept_in tree.old.entries) }
    ensures ok { OnOk result (kept_in tree.new.entries
        ≡ edited (kept_in tree.old.entries) (put_bytes path.now bytes.now)) }
    ensures err { OnErr result (kept_in tree.new.entries ≡ kept_in tree.old.entries) }
{
    let path = String::from_str(alloc, path)?;
    let bytes = Vec::from_slice(alloc, bytes)?;
    tree.insert(path, bytes)?;
    Ok(())
}

/// Keeps nothing under the path.
fn remove_row(tree: &mut BTreeMap<String, Vec<u8>>, path: &str)
    requires { AscendsByPath (kept_in tree.old.entries) }
    ensures { kept_in tree.new.entries ≡ edited (kept_in tree.old.entries) (removal_of path.now) }
{
    let _bytes = tree.remove(path);
}
