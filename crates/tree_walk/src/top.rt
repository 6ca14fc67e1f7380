//! The walk.

ghost use Rattle.std.specs.Prelude.{◌≡◌, ◌+◌, ◌≤◌, ◌<◌, ℕ, List, [], ◌∷◌, ◌++◌, ◌^◌, length};
ghost use Rattle.std.specs.Prelude.{IsTrue, IfErr, IfOk, OnOk};
ghost use Rattle.std.specs.String.{string_bytes};
ghost use Rattle.path_scope.specs.Scope.{Scope, scope_of};
ghost use Rattle.row_types.specs.Canon.{IsCanonPath};
ghost use Rattle.row_types.specs.Under.{front_under};
ghost use Rattle.tree_trait.specs.Dir.{child};
ghost use Rattle.tree_trait.specs.Entry.{EntryFacts};
ghost use Rattle.tree_trait.specs.Heard.{Heard};
ghost use Rattle.tree_trait.specs.Shown.{HandsOn};
ghost use Rattle.tree_walk.specs.Ends.{GoesByAnswers, IsCause, WalksTree};
ghost use Rattle.tree_walk.specs.Files.{AreFilesUnder, FitsFault};
ghost use Rattle.tree_walk.specs.Underway.{AreFirstRootsSeen, IsEntered, IsUnderway};
ghost use Rattle.tree_walk.specs.Underway.{IsNextEntry, IsNextPath};
ghost use Rattle.tree_walk.specs.Kept.{kept_as};
ghost use Rattle.tree_walk.specs.Search.{with_last};

use crate::ask::{look, read};
use crate::fault::WalkFault;
use crate::search::Search;
use crate::walked::{ENTRY_LIMIT, Walk};
use path_scope::Selection;
use row_types::{CanonPath, SEPARATOR, Truth};
use std::alloc::{AllocError, Global};
use tree_trait::{Entry, EntryKind, StatAnswer, Tree};

/// Lists the selected files under the roots. The roots are looked at first, in the order given; a
/// root that is a file is listed itself, if it is selected. Each folder is read, whether its path is
/// selected or not. A folder that is gone is empty. The walk ends at its first fault.
pub fn walk<W: Truth, T: Tree<W>, S: Selection>(
    alloc: Global,
    hand: &mut T,
    roots: &[CanonPath],
    select: &mut S,
) -> Result<Walk, WalkFault>
    ensures walk { WalksTree T.told (T.shows hand.old) (T.shows hand.new)
        (scope_of roots.now (S.takes select.old)) result }

    // Whether or not the answers are told at the end.
    ensures files { IsTrue T.told → (T.shows hand.old).Still
        → IfOk result (λ walk. AreFilesUnder (T.shows hand.old).present
        (scope_of roots.now (S.takes select.old)) walk.listing) }
    ensures refused { IsTrue T.told → (T.shows hand.old).Still
        → IfErr result (FitsFault (T.shows hand.old).present (scope_of roots.now (S.takes select.old))) }
    ensures hands { HandsOn T.told W.version (T.shows hand.old) (T.shows hand.new)
        (0 < length roots.now) (result ≡ Err WalkFault.Failed) }
    ensures same { S.takes select.new ≡ S.takes select.old }
    ensures limit { ENTRY_LIMIT ≡ 2 ^ 22 }
{
    let mut search = begin(alloc, hand, roots, select)?;
    while let Some(folder) = search.next_folder() {
        read_folder(alloc, &mut search, hand, select, &folder)?;
    }
    search.finish(alloc)
}

/// Looks at the roots, in order.
fn begin<W: Truth, T: Tree<W>, S: Selection>(
    alloc: Global,
    hand: &mut T,
    roots: &[CanonPath],
    select: &mut S,
) -> Result<Search, WalkFault>
    ensures goes { GoesByAnswers T.told (T.shows hand.old) (T.shows hand.new) []
        (λ heard search. IsUnderway heard (scope_of roots.now (S.takes select.old)) search [] [])
        (λ heard. IsCause heard (scope_of roots.now (S.takes select.old))) result }
    ensures same { S.takes select.new ≡ S.takes select.old }
    ensures hands { HandsOn T.told W.version (T.shows hand.old) (T.shows hand.new)
        (0 < length roots.now) (result ≡ Err WalkFault.Failed) }
{
    let mut search = Search::new(alloc);
    for root in roots {
        look_at_root(alloc, &mut search, hand, select, root)?;
    }
    Ok(search)
}

/// Looks at a root.
fn look_at_root<W: Truth, T: Tree<W>, S: Selection>(
    alloc: Global,
    search: &mut Search,
    hand: &mut T,
    select: &mut S,
    root: &CanonPath,
) -> Result<(), WalkFault>
    ensures goes { (answers : List Heard) (scope : Scope) (seen after : List (List ℕ))
        → S.takes select.old ≡ scope.takes → scope.roots ≡ seen ++ root.now ∷ after
        → AreFirstRootsSeen answers scope seen search.old
        → GoesByAnswers T.told (T.shows hand.old) (T.shows hand.new) answers
        (λ heard _. AreFirstRootsSeen heard scope (seen ++ root.now ∷ []) search.new)
        (λ heard. IsCause heard scope) result }
    ensures same { S.takes select.new ≡ S.takes select.old }
    ensures hands { HandsOn T.told W.version (T.shows hand.old) (T.shows hand.new) (Unit {0})
        (result ≡ Err WalkFault.Failed) }
{
    let answer = look(alloc, hand, root)?;
    match answer {
        StatAnswer::Gone => Err(WalkFault::RootGone(root.copy(alloc)?)),
        _ => {
            let kept = kept_as(alloc, select, root, answer)?;
            search.note_root(alloc, root, kept)
        }
    }
}

/// What is kept of an answer: a file that isn't selected is as something else.
fn kept_as<S: Selection>(
    alloc: Global,
    select: &mut S,
    path: &CanonPath,
    answer: StatAnswer,
) -> Result<StatAnswer, AllocError>
    ensures value { IfOk result (λ kept. kept ≡ kept_as answer (S.takes select.old path.now)) }
    ensures same { S.takes select.new ≡ S.takes select.old }
{
    match answer {
        StatAnswer::File(_) => {
            let selected = select.selects(alloc, path)?;
            if selected {
                Ok(answer)
            } else {
                Ok(StatAnswer::Other)
            }
        }
        _ => Ok(answer),
    }
}

/// Reads a folder, and sees to each of its entries.
fn read_folder<W: Truth, T: Tree<W>, S: Selection>(
    alloc: Global,
    search: &mut Search,
    hand: &mut T,
    select: &mut S,
    folder: &CanonPath,
) -> Result<(), WalkFault>
    ensures goes { (answers : List Heard) (scope : Scope)
        → S.takes select.old ≡ scope.takes
        → IsUnderway answers scope (with_last search.old folder.now) [] []
        → GoesByAnswers T.told (T.shows hand.old) (T.shows hand.new) answers
        (λ heard _. IsUnderway heard scope search.new [] []) (λ heard. IsCause heard scope) result }
    ensures ends { OnOk result
        (search.new.left + length search.new.todo ≤ search.old.left + length search.old.todo) }
    ensures same { S.takes select.new ≡ S.takes select.old }
    ensures hands { HandsOn T.told W.version (T.shows hand.old) (T.shows hand.new) (Unit {0})
        (result ≡ Err WalkFault.Failed) }
{
    let entries = read_entries(alloc, search, hand, folder)?;
    enter_all(alloc, search, hand, select, folder, entries.as_slice())
}

/// Sees to each entry of a folder.
fn enter_all<W: Truth, T: Tree<W>, S: Selection>(
    alloc: Global,
    search: &mut Search,
    hand: &mut T,
    select: &mut S,
    folder: &CanonPath,
    entries: &[Entry],
) -> Result<(), WalkFault>
    ensures goes { (answers : List Heard) (scope : Scope)
        → S.takes select.old ≡ scope.takes
        → IsEntered answers scope search.old folder.now entries.now
        → GoesByAnswers T.told (T.shows hand.old) (T.shows hand.new) answers
        (λ heard _. IsUnderway heard scope search.new folder.now [])
        (λ heard. IsCause heard scope) result }
    ensures ends { OnOk result ((search.new.left ≡ search.old.left)
        × (length search.new.todo ≤ length search.old.todo + length entries.now)) }
    ensures same { S.takes select.new ≡ S.takes select.old }
    ensures hands { HandsOn T.told W.version (T.shows hand.old) (T.shows hand.new) ⊥
        (result ≡ Err WalkFault.Failed) }
{
    for entry in entries {
        enter(alloc, search, hand, select, folder, entry)?;
    }
    Ok(())
}

/// Reads the entries of a folder, if so many may be read.
fn read_entries<W: Truth, T: Tree<W>>(
    alloc: Global,
    search: &mut Search,
    hand: &mut T,
    folder: &CanonPath,
) -> Result<Vec<Entry>, WalkFault>
    ensures goes { (answers : List Heard) (scope : Scope)
        → IsUnderway answers scope (with_last search.old folder.now) [] []
        → GoesByAnswers T.told (T.shows hand.old) (T.shows hand.new) answers
        (λ heard entries. IsEntered heard scope search.new folder.now entries.items)
        (λ heard. IsCause heard scope) result }
    ensures ends { IfOk result (λ entries.
        (search.new.left + length entries.items ≡ search.old.left)
        × (search.new.todo ≡ search.old.todo)) }
    ensures hands { HandsOn T.told W.version (T.shows hand.old) (T.shows hand.new) (Unit {0})
        (result ≡ Err WalkFault.Failed) }
{
    let content = read(alloc, hand, folder)?;
    if search.pay(content.entries.as_slice(), content.skipped) {
        Ok(content.entries)
    } else {
        Err(WalkFault::TooManyEntries)
    }
}

/// Sees to an entry of a folder.
fn enter<W: Truth, T: Tree<W>, S: Selection>(
    alloc: Global,
    search: &mut Search,
    hand: &mut T,
    select: &mut S,
    folder: &CanonPath,
    entry: &Entry,
) -> Result<(), WalkFault>
    ensures goes { (answers : List Heard) (scope : Scope) (rest : List EntryFacts)
        → S.takes select.old ≡ scope.takes
        → IsNextEntry answers scope search.old folder.now entry.now rest
        → GoesByAnswers T.told (T.shows hand.old) (T.shows hand.new) answers
        (λ heard _. IsUnderway heard scope search.new folder.now rest)
        (λ heard. IsCause heard scope) result }
    ensures ends { OnOk result ((search.new.left ≡ search.old.left)
        × (length search.new.todo ≤ length search.old.todo + 1)) }
    ensures same { S.takes select.new ≡ S.takes select.old }
    ensures hands { HandsOn T.told W.version (T.shows hand.old) (T.shows hand.new) ⊥
        (result ≡ Err WalkFault.Failed) }
{
    let text = child(alloc, folder, entry.name())?;
    match CanonPath::check(text) {
        Ok(path) => enter_path(alloc, search, hand, select, path, entry.kind),
        Err(text) => Ok(search.add_long(text)?),
    }
}

/// Sees to an entry whose path is short enough.
fn enter_path<W: Truth, T: Tree<W>, S: Selection>(
    alloc: Global,
    search: &mut Search,
    hand: &mut T,
    select: &mut S,
    path: CanonPath,
    kind: EntryKind,
) -> Result<(), WalkFault>
    ensures goes { (answers : List Heard) (scope : Scope) (folder : List ℕ)
        (entry : EntryFacts) (rest : List EntryFacts)
        → S.takes select.old ≡ scope.takes
        → entry.kind ≡ kind → IsNextPath answers scope search.old folder entry rest path
        → GoesByAnswers T.told (T.shows hand.old) (T.shows hand.new) answers
        (λ heard _. IsUnderway heard scope search.new folder rest)
        (λ heard. IsCause heard scope) result }
    ensures ends { OnOk result ((search.new.left ≡ search.old.left)
        × (length search.new.todo ≤ length search.old.todo + 1)) }
    ensures same { S.takes select.new ≡ S.takes select.old }
    ensures hands { HandsOn T.told W.version (T.shows hand.old) (T.shows hand.new) ⊥
        (result ≡ Err WalkFault.Failed) }
{
    match kind {
        EntryKind::Folder => Ok(search.add_folder(alloc, &path)?),
        EntryKind::File => look_at_file(alloc, search, hand, select, path),
        EntryKind::Other => Ok(()),
    }
}

/// Looks at a file, unless its path was looked at before or isn't selected.
fn look_at_file<W: Truth, T: Tree<W>, S: Selection>(
    alloc: Global,
    search: &mut Search,
    hand: &mut T,
    select: &mut S,
    path: CanonPath,
) -> Result<(), WalkFault>
    ensures goes { (answers : List Heard) (scope : Scope) (folder : List ℕ)
        (entry : EntryFacts) (rest : List EntryFacts)
        → S.takes select.old ≡ scope.takes
        → entry.kind ≡ EntryKind.File → IsNextPath answers scope search.old folder entry rest path
        → GoesByAnswers T.told (T.shows hand.old) (T.shows hand.new) answers
        (λ heard _. IsUnderway heard scope search.new folder rest)
        (λ heard. IsCause heard scope) result }
    ensures ends { OnOk result ((search.new.left ≡ search.old.left)
        × (search.new.todo ≡ search.old.todo)) }
    ensures same { S.takes select.new ≡ S.takes select.old }
    ensures hands { HandsOn T.told W.version (T.shows hand.old) (T.shows hand.new) ⊥
        (result ≡ Err WalkFault.Failed) }
{
    if search.is_looked(&path) {
        return Ok(());
    }
    let selected = select.selects(alloc, &path)?;
    if !selected {
        return Ok(());
    }
    let answer = look(alloc, hand, &path)?;
    search.note_new(alloc, &path, answer)
}

/// The path of a folder's entry. The root adds no second slash.
fn child(alloc: Global, folder: &CanonPath, name: &str) -> Result<String, AllocError>
    ensures value { IfOk result (λ text. string_bytes text ≡ child folder.now name.now) }
    ensures kept { IsCanonPath folder.now }
{
    let mut text = String::from_str(alloc, parent(folder.text()))?;
    text.push_str("/")?;
    text.push_str(name)?;
    Ok(text)
}

/// A folder's path up to the slash behind it.
fn parent(folder: &str) -> &str
    ensures { result.now ++ SEPARATOR ∷ [] ≡ front_under folder.now }
{
    if folder == "/" { "" } else { folder }
}
