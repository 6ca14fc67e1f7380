//! Rows, lent one after the other.

ghost use Rattle.std.specs.Prelude.{◌≡◌, ◌∷◌, [], filter, IfSome, IfNone};
ghost use Rattle.std.specs.Iterator.{YieldsFirstRef, item_count};
ghost use Rattle.std.specs.Map.{values_of};
ghost use Rattle.index_rows.specs.Classes.{is_of_kind};
ghost use Rattle.index_rows.specs.Left.{is_wanted, left_in};
ghost use Rattle.index_rows.specs.Shelf.{rows_under};
ghost use Rattle.index_rows.specs.Slots.{rows_in_slots};
ghost use Rattle.index_rows.specs.Table.{walked};
ghost use Rattle.index_rows.specs.declared.row_iter.Rest.{Rest};

use crate::row_map::RowMap;
use crate::shelf::Held;
use crate::tally::Tallied;
use row_types::{CanonPath, Ident, Kind, Reading, Row};
use std::collections::btree_map::{Range, Values};
use std::marker::Model;

/// The rows under some numbers.
#[derive(Drop)]
pub(crate) struct UnderNumbers<'a> {
    numbers: Values<'a, CanonPath, usize>,
    held: &'a Held,
}

/// The rows under the numbers of some paths.
#[derive(Drop)]
pub(crate) struct AfterPath<'a> {
    numbers: Range<'a, CanonPath, usize>,
    held: &'a Held,
}

/// The rows at some paths, of a kind if one is wanted.
#[derive(Drop)]
pub(crate) struct AtPaths<'a> {
    entries: &'a [Tallied],
    rows: &'a RowMap,
    kind: Option<Kind>,
}

/// The rows that are left.
#[derive(Drop)]
pub(crate) enum Rest<'a> {
    /// All.
    All(UnderNumbers<'a>),
    /// Those behind a path.
    After(AfterPath<'a>),
    /// Those at some paths.
    Found(AtPaths<'a>),
}

/// Rows, lent in path order. Contracts see it as the list of the rows that are left.
#[derive(Drop)]
pub struct RowIter<'a> {
    rest: Rest<'a>,
}

impl<'a> Model for RowIter<'a> {
    ghost use Rattle.std.specs.Prelude.{List};
    ghost use Rattle.row_types.specs.Row.{RowFacts};
    ghost use Rattle.index_rows.specs.Left.{left_in};

    ghost Value = { List RowFacts };

    ghost view = { λ it. left_in it.rest };
}

impl<'a> RowIter<'a> {
    /// The rows under the numbers.
    pub(crate) fn all(numbers: Values<'a, CanonPath, usize>, held: &'a Held) -> RowIter<'a>
        ensures { result ≡ rows_under held.now numbers.entry }
    {
        RowIter {
            rest: Rest::All(UnderNumbers { numbers, held }),
        }
    }

    /// The rows under the paths' numbers.
    pub(crate) fn after(numbers: Range<'a, CanonPath, usize>, held: &'a Held) -> RowIter<'a>
        ensures { result ≡ rows_under held.now (values_of numbers.entry) }
    {
        RowIter {
            rest: Rest::After(AfterPath { numbers, held }),
        }
    }

    /// The rows at the paths that count, of the kind if one is given.
    pub(crate) fn found(entries: &'a [Tallied], rows: &'a RowMap, kind: Option<Kind>) -> RowIter<'a>
        ensures { result ≡ filter (λ row. is_wanted kind row.reading)
            (walked entries.now (rows_in_slots rows.now)) }
    {
        RowIter {
            rest: Rest::Found(AtPaths {
                entries,
                rows,
                kind,
            }),
        }
    }
}

impl<'a> Iterator for RowIter<'a> {
    type Item = &'a Row;

    ghost next_gives = { YieldsFirstRef (λ it. it) };

    ghost remaining = { item_count (λ it. it) };

    fn next(&mut self) -> Option<&'a Row> {
        match &mut self.rest {
            Rest::All(all) => next_held(&mut all.numbers, all.held),
            Rest::After(after) => next_after(&mut after.numbers, after.held),
            Rest::Found(found) => next_found(found),
        }
    }
}

/// The next row under the numbers.
fn next_held<'a>(numbers: &mut Values<'a, CanonPath, usize>, held: &'a Held) -> Option<&'a Row>
    ensures some { IfSome result (λ row.
        rows_under held.now numbers.old ≡ row.now ∷ rows_under held.now numbers.new) }
    ensures none { IfNone result (rows_under held.now numbers.old ≡ []) }
    ensures end { IfNone result (rows_under held.now numbers.new ≡ []) }
{
    while let Some(number) = numbers.next() {
        if let Some(Some(row)) = held.get(*number) {
            return Some(row);
        }
    }
    None
}

/// The next row under the paths' numbers.
fn next_after<'a>(numbers: &mut Range<'a, CanonPath, usize>, held: &'a Held) -> Option<&'a Row>
    ensures some { IfSome result (λ row. rows_under held.now (values_of numbers.old)
        ≡ row.now ∷ rows_under held.now (values_of numbers.new)) }
    ensures none { IfNone result (rows_under held.now (values_of numbers.old) ≡ []) }
    ensures end { IfNone result (rows_under held.now (values_of numbers.new) ≡ []) }
{
    while let Some((_, number)) = numbers.next() {
        if let Some(Some(row)) = held.get(*number) {
            return Some(row);
        }
    }
    None
}

/// The next row at the paths.
fn next_found<'a>(found: &mut AtPaths<'a>) -> Option<&'a Row>
    ensures some { IfSome result (λ row.
        left_in (Rest.Found found.old) ≡ row.now ∷ left_in (Rest.Found found.new)) }
    ensures none { IfNone result (left_in (Rest.Found found.old) ≡ []) }
    ensures end { IfNone result (left_in (Rest.Found found.new) ≡ []) }
{
    let (row, rest) = first_found(found.entries, found.rows, found.kind)?;
    found.entries = rest;
    Some(row)
}

/// The first row at the paths that count, and the paths behind its own.
fn first_found<'a>(
    entries: &'a [Tallied],
    rows: &'a RowMap,
    kind: Option<Kind>,
) -> Option<(&'a Row, &'a [Tallied])>
    ensures some { IfSome result (λ found.
        filter (λ row. is_wanted kind row.reading) (walked entries.now (rows_in_slots rows.now))
        ≡ found.0.now
        ∷ filter (λ row. is_wanted kind row.reading) (walked found.1.now (rows_in_slots rows.now))) }
    ensures none { IfNone result
        (filter (λ row. is_wanted kind row.reading) (walked entries.now (rows_in_slots rows.now))
        ≡ []) }
{
    let mut left = entries;
    while let Some((entry, rest)) = left.split_first() {
        if entry.count > 0
            && let Some(row) = rows.get_near(entry.number, &entry.path)
            && is_wanted(kind, &row.reading)
        {
            return Some((row, rest));
        }
        left = rest;
    }
    None
}

/// Whether a file of the reading is of the kind, if one is wanted.
fn is_wanted(kind: Option<Kind>, reading: &Reading) -> bool
    ensures { result ≡ is_wanted kind reading.now }
{
    match (kind, reading) {
        (None, _) => true,
        (Some(_), Reading::Plain(_)) => false,
        (Some(kind), Reading::Elf { ident, sources: _ }) => is_of_kind(kind, ident),
    }
}

/// Whether the file is of the kind.
fn is_of_kind(kind: Kind, ident: &Ident) -> bool
    ensures { result ≡ is_of_kind kind ident.now }
{
    match kind {
        Kind::Executable => ident.exec,
        Kind::Debuginfo => ident.debug,
    }
}
