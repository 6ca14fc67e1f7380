//! Whether a database has the tables of the store, or may get them.

ghost use Rattle.std.specs.Prelude.{◌≡◌, [], ◌∷◌, None, Some, true, false, codes, IsTrue};
ghost use Rattle.sqlite_schema.specs.declared.schema.Kind.TheVariants.{Integer, Text, Blob};
ghost use Rattle.sqlite_keeper.specs.Schema.{Fits, IsStore, begun_schema, column_of, kept_index};
ghost use Rattle.sqlite_keeper.specs.Schema.{no_schema, rows_table, second_of};

use sqlite_items::Items;
use sqlite_schema::schema::{Column, Index, Kind, Schema, Stamps, Table};
use sqlite_value::keys::{Collation, Order};
use sqlite_value::value::Value;

/// Whether it is a strict column without a default, of this name and type, and NOT NULL or not.
#[tactic(auto, using(crate::proofs::PartLemmas::column_is))]
fn is_column(column: &Column, name: &[u8], kind: Kind, not_null: bool) -> bool
    ensures { IsTrue result → column.now ≡ column_of name.now kind not_null }
{
    column.name.as_slice() == name
        && column.kind == kind
        && column.is_strict
        && column.not_null == not_null
        && matches!(column.default, Value::Null)
        && matches!(column.collation, Collation::Binary)
}

/// Whether they are the columns of the rows.
fn are_columns(columns: &[Column]) -> bool
    ensures { IsTrue result → columns.now ≡ rows_table.columns }
{
    match columns {
        [path, body] => {
            is_column(path, b"path".as_slice(), Kind::Text, true)
                && is_column(body, b"body".as_slice(), Kind::Blob, true)
        }
        _ => false,
    }
}

/// Whether they are the columns of the number of openings.
fn are_epoch_columns(columns: &[Column]) -> bool
    ensures { IsTrue result →
        columns.now ≡ column_of (codes "one") Integer false ∷ column_of (codes "n") Integer true ∷ [] }
{
    match columns {
        [one, n] => {
            is_column(one, b"one".as_slice(), Kind::Integer, false)
                && is_column(n, b"n".as_slice(), Kind::Integer, true)
        }
        _ => false,
    }
}

/// Whether it is this place alone. The rowid has place 0, and so has the column that stands for it;
/// each other column has the place behind its own number.
fn is_place(places: &[usize], place: usize) -> bool
    ensures { IsTrue result → places.now ≡ place ∷ [] }
{
    match places {
        [one] => *one == place,
        _ => false,
    }
}

/// Whether it is one UNIQUE of the path alone.
fn are_uniques(uniques: &[Items<usize>]) -> bool
    ensures { IsTrue result → uniques.now ≡ rows_table.uniques }
{
    match uniques {
        [one] => is_place(one.as_slice(), 1),
        _ => false,
    }
}

/// Whether it is one order that ascends.
fn are_orders(orders: &[Order]) -> bool
    ensures { IsTrue result → orders.now ≡ rows_table.orders }
{
    match orders {
        [one] => one.digits == 0,
        _ => false,
    }
}

/// Whether no default reads the time.
#[tactic(auto, using(crate::proofs::PartLemmas::stamps_is))]
fn are_stamps(stamps: &Stamps) -> bool
    ensures { IsTrue result → stamps.now ≡ rows_table.stamps }
{
    stamps.places.is_empty() && stamps.terms.roots.is_empty() && stamps.formats.is_empty()
}

/// Whether it is the table of the rows.
#[tactic(auto, using(crate::proofs::PartLemmas::table_is))]
fn is_kept(table: &Table) -> bool
    ensures { IsTrue result → table.now ≡ rows_table }
{
    table.name.as_slice() == b"kept".as_slice()
        && table.tree == 0
        && are_columns(table.columns.as_slice())
        && table.key.is_none()
        && is_place(table.primary.as_slice(), 1)
        && are_uniques(table.uniques.as_slice())
        && are_orders(table.orders.as_slice())
        && table.checks.roots.is_empty()
        && table.references.is_empty()
        && table.computed.is_empty()
        && are_stamps(&table.stamps)
        && !table.is_counted
}

/// Whether it is the index of the paths.
#[tactic(auto, using(crate::proofs::PartLemmas::index_is))]
fn is_index(index: &Index) -> bool
    ensures { IsTrue result → index.now ≡ kept_index }
{
    index.name.as_slice() == b"sqlite_autoindex_kept_1".as_slice()
        && index.tree == 1
        && index.table == 0
        && is_place(index.columns.as_slice(), 1)
        && index.order.digits == 0
        && index.is_unique
}

/// Whether it is the table of the number of openings, whatever its CHECKs ask.
#[tactic(auto, using(crate::proofs::PartLemmas::second_is))]
fn is_second(table: &Table) -> bool
    ensures { IsTrue result → table.now ≡ second_of table.now }
{
    table.name.as_slice() == b"epoch".as_slice()
        && table.tree == 2
        && are_epoch_columns(table.columns.as_slice())
        && matches!(table.key, Some(0))
        && is_place(table.primary.as_slice(), 0)
        && table.uniques.is_empty()
        && table.orders.is_empty()
        && table.references.is_empty()
        && table.computed.is_empty()
        && are_stamps(&table.stamps)
        && !table.is_counted
}

/// Whether the database has nothing.
fn is_blank(schema: &Schema) -> bool
    ensures { IsTrue result → schema.now ≡ no_schema }
{
    match (schema.tables.as_slice(), schema.indexes.as_slice()) {
        ([], []) => schema.views.is_empty(),
        _ => false,
    }
}

/// Whether the database has the table of the rows alone.
fn is_begun(schema: &Schema) -> bool
    ensures { IsTrue result → schema.now ≡ begun_schema }
{
    match (schema.tables.as_slice(), schema.indexes.as_slice()) {
        ([first], [index]) => is_kept(first) && is_index(index) && schema.views.is_empty(),
        _ => false,
    }
}

/// Whether the database has the tables of the store, and nothing else.
pub fn is_store(schema: &Schema) -> bool
    ensures { IsTrue result → IsStore schema.now }
{
    match (schema.tables.as_slice(), schema.indexes.as_slice()) {
        ([first, second], [index]) => {
            is_kept(first) && is_second(second) && is_index(index) && schema.views.is_empty()
        }
        _ => false,
    }
}

/// Whether the database has the tables of the store, the first of them, or nothing.
pub fn fits(schema: &Schema) -> bool
    ensures { IsTrue result → Fits schema.now }
{
    is_blank(schema) || is_begun(schema) || is_store(schema)
}
