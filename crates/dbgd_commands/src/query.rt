//! The command `query`.

ghost use Rattle.std.specs.Prelude.{◌≡◌, ◌++◌, false, filter, IfOk, IsTrue, OnOk};
ghost use Rattle.row_types.specs.Faults.{HasCause};
ghost use Rattle.index_keeper.specs.Store.{HasAll, ShownStore, TakesKeeperBack};
ghost use Rattle.index_rows.specs.Classes.{has_id};
ghost use Rattle.index_state.specs.Opening.{CanOpen};
ghost use Rattle.dbgd_commands.specs.Endings.{streams};
ghost use Rattle.dbgd_commands.specs.Query.{AnswersQuery, LooksBy, Queries, ReadsLines, SaysFound};
ghost use Rattle.dbgd_commands.specs.Query.{SaysLines, is_look_fault, reading_word, row_line, row_lines};

use crate::query_end::QueryEnd;
use crate::scan_sayings::say_refusal;
use crate::speech::{say, say_error, say_no_memory};
use crate::status::Status;
use crate::texts::class_word;
use http_wire::Sink;
use index_keeper::{Keeper, Store, StoreAnswer};
use index_state::{OpenFault, State, open_state};
use row_types::{BuildId, Reading, Row, Truth};
use std::alloc::{AllocError, Global};

/// The word for what a file was found to hold; empty where it has no identity.
fn reading_word(reading: &Reading) -> &'static str
    ensures { result.now ≡ reading_word reading.now }
{
    match reading {
        Reading::Plain(_) => "",
        Reading::Elf { ident, .. } => class_word(ident),
    }
}

/// Adds the line of a row to a text.
fn push_row(text: &mut Vec<u8>, row: &Row) -> Result<(), AllocError>
    ensures { OnOk result (text.new.items ≡ text.old.items ++ row_line row.now) }
{
    text.extend_from_slice(reading_word(&row.reading).as_bytes())?;
    text.push(b' ')?;
    text.extend_from_slice(row.name.path.text().as_bytes())?;
    text.push(b'\n')?;
    Ok(())
}

/// A line for each row with the id, by path.
fn id_lines<W: Truth, K: Keeper<W>>(
    alloc: Global,
    state: &State<W, K>,
    id: &BuildId,
) -> Result<Vec<u8>, AllocError>
    ensures { IfOk result (λ text. text.items
        ≡ row_lines (filter (λ row. has_id id.now row.reading) state.now.rows)) }
{
    let mut text = Vec::new(alloc);
    for row in state.rows_of(id) {
        push_row(&mut text, row)?;
    }
    Ok(text)
}

/// Reads the rows with the id of an index.
fn look_index<W: Truth, K: Keeper<W>>(alloc: Global, state: &State<W, K>, id: &BuildId) -> QueryEnd
    ensures lines { ReadsLines id.now state.now.rows result }
    ensures sound { is_look_fault result ≡ false }
{
    match id_lines(alloc, state, id) {
        Ok(lines) => QueryEnd::Read(lines),
        Err(_) => QueryEnd::OutOfMemory,
    }
}

/// Opens an index on a keeper, reads the rows with the id, and hands the keeper out.
fn look_keeper<W: Truth, K: Keeper<W>>(alloc: Global, keeper: K, id: &BuildId) -> (QueryEnd, K)
    requires { CanOpen K.told (K.shows keeper) }
    ensures ends { (from mid into : ShownStore) → HasAll K.told from (K.shows keeper)
        → TakesKeeperBack K.told (K.shows result.1) mid into
        → LooksBy K.told id.now from into result.0 }
    ensures keeper { HasCause (K.shows keeper).faults (K.shows result.1).faults
        (IsTrue (is_look_fault result.0)) }
{
    match open_state(alloc, keeper) {
        Ok(state) => {
            let end = look_index(alloc, &state, id);
            (end, state.into_keeper())
        }
        Err((fault, keeper)) => (QueryEnd::Refused(fault), keeper),
    }
}

/// Reads the rows with the id of a store. The store has its keeper back by then.
fn look<W: Truth, S: Store<W>>(alloc: Global, path: &str, id: &BuildId, store: &mut S) -> QueryEnd
    ensures { Queries S.K.told path.now id.now (S.shows store.old) (S.shows store.new) result }
{
    match store.open_store(alloc, path) {
        StoreAnswer::Opened(keeper) => {
            let (end, keeper) = look_keeper(alloc, keeper, id);
            store.give_back(keeper);
            end
        }
        StoreAnswer::Failed => QueryEnd::Refused(OpenFault::KeeperFault),
        StoreAnswer::OutOfMemory => QueryEnd::Refused(OpenFault::OutOfMemory),
    }
}

/// Says the lines of rows; where there is none, that nothing was found.
fn say_lines<O: Sink>(lines: &[u8], out: &mut O, err: &mut O) -> Status
    ensures { SaysLines lines.now
        (streams O.shows out.old err.old) (streams O.shows out.new err.new) result }
{
    match lines {
        [] => say_error("dbgd: nothing found", "", Status::Absent, out, err),
        [..] => say(lines, Status::Done, out, err),
    }
}

/// Says how a query ended.
fn say_found<O: Sink>(end: &QueryEnd, out: &mut O, err: &mut O) -> Status
    ensures { SaysFound end.now
        (streams O.shows out.old err.old) (streams O.shows out.new err.new) result }
{
    match end {
        QueryEnd::Refused(fault) => say_refusal(fault, out, err),
        QueryEnd::Read(lines) => say_lines(lines.as_slice(), out, err),
        QueryEnd::OutOfMemory => say_no_memory(out, err),
    }
}

/// Reads the rows with the id of a store, and says what they are.
pub fn run_query<W: Truth, S: Store<W>, O: Sink>(
    alloc: Global,
    path: &str,
    id: &BuildId,
    store: &mut S,
    out: &mut O,
    err: &mut O,
) -> Status
    ensures { AnswersQuery S.K.told path.now id.now (S.shows store.old) (S.shows store.new)
        (streams O.shows out.old err.old) (streams O.shows out.new err.new) result }
{
    let end = look(alloc, path, id, store);
    say_found(&end, out, err)
}
