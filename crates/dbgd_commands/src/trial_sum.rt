//! The numbers of a trial, and the sum of its rows.

ghost use Rattle.std.specs.Prelude.{◌≡◌, ℕ, ◌++◌, List, IfOk, OnOk};
ghost use Rattle.row_codec.specs.RowBytes.{row_bytes};
ghost use Rattle.sha2.specs.Hashers.{Holds256};
ghost use Rattle.dbgd_commands.specs.Trial.{rows_sum, sources_in, sources_of, totals_of};

use index_keeper::Keeper;
use index_state::State;
use row_codec::write_row;
use row_types::{Reading, Row, Truth};
use sha2::{Digest, Sha256};
use std::alloc::{AllocError, Global};

/// What a trial tells of the rows that its index has.
#[derive(Clone, Copy, PartialEq, Eq)]
pub struct Totals {
    /// Sources, summed over the rows.
    pub sources: u128,
    /// The SHA-256 of the rows' bytes, joined by path.
    pub sum: [u8; 32],
}

/// How many sources a row lists.
fn sources_of(reading: &Reading) -> usize
    ensures { result ≡ sources_of reading.now }
{
    match reading {
        Reading::Plain(_) => 0,
        Reading::Elf { sources, .. } => sources.paths().len(),
    }
}

/// Feeds the bytes of a row to a digest.
fn feed(alloc: Global, digest: &mut Sha256, row: &Row) -> Result<(), AllocError>
    ensures { OnOk result ((m : List ℕ) → Holds256 digest.old m
        → Holds256 digest.new (m ++ row_bytes row.now)) }
{
    digest.update(write_row(alloc, row)?.as_slice());
    Ok(())
}

/// The sum of the rows of an index. The bytes of one row at a time are kept.
fn sum_of<W: Truth, K: Keeper<W>>(
    alloc: Global,
    state: &State<W, K>,
) -> Result<[u8; 32], AllocError>
    ensures { IfOk result (λ sum. sum ≡ rows_sum state.now.rows) }
{
    let mut digest = Sha256::new();
    for row in state.rows() {
        feed(alloc, &mut digest, row)?;
    }
    Ok(digest.finalize())
}

/// How many sources the rows of an index list together.
fn sources_in<W: Truth, K: Keeper<W>>(state: &State<W, K>) -> u128
    ensures { result ≡ sources_in state.now.rows }
{
    // For its clause: there are no more rows than this counts.
    let _standing = state.standing();
    let mut sources = 0;
    for listed in state.rows() {
        sources += sources_of(&listed.reading) as u128;
    }
    sources
}

/// The numbers and the sum of the rows of an index.
pub fn totals_in<W: Truth, K: Keeper<W>>(
    alloc: Global,
    state: &State<W, K>,
) -> Result<Totals, AllocError>
    ensures { IfOk result (λ totals. totals ≡ totals_of state.now.rows) }
{
    Ok(Totals {
        sources: sources_in(state),
        sum: sum_of(alloc, state)?,
    })
}
