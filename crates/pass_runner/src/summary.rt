//! The numbers of a pass.

ghost use Rattle.std.specs.Prelude.{◌≡◌, count_by};
ghost use Rattle.pass_runner.specs.Numbers.{is_of, summary_of};

use index_keeper::Keeper;
use index_state::{Plan, State};
use row_types::{Kind, Reading, Truth};

/// What a pass did with the rows of an index, and what stands in it then.
#[derive(Clone, Copy, PartialEq, Eq)]
pub struct Summary {
    /// Listed files.
    pub files: u64,
    /// Listed paths that had no row.
    pub added: u64,
    /// Listed paths whose row had another stamp.
    pub replaced: u64,
    /// Rows whose path isn't listed.
    pub dropped: u64,
    /// Listed names that had a row.
    pub kept: u64,
    /// Rows of files with code to run.
    pub executables: u64,
    /// Rows of files with debug information.
    pub debuginfo: u64,
}

/// The numbers of a pass, by its plan and the rows that stand at its end.
pub fn summary_of<W: Truth, K: Keeper<W>>(state: &State<W, K>, plan: &Plan) -> Summary
    ensures { result ≡ summary_of plan.now state.now.rows }
{
    Summary {
        files: plan.files,
        added: plan.add,
        replaced: plan.replace,
        dropped: plan.drop,
        kept: plan.keep,
        executables: count_of(state, Kind::Executable),
        debuginfo: count_of(state, Kind::Debuginfo),
    }
}

/// How many rows are of files of the kind.
fn count_of<W: Truth, K: Keeper<W>>(state: &State<W, K>, kind: Kind) -> u64
    ensures { result ≡ count_by (λ row. is_of kind row.reading) state.now.rows }
{
    // For its clause: there are no more rows than this counts.
    let _standing = state.standing();
    state.rows().filter(|row| is_of(kind, &row.reading)).count() as u64
}

/// Whether a file is of the kind.
fn is_of(kind: Kind, reading: &Reading) -> bool
    ensures { result ≡ is_of kind reading.now }
{
    match reading {
        Reading::Plain(_) => false,
        Reading::Elf { ident, .. } => match kind {
            Kind::Executable => ident.exec,
            Kind::Debuginfo => ident.debug,
        },
    }
}
