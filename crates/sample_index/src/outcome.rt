//! What work on an index comes to.

ghost use Rattle.std.specs.Prelude.{◌≡◌, IfOk};
ghost use Rattle.index_state.specs.Complete.{standing_of};

use crate::index::Index;
use index_state::Standing;
use row_types::Truth;
use sample_rows::{name_text, rows_text};
use scan_queue::{Cause, Miss, Seen};
use std::alloc::{AllocError, Global};

/// What work on an index came to.
#[derive(Drop)]
pub struct Outcome<R: Copy> {
    /// What was reported.
    pub report: R,
    /// The rows at the end, as `/a 1, /b 2, `.
    pub rows: String,
    /// The first name that was missed, and why, as `/a 1, gone`, or nothing.
    pub missed: String,
    /// The numbers of the index at the end.
    pub standing: Standing,
}

/// What the work came to that left this index, and was reported so.
pub fn outcome_of<W: Truth + Send, R: Copy>(
    alloc: Global,
    index: Index<W>,
    report: R,
) -> Result<Outcome<R>, AllocError>
    ensures report { IfOk result (λ outcome. outcome.report ≡ report) }
    ensures standing { IfOk result (λ outcome. outcome.standing ≡ standing_of index) }
{
    Ok(Outcome {
        report,
        rows: rows_text(alloc, index.rows())?,
        missed: first_missed(alloc, &index)?,
        standing: index.standing(),
    })
}

/// The first name that was missed, and why, or nothing.
fn first_missed<W: Truth + Send>(alloc: Global, index: &Index<W>) -> Result<String, AllocError> {
    match index.first_miss() {
        Some(miss) => missed_text(alloc, miss),
        None => Ok(String::new(alloc)),
    }
}

/// A name that was missed, and why, as `/a 1, gone`.
pub fn missed_text(alloc: Global, miss: &Miss) -> Result<String, AllocError> {
    let mut text = name_text(alloc, &miss.name)?;
    text.push_str(why(miss.cause))?;
    Ok(text)
}

/// Why a name was missed, in words.
fn why(cause: Cause) -> &'static str {
    match cause {
        Cause::ReadFault => "can't be read",
        Cause::Altered { seen: Seen::Gone } => "gone",
        Cause::Altered {
            seen: Seen::File(_),
        } => "another file",
        Cause::Altered { seen: Seen::Other } => "no file",
        Cause::Appeared => "stands there",
    }
}
