//! Rows, and what files are found to be.

ghost use Rattle.std.specs.Prelude.{◌≡◌, ◌∷◌, [], IfOk, IfErr};
ghost use Rattle.sample_rows.specs.Names.{RefusesPaths, sample_texts};
ghost use Rattle.sample_rows.specs.Rows.{RefusesElf, elf_of, plain_of, row_of};

use crate::fault::SampleFault;
use crate::naming::{name, paths};
use row_types::{BuildId, EDITION, Ident, OpenWorld, Reading, Row, Sources, TrueRow, Why};
use std::alloc::Global;

/// What a file with this id is found to be: it has code or not, debug information or not, and was
/// made from these sources, which stand by path.
#[tactic(auto, unfolding(crate::specs::Names::RefusesPaths, crate::specs::Rows::RefusesElf))]
pub fn elf(
    alloc: Global,
    id: &[u8],
    exec: bool,
    debug: bool,
    sources: &[&str],
) -> Result<Reading, SampleFault>
    ensures value { IfOk result (λ found.
        found ≡ elf_of id.now exec debug (sample_texts sources.now)) }
    ensures refused { IfErr result (RefusesElf id.now (sample_texts sources.now)) }
{
    let ident = Ident {
        id: BuildId::new(id).ok_or(SampleFault::NotAnId)?,
        exec,
        debug,
    };
    match Sources::check(paths(alloc, sources)?) {
        Ok(sources) => Ok(Reading::Elf { ident, sources }),
        Err(_) => Err(SampleFault::NotByPath),
    }
}

/// The row of a file of this path and size, which is found to be this. In the open world it is
/// true.
pub fn row(
    alloc: Global,
    text: &str,
    size: u64,
    reading: Reading,
) -> Result<TrueRow<OpenWorld>, SampleFault>
    ensures value { IfOk result (λ row. row ≡ row_of text.now size reading) }
    ensures refused { IfErr result (RefusesPaths (text.now ∷ [])) }
{
    Ok(TrueRow::new(Row::new(name(alloc, text, size)?, EDITION, reading)))
}

/// The row of a file of this path and size, which is no ELF file.
pub fn plain(alloc: Global, text: &str, size: u64) -> Result<TrueRow<OpenWorld>, SampleFault>
    ensures value { IfOk result (λ row. row ≡ plain_of text.now size) }
    ensures refused { IfErr result (RefusesPaths (text.now ∷ [])) }
{
    row(alloc, text, size, Reading::Plain(Why::NotElf))
}
