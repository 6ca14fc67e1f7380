//! What a target asks of the index.

ghost use Rattle.std.specs.Prelude.{◌≡◌, Ok, codes};
ghost use Rattle.row_types.specs.Limits.{ArePinnedIdLengths, ArePinnedPathLimits};
ghost use Rattle.metadata_query.specs.Asked.{Answers, Asks, KeyAsks, UnlessMemory};
ghost use Rattle.metadata_query.specs.declared.query.MetaQuery.{MetaQuery};

use crate::fault::MetaFault;
use crate::pattern::{PATTERN_LIMIT, Pattern};
use crate::query::MetaQuery;
use crate::written::{pair_of, query_of};
use path_scope::{PathFault, canonical};
use row_types::BuildId;
use std::alloc::Global;
use webapi_routes::{SpellFault, spelled};

/// What a target asks for by its query, which is `key=K&value=V` or `value=V&key=K`. Of its bytes in
/// front of the query nothing is asked.
pub fn parse_metadata(alloc: Global, target: &[u8]) -> Result<MetaQuery, MetaFault>
    ensures says { Answers (Asks target.now) result }
    ensures only { (asked : MetaQuery) → Asks target.now asked → UnlessMemory result (result ≡ Ok asked) }
    ensures lengths { ArePinnedIdLengths }
    ensures limits { ArePinnedPathLimits }
    ensures longest { PATTERN_LIMIT ≡ 4096 }
{
    read_query(alloc, target)
}

/// What a target asks for by its query.
fn read_query(alloc: Global, target: &[u8]) -> Result<MetaQuery, MetaFault>
    ensures { Answers (Asks target.now) result }
{
    let Some(query) = query_of(target) else {
        return Err(MetaFault::BadQuery);
    };
    let Some(pair) = pair_of(query) else {
        return Err(MetaFault::BadQuery);
    };
    match spelled(alloc, pair.value) {
        Ok(text) => asked_by(alloc, pair.key, text.as_str()),
        Err(SpellFault::BadEscape) => Err(MetaFault::BadQuery),
        Err(SpellFault::OutOfMemory) => Err(MetaFault::OutOfMemory),
    }
}

/// What a key asks for with the text of its value.
fn asked_by(alloc: Global, key: &[u8], text: &str) -> Result<MetaQuery, MetaFault>
    ensures { Answers (KeyAsks key.now text.now) result }
{
    match key {
        b"buildid" => by_id(text),
        b"file" => by_file(alloc, text),
        b"glob" => by_glob(alloc, text),
        _ => Err(MetaFault::BadQuery),
    }
}

/// The files of the build-id of these digits.
fn by_id(text: &str) -> Result<MetaQuery, MetaFault>
    ensures { Answers (KeyAsks (codes "buildid") text.now) result }
{
    match BuildId::parse(text.as_bytes()) {
        Some(id) => Ok(MetaQuery::ById(id)),
        None => Err(MetaFault::BadQuery),
    }
}

/// The file at the canonical path of a text.
fn by_file(alloc: Global, text: &str) -> Result<MetaQuery, MetaFault>
    ensures { Answers (KeyAsks (codes "file") text.now) result }
{
    match canonical(alloc, text) {
        Ok(path) => Ok(MetaQuery::ByFile(path)),
        Err(PathFault::OutOfMemory) => Err(MetaFault::OutOfMemory),
        Err(PathFault::NotAbsolute | PathFault::TooLong) => Err(MetaFault::BadQuery),
    }
}

/// The files whose path matches the pattern of a text.
fn by_glob(alloc: Global, text: &str) -> Result<MetaQuery, MetaFault>
    ensures { Answers (KeyAsks (codes "glob") text.now) result }
{
    if text.is_empty() || PATTERN_LIMIT < text.len() {
        return Err(MetaFault::BadQuery);
    }
    Ok(MetaQuery::ByGlob(Pattern::new(alloc, text)?))
}
