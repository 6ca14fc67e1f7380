//! A row read from its bytes.

ghost use Rattle.std.specs.Prelude.{◌≡◌, ◌-◌, ◌⊎◌, true, false, Ok, Err, IfOk, IfErr, length};
ghost use Rattle.std.specs.Prelude.{MatchResult};
ghost use Rattle.std.specs.List.{slice_get};
ghost use Rattle.row_types.specs.Row.{RowFacts};
ghost use Rattle.row_codec.specs.Read.{is_above, is_path_text, reading_at, row_of_bytes};
ghost use Rattle.row_codec.specs.Read.{sources_at, tagged_at};
ghost use Rattle.row_codec.specs.Reads.{ReadsIfRoom, ReadsPath, RefusesRowBytes};
ghost use Rattle.row_codec.specs.RowBytes.{IsRowBytes};

use crate::codes::{ELF_TAG, PLAIN_TAG};
use crate::fault::CodecFault;
use crate::left::Left;
use crate::parts::{read_edition, read_ident, read_stamp, read_why};
use row_types::{CanonPath, Name, Reading, Row, Sources};
use std::alloc::Global;

/// Reads the row of the bytes. Of several faults the first from the left is answered; want of
/// memory where the text that meets it is read.
pub fn read_row(alloc: Global, bytes: &[u8]) -> Result<Row, CodecFault>
    ensures ok { IfOk result (λ row. IsRowBytes row bytes.now) }
    ensures fault { IfErr result (RefusesRowBytes bytes.now) }
    ensures exact { (row : RowFacts) → IsRowBytes row bytes.now → (result ≡ Ok row) ⊎ (result ≡ Err
        CodecFault.OutOfMemory) }
{
    read_parts(alloc, bytes)
}

/// Reads the parts of a row.
fn read_parts(alloc: Global, bytes: &[u8]) -> Result<Row, CodecFault>
    ensures { MatchResult result (λ row. row_of_bytes bytes.now ≡ Ok row) (RefusesRowBytes bytes.now) }
{
    let mut left = Left::new(bytes);
    let edition = read_edition(&mut left)?;
    let path = read_path(alloc, &mut left)?;
    let stamp = read_stamp(&mut left)?;
    let reading = read_reading(alloc, &mut left)?;
    if !left.is_empty() {
        return Err(CodecFault::Trailing);
    }
    Ok(Row::new(Name { path, stamp }, edition, reading))
}

/// Reads a path.
fn read_path(alloc: Global, left: &mut Left<'_>) -> Result<CanonPath, CodecFault>
    ensures { ReadsPath left.old left.new result }
{
    let text = left.text()?;
    let path = path_of(alloc, text)?;
    Ok(path)
}

/// The path of a text, which shares its text with its copies.
fn path_of(alloc: Global, text: &[u8]) -> Result<CanonPath, CodecFault>
    ensures path { IfOk result (λ path. (path ≡ text.now) × (is_path_text text.now ≡ true)) }
    ensures fault { IfErr result (λ fault. ((fault ≡ CodecFault.BadText) × (is_path_text text.now ≡
        false)) ⊎ (fault ≡ CodecFault.OutOfMemory)) }
{
    let Ok(text) = std::str::from_utf8(text) else {
        return Err(CodecFault::BadText);
    };
    match CanonPath::check(String::from_str(alloc, text)?) {
        Ok(path) => Ok(path.copy(alloc)?),
        Err(_) => Err(CodecFault::BadText),
    }
}

/// Reads a reading.
fn read_reading(alloc: Global, left: &mut Left<'_>) -> Result<Reading, CodecFault>
    ensures { ReadsIfRoom (reading_at left.old) left.new result }
{
    let tag = left.byte()?;
    let reading = read_tagged(alloc, tag, left)?;
    Ok(reading)
}

/// Reads what stands behind a tag.
fn read_tagged(alloc: Global, tag: u8, left: &mut Left<'_>) -> Result<Reading, CodecFault>
    ensures { ReadsIfRoom (tagged_at tag left.old) left.new result }
{
    if tag == PLAIN_TAG {
        let why = read_why(left)?;
        return Ok(Reading::Plain(why));
    }
    if tag != ELF_TAG {
        return Err(CodecFault::BadTag);
    }
    let ident = read_ident(left)?;
    let sources = read_sources(alloc, left)?;
    Ok(Reading::Elf { ident, sources })
}

/// Reads sources.
fn read_sources(alloc: Global, left: &mut Left<'_>) -> Result<Sources, CodecFault>
    ensures { ReadsIfRoom (sources_at left.old) left.new result }
{
    let mut count = left.four()?;
    let mut paths = Vec::new(alloc);
    while count > 0 {
        let path = read_path(alloc, left)?;
        if !is_above(paths.as_slice(), &path) {
            return Err(CodecFault::BadOrder);
        }
        paths.push(path)?;
        count -= 1;
    }
    match Sources::check(paths) {
        Ok(sources) => Ok(sources),
        Err(_) => unreachable!(),
    }
}

/// Whether the path stands behind the last one, if there is one.
fn is_above(paths: &[CanonPath], path: &CanonPath) -> bool
    ensures { result ≡ is_above (slice_get paths.now (length paths.now - 1)) path.now }
{
    match paths.last() {
        Some(last) => last.cmp(path).is_lt(),
        None => true,
    }
}
