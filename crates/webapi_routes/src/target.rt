//! The path of a target, and the text that it spells.

ghost use Rattle.std.specs.Prelude.{◌≡◌, ◌==◌, MatchResult, position};
ghost use Rattle.std.specs.Cow.{cow_str_bytes};
ghost use Rattle.webapi_routes.specs.Path.{begins_with_digits, has_whole_escapes, before_query};
ghost use Rattle.webapi_routes.specs.Spelled.{IsSpelled, SpellsNone};

use crate::fault::SpellFault;
use percent_encoding::{DecodeError, percent_decode};
use std::alloc::Global;
use std::borrow::CowStr;

/// The bytes of a target before its query.
pub(crate) fn before_query(target: &[u8]) -> &[u8]
    ensures { result.now ≡ before_query target.now }
{
    match query_at(target) {
        Some(at) => &target[..at],
        None => target,
    }
}

/// Where the query of a target begins.
fn query_at(target: &[u8]) -> Option<usize>
    ensures { result ≡ position (λ b. b == 63) target.now }
{
    target.iter().position(|b| *b == b'?')
}

/// The text that a path spells, or a value of a query: its escapes are read, and all else stands for
/// itself (RFC 3986, section 2.1). Where it has none, it is lent, and no memory is taken.
pub fn spelled(alloc: Global, path: &[u8]) -> Result<CowStr<'_, Global>, SpellFault>
    ensures { MatchResult result (λ text. IsSpelled path.now (cow_str_bytes text)) (SpellsNone path.now) }
{
    if !has_whole_escapes(path) {
        return Err(SpellFault::BadEscape);
    }
    let text = match percent_decode(path).decode_utf8(alloc) {
        Ok(text) => text,
        Err(DecodeError::Utf8(_)) => return Err(SpellFault::BadEscape),
        Err(DecodeError::OutOfMemory) => return Err(SpellFault::OutOfMemory),
    };
    if text.as_str().as_bytes().contains(&0) {
        return Err(SpellFault::BadEscape);
    }
    Ok(text)
}

/// Whether two hexadecimal digits stand behind each percent sign.
fn has_whole_escapes(path: &[u8]) -> bool
    ensures { result ≡ has_whole_escapes path.now }
{
    let mut rest = path;
    while let [first, tail @ ..] = rest {
        if *first == b'%' && !begins_with_digits(tail) {
            return false;
        }
        rest = tail;
    }
    true
}

/// Whether two hexadecimal digits stand in front.
fn begins_with_digits(bytes: &[u8]) -> bool
    ensures { result ≡ begins_with_digits bytes.now }
{
    match bytes {
        [high, low, ..] => high.is_ascii_hexdigit() && low.is_ascii_hexdigit(),
        _ => false,
    }
}
