//! What the fields of a head say.

ghost use Rattle.std.specs.Prelude.{◌≡◌, ◌≤◌, ◌+◌, ◌*◌, filter, length, map, reverse, All};
ghost use Rattle.std.specs.List.{list_all, list_any};
ghost use Rattle.std.specs.Str.{str_eq_ignore_ascii_case};
ghost use Rattle.httparse.specs.Grammar.{is_ows, skip_ows, trim_ows};
ghost use Rattle.httparse.specs.Spans.{IsHeaderWithin, header_bytes};
ghost use Rattle.http_wire.specs.Fields.{announces, asks_close, hops_in, is_close, is_filled, listed_values};
ghost use Rattle.http_wire.specs.Said.{Says, said_with};

use crate::limits::{FIELD_LIMIT, HEAD_LIMIT};
use httparse::is_space_or_tab;
use httparse::spans::HeaderSpan;

/// What the fields of a head say together.
#[derive(Clone, Copy)]
pub struct Said {
    /// Whether one asks to close the connection.
    pub close: bool,
    /// Whether one says that a body follows.
    pub has_body: bool,
    /// How many forwarders they name.
    pub hops: u64,
}

/// What the fields at these places say.
pub(crate) fn read_fields(bytes: &[u8], headers: &[HeaderSpan]) -> Said
    requires short { length bytes.now ≤ HEAD_LIMIT }
    requires few { length headers.now ≤ FIELD_LIMIT }
    requires within { All (IsHeaderWithin (length bytes.now)) headers.now }
    ensures { Says (map (header_bytes bytes.now) headers.now) result }
{
    let mut said = Said {
        close: false,
        has_body: false,
        hops: 0,
    };
    let mut at = 0;
    while at < headers.len() {
        let header = headers[at];
        said = with_field(said, header.name.of(bytes), header.value.of(bytes));
        at += 1;
    }
    said
}

/// What a field adds to what was said before it.
fn with_field(said: Said, name: &[u8], value: &[u8]) -> Said
    requires short { length value.now ≤ HEAD_LIMIT }
    requires few { said.hops ≤ FIELD_LIMIT * (HEAD_LIMIT + 1) }
    ensures value { result ≡ said_with said (name.now, value.now) }
    ensures few { result.hops ≤ said.hops + (HEAD_LIMIT + 1) }
{
    Said {
        close: said.close || asks_close(name, value),
        has_body: said.has_body || announces(name, value),
        hops: said.hops + hops_in(name, value),
    }
}

/// Whether a field asks to close the connection.
fn asks_close(name: &[u8], value: &[u8]) -> bool
    ensures { result ≡ asks_close (name.now, value.now) }
{
    is_word(name, b"connection") && has_close(value)
}

/// Whether a piece of a value is the token `close`.
fn has_close(value: &[u8]) -> bool
    ensures { result ≡ list_any is_close (listed_values value.now) }
{
    value.split(|b| *b == b',').any(|piece| is_close(piece))
}

/// Whether a piece is the token `close`, with white space around it or none.
fn is_close(piece: &[u8]) -> bool
    ensures { result ≡ is_close piece.now }
{
    is_word(trim(piece), b"close")
}

/// Whether a field says that a body follows.
fn announces(name: &[u8], value: &[u8]) -> bool
    ensures { result ≡ announces (name.now, value.now) }
{
    is_word(name, b"transfer-encoding")
        || (is_word(name, b"content-length") && value != b"0".as_slice())
}

/// How many forwarders a field names.
fn hops_in(name: &[u8], value: &[u8]) -> u64
    requires { length value.now ≤ HEAD_LIMIT }
    ensures value { result ≡ hops_in (name.now, value.now) }
    ensures few { result ≤ HEAD_LIMIT + 1 }
{
    if is_word(name, b"x-forwarded-for") {
        count_filled(value) as u64
    } else {
        0
    }
}

/// How many pieces of a value hold more than white space.
fn count_filled(value: &[u8]) -> usize
    ensures value { result ≡ length (filter is_filled (listed_values value.now)) }
    ensures few { result ≤ length value.now + 1 }
{
    value
        .split(|b| *b == b',')
        .filter(|piece| is_filled(piece))
        .count()
}

/// Whether a piece holds more than white space.
fn is_filled(piece: &[u8]) -> bool
    ensures { result ≡ is_filled piece.now }
{
    !is_blank(piece)
}

/// Whether a piece is white space alone.
fn is_blank(piece: &[u8]) -> bool
    ensures { result ≡ list_all is_ows piece.now }
{
    piece.iter().all(|b| is_space_or_tab(*b))
}

/// Whether a text is this word, in any case.
fn is_word(text: &[u8], word: &[u8]) -> bool
    ensures { result ≡ str_eq_ignore_ascii_case text.now word.now }
{
    text.eq_ignore_ascii_case(word)
}

/// A text without the white space around it.
#[tactic(auto, unfolding(httparse::specs::Grammar::trim_ows))]
fn trim(text: &[u8]) -> &[u8]
    ensures { result.now ≡ trim_ows text.now }
{
    without_last(without_first(text))
}

/// A text from its first byte that is no white space.
fn without_first(mut text: &[u8]) -> &[u8]
    ensures { result.now ≡ skip_ows text.now }
{
    while let [first, rest @ ..] = text
        && is_space_or_tab(*first)
    {
        text = rest;
    }
    text
}

/// A text up to its last byte that is no white space.
fn without_last(mut text: &[u8]) -> &[u8]
    ensures { result.now ≡ reverse (skip_ows (reverse text.now)) }
{
    while let [rest @ .., last] = text
        && is_space_or_tab(*last)
    {
        text = rest;
    }
    text
}
