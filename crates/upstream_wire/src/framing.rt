//! How a response's body is framed.

ghost use Rattle.std.specs.Prelude.{◌≡◌, All, codes, length, map};
ghost use Rattle.std.specs.Option.{option_copied};
ghost use Rattle.std.specs.List.{list_all};
ghost use Rattle.std.specs.Str.{bytes_eq, str_eq_ignore_ascii_case};
ghost use Rattle.httparse.specs.Spans.{IsHeaderWithin, header_bytes};
ghost use Rattle.upstream_wire.specs.Framing.{by_length, by_lengths, first_value_of, frame_of, values_of};

use crate::numbers::length_of;
use httparse::spans::HeaderSpan;

/// How the body of a response is framed.
#[derive(Clone, Copy, PartialEq, Eq)]
pub enum Framing {
    /// In chunks.
    Chunked,
    /// By its length in bytes, which is no more than the longest body has.
    Sized(u64),
    /// By the end of the connection.
    ToEnd,
    /// By a transfer encoding that isn't read.
    OtherEncoding,
    /// By a length that isn't one, is too large, or differs between fields.
    BadLength,
}

/// How the body behind these fields is framed.
pub(crate) fn framing_of(bytes: &[u8], headers: &[HeaderSpan]) -> Framing
    requires { All (IsHeaderWithin (length bytes.now)) headers.now }
    ensures { result ≡ frame_of (map (header_bytes bytes.now) headers.now) }
{
    let frame = length_framing(bytes, headers);
    if first_value(bytes, headers, b"transfer-encoding").is_none() {
        return frame;
    }
    if !are_chunked(bytes, headers) {
        return Framing::OtherEncoding;
    }
    match frame {
        Framing::BadLength => Framing::BadLength,
        _ => Framing::Chunked,
    }
}

/// How it is framed by Content-Length alone.
fn length_framing(bytes: &[u8], headers: &[HeaderSpan]) -> Framing
    requires { All (IsHeaderWithin (length bytes.now)) headers.now }
    ensures { result ≡ by_lengths (values_of (codes "content-length") (map (header_bytes bytes.now) headers.now)) }
{
    match first_value(bytes, headers, b"content-length") {
        None => Framing::ToEnd,
        Some(value) => {
            if are_all(bytes, headers, value) {
                by_length(length_of(value))
            } else {
                Framing::BadLength
            }
        }
    }
}

/// How it is framed by a length.
fn by_length(length: Option<u64>) -> Framing
    ensures { result ≡ by_length length }
{
    match length {
        Some(n) => Framing::Sized(n),
        None => Framing::BadLength,
    }
}

/// The value of the first field of a name.
fn first_value<'a>(bytes: &'a [u8], headers: &[HeaderSpan], name: &[u8]) -> Option<&'a [u8]>
    requires { All (IsHeaderWithin (length bytes.now)) headers.now }
    ensures { option_copied result ≡ first_value_of (values_of name.now (map (header_bytes bytes.now) headers.now)) }
{
    let mut at = 0;
    while at < headers.len() {
        let header = headers[at];
        if is_word(header.name.of(bytes), name) {
            return Some(header.value.of(bytes));
        }
        at += 1;
    }
    None
}

/// Whether each Content-Length is this value.
fn are_all(bytes: &[u8], headers: &[HeaderSpan], value: &[u8]) -> bool
    requires { All (IsHeaderWithin (length bytes.now)) headers.now }
    ensures { result ≡ list_all (bytes_eq value.now)
        (values_of (codes "content-length") (map (header_bytes bytes.now) headers.now)) }
{
    let mut at = 0;
    while at < headers.len() {
        let header = headers[at];
        if is_word(header.name.of(bytes), b"content-length") {
            if !is_same(value, header.value.of(bytes)) {
                return false;
            }
        }
        at += 1;
    }
    true
}

/// Whether each Transfer-Encoding is `chunked`.
fn are_chunked(bytes: &[u8], headers: &[HeaderSpan]) -> bool
    requires { All (IsHeaderWithin (length bytes.now)) headers.now }
    ensures { result ≡ list_all (λ v. str_eq_ignore_ascii_case v (codes "chunked"))
        (values_of (codes "transfer-encoding") (map (header_bytes bytes.now) headers.now)) }
{
    let mut at = 0;
    while at < headers.len() {
        let header = headers[at];
        if is_word(header.name.of(bytes), b"transfer-encoding") {
            if !is_word(header.value.of(bytes), b"chunked") {
                return false;
            }
        }
        at += 1;
    }
    true
}

/// Whether a text is this word, in any case.
fn is_word(text: &[u8], word: &[u8]) -> bool
    ensures { result ≡ str_eq_ignore_ascii_case text.now word.now }
{
    text.eq_ignore_ascii_case(word)
}

/// Whether two texts are the same bytes.
fn is_same(one: &[u8], other: &[u8]) -> bool
    ensures { result ≡ bytes_eq one.now other.now }
{
    one == other
}
