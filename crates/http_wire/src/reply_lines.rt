//! The lines of a reply's head, in their order.

ghost use Rattle.std.specs.Prelude.{◌≡◌, ◌==◌, ◌++◌, if◌then◌else◌, codes, decimal, IfOk, OnOk, map};
ghost use Rattle.std.specs.String.{string_bytes};
ghost use Rattle.http_wire.specs.Reply.{IsStatus, allow_line, back_lines, connection, connection_line, escaped, file_line, front_lines, head_bytes, length_line, head_line, media_type, phrase_of, size_line, status_line, type_line};

use crate::reply::ReplyHead;
use itoa::Buffer;
use percent_encoding::{AsciiSet, CONTROLS, ascii_set, percent_encode};
use row_types::CanonPath;
use std::alloc::{AllocError, Global};

/// The bytes of a path that are escaped in a field, beside those outside ASCII.
const ESCAPED: AsciiSet = ascii_set!(CONTROLS.add(b' ').add(b'%'));

/// The head's lines, and the empty line.
#[tactic(auto, unfolding(crate::specs::Reply::head_bytes))]
pub(crate) fn print_head(alloc: Global, head: &ReplyHead) -> Result<String, AllocError>
    requires { IsStatus head.now.status }
    ensures { IfOk result (λ text. string_bytes text ≡ head_bytes head.now) }
{
    let mut text = String::new(alloc);
    push_front(&mut text, head)?;
    push_back(&mut text, head)?;
    text.push_str("\r\n")?;
    Ok(text)
}

/// Adds the lines that each reply has in front.
#[tactic(auto, unfolding(crate::specs::Reply::front_lines))]
fn push_front(text: &mut String, head: &ReplyHead) -> Result<(), AllocError>
    requires { IsStatus head.now.status }
    ensures { OnOk result (string_bytes text.new ≡ string_bytes text.old ++ front_lines head.now) }
{
    push_status(text, head.status)?;
    push_type(text, head.text)?;
    push_length(text, head.len)
}

/// Adds the lines that stand in some replies, and the last field.
#[tactic(auto, unfolding(crate::specs::Reply::back_lines))]
fn push_back(text: &mut String, head: &ReplyHead) -> Result<(), AllocError>
    ensures { OnOk result (string_bytes text.new ≡ string_bytes text.old ++ back_lines head.now) }
{
    push_size(text, head.text, head.len)?;
    push_file(text, &head.file)?;
    push_allow(text, head.status)?;
    push_connection(text, head.close)
}

/// Adds the status line.
#[tactic(auto, unfolding(crate::specs::Reply::status_line, crate::specs::Reply::head_line))]
fn push_status(text: &mut String, status: u16) -> Result<(), AllocError>
    requires { IsStatus status }
    ensures { OnOk result (string_bytes text.new ≡ string_bytes text.old ++ status_line status) }
{
    text.push_str("HTTP/1.1 ")?;
    text.push_str(Buffer::new().format(status))?;
    push_line(text, " ", phrase(status))
}

/// Adds the line of the media type.
#[tactic(auto, unfolding(crate::specs::Reply::type_line))]
fn push_type(text: &mut String, is_text: bool) -> Result<(), AllocError>
    ensures { OnOk result (string_bytes text.new ≡ string_bytes text.old ++ type_line is_text) }
{
    push_line(text, "Content-Type: ", media_type(is_text))
}

/// Adds the line of the body's length.
#[tactic(auto, unfolding(crate::specs::Reply::length_line))]
fn push_length(text: &mut String, len: u64) -> Result<(), AllocError>
    ensures { OnOk result (string_bytes text.new ≡ string_bytes text.old ++ length_line len) }
{
    push_number(text, "Content-Length: ", len)
}

/// Adds the size line, which a text has not.
#[tactic(auto, unfolding(crate::specs::Reply::size_line))]
fn push_size(text: &mut String, is_text: bool, len: u64) -> Result<(), AllocError>
    ensures { OnOk result (string_bytes text.new ≡ string_bytes text.old ++ size_line is_text len) }
{
    if is_text {
        Ok(())
    } else {
        push_number(text, "X-DEBUGINFOD-SIZE: ", len)
    }
}

/// Adds the file line, if the file is told.
#[tactic(auto, unfolding(crate::specs::Reply::file_line))]
fn push_file(text: &mut String, file: &Option<CanonPath>) -> Result<(), AllocError>
    ensures { OnOk result (string_bytes text.new ≡ string_bytes text.old ++ file_line file.now) }
{
    match file {
        Some(path) => push_path(text, "X-DEBUGINFOD-FILE: ", path.text()),
        None => Ok(()),
    }
}

/// Adds a line with a path.
#[tactic(auto, unfolding(crate::specs::Reply::head_line))]
fn push_path(text: &mut String, name: &str, path: &str) -> Result<(), AllocError>
    ensures { OnOk result
        (string_bytes text.new ≡ string_bytes text.old ++ head_line name.now (escaped path.now)) }
{
    text.push_str(name)?;
    push_escaped(text, path.as_bytes())?;
    text.push_str("\r\n")
}

/// Adds the bytes of a path, escaped.
fn push_escaped(text: &mut String, path: &[u8]) -> Result<(), AllocError>
    ensures { OnOk result (string_bytes text.new ≡ string_bytes text.old ++ escaped path.now) }
{
    percent_encode(path, ESCAPED).append_to(text)
}

/// Adds the line of the methods that are taken, where another one was refused.
#[tactic(auto, unfolding(crate::specs::Reply::allow_line))]
fn push_allow(text: &mut String, status: u16) -> Result<(), AllocError>
    ensures { OnOk result (string_bytes text.new ≡ string_bytes text.old ++ allow_line status) }
{
    if status == 405 {
        push_line(text, "Allow: ", "GET, HEAD")
    } else {
        Ok(())
    }
}

/// Adds the line on whether the connection goes on.
#[tactic(auto, unfolding(crate::specs::Reply::connection_line))]
fn push_connection(text: &mut String, close: bool) -> Result<(), AllocError>
    ensures { OnOk result (string_bytes text.new ≡ string_bytes text.old ++ connection_line close) }
{
    push_line(text, "Connection: ", connection(close))
}

/// Adds a line with a number.
fn push_number(text: &mut String, name: &str, number: u64) -> Result<(), AllocError>
    ensures { OnOk result
        (string_bytes text.new ≡ string_bytes text.old ++ head_line name.now (decimal number)) }
{
    push_line(text, name, Buffer::new().format(number))
}

/// Adds a line.
#[tactic(auto, unfolding(crate::specs::Reply::head_line))]
fn push_line(text: &mut String, name: &str, value: &str) -> Result<(), AllocError>
    ensures { OnOk result
        (string_bytes text.new ≡ string_bytes text.old ++ head_line name.now value.now) }
{
    text.push_str(name)?;
    text.push_str(value)?;
    text.push_str("\r\n")
}

/// The media type of a text, or of a file's bytes.
fn media_type(is_text: bool) -> &'static str
    ensures { result.now ≡ media_type is_text }
{
    if is_text {
        "text/plain"
    } else {
        "application/octet-stream"
    }
}

/// What the last field says.
fn connection(close: bool) -> &'static str
    ensures { result.now ≡ connection close }
{
    if close { "close" } else { "keep-alive" }
}

/// A status' reason phrase.
fn phrase(status: u16) -> &'static str
    requires { IsStatus status }
    ensures { result.now ≡ phrase_of status }
{
    match status {
        200 => "OK",
        400 => "Bad Request",
        404 => "Not Found",
        405 => "Method Not Allowed",
        431 => "Request Header Fields Too Large",
        502 => "Bad Gateway",
        503 => "Service Unavailable",
        507 => "Insufficient Storage",
        _ => unreachable!(),
    }
}
