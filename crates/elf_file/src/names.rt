//! The bytes that sections' names lie in.

ghost use Rattle.std.specs.Prelude.{◌≡◌, ◌↔◌, true, false, Some, nat_eq, IsTrue};
ghost use Rattle.std.specs.Option.{option_copied, option_map_or};
ghost use Rattle.std.specs.List.{starts_with};
ghost use Rattle.file_formats.specs.Sections as sections;
ghost use Rattle.elf_file.specs.Texts.{IsTextsEnd, has_no_zero, is_text_first, is_zero_at};

use byte_read::text_at;
use memchr::memrchr;
use std::marker::Model;

/// The bytes of the section that holds the names. Contracts see it as these bytes.
#[derive(Drop)]
pub struct Names<'a> {
    bytes: &'a [u8],
    /// How many bytes stand up to and with the last 0: no name begins behind them, so that whether
    /// a 0 follows a place is known without a search.
    end: usize,
}

impl<'a> Model for Names<'a> {
    ghost use Rattle.std.specs.Prelude.{List, ℕ};
    ghost use Rattle.elf_file.specs.Texts.{IsTextsEnd};

    ghost Value = { List ℕ };

    ghost view = { λ n. n.bytes.now };

    ghost invariant = { λ n. IsTextsEnd n.bytes.now n.end };
}

impl<'a> Names<'a> {
    /// The names in these bytes.
    pub fn new(bytes: &'a [u8]) -> Names<'a>
        ensures { result ≡ bytes.now }
    {
        Names {
            bytes,
            end: texts_end(bytes),
        }
    }

    /// The bytes from a place to the next 0.
    pub fn text(&self, at: u32) -> Option<&'a [u8]>
        ensures { option_copied result ≡ sections.text_at self.now at }
    {
        text_at(self.bytes, at as usize)
    }

    /// Whether a 0 follows a place, and the text up to it begins with a prefix.
    pub fn begins(&self, at: u32, prefix: &[u8]) -> bool
        requires { has_no_zero prefix.now ≡ true }
        ensures { result ≡ option_map_or
            (λ text. starts_with nat_eq text prefix.now) (sections.text_at self.now at) false }
    {
        (at as usize) < self.end && self.bytes[at as usize..].starts_with(prefix)
    }

    /// Whether the bytes from a place to the next 0 are this text.
    pub fn is(&self, at: u32, text: &[u8]) -> bool
        ensures { IsTrue result ↔ (sections.text_at self.now at ≡ Some text.now) }
    {
        (at as usize) < self.end && begins_with_text(&self.bytes[at as usize..], text)
    }
}

/// Whether the bytes begin with a text and the 0 that ends it.
fn begins_with_text(bytes: &[u8], text: &[u8]) -> bool
    ensures { result ≡ is_text_first bytes.now text.now }
{
    bytes.starts_with(text) && has_zero_at(bytes, text.len()) && !text.contains(&0)
}

/// Whether a 0 stands at a place.
fn has_zero_at(bytes: &[u8], at: usize) -> bool
    ensures { result ≡ is_zero_at bytes.now at }
{
    at < bytes.len() && bytes[at] == 0
}

/// How many bytes stand up to and with the last 0.
fn texts_end(bytes: &[u8]) -> usize
    ensures { IsTextsEnd bytes.now result }
{
    match memrchr(0, bytes) {
        Some(last) => last + 1,
        None => 0,
    }
}
