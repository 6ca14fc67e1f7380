//! Canonical paths.

ghost use Rattle.std.specs.Prelude.{◌≡◌, ◌↔◌, IsTrue, IsOk, IfOk, IfErr};
ghost use Rattle.std.specs.List.{list_all};
ghost use Rattle.std.specs.String.{string_bytes};
ghost use Rattle.row_types.specs.Canon.{is_canonical, has_form, pieces, stays, IsCanonPath};
ghost use Rattle.row_types.specs.Limits.{ArePinnedPathLimits};
ghost use Rattle.row_types.specs.Text.{text_bytes};

use crate::limits::{PATH_LIMIT, SEPARATOR};
use std::alloc::{AllocError, Global};
use std::cmp::Ordering;
use std::marker::Model;
use std::sync::ArcStr;

/// The text of a path.
#[derive(Drop)]
enum Text {
    /// It is this path's alone.
    Own(String),
    /// Its copies share it.
    Shared(ArcStr),
}

/// A path that is its own canonical form and has at most 4096 bytes. Contracts see it as the list of its
/// bytes, by which paths are ordered.
#[derive(Drop)]
pub struct CanonPath {
    text: Text,
}

impl Model for CanonPath {
    ghost use Rattle.std.specs.Prelude.{List, ℕ};
    ghost use Rattle.row_types.specs.Canon.{IsCanonPath};
    ghost use Rattle.row_types.specs.Text.{text_bytes};

    ghost Value = { List ℕ };

    ghost view = { λ p. text_bytes p.text };

    ghost invariant = { λ p. IsCanonPath (text_bytes p.text) };
}

impl CanonPath {
    /// The path of this text, or the text back. No memory is taken.
    pub fn check(text: String) -> Result<CanonPath, String>
        ensures ok { IsOk result ↔ IsCanonPath (string_bytes text) }
        ensures value { IfOk result (λ path. path ≡ string_bytes text) }
        ensures back { IfErr result (λ given. given ≡ text) }
        ensures limits { ArePinnedPathLimits }
    {
        if is_path(text.as_str()) {
            Ok(CanonPath {
                text: Text::Own(text),
            })
        } else {
            Err(text)
        }
    }

    /// The path's text.
    pub fn text(&self) -> &str
        ensures value { result.now ≡ self.now }
        ensures canonical { IsCanonPath self.now }
    {
        self.text.as_str()
    }

    /// A copy. It shares its text with its own copies.
    pub fn copy(&self, alloc: Global) -> Result<CanonPath, AllocError>
        ensures { IfOk result (λ path. path ≡ self.now) }
    {
        Ok(CanonPath {
            text: self.text.copy(alloc)?,
        })
    }
}

impl Text {
    /// The text.
    fn as_str(&self) -> &str
        ensures { result.now ≡ text_bytes self.now }
    {
        match self {
            Text::Own(text) => text.as_str(),
            Text::Shared(text) => text.as_str(),
        }
    }

    /// A copy that is shared.
    fn copy(&self, alloc: Global) -> Result<Text, AllocError>
        ensures { IfOk result (λ text. text_bytes text ≡ text_bytes self.now) }
    {
        Ok(match self {
            Text::Own(text) => Text::Shared(ArcStr::from_str(alloc, text.as_str())?),
            Text::Shared(text) => Text::Shared(text.clone()?),
        })
    }
}

/// Whether a text is a path that is kept.
fn is_path(text: &str) -> bool
    ensures { IsTrue result ↔ IsCanonPath text.now }
{
    text.len() <= PATH_LIMIT && is_canonical(text)
}

/// Whether a text is its own canonical form. No memory is taken.
#[tactic(auto, using(crate::proofs::CanonLemmas::has_form_is_canonical))]
pub fn is_canonical(text: &str) -> bool
    ensures { result ≡ is_canonical text.now }
{
    has_form(text.as_bytes())
}

/// Whether the bytes are a slash, and then nothing or pieces that stay.
fn has_form(bytes: &[u8]) -> bool
    ensures { result ≡ has_form bytes.now }
{
    match bytes {
        [first, tail @ ..] => *first == SEPARATOR && (tail.is_empty() || all_stay(tail)),
        [] => false,
    }
}

/// Whether each piece stays.
fn all_stay(bytes: &[u8]) -> bool
    ensures { result ≡ list_all stays (pieces bytes.now) }
{
    bytes.split(|b| *b == SEPARATOR).all(|piece| stays(piece))
}

/// Whether a piece is kept, and nothing else goes with it.
fn stays(piece: &[u8]) -> bool
    ensures { result ≡ stays piece.now }
{
    !(piece.is_empty() || piece == b".".as_slice() || piece == b"..".as_slice())
}

impl PartialEq for CanonPath {
    ghost use Rattle.std.specs.Str.{bytes_eq};
    ghost use Rattle.std.specs.Cmp.{partial_equiv_from_equiv};
    ghost use Rattle.std.proofs.lemmas.Cmp.{nat_list_eq_equiv};

    ghost eq = { bytes_eq };

    ghost laws = { partial_equiv_from_equiv nat_list_eq_equiv };

    fn eq(&self, other: &Self) -> bool {
        self.text() == other.text()
    }
}

impl Eq for CanonPath {
    ghost use Rattle.std.proofs.lemmas.Cmp.{nat_list_eq_equiv};

    ghost laws = { nat_list_eq_equiv };
}

impl PartialOrd for CanonPath {
    ghost use Rattle.std.specs.Prelude.{Some};
    ghost use Rattle.std.specs.Ordering.{nat_cmp};
    ghost use Rattle.std.specs.Cmp.Lexicographic.{slice_cmp, texts_po};

    ghost partial_cmp = { λ a b. Some (slice_cmp nat_cmp a b) };

    ghost laws = { texts_po };

    fn partial_cmp(&self, other: &Self) -> Option<Ordering> {
        Some(self.text().cmp(other.text()))
    }
}

impl Ord for CanonPath {
    ghost use Rattle.std.specs.Prelude.{refl};
    ghost use Rattle.std.specs.Ordering.{nat_cmp};
    ghost use Rattle.std.specs.Cmp.Lexicographic.{slice_cmp, texts_ties};
    ghost use Rattle.std.proofs.lemmas.Cmp.{nat_list_cmp_total};

    ghost cmp = { slice_cmp nat_cmp };

    ghost total = { nat_list_cmp_total };

    ghost matches_partial_cmp = { λ a b. refl };

    ghost matches_eq = { texts_ties };

    fn cmp(&self, other: &Self) -> Ordering {
        self.text().cmp(other.text())
    }
}
