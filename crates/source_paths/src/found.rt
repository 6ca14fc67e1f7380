//! The paths that were found, and the texts that named some of them lately.

ghost use Rattle.std.specs.Prelude.{◌≡◌, ◌<◌, ◌≤◌, ◌∷◌, ℕ, List, [], Some, IsTrue, IfOk, OnOk, All};
ghost use Rattle.std.specs.Option.{option_copied, option_map};
ghost use Rattle.row_types.specs.SourcePaths.{behind, within};
ghost use Rattle.row_types.specs.Sources.{MayName};
ghost use Rattle.source_paths.specs.Adds.{AddsPaths, Has};
ghost use Rattle.source_paths.specs.Lately.{IsTextKnown, is_empty};
ghost use Rattle.source_paths.specs.Room.{texts_room};

use crate::joined::{behind, is_absolute};
use crate::named::add_named;
use crate::path_set::PathSet;
use crate::room::SOURCES_LIMIT;
use row_types::{CanonPath, SEPARATOR};
use std::alloc::{AllocError, Global};
use std::collections::BTreeSet;
use std::marker::Model;

/// How many texts are kept at a time.
const SLOTS: usize = 1024;

/// An odd number without a pattern: a product's high bits depend on each bit of the other factor.
const SPREAD: u64 = 0x9e37_79b9_7f4a_7c15;

/// A set of paths. Contracts see it as the set. The line tables of a program list the same headers
/// again and again: a text that named its path lately is neither joined nor sought in the set.
#[derive(Drop)]
pub(crate) struct Found {
    paths: PathSet,
    /// Texts whose paths the set has, each at the place that its last bytes give.
    lately: Vec<Vec<u8>>,
}

impl Model for Found {
    ghost use Rattle.std.specs.Prelude.{List, ℕ};
    ghost use Rattle.std.specs.BTreeSet.{BTreeSet};
    ghost use Rattle.source_paths.specs.Lately.{AreKnown};

    ghost Value = { BTreeSet (List ℕ) };

    ghost view = { λ f. f.paths };

    ghost invariant = { λ f. AreKnown f.paths f.lately.items };
}

impl Found {
    /// No paths.
    pub(crate) fn new(alloc: Global) -> Result<Found, AllocError>
        ensures { IfOk result (λ found. found.keys ≡ []) }
    {
        Ok(Found {
            paths: PathSet::new(alloc),
            lately: empty_texts(alloc)?,
        })
    }

    /// The paths, given back.
    pub(crate) fn into_paths(self) -> BTreeSet<CanonPath>
        ensures same { result ≡ self }
        ensures small { texts_room result.keys ≤ SOURCES_LIMIT }
    {
        let Found { paths, lately: _ } = self;
        paths.into_paths()
    }

    /// Adds the path that a text behind a folder names.
    pub(crate) fn add(
        &mut self,
        alloc: Global,
        folder: Option<&[u8]>,
        text: Option<&[u8]>,
    ) -> Result<(), AllocError>
        ensures { OnOk result (AddsPaths
            (MayName (behind (option_copied folder.entry) (option_copied text.entry)))
            self.old self.new) }
    {
        let Some(text) = text else {
            return Ok(());
        };
        if self.knows(folder, text) {
            return Ok(());
        }
        let path = behind(alloc, folder, Some(text))?;
        self.add_text(alloc, path, slot_of(folder, text))
    }

    /// Whether a text behind a folder named its path lately.
    fn knows(&self, folder: Option<&[u8]>, text: &[u8]) -> bool
        ensures { IsTrue result → (path : List ℕ)
            → MayName (behind (option_copied folder.entry) (Some text.now)) path
            → Has self.now path }
    {
        match self.lately.get(slot_of(folder, text)) {
            Some(known) => is_behind(known.as_slice(), folder, text),
            None => false,
        }
    }

    /// Adds the path that a text names, and keeps the text in a slot.
    fn add_text(
        &mut self,
        alloc: Global,
        text: Option<Vec<u8>>,
        slot: usize,
    ) -> Result<(), AllocError>
        ensures { OnOk result (AddsPaths
            (MayName (option_map (λ v. v.items) text)) self.old self.new) }
    {
        let Some(text) = text else {
            return Ok(());
        };
        let copy = Vec::from_slice(alloc, text.as_slice())?;
        add_named(alloc, text, &mut self.paths)?;
        self.keep(copy, slot);
        Ok(())
    }

    /// Keeps a text in a slot, which has one.
    fn keep(&mut self, text: Vec<u8>, slot: usize)
        requires { IsTextKnown self.old text.items }
        ensures { self.new ≡ self.old }
    {
        if slot < self.lately.len() {
            self.lately[slot] = text;
        }
    }
}

/// Texts without bytes, one for each slot.
fn empty_texts(alloc: Global) -> Result<Vec<Vec<u8>>, AllocError>
    ensures { IfOk result (λ texts. All is_empty texts.items) }
{
    let mut texts = Vec::with_capacity(alloc, SLOTS)?;
    for _slot in 0..SLOTS {
        texts.push(Vec::new(alloc))?;
    }
    Ok(texts)
}

/// The slot of a text behind a folder, by the folder's length and the text's last bytes.
fn slot_of(folder: Option<&[u8]>, text: &[u8]) -> usize
    ensures { result < SLOTS }
{
    let above = match folder {
        Some(folder) => folder.len() as u64,
        None => 0,
    };
    let spread = (last_bytes(text) ^ above).wrapping_mul(SPREAD);
    (spread >> 48) as usize % SLOTS
}

/// The last eight bytes of a text as one number, and all of a shorter text.
fn last_bytes(text: &[u8]) -> u64 {
    match text {
        [.., a, b, c, d, e, f, g, h] => u64::from_le_bytes([*a, *b, *c, *d, *e, *f, *g, *h]),
        _ => text
            .iter()
            .fold(0, |number: u64, byte| (number << 8) | u64::from(*byte)),
    }
}

/// Whether a known text is this one behind the folder.
fn is_behind(known: &[u8], folder: Option<&[u8]>, text: &[u8]) -> bool
    ensures { IsTrue result
        → behind (option_copied folder.entry) (Some text.now) ≡ Some known.now }
{
    if is_absolute(text) {
        return known == text;
    }
    match folder {
        Some(folder) => is_within(known, folder, text),
        None => false,
    }
}

/// Whether a known text is this one within the folder.
#[tactic(auto, using(crate::proofs::KnownLemmas::within_folder))]
fn is_within(known: &[u8], folder: &[u8], text: &[u8]) -> bool
    ensures { IsTrue result → known.now ≡ within text.now folder.now }
{
    match known.strip_prefix(folder) {
        Some(rest) => is_entry(rest, text),
        None => false,
    }
}

/// Whether some bytes are a slash and this text.
#[tactic(auto, using(crate::proofs::KnownLemmas::slash_before))]
fn is_entry(bytes: &[u8], text: &[u8]) -> bool
    ensures { IsTrue result → bytes.now ≡ SEPARATOR ∷ text.now }
{
    match bytes.strip_prefix(&[SEPARATOR]) {
        Some(rest) => rest == text,
        None => false,
    }
}
