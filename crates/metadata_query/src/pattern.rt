//! Patterns of paths.

ghost use Rattle.std.specs.Prelude.{◌≡◌, IfOk};
ghost use Rattle.std.specs.Str.{chars};

use std::alloc::{AllocError, Global};
use std::marker::Model;

/// The bytes of the longest pattern that is read, in UTF-8.
pub const PATTERN_LIMIT: usize = 4096;

/// A pattern that paths are matched with, character by character. Contracts see it as their list.
#[derive(Drop)]
pub struct Pattern {
    characters: Vec<char>,
}

impl Model for Pattern {
    ghost use Rattle.std.specs.Prelude.{List, ℕ};

    ghost Value = { List ℕ };

    ghost view = { λ p. p.characters.items };
}

impl Pattern {
    /// The pattern of a text's characters.
    pub fn new(alloc: Global, text: &str) -> Result<Pattern, AllocError>
        ensures { IfOk result (λ pattern. pattern ≡ chars text.now) }
    {
        let characters = text.chars().collect(alloc)?;
        Ok(Pattern { characters })
    }

    /// The pattern's characters.
    pub fn characters(&self) -> &[char]
        ensures { result.now ≡ self.now }
    {
        self.characters.as_slice()
    }
}

impl PartialEq for Pattern {
    ghost use Rattle.std.specs.Str.{bytes_eq};
    ghost use Rattle.std.specs.Cmp.{partial_equiv_from_equiv};
    ghost use Rattle.std.proofs.lemmas.Cmp.{nat_list_eq_equiv};

    ghost eq = { bytes_eq };

    ghost laws = { partial_equiv_from_equiv nat_list_eq_equiv };

    fn eq(&self, other: &Self) -> bool {
        self.characters() == other.characters()
    }
}

impl Eq for Pattern {
    ghost use Rattle.std.proofs.lemmas.Cmp.{nat_list_eq_equiv};

    ghost laws = { nat_list_eq_equiv };
}
