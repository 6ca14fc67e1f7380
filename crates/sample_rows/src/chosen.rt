//! A selection of listed paths.

ghost use Rattle.std.specs.Prelude.{◌≡◌};
ghost use Rattle.sample_rows.specs.Chosen.{is_listed};

use path_scope::Selection;
use row_types::CanonPath;
use std::alloc::{AllocError, Global};

/// The paths of a list are selected. The question of a number, counted from 0, wants memory.
#[derive(Drop)]
pub struct Chosen {
    /// The paths that are selected.
    pub paths: &'static [&'static str],
    /// How many questions there were.
    pub asked: u64,
    /// The number of the question that wants memory.
    pub wants: u64,
}

impl Chosen {
    /// The selection of these paths, before any question, whose question of this number wants memory.
    pub fn new(paths: &'static [&'static str], wants: u64) -> Chosen
        ensures { result ≡ record { paths = paths.entry; asked = 0; wants = wants } }
    {
        Chosen {
            paths,
            asked: 0,
            wants,
        }
    }
}

impl Selection for Chosen {
    ghost takes = { λ chosen path. is_listed chosen.paths.now path };

    fn selects(&mut self, _alloc: Global, path: &CanonPath) -> Result<bool, AllocError> {
        let call = self.asked;
        self.asked = call.saturating_add(1);
        if call == self.wants {
            return Err(AllocError);
        }
        Ok(is_among(self.paths, path.text()))
    }
}

/// Whether a text is one of these.
#[tactic(auto, unfolding(crate::specs::Chosen::is_listed))]
fn is_among(texts: &[&str], text: &str) -> bool
    ensures { result ≡ is_listed texts.now text.now }
{
    texts.iter().any(|other| *other == text)
}
