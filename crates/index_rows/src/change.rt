//! What a log lists.

ghost use Rattle.std.specs.Prelude.{◌≡◌, ◌<◌, ◌++◌, ◌∷◌, [], vec_len};
ghost use Rattle.std.specs.Vec.{vec_capacity};

use row_types::Name;

/// A change of the rows' names.
#[derive(PartialEq, Eq, Drop)]
pub struct Change {
    /// Whether the name was put, and not dropped.
    pub put: bool,
    /// The name.
    pub name: Name,
}

/// Lists the change.
pub(crate) fn list_change(log: &mut Vec<Change>, change: Change)
    requires { vec_len log.old < vec_capacity log.old }
    ensures { log.new.items ≡ log.old.items ++ change ∷ [] }
{
    match log.push(change) {
        Ok(()) => {}
        Err(_) => unreachable!(),
    }
}
