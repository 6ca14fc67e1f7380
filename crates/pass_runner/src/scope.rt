//! Which paths a pass is over.

ghost use Rattle.std.specs.Prelude.{◌≡◌, IfOk};
ghost use Rattle.std.specs.List.{list_any};
ghost use Rattle.path_scope.specs.Scope.{is_in_scope, scope_of};
ghost use Rattle.row_types.specs.Under.{is_within};

use path_scope::{Selection, is_under};
use row_types::CanonPath;
use std::alloc::{AllocError, Global};

/// Whether the path is that of a root or lies under one, and is selected.
pub(crate) fn is_in_scope<P: Selection>(
    alloc: Global,
    roots: &[CanonPath],
    select: &mut P,
    path: &CanonPath,
) -> Result<bool, AllocError>
    ensures value { IfOk result (λ inside. inside
        ≡ is_in_scope (scope_of roots.now (P.takes select.old)) path.now) }
    ensures same { P.takes select.new ≡ P.takes select.old }
{
    if !is_under_any(roots, path) {
        return Ok(false);
    }
    select.selects(alloc, path)
}

/// Whether the path is that of a root, or lies under one.
fn is_under_any(roots: &[CanonPath], path: &CanonPath) -> bool
    ensures { result ≡ list_any (λ root. is_within root path.now) roots.now }
{
    roots.iter().any(|root| is_under(path, root))
}
