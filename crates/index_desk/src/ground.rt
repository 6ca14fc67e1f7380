//! What is handed round in a pass.

ghost use Rattle.std.specs.Prelude.{◌≡◌, ⊤};

use std::alloc::{AllocError, Global};

/// What is the same for all that is done in a pass: what threads wait by, the memory, how a file is
/// read, and the gate that may hold a thread.
pub struct Ground<'a, R, G, Rt> {
    pub rt: &'a Rt,
    pub alloc: Global,
    pub reader: &'a R,
    pub gate: &'a G,
}

impl<'a, R, G, Rt> Clone for Ground<'a, R, G, Rt> {
    ghost is_clone = { λ ground copy. copy ≡ ground };

    ghost is_infallible = { λ _. ⊤ };

    fn clone(&self) -> Result<Ground<'a, R, G, Rt>, AllocError> {
        Ok(*self)
    }
}

impl<'a, R, G, Rt> Copy for Ground<'a, R, G, Rt> {}
