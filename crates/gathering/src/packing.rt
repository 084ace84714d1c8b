//! Answers as a coordinator holds them: with their groups packed.
ghost use Rattle.std.specs.Prelude.{◌≡◌, IfOk};

use meaning::{Body, Cell};
use packed_groups::PackedGroups;
use std::alloc::{AllocError, Global};

/// What is said of a fragment, with its groups packed.
pub type HeldBody = Body<PackedGroups>;

/// What is held for a fragment, with the groups of its answer packed.
pub type HeldCell = Cell<PackedGroups>;

/// A copy of what is said of a fragment.
pub fn copy_body(alloc: Global, body: &HeldBody) -> Result<HeldBody, AllocError>
    ensures { IfOk result (λ copy. copy ≡ body.now) }
{
    match body {
        Body::Groups(groups) => Ok(Body::Groups(groups.copy(alloc)?)),
        Body::Fault(fault) => Ok(Body::Fault(*fault)),
    }
}
