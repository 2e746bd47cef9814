//! The handle of a node: what C holds.

ghost use Rattle.std.specs.Prelude.{◌≡◌, Option, Some, None, IsSome};
ghost use Rattle.linked_node.specs.declared.kept.Kept.{Kept};

use held::Loose;
use linked_node::Kept;
use std::alloc::Global;
use std::marker::Model;
use std::ptr;

/// The handle of a node, or of none: a pointer, which is null if there is none.
#[repr(C)]
#[derive(Drop)]
pub struct Core {
    at: *mut u8,
    pub ghost node: { Option Kept },
}

impl Model for Core {
    ghost use Rattle.linked_node.specs.contracts.kept.Kept.{the_row};
    ghost use Rattle.rstar_c.specs.Handles.{handle_owns};

    ghost also_owns = { λ h. handle_owns the_row h.at h.node };
}

impl Core {
    /// The handle of no node.
    pub fn none() -> Core
        ensures { result.node ≡ None }
    {
        Core {
            at: ptr::null_mut(),
        }
    }

    /// A handle that owns what a box owned.
    pub fn seal(loose: Loose<Kept, Global>) -> Core
        ensures { result.node ≡ Some loose.value }
    {
        let Loose { at, alloc: _ } = loose;
        Core { at: at as *mut u8 }
    }

    /// What the handle owned, as a box's pointer.
    pub fn unseal(self, alloc: Global) -> Loose<Kept, Global>
        requires { IsSome self.node }
        ensures { self.node ≡ Some result.value }
    {
        let Core { at } = self;
        Loose {
            at: at as *mut Kept,
            alloc,
        }
    }

    /// A handle of what is kept.
    pub fn of(kept: Box<Kept>) -> Core
        ensures { result.node ≡ Some kept.value }
    {
        Core::seal(Loose::of(kept))
    }

    /// What a handle keeps.
    pub fn into_box(self, alloc: Global) -> Box<Kept>
        requires { IsSome self.node }
        ensures { self.node ≡ Some result.value }
    {
        self.unseal(alloc).into_box()
    }
}
