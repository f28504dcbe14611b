//! The share that a member is in, as its seat keeps it.

ghost use Rattle.std.specs.Prelude.{◌≡◌, Some, None, is_some};

use gomp_types::{Shape, single_shape};
use std::marker::Model;

/// The share that a member is in, by number and shape, or none.
///
/// It is no `Option`: of one the number and the shape would be stored too when the member leaves the share, where now one byte is.
#[derive(Drop)]
pub(crate) struct Current {
    inside: bool,
    share: u64,
    shape: Shape,
}

impl Model for Current {
    ghost use Rattle.std.specs.Prelude.{ℕ, if◌then◌else◌, Option, Some, None};
    ghost use Rattle.gomp_types.specs.declared.shape.Shape.{Shape};

    ghost Value = { Option (ℕ × Shape) };

    ghost view = { λ c. if c.inside then Some (c.share, c.shape) else None };
}

impl Current {
    /// The member is in no share.
    pub(crate) fn outside() -> Current
        ensures { result ≡ None }
    {
        Current {
            inside: false,
            share: 0,
            shape: single_shape(false),
        }
    }

    /// Whether the member is in a share.
    #[inline(always)]
    pub(crate) fn is_some(&self) -> bool
        ensures { result ≡ is_some self.now }
    {
        self.inside
    }

    /// The share that it is in.
    #[inline(always)]
    pub(crate) fn get(&self) -> Option<(u64, Shape)>
        ensures { result ≡ self.now }
    {
        if self.inside {
            Some((self.share, self.shape))
        } else {
            None
        }
    }

    /// The member is in this share now.
    pub(crate) fn enter(&mut self, share: u64, shape: &Shape)
        ensures { self.new ≡ Some (share, shape.now) }
    {
        self.inside = true;
        self.share = share;
        self.shape = *shape;
    }

    /// The member is in no share any more.
    pub(crate) fn leave(&mut self)
        ensures { self.new ≡ None }
    {
        self.inside = false;
    }
}
