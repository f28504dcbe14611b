//! Which group a row names, if it names one.

ghost use Rattle.std.specs.Prelude.{◌≡◌, ◌<◌, Some, None};
ghost use Rattle.gomp_groups.specs.declared.links.TheConstants.{MAX_GROUPS};

use std::marker::Model;

/// A team opens so many groups at most: their numbers are those below it.
pub const MAX_GROUPS: u32 = 4_294_967_295;

/// The number of a group, or none, in four bytes.
#[derive(Clone, Copy, Debug, PartialEq, Eq)]
pub struct GroupLink {
    /// One more than the group's number; 0 for none.
    code: u32,
}

impl Model for GroupLink {
    ghost use Rattle.std.specs.Prelude.{ℕ, Option};
    ghost use Rattle.gomp_groups.specs.Links.{group_of, code_of};

    ghost Value = { Option ℕ };

    ghost view = { λ l. group_of l.code };

    ghost inverse = { λ group. record { code = code_of group } };
}

impl GroupLink {
    /// No group.
    pub fn none() -> GroupLink
        ensures { result ≡ None }
    {
        GroupLink { code: 0 }
    }

    /// The group with this number, from 0.
    pub fn to(group: u64) -> GroupLink
        requires few { group < MAX_GROUPS }
        ensures { result ≡ Some group }
    {
        GroupLink {
            code: group as u32 + 1,
        }
    }

    /// The group's number, if there is one.
    pub fn group(self) -> Option<u64>
        ensures { result ≡ self }
    {
        if self.code == 0 {
            None
        } else {
            Some(self.code as u64 - 1)
        }
    }
}
