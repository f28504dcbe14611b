//! How the tasks that name one address get on with one another.

ghost use Rattle.std.specs.Prelude.{◌≡◌};
ghost use Rattle.gomp_lines.specs.Classes.{kind_class, shares, joint, joint_with, class_at};

use gomp_types::{Dep, DepKind};

/// How a task names an address, by all its items there.
#[derive(Clone, Copy, Debug, PartialEq, Eq)]
pub enum Class {
    /// Each item there is `in`: it waits for no other such task.
    Readers,
    /// Each item there is `inoutset`: it waits for no other such task.
    Set,
    /// Some other item is there, or both of those kinds: it waits for every earlier task.
    Alone,
}

impl Class {
    /// The class of a task with one item of this kind.
    pub fn of_kind(kind: DepKind) -> Class
        ensures { result ≡ kind_class kind }
    {
        match kind {
            DepKind::DepIn => Class::Readers,
            DepKind::DepInoutset => Class::Set,
            DepKind::DepOut | DepKind::DepInout | DepKind::DepMutex => Class::Alone,
        }
    }

    /// Whether two tasks of these classes wait neither for the other.
    pub fn shares(self, other: Class) -> bool
        ensures { result ≡ shares self other }
    {
        match self {
            Class::Readers => matches!(other, Class::Readers),
            Class::Set => matches!(other, Class::Set),
            Class::Alone => false,
        }
    }

    /// The class of a task that has items of both classes.
    pub fn joint(self, other: Class) -> Class
        ensures { result ≡ joint self other }
    {
        if self.shares(other) {
            self
        } else {
            Class::Alone
        }
    }
}

/// The class at the address of a task with these items; none if no item names the address.
pub fn class_at(addr: u64, items: &[Dep]) -> Option<Class>
    ensures { result ≡ class_at addr items.now }
{
    let mut class: Option<Class> = None;
    for item in items {
        if addr == item.addr {
            class = Some(with_kind(class, item.kind));
        }
    }
    class
}

/// The class with one more item of this kind.
fn with_kind(class: Option<Class>, kind: DepKind) -> Class
    ensures { result ≡ joint_with class (kind_class kind) }
{
    let other = Class::of_kind(kind);
    match class {
        Some(one) => one.joint(other),
        None => other,
    }
}
