//! The items of a `depend` clause: which earlier tasks of the same parent a task waits for.
//!
//! OpenMP API 5.2, section 15.9.5.

ghost use Rattle.std.specs.Prelude.{◌≡◌, [], ◌++◌, ◌∷◌, length, IfOk, IsOk, OnOk, OnErr};
ghost use Rattle.std.specs.Cmp.{partial_equiv_from_equiv};
ghost use Rattle.gomp_types.specs.DependItems.{kind_waits, item_waits, same_items, same_items_equiv};

use std::alloc::{AllocError, Global};
use std::marker::Model;

/// How a task depends on an address: the type of a dependence.
#[derive(Clone, Copy, Debug, PartialEq, Eq)]
pub enum DepKind {
    /// `in`: the task reads there.
    DepIn,
    /// `out`: the task writes there.
    DepOut,
    /// `inout`: the task reads and writes there.
    DepInout,
    /// `inoutset`: the task writes there, and so do the other tasks of the set, in any order and at
    /// the same time.
    DepInoutset,
    /// `mutexinoutset`: the task writes there, one of the set at a time.
    DepMutex,
}

impl DepKind {
    /// Whether an item of this kind depends on an item of an earlier task, on the same address.
    pub fn waits_for(self, earlier: DepKind) -> bool
        ensures { result ≡ kind_waits self earlier }
    {
        match self {
            DepKind::DepIn => !matches!(earlier, DepKind::DepIn),
            DepKind::DepInoutset => !matches!(earlier, DepKind::DepInoutset),
            DepKind::DepOut | DepKind::DepInout | DepKind::DepMutex => true,
        }
    }
}

/// One item of a `depend` clause.
#[derive(Clone, Copy, Debug, PartialEq, Eq)]
pub struct Dep {
    /// How the task depends on the address.
    pub kind: DepKind,
    /// The address.
    pub addr: u64,
}

impl Dep {
    /// Whether this item depends on the item of an earlier task.
    pub fn waits_for(&self, earlier: &Dep) -> bool
        ensures { result ≡ item_waits self.now earlier.now }
    {
        self.addr == earlier.addr && self.kind.waits_for(earlier.kind)
    }
}

/// The items of a `depend` clause, as they are written. Without items it takes no memory.
#[derive(Debug, Drop)]
pub struct Deps {
    items: Vec<Dep>,
}

impl Model for Deps {
    ghost use Rattle.std.specs.Prelude.{List};
    ghost use Rattle.gomp_types.specs.declared.depend.Dep.{Dep};

    ghost Value = { List Dep };

    ghost view = { λ deps. deps.items.items };
}

impl Deps {
    /// No items.
    pub fn new(alloc: Global) -> Deps
        ensures { result ≡ [] }
    {
        Deps {
            items: Vec::new(alloc),
        }
    }

    /// Appends an item. It fails, and nothing changes, if memory for it is refused.
    pub fn push(&mut self, item: Dep) -> Result<(), AllocError>
        ensures items { OnOk result (self.new ≡ self.old ++ item ∷ []) }
        ensures kept { OnErr result (self.new ≡ self.old) }
    {
        self.items.push(item)?;
        Ok(())
    }

    /// The items, in the order in which they are written.
    pub fn as_slice(&self) -> &[Dep]
        ensures { result.now ≡ self.now }
    {
        self.items.as_slice()
    }

    /// The same items again. The error is want of memory, of which no items take none.
    pub fn copied(&self, alloc: Global) -> Result<Deps, AllocError>
        ensures items { IfOk result (λ deps. deps ≡ self.now) }
        ensures empty { self.now ≡ [] → IsOk result }
    {
        if self.items.is_empty() {
            return Ok(Deps::new(alloc));
        }
        Ok(Deps {
            items: Vec::from_slice(alloc, self.items.as_slice())?,
        })
    }
}

impl PartialEq for Deps {
    ghost eq = { same_items };

    ghost laws = { partial_equiv_from_equiv same_items_equiv };

    fn eq(&self, other: &Deps) -> bool {
        self.as_slice() == other.as_slice()
    }
}

impl Eq for Deps {
    ghost laws = { same_items_equiv };
}
