//! The list of the open tasks that were freed and are not handed out yet.

ghost use Rattle.std.specs.Prelude.{vec_capacity};
ghost use Rattle.gomp_depend.specs.FreeLists.{Counted};

/// Tasks that were freed, by their numbers, and how many they are together with those that wait. There is
/// room for all of them.
#[derive(Drop)]
pub struct FreeList {
    /// The tasks that were freed.
    pub(crate) freed: Vec<u32>,
    /// How many wait at an address, or were freed.
    pub(crate) count: usize,
    ghost counted: { Counted freed.items (vec_capacity freed) count },
}
