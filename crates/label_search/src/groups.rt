//! Marks of the cells that may have a label, a bit for each, in groups.
ghost use Rattle.std.specs.Prelude.{◌/◌, ◌<◌, length};
ghost use Rattle.label_search.specs.Groups.{IsMarkedToo};

/// How many cells are in a group, which has their bits in one number.
pub(crate) const GROUP: usize = 64;

/// Marks one more cell.
pub(crate) fn mark(groups: &mut [u64], cell: usize)
    requires { cell / 64 < length groups.old }
    ensures { IsMarkedToo groups.old groups.new cell }
{
    groups[cell / GROUP] |= 1 << (cell % GROUP);
}
