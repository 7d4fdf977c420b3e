//! Marks of the members of a choice.
ghost use Rattle.std.specs.Prelude.{◌<◌, All, length};
ghost use Rattle.kc_checks.specs.checker.Marks.{WereMarked};

use kc_tree_model::Sym;

/// Sets the mark of each of the symbols `members` to `mark`; `marks` has a mark for each symbol, by its number.
pub(crate) fn mark_members(marks: &mut Vec<u32>, members: &[Sym], mark: u32)
    requires there { All (λ s. s < length marks.old.items) members.now }
    ensures marked { WereMarked marks.old.items members.now mark marks.new.items }
{
    for member in members {
        marks[member.number() as usize] = mark;
    }
}
