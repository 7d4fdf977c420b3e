//! Choices, given the values of the units.
ghost use Rattle.std.specs.Prelude.{◌≡◌, ◌<◌, Some, length, slice_get, IfOk};
ghost use Rattle.kc_tree_model.specs.Trees.{Choice as TheChoice};
ghost use Rattle.kc_rules_model.specs.MemberLines.{selected_by_lines};
ghost use Rattle.kc_rules_model.specs.Rule.{is_shown, is_visible_member, default_member};
ghost use Rattle.kc_rules.specs.between.SettledViews.{tree_of_settled};

use super::rules::Settled;
use kc_evaluation::{Valuation, is_shown, selected_by_lines};
use kc_rules_model::{MemberLine, UnitValue};
use kc_tree::Sym;
use std::alloc::{AllocError, Global};

impl Settled {
    /// Whether the rules of Linux before 6.10 show a choice: it has a prompt, whose condition isn't `n`. Takes no memory.
    pub fn is_choice_shown(&self, c: u32, values: &[UnitValue]) -> bool
        requires there { c < length (tree_of_settled self.now).choices }
        ensures value { (choice : TheChoice) → slice_get (tree_of_settled self.now).choices c ≡ Some choice → result ≡ is_shown (tree_of_settled self.now) values.now choice }
    {
        let under = Valuation {
            rules: &self.rules,
            values,
        };
        is_shown(&under, &self.rules.tree.choice(c))
    }

    /// The member of a choice that lines of its members select by the rules of Linux 6.12, whatever rules the tree has. An `Err` means
    /// out of memory.
    pub fn selected_by_lines(
        &self,
        alloc: Global,
        c: u32,
        lines: &[MemberLine],
        values: &[UnitValue],
    ) -> Result<Option<Sym>, AllocError>
        requires there { c < length (tree_of_settled self.now).choices }
        ensures value { let tree = tree_of_settled self.now in (choice : TheChoice) → slice_get tree.choices c ≡ Some choice → IfOk result (λ m. m ≡ selected_by_lines (is_visible_member tree values.now) choice.members (default_member tree choice values.now) lines.now) }
    {
        let under = Valuation {
            rules: &self.rules,
            values,
        };
        selected_by_lines(alloc, &under, &self.rules.tree.choice(c), lines)
    }
}
