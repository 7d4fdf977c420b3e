//! The assignment of a configuration file.
ghost use Rattle.std.specs.Prelude.{◌↔◌, IsTrue};
ghost use Rattle.kc_rules.specs.between.SettledViews.{tree_of_settled};
ghost use Rattle.kc_dotconfig.specs.Fragments.{FitsTree};

use kc_dotconfig_model::{ChoiceLine, Notice};
use kc_rules::Settled;
use kc_rules_model::UserValue;

/// The assignment of one configuration file, each unit once and in ascending order, its notices in order of lines, and, in a tree with
/// the rules of Linux before 6.10, the lines that give a member of a choice `y` or `n`, in order.
#[derive(Drop)]
pub struct Fragment {
    pub assigns: Vec<(u32, UserValue)>,
    pub notices: Vec<Notice>,
    pub chosen: Vec<ChoiceLine>,
}

impl Fragment {
    /// Whether the units are units of the tree, each once and in ascending order, and each user value has the shape of its unit.
    /// Takes no memory.
    pub fn fits(&self, settled: &Settled) -> bool
        ensures { IsTrue result ↔ FitsTree (tree_of_settled settled.now) self.now.assigns.items }
    {
        let mut next = 0;
        for (unit, user) in &self.assigns {
            if *unit < next || *unit >= settled.tree().len() || !settled.user_fits(*unit, user) {
                return false;
            }
            next = *unit + 1;
        }
        true
    }
}
