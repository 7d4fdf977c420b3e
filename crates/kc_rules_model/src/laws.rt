//! Laws of the rules that give units their values.
ghost use Rattle.std.specs.Prelude.{◌≡◌, ◌↔◌, IsTrue, List, true, false};
ghost use Rattle.kc_rules_model.specs.declared.values.UnitValue.{UnitValue};
ghost use Rattle.kc_rules_model.specs.declared.values.UserValue.{UserValue};
ghost use Rattle.kc_tree_model.specs.Trees.{Tree, Symbol};
ghost use Rattle.kc_rules_model.specs.Rule.{is_from_environment, is_visible};
ghost use Rattle.kc_rules_model.specs.Reports.{is_written_symbol};
ghost use Rattle.kc_rules_model.specs.RuleLaws.{DependenciesAreGraph, RulesKeepFrame, RulesRestore, RulesFit, TextsAreAssigned, SolutionsFit};
ghost use Rattle.kc_rules_model.specs.MemberLineLaws.{ListsAreTwoLists, RulesAgreeWithoutN, FirstUnsetIsSelected};
ghost use Rattle.kc_rules_model.specs.Equality.{same_value, same_user};

/// The law that in every tree the dependencies of each unit ascend without repeats and are numbers of units.
pub fn dependencies_are_a_graph()
    ensures { DependenciesAreGraph }
{}

/// The law that in both profiles values that agree on the dependencies of a unit give the unit the same value.
pub fn rules_keep_the_frame()
    ensures { RulesKeepFrame }
{}

/// The law that in both profiles a value that a unit gets only with a user value is given again when the value itself is the user
/// value.
pub fn rules_restore()
    ensures { RulesRestore }
{}

/// The law that in both profiles the value that a unit's rule gives fits the unit, in a consistent tree, if all values and the
/// user value fit their units.
pub fn rules_fit()
    ensures { RulesFit }
{}

/// The law that in both profiles the values that solve an assignment of user values fit their units if the user values do, in a
/// consistent tree without a cycle of dependencies.
pub fn solutions_fit()
    ensures { SolutionsFit }
{}

/// The law that in both profiles the user value of a unit is its value, if that is a text or a member and the unit wouldn't have
/// it without its user value.
pub fn texts_are_assigned()
    ensures { TextsAreAssigned }
{}

/// Laws of what assignments of members select under the rules of Linux 6.12: the order of those with `y` to those with `n` counts
/// for nothing; without `n` the rules before Linux 6.10 select the same, where the member that comes last is visible; where each
/// visible member has `n`, the one whose line comes first is selected.
pub fn members_are_selected_by_lines()
    ensures lists { ListsAreTwoLists }
    ensures agree { RulesAgreeWithoutN }
    ensures first { FirstUnsetIsSelected }
{}

/// The law that a symbol with an `option env` is never visible, and that no full file has it.
pub fn environment_symbols_are_hidden()
    ensures unseen { (tree : Tree) (values : List UnitValue) (symbol : Symbol) → is_from_environment symbol ≡ true → is_visible tree values symbol ≡ false }
    ensures unwritten { (tree : Tree) (values : List UnitValue) (symbol : Symbol) → is_from_environment symbol ≡ true → is_written_symbol tree values symbol ≡ false }
{}

/// The law that the tests of equality, of values of units and of user values, hold exactly for equal ones.
pub fn equality_is_decided()
    ensures values { (a b : UnitValue) → IsTrue (same_value a b) ↔ (a ≡ b) }
    ensures users { (a b : UserValue) → IsTrue (same_user a b) ↔ (a ≡ b) }
{}
