//! The conditions of entries and attributes.
ghost use Rattle.std.specs.Prelude.{◌≡◌, ◌<◌, ◌++◌, ◌+◌, [], List, All, IfOk, IfErr, IfSome, OnOk, OnErr, length};
ghost use Rattle.kc_expr.specs.between.Arena.{Grows, Represents};
ghost use Rattle.kc_expr.specs.Expr.{Expr};
ghost use Rattle.kc_tokens.specs.declared.fault.ExprKind.TheVariants.{OutOfMemory};
ghost use Rattle.kc_statements.specs.between.StatementViews.{AttributeNodesExist};
ghost use Rattle.kc_parser.specs.between.ListingView.{LineNodesExist};
ghost use Rattle.kc_tree_model.specs.Conditions.{conjunction_of};
ghost use Rattle.kc_conditions.specs.checker.Conjunctions.{Conjoins, conjunct};
ghost use Rattle.kc_conditions.specs.checker.Conjuncts.{conjunct_views, condition_view, AreJoined, AreAppended};
ghost use Rattle.kc_tree_model.specs.declared.statement.Conjuncts.TheVariants.{Dependencies, Visibles};

use kc_expr::{Arena, ExprId};
use kc_parser::Line;
use kc_statements::ReadAttribute;
use kc_tokens::ExprFault;
use kc_tree_model::Conjuncts;

/// The joined conditions inside an open block, and the index of the title if it is a menu. `None` is the empty conjunction.
#[derive(Clone, Copy)]
pub(crate) struct EnclosingConditions {
    pub dependencies: Option<ExprId>,
    pub visibles: Option<ExprId>,
    pub title: Option<usize>,
}

/// The joined conditions of an entry: its own and the enclosing dependencies, its own and the enclosing `visible if`s, and what
/// its prompts depend on apart from their `if`. `None` is the empty conjunction.
#[derive(Clone, Copy)]
pub(crate) struct EntryConditions {
    pub dependencies: Option<ExprId>,
    pub visibles: Option<ExprId>,
    pub shown: Option<ExprId>,
}

/// The conjunction `all` with the conjunct `more` appended, if there is one; `None` is the empty conjunction.
pub(crate) fn join_optional(
    arena: &mut Arena,
    all: Option<ExprId>,
    more: Option<ExprId>,
) -> Result<Option<ExprId>, ExprFault>
    requires all { IfSome all (λ i. i < length arena.old.nodes) }
    requires more { IfSome more (λ i. i < length arena.old.nodes) }
    ensures grows { Grows arena.old arena.new }
    ensures ok { IfOk result (λ c. (es : List Expr) → Conjoins arena.old all es → Conjoins arena.new c (es ++ conjunct arena.old more)) }
    ensures memory { IfErr result (λ e. e.kind ≡ OutOfMemory) }
    ensures err { OnErr result (arena.new ≡ arena.old) }
{
    match (all, more) {
        (Some(a), Some(b)) => Ok(Some(arena.join(a, b)?)),
        (Some(a), None) => Ok(Some(a)),
        (None, b) => Ok(b),
    }
}

/// The conjunction `all` with the conjuncts of attribute lines appended: of `depends on`, or of `visible if`.
fn join_all(
    arena: &mut Arena,
    all: Option<ExprId>,
    lines: &[Line],
    which: Conjuncts,
) -> Result<Option<ExprId>, ExprFault>
    requires all { IfSome all (λ i. i < length arena.old.nodes) }
    requires held { All (LineNodesExist arena.old) lines.now }
    ensures grows { Grows arena.old arena.new }
    ensures there { IfOk result (λ c. IfSome c (λ i. i < length arena.new.nodes)) }
    ensures ok { IfOk result (λ c. (es : List Expr) → Conjoins arena.old all es → Conjoins arena.new c (es ++ conjunct_views which arena.old lines.now)) }
{
    let mut joined = all;
    for line in lines {
        joined = join_optional(arena, joined, line.attribute.conjunct_given(which))?;
    }
    Ok(joined)
}

/// The joined conditions of an entry, from the enclosing ones and its own attribute lines.
pub(crate) fn entry_conditions(
    arena: &mut Arena,
    enclosing: &EnclosingConditions,
    lines: &[Line],
) -> Result<EntryConditions, ExprFault>
    requires dependencies { IfSome enclosing.now.dependencies (λ i. i < length arena.old.nodes) }
    requires visibles { IfSome enclosing.now.visibles (λ i. i < length arena.old.nodes) }
    requires held { All (LineNodesExist arena.old) lines.now }
    ensures grows { Grows arena.old arena.new }
    ensures joined { IfOk result (λ e. (ds vs : List Expr) → Conjoins arena.old enclosing.now.dependencies ds → Conjoins arena.old enclosing.now.visibles vs
        → AreJoined arena.new e (ds ++ conjunct_views Dependencies arena.old lines.now) vs (conjunct_views Visibles arena.old lines.now)) }
{
    let dependencies = join_all(
        arena,
        enclosing.dependencies,
        lines,
        Conjuncts::Dependencies,
    )?;
    let visibles = join_all(arena, enclosing.visibles, lines, Conjuncts::Visibles)?;
    let mut entry = EntryConditions {
        dependencies,
        visibles,
        shown: None,
    };
    entry.shown = join_optional(arena, entry.dependencies, enclosing.visibles)?;
    Ok(entry)
}

/// The joined condition of an attribute of an entry; `yes` is the empty conjunction.
fn condition_of(
    arena: &mut Arena,
    yes: ExprId,
    entry: &EntryConditions,
    attribute: &ReadAttribute,
) -> Result<ExprId, ExprFault>
    requires dependencies { IfSome entry.now.dependencies (λ i. i < length arena.old.nodes) }
    requires shown { IfSome entry.now.shown (λ i. i < length arena.old.nodes) }
    requires held { AttributeNodesExist arena.old attribute.now }
    ensures grows { Grows arena.old arena.new }
    ensures represents { IfOk result (λ c. (ds vs own : List Expr) → AreJoined arena.old entry.now ds vs own → Represents arena.old yes (conjunction_of [])
        → Represents arena.new c (condition_view arena.old ds vs attribute.now)) }
{
    let all = if attribute.is_prompt() {
        entry.shown
    } else {
        entry.dependencies
    };
    let condition = join_optional(arena, all, attribute.if_given())?;
    Ok(condition.unwrap_or(yes))
}

/// Appends the joined condition of each attribute line of an entry to `conditions`; `yes` is the empty conjunction.
pub(crate) fn push_conditions(
    arena: &mut Arena,
    yes: ExprId,
    entry: &EntryConditions,
    lines: &[Line],
    conditions: &mut Vec<ExprId>,
) -> Result<(), ExprFault>
    requires dependencies { IfSome entry.now.dependencies (λ i. i < length arena.old.nodes) }
    requires shown { IfSome entry.now.shown (λ i. i < length arena.old.nodes) }
    requires held { All (LineNodesExist arena.old) lines.now }
    ensures grows { Grows arena.old arena.new }
    ensures appended { OnOk result ((ds vs own : List Expr) → AreJoined arena.old entry.now ds vs own → Represents arena.old yes (conjunction_of [])
        → AreAppended arena.old arena.new conditions.old.items conditions.new.items ds vs lines.now) }
    ensures longer { OnOk result (length conditions.new.items ≡ length conditions.old.items + length lines.now) }
{
    for line in lines {
        let condition = condition_of(arena, yes, entry, &line.attribute)?;
        conditions.push(condition)?;
    }
    Ok(())
}
