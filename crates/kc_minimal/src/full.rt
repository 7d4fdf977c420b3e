//! Full files.
ghost use Rattle.std.specs.Prelude.{◌≡◌, ◌<◌, ◌++◌, ◌∷◌, ◌&&◌, true, false, not, List, [], length, IfOk, OnOk, slice_index_or, slice_set, if◌then◌else◌};
ghost use Rattle.kc_expr.specs.between.Arena.{node_expr};
ghost use Rattle.kc_tree.specs.between.Views.{entry_view, EntryFits};
ghost use Rattle.kc_tree_model.specs.Trees.{Entry as TreeEntry, definition};
ghost use Rattle.kc_rules_model.specs.Reports.{is_written};
ghost use Rattle.kc_rules.specs.between.SettledViews.{tree_of_settled, tree_model_of};
ghost use Rattle.kc_dotconfig_model.specs.between.Formats.{file_format};
ghost use Rattle.kc_dotconfig_model.specs.between.Prefixes.{prefix_bytes};
ghost use Rattle.kc_minimal_model.specs.FullFile.{has_second_space, heading, end_line, applies, full_file};
ghost use Rattle.kc_minimal.specs.checker.Drafts.{IsDraft};

use crate::symbol_line::{Written, push_between, push_symbol};
use kc_dotconfig_model::{Format, Prefix, is_unset_text};
use kc_expr::ExprId;
use kc_rules::{Settled, UnitValue};
use kc_tree::{Entry, Sym};
use std::alloc::{AllocError, Global};

/// The part of a full file that is written so far: its bytes, for each symbol whether it was defined, and whether the last line
/// that was written ends a menu (`gap`).
#[derive(Drop)]
pub(crate) struct Draft {
    text: Vec<u8>,
    defined: Vec<bool>,
    gap: bool,
}

/// Whether a title comes after a second space in its heading, so that the heading is never read as an unset line.
fn has_second_space(prefix: &Prefix, title: &str) -> bool
    ensures { result ≡ has_second_space (prefix_bytes prefix.now) title.now }
{
    let prefix = prefix.as_bytes();
    if prefix.is_empty() {
        is_unset_text(title)
    } else {
        title.as_bytes().starts_with(prefix)
    }
}

/// Appends the heading of a menu or a comment.
fn push_heading(out: &mut Vec<u8>, prefix: &Prefix, title: &str) -> Result<(), AllocError>
    ensures { OnOk result (out.new.items ≡ out.old.items ++ heading (prefix_bytes prefix.now) title.now) }
{
    if has_second_space(prefix, title) {
        push_between(out, b"\n#\n#  ", title, b"\n#\n")
    } else {
        push_between(out, b"\n#\n# ", title, b"\n#\n")
    }
}

/// Appends the line that ends a menu, which has its title.
fn push_end(out: &mut Vec<u8>, title: &str) -> Result<(), AllocError>
    ensures { OnOk result (out.new.items ≡ out.old.items ++ end_line title.now) }
{
    push_between(out, b"# end of ", title, b"\n")
}

/// Whether a condition isn't `n`.
fn applies(settled: &Settled, values: &[UnitValue], condition: ExprId) -> bool
    requires there { condition < length (tree_model_of settled.now).exprs.nodes }
    ensures value { result ≡ applies (tree_of_settled settled.now) values.now (node_expr (tree_model_of settled.now).exprs condition) }
{
    !settled.condition(condition, values).is_n()
}

/// Whether two conditions aren't `n`.
fn both_apply(settled: &Settled, values: &[UnitValue], dependency: ExprId, visible: ExprId) -> bool
    requires dependency { dependency < length (tree_model_of settled.now).exprs.nodes }
    requires visible { visible < length (tree_model_of settled.now).exprs.nodes }
    ensures value { result ≡ (applies (tree_of_settled settled.now) values.now (node_expr (tree_model_of settled.now).exprs dependency) && applies (tree_of_settled settled.now) values.now (node_expr (tree_model_of settled.now).exprs visible)) }
{
    applies(settled, values, dependency) && applies(settled, values, visible)
}

/// Marks a symbol, and returns whether it wasn't marked.
fn mark(defined: &mut Vec<bool>, s: Sym) -> bool
    requires there { s < length defined.old.items }
    ensures fresh { result ≡ not (slice_index_or defined.old.items s false) }
    ensures marked { defined.new.items ≡ slice_set defined.old.items s true }
{
    let index = s.number() as usize;
    let fresh = !defined[index];
    defined[index] = true;
    fresh
}

/// Appends an empty line if the last line that was written ends a menu.
fn push_gap(draft: &mut Draft) -> Result<(), AllocError>
    ensures text { OnOk result (draft.new.text.items ≡ (if draft.old.gap then draft.old.text.items ++ 10 ∷ [] else draft.old.text.items)) }
    ensures gap { OnOk result (draft.new.gap ≡ false) }
    ensures marks { draft.new.defined.items ≡ draft.old.defined.items }
{
    if draft.gap {
        draft.text.push(b'\n')?;
        draft.gap = false;
    }
    Ok(())
}

/// Whether a symbol's line is written at this definition, if it is the first one.
fn is_written_here(settled: &Settled, values: &[UnitValue], s: Sym, fresh: bool) -> bool
    requires there { s < length (tree_of_settled settled.now).symbols }
    ensures value { result ≡ (is_written (tree_of_settled settled.now) values.now s && fresh) }
{
    if fresh {
        settled.written(s, values)
    } else {
        false
    }
}

/// Goes over a definition: at its first one a symbol is written if a full file has it.
fn push_definition(draft: &mut Draft, written: &Written<'_>, s: Sym) -> Result<(), AllocError>
    requires symbol { s < length (tree_of_settled written.now.settled.now).symbols }
    requires marks { length draft.old.defined.items ≡ length (tree_of_settled written.now.settled.now).symbols }
    ensures marks { length draft.new.defined.items ≡ length draft.old.defined.items }
    ensures goes { OnOk result ((left : List TreeEntry) → IsDraft (file_format written.now.format.now) (tree_of_settled written.now.settled.now) written.now.values.now (definition s ∷ left) draft.old → IsDraft (file_format written.now.format.now) (tree_of_settled written.now.settled.now) written.now.values.now left draft.new) }
{
    let fresh = mark(&mut draft.defined, s);
    if is_written_here(written.settled, written.values, s, fresh) {
        push_gap(draft)?;
        push_symbol(&mut draft.text, written, s)
    } else {
        Ok(())
    }
}

/// Appends the heading of a menu or of a comment, if it is shown.
fn push_title(
    draft: &mut Draft,
    prefix: &Prefix,
    title: &str,
    shown: bool,
) -> Result<(), AllocError>
    ensures goes { OnOk result ((draft.new.text.items ≡ draft.old.text.items ++ (if shown then heading (prefix_bytes prefix.now) title.now else [])) × (draft.new.gap ≡ (if shown then false else draft.old.gap))) }
    ensures marks { draft.new.defined.items ≡ draft.old.defined.items }
{
    if shown {
        push_heading(&mut draft.text, prefix, title)?;
        draft.gap = false;
    }
    Ok(())
}

/// Appends the line after a menu, if it is shown.
fn push_menu_end(draft: &mut Draft, title: &str, shown: bool) -> Result<(), AllocError>
    ensures goes { OnOk result ((draft.new.text.items ≡ draft.old.text.items ++ (if shown then end_line title.now else [])) × (draft.new.gap ≡ (if shown then true else draft.old.gap))) }
    ensures marks { draft.new.defined.items ≡ draft.old.defined.items }
{
    if shown {
        push_end(&mut draft.text, title)?;
        draft.gap = true;
    }
    Ok(())
}

/// Goes over an entry.
fn push_entry(draft: &mut Draft, written: &Written<'_>, entry: &Entry<'_>) -> Result<(), AllocError>
    requires entry { EntryFits (length (tree_model_of written.now.settled.now).exprs.nodes) (length (tree_of_settled written.now.settled.now).symbols) (length (tree_of_settled written.now.settled.now).choices) entry.now }
    requires marks { length draft.old.defined.items ≡ length (tree_of_settled written.now.settled.now).symbols }
    ensures marks { length draft.new.defined.items ≡ length draft.old.defined.items }
    ensures goes { OnOk result ((left : List TreeEntry) → IsDraft (file_format written.now.format.now) (tree_of_settled written.now.settled.now) written.now.values.now (entry_view (tree_model_of written.now.settled.now).exprs entry.now ∷ left) draft.old → IsDraft (file_format written.now.format.now) (tree_of_settled written.now.settled.now) written.now.values.now left draft.new) }
{
    match *entry {
        Entry::Definition(s) => push_definition(draft, written, s),
        Entry::ChoiceBegins(_) => Ok(()),
        Entry::MenuBegins {
            title,
            dependency,
            visible,
        } => push_title(
            draft,
            &written.format.prefix,
            title,
            both_apply(written.settled, written.values, dependency, visible),
        ),
        Entry::MenuEnds {
            title,
            dependency,
            visible,
        } => push_menu_end(
            draft,
            title,
            both_apply(written.settled, written.values, dependency, visible),
        ),
        Entry::Comment { title, dependency } => {
            push_title(
                draft,
                &written.format.prefix,
                title,
                applies(written.settled, written.values, dependency),
            )
        }
    }
}

/// The full configuration file, with a line for each symbol that is written, of a settled tree with these values of its units. An
/// `Err` means out of memory.
pub(crate) fn full_lines(
    alloc: Global,
    settled: &Settled,
    format: &Format,
    values: &[UnitValue],
) -> Result<Vec<u8>, AllocError>
    ensures { IfOk result (λ text. text.items ≡ full_file (file_format format.now) (tree_of_settled settled.now) values.now) }
{
    let tree = settled.tree();
    let defined = vec![in alloc; false; tree.symbol_count() as usize]?;
    let mut draft = Draft {
        text: Vec::new(alloc),
        defined,
        gap: false,
    };
    let written = Written {
        settled,
        format,
        values,
    };
    for i in 0..tree.entry_count() {
        push_entry(&mut draft, &written, &tree.entry(i))?;
    }
    let Draft { text, .. } = draft;
    Ok(text)
}
