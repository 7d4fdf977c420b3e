//! Operands, and the nodes of those that are whole expressions.
ghost use Rattle.std.specs.Prelude.{◌≡◌, ◌<◌, length, drop, IfOk, IfErr, IfSome, option_map, Some};
ghost use Rattle.kc_tokens.specs.MemoryFaults.{IsOutOfMemory};
ghost use Rattle.kc_expr.specs.between.Arena.{Represents};
ghost use Rattle.kc_expr.specs.Expr.{alone, named, quoted};
ghost use Rattle.kc_tokens.specs.QuotedTexts.{quoted_text};
ghost use Rattle.kc_expr.specs.Grammar.{constant_or, letter_value};
ghost use Rattle.kc_expr.specs.checker.Conditions.{as_condition};
ghost use Rattle.kc_expr.specs.ExpressionNames.{operand_names};
ghost use Rattle.kc_expr.specs.between.Names.{with_names};
ghost use Rattle.kc_expr.specs.checker.Nodes.{LeafFits, operand_of};
ghost use Rattle.kc_expr.specs.checker.ParserResults.{first_operand, is_m, names_of_leaf, names_of_m};
ghost use Rattle.kc_tokens.specs.Token.{lexemes_of};

use super::node::{Connective, Leaf, Node};
use super::node_store::NodeStore;
use kc_tokens::{ExprFault, Token, TokenKind, quoted_text as text_of};
use kc_value::{Text, Tri};

/// The constant that a text is, if it is one.
fn constant_of(text: &str) -> Option<Tri>
    ensures { result ≡ letter_value text.now }
{
    match text.as_bytes() {
        [b'n'] => Some(Tri::N),
        [b'm'] => Some(Tri::M),
        [b'y'] => Some(Tri::Y),
        _ => None,
    }
}

fn is_constant_m(leaf: Leaf) -> bool
    ensures { result ≡ is_m leaf }
{
    matches!(leaf, Leaf::Constant(Tri::M))
}

impl NodeStore {
    ghost use Rattle.kc_expr.specs.checker.Store.{stored_names, exprs_in, IsSound, Extends, HasNamesOf};

    /// The operand that a word is: a constant or a name, which is appended if it is new.
    #[inline(always)]
    fn word_leaf(&mut self, text: &str) -> Result<Leaf, ExprFault>
        requires sound { IsSound self.old }
        ensures sound { IsSound self.new }
        ensures extends { Extends self.old self.new }
        ensures fits { IfOk result (λ l. LeafFits (length (stored_names self.new)) (length self.new.texts.items) l) }
        ensures names { IfOk result (λ l. stored_names self.new ≡ with_names (operand_names (operand_of (stored_names self.new) self.new.texts.items l)) (stored_names self.old)) }
        ensures operand { IfOk result (λ l. operand_of (stored_names self.new) self.new.texts.items l ≡ constant_or named text.now) }
        ensures memory { IfErr result IsOutOfMemory }
    {
        if let Some(t) = constant_of(text) {
            return Ok(Leaf::Constant(t));
        }
        if let Some(index) = self.find_newest(text) {
            return Ok(Leaf::Name(index));
        }
        if let Some(index) = self.find(text) {
            return Ok(Leaf::Name(index));
        }
        let index = self.insert_name(text)?;
        Ok(Leaf::Name(index))
    }

    /// The operand that a quoted token is: a constant or a quoted text, which is appended.
    fn quoted_leaf(&mut self, text: &str) -> Result<Leaf, ExprFault>
        requires sound { IsSound self.old }
        ensures sound { IsSound self.new }
        ensures extends { Extends self.old self.new }
        ensures fits { IfOk result (λ l. LeafFits (length (stored_names self.new)) (length self.new.texts.items) l) }
        ensures names { IfOk result (λ l. stored_names self.new ≡ with_names (operand_names (operand_of (stored_names self.new) self.new.texts.items l)) (stored_names self.old)) }
        ensures operand { IfOk result (λ l. operand_of (stored_names self.new) self.new.texts.items l ≡ constant_or quoted (quoted_text text.now)) }
        ensures memory { IfErr result IsOutOfMemory }
    {
        let inside = text_of(self.alloc(), text)?;
        match constant_of(inside.as_str()) {
            Some(t) => Ok(Leaf::Constant(t)),
            None => {
                let index = self.keep(Text::from_string(inside))?;
                Ok(Leaf::Quoted(index))
            }
        }
    }

    /// The operand that the token of index `at` is; `None` if it is no word and no quoted text. A new name or a quoted text is
    /// appended to the store. An `Err` means out of memory.
    pub(crate) fn leaf_at(
        &mut self,
        tokens: &[Token<'_>],
        at: usize,
    ) -> Result<Option<Leaf>, ExprFault>
        requires sound { IsSound self.old }
        ensures sound { IsSound self.new }
        ensures extends { Extends self.old self.new }
        ensures fits { IfOk result (λ o. IfSome o (LeafFits (length (stored_names self.new)) (length self.new.texts.items))) }
        ensures names { IfOk result (λ o. stored_names self.new ≡ with_names (names_of_leaf (stored_names self.new) self.new.texts.items o) (stored_names self.old)) }
        ensures operand { IfOk result (λ o. option_map (operand_of (stored_names self.new) self.new.texts.items) o ≡ first_operand (drop at (lexemes_of tokens.now))) }
        ensures memory { IfErr result IsOutOfMemory }
    {
        if at >= tokens.len() {
            return Ok(None);
        }
        let token = tokens[at];
        match token.kind {
            TokenKind::Word => Ok(Some(self.word_leaf(token.text)?)),
            TokenKind::Quoted => Ok(Some(self.quoted_leaf(token.text)?)),
            _ => Ok(None),
        }
    }

    /// Appends a node for an expression that is just a word, and returns its number.
    #[inline(always)]
    pub(crate) fn parse_word(&mut self, text: &str, condition: bool) -> Result<u32, ExprFault>
        requires sound { IsSound self.old }
        ensures sound { IsSound self.new }
        ensures extends { Extends self.old self.new }
        ensures names { IfOk result (HasNamesOf self.old self.new) }
        ensures represents { IfOk result (λ id. Represents (exprs_in self.new) id (as_condition condition (alone (constant_or named text.now)))) }
        ensures memory { IfErr result IsOutOfMemory }
    {
        let leaf = self.word_leaf(text)?;
        self.push_alone(leaf, condition)
    }

    /// Appends a node for an expression that is just one operand, and returns its number. In a condition `m` means `m &&
    /// MODULES`.
    #[inline(always)]
    pub(crate) fn push_alone(&mut self, leaf: Leaf, condition: bool) -> Result<u32, ExprFault>
        requires sound { IsSound self.old }
        requires fits { LeafFits (length (stored_names self.old)) (length self.old.texts.items) leaf }
        ensures sound { IsSound self.new }
        ensures extends { Extends self.old self.new }
        ensures names { IfOk result (λ _. stored_names self.new ≡ with_names (names_of_m condition leaf) (stored_names self.old)) }
        ensures represents { IfOk result (λ id. Represents (exprs_in self.new) id (as_condition condition (alone (operand_of (stored_names self.old) self.old.texts.items leaf)))) }
        ensures memory { IfErr result IsOutOfMemory }
    {
        let id = self.push(Node::Alone(leaf))?;
        if !condition || !is_constant_m(leaf) {
            return Ok(id);
        }
        let modules = self.word_leaf("MODULES")?;
        let name = self.push(Node::Alone(modules))?;
        self.push(Node::Joined(Connective::And, id, name))
    }
}
