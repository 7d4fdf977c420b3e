//! The statements that the lines of Kconfig files represent, and what their attributes give.
ghost use Rattle.std.specs.Prelude.{◌≡◌};
ghost use Rattle.kc_tree_model.specs.Statements.{type_of, prompt_of, default_of, is_modules, is_optional};
ghost use Rattle.kc_tree_model.specs.between.Attributes.{is_prompt, is_range, if_given, conjunct_given, target_given, target_of};

use super::keyword::Block;
use kc_value::Kind;

/// A statement other than an attribute: it closes the entry that is open, and may open a new one ("Kconfig syntax"). `E` is the type
/// of an expression, `N` of the name of a symbol, `T` of a title or a path.
#[derive(Drop)]
pub enum Head<E, N, T> {
    /// The name of the symbol that a `config` statement defines.
    Config(N),
    Choice,
    /// The title of a `menu` statement.
    Menu(T),
    /// The condition of an `if` statement.
    Condition(E),
    /// The title of a `comment` statement.
    Comment(T),
    /// The path of a `source` statement.
    Source(T),
    Mainmenu,
    /// The end of a block.
    Ends(Block),
}

/// A `default` attribute: the value, whether it is one operand (in parentheses it isn't), the condition after `if`, and whether it
/// is an `option env`, whose value is one of the environment.
#[derive(Clone, Copy)]
pub struct DefaultAttribute<E> {
    pub value: E,
    pub single: bool,
    pub condition: Option<E>,
    pub from_environment: bool,
}

/// A `select` or `imply` attribute: the name of the symbol that it selects or implies, and the condition after `if`.
#[derive(Clone, Copy)]
pub struct TargetAttribute<E, N> {
    pub name: N,
    pub condition: Option<E>,
}

/// A `range` attribute: the lower and the upper bound, each an operand `O`, and the condition after `if`.
#[derive(Clone, Copy)]
pub struct RangeAttribute<E, O> {
    pub low: O,
    pub high: O,
    pub condition: Option<E>,
}

/// An attribute of the entry that is open ("Menu attributes"). Of a prompt only the condition after `if` is kept.
#[derive(Clone, Copy)]
pub enum Attribute<E, O, N> {
    Typed(Kind),
    TypedPrompt(Kind, Option<E>),
    TypedDefault(Kind, DefaultAttribute<E>),
    Prompt(Option<E>),
    Default(DefaultAttribute<E>),
    Depends(E),
    Select(TargetAttribute<E, N>),
    Imply(TargetAttribute<E, N>),
    Range(RangeAttribute<E, O>),
    Visible(E),
    Help,
    Modules,
    Optional,
}

/// The statement that a logical line of a Kconfig file represents: one of its own, or an attribute of the entry before it.
#[derive(Drop)]
pub enum Statement<H, A> {
    Head(H),
    Attribute(A),
}

/// Which attributes restrict the dependency of their entry, or its `visible if`.
#[derive(Clone, Copy)]
pub enum Conjuncts {
    Dependencies,
    Visibles,
}

/// The attributes that act on another symbol: `select` and `imply`.
#[derive(Clone, Copy)]
pub enum ReverseKind {
    Select,
    Imply,
}

impl<E: Copy, O: Copy, N: Copy> Attribute<E, O, N> {
    /// The type that it gives; `None` if it gives none.
    pub fn type_given(&self) -> Option<Kind>
        ensures { result ≡ type_of self.now }
    {
        match *self {
            Attribute::Typed(kind)
            | Attribute::TypedPrompt(kind, _)
            | Attribute::TypedDefault(kind, _) => Some(kind),
            _ => None,
        }
    }

    /// The `if` of a prompt, with or without a type; `None` for any other attribute.
    #[inline]
    pub fn prompt_given(&self) -> Option<Option<E>>
        ensures { result ≡ prompt_of self.now }
    {
        match *self {
            Attribute::Prompt(c) | Attribute::TypedPrompt(_, c) => Some(c),
            _ => None,
        }
    }

    /// A default, with or without a type; `None` for any other attribute.
    #[inline]
    pub fn default_given(&self) -> Option<DefaultAttribute<E>>
        ensures { result ≡ default_of self.now }
    {
        match *self {
            Attribute::Default(valued) | Attribute::TypedDefault(_, valued) => Some(valued),
            _ => None,
        }
    }

    /// Its `if`, where it has one.
    #[inline]
    pub fn if_given(&self) -> Option<E>
        ensures { result ≡ if_given self.now }
    {
        match *self {
            Attribute::Prompt(c) | Attribute::TypedPrompt(_, c) => c,
            Attribute::Default(d) | Attribute::TypedDefault(_, d) => d.condition,
            Attribute::Select(a) | Attribute::Imply(a) => a.condition,
            Attribute::Range(r) => r.condition,
            _ => None,
        }
    }

    /// The condition of a `depends on`, or of a `visible if`; `None` for any other attribute.
    #[inline]
    pub fn conjunct_given(&self, which: Conjuncts) -> Option<E>
        ensures { result ≡ conjunct_given which self.now }
    {
        match (which, *self) {
            (Conjuncts::Dependencies, Attribute::Depends(e)) => Some(e),
            (Conjuncts::Visibles, Attribute::Visible(e)) => Some(e),
            _ => None,
        }
    }

    /// The name that a `select`, or an `imply`, targets; `None` for any other attribute.
    #[inline]
    pub fn target_given(&self, which: ReverseKind) -> Option<N>
        ensures { result ≡ target_given which self.now }
    {
        match (which, *self) {
            (ReverseKind::Select, Attribute::Select(target)) => Some(target.name),
            (ReverseKind::Imply, Attribute::Imply(target)) => Some(target.name),
            _ => None,
        }
    }

    /// The name that it selects or implies; `None` for any other attribute.
    pub fn target_name(&self) -> Option<N>
        ensures { result ≡ target_of self.now }
    {
        match *self {
            Attribute::Select(target) | Attribute::Imply(target) => Some(target.name),
            _ => None,
        }
    }

    /// Whether it is a prompt, with or without a type.
    pub fn is_prompt(&self) -> bool
        ensures { result ≡ is_prompt self.now }
    {
        matches!(*self, Attribute::Prompt(_) | Attribute::TypedPrompt(_, _))
    }

    /// Whether it is a range.
    pub fn is_range(&self) -> bool
        ensures { result ≡ is_range self.now }
    {
        matches!(*self, Attribute::Range(_))
    }

    /// Whether it is `modules`, which marks the modules symbol.
    pub fn is_modules(&self) -> bool
        ensures { result ≡ is_modules self.now }
    {
        matches!(*self, Attribute::Modules)
    }

    /// Whether it makes a choice optional.
    pub fn is_optional(&self) -> bool
        ensures { result ≡ is_optional self.now }
    {
        matches!(*self, Attribute::Optional)
    }
}
