//! What gives a unit its value, and what hinders an assignment.

/// What gives a bool or tristate its value, before it is lifted.
#[derive(Clone, Copy, Debug, PartialEq, Eq)]
pub enum TriCase {
    /// The user's value.
    User,
    /// The visibility, above which the user's value is.
    Visibility,
    /// The active default.
    Default,
    /// The active default, which is an `option env`.
    Environment,
    /// What is implied.
    Imply,
    /// The direct dependency, above which more is implied.
    Dependency,
    /// What is selected, above all else.
    Select,
    /// No default, and nothing selected or implied.
    Nothing,
}

/// Why an `m` became `y`, if it did.
#[derive(Clone, Copy, Debug, PartialEq, Eq)]
pub enum Lift {
    /// It is as it was given.
    AsGiven,
    /// A bool has no `m`, nor has a tristate while `MODULES` is `n`.
    WithoutM,
    /// In the classic profile an implied `y` leaves no `m`.
    ImpliedY,
}

/// What gives a string, int or hex its value.
#[derive(Clone, Copy, Debug, PartialEq, Eq)]
pub enum TextCase {
    /// The user's text.
    User,
    /// Under the rules of Linux 6.12 the lower bound of the active range, below which the user's number is.
    UserLowBound,
    /// Under the rules of Linux 6.12 the upper bound of the active range, above which the user's number is.
    UserHighBound,
    /// The active default's text.
    Default,
    /// The active default's text, which is that of an `option env`.
    Environment,
    /// The active default's text is no number of the type, so it counts as empty.
    NoNumber,
    /// The lower bound of the active range, below which the default's number is.
    LowBound,
    /// The upper bound of the active range, above which the default's number is.
    HighBound,
    /// Under the rules of Linux 6.12 the number 0, for want of a default.
    Zero,
    /// No default.
    Nothing,
}

/// What gives a choice its member.
#[derive(Clone, Copy, Debug, PartialEq, Eq)]
pub enum ChoiceCase {
    /// The user's member; under the rules of Linux 6.12 the last visible one that the user gives `y`.
    User,
    /// The first default that counts.
    Default,
    /// The first visible member.
    First,
    /// Under the rules of Linux 6.12, where the default member has an `n`, the first visible one to which nothing is assigned.
    FirstUnlisted,
    /// Under the rules of Linux 6.12, where each visible member has an `n`, the first of them by the user's lines.
    FirstListed,
    /// None: the choice is optional.
    Optional,
    /// No member is visible.
    NoMember,
    /// The choice isn't shown.
    NotShown,
}

/// What gives a unit its value.
#[derive(Clone, Copy, Debug, PartialEq, Eq)]
pub enum Case {
    Tri(TriCase, Lift),
    Text(TextCase),
    Choice(ChoiceCase),
}

/// What hinders a user value that isn't the value, the first that holds.
#[derive(Clone, Copy, Debug, PartialEq, Eq)]
pub enum Hindrance {
    /// More is selected.
    BelowSelected,
    /// The symbol has an `option env`, so it is never visible.
    FromEnvironment,
    /// The symbol isn't visible.
    Hidden,
    /// The visibility is lower.
    AboveVisibility,
    /// `MODULES` is `n`, so `m` is `y`.
    Promoted,
    /// In the classic profile an implied `y` leaves no `m`.
    ImpliedY,
    /// The lower bound of the active range is above the upper one, so no number is within it.
    UpsideDown,
    /// The number isn't within the active range.
    OutOfRange,
    /// The choice isn't shown.
    ChoiceNotShown,
    /// The member isn't visible.
    MemberHidden,
    /// Under the rules of Linux 6.12 a `y` of another visible member comes later.
    LaterY,
    /// Under the rules of Linux 6.12 each visible member has an `n`, and this one comes first.
    FirstOfAll,
}
