//! The words for what gives a value, and for what hinders one.
ghost use Rattle.std.specs.Prelude.{◌≡◌};
ghost use Rattle.kc_explanation.specs.Explained.{hindrance_text, wanted_text};
ghost use Rattle.kc_explanation.specs.checker.CaseWords.{given_text, lifted_text};

use kc_reasons::{Case, ChoiceCase, Hindrance, Lift, TextCase, TriCase};
use kc_value::Tri;

/// What gives a unit its value.
pub(crate) fn given_text(case: Case) -> &'static str
    ensures { result.now ≡ given_text case }
{
    match case {
        Case::Tri(TriCase::User, _) => "by user",
        Case::Tri(TriCase::Visibility, _) => "by user, up to the visibility",
        Case::Tri(TriCase::Default, _) => "default",
        Case::Tri(TriCase::Environment, _) => "from the environment",
        Case::Tri(TriCase::Imply, _) => "implied",
        Case::Tri(TriCase::Dependency, _) => "implied, up to the direct dependency",
        Case::Tri(TriCase::Select, _) => "selected",
        Case::Tri(TriCase::Nothing, _) => "no default, not selected, not implied",
        Case::Text(TextCase::User) => "by user",
        Case::Text(TextCase::UserLowBound) => "by user, raised to the range",
        Case::Text(TextCase::UserHighBound) => "by user, lowered to the range",
        Case::Text(TextCase::Default) => "default",
        Case::Text(TextCase::Environment) => "from the environment",
        Case::Text(TextCase::NoNumber) => "the default is no number",
        Case::Text(TextCase::LowBound) => "default, raised to the range",
        Case::Text(TextCase::HighBound) => "default, lowered to the range",
        Case::Text(TextCase::Zero) => "no default, so it is 0",
        Case::Text(TextCase::Nothing) => "no default",
        Case::Choice(ChoiceCase::User) => "chosen by user",
        Case::Choice(ChoiceCase::Default) => "the choice's default",
        Case::Choice(ChoiceCase::First) => "the choice's first visible member",
        Case::Choice(ChoiceCase::FirstUnlisted) => "the choice's first visible member without n",
        Case::Choice(ChoiceCase::FirstListed) => "each visible member has n, this one first",
        Case::Choice(ChoiceCase::Optional) => "the choice is optional",
        Case::Choice(ChoiceCase::NoMember) => "no member of the choice is visible",
        Case::Choice(ChoiceCase::NotShown) => "the choice isn't shown",
    }
}

/// Why an `m` became `y`, if it did.
pub(crate) fn lifted_text(case: Case) -> &'static str
    ensures { result.now ≡ lifted_text case }
{
    match case {
        Case::Tri(_, Lift::AsGiven) => "",
        Case::Tri(_, Lift::WithoutM) => ", m is y here",
        Case::Tri(_, Lift::ImpliedY) => ", an implied y leaves no m",
        Case::Text(_) => "",
        Case::Choice(_) => "",
    }
}

/// What hinders a user value.
pub(crate) fn hindrance_text(hindrance: Hindrance) -> &'static str
    ensures { result.now ≡ hindrance_text hindrance }
{
    match hindrance {
        Hindrance::BelowSelected => "more is selected",
        Hindrance::FromEnvironment => "it comes from the environment",
        Hindrance::Hidden => "it isn't visible",
        Hindrance::AboveVisibility => "its visibility is lower",
        Hindrance::Promoted => "MODULES is n",
        Hindrance::ImpliedY => "an implied y leaves no m",
        Hindrance::UpsideDown => "no number is within its range",
        Hindrance::OutOfRange => "it isn't within the range",
        Hindrance::ChoiceNotShown => "the choice isn't shown",
        Hindrance::MemberHidden => "it isn't visible",
        Hindrance::LaterY => "a later y is of another member",
        Hindrance::FirstOfAll => "each visible member has n, this one first",
    }
}

/// That `y` is wanted of a part that is `m`; else nothing.
pub(crate) fn wanted_text(value: Tri, wanted: Tri) -> &'static str
    ensures { result.now ≡ wanted_text value wanted }
{
    match value {
        Tri::N => "",
        Tri::Y => "",
        Tri::M => match wanted {
            Tri::N => "",
            Tri::M => "",
            Tri::Y => " as y",
        },
    }
}
