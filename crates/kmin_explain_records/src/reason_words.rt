//! The words for what gives a value and what hinders one, in lines of JSON.
ghost use Rattle.std.specs.Prelude.{◌≡◌, ℕ, List, option_map};
ghost use Rattle.std.specs.Borrow.{Bor};
ghost use Rattle.kmin_explain_records.specs.ReasonWords.{tri_case_word, lift_word, text_case_word, choice_case_word, case_word, lift_of_case, hindrance_word};

use kc_reasons::{Case, ChoiceCase, Hindrance, Lift, TextCase, TriCase};

/// What gives a bool or tristate its value.
fn tri_case_word(given: TriCase) -> &'static str
    ensures { result.now ≡ tri_case_word given }
{
    match given {
        TriCase::User => "user",
        TriCase::Visibility => "visibility",
        TriCase::Default => "default",
        TriCase::Environment => "environment",
        TriCase::Imply => "imply",
        TriCase::Dependency => "dependency",
        TriCase::Select => "select",
        TriCase::Nothing => "nothing",
    }
}

/// Why an `m` became `y`; `None` where it didn't.
fn lift_word(lift: Lift) -> Option<&'static str>
    ensures { option_map (λ (word : Bor (List ℕ)). word.now) result ≡ lift_word lift }
{
    match lift {
        Lift::AsGiven => None,
        Lift::WithoutM => Some("no_m"),
        Lift::ImpliedY => Some("implied_y"),
    }
}

/// What gives a string or number its value.
fn text_case_word(given: TextCase) -> &'static str
    ensures { result.now ≡ text_case_word given }
{
    match given {
        TextCase::User => "user",
        TextCase::UserLowBound => "user_low_bound",
        TextCase::UserHighBound => "user_high_bound",
        TextCase::Default => "default",
        TextCase::Environment => "environment",
        TextCase::NoNumber => "no_number",
        TextCase::LowBound => "low_bound",
        TextCase::HighBound => "high_bound",
        TextCase::Zero => "zero",
        TextCase::Nothing => "nothing",
    }
}

/// What selects a choice's member.
fn choice_case_word(given: ChoiceCase) -> &'static str
    ensures { result.now ≡ choice_case_word given }
{
    match given {
        ChoiceCase::User => "choice_user",
        ChoiceCase::Default => "choice_default",
        ChoiceCase::First => "choice_first",
        ChoiceCase::FirstUnlisted => "choice_first_unlisted",
        ChoiceCase::FirstListed => "choice_first_listed",
        ChoiceCase::Optional => "choice_optional",
        ChoiceCase::NoMember => "choice_no_member",
        ChoiceCase::NotShown => "choice_not_shown",
    }
}

/// What gives a unit its value.
pub(crate) fn case_word(case: Case) -> &'static str
    ensures { result.now ≡ case_word case }
{
    match case {
        Case::Tri(given, _) => tri_case_word(given),
        Case::Text(given) => text_case_word(given),
        Case::Choice(given) => choice_case_word(given),
    }
}

/// Why a value is `y` in place of `m`; `None` where it isn't.
pub(crate) fn lift_of_case(case: Case) -> Option<&'static str>
    ensures { option_map (λ (word : Bor (List ℕ)). word.now) result ≡ lift_of_case case }
{
    match case {
        Case::Tri(_, lift) => lift_word(lift),
        Case::Text(_) => None,
        Case::Choice(_) => None,
    }
}

/// What hinders a user value.
pub(crate) fn hindrance_word(hindrance: Hindrance) -> &'static str
    ensures { result.now ≡ hindrance_word hindrance }
{
    match hindrance {
        Hindrance::BelowSelected => "below_selected",
        Hindrance::FromEnvironment => "environment",
        Hindrance::Hidden => "hidden",
        Hindrance::AboveVisibility => "above_visibility",
        Hindrance::Promoted => "no_modules",
        Hindrance::ImpliedY => "implied_y",
        Hindrance::UpsideDown => "upside_down",
        Hindrance::OutOfRange => "out_of_range",
        Hindrance::ChoiceNotShown => "choice_not_shown",
        Hindrance::MemberHidden => "member_hidden",
        Hindrance::LaterY => "later_y",
        Hindrance::FirstOfAll => "first_of_all",
    }
}
