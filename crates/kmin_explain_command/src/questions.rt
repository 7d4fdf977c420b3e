//! What a command asks of reasons.
ghost use Rattle.std.specs.Prelude.{◌≡◌, List, ℕ, option_map};
ghost use Rattle.std.specs.Borrow.{Bor};
ghost use Rattle.kmin_explain_command.specs.Explains.{names_of};
ghost use Rattle.kmin_options.specs.Jobs.{question_view};

use kmin_options::Question;

/// The names of symbols that a question has, if it has any.
pub(crate) fn names_of<'a>(question: Question<'a>) -> Option<&'a str>
    ensures { option_map (λ (names : Bor (List ℕ)). names.now) result ≡ names_of (question_view question.entry) }
{
    match question {
        Question::Explain { names, .. } => names,
        Question::Missed { .. } => None,
        Question::Check { .. } => None,
    }
}
