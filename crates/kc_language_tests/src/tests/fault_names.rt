//! The name of each kind of fault is the text that it is printed as.
use kc_macros::{AnswersKind, MacroKind, MacroNoticeKind};
use kc_tokens::ExprKind;
use kc_tree_model::TreeKind;
use kmin_fakes::{is_printed, twice};
use std::test::Fail;

/// Passes a test if each of these kinds is printed as its name.
macro_rules! assert_printed_as_names {
    ($rt:expr, $kinds:expr) => {
        for kind in $kinds {
            let printed = twice!(is_printed($rt.alloc(), &kind, kind.name()));
            assert!($rt; printed);
        }
    };
}

#[test]
fn kinds_of_expression_faults_are_printed_as_their_names(rt: HostRuntime) -> Result<(), Fail> {
    assert_printed_as_names!(
        rt,
        [
            ExprKind::BadToken,
            ExprKind::UnclosedQuote,
            ExprKind::Malformed,
            ExprKind::TooDeep,
            ExprKind::LeftOut,
            ExprKind::OutOfMemory,
        ]
    );
    Ok(())
}

#[test]
fn kinds_of_tree_faults_are_printed_as_their_names(rt: HostRuntime) -> Result<(), Fail> {
    assert_printed_as_names!(
        rt,
        [
            TreeKind::NotUtf8,
            TreeKind::LineTooLong,
            TreeKind::BadToken,
            TreeKind::UnclosedQuote,
            TreeKind::UnknownStatement,
            TreeKind::Malformed,
            TreeKind::Unclosed,
            TreeKind::StrayEnd,
            TreeKind::Misplaced,
            TreeKind::NoType,
            TreeKind::TypeConflict,
            TreeKind::SecondPrompt,
            TreeKind::DefaultShape,
            TreeKind::RangeType,
            TreeKind::SelectType,
            TreeKind::ChoiceMember,
            TreeKind::ChoiceDefault,
            TreeKind::ModulesType,
            TreeKind::MissingFile,
            TreeKind::SourceLoop,
            TreeKind::TooDeep,
            TreeKind::TooMany,
            TreeKind::Cycle,
            TreeKind::LeftOut,
            TreeKind::OutOfMemory,
        ]
    );
    Ok(())
}

#[test]
fn kinds_of_macro_faults_are_printed_as_their_names(rt: HostRuntime) -> Result<(), Fail> {
    assert_printed_as_names!(
        rt,
        [
            MacroKind::Unterminated,
            MacroKind::Undefined,
            MacroKind::Recursion,
            MacroKind::Arguments,
            MacroKind::Error,
            MacroKind::Unanswered,
            MacroKind::JoinedAssignment,
            MacroKind::MissingFile,
            MacroKind::SourceLoop,
            MacroKind::TooDeep,
            MacroKind::TooMany,
            MacroKind::LineTooLong,
            MacroKind::OutOfMemory,
        ]
    );
    Ok(())
}

#[test]
fn kinds_of_macro_notices_are_printed_as_their_names(rt: HostRuntime) -> Result<(), Fail> {
    assert_printed_as_names!(rt, [MacroNoticeKind::Info, MacroNoticeKind::Warning]);
    Ok(())
}

#[test]
fn kinds_of_answer_faults_are_printed_as_their_names(rt: HostRuntime) -> Result<(), Fail> {
    assert_printed_as_names!(
        rt,
        [
            AnswersKind::Malformed,
            AnswersKind::TwoAnswers,
            AnswersKind::NotUtf8,
            AnswersKind::LineTooLong,
            AnswersKind::TooManyLines,
            AnswersKind::TooLarge,
            AnswersKind::Read,
            AnswersKind::OutOfMemory,
        ]
    );
    Ok(())
}
