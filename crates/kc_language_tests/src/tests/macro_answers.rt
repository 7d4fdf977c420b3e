//! Files of answers to the questions of macros.
use kc_answers::Answers;
use kc_macros::{AnswersFault, AnswersKind};
use kc_value::Seed;
use kmin_fakes::{Script, Then, twice};
use std::alloc::{AllocError, Global};

/// Reads bytes, three at a time, and once more where memory ran out.
fn read(
    alloc: Global,
    answers: &mut Answers,
    bytes: &[u8],
    then: Then,
) -> Result<Result<(), AnswersFault>, AllocError> {
    let mut script = Script::new(twice!(Vec::from_slice(alloc, bytes)), 3, then);
    match answers.read(&mut script) {
        Err(fault) if fault.kind == AnswersKind::OutOfMemory => {
            let mut script = Script::new(twice!(Vec::from_slice(alloc, bytes)), 3, then);
            Ok(answers.read(&mut script))
        }
        result => Ok(result),
    }
}

/// Passes a test if a file is refused at this line for this reason.
macro_rules! assert_refused {
    ($rt:expr, $answers:ident, $file:expr, $then:expr, $line:expr, $kind:expr) => {{
        let fault = AnswersFault {
            line: $line,
            kind: $kind,
        };
        let result = read($rt.alloc(), &mut $answers, $file, $then)?;
        assert_eq!($rt; result, Err(fault));
    }};
}

#[test]
fn a_file_of_answers_is_read(rt: HostRuntime) -> Result<(), std::test::Fail> {
    let mut answers = Answers::new(rt.alloc(), Seed::fixed());
    let file = b"# by hand\n\nA=x=y  \n!B\n$ c d\n> f g\r\n$ e\n>\n";
    assert_eq!(rt; read(rt.alloc(), &mut answers, file, Then::End)?, Ok(()));
    assert_eq!(rt; answers.answer(b"A"), Some(Some(&b"x=y"[..])));
    assert_eq!(rt; answers.answer(b"B"), Some(None));
    assert_eq!(rt; answers.answer(b"$ c d"), Some(Some(&b"f g"[..])));
    assert_eq!(rt; answers.answer(b"$ e"), Some(Some(&b""[..])));
    assert_eq!(rt; answers.answer(b"C"), None);
    Ok(())
}

#[test]
fn a_refused_file_changes_no_answer(rt: HostRuntime) -> Result<(), std::test::Fail> {
    let mut answers = Answers::new(rt.alloc(), Seed::fixed());
    assert_eq!(rt;
        read(rt.alloc(), &mut answers, b"Z=1\n", Then::End)?,
        Ok(())
    );
    for (file, line, kind) in [
        (&b"$ a\nB=1\n"[..], 1, AnswersKind::Malformed),
        (&b"> a\n"[..], 1, AnswersKind::Malformed),
        (&b"$a\n"[..], 1, AnswersKind::Malformed),
        (&b"A=1\n$ a"[..], 2, AnswersKind::Malformed),
        (&b"A=1\nA=1\nA=2\n"[..], 3, AnswersKind::TwoAnswers),
        (&b"!A\nA=\n"[..], 2, AnswersKind::TwoAnswers),
        (&b"A=1\nZ=2\n"[..], 2, AnswersKind::TwoAnswers),
        (&b"\n# \n\xff\n"[..], 3, AnswersKind::NotUtf8),
    ] {
        assert_refused!(rt, answers, file, Then::End, line, kind);
        assert_eq!(rt; answers.answer(b"A"), None);
        assert_eq!(rt; answers.answer(b"Z"), Some(Some(&b"1"[..])));
    }
    Ok(())
}

#[test]
fn a_failed_read_refuses_a_file(rt: HostRuntime) -> Result<(), std::test::Fail> {
    let mut answers = Answers::new(rt.alloc(), Seed::fixed());
    for (file, line, kind) in [
        (&b"A=1\nB"[..], 2, AnswersKind::Read),
        (&b"A=1\n$ a\n"[..], 3, AnswersKind::Read),
        (&b"A=1\nB\nC"[..], 2, AnswersKind::Malformed),
    ] {
        assert_refused!(rt, answers, file, Then::Fail, line, kind);
        assert_eq!(rt; answers.answer(b"A"), None);
    }
    Ok(())
}

#[test]
fn a_line_may_have_65536_bytes(rt: HostRuntime) -> Result<(), std::test::Fail> {
    let mut answers = Answers::new(rt.alloc(), Seed::fixed());
    let mut line = twice!(Vec::from_slice(rt.alloc(), b"A="));
    twice!(line.resize(65_536, b'x'));
    assert_eq!(rt; read(rt.alloc(), &mut answers, &line, Then::End)?, Ok(()));
    twice!(line.push(b'x'));
    assert_refused!(rt, answers, &line, Then::End, 1, AnswersKind::LineTooLong);
    Ok(())
}
