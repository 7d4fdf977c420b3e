//! Lines with macros: their values, assignments, forms, and how they are written.
use kc_answers::Answers;
use kc_macro_forms::{
    LineForm, SourceSort, WrittenToken, is_help_line, is_undecided, line_bytes, line_form,
    quoted_text_token, source_line, with_bare_prompt, with_replacement, without_choice_name,
};
use kc_macro_lines::{LineContent, is_copied, read_line};
use kc_macros::{
    Bindings, ExpansionState, MacroNotice, MacroNoticeKind, Place, Stop, assign, text_value,
};
use kc_value::Seed;
use kmin_fakes::twice;
use std::alloc::{AllocError, Global};

/// The place of the lines of the tests.
const AT: Place<'static> = Place {
    file: b"Kconfig",
    line: 7,
};

/// Compares what a function makes of each of these texts, at its second try where the first is refused, with what is wanted.
macro_rules! assert_each {
    ($rt:expr, $made:ident $(, $bindings:expr)?; $first:expr => $first_wanted:expr $(, $text:expr => $wanted:expr)* $(,)?) => {
        for (text, wanted) in [(&$first[..], &$first_wanted[..]) $(, ($text, $wanted))*] {
            let found = twice!($made($rt.alloc(), $($bindings,)? text));
            assert_eq!($rt; found.as_slice(), wanted);
        }
    };
}

/// Answers to three questions.
fn answers(alloc: Global) -> Result<Answers, AllocError> {
    let mut answers = Answers::new(alloc, Seed::fixed());
    twice!(answers.set(b"ARCH", Some(b"x 86")));
    twice!(answers.set(b"NOT", None));
    twice!(answers.set(b"$ uname", Some(b"Linux")));
    Ok(answers)
}

/// The text of the fault that stopped a run, or `?` for an open question. Lack of memory stays an error.
fn stop_text(alloc: Global, stop: Stop) -> Result<Vec<u8>, AllocError> {
    match stop {
        Stop::Fault(fault) => Ok(fault.text.into_vec()),
        Stop::Unanswered => Vec::from_slice(alloc, b"?"),
        Stop::OutOfMemory => Err(AllocError),
    }
}

/// The variables after these lines, in order. Each has to be an assignment without a fault, so that one that is refused means
/// lack of memory.
fn assigned(alloc: Global, lines: &[&[u8]]) -> Result<Bindings, AllocError> {
    let answers = answers(alloc)?;
    let mut bindings = Bindings::new(alloc, Seed::fixed());
    let mut done: usize = 0;
    for line in lines {
        let mut run = ExpansionState::new(alloc, Seed::fixed(), &answers, true);
        if let Ok(LineContent::Assigns(assignment)) = read_line(&mut run, AT, &bindings, line) {
            let outcome = assign(&mut run, AT, &mut bindings, assignment);
            if outcome.is_ok() {
                done = done.saturating_add(1);
            }
        }
    }
    if done < lines.len() {
        return Err(AllocError);
    }
    Ok(bindings)
}

/// The value of a text, or what stops it.
fn value(alloc: Global, bindings: &Bindings, text: &[u8]) -> Result<Vec<u8>, AllocError> {
    let answers = answers(alloc)?;
    let mut run = ExpansionState::new(alloc, Seed::fixed(), &answers, true);
    match text_value(&mut run, AT, bindings, text) {
        Ok(Some(value)) => Ok(value.into_vec()),
        Ok(None) => Vec::from_slice(alloc, b"unknown"),
        Err(stop) => stop_text(alloc, stop),
    }
}

/// The tokens of a line that assigns nothing; none of one that does.
fn tokens(alloc: Global, text: &[u8]) -> Result<Vec<WrittenToken>, AllocError> {
    let answers = answers(alloc)?;
    let bindings = Bindings::new(alloc, Seed::fixed());
    let mut run = ExpansionState::new(alloc, Seed::fixed(), &answers, true);
    match read_line(&mut run, AT, &bindings, text) {
        Ok(LineContent::Tokens(tokens)) => Ok(tokens),
        Err(Stop::OutOfMemory) => Err(AllocError),
        _ => Ok(Vec::new(alloc)),
    }
}

/// A line as it is written, or what stops it.
fn written(alloc: Global, bindings: &Bindings, text: &[u8]) -> Result<Vec<u8>, AllocError> {
    let answers = answers(alloc)?;
    let mut run = ExpansionState::new(alloc, Seed::fixed(), &answers, true);
    match read_line(&mut run, AT, bindings, text) {
        Ok(LineContent::Tokens(tokens)) => line_bytes(alloc, tokens.as_slice()),
        Ok(LineContent::Assigns(assignment)) => Ok(assignment.text.into_vec()),
        Err(stop) => stop_text(alloc, stop),
    }
}

#[test]
fn an_answer_takes_the_place_of_one_before(rt: HostRuntime) -> Result<(), std::test::Fail> {
    let mut answers = Answers::new(rt.alloc(), Seed::fixed());
    twice!(answers.set(b"A", Some(b"1")));
    twice!(answers.set(b"B", Some(b"2")));
    twice!(answers.set(b"A", None));
    assert_eq!(rt; answers.answer(b"A"), Some(None));
    assert_eq!(rt; answers.answer(b"B"), Some(Some(&b"2"[..])));
    assert!(rt; answers.has(b"A"));
    assert!(rt; !answers.has(b"C"));
    Ok(())
}

#[test]
fn references_have_values(rt: HostRuntime) -> Result<(), std::test::Fail> {
    let none = Bindings::new(rt.alloc(), Seed::fixed());
    assert_each!(rt, value, &none;
        b"a$(ARCH)b$c" => b"ax 86b$c",
        b"$(NOT)" => b"",
        b"$(shell,uname  )" => b"Linux",
        b"$(lineno)$(filename)" => b"7Kconfig",
        b"$(OPEN)" => b"OPEN",
        b"$(shell,date)" => b"$ date",
        b"$(error-if,y,a (b, c))" => b"a (b, c)",
    );
    Ok(())
}

/// The word of a kind of notice.
fn notice_word(kind: MacroNoticeKind) -> &'static [u8] {
    match kind {
        MacroNoticeKind::Info => b"info",
        MacroNoticeKind::Warning => b"warning",
    }
}

/// The kinds and texts of the notices that are at the place of the tests; each ends with a semicolon.
fn listed(alloc: Global, notices: &[MacroNotice]) -> Result<Vec<u8>, AllocError> {
    let mut out = Vec::new(alloc);
    for notice in notices {
        if notice.file.as_slice() == AT.file && notice.line == AT.line {
            out.extend_from_slice(notice_word(notice.kind))?;
            out.push(b' ')?;
            out.extend_from_slice(notice.text.as_slice())?;
            out.push(b';')?;
        }
    }
    Ok(out)
}

/// The notices of a run that finds the value of a text, also of a run that is stopped by a fault.
fn noticed(alloc: Global, text: &[u8]) -> Result<Vec<u8>, AllocError> {
    let answers = answers(alloc)?;
    let bindings = Bindings::new(alloc, Seed::fixed());
    let mut run = ExpansionState::new(alloc, Seed::fixed(), &answers, true);
    match text_value(&mut run, AT, &bindings, text) {
        Err(Stop::OutOfMemory) => Err(AllocError),
        _ => listed(alloc, run.notices()),
    }
}

#[test]
fn notices_are_in_order(rt: HostRuntime) -> Result<(), std::test::Fail> {
    assert_each!(rt, noticed;
        b"a$(ARCH)" => b"",
        b"$(info,a $(ARCH))$(warning-if,y,b)$(info,c)" => b"info a x 86;warning b;info c;",
        b"$(warning-if,n,a)$(warning-if,y,b)" => b"warning b;",
        b"$(info,a)$(error-if,y,b)$(info,c)" => b"info a;",
    );
    Ok(())
}

#[test]
fn assignments_bind_names(rt: HostRuntime) -> Result<(), std::test::Fail> {
    let bindings = twice!(assigned(
        rt.alloc(),
        &[
            b"S := $(ARCH)",
            b"R = <$(1)>$(S)",
            b"S += $(lineno)",
            b"R += $(2)",
            b"$(S)\t:=  y "
        ],
    ));
    assert_each!(rt, value, &bindings;
        b"$(S)" => b"x 86 7",
        b"$(R,a,b)" => b"<a>x 86 7 b",
        b"$(x 86 7)" => b"y ",
    );
    Ok(())
}

#[test]
fn lines_are_written_with_values(rt: HostRuntime) -> Result<(), std::test::Fail> {
    let bindings = twice!(assigned(rt.alloc(), &[b"K = config", b"B = A_b-1"]));
    assert_each!(rt, written, &bindings;
        b"\tdefault $(ARCH) # $(OPEN" => b"\tdefault \"x 86\" # $(OPEN",
        b"$(K) $(B)$(NOT)1" => b"\"config\" A_b-11",
        b"if $(NOT) = y" => b"if   = y",
        b"bool \"$(ARCH) \\\" $\" if $X" => b"bool \"x 86 \\\" \\$\" if $X",
        b"  X\t +=  $(ARCH) #" => b"$(ARCH) #",
        b"source = a" => b"source = a",
        b"a b = $(OPEN)" => b"OPEN",
    );
    Ok(())
}

/// The word for the form of a line, and the text that the form has.
fn form_word<'t>(form: LineForm<'t>) -> (&'static [u8], &'t [u8]) {
    match form {
        LineForm::Plain => (b"plain", b""),
        LineForm::BarePrompt(text) => (b"prompt", text),
        LineForm::ReplacedBy(text) => (b"replaced", text),
        LineForm::NamedChoice(name) => (b"choice", name),
        LineForm::Sources(sort, path) => (source_word(sort), path.unwrap_or(b"?")),
    }
}

/// The word of a `source`.
fn source_word(sort: SourceSort) -> &'static [u8] {
    match (sort.optional, sort.relative) {
        (false, false) => b"source",
        (false, true) => b"rsource",
        (true, false) => b"osource",
        (true, true) => b"orsource",
    }
}

/// The form of a line and its text, after a comma; then whether the line begins a help text, and whether it is undecided.
fn formed(alloc: Global, text: &[u8]) -> Result<Vec<u8>, AllocError> {
    let tokens = tokens(alloc, text)?;
    let (word, part) = form_word(line_form(tokens.as_slice()));
    let mut out = Vec::from_slice(alloc, word)?;
    out.push(b',')?;
    out.extend_from_slice(part)?;
    if is_help_line(tokens.as_slice()) {
        out.extend_from_slice(b",help")?;
    }
    if is_undecided(tokens.as_slice()) {
        out.extend_from_slice(b",undecided")?;
    }
    Ok(out)
}

#[test]
fn lines_have_forms(rt: HostRuntime) -> Result<(), std::test::Fail> {
    assert_each!(rt, formed;
        b"config A" => b"plain,",
        b"bool Word if A" => b"prompt,Word",
        b"bool if A" => b"plain,",
        b"option allnoconfig_y" => b"replaced,",
        b"option defconfig_list # a" => b"replaced,depends on n",
        b"choice NAME" => b"choice,NAME",
        b"choice" => b"plain,",
        b"source \"a/$(ARCH)\"" => b"source,a/x 86",
        b"  rsource 'b'" => b"rsource,b",
        b"osource c" => b"osource,c",
        b"orsource d" => b"orsource,d",
        b"source a b" => b"plain,",
        b"\t---help--- # a" => b"plain,,help",
    );
    Ok(())
}

#[test]
fn forms_are_written_anew(rt: HostRuntime) -> Result<(), std::test::Fail> {
    let alloc = rt.alloc();
    let prompt = twice!(tokens(alloc, b"  bool Word if A"));
    let line = twice!(with_bare_prompt(alloc, prompt.as_slice(), b"Word"));
    assert_eq!(rt; line.as_slice(), &b"  bool \"Word\" if A"[..]);
    let line = twice!(with_replacement(alloc, prompt.as_slice(), b"depends on n"));
    assert_eq!(rt; line.as_slice(), &b"  depends on n"[..]);
    let line = twice!(line_bytes(alloc, prompt.as_slice()));
    assert_eq!(rt; line.as_slice(), &b"  bool Word if A"[..]);
    let choice = twice!(tokens(alloc, b"choice NAME # a"));
    let line = twice!(without_choice_name(alloc, choice.as_slice()));
    assert_eq!(rt; line.as_slice(), &b"choice  # a"[..]);
    let source = twice!(tokens(alloc, b" orsource  a/b # c"));
    let line = twice!(source_line(alloc, source.as_slice(), b"a/b", b"a/b"));
    assert_eq!(rt; line.as_slice(), &b" source  a/b # c"[..]);
    let line = twice!(source_line(alloc, source.as_slice(), b"a/b", b"a/b#2"));
    assert_eq!(rt; line.as_slice(), &b" source  \"a/b#2\" # c"[..]);
    let quoted = twice!(quoted_text_token(alloc, b"a\"b$\\"));
    assert_eq!(rt; quoted.bytes.as_slice(), &b"\"a\\\"b\\$\\\\\""[..]);
    Ok(())
}

#[test]
fn lines_on_which_nothing_acts_are_found(rt: HostRuntime) -> Result<(), std::test::Fail> {
    for (line, wanted) in [
        (&b""[..], true),
        (b"\t# source a", true),
        (b"config A", true),
        (b"\tbool \"a\" if A = y", true),
        (b"\tdefault y if A && \"help\"", true),
        (b"\tdepends on A", true),
        (b"  menu 'a'", true),
        (b"source \"a\"", false),
        (b"\thelp", false),
        (b"\t---help---", false),
        (b"A = b", false),
        (b"A+=b", false),
        (b"A  := b", false),
        (b"\tbool word", false),
        (b"choice A", false),
        (b"option allnoconfig_y", false),
        (b"config $(A)", false),
        (b"config \xff", false),
    ] {
        assert_eq!(rt; is_copied(line), wanted);
    }
    Ok(())
}
