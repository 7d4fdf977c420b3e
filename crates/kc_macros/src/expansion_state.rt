//! The state of a run of an expansion: its answers, the work that is left, its notices and its questions.
ghost use Rattle.std.specs.Prelude.{◌≡◌, ℕ, ◌-◌, ◌≤◌, [], ◌∷◌, ◌++◌, IfOk, OnOk, Vec, map, option_map};
ghost use Rattle.std.specs.declared.alloc.Global.{Global};
ghost use Rattle.kc_tree_model.specs.Keywords.{keyword_in_table};
ghost use Rattle.kc_macros_model.specs.Worlds.{not_in};
ghost use Rattle.kc_answers.specs.RunStates.{run_at_start, open_questions, with_question};
ghost use Rattle.kc_macros.specs.Runs.{notice_of};

use super::stop::MacroNotice;
use kc_answers::Answers;
use kc_value::{MAX_WORK, Seed};
use std::alloc::{AllocError, Global};
use std::marker::Model;

/// The state of a run of the expansion: the answers, whether each question must have an answer, the work that is left, the
/// notices so far, and the questions asked so far, each once in order of first sight.
#[derive(Drop)]
pub struct ExpansionState<'a> {
    alloc: Global,
    answers: &'a Answers,
    all_answered: bool,
    left: usize,
    notices: Vec<MacroNotice>,
    questions: Answers,
}

impl<'a> Model for ExpansionState<'a> {
    ghost use Rattle.std.specs.Prelude.{map};
    ghost use Rattle.kc_answers.specs.RunStates.{RunState, questions_of};
    ghost use Rattle.kc_macros.specs.Runs.{notice_of};

    ghost Value = { RunState };

    ghost view = { λ r. record { answers = r.answers.now; all_answered = r.all_answered; left = r.left; notices = map notice_of r.notices.items; questions = questions_of r.questions } };
}

impl<'a> ExpansionState<'a> {
    /// A run of the expansion at its start; with `all_answered` a question without an answer is a fault.
    pub fn new(
        alloc: Global,
        seed: Seed,
        answers: &'a Answers,
        all_answered: bool,
    ) -> ExpansionState<'a>
        ensures { result ≡ run_at_start answers.now all_answered }
    {
        ExpansionState {
            alloc,
            answers,
            all_answered,
            left: MAX_WORK,
            notices: Vec::new(alloc),
            questions: Answers::new(alloc, seed),
        }
    }

    /// The allocator of the run.
    pub fn alloc(&self) -> Global {
        self.alloc
    }

    /// Whether a question without an answer is a fault of the run.
    pub fn all_answered(&self) -> bool
        ensures { result ≡ self.now.all_answered }
    {
        self.all_answered
    }

    /// The notices of the run so far, in order.
    pub fn notices(&self) -> &[MacroNotice]
        ensures { map notice_of result.now ≡ self.now.notices }
    {
        self.notices.as_slice()
    }

    /// The notices of a run that is over, in order.
    pub fn into_notices(self) -> Vec<MacroNotice>
        ensures { map notice_of result.items ≡ self.entry.notices }
    {
        self.notices
    }

    /// The questions without an answer of a run that is over, each once in order of first sight.
    ///
    /// # Errors
    ///
    /// Memory ran out.
    pub fn into_open_questions(self) -> Result<Vec<Vec<u8>>, AllocError>
        ensures { IfOk result (λ qs. map (λ (q : Vec ℕ Global). q.items) qs.items ≡ open_questions self.entry) }
    {
        let answers = self.answers;
        let mut questions = self.questions.into_questions()?;
        answers.keep_open(&mut questions);
        Ok(questions)
    }

    /// Keeps those of some questions that the run hasn't asked.
    pub fn keep_not_asked(&self, questions: &mut Vec<Vec<u8>>)
        ensures { map (λ (q : Vec ℕ Global). q.items) questions.new.items ≡ not_in self.now.questions (map (λ (q : Vec ℕ Global). q.items) questions.old.items) }
    {
        self.questions.keep_open(questions);
    }

    /// The work that the run may still spend.
    pub(crate) fn left(&self) -> usize
        ensures { result ≡ self.now.left }
    {
        self.left
    }

    /// The answer to a question, if the run has one; `Some(None)` for a name that isn't set.
    pub(crate) fn answer(&self, question: &[u8]) -> Option<Option<&[u8]>>
        ensures { option_map (λ a. option_map (λ t. t.now) a) result ≡ keyword_in_table self.now.answers question.now }
    {
        self.answers.answer(question)
    }

    /// Takes this much work from what the run may still spend.
    pub(crate) fn take_work(&mut self, work: usize)
        requires fits { work ≤ self.old.left }
        ensures state { self.new ≡ record self.old { left = self.old.left - work } }
    {
        self.left -= work;
    }

    /// Appends a notice to those of the run.
    pub(crate) fn push_notice(&mut self, notice: MacroNotice) -> Result<(), AllocError>
        ensures { OnOk result (self.new ≡ record self.old { notices = self.old.notices ++ notice_of notice ∷ [] }) }
    {
        self.notices.push(notice)?;
        Ok(())
    }

    /// Appends a question to those of the run, unless it is among them.
    pub(crate) fn note_question(&mut self, question: &[u8]) -> Result<(), AllocError>
        ensures { OnOk result (self.new ≡ record self.old { questions = with_question self.old.questions question.now }) }
    {
        self.questions.note(question)?;
        Ok(())
    }
}
