//! Questions of macros with their answers.
ghost use Rattle.std.specs.Prelude.{◌≡◌, ℕ, List, [], ◌∷◌, ◌++◌, length, take, Some, None, OnOk, OnErr, IfOk, Vec, bytes_eq, filter, is_none, is_some, map, option_map, if◌then◌else◌};
ghost use Rattle.std.specs.declared.alloc.Global.{Global};
ghost use Rattle.kc_tree_model.specs.Keywords.{keyword_in_table};
ghost use Rattle.kc_answers.specs.RunStates.{questions_of, with_question};

use indexmap::IndexMap;
use kc_value::Seed;
use std::alloc::{AllocError, Global};
use std::marker::Model;

/// Questions of macros with their answers, in order of insertion: the values of names, or that a name isn't set, for which the
/// answer is `None`, and the answers to commands.
#[derive(Drop)]
pub struct Answers {
    pub(crate) alloc: Global,
    entries: IndexMap<Vec<u8>, Option<Vec<u8>>, Seed>,
}

impl Model for Answers {
    ghost use Rattle.std.specs.Prelude.{map};
    ghost use Rattle.kc_macros_model.specs.AnswerFiles.{RecordedAnswers};

    ghost Value = { RecordedAnswers };

    ghost use Rattle.kc_answers.specs.checker.TableView.{answer_of_entry};

    ghost view = { λ a. map answer_of_entry a.entries.entries };
}

/// A copy of an answer.
fn copy_of_answer(alloc: Global, answer: Option<&[u8]>) -> Result<Option<Vec<u8>>, AllocError>
    ensures { IfOk result (λ copy. option_map (λ (t : Vec ℕ Global). t.items) copy ≡ option_map (λ t. t.now) answer.entry) }
{
    match answer {
        Some(text) => Ok(Some(Vec::from_slice(alloc, text)?)),
        None => Ok(None),
    }
}

impl Answers {
    /// Answers to no question yet; `seed` seeds the hashes of the questions.
    pub fn new(alloc: Global, seed: Seed) -> Answers
        ensures { result ≡ [] }
    {
        Answers {
            alloc,
            entries: IndexMap::with_hasher(alloc, seed),
        }
    }

    /// The answer to a question: a name, or `$ ` and a command without white at its end. `Some(None)` is a name that isn't
    /// set, `None` a question without an answer.
    pub fn answer(&self, question: &[u8]) -> Option<Option<&[u8]>>
        ensures { option_map (λ a. option_map (λ t. t.now) a) result ≡ keyword_in_table self.now question.now }
    {
        match self.entries.get(question)? {
            Some(text) => Some(Some(text.as_slice())),
            None => Some(None),
        }
    }

    /// Whether a question has an answer.
    pub fn has(&self, question: &[u8]) -> bool
        ensures { result ≡ is_some (keyword_in_table self.now question.now) }
    {
        self.answer(question).is_some()
    }

    /// Appends a question that has no answer yet, with its answer; both are copied.
    ///
    /// # Errors
    ///
    /// Where memory runs out, nothing is changed.
    pub fn insert(&mut self, question: &[u8], answer: Option<&[u8]>) -> Result<(), AllocError>
        requires absent { keyword_in_table self.old question.now ≡ None }
        ensures ok { OnOk result (self.new ≡ self.old ++ (question.now, option_map (λ t. t.now) answer.entry) ∷ []) }
        ensures err { OnErr result (self.new ≡ self.old) }
    {
        let question = Vec::from_slice(self.alloc, question)?;
        let answer = copy_of_answer(self.alloc, answer)?;
        self.entries.insert(question, answer)?;
        Ok(())
    }

    /// Gives a question this answer, in place of an earlier one: a text, or `None` for a name that isn't set. Both are copied.
    ///
    /// # Errors
    ///
    /// Memory ran out; the answers are then as they were.
    pub fn set(&mut self, question: &[u8], answer: Option<&[u8]>) -> Result<(), AllocError>
        ensures ok { OnOk result ((other : List ℕ) → keyword_in_table self.new other ≡ (if bytes_eq other question.now then Some (option_map (λ t. t.now) answer.entry) else keyword_in_table self.old other)) }
        ensures err { OnErr result (self.new ≡ self.old) }
    {
        let question = Vec::from_slice(self.alloc, question)?;
        let text = copy_of_answer(self.alloc, answer)?;
        self.entries.insert(question, text)?;
        Ok(())
    }

    /// Appends a question as one that isn't set, unless it has an answer.
    ///
    /// # Errors
    ///
    /// Memory ran out.
    pub fn note(&mut self, question: &[u8]) -> Result<(), AllocError>
        ensures { OnOk result (questions_of self.new ≡ with_question (questions_of self.old) question.now) }
    {
        if self.answer(question).is_none() {
            self.insert(question, None)?;
        }
        Ok(())
    }

    /// Keeps those of some questions that have no answer.
    pub fn keep_open(&self, questions: &mut Vec<Vec<u8>>)
        ensures { map (λ (q : Vec ℕ Global). q.items) questions.new.items ≡ filter (λ q. is_none (keyword_in_table self.now q)) (map (λ (q : Vec ℕ Global). q.items) questions.old.items) }
    {
        questions.retain(|question| self.answer(question).is_none());
    }

    /// Copies of the questions that have answers, in order of their first answers.
    ///
    /// # Errors
    ///
    /// Memory ran out.
    pub fn questions(&self) -> Result<Vec<Vec<u8>>, AllocError>
        ensures { IfOk result (λ qs. map (λ (q : Vec ℕ Global). q.items) qs.items ≡ questions_of self.now) }
    {
        let mut questions = Vec::new(self.alloc);
        for question in self.entries.keys() {
            questions.push(Vec::from_slice(self.alloc, question)?)?;
        }
        Ok(questions)
    }

    /// The questions that have answers, in order of their first answers.
    pub fn into_questions(self) -> Result<Vec<Vec<u8>>, AllocError>
        ensures { IfOk result (λ qs. map (λ (q : Vec ℕ Global). q.items) qs.items ≡ questions_of self) }
    {
        let alloc = self.alloc;
        self.entries.into_keys().collect(alloc)
    }

    /// How many questions have answers.
    pub fn len(&self) -> usize
        ensures { result ≡ length self.now }
    {
        self.entries.len()
    }

    /// Drops the questions after the first `len`, with their answers.
    pub(crate) fn truncate(&mut self, len: usize)
        ensures { self.new ≡ take len self.old }
    {
        self.entries.truncate(len);
    }
}
