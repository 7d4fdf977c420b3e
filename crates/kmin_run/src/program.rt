//! The program as a whole: from words or a bundle to the output and the exit status.
ghost use Rattle.std.specs.Prelude.{◌≡◌, ◌≢◌, ◌≤◌, ◌⊎◌, List, Option};
ghost use Rattle.kc_files.specs.TextViews.{texts_of as bytes_of};
ghost use Rattle.kmin_lines.specs.between.Texts.{texts_of};
ghost use Rattle.kmin_report.specs.StandardError.{TakesLine, TakesLines};
ghost use Rattle.kmin_report.specs.Reports.{ErrorLine, refused_line};
ghost use Rattle.kmin_run.specs.States.{RunState};
ghost use Rattle.kmin_run.specs.Runs.{AskForChanges, AskForTidying, BundleEnds, Ends, HasFailed, HelpEnds, WordsEnd};
ghost use Rattle.kmin_run.specs.between.StateRuns.{AreWordsRead, EndsAsParsed, EndsAsRead, FormedEnds, KeepsWithinParsed, KeepsWithinRead, KeepsWithinWords};
ghost use Rattle.kmin_texts.specs.Spellings.{AskedForm, as_asked};

use crate::asked_forms::set_form_for;
use crate::bundle_output::run_bundle;
use crate::job_output::serve;
use crate::output_file::save;
use crate::tidy_command::refuse_list;
use crate::wants_command::list_questions;
use kc_value::{Sink, Source};
use kmin_cli::{ParsedWords, command_first, read_words_beside};
use kmin_disk::WriteDisk;
use kmin_explain_command::explain;
use kmin_inputs::{Files, WordFiles, read_word_files};
use kmin_lines::{WordFault, with_files};
use kmin_report::{Message, Messages, RunError, exit_status, write_output};
use kmin_texts::FormMessages;
use std::alloc::Global;

/// The program with all that it works on: the files that it reads, the disk that `tidy` and a command with an output file change, and
/// its standard streams.
#[derive(Drop)]
pub struct Program<F, D, I, O, E> {
    pub files: F,
    pub disk: D,
    pub input: I,
    pub out: O,
    pub err: E,
}

/// What contracts see of a program.
pub trait HasState {
    /// The state of all that it works on, but for standard error.
    ghost state: { Self → RunState };
}

impl<F: Files, D: WriteDisk, I: Source, O: Sink, E: Messages> HasState for Program<F, D, I, O, E> {
    ghost state = { λ p. record {
      known = F.surroundings p.files;
      counted = F.failures p.files;
      input = record { left = I.left p.input; failures = I.failures p.input };
      outputs = record { disk = D.disk p.disk; taken = O.taken p.out; failures = O.failures p.out };
    } };
}

impl<F: Files, D: WriteDisk, I: Source, O: Sink, E: FormMessages> Program<F, D, I, O, E> {
    /// Runs the program on its words, and returns the exit status.
    ///
    /// Without words it reads a bundle, a Kconfig tree, a line `%%` and a configuration file, and writes the full file.
    /// Else the words, each `@FILE` read as the words in its file, are a command, which options may come before. Statuses: 0
    /// done, 1 a comparison found differences, symbols are listed or a line isn't taken with `--exit-code`, a file isn't minimal or a tree
    /// has open questions, 2 words or a list of paths refused, 3 tree refused, also by its expansion, 4 configuration file or answer
    /// file refused, a name that means no symbol, or bundle, list or file of words too large, 5 a read or write failed, 6 out of memory.
    ///
    /// Only `tidy` and a command with an output file use `disk`; all other files are read by `files`.
    pub fn run(&mut self, alloc: Global, words: &[&str]) -> u8
        ensures status { result ≤ 6 }

        // Without words the run is on a bundle. Else each `@FILE` represents the words in its file, what they represent is
        // parsed, the command first, and the run ends as what it is parsed as does: a command by the clauses of its own, a
        // help, or a message that refuses the words, with status 2; or such a file can't be read or is refused, or memory runs
        // out before. Standard error takes just these lines, in the form for which the words of a command ask, and else as before.
        ensures ends { (form : Option AskedForm) × (lines : List ErrorLine) × Ends (⟦<Self as HasState>⟧.state self.old) (⟦<Self as HasState>⟧.state self.new) (texts_of words.now) form lines result
            × TakesLines (as_asked form E.known (E.taken self.old.err)) (E.failures self.old.err) lines (E.taken self.new.err) (E.failures self.new.err) }

        // The disk changes only if the words, with those in files, are parsed as `tidy --write`, or have an output file.
        ensures unasked { ((D.disk self.new.disk).state ≡ (D.disk self.old.disk).state) ⊎ AskForChanges (⟦<Self as HasState>⟧.state self.old) (texts_of words.now) }

        // On status 4 something was written only if the words are parsed as `tidy`, of which a file is refused.
        ensures refused { result ≡ 4 → (O.taken self.new.out ≡ O.taken self.old.out) ⊎ AskForTidying (⟦<Self as HasState>⟧.state self.old) (texts_of words.now) }
        ensures unwritten { result ≢ 0 → result ≢ 1 → result ≢ 4 → result ≢ 5 → O.taken self.new.out ≡ O.taken self.old.out }

        // On status 5 a file couldn't be opened, or a read or a write failed; or the words are parsed as `tidy`, or have an output
        // file, whose own clauses say more.
        ensures failed { result ≡ 5 → HasFailed (⟦<Self as HasState>⟧.state self.old) (⟦<Self as HasState>⟧.state self.new)
            ⊎ (AskForTidying (⟦<Self as HasState>⟧.state self.old) (texts_of words.now) ⊎ AskForChanges (⟦<Self as HasState>⟧.state self.old) (texts_of words.now)) }
    {
        if words.is_empty() {
            return self.serve_bundle(alloc);
        }
        self.run_words(alloc, words)
    }

    /// Reads a bundle, writes its full file, and returns the exit status.
    fn serve_bundle(&mut self, alloc: Global) -> u8
        ensures status { result ≤ 6 }
        ensures ends { (lines : List ErrorLine) × BundleEnds (⟦<Self as HasState>⟧.state self.old).input (⟦<Self as HasState>⟧.state self.new).input (⟦<Self as HasState>⟧.state self.old).outputs (⟦<Self as HasState>⟧.state self.new).outputs lines result
            × TakesLines (E.taken self.old.err) (E.failures self.old.err) lines (E.taken self.new.err) (E.failures self.new.err) }
        ensures unwritten { result ≢ 0 → result ≢ 5 → O.taken self.new.out ≡ O.taken self.old.out }
    {
        match run_bundle(
            alloc,
            self.files.seed(),
            &mut self.input,
            &mut self.out,
            &mut self.err,
        ) {
            Ok(()) => 0,
            Err(stop) => exit_status(stop, &mut self.err),
        }
    }

    /// Runs the words, each `@FILE` read as the words in its file, and returns the exit status.
    fn run_words(&mut self, alloc: Global, words: &[&str]) -> u8
        ensures ends { (form : Option AskedForm) × (lines : List ErrorLine) × WordsEnd (⟦<Self as HasState>⟧.state self.old) (⟦<Self as HasState>⟧.state self.new) (texts_of words.now) form lines result
            × TakesLines (as_asked form E.known (E.taken self.old.err)) (E.failures self.old.err) lines (E.taken self.new.err) (E.failures self.new.err) }
        ensures keeps { KeepsWithinWords (⟦<Self as HasState>⟧.state self.old) (⟦<Self as HasState>⟧.state self.new) (texts_of words.now) result }
    {
        match read_word_files(
            alloc,
            words,
            &mut self.files,
            &mut self.input,
            &mut self.err,
        ) {
            Ok(read) => self.run_given(alloc, words, &read),
            Err(status) => status,
        }
    }

    /// Runs the words, each `@FILE` as the words in its file, which was read before, and returns the exit status.
    fn run_given(&mut self, alloc: Global, words: &[&str], read: &WordFiles) -> u8
        ensures ends { (before : RunState) → AreWordsRead before (⟦<Self as HasState>⟧.state self.old) (texts_of words.now) (bytes_of read.now.files) read.now.is_input_read
            → (form : Option AskedForm) × (lines : List ErrorLine) × WordsEnd before (⟦<Self as HasState>⟧.state self.new) (texts_of words.now) form lines result
            × TakesLines (as_asked form E.known (E.taken self.old.err)) (E.failures self.old.err) lines (E.taken self.new.err) (E.failures self.new.err) }
        ensures keeps { (before : RunState) → AreWordsRead before (⟦<Self as HasState>⟧.state self.old) (texts_of words.now) (bytes_of read.now.files) read.now.is_input_read
            → KeepsWithinWords before (⟦<Self as HasState>⟧.state self.new) (texts_of words.now) result }
    {
        match with_files(alloc, words, &read.files) {
            Ok(given) => self.run_read(alloc, &given, read.is_input_read),
            Err(WordFault::NotUtf8) => refuse_list(&mut self.err),
            Err(WordFault::OutOfMemory) => exit_status(RunError::Memory, &mut self.err),
        }
    }

    /// Runs the command that words without `@FILE` name, after options or before them, and returns the exit status. Where standard
    /// input was read (`is_input_read`), words that read it once more are refused.
    fn run_read(&mut self, alloc: Global, words: &[&str], is_input_read: bool) -> u8
        ensures ends { (form : Option AskedForm) × (lines : List ErrorLine) × EndsAsRead (⟦<Self as HasState>⟧.state self.old) (⟦<Self as HasState>⟧.state self.new) is_input_read (texts_of words.now) form lines result
            × TakesLines (as_asked form E.known (E.taken self.old.err)) (E.failures self.old.err) lines (E.taken self.new.err) (E.failures self.new.err) }
        ensures keeps { KeepsWithinRead (⟦<Self as HasState>⟧.state self.old) (⟦<Self as HasState>⟧.state self.new) is_input_read (texts_of words.now) result }
    {
        let Ok(ordered) = command_first(alloc, words) else {
            return exit_status(RunError::Memory, &mut self.err);
        };
        match read_words_beside(alloc, &ordered, is_input_read) {
            Ok(parsed) => self.run_formed(alloc, &parsed),
            Err(_) => exit_status(RunError::Memory, &mut self.err),
        }
    }

    /// Runs what the words are parsed as, with messages in the form for which they ask, and returns the exit status.
    fn run_formed(&mut self, alloc: Global, parsed: &ParsedWords<'_>) -> u8
        ensures ends { (form : Option AskedForm) × (lines : List ErrorLine) × FormedEnds (⟦<Self as HasState>⟧.state self.old) (⟦<Self as HasState>⟧.state self.new) parsed.now form lines result
            × TakesLines (as_asked form E.known (E.taken self.old.err)) (E.failures self.old.err) lines (E.taken self.new.err) (E.failures self.new.err) }
        ensures keeps { KeepsWithinParsed (⟦<Self as HasState>⟧.state self.old) (⟦<Self as HasState>⟧.state self.new) parsed.now result }
    {
        match set_form_for(parsed, &mut self.err) {
            Ok(()) => self.run_parsed(alloc, parsed),
            Err(_) => exit_status(RunError::Memory, &mut self.err),
        }
    }

    /// Runs what the words are parsed as, a command, a help or a message, and returns the exit status.
    fn run_parsed(&mut self, alloc: Global, parsed: &ParsedWords<'_>) -> u8
        ensures ends { (lines : List ErrorLine) × EndsAsParsed (⟦<Self as HasState>⟧.state self.old) (⟦<Self as HasState>⟧.state self.new) parsed.now lines result
            × TakesLines (E.taken self.old.err) (E.failures self.old.err) lines (E.taken self.new.err) (E.failures self.new.err) }
        ensures keeps { KeepsWithinParsed (⟦<Self as HasState>⟧.state self.old) (⟦<Self as HasState>⟧.state self.new) parsed.now result }
    {
        let Program {
            files,
            disk,
            out,
            err,
            ..
        } = self;
        match parsed {
            ParsedWords::Job(job) => serve(alloc, job, files, out, err),
            ParsedWords::Save(output_job) => save(alloc, output_job, files, disk, err),
            ParsedWords::Questions(questions) => list_questions(alloc, questions, files, out, err),
            ParsedWords::Explain(explain_job) => explain(alloc, explain_job, files, out, err),
            ParsedWords::Tidy(tidy_job) => self.tidy(alloc, tidy_job),
            ParsedWords::Help(text) => self.write_help(text),
            ParsedWords::Refused(text) => refuse_words(text, err),
        }
    }

    /// Writes the help that was asked for, and returns the exit status.
    fn write_help(&mut self, text: &str) -> u8
        ensures status { (result ≡ 0) ⊎ (result ≡ 5) }
        ensures ends { (lines : List ErrorLine) × HelpEnds text.now (⟦<Self as HasState>⟧.state self.old).outputs (⟦<Self as HasState>⟧.state self.new).outputs lines result
            × TakesLines (E.taken self.old.err) (E.failures self.old.err) lines (E.taken self.new.err) (E.failures self.new.err) }
    {
        match write_output(text.as_bytes(), &mut self.out, &mut self.err) {
            Ok(()) => 0,
            Err(_) => RunError::Failed.status(),
        }
    }
}

/// Reports words that are refused by their message, and returns the exit status.
fn refuse_words<E: Messages>(message: &str, err: &mut E) -> u8
    ensures status { result ≡ 2 }
    ensures reported { TakesLine (E.taken err.old) (E.failures err.old) (refused_line message.now) (E.taken err.new) (E.failures err.new) }
{
    err.write_report(Message::RefusedWords(message));
    2
}
