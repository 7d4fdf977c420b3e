//! The form of messages for which the words of a command ask.
ghost use Rattle.std.specs.Prelude.{◌≡◌, OnOk, OnErr, Option, codes};
ghost use Rattle.kc_tokens.specs.declared.language.Language.TheVariants.{Linux};
ghost use Rattle.kc_tokens.specs.declared.language.LinuxVersion.TheVariants.{Unknown};
ghost use Rattle.kmin_texts.specs.Spellings.{AskedForm, as_asked};
ghost use Rattle.kmin_options.specs.Jobs.{settings_view};
ghost use Rattle.kmin_run.specs.Runs.{form_asked, form_of_settings, form_with};

use kc_dotconfig_model::Prefix;
use kc_tokens::{Language, LinuxVersion};
use kmin_cli::ParsedWords;
use kmin_options::{Questions, Settings};
use kmin_texts::{FormMessages, Wording};
use std::alloc::AllocError;

/// Sets the form of messages for which the words ask. On an `Err`, which means out of memory, messages are as before.
pub(crate) fn set_form_for<E: FormMessages>(
    parsed: &ParsedWords<'_>,
    err: &mut E,
) -> Result<(), AllocError>
    ensures set { OnOk result (E.taken err.new ≡ as_asked (form_asked parsed.now) E.known (E.taken err.old)) }
    ensures unset { OnErr result (E.taken err.new ≡ E.taken err.old) }
    ensures failures { E.failures err.new ≡ E.failures err.old }
{
    match parsed {
        ParsedWords::Job(job) => set_form_of(&job.settings, err),
        ParsedWords::Save(output_job) => set_form_of(&output_job.job.settings, err),
        ParsedWords::Questions(questions) => set_form_of_questions(questions, err),
        ParsedWords::Explain(explain_job) => set_form_of(&explain_job.settings, err),
        ParsedWords::Tidy(tidy_job) => set_form_of(&tidy_job.settings, err),
        ParsedWords::Help(_) | ParsedWords::Refused(_) => Ok(()),
    }
}

/// Sets the form of messages that these options name.
fn set_form_of<E: FormMessages>(settings: &Settings<'_>, err: &mut E) -> Result<(), AllocError>
    ensures set { OnOk result (E.taken err.new ≡ as_asked (form_of_settings (settings_view settings.now)) E.known (E.taken err.old)) }
    ensures unset { OnErr result (E.taken err.new ≡ E.taken err.old) }
    ensures failures { E.failures err.new ≡ E.failures err.old }
{
    match settings.messages {
        Some(form) => err.set_form(&Wording {
            form,
            root: settings.root,
            language: settings.language,
            prefix: &settings.format.prefix,
        }),
        None => Ok(()),
    }
}

/// Sets the form of messages that the options of `wants` name.
fn set_form_of_questions<E: FormMessages>(
    questions: &Questions<'_>,
    err: &mut E,
) -> Result<(), AllocError>
    ensures set { OnOk result (E.taken err.new ≡ as_asked (form_with questions.now.messages questions.now.root.now (Linux Unknown) (codes "CONFIG_")) E.known (E.taken err.old)) }
    ensures unset { OnErr result (E.taken err.new ≡ E.taken err.old) }
    ensures failures { E.failures err.new ≡ E.failures err.old }
{
    match questions.messages {
        Some(form) => err.set_form(&Wording {
            form,
            root: questions.root,
            language: Language::Linux(LinuxVersion::Unknown),
            prefix: &Prefix::plain(),
        }),
        None => Ok(()),
    }
}
