//! Standard error, where the form of its lines can be set.
ghost use Rattle.std.specs.Prelude.{◌≡◌, OnOk, OnErr};
ghost use Rattle.kmin_texts.specs.KnownLines.{KnownLines};
ghost use Rattle.kmin_texts.specs.Spellings.{in_form};
ghost use Rattle.kmin_texts.specs.between.Wordings.{asked_by};

use kc_dotconfig_model::Prefix;
use kc_tokens::Language;
use kmin_messages::Form;
use kmin_report::Messages;
use std::alloc::AllocError;

/// The form of lines, and what their texts are read by: the folder of the tree, which comes before the paths of its files, the language
/// of the tree, and the prefix of names in configuration files.
#[derive(Clone, Copy)]
pub struct Wording<'a> {
    pub form: Form,
    pub root: &'a str,
    pub language: Language,
    pub prefix: &'a Prefix,
}

/// Standard error whose lines can have another form.
pub trait FormMessages: Messages {
    /// What is known of the files that lines are about, at any time.
    ghost known: { KnownLines };

    /// Spells the next lines in the form of this wording. On an `Err`, which means out of memory, lines are spelled as before.
    fn set_form(&mut self, wording: &Wording<'_>) -> Result<(), AllocError>
        ensures set { OnOk result (Self.taken self.new ≡ in_form (asked_by wording.now) known (Self.taken self.old)) }
        ensures unset { OnErr result (Self.taken self.new ≡ Self.taken self.old) }
        ensures failures { Self.failures self.new ≡ Self.failures self.old };
}
