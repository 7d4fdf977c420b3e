//! The commands of `kmin`, with their options and files.
use kc_dotconfig_model::Format;
use kc_rules_model::Profile;
use kc_tokens::Language;
use kmin_messages::Form;
use kmin_records::OutputForm;

/// The commands that write a text about one configuration.
#[derive(Clone, Copy, Debug, PartialEq, Eq)]
pub enum Verb {
    /// `min`: writes the minimal file, with a line for each symbol or choice that would have another value without that line.
    Min,
    /// `full`: writes the full file: the symbols that are visible, selected, implied or have a default.
    Full,
    /// `missed`: lists the names of the symbols that don't have the value that a configuration file assigns.
    Missed {
        /// `--exit-code`: whether the exit status is 1 where a symbol is listed.
        exit_code: bool,
    },
    /// `check`: lists the names of the symbols that are selected against their dependencies.
    Check {
        /// `--exit-code`: whether the exit status is 1 where a symbol is listed.
        exit_code: bool,
    },
}

/// A definition of the command line: one `--define NAME=VALUE`.
#[derive(Clone, Copy)]
pub struct Definition<'a> {
    pub name: &'a str,
    pub value: &'a str,
}

/// Where the questions of a tree's macros are answered: by `--answers`, `--define` and `--env`.
#[derive(Drop)]
pub struct ExpansionOptions<'a> {
    /// The paths of the answer files, in the order of the command line.
    pub answers: Vec<&'a str>,
    /// The definitions of `--define`, in order. The last one of a name counts, and has precedence over all answer files.
    pub definitions: Vec<Definition<'a>>,
    /// The names that the environment may answer, where neither a definition nor an answer file does.
    pub environment: Vec<&'a str>,
}

/// The options that all commands over configuration files share.
#[derive(Drop)]
pub struct Settings<'a> {
    /// The folder to which the paths of the tree are relative.
    pub root: &'a str,
    /// The path of the tree's first Kconfig file, relative to `root`.
    pub tree: &'a str,
    /// The language of the Kconfig files.
    pub language: Language,
    /// The prefix of names and the form of strings in configuration files.
    pub format: Format,
    /// How `imply` acts.
    pub profile: Profile,
    /// Whether a configuration file with a notice is refused.
    pub strict: bool,
    /// Where the questions of the tree's macros are answered; `None` where no macro is expanded.
    pub expansion: Option<ExpansionOptions<'a>>,
    /// The form of messages; `None` for plain ones.
    pub messages: Option<Form>,
    /// The form of what is listed on standard output; plain for a command that writes a configuration file.
    pub output_form: OutputForm,
}

/// A command with its configuration files.
#[derive(Drop)]
pub enum Task<'a> {
    /// `min`, `full`, `missed` or `check` of one configuration, in which each file overrides those before it.
    Over { verb: Verb, files: Vec<&'a str> },
    /// `compare`: the symbols whose values differ between two configurations of one file each.
    Compare { left: &'a str, right: &'a str },
}

/// A command over configuration files, with its options.
#[derive(Drop)]
pub struct Job<'a> {
    pub settings: Settings<'a>,
    pub task: Task<'a>,
}

/// A command over configuration files whose output goes to the file of `--output`.
#[derive(Drop)]
pub struct OutputJob<'a> {
    pub job: Job<'a>,
    /// The path of the output file.
    pub output: &'a str,
}

/// The flags of `kmin tidy`.
#[derive(Clone, Copy, Debug, PartialEq, Eq)]
pub struct TidyFlags {
    /// `--write`: whether a file that isn't minimal is replaced by its minimal file.
    pub write: bool,
    /// `--drop`: whether a file with notices is replaced too, without the lines that have them.
    pub drop: bool,
}

/// The list of further paths of `kmin tidy --from LIST`.
#[derive(Clone, Copy)]
pub struct PathList<'a> {
    /// The path of the list; `-` is standard input.
    pub path: &'a str,
    /// `-z`: whether each path in the list ends with the byte 0 in place of a newline.
    pub ended_by_nul: bool,
}

/// The command `kmin tidy`, with its options, flags and files.
#[derive(Drop)]
pub struct TidyJob<'a> {
    pub settings: Settings<'a>,
    pub flags: TidyFlags,
    /// The list of further paths, which come after `files`.
    pub list: Option<PathList<'a>>,
    pub files: Vec<&'a str>,
}

/// The flags of `kmin explain`.
#[derive(Clone, Copy, Debug, PartialEq, Eq)]
pub struct ExplainFlags {
    /// `--deep`: whether it goes on with the symbols that keep those explained too low.
    pub deep: bool,
    /// `--all`: whether each select and imply is listed, also those that don't decide.
    pub all: bool,
    /// `--exit-code`: whether the exit status is 1 where a line for an explained symbol isn't taken.
    pub exit_code: bool,
}

/// The forms in which `missed` says why symbols don't have their assigned values.
#[derive(Clone, Copy, Debug, PartialEq, Eq)]
pub enum MissedForm {
    /// `--long`: a line for each symbol.
    Lines,
    /// `--by-cause`: the symbols below what keeps them.
    Causes,
}

/// What is asked of reasons.
#[derive(Clone, Copy)]
pub enum Question<'a> {
    /// `explain`: why symbols have their values.
    Explain {
        flags: ExplainFlags,
        /// The names of symbols, with commas between them; `None` with `--every`.
        names: Option<&'a str>,
    },
    /// `missed --long` and `missed --by-cause`: why symbols don't have their assigned values.
    Missed {
        form: MissedForm,
        /// `--exit-code`: whether the exit status is 1 where a symbol is missed.
        exit_code: bool,
    },
    /// `check --long`: what selects symbols against their dependencies, and which these are.
    Check {
        /// `--exit-code`: whether the exit status is 1 where there is such a symbol.
        exit_code: bool,
    },
}

/// A command that gives reasons, `kmin explain`, `kmin missed --long` or `--by-cause`, or `kmin check --long`, with its options and
/// files.
#[derive(Drop)]
pub struct ExplainJob<'a> {
    pub settings: Settings<'a>,
    pub question: Question<'a>,
    pub files: Vec<&'a str>,
}

/// The command `kmin wants`, which lists the open questions of a tree's macros, or the answers that they don't use.
#[derive(Drop)]
pub struct Questions<'a> {
    /// The folder to which the paths of the tree are relative.
    pub root: &'a str,
    /// The path of the tree's first Kconfig file, relative to `root`.
    pub tree: &'a str,
    /// Where the questions of the tree's macros are answered; those without an answer are open.
    pub expansion: ExpansionOptions<'a>,
    /// `--unused`: whether the questions of the answer files that the tree doesn't ask are listed where none is open.
    pub unused: bool,
    /// The form of messages; `None` for plain ones.
    pub messages: Option<Form>,
}
