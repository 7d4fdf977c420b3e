//! The commands and their options, declared for `clap`.
ghost use Rattle.std.specs.Prelude.{◌≡◌, true, [], codes, IfOk};
ghost use Rattle.std.specs.List.{fold};
ghost use Rattle.clap.specs.Words.{App, Rule, Shape, app_of, is_simple, with_subcommand};
ghost use Rattle.kmin_commands.specs.Declarations as declared;
ghost use Rattle.kmin_commands.specs.checker.Commands.{IsDeclared, IsReadBy, HasApp, HasDeclaredCommands, IsCommandRequired};

use crate::help_texts::{
    self, CHECK, COMPARE, CommandHelp, EXPLAIN, FULL, MIN, MISSED, TIDY, WANTS,
};
use crate::messages::{self, Row, message_tables};
use clap::{Arg, ArgAction, Command};
use std::alloc::{AllocError, Global};

/// The values of `--format`.
static OUTPUT_FORMS: [&str; 2] = ["plain", "json"];

/// The values of `--messages`.
static MESSAGE_FORMS: [&str; 3] = ["plain", "long", "json"];

/// The values of `--strings`.
static FORMS: [&str; 2] = ["escaped", "raw"];

/// The values of `--imply`.
static PROFILES: [&str; 2] = ["present", "classic"];

/// The values of `--language`, which has no default.
static LANGUAGES: [&str; 4] = ["strict", "linux", "linux-6.1", "linux-6.12"];

/// The words of the options that take one of a few. They are handed down from `program`, since clap's options keep a reference to
/// them, of which a clause can say only that it is the same one.
#[derive(Clone, Copy)]
pub struct Choices<'a> {
    /// Those of `--language`.
    pub languages: &'a [&'a str],
    /// Those of `--strings`.
    pub forms: &'a [&'a str],
    /// Those of `--imply`.
    pub profiles: &'a [&'a str],
    /// Those of `--messages`.
    pub messages: &'a [&'a str],
    /// Those of `--format`.
    pub outputs: &'a [&'a str],
}

/// The program and all its commands, as `clap` needs them.
pub fn program<'a>(alloc: Global) -> Result<Command<'a>, AllocError>
    ensures required { IfOk result IsCommandRequired }
    ensures declared { IfOk result HasDeclaredCommands }
    ensures simple { IfOk result (λ made. is_simple (app_of made) ≡ true) }
{
    let choices = Choices {
        languages: &LANGUAGES,
        forms: &FORMS,
        profiles: &PROFILES,
        messages: &MESSAGE_FORMS,
        outputs: &OUTPUT_FORMS,
    };
    let program = with_writing(alloc, named(alloc)?, &choices)?;
    let program = with_listing(alloc, program, &choices)?;
    let program = program.subcommand(explain(alloc, &choices)?)?;
    let program = program.subcommand(compare(alloc, &choices)?)?;
    with_tidy_and_wants(alloc, program, &choices)
}

/// Adds the commands that write a configuration file.
fn with_writing<'a>(
    alloc: Global,
    program: Command<'a>,
    choices: &Choices<'a>,
) -> Result<Command<'a>, AllocError>
    ensures { IfOk result (λ made. (app : App) → HasApp app program.entry → HasApp (with_subcommand (with_subcommand app (declared.min choices.now)) (declared.full choices.now)) made) }
{
    let program = program.subcommand(min(alloc, choices)?)?;
    program.subcommand(full(alloc, choices)?)
}

/// Adds the commands that list symbols of a configuration.
fn with_listing<'a>(
    alloc: Global,
    program: Command<'a>,
    choices: &Choices<'a>,
) -> Result<Command<'a>, AllocError>
    ensures { IfOk result (λ made. (app : App) → HasApp app program.entry → HasApp (with_subcommand (with_subcommand app (declared.missed choices.now)) (declared.listing (codes "check") choices.now)) made) }
{
    let program = program.subcommand(missed(alloc, choices)?)?;
    program.subcommand(listing(alloc, &CHECK, help_texts::LONG_CHECK, choices)?)
}

/// Adds the command over files, each a configuration of its own, and the one over a tree alone.
fn with_tidy_and_wants<'a>(
    alloc: Global,
    program: Command<'a>,
    choices: &Choices<'a>,
) -> Result<Command<'a>, AllocError>
    ensures { IfOk result (λ made. (app : App) → HasApp app program.entry → HasApp (with_subcommand (with_subcommand app (declared.tidy choices.now)) (declared.wants choices.now)) made) }
{
    let program = program.subcommand(tidy(alloc, choices)?)?;
    program.subcommand(wants(alloc, choices)?)
}

/// The names of all commands, with `help`.
pub fn command_names(alloc: Global) -> Result<Vec<&'static str>, AllocError> {
    let mut names = Vec::new(alloc);
    for help in [
        &MIN, &FULL, &MISSED, &CHECK, &EXPLAIN, &COMPARE, &TIDY, &WANTS,
    ] {
        names.push(help.name)?;
    }
    names.push("help")?;
    Ok(names)
}

/// All names that `help` explains: of commands, and of kinds of messages.
pub fn explained_names(alloc: Global) -> Result<Vec<&'static str>, AllocError> {
    let mut names = command_names(alloc)?;
    for table in message_tables() {
        push_kinds(&mut names, table.rows)?;
    }
    Ok(names)
}

/// Appends the kinds of messages of a table's rows.
fn push_kinds(names: &mut Vec<&'static str>, rows: &'static [Row]) -> Result<(), AllocError> {
    for row in rows {
        names.push(row.kind)?;
    }
    Ok(())
}

/// The program without its commands.
fn named<'a>(alloc: Global) -> Result<Command<'a>, AllocError>
    ensures { IfOk result (HasApp declared.named) }
{
    let program = Command::new(alloc, "kmin")
        .no_binary_name(true)
        .subcommand_required(true);
    helped(program).bin_name("kmin")
}

/// Adds the version, and the help of the program as a whole.
fn helped(program: Command<'_>) -> Command<'_>
    ensures { (app : App) → HasApp app program.entry → HasApp (declared.with_version app) result }
{
    let program = program
        .version(help_texts::VERSION)
        .about(help_texts::ABOUT)
        .override_usage(help_texts::USAGE);
    explained(program)
}

/// Adds the texts after the help of the program as a whole.
fn explained(program: Command<'_>) -> Command<'_>
    ensures { (app : App) → HasApp app program.entry → HasApp app result }
{
    program
        .after_help(messages::AFTER)
        .after_long_help(messages::AFTER_LONG)
}

/// The command that writes a minimal file, with `--output` and `--drop`.
fn min<'a>(alloc: Global, choices: &Choices<'a>) -> Result<Command<'a>, AllocError>
    ensures { IfOk result (IsDeclared (declared.min choices.now)) }
{
    let command = with_options(alloc, &MIN, choices)?;
    let command = command.arg(output(alloc))?;
    let command = command.arg(dropping(alloc, help_texts::DROP_IN_PLACE, "output")?)?;
    command.arg(any_number(alloc, "FILE", help_texts::FILES))
}

/// The command that writes a full file, with `--output`.
fn full<'a>(alloc: Global, choices: &Choices<'a>) -> Result<Command<'a>, AllocError>
    ensures { IfOk result (IsDeclared (declared.full choices.now)) }
{
    let command = with_options(alloc, &FULL, choices)?;
    let command = command.arg(output(alloc))?;
    command.arg(any_number(alloc, "FILE", help_texts::FILES))
}

/// The command that lists the symbols without their assigned value, also with the lines or by their causes.
fn missed<'a>(alloc: Global, choices: &Choices<'a>) -> Result<Command<'a>, AllocError>
    ensures { IfOk result (IsDeclared (declared.missed choices.now)) }
{
    let command = listing(alloc, &MISSED, help_texts::LONG_MISSED, choices)?;
    command.arg(flag(alloc, "by-cause", help_texts::BY_CAUSE))
}

/// A command that lists symbols of a configuration, with `--exit-code`, and with `--long`, whose help is this.
fn listing<'a>(
    alloc: Global,
    help: &CommandHelp,
    long: &'a str,
    choices: &Choices<'a>,
) -> Result<Command<'a>, AllocError>
    ensures { IfOk result (IsDeclared (declared.listing help.now.name.now choices.now)) }
{
    let command = with_options(alloc, help, choices)?;
    let command = command.arg(any_number(alloc, "FILE", help_texts::FILES))?;
    let command = command.arg(flag(alloc, "exit-code", help_texts::EXIT_CODE))?;
    let command = command.arg(flag(alloc, "long", long))?;
    command.arg(output_form(alloc, choices))
}

/// An argument of any number of words.
fn any_number<'a>(alloc: Global, name: &'a str, help: &'a str) -> Arg<'a>
    ensures { IsReadBy (declared.any_number name.entry.now) result }
{
    Arg::new(alloc, name)
        .action(ArgAction::Append)
        .num_args(0..)
        .help(help)
}

/// The command that says why symbols have their values: of names, or with `--every` of each symbol.
fn explain<'a>(alloc: Global, choices: &Choices<'a>) -> Result<Command<'a>, AllocError>
    ensures { IfOk result (IsDeclared (declared.explain choices.now)) }
{
    let command = with_explain_flags(alloc, with_options(alloc, &EXPLAIN, choices)?)?;
    let command = command.arg(output_form(alloc, choices))?;
    let command = command.arg(named_symbols(alloc)?)?;
    command.arg(any_number(alloc, "FILE", help_texts::FILES))
}

/// The names of `explain`, which are required unless each symbol is asked for.
fn named_symbols<'a>(alloc: Global) -> Result<Arg<'a>, AllocError>
    ensures { IfOk result (IsReadBy (declared.linked (declared.one_word (codes "NAME")))) }
{
    let names = Arg::new(alloc, "NAME").help(help_texts::NAMES);
    names.required_unless_present("every")
}

/// Adds `--every`, `--deep`, `--all` and `--exit-code` to a command.
fn with_explain_flags<'a>(alloc: Global, command: Command<'a>) -> Result<Command<'a>, AllocError>
    ensures { IfOk result (λ made. (shape : Shape) → IsDeclared shape command.entry → IsDeclared (fold declared.added shape declared.explain_flags) made) }
{
    let command = command.arg(flag(alloc, "every", help_texts::EVERY))?;
    let command = command.arg(flag(alloc, "deep", help_texts::DEEP))?;
    let command = command.arg(flag(alloc, "all", help_texts::ALL))?;
    command.arg(flag(alloc, "exit-code", help_texts::EXIT_CODE_OF_LINES))
}

/// The command over two files, both of which are required.
fn compare<'a>(alloc: Global, choices: &Choices<'a>) -> Result<Command<'a>, AllocError>
    ensures { IfOk result (IsDeclared (declared.compare choices.now)) }
{
    let command = with_options(alloc, &COMPARE, choices)?;
    let command = command.arg(output_form(alloc, choices))?;
    let command = command.arg(required(alloc, "LEFT", help_texts::LEFT))?;
    command.arg(required(alloc, "RIGHT", help_texts::RIGHT))
}

/// The command over files, each a configuration of its own, of which at least one, or a list, is required.
fn tidy<'a>(alloc: Global, choices: &Choices<'a>) -> Result<Command<'a>, AllocError>
    ensures { IfOk result (IsDeclared (declared.tidy choices.now)) }
{
    let command = with_tidy_flags(alloc, with_options(alloc, &TIDY, choices)?)?;
    let command = command.arg(output_form(alloc, choices))?;
    let from = valued(alloc, "from", "LIST", help_texts::FROM);
    let command = command.arg(from)?;
    let command = command.arg(nul(alloc)?)?;
    command.arg(each_file(alloc)?)
}

/// The files of `tidy`, of which one is required unless a list is given.
fn each_file<'a>(alloc: Global) -> Result<Arg<'a>, AllocError>
    ensures { IfOk result (IsReadBy (declared.linked (declared.any_number (codes "FILE")))) }
{
    let files = any_number(alloc, "FILE", help_texts::EACH_FILE);
    files.required_unless_present("from")
}

/// The option for the end of each path of a list.
fn nul<'a>(alloc: Global) -> Result<Arg<'a>, AllocError>
    ensures { IfOk result (IsReadBy (declared.linked declared.nul)) }
{
    let nul = Arg::new(alloc, "z").short('z').action(ArgAction::SetTrue);
    nul.help(help_texts::NUL).requires_arg("from")
}

/// Adds `--write` and `--drop` to a command.
fn with_tidy_flags<'a>(alloc: Global, command: Command<'a>) -> Result<Command<'a>, AllocError>
    ensures { IfOk result (λ made. (shape : Shape) → IsDeclared shape command.entry → IsDeclared (fold declared.added shape declared.tidy_flags) made) }
{
    let command = command.arg(flag(alloc, "write", help_texts::WRITE))?;
    command.arg(dropping(alloc, help_texts::DROP, "write")?)
}

/// The option to leave lines out, with its help, which goes with the option `beside` and not with `--strict`.
fn dropping<'a>(alloc: Global, help: &'a str, beside: &'a str) -> Result<Arg<'a>, AllocError>
    ensures { IfOk result (IsReadBy (declared.linked (declared.flag (codes "drop")))) }
{
    let dropping = flag(alloc, "drop", help).requires_arg(beside)?;
    dropping.conflicts_with("strict")
}

/// An argument of one word that can't be left out.
fn required<'a>(alloc: Global, name: &'a str, help: &'a str) -> Arg<'a>
    ensures { IsReadBy (declared.required name.entry.now) result }
{
    Arg::new(alloc, name).required(true).help(help)
}

/// The command over a tree without configuration files, with `--unused`.
fn wants<'a>(alloc: Global, choices: &Choices<'a>) -> Result<Command<'a>, AllocError>
    ensures { IfOk result (IsDeclared (declared.wants choices.now)) }
{
    let command = with_place(alloc, described(alloc, &WANTS))?;
    let command = with_answers(alloc, command)?;
    let command = command.arg(message_form(alloc, choices))?;
    command.arg(flag(alloc, "unused", help_texts::UNUSED))
}

/// A command with its help and the options that all commands over configuration files share.
fn with_options<'a>(
    alloc: Global,
    help: &CommandHelp,
    choices: &Choices<'a>,
) -> Result<Command<'a>, AllocError>
    ensures { IfOk result (IsDeclared (declared.command help.now.name.now (declared.shared choices.now))) }
{
    let command = with_place(alloc, described(alloc, help))?;
    let command = command.arg(language(alloc, choices))?;
    let command = command.arg(option(alloc, "prefix", "TEXT", "CONFIG_", help_texts::PREFIX))?;
    let command = command.arg(flag(alloc, "no-prefix", help_texts::NO_PREFIX))?;
    let command = command.arg(strings(alloc, choices))?;
    let command = command.arg(imply(alloc, choices))?;
    let command = command.arg(flag(alloc, "strict", help_texts::STRICT))?;
    let command = with_answers(alloc, command)?;
    command.arg(message_form(alloc, choices))
}

/// Adds the options for the place of the tree to a command.
fn with_place<'a>(alloc: Global, command: Command<'a>) -> Result<Command<'a>, AllocError>
    ensures { IfOk result (λ made. (shape : Shape) → IsDeclared shape command.entry → IsDeclared (fold declared.added shape declared.place) made) }
{
    let command = command.arg(option(alloc, "root", "DIR", ".", help_texts::ROOT))?;
    command.arg(option(alloc, "tree", "PATH", "Kconfig", help_texts::TREE))
}

/// Adds the options that turn the expansion of macros on to a command.
fn with_answers<'a>(alloc: Global, command: Command<'a>) -> Result<Command<'a>, AllocError>
    ensures { IfOk result (λ made. (shape : Shape) → IsDeclared shape command.entry → IsDeclared (fold declared.added shape declared.answers) made) }
{
    let command = command.arg(flag(alloc, "expand", help_texts::EXPAND))?;
    let command = command.arg(repeated(alloc, "answers", "FILE", help_texts::ANSWERS))?;
    let command = command.arg(repeated(alloc, "define", "NAME=VALUE", help_texts::DEFINE))?;
    command.arg(repeated(alloc, "env", "NAME", help_texts::ENV))
}

/// An option without a value.
fn flag<'a>(alloc: Global, name: &'a str, help: &'a str) -> Arg<'a>
    ensures { IsReadBy (declared.flag name.entry.now) result }
{
    Arg::new(alloc, name)
        .long(name)
        .action(ArgAction::SetTrue)
        .help(help)
}

/// An option with a value and no default.
fn valued<'a>(alloc: Global, name: &'a str, value: &'a str, help: &'a str) -> Arg<'a>
    ensures { IsReadBy (declared.valued name.entry.now) result }
{
    Arg::new(alloc, name)
        .long(name)
        .value_name(value)
        .help(help)
}

/// The option for the output file.
fn output<'a>(alloc: Global) -> Arg<'a>
    ensures { IsReadBy declared.output result }
{
    valued(alloc, "output", "FILE", help_texts::OUTPUT)
        .short('o')
        .long_help(help_texts::OUTPUT_LONG)
}

/// An option that may be given again.
fn repeated<'a>(alloc: Global, name: &'a str, value: &'a str, help: &'a str) -> Arg<'a>
    ensures { IsReadBy (declared.repeated name.entry.now) result }
{
    valued(alloc, name, value, help).action(ArgAction::Append)
}

/// The option for the language of the tree.
fn language<'a>(alloc: Global, choices: &Choices<'a>) -> Arg<'a>
    ensures { IsReadBy (declared.one_of (declared.valued (codes "language")) choices.now.languages) result }
{
    let language = valued(alloc, "language", "LANGUAGE", help_texts::LANGUAGE);
    one_of(language, help_texts::LANGUAGE_LONG, choices.languages)
}

/// An option whose value is one of these, with the long text that explains them.
fn one_of<'a>(option: Arg<'a>, long_help: &'a str, values: &'a [&'a str]) -> Arg<'a>
    ensures { (rule : Rule) → IsReadBy rule option.entry → IsReadBy (declared.one_of rule values.entry) result }
{
    option.long_help(long_help).value_parser(values)
}

/// The option for the form of strings.
fn strings<'a>(alloc: Global, choices: &Choices<'a>) -> Arg<'a>
    ensures { IsReadBy (declared.one_of (declared.option (codes "strings") (codes "escaped")) choices.now.forms) result }
{
    let strings = option(alloc, "strings", "FORM", "escaped", help_texts::STRINGS);
    one_of(strings, help_texts::STRINGS_LONG, choices.forms)
}

/// The option for the profile.
fn imply<'a>(alloc: Global, choices: &Choices<'a>) -> Arg<'a>
    ensures { IsReadBy (declared.one_of (declared.option (codes "imply") (codes "present")) choices.now.profiles) result }
{
    let imply = option(alloc, "imply", "PROFILE", "present", help_texts::IMPLY);
    one_of(imply, help_texts::IMPLY_LONG, choices.profiles)
}

/// The option for the form of messages.
fn message_form<'a>(alloc: Global, choices: &Choices<'a>) -> Arg<'a>
    ensures { IsReadBy (declared.message_form choices.now) result }
{
    let messages = option(alloc, "messages", "FORM", "plain", help_texts::MESSAGES);
    one_of(messages, help_texts::MESSAGES_LONG, choices.messages)
}

/// The option for the form of what is listed.
fn output_form<'a>(alloc: Global, choices: &Choices<'a>) -> Arg<'a>
    ensures { IsReadBy (declared.output_form choices.now) result }
{
    let format = option(alloc, "format", "FORM", "plain", help_texts::FORMAT);
    one_of(format, help_texts::FORMAT_LONG, choices.outputs)
}

/// A command with its help and no options.
fn described<'a>(alloc: Global, help: &CommandHelp) -> Command<'a>
    ensures { IsDeclared (declared.command help.now.name.now []) result }
{
    Command::new(alloc, help.name)
        .about(help.about)
        .long_about(help.long)
        .after_help(help.after)
}

/// An option with a value and a default.
fn option<'a>(
    alloc: Global,
    name: &'a str,
    value: &'a str,
    default: &'a str,
    help: &'a str,
) -> Arg<'a>
    ensures { IsReadBy (declared.option name.entry.now default.entry.now) result }
{
    valued(alloc, name, value, help).default_value(default)
}
