//! The options that turn the expansion of macros on.
ghost use Rattle.std.specs.Prelude.{◌≡◌, ◌+◌, nat_lt, codes, map, List, ℕ, IfOk, option_map};
ghost use Rattle.std.specs.List.{list_all, filter_map};
ghost use Rattle.std.specs.Borrow.{Bor};
ghost use Rattle.clap.specs.Words.{found_of};
ghost use Rattle.kc_macros_model.specs.Variables.{is_environment_name};
ghost use Rattle.kmin_options.specs.Jobs.{definition_view, expansion_view};
ghost use Rattle.kmin_options.specs.between.OptionValues as parsed;
ghost use Rattle.kmin_options.specs.between.Refusals.{Agrees};

use crate::job::{Definition, ExpansionOptions};
use crate::refusal::Refusal;
use crate::values::{has_values, is_given, value_of, values_of};
use clap::ArgMatches;
use kc_dotconfig_model::trimmed;
use kc_macros_model::is_environment_name;
use kc_value::{MAX_VARIABLE_BYTES, has_newline};
use std::alloc::{AllocError, Global};

/// The definition of a name by a value, whose white bytes at the end are dropped. `None` for a name that no environment
/// may have, and for a value with a newline or more than `MAX_VARIABLE_BYTES` bytes.
fn named_value<'a>(name: &'a str, value: &'a str) -> Option<Definition<'a>>
    ensures { option_map definition_view result ≡ parsed.named_value name.now value.now }
{
    if !is_environment_name(name.as_bytes())
        || value.len() > MAX_VARIABLE_BYTES
        || has_newline(value.as_bytes())
    {
        return None;
    }
    Some(Definition {
        name,
        value: trimmed(value),
    })
}

/// The definition of a text `NAME=VALUE`, cut at its first `=`.
fn definition_of(text: &str) -> Option<Definition<'_>>
    ensures { option_map definition_view result ≡ parsed.definition_of text.now }
{
    let (name, value) = text.split_once('=')?;
    named_value(name, value)
}

/// Whether each text is a definition `NAME=VALUE`.
fn are_definitions(texts: &[&str]) -> bool
    ensures { result ≡ list_all (λ (text : Bor (List ℕ)). parsed.is_definition text.now) texts.now }
{
    texts.iter().all(|text| definition_of(text).is_some())
}

/// The definitions among texts, in their order.
fn definitions_among<'a>(
    alloc: Global,
    texts: &[&'a str],
) -> Result<Vec<Definition<'a>>, AllocError>
    ensures { IfOk result (λ v. map definition_view v.items ≡ filter_map parsed.definition_of (map (λ (text : Bor (List ℕ)). text.now) texts.now)) }
{
    let mut found = Vec::new(alloc);
    for text in texts {
        if let Some(definition) = definition_of(text) {
            found.push(definition)?;
        }
    }
    Ok(found)
}

/// The definitions of the values of `--define`. Refuses values of which one is no definition.
#[tactic(auto, using(crate::proofs::Lists::all_map))]
fn definitions_of<'a>(alloc: Global, texts: &[&'a str]) -> Result<Vec<Definition<'a>>, Refusal>
    ensures { Agrees (λ v. map definition_view v.items) (parsed.definitions_of (map (λ (text : Bor (List ℕ)). text.now) texts.now)) result }
{
    if !are_definitions(texts) {
        return Err(Refusal::Words("define: Malformed\n"));
    }
    Ok(definitions_among(alloc, texts)?)
}

/// Whether an environment may have each of these names.
fn are_environment_names(names: &[&str]) -> bool
    ensures { result ≡ list_all (λ (name : Bor (List ℕ)). is_environment_name name.now) names.now }
{
    names
        .iter()
        .all(|name| is_environment_name(name.as_bytes()))
}

/// Refuses names of which one is none that an environment may have, and else returns them.
#[tactic(auto, using(crate::proofs::Lists::all_map))]
fn environment_of(names: Vec<&str>) -> Result<Vec<&str>, Refusal>
    ensures { Agrees (λ v. map (λ (name : Bor (List ℕ)). name.now) v.items) (parsed.environment_of (map (λ (name : Bor (List ℕ)). name.now) names.entry.items)) result }
{
    if !are_environment_names(names.as_slice()) {
        return Err(Refusal::Words("env: Malformed\n"));
    }
    Ok(names)
}

/// Refuses the path of a tree's first file if it has a newline.
fn check_tree(path: &str) -> Result<(), Refusal>
    ensures { Agrees (λ _. path.now) (parsed.expanded_tree_of path.now) result }
{
    if has_newline(path.as_bytes()) {
        return Err(Refusal::Words("tree: Malformed\n"));
    }
    Ok(())
}

/// How many of the paths are `/dev/stdin`.
fn inputs_among(paths: &[&str]) -> usize
    ensures { result ≡ parsed.inputs_among (map (λ (path : Bor (List ℕ)). path.now) paths.now) }
{
    let mut count = 0;
    for path in paths {
        if *path == "/dev/stdin" {
            count += 1;
        }
    }
    count
}

/// Whether standard input is named twice among answer files and configuration files.
fn is_input_named_twice(answers: &[&str], paths: &[&str]) -> bool
    ensures { result ≡ nat_lt 1 (parsed.inputs_among (map (λ (path : Bor (List ℕ)). path.now) answers.now) + parsed.inputs_among (map (λ (path : Bor (List ℕ)). path.now) paths.now)) }
{
    match inputs_among(answers) {
        0 => inputs_among(paths) > 1,
        1 => inputs_among(paths) > 0,
        _ => true,
    }
}

/// The message with which `-` is refused as a file that is read.
const UNREAD_DASH: &str = "error: '-' isn't read as a file

  tip: /dev/stdin is standard input, ./- a file of that name
";

/// Whether a path isn't `-`.
fn names_file(path: &str) -> bool
    ensures { result ≡ parsed.names_file path.now }
{
    path != "-"
}

/// Whether no path is `-`.
fn are_files(paths: &[&str]) -> bool
    ensures { result ≡ list_all (λ (path : Bor (List ℕ)). parsed.names_file path.now) paths.now }
{
    paths.iter().all(|path| names_file(path))
}

/// Whether neither a value of `--answers` nor one of these configuration files is `-`.
#[tactic(auto, using(crate::proofs::Lists::all_map))]
fn name_files(matches: &ArgMatches<'_>, paths: &[&str]) -> bool
    ensures { result ≡ parsed.name_files (parsed.values_of (found_of matches.now) (codes "answers")) (map (λ (path : Bor (List ℕ)). path.now) paths.now) }
{
    match matches.get_strs("answers") {
        Some(answers) => are_files(answers) && are_files(paths),
        None => are_files(paths),
    }
}

/// Refuses `-` among the answer files and these configuration files; and standard input that is named twice among them, since
/// the second reading would find no bytes. Paths are compared as texts.
pub fn check_inputs(matches: &ArgMatches<'_>, paths: &[&str]) -> Result<(), Refusal>
    ensures { Agrees (λ _. map (λ (path : Bor (List ℕ)). path.now) paths.now) (parsed.paths_beside (parsed.values_of (found_of matches.now) (codes "answers")) (map (λ (path : Bor (List ℕ)). path.now) paths.now)) result }
{
    if !name_files(matches, paths) {
        return Err(Refusal::Words(UNREAD_DASH));
    }
    if is_input_found_twice(matches, paths) {
        return Err(Refusal::Words("stdin: NamedTwice\n"));
    }
    Ok(())
}

/// Whether standard input is named twice among the values of `--answers` and these configuration files.
fn is_input_found_twice(matches: &ArgMatches<'_>, paths: &[&str]) -> bool
    ensures { result ≡ nat_lt 1 (parsed.inputs_among (parsed.values_of (found_of matches.now) (codes "answers")) + parsed.inputs_among (map (λ (path : Bor (List ℕ)). path.now) paths.now)) }
{
    match matches.get_strs("answers") {
        Some(answers) => is_input_named_twice(answers, paths),
        None => is_input_named_twice(&[], paths),
    }
}

/// The values of `--answers`, `--define` and `--env`. Also refuses a value of `--tree` with a newline.
pub fn expansion_of<'a>(
    alloc: Global,
    matches: &ArgMatches<'a>,
) -> Result<ExpansionOptions<'a>, Refusal>
    ensures { Agrees expansion_view (parsed.expansion_of (found_of matches.now)) result }
{
    let texts = values_of(alloc, matches, "define")?;
    let definitions = definitions_of(alloc, texts.as_slice())?;
    let environment = environment_of(values_of(alloc, matches, "env")?)?;
    check_tree(value_of(matches, "tree"))?;
    Ok(ExpansionOptions {
        answers: values_of(alloc, matches, "answers")?,
        definitions,
        environment,
    })
}

/// Whether an option is given that turns the expansion of macros on.
fn is_expanded(matches: &ArgMatches<'_>) -> bool
    ensures { result ≡ parsed.is_expanded (found_of matches.now) }
{
    is_given(matches, "expand")
        || has_values(matches, "answers")
        || has_values(matches, "define")
        || has_values(matches, "env")
}

/// The values of `--answers`, `--define` and `--env`, if an option turns the expansion of macros on.
pub fn expansion_if_given<'a>(
    alloc: Global,
    matches: &ArgMatches<'a>,
) -> Result<Option<ExpansionOptions<'a>>, Refusal>
    ensures { Agrees (option_map expansion_view) (parsed.expansion_if_given (found_of matches.now)) result }
{
    if !is_expanded(matches) {
        return Ok(None);
    }
    Ok(Some(expansion_of(alloc, matches)?))
}
