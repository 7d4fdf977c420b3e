//! The words of `kmin tidy`.
ghost use Rattle.std.specs.Prelude.{◌≡◌, List, ℕ, map, option_map, IfOk};
ghost use Rattle.std.specs.List.{list_all};
ghost use Rattle.std.specs.Borrow.{Bor};
ghost use Rattle.clap.specs.Words.{found_of};
ghost use Rattle.kmin_options.specs.Jobs.{settings_view, tidy_job_view, list_view};
ghost use Rattle.kmin_options.specs.between.OptionValues as options;
ghost use Rattle.kmin_cli.specs.between.WordValues as parsed;
ghost use Rattle.kmin_options.specs.between.Refusals.{Agrees};

use crate::command_line::settings_of;
use clap::ArgMatches;
use kc_value::has_newline;
use kmin_options::{PathList, Refusal, Settings, TidyFlags, TidyJob, is_given, values_of};
use std::alloc::{AllocError, Global};

/// The command `kmin tidy`, with its options, flags and files.
pub(crate) fn tidy_job_of<'a>(
    alloc: Global,
    matches: &ArgMatches<'a>,
) -> Result<TidyJob<'a>, Refusal>
    ensures { Agrees tidy_job_view (parsed.tidy_job_of (found_of matches.now)) result }
{
    let files = one_line_paths(values_of(alloc, matches, "FILE")?)?;
    let list = list_of(matches);
    let settings = settings_beside(alloc, matches, &files, &list)?;
    Ok(TidyJob {
        settings,
        flags: flags_of(matches),
        list,
        files,
    })
}

/// The options of `kmin tidy`, which are refused where standard input is named twice by them, these files and this
/// list.
fn settings_beside<'a>(
    alloc: Global,
    matches: &ArgMatches<'a>,
    files: &[&'a str],
    list: &Option<PathList<'a>>,
) -> Result<Settings<'a>, Refusal>
    ensures { Agrees settings_view (parsed.settings_of (found_of matches.now) (parsed.paths_read (map (λ (path : Bor (List ℕ)). path.now) files.now) (option_map list_view list.now))) result }
{
    let paths = paths_read(alloc, files, list)?;
    settings_of(alloc, matches, &paths)
}

/// Refuses paths of which one has a newline, and else returns them.
#[tactic(auto, using(kmin_options::proofs::Lists::all_map))]
fn one_line_paths(paths: Vec<&str>) -> Result<Vec<&str>, Refusal>
    ensures { Agrees (λ v. map (λ (path : Bor (List ℕ)). path.now) v.items) (parsed.one_line_paths (map (λ (path : Bor (List ℕ)). path.now) paths.entry.items)) result }
{
    if !are_one_line(paths.as_slice()) {
        return Err(Refusal::Words("file: Malformed\n"));
    }
    Ok(paths)
}

/// Whether no path has a newline.
fn are_one_line(paths: &[&str]) -> bool
    ensures { result ≡ list_all (λ (path : Bor (List ℕ)). parsed.is_one_line path.now) paths.now }
{
    paths.iter().all(|path| !has_newline(path.as_bytes()))
}

/// The list of further paths of `--from`, if it is given.
fn list_of<'a>(matches: &ArgMatches<'a>) -> Option<PathList<'a>>
    ensures { option_map list_view result ≡ parsed.list_of (found_of matches.now) }
{
    let path = matches.get_str("from")?;
    Some(PathList {
        path,
        ended_by_nul: is_given(matches, "z"),
    })
}

/// The flags `--write` and `--drop`.
fn flags_of(matches: &ArgMatches<'_>) -> TidyFlags
    ensures { result ≡ parsed.flags_of (found_of matches.now) }
{
    TidyFlags {
        write: is_given(matches, "write"),
        drop: is_given(matches, "drop"),
    }
}

/// All paths that `kmin tidy` reads: the files, and the list, which as `-` is standard input.
fn paths_read<'a>(
    alloc: Global,
    files: &[&'a str],
    list: &Option<PathList<'a>>,
) -> Result<Vec<&'a str>, AllocError>
    ensures { IfOk result (λ v. map (λ (path : Bor (List ℕ)). path.now) v.items ≡ parsed.paths_read (map (λ (path : Bor (List ℕ)). path.now) files.now) (option_map list_view list.now)) }
{
    let mut paths = Vec::from_slice(alloc, files)?;
    if let Some(list) = list {
        paths.push(path_read(list.path))?;
    }
    Ok(paths)
}

/// The path from which a list is read: `/dev/stdin` for `-`.
fn path_read(path: &str) -> &str
    ensures { result.now ≡ parsed.path_read path.now }
{
    if path == "-" { "/dev/stdin" } else { path }
}
