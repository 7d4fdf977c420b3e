//! A run over files, one after another.
ghost use Rattle.std.specs.Prelude.{ℕ, List, IfOk, IfErr};
ghost use Rattle.kmin_tidy.specs.Options.{settings_of};
ghost use Rattle.kmin_tidy.specs.Runs.{Tidies, paths_of};
ghost use Rattle.kmin_report.specs.StandardError.{TakesLines};
ghost use Rattle.kmin_report.specs.Reports.{ErrorLine};
ghost use Rattle.kmin_tidy.specs.checker.FileResults.{StopsRun};

use crate::file_step::tidy_file;
use crate::options::Tidier;
use crate::report::report_file;
use crate::stop::TidyStop;
use kc_config::Config;
use kc_rules::Settled;
use kmin_disk::WriteDisk;
use kmin_report::Messages;

/// The text for standard output of a run over all its files, and its exit status.
#[derive(Drop)]
pub(crate) struct RunResult {
    pub(crate) text: Vec<u8>,
    pub(crate) status: u8,
}

/// Tidies the files at `paths` one after another. The report of each is written to `err` before the next file is read.
pub(crate) fn tidy_all<D: WriteDisk, E: Messages>(
    by: &Tidier<'_>,
    settled: &Settled,
    paths: &[&str],
    disk: &mut D,
    err: &mut E,
) -> Result<RunResult, TidyStop>
    ensures run { IfOk result (λ tidied. (reports : List ErrorLine) × Tidies (settings_of settled.now by.now.format.now by.now.options)
        (D.disk disk.old) (D.disk disk.new)
        (paths_of paths.now) tidied.text.items reports tidied.status × TakesLines (E.taken err.old) (E.failures err.old) reports (E.taken err.new)
        (E.failures err.new)) }
    ensures stopped { IfErr result (λ stop. (reports : List ErrorLine) × StopsRun (settings_of settled.now by.now.format.now by.now.options)
        (D.disk disk.old) (D.disk disk.new) (paths_of paths.now) reports stop
        × TakesLines (E.taken err.old) (E.failures err.old) reports (E.taken err.new) (E.failures err.new)) }
{
    let mut config = Config::new(by.alloc, settled)?;
    tidy_each(by, &mut config, paths, disk, err)
}

/// Tidies files one after another by one configuration, which takes the values of each file in turn.
fn tidy_each<D: WriteDisk, E: Messages>(
    by: &Tidier<'_>,
    config: &mut Config<'_>,
    paths: &[&str],
    disk: &mut D,
    err: &mut E,
) -> Result<RunResult, TidyStop>
    ensures run { IfOk result (λ tidied. (reports : List ErrorLine) × Tidies (settings_of config.old.system by.now.format.now by.now.options)
        (D.disk disk.old) (D.disk disk.new)
        (paths_of paths.now) tidied.text.items reports tidied.status × TakesLines (E.taken err.old) (E.failures err.old) reports (E.taken err.new)
        (E.failures err.new)) }
    ensures stopped { IfErr result (λ stop. (reports : List ErrorLine) × StopsRun (settings_of config.old.system by.now.format.now by.now.options)
        (D.disk disk.old) (D.disk disk.new) (paths_of paths.now) reports stop
        × TakesLines (E.taken err.old) (E.failures err.old) reports (E.taken err.new) (E.failures err.new)) }
{
    let mut text = Vec::new(by.alloc);
    let mut status = 0;
    for path in paths {
        let report = tidy_file(by, config, path, disk, &mut text)?;
        report_file(path, &report, config.settled().tree(), err);
        status = report.outcome.status_after(status);
    }
    Ok(RunResult { text, status })
}
