//! Outcomes of files, and the status of a run.
ghost use Rattle.std.specs.Prelude.{◌≡◌};

/// The outcome of a file in a run.
#[derive(Clone, Copy, Debug, PartialEq, Eq)]
pub enum FileOutcome {
    /// The file is minimal now.
    Minimal,
    /// The file isn't minimal, and files aren't replaced.
    NotMinimal,
    /// The file isn't accepted as a configuration file, or is refused for its notices.
    Refused,
    /// The file couldn't be read or replaced, or its folder couldn't be synced after it.
    Failed,
}

impl FileOutcome {
    ghost use Rattle.kmin_tidy.specs.checker.Statuses as statuses;

    /// The exit status after a file with this outcome, where the files before it gave `status`.
    #[tactic(auto, using(crate::proofs::StatusLemmas::high_status, crate::proofs::StatusLemmas::low_status))]
    pub(crate) fn status_after(self, status: u8) -> u8
        ensures { result ≡ statuses.status_after status self }
    {
        if status >= 4 {
            return status;
        }
        match self {
            FileOutcome::Minimal => status,
            FileOutcome::NotMinimal => status.max(1),
            FileOutcome::Refused => 4,
            FileOutcome::Failed => 5,
        }
    }
}
