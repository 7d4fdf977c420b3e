//! Minimising a configuration file.
ghost use Rattle.std.specs.Prelude.{◌≡◌, ◌≤◌, ◌+◌, List, length, IfOk, IfErr, OnOk};
ghost use Rattle.kc_solver.specs.Solutions.{UniquelySolves};
ghost use Rattle.kc_rules_model.specs.declared.values.UnitValue.{UnitValue as Held};
ghost use Rattle.kc_rules_model.specs.Rule.{rule};
ghost use Rattle.kc_rules.specs.between.SettledViews.{tree_of_settled, profile_of};
ghost use Rattle.kc_dotconfig_model.specs.between.Formats.{file_format};
ghost use Rattle.kc_dotconfig.specs.Fragments.{FitsTree, users_of};
ghost use Rattle.kc_minimal_model.specs.CanonicalText.{IsCanonicalText};
ghost use Rattle.kc_minimal.specs.Minimisation.{IsMinimised, FailsWith};

use crate::texts::minimal_text;
use kc_config::Config;
use kc_dotconfig::{Format, Fragment, LoadFault, Notice, read_config};
use kc_output::{WriteFault, write_out};
use kc_rules::Settled;
use kc_value::{Sink, Source};
use std::alloc::{AllocError, Global};
use thiserror::Error;

/// Why a configuration file isn't minimised.
#[derive(Clone, Copy, Debug, PartialEq, Eq, Error)]
pub enum RunFault {
    /// The configuration file can't be read or isn't accepted, and nothing is written.
    #[error("{0}")]
    Load(LoadFault),
    /// Memory ran out, and nothing is written.
    #[error("OutOfMemory")]
    Memory,
    /// A write failed or took nothing, and the minimal file isn't written whole.
    #[error("{0}")]
    Write(WriteFault),
}

/// The minimal file of the values that a fragment of a configuration gives by itself.
fn minimal_of(
    alloc: Global,
    settled: &Settled,
    format: &Format,
    fragment: &Fragment,
) -> Result<Vec<u8>, AllocError>
    requires fits { FitsTree (tree_of_settled settled.now) fragment.now.assigns.items }
    ensures ok { IfOk result (λ text. (values : List Held) × UniquelySolves (length (tree_of_settled settled.now).units) (rule (profile_of settled.now) (tree_of_settled settled.now)) (users_of (tree_of_settled settled.now) fragment.now.assigns.items) values × IsCanonicalText (file_format format.now) (profile_of settled.now) (tree_of_settled settled.now) values text.items) }
{
    let config = Config::of(alloc, settled, fragment)?;
    minimal_text(alloc, &config, format)
}

/// Reads a configuration file to its end, and writes the minimal file of its values: its canonical form. Returns the notices of
/// its lines. Where the file isn't accepted or memory runs out, nothing is written.
///
/// Two accepted files over one tree give every symbol the same value exactly if their minimal files are equal byte for byte.
/// Reading a minimal file gives the values back, its own minimal file is the same, and without any one of its lines some symbol
/// has another value.
pub fn minimise<R: Source, W: Sink>(
    alloc: Global,
    settled: &Settled,
    format: &Format,
    source: &mut R,
    sink: &mut W,
) -> Result<Vec<Notice>, RunFault>
    ensures minimised { IfOk result (λ notices. IsMinimised (file_format format.now) (profile_of settled.now) (tree_of_settled settled.now) (R.left source.old) (R.left source.new) (W.taken sink.old) (W.taken sink.new) notices.items) }
    ensures unfailed { OnOk result (W.failures sink.new ≡ W.failures sink.old) }
    ensures reads_unfailed { OnOk result (R.failures source.new ≡ R.failures source.old) }
    ensures one_read { R.failures source.new ≤ R.failures source.old + 1 }
    ensures one_write { W.failures sink.new ≤ W.failures sink.old + 1 }
    ensures fault { IfErr result (FailsWith (file_format format.now) (profile_of settled.now) (tree_of_settled settled.now) (R.left source.old) (R.left source.new) (R.failures source.old) (R.failures source.new) (W.taken sink.old) (W.taken sink.new) (W.failures sink.old) (W.failures sink.new)) }
{
    let fragment = match read_config(alloc, settled, format, source, &mut ()) {
        Ok(fragment) => fragment,
        Err(fault) => return Err(RunFault::Load(fault)),
    };
    let text = match minimal_of(alloc, settled, format, &fragment) {
        Ok(text) => text,
        Err(AllocError) => return Err(RunFault::Memory),
    };
    match write_out(sink, &text) {
        Ok(()) => {
            let Fragment { notices, .. } = fragment;
            Ok(notices)
        }
        Err(fault) => Err(RunFault::Write(fault)),
    }
}
