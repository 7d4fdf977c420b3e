//! Reading a configuration file, and keeping its bytes.
ghost use Rattle.std.specs.Prelude.{◌≡◌, ◌⊎◌, Some, IfOk, IfErr, OnOk};
ghost use Rattle.kc_rules.specs.between.SettledViews.{tree_of_settled};
ghost use Rattle.kc_dotconfig_model.specs.between.Formats.{file_format};
ghost use Rattle.kc_value.specs.FileContents.{FileContent, OpensAs};
ghost use Rattle.kmin_disk.specs.Contents.{readable};
ghost use Rattle.kmin_disk.specs.Disks.{FailsOnce, MayFailOnce, content_at};
ghost use Rattle.kc_value.specs.Streams.{one_failure_more};
ghost use Rattle.kmin_tidy.specs.checker.Readings.{IsAcceptedAs, IsFaulty};

use kc_dotconfig::{Format, Fragment, LoadFault, LoadKind, read_config};
use kc_rules::Settled;
use kc_value::{MAX_CONFIG_BYTES, Source};
use kmin_disk::ReadDisk;
use std::alloc::Global;

/// The bytes of an accepted configuration file, with their assignments and notices.
#[derive(Drop)]
pub struct AcceptedFile {
    pub bytes: Vec<u8>,
    pub fragment: Fragment,
}

/// Reads the configuration file of a path.
///
/// # Errors
///
/// The first fault of the file. It is `Read` at line 0 where the file can't be opened. A `Read` is counted at the disk.
pub(crate) fn read_file<D: ReadDisk>(
    alloc: Global,
    settled: &Settled,
    format: &Format,
    path: &str,
    disk: &mut D,
) -> Result<AcceptedFile, LoadFault>
    ensures ok { IfOk result (IsAcceptedAs (file_format format.now) (tree_of_settled settled.now) (readable (content_at (D.disk disk.old).state path.now))) }
    ensures fault { IfErr result (λ fault. IsFaulty (file_format format.now) (tree_of_settled settled.now)
        (readable (content_at (D.disk disk.old).state path.now)) fault.kind fault.line) }
    ensures unfailed { OnOk result (D.disk disk.new ≡ D.disk disk.old) }
    ensures failed { IfErr result (λ fault. fault.kind ≡ LoadKind.Read → FailsOnce (D.disk disk.old) (D.disk disk.new)) }
    ensures once { MayFailOnce (D.disk disk.old) (D.disk disk.new) }
{
    match disk.open(path) {
        Some(file) => read_opened(alloc, settled, format, file, disk),
        None => Err(LoadFault {
            line: 0,
            kind: LoadKind::Read,
        }),
    }
}

/// Reads an open configuration file to its end, and closes it.
fn read_opened<D: ReadDisk>(
    alloc: Global,
    settled: &Settled,
    format: &Format,
    mut file: D::File,
    disk: &mut D,
) -> Result<AcceptedFile, LoadFault>
    requires unread { D.File.Source.failures file ≡ 0 }
    ensures ok { IfOk result (λ accepted. (known : FileContent) → OpensAs known (Some (D.File.Source.left file))
        → IsAcceptedAs (file_format format.now) (tree_of_settled settled.now) known accepted) }
    ensures fault { IfErr result (λ fault. (known : FileContent) → OpensAs known (Some (D.File.Source.left file))
        → IsFaulty (file_format format.now) (tree_of_settled settled.now) known fault.kind fault.line) }
    ensures unfailed { OnOk result (D.disk disk.new ≡ D.disk disk.old) }
    ensures failed { IfErr result (λ fault. fault.kind ≡ LoadKind.Read → FailsOnce (D.disk disk.old) (D.disk disk.new)) }
    ensures once { MayFailOnce (D.disk disk.old) (D.disk disk.new) }
{
    let size = disk.size_of(&file);
    let read = read_source(alloc, settled, format, &mut file, size);
    disk.close(file);
    read
}

/// Reads a configuration file to its end. It is likely to have `size` bytes.
///
/// # Errors
///
/// The first fault of the file, or a read that fails before one; or out of memory.
pub fn read_source<S: Source>(
    alloc: Global,
    settled: &Settled,
    format: &Format,
    source: &mut S,
    size: usize,
) -> Result<AcceptedFile, LoadFault>
    ensures ok { IfOk result (λ file. (known : FileContent) → OpensAs known (Some (S.left source.old))
        → IsAcceptedAs (file_format format.now) (tree_of_settled settled.now) known file) }
    ensures fault { IfErr result (λ fault. (known : FileContent) → OpensAs known (Some (S.left source.old))
        → IsFaulty (file_format format.now) (tree_of_settled settled.now) known fault.kind fault.line) }
    ensures unfailed { OnOk result (S.failures source.new ≡ S.failures source.old) }
    ensures failed { IfErr result (λ fault. fault.kind ≡ LoadKind.Read → S.failures source.new ≡ one_failure_more (S.failures source.old)) }
    ensures once { (S.failures source.new ≡ S.failures source.old) ⊎ (S.failures source.new ≡ one_failure_more (S.failures source.old)) }
{
    let Ok(mut bytes) = Vec::with_capacity(alloc, size.min(MAX_CONFIG_BYTES)) else {
        return Err(LoadFault {
            line: 0,
            kind: LoadKind::OutOfMemory,
        });
    };
    match read_config(alloc, settled, format, source, &mut bytes) {
        Ok(fragment) => Ok(AcceptedFile { bytes, fragment }),
        Err(fault) => Err(fault),
    }
}
