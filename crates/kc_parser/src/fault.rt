//! Faults with their files and lines.
ghost use Rattle.std.specs.Prelude.{◌≡◌, ◌⊎◌};
ghost use Rattle.kc_tree_model.specs.declared.fault.TreeKind.TheVariants.{OutOfMemory};
ghost use Rattle.kc_parser.specs.checker.Faults.{IsMemory, fault_in};

use kc_tree_model::{TreeFault, TreeKind};

/// A fault at a line of a file; if it is out of memory, it has no file and no line.
pub(crate) fn fault_or_out_of_memory(file: u32, line: u32, kind: TreeKind) -> TreeFault
    ensures memory { kind ≡ OutOfMemory → IsMemory result }
    ensures placed { IsMemory result ⊎ (result ≡ fault_in file line kind) }
{
    match kind {
        TreeKind::OutOfMemory => TreeFault::out_of_memory(),
        _ => TreeFault::at_line(file, line, kind),
    }
}
