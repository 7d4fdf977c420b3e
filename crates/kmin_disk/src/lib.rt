//! Files that are replaced whole or not at all, over a disk whose reading and whose writing are traits; and a reader of bytes
//! in memory.
#![tactic(auto)]

mod comparison;
mod disk;
mod fault;
mod file_update;
mod kind;
mod memory_reader;
mod new_path;
mod read_only_disk;
mod replacement;
mod system_disk;
mod system_file;
mod system_new_file;
mod written_file;

pub use disk::{ReadDisk, WriteDisk};
pub use fault::{CreateFault, ReplaceFault, UpdateFault};
pub use file_update::update;
pub use kind::FileKind;
pub use memory_reader::MemoryReader;
pub use read_only_disk::ReadOnly;
pub use replacement::replace;
pub use system_disk::SystemDisk;
pub use system_file::{SystemFile, says_absent};
pub use system_new_file::{SystemNewFile, SystemRename};
