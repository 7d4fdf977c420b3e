//! A disk in memory, for tests: its history is known, and chosen calls fail.
ghost use Rattle.std.specs.Prelude.{◌≡◌, [], Some, false, ◌≢◌, OnOk, OnErr, IfOk, IfSome, OnSome, option_map, string_bytes};
ghost use Rattle.kc_value.specs.Streams.{one_failure_more};
ghost use Rattle.kc_value.specs.FileContents.{OpensAs};
ghost use Rattle.kmin_disk.specs.Contents.{readable};
ghost use Rattle.kmin_disk.specs.Disks.{History, newest};
ghost use Rattle.kmin_fakes.specs.MemoryDisks.{memory_state, memory_draft, content_view, history_after, AppendsHolds, AppendsRename};

use kc_value::{Failed, Seed, Source};
use kmin_disk::{CreateFault, FileKind, ReadDisk, WriteDisk};
use std::alloc::{AllocError, Global};

/// What a path of a disk in memory holds. A new file is `Unfinished` from its creation until it is renamed.
#[derive(Clone, Copy)]
pub(crate) enum MemoryContent<'a> {
    Nothing,
    File(&'a [u8]),
    Unfinished,
    Special,
}

/// One change of a disk in memory: a path gets a content, or a new file is renamed.
#[derive(Drop)]
pub(crate) enum Event<'a> {
    Holds {
        path: String,
        content: MemoryContent<'a>,
    },
    Renamed {
        from: String,
        to: String,
        bytes: &'a [u8],
    },
}

impl<'a> Event<'a> {
    /// The content of a path after this change, given its content before.
    fn content_after(&self, path: &str, before: MemoryContent<'a>) -> MemoryContent<'a>
        ensures { (history : History) → newest history ≡ Some (content_view before.entry) → newest (history_after self.now path.now history) ≡ Some (content_view result) }
    {
        match self {
            Event::Holds { path: at, content } => {
                if at.as_str() == path {
                    *content
                } else {
                    before
                }
            }
            Event::Renamed { from, to, bytes } => {
                if to.as_str() == path {
                    MemoryContent::File(bytes)
                } else if from.as_str() == path {
                    MemoryContent::Nothing
                } else {
                    before
                }
            }
        }
    }
}

/// A disk in memory, which begins empty. No two paths lead to the same file. The bytes of all files are borrowed, so a
/// rename fails unless the new file has the bytes of one of `texts`.
#[derive(Drop)]
pub struct MemoryDisk<'a> {
    alloc: Global,
    texts: &'a [&'a [u8]],
    most: usize,
    log: Vec<Event<'a>>,
    reads_before_failing: u64,
    calls_before_failing: u64,
    failing_calls: u64,
    failed: u64,
}

/// A new file of a disk in memory, which hasn't been renamed yet.
#[derive(Drop)]
pub struct MemoryNewFile {
    path: String,
    target: String,
    bytes: Vec<u8>,
    synced: bool,
}

/// A rename on a disk in memory whose folder isn't synced yet.
pub struct MemoryRename {}

/// A reader of a file of a disk in memory. After a chosen number of reads, all others fail.
#[derive(Drop)]
pub struct MemoryFile<'a> {
    left: &'a [u8],
    reads_before_failing: u64,
    failed: u64,
}

impl Source for MemoryFile<'_> {
    ghost left = { λ file. Some file.left.now };

    ghost failures = { λ file. file.failed };

    fn read_some(&mut self, buf: &mut [u8]) -> Result<usize, Failed> {
        if self.reads_before_failing == 0 {
            self.failed = self.failed.saturating_add(1);
            return Err(Failed);
        }
        self.reads_before_failing -= 1;
        let count = self.left.len().min(buf.len());
        let (front, rest) = self.left.split_at(count);
        buf[..count].copy_from_slice(front);
        self.left = rest;
        Ok(count)
    }
}

impl<'a> MemoryDisk<'a> {
    /// An empty disk in memory, on which a write takes at most `most` bytes. The new files that can be renamed are those with the
    /// bytes of one of `texts`.
    pub fn new(alloc: Global, texts: &'a [&'a [u8]], most: usize) -> MemoryDisk<'a>
        ensures state { (⟦<MemoryDisk<'a> as ReadDisk>⟧.disk result).state ≡ memory_state [] }
        ensures failures { (⟦<MemoryDisk<'a> as ReadDisk>⟧.disk result).failures ≡ 0 }
    {
        MemoryDisk {
            alloc,
            texts,
            most,
            log: Vec::new(alloc),
            reads_before_failing: u64::MAX,
            calls_before_failing: 0,
            failing_calls: 0,
            failed: 0,
        }
    }

    /// Adds a regular file of these bytes at a path.
    pub fn add_file(&mut self, path: &str, bytes: &'a [u8]) -> Result<(), AllocError> {
        self.add(path, MemoryContent::File(bytes))
    }

    /// Adds at a path a file that isn't regular: a link, a folder, a pipe or a device.
    pub fn add_special(&mut self, path: &str) -> Result<(), AllocError> {
        self.add(path, MemoryContent::Special)
    }

    /// Gives a path a content.
    fn add(&mut self, path: &str, content: MemoryContent<'a>) -> Result<(), AllocError>
        ensures added { OnOk result (AppendsHolds self.old.log.items self.new.log.items path.now content.entry) }
        ensures err { OnErr result (self.new.log.items ≡ self.old.log.items) }
        ensures failed { self.new.failed ≡ self.old.failed }
    {
        let path = String::from_str(self.alloc, path)?;
        self.log.push(Event::Holds { path, content })?;
        Ok(())
    }

    /// Lets the next `calls` calls that change files pass, and the `failing` ones after them fail.
    pub fn fail_after(&mut self, calls: u64, failing: u64) {
        self.calls_before_failing = calls;
        self.failing_calls = failing;
    }

    /// Lets all reads but the first `reads` fail, in each file that is opened from now on.
    pub fn fail_reads_after(&mut self, reads: u64) {
        self.reads_before_failing = reads;
    }

    /// A reader of the regular file at a path; `None` if there is none.
    fn reader_of(&self, path: &str) -> Option<MemoryFile<'a>>
        ensures opens { OpensAs (readable (newest ((memory_state self.now.log.items).history path.now))) (option_map (⟦<MemoryFile<'a> as Source>⟧.left) result) }
        ensures unread { IfSome result (λ file. file.failed ≡ 0) }
    {
        match self.content(path) {
            MemoryContent::File(left) => Some(MemoryFile {
                left,
                reads_before_failing: self.reads_before_failing,
                failed: 0,
            }),
            _ => None,
        }
    }

    /// The bytes of the regular file at a path; `None` if there is none.
    pub fn bytes_at(&self, path: &str) -> Option<&'a [u8]> {
        match self.content(path) {
            MemoryContent::File(bytes) => Some(bytes),
            _ => None,
        }
    }

    /// The number of changes of the disk so far: files added, created, renamed and removed.
    pub fn changes(&self) -> usize {
        self.log.len()
    }

    /// The number of calls of the disk that failed so far, with the failed reads of closed files.
    pub fn failures(&self) -> u64 {
        self.failed
    }

    /// The present content of a path.
    fn content(&self, path: &str) -> MemoryContent<'a>
        ensures { newest ((memory_state self.now.log.items).history path.now) ≡ Some (content_view result) }
    {
        let mut content = MemoryContent::Nothing;
        for event in &self.log {
            content = event.content_after(path, content);
        }
        content
    }

    /// Whether the call that asks this is to fail, as `fail_after` chose.
    fn fails(&mut self) -> bool
        ensures log { self.new.log ≡ self.old.log }
        ensures failed { self.new.failed ≡ self.old.failed }
    {
        if self.calls_before_failing > 0 {
            self.calls_before_failing -= 1;
            return false;
        }
        if self.failing_calls == 0 {
            return false;
        }
        self.failing_calls -= 1;
        true
    }

    /// Counts a failed call.
    fn count_failure(&mut self) -> Failed
        ensures log { self.new.log ≡ self.old.log }
        ensures failed { self.new.failed ≡ one_failure_more self.old.failed }
    {
        self.failed = self.failed.saturating_add(1);
        Failed
    }

    /// Makes an empty new file at `new_path`, which is to replace the file at `path`.
    fn begin(&mut self, path: &str, new_path: &str) -> Result<MemoryNewFile, AllocError>
        ensures began { OnOk result (AppendsHolds self.old.log.items self.new.log.items new_path.now MemoryContent.Unfinished) }
        ensures draft { IfOk result (λ new. (string_bytes new.path ≡ new_path.now) × (string_bytes new.target ≡ path.now) × (new.bytes.items ≡ []) × (new.synced ≡ false)) }
        ensures err { OnErr result (self.new.log.items ≡ self.old.log.items) }
        ensures failed { self.new.failed ≡ self.old.failed }
    {
        let new = MemoryNewFile {
            path: String::from_str(self.alloc, new_path)?,
            target: String::from_str(self.alloc, path)?,
            bytes: Vec::new(self.alloc),
            synced: false,
        };
        self.add(new_path, MemoryContent::Unfinished)?;
        Ok(new)
    }

    /// Renames a new file of these bytes over its target.
    fn move_to_target(&mut self, new: &MemoryNewFile, bytes: &'a [u8]) -> Result<(), AllocError>
        requires bytes { bytes.now ≡ new.now.bytes.items }
        ensures moved { OnOk result (AppendsRename self.old.log.items self.new.log.items new.now) }
        ensures err { OnErr result (self.new.log.items ≡ self.old.log.items) }
        ensures failed { self.new.failed ≡ self.old.failed }
    {
        let from = String::from_str(self.alloc, &new.path)?;
        let to = String::from_str(self.alloc, &new.target)?;
        self.log.push(Event::Renamed { from, to, bytes })?;
        Ok(())
    }

    /// The text that equals the bytes of a new file; `None` if there is none, or the file is at its target already.
    fn text_for(&self, new: &MemoryNewFile) -> Option<&'a [u8]>
        ensures text { IfSome result (λ text. text.now ≡ new.now.bytes.items) }
        ensures apart { OnSome result (string_bytes new.now.path ≢ string_bytes new.now.target) }
    {
        if new.path.as_str() == new.target.as_str() {
            return None;
        }
        self.text_of(&new.bytes)
    }

    /// The first of the disk's `texts` that equals these bytes.
    fn text_of(&self, bytes: &[u8]) -> Option<&'a [u8]>
        ensures { IfSome result (λ text. text.now ≡ bytes.now) }
    {
        for text in self.texts {
            if *text == bytes {
                return Some(*text);
            }
        }
        None
    }
}

impl<'a> ReadDisk for MemoryDisk<'a> {
    type File = MemoryFile<'a>;

    ghost disk = { λ disk. record { state = memory_state disk.log.items; failures = disk.failed } };

    fn seed(&self) -> Seed {
        Seed::fixed()
    }

    fn kind(&self, path: &str) -> FileKind {
        match self.content(path) {
            MemoryContent::Nothing => FileKind::Missing,
            MemoryContent::File(_) => FileKind::Regular,
            MemoryContent::Unfinished => FileKind::Regular,
            MemoryContent::Special => FileKind::NotRegular,
        }
    }

    fn open(&mut self, path: &str) -> Option<MemoryFile<'a>> {
        let file = self.reader_of(path);
        if file.is_none() {
            let _ = self.count_failure();
        }
        file
    }

    fn open_if_there(&self, path: &str) -> Option<MemoryFile<'a>> {
        self.reader_of(path)
    }

    fn close(&mut self, file: MemoryFile<'a>) {
        self.failed = self.failed.saturating_add(file.failed);
    }
}

impl<'a> WriteDisk for MemoryDisk<'a> {
    type NewFile = MemoryNewFile;

    type Renamed = MemoryRename;

    ghost draft = { λ new. memory_draft new };

    fn create(&mut self, path: &str, new_path: &str) -> Result<MemoryNewFile, CreateFault> {
        if self.fails() {
            let _ = self.count_failure();
            return Err(CreateFault::Failed);
        }
        if new_path == path {
            return Err(CreateFault::Taken);
        }
        match self.content(new_path) {
            MemoryContent::Nothing => {}
            _ => return Err(CreateFault::Taken),
        }
        match self.begin(path, new_path) {
            Ok(new) => Ok(new),
            Err(AllocError) => {
                let _ = self.count_failure();
                Err(CreateFault::Failed)
            }
        }
    }

    fn write_some(&mut self, new: &mut MemoryNewFile, bytes: &[u8]) -> Result<usize, Failed> {
        new.synced = false;
        if self.fails() {
            return Err(self.count_failure());
        }
        let count = bytes.len().min(self.most);
        if count == 0 && !bytes.is_empty() {
            let _ = self.count_failure();
            return Ok(0);
        }
        match new.bytes.extend_from_slice(&bytes[..count]) {
            Ok(()) => Ok(count),
            Err(AllocError) => Err(self.count_failure()),
        }
    }

    fn sync(&mut self, new: &mut MemoryNewFile) -> Result<(), Failed> {
        if self.fails() {
            return Err(self.count_failure());
        }
        new.synced = true;
        Ok(())
    }

    fn rename(&mut self, new: MemoryNewFile) -> Result<MemoryRename, MemoryNewFile> {
        if self.fails() {
            let _ = self.count_failure();
            return Err(new);
        }
        let Some(text) = self.text_for(&new) else {
            let _ = self.count_failure();
            return Err(new);
        };
        match self.move_to_target(&new, text) {
            Ok(()) => Ok(MemoryRename {}),
            Err(AllocError) => {
                let _ = self.count_failure();
                Err(new)
            }
        }
    }

    fn sync_folder(&mut self, renamed: MemoryRename) -> Result<(), Failed> {
        let MemoryRename {} = renamed;
        if self.fails() {
            return Err(self.count_failure());
        }
        Ok(())
    }

    fn remove(&mut self, new: MemoryNewFile) -> Result<(), Failed> {
        if self.fails() {
            return Err(self.count_failure());
        }
        let path = new.path;
        let content = MemoryContent::Nothing;
        match self.log.push(Event::Holds { path, content }) {
            Ok(()) => Ok(()),
            Err(_) => Err(self.count_failure()),
        }
    }
}
