//! Files of a disk.

ghost use Rattle.std.specs.Prelude.{◌≡◌, ◌<◌, ◌≤◌, ℕ, IsSome, nat_eq, IfOk, length, true};
ghost use Rattle.std.specs.HashMap.{get};
ghost use Rattle.bucket_kinds.specs.Prelude.{HasFailed, disk_device, fresh_disk};
ghost use Rattle.bucket_kinds.specs.declared.refusal.FileFault.TheVariants as fault;

use crate::files::{FileNo, Files};
use crate::kept_files::{FileStamp, KeptFiles, StampedFile};
use crate::numbers::{put_number, take_number};
use crate::refusal::FileFault;
use std::collections::HashMap;
use std::fs::OpenFile;
use std::os::unix::fs::FileExt;
use std::rt::Files as FileSystem;
use std::{fs, io, str};

/// Files of a disk, reached by a runtime. What they hold is not said, and they may always fail. A name is a path: one that is not UTF-8, that holds a
/// NUL, that is too long, or that leads to no regular file is `NotThere`. What it leads to is looked at before it is opened, so that no pipe is waited
/// for; a pipe that takes the place of a file between the two is. Any other fault of an opening is `Failed`, and is counted.
///
/// Files that were closed may stay open for the system, the last ones up to a given number. Where a path leads to one of them still, and neither that
/// file nor its rights were changed, opening it takes but that look.
#[derive(Drop)]
pub struct DiskFiles<R: FileSystem + AllocGlobal> {
    runtime: R,
    opened: HashMap<FileNo, StampedFile<R::File>>,
    kept: KeptFiles<R::File>,
    next: FileNo,
    failures: u64,

    // The number of an open file was given.
    ghost given: { (n : ℕ) → IsSome (get nat_eq opened n) → n < next },
    // No file has the number 0.
    ghost numbered: { 0 < next },
}

// The path that a name is, if it may be one.
fn path_of(name: &[u8]) -> Option<&str> {
    if name.contains(&0) {
        return None;
    }
    str::from_utf8(name).ok()
}

// Whether a path that was not opened so leads nowhere: nothing is there, it lies below a file, or a name in it is longer than names are.
fn leads_nowhere(kind: io::ErrorKind) -> bool {
    matches!(
        kind,
        io::ErrorKind::NotFound | io::ErrorKind::NotADirectory | io::ErrorKind::InvalidFilename
    )
}

// Opens a file of the disk, and tells its length; or tells that there is none.
fn open_anew<R: FileSystem>(
    runtime: &R,
    path: &str,
) -> io::Result<Option<(StampedFile<R::File>, u64)>> {
    let file = match fs::File::open(runtime, path) {
        Ok(file) => file,
        Err(error) if leads_nowhere(error.kind()) => return Ok(None),
        Err(error) => return Err(error),
    };
    let found = file.metadata()?;
    let stamp = FileStamp::of(&found);
    Ok(Some((StampedFile { file, stamp }, found.len())))
}

// Opens the file that a path leads to, or takes it from those that stayed open, and tells its length; or tells that there is none, but something that is
// no regular file, as a folder, a pipe or a device, or nothing. What the path leads to is looked at first, since who opens a pipe that nobody writes into waits.
fn open_path<R: FileSystem>(
    runtime: &R,
    kept: &mut KeptFiles<R::File>,
    path: &str,
) -> io::Result<Option<(StampedFile<R::File>, u64)>> {
    if let Ok(found) = fs::metadata(runtime, path) {
        if !found.is_file() {
            return Ok(None);
        }
        let stamp = FileStamp::of(&found);
        if let Some(file) = kept.take(stamp) {
            return Ok(Some((StampedFile { file, stamp }, found.len())));
        }
    }
    open_anew(runtime, path)
}

// Fills the buffer from a place of a file on, as far as the file reaches.
fn fill<F: FileExt>(file: &F, at: u64, buffer: &mut [u8]) -> io::Result<usize>
    ensures { IfOk result (λ n. n ≤ length buffer.old) }
{
    let mut filled = 0;
    while filled < buffer.len() {
        let count = file.read_at(&mut buffer[filled..], at.saturating_add(filled as u64))?;
        if count == 0 {
            break;
        }
        filled += count;
    }
    Ok(filled)
}

impl<R: FileSystem + AllocGlobal + Drop> DiskFiles<R>
where
    R::File: FileExt,
{
    /// The files that a runtime reaches. It takes no memory.
    pub fn new(runtime: R) -> Self
        ensures { ⟦<DiskFiles<R> as Files>⟧.device result ≡ fresh_disk }
    {
        DiskFiles::keeping(runtime, 0)
    }

    /// The files that a runtime reaches, of which the last `most` that were closed stay open. It takes no memory.
    pub fn keeping(runtime: R, most: usize) -> Self
        ensures { ⟦<DiskFiles<R> as Files>⟧.device result ≡ fresh_disk }
    {
        let alloc = runtime.alloc();
        DiskFiles {
            runtime,
            opened: HashMap::new(alloc),
            kept: KeptFiles::new(most),
            next: 1,
            failures: 0,
        }
    }

    fn fail(&mut self) -> FileFault
        ensures result { result ≡ fault.Failed }
        ensures device { HasFailed (disk_device self.old.opened self.old.next self.old.failures)
            (disk_device self.new.opened self.new.next self.new.failures) }
    {
        self.failures = self.failures.saturating_add(1);
        FileFault::Failed
    }
}

impl<R: FileSystem + AllocGlobal + Drop> Files for DiskFiles<R>
where
    R::File: FileExt,
{
    ghost device = { λ d. disk_device d.opened d.next d.failures };

    ghost numbered = { λ d. d.numbered };

    fn open_file(&mut self, name: &[u8]) -> Result<(FileNo, u64), FileFault> {
        let Some(path) = path_of(name) else {
            return Err(FileFault::NotThere);
        };
        let (file, len) = match open_path(&self.runtime, &mut self.kept, path) {
            Ok(Some(opened)) => opened,
            Ok(None) => return Err(FileFault::NotThere),
            Err(_) => return Err(self.fail()),
        };
        let number = self.next;
        if number == u64::MAX {
            return Err(FileFault::NamesSpent);
        }
        put_number(&mut self.opened, number, file)?;
        self.next += 1;
        Ok((number, len))
    }

    fn read_at(&mut self, file: FileNo, at: u64, buffer: &mut [u8]) -> Result<usize, FileFault> {
        let Some(opened) = self.opened.get(&file) else {
            unreachable!()
        };
        match fill(&opened.file, at, buffer) {
            Ok(count) => Ok(count),
            Err(_) => Err(self.fail()),
        }
    }

    fn close_file(&mut self, file: FileNo) {
        if let Some(closed) = take_number(&mut self.opened, file) {
            self.kept.keep(self.runtime.alloc(), closed);
        }
    }

    fn failures(&self) -> u64 {
        self.failures
    }

    fn counts_calls(&self) -> bool {
        false
    }
}
