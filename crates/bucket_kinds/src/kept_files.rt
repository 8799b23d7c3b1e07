//! Files of a disk that were closed lately, and stay open.

use lru::LruCache;
use std::alloc::Global;
use std::fs::Metadata;
use std::num::NonZeroUsize;
use std::os::unix::fs::MetadataExt;

/// What tells a file from each other one, and from itself before it was changed or its rights were (`st_dev`, `st_ino` and `st_ctim` of
/// stat(2)).
#[derive(Clone, Copy, PartialEq, Eq, Hash)]
pub(crate) struct FileStamp {
    number: u64,
    device: u64,
    changed_at: i64,
    changed_nanos: i64,
}

impl FileStamp {
    pub(crate) fn of(found: &Metadata) -> Self {
        FileStamp {
            number: found.ino(),
            device: found.dev(),
            changed_at: found.ctime(),
            changed_nanos: found.ctime_nsec(),
        }
    }
}

/// An open file, and what told it apart when it was opened.
#[derive(Drop)]
pub(crate) struct StampedFile<F> {
    pub(crate) file: F,
    pub(crate) stamp: FileStamp,
}

/// The files that were closed last, open still, up to so many.
#[derive(Drop)]
pub(crate) struct KeptFiles<F> {
    most: usize,
    by_stamp: Option<LruCache<FileStamp, F>>,
}

impl<F: Drop> KeptFiles<F> {
    /// No file. It takes no memory.
    pub(crate) fn new(most: usize) -> Self {
        KeptFiles {
            most,
            by_stamp: None,
        }
    }

    /// Takes out the file that has a stamp.
    pub(crate) fn take(&mut self, stamp: FileStamp) -> Option<F> {
        match &mut self.by_stamp {
            Some(kept) => kept.pop(&stamp),
            None => None,
        }
    }

    /// Keeps a file open, and closes the one that was kept longest where there are enough. Without memory it is closed.
    pub(crate) fn keep(&mut self, alloc: Global, closed: StampedFile<F>) {
        let Some(most) = NonZeroUsize::new(self.most) else {
            return;
        };
        if self.by_stamp.is_none() {
            self.by_stamp = LruCache::sparse(alloc, most).ok();
        }
        if let Some(kept) = &mut self.by_stamp {
            let _ = kept.put(closed.stamp, closed.file);
        }
    }
}
