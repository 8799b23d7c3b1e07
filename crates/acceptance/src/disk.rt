//! Rows of files of a real disk, in the folder where the program runs.

ghost use Rattle.std.specs.Prelude.{◌≡◌, ◌-◌, ◌+◌, ◌^◌, ◌<◌, true};
ghost use Rattle.run_model.specs.Cutting.{EndsInFile};
ghost use Rattle.bucket_kinds.specs.Device.{is_there};
ghost use Rattle.bucket_kinds.specs.Reading.{IsOpenFor};

use crate::buckets::show_answer;
use anyhow::Result;
use bucket_kinds::{Bucket, Content, DiskFiles, FileNo, Files, Home, Kind, read_bucket};
use std::fs;
use std::path::Path;

/// What is written to a file after it was opened; whether it is read from 2^63 on, where the system reads none; and names that are opened then.
#[derive(Clone, Copy)]
struct ChangedFile {
    text: &'static [u8],
    is_far: bool,
    names: &'static [&'static [u8]],
}

/// A name of 300 bytes.
const TOO_LONG: &[u8] = b"\
    xxxxxxxxxxxxxxxxxxxxxxxxxxxxxxxxxxxxxxxxxxxxxxxxxxxxxxxxxxxxxxxxxxxxxxxxxxx\
    xxxxxxxxxxxxxxxxxxxxxxxxxxxxxxxxxxxxxxxxxxxxxxxxxxxxxxxxxxxxxxxxxxxxxxxxxxx\
    xxxxxxxxxxxxxxxxxxxxxxxxxxxxxxxxxxxxxxxxxxxxxxxxxxxxxxxxxxxxxxxxxxxxxxxxxxx\
    xxxxxxxxxxxxxxxxxxxxxxxxxxxxxxxxxxxxxxxxxxxxxxxxxxxxxxxxxxxxxxxxxxxxxxxxxxx";

/// A file is read that has other bytes than when it was opened, one that was cut short, and one where the system reads none from so far on.
/// What is not there, and a folder, are no failures of the disk. No file system takes a name of 300 bytes.
static ROWS: &[ChangedFile] = &[
    ChangedFile {
        text: b"jihgfedcba",
        is_far: false,
        names: &[],
    },
    ChangedFile {
        text: b"jih",
        is_far: false,
        names: &[],
    },
    ChangedFile {
        text: b"abcdefghij",
        is_far: true,
        names: &[TOO_LONG, b"/no such file", b"/"],
    },
];

/// Bytes of an open file, from a byte on.
pub(crate) fn range(file: FileNo, start: u64, len: u64) -> Bucket
    requires { start + len < 2 ^ 64 }
    ensures content { result.content ≡ Content.Range file start len }
    ensures ends { EndsInFile result.content }
{
    Bucket {
        kind: Kind::File,
        content: Content::Range { file, start, len },
        home: Home::Free,
    }
}

/// Tells what a read made of a bucket.
pub(crate) fn show_bucket<F: Files>(
    rt: &HostRuntime,
    files: &mut F,
    mut bucket: Bucket,
) -> Result<()>
    requires ends { EndsInFile bucket.content }
    requires open { IsOpenFor (F.device files.old) bucket.content }
{
    let rest = read_bucket(rt.alloc(), &mut bucket, files);
    Ok(show_answer(rt, &bucket, &rest)?)
}

/// Tells ten bytes of a file, from a byte on, or why they cannot be read.
fn show_read<F: Files>(rt: &HostRuntime, files: &mut F, file: FileNo, start: u64) -> Result<()>
    requires there { is_there ((F.device files.old).numbered file) ≡ true }
    requires ends { start < 2 ^ 64 - 2 ^ 32 }
{
    show_bucket(rt, files, range(file, start, 10))
}

/// Opens a file, and tells its first ten bytes, or why there is none of that name.
fn show_opened<F: Files>(rt: &HostRuntime, files: &mut F, name: &[u8]) -> Result<()> {
    match files.open_file(name) {
        Ok((file, _)) => show_read(rt, files, file, 0),
        Err(why) => Ok(println!(rt; "{why}")?),
    }
}

/// Opens files of these names, and tells how often the device failed before and after.
fn show_names<F: Files>(rt: &HostRuntime, files: &mut F, names: &[&[u8]]) -> Result<()> {
    println!(rt; "{} failures", files.failures())?;
    for name in names {
        show_opened(rt, files, name)?;
    }
    println!(rt; "{} failures", files.failures())?;
    Ok(())
}

/// Reads ten bytes of a file that is changed after it was opened, and opens others.
fn show_changed<F: Files>(
    rt: &HostRuntime,
    files: &mut F,
    path: &Path<'_>,
    changed: ChangedFile,
) -> Result<()> {
    fs::write(rt, *path, b"abcdefghij")?;
    let (file, _) = files.open_file(path.as_str().as_bytes())?;
    fs::write(rt, *path, changed.text)?;
    let start = if changed.is_far { 1 << 63 } else { 0 };
    show_read(rt, files, file, start)?;
    fs::remove_file(rt, *path)?;
    show_names(rt, files, changed.names)
}

/// Tells what is read of files that are changed.
pub(crate) fn show_rows(rt: &HostRuntime) -> Result<()> {
    println!(rt; "files of a disk")?;
    for changed in ROWS {
        let mut files = DiskFiles::new(rt.clone()?);
        show_changed(rt, &mut files, &Path::new("rows.tmp"), *changed)?;
    }
    Ok(())
}
