//! Files in memory.

ghost use Rattle.std.specs.Prelude.{◌≡◌, ◌<◌, ◌==◌, if◌then◌else◌, ℕ, List, length, true, false, Some, None, IsSome, is_some, nat_eq, MatchOption, OnOk, OnErr, IsErr, ◌↔◌};
ghost use Rattle.std.specs.Str.{bytes_eq};
ghost use Rattle.std.specs.HashMap.{get};
ghost use Rattle.bucket_kinds.specs.Prelude.{Holds, IsFilled, Bytes, under, at_number};

use crate::files::{FileNo, Files};
use crate::numbers::{put_number, take_number};
use crate::refusal::{AddRefusal, FileFault, ReadFault};
use std::alloc::{AllocError, Global};
use std::collections::{BTreeMap, HashMap};

/// Files in memory: a map from name to bytes. An opening or a read fails only where it was told to.
#[derive(Drop)]
pub struct MemFiles {
    alloc: Global,
    files: BTreeMap<Vec<u8>, Vec<u8>>,
    opened: HashMap<u64, Vec<u8>>,
    next: u64,
    fails_in: Option<u64>,
    failures: u64,

    // An open file is there, and its number was given.
    ghost there: { (n : ℕ) (name : Bytes) → get nat_eq opened n ≡ Some name → is_some (under files name.items) ≡ true },
    ghost given: { (n : ℕ) → IsSome (get nat_eq opened n) → n < next },
    // No file has the number 0.
    ghost numbered: { 0 < next },
}

fn find<'a>(files: &'a BTreeMap<Vec<u8>, Vec<u8>>, name: &[u8]) -> Option<&'a Vec<u8>>
    ensures { MatchOption result (under files.now name.now ≡ None) (λ bytes. under files.now name.now ≡ Some bytes.now.items) }
{
    files.get(name)
}

// Puts bytes under a name. Without memory nothing is changed.
fn put(
    files: &mut BTreeMap<Vec<u8>, Vec<u8>>,
    name: Vec<u8>,
    bytes: Vec<u8>,
) -> Result<(), AllocError>
    ensures ok { OnOk result ((q : List ℕ) → under files.new q ≡ (if bytes_eq q name.items then Some bytes.items else under files.old q)) }
    ensures err { OnErr result (files.new.entries ≡ files.old.entries) }
{
    files.insert(name, bytes)?;
    Ok(())
}

// Fills the buffer from a place of a text on, as far as the text reaches, and gives how many bytes that are.
fn copy_from(text: &[u8], at: u64, buffer: &mut [u8]) -> usize
    ensures { IsFilled (Holds text.now) at buffer.old result buffer.new }
{
    let start = at.min(text.len() as u64) as usize;
    let count = buffer.len().min(text.len() - start);
    buffer[..count].copy_from_slice(&text[start..start + count]);
    count
}

#[tactic(auto, unfolding(crate::specs::MemDevice::files_of, crate::specs::MemDevice::failures_of))]
impl MemFiles {
    ghost use Rattle.run_model.specs.Files.{no_files, fails_now, read_part, read_done};
    ghost use Rattle.bucket_kinds.specs.MemDevice.{files_of, failures_of, mem_device, plan_of};
    ghost use Rattle.bucket_kinds.specs.MemAnswers.{IsAdding, IsFileOpening, IsOpeningDue, IsSoundOpening, file_closed, planned, failing_at, failures_after};

    /// No files. No call on them fails before `fail_at` tells it to. It takes no memory.
    pub fn new(alloc: Global) -> Self
        ensures files { files_of result ≡ no_files }
        ensures failures { failures_of result ≡ 0 }
    {
        MemFiles {
            alloc,
            files: BTreeMap::new(alloc),
            opened: HashMap::new(alloc),
            next: 1,
            fails_in: None,
            failures: 0,
        }
    }

    /// Adds a file. `Taken` is told where there is a file of that name, and `NoMemory` only where there is none. Refused,
    /// nothing is changed.
    pub fn add(&mut self, name: &[u8], bytes: Vec<u8>) -> Result<(), AddRefusal>
        ensures files { IsAdding (files_of self.old) name.now bytes.items result (files_of self.new) }
        ensures failures { failures_of self.new ≡ failures_of self.old }
    {
        if self.has(name) {
            return Err(AddRefusal::Taken);
        }
        let name = name.to_vec(self.alloc)?;
        put(&mut self.files, name, bytes)?;
        Ok(())
    }

    /// Whether there is a file of that name.
    pub fn has(&self, name: &[u8]) -> bool
        ensures { result ≡ is_some ((files_of self.now).named name.now) }
    {
        find(&self.files, name).is_some()
    }

    /// The number that the next file that is opened gets; where it is `u64::MAX`, none is opened any more.
    pub fn next_number(&self) -> FileNo
        ensures { result ≡ (files_of self.now).next }
    {
        self.next
    }

    /// Of the openings and reads that follow, the one of number `call`, counted from 1, answers `Failed` and raises `failures` by one, and
    /// all others go on as ever. 0 is the number of none. What was told before is forgotten. It takes no memory.
    #[tactic(auto, using(crate::proofs::ReadLemmas::planned_from), unfolding(crate::specs::MemDevice::files_of, crate::specs::MemDevice::failures_of))]
    pub fn fail_at(&mut self, call: u64)
        ensures files { files_of self.new ≡ failing_at call (files_of self.old) }
        ensures failures { failures_of self.new ≡ failures_of self.old }
        ensures plan { (mem_device self.new).plan ≡ plan_of (planned call) }
    {
        self.fails_in = call.checked_sub(1);
    }

    // Opens a file, where no failure is due.
    fn open_named(&mut self, name: &[u8]) -> Result<(FileNo, u64), FileFault>
        ensures files { IsSoundOpening (files_of self.old) name.now result (files_of self.new) }
        ensures failures { failures_of self.new ≡ failures_of self.old }
    {
        let Some(bytes) = find(&self.files, name) else {
            return Err(FileFault::NotThere);
        };
        let len = bytes.len() as u64;
        let number = self.next;
        if number == u64::MAX {
            return Err(FileFault::NamesSpent);
        }
        let name = name.to_vec(self.alloc)?;
        put_number(&mut self.opened, number, name)?;
        self.next += 1;
        Ok((number, len))
    }

    // Opens a file, unless that is to fail.
    fn open_unless(&mut self, fails: bool, name: &[u8]) -> Result<(FileNo, u64), FileFault>
        ensures files { IsOpeningDue fails (files_of self.old) name.now result (files_of self.new) }
        ensures failures { failures_of self.new ≡ failures_of self.old }
    {
        if fails {
            return Err(FileFault::Failed);
        }
        self.open_named(name)
    }

    /// Opens the file of a name, and gives its new number and its length in bytes. `Failed` is told where the opening is one that is to
    /// fail, whatever the name is. Then `NotThere` is told of a name without a file, and then `NamesSpent` where the number would be
    /// `u64::MAX`. Refused, nothing is changed but the count of calls.
    pub fn open(&mut self, name: &[u8]) -> Result<(FileNo, u64), FileFault>
        ensures files { IsFileOpening (files_of self.old) name.now result (files_of self.new) }
        ensures failures { failures_of self.new ≡ failures_after (files_of self.old) (failures_of self.old) }
    {
        let fails = self.call_fails();
        self.open_unless(fails, name)
    }

    // The bytes of an open file.
    fn text(&self, file: FileNo) -> Option<&Vec<u8>>
        ensures { MatchOption result ((files_of self.now).opened file ≡ None)
            (λ bytes. (files_of self.now).opened file ≡ Some bytes.now.items) }
    {
        let name = self.opened.get(&file)?;
        find(&self.files, name.as_slice())
    }

    // Counts an opening or a read, and tells whether it fails.
    #[tactic(auto, using(crate::proofs::ReadLemmas::after_well, crate::proofs::ReadLemmas::well_now), unfolding(crate::specs::MemDevice::files_of, crate::specs::MemDevice::failures_of))]
    fn call_fails(&mut self) -> bool
        ensures result { result ≡ fails_now (files_of self.old).fails_in }
        ensures files { files_of self.new ≡ read_done (files_of self.old) }
        ensures failures { failures_of self.new ≡ failures_after (files_of self.old) (failures_of self.old) }
    {
        match self.fails_in {
            None => false,
            Some(0) => {
                self.fails_in = None;
                self.failures = self.failures.saturating_add(1);
                true
            }
            Some(calls) => {
                self.fails_in = Some(calls - 1);
                false
            }
        }
    }

    /// Fills the whole buffer from a place of an open file on. `ReadFault` comes where the read fails, the file is not
    /// open, or it ends before the buffer is full; then nothing is said of what stands in the buffer. It takes no
    /// memory.
    pub fn read_part(&mut self, file: FileNo, at: u64, buffer: &mut [u8]) -> Result<(), ReadFault>
        ensures ok { OnOk result (read_part file at (length buffer.old) (files_of self.old) ≡ Some buffer.new) }
        ensures err { OnErr result (read_part file at (length buffer.old) (files_of self.old) ≡ None) }
        ensures files { files_of self.new ≡ read_done (files_of self.old) }
        ensures failures { failures_of self.new ≡ failures_after (files_of self.old) (failures_of self.old) }
    {
        if self.call_fails() {
            return Err(ReadFault);
        }
        let Some(text) = self.text(file) else {
            return Err(ReadFault);
        };
        if copy_from(text, at, buffer) < buffer.len() {
            return Err(ReadFault);
        }
        Ok(())
    }

    /// Closes a file. Where no file of that number is open, nothing is changed. It takes no memory.
    pub fn close(&mut self, file: FileNo)
        ensures files { files_of self.new ≡ file_closed file (files_of self.old) }
        ensures failures { failures_of self.new ≡ failures_of self.old }
    {
        let _ = take_number(&mut self.opened, file);
    }
}

impl Files for MemFiles {
    ghost use Rattle.run_model.specs.Files.{fails_now, read_done};
    ghost use Rattle.bucket_kinds.specs.Device.{is_there, closed};
    ghost use Rattle.bucket_kinds.specs.Answers.{IsOpening, IsReading};
    ghost use Rattle.bucket_kinds.specs.MemDevice.{files_of, mem_device, mem_numbered};
    ghost use Rattle.bucket_kinds.specs.MemAnswers.{IsFileOpening, file_closed};

    ghost device = { mem_device };

    ghost numbered = { mem_numbered };

    fn open_file(&mut self, name: &[u8]) -> Result<(FileNo, u64), FileFault>
        ensures device { IsOpening (mem_device self.old) name.now result (mem_device self.new) }
        ensures files { IsFileOpening (files_of self.old) name.now result (files_of self.new) }
    {
        self.open(name)
    }

    fn read_at(&mut self, file: FileNo, at: u64, buffer: &mut [u8]) -> Result<usize, FileFault>
        requires { is_there ((mem_device self.old).numbered file) ≡ true }
        ensures device { IsReading (mem_device self.old) file at buffer.old result buffer.new (mem_device self.new) }
        ensures files { files_of self.new ≡ read_done (files_of self.old) }
        ensures fails { IsErr result ↔ (fails_now (files_of self.old).fails_in ≡ true) }
    {
        if self.call_fails() {
            return Err(FileFault::Failed);
        }
        let Some(text) = self.text(file) else {
            unreachable!()
        };
        Ok(copy_from(text, at, buffer))
    }

    fn close_file(&mut self, file: FileNo)
        ensures device { mem_device self.new ≡ closed file (mem_device self.old) }
        ensures files { files_of self.new ≡ file_closed file (files_of self.old) }
    {
        self.close(file);
    }

    #[tactic(auto, unfolding(crate::specs::MemDevice::failures_of))]
    fn failures(&self) -> u64 {
        self.failures
    }

    #[tactic(auto, unfolding(crate::specs::MemDevice::files_of))]
    fn counts_calls(&self) -> bool {
        self.fails_in.is_some()
    }
}
