//! A device that has files, which are read at any place.

ghost use Rattle.std.specs.Prelude.{◌≡◌, ◌<◌, true};
ghost use Rattle.bucket_kinds.specs.Device.{Device, is_there, closed, counts};
ghost use Rattle.bucket_kinds.specs.Answers.{IsOpening, IsReading};

use crate::refusal::FileFault;

/// The number of an open file. A device gives none twice.
pub type FileNo = u64;

/// A device that has files. Contracts see it as its files by name, its open files by number, the next number, how often it failed, and which of
/// its openings and reads to come fail: none, one of them, or any. A device need not say what its files hold.
pub trait Files {
    ghost device: { Self → Device };

    /// Opens the file of a name, and gives its new number and its length in bytes. `NotThere` comes of a name without a file, `Failed` where the
    /// device failed, as it may where this call is to fail, `NamesSpent` where the number would be `u64::MAX`, `NoMemory` where there is none for the
    /// open file. Refused, no file more is open. But for `Failed`, the call went on well, and the one that is to fail comes nearer.
    fn open_file(&mut self, name: &[u8]) -> Result<(FileNo, u64), FileFault>
        ensures { IsOpening (device self.old) name.now result (device self.new) };

    /// Fills the buffer from a place of an open file on, as far as the file reaches, and gives how many bytes that
    /// are. It has no fault but `Failed`, where this call may fail; then nothing is said of the buffer. Else the call that is to fail comes nearer,
    /// whatever file was read.
    fn read_at(&mut self, file: FileNo, at: u64, buffer: &mut [u8]) -> Result<usize, FileFault>
        requires { is_there ((device self.old).numbered file) ≡ true }
        ensures { IsReading (device self.old) file at buffer.old result buffer.new (device self.new) };

    /// Closes an open file. It takes no memory.
    fn close_file(&mut self, file: FileNo)
        requires { is_there ((device self.old).numbered file) ≡ true }
        ensures { device self.new ≡ closed file (device self.old) };

    /// How often the device failed. At `u64::MAX` the count stays.
    fn failures(&self) -> u64
        ensures { result ≡ (device self.now).failures };

    /// Whether one of the openings and reads to come is to fail, so that the device counts them. Then who asks for more of them, or fewer, gets
    /// other answers.
    fn counts_calls(&self) -> bool
        ensures { result ≡ counts (device self.now).plan };

    /// No file has the number 0.
    ghost numbered: { (s : Self) → 0 < (device s).next };
}
