//! Files are opened and added.

ghost use Rattle.std.specs.Prelude.{◌≡◌};
ghost use Rattle.run_model.specs.declared.event.Event.TheVariants.{OpenFile};
ghost use Rattle.run_model.specs.Worlds.{World};

use crate::host::Host;
use bucket_kinds::{AddRefusal, FileNo, Files, MemFiles, Stored};
use bucket_ring::Rings;
use run_model::Refusal;

impl<F: Files + Drop, R: Rings<Stored> + Drop> Host<F, R> {
    ghost use Rattle.filter_chain.specs.Hosting.{IsHosting, Happens, file_answer, files_of};
    ghost use Rattle.filter_chain.specs.Bare.{is_bare};

    /// Opens a file in the open request of a connection, and answers its number and its length in bytes. The request's pool holds it. Refused,
    /// nothing is changed: `NoSuchConn`; `Broken`; `Busy`; `NotInRequest`; `NoFile`: there is none of that name; `FileFailed`: the device
    /// failed; `NamesSpent`; `NoMemory`.
    pub fn open_file(&mut self, number: u64, name: &[u8]) -> Result<(FileNo, u64), Refusal>
        requires { (w : World) × IsHosting (F.device (files_of self.old)) self.old w }
        ensures event { (w : World) → IsHosting (F.device (files_of self.old)) self.old w
            → Happens (F.device (files_of self.old)) (F.device (files_of self.new)) self.old self.new number (OpenFile name.now) (file_answer result) w }
        ensures bare { is_bare self.new ≡ is_bare self.old }
    {
        match self.conns.by_number.get_mut(&number) {
            None => Err(Refusal::NoSuchConn),
            Some(conn) => conn.open_file(&mut self.tree, &mut self.store, &mut self.files, name),
        }
    }
}

impl<R: Rings<Stored> + Drop> Host<MemFiles, R> {
    ghost use Rattle.bucket_kinds.specs.MemDevice.{mem_device};
    ghost use Rattle.filter_chain.specs.Bare.{is_bare};
    ghost use Rattle.filter_chain.specs.Failing.{SetsToFail};
    ghost use Rattle.filter_chain.specs.Hosting.{IsHosting, TriesToAdd, budget_of, chain_of, files_of};

    /// Adds a file. `Taken` is told where there is a file of that name, and `NoMemory` only where there is none. Refused, nothing is
    /// changed.
    pub fn add_file(&mut self, name: &[u8], bytes: Vec<u8>) -> Result<(), AddRefusal>
        ensures event { (w : World) → IsHosting (mem_device (files_of self.old)) self.old w
            → TriesToAdd (mem_device (files_of self.old)) (mem_device (files_of self.new)) self.old self.new name.now bytes.items result w }
        ensures bare { is_bare self.new ≡ is_bare self.old }
    {
        self.files.add(name, bytes)
    }

    /// Of the openings and reads of files that follow, on whichever connection, the one of number `call`, counted from 1, fails, and all
    /// others go on as ever. 0 is the number of none. What was told before is forgotten. Every connection is left as it was. It takes no
    /// memory.
    pub fn fail_at(&mut self, call: u64)
        ensures fails { SetsToFail call self.old self.new }
        ensures hosts { (w : World) → IsHosting (mem_device (files_of self.old)) self.old w → IsHosting (mem_device (files_of self.new)) self.new w }
        ensures chain { chain_of self.new ≡ chain_of self.old }
        ensures budget { budget_of self.new ≡ budget_of self.old }
        ensures bare { is_bare self.new ≡ is_bare self.old }
    {
        self.files.fail_at(call);
    }
}
