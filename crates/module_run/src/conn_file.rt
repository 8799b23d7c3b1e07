//! A file is opened in a request.

ghost use Rattle.std.specs.Prelude.{◌≡◌, ◌<◌, ◌≤◌, ◌==◌, ◌+◌, ◌∷◌, ◌++◌, [], ℕ, List, Some, IsTrue, OnOk, OnErr, if◌then◌else◌};
ghost use Rattle.module_run.specs.Prelude.{NoneRevived, Program, Linked, is_live, registered, IsPoolMap, map_of, IsHouse, lists, brigade_of, pool_of, references, next_name, Stands, LeavesOthers};
ghost use Rattle.module_run.specs.Prelude.{WasOpened, unopened_by, StandsFor};
ghost use Rattle.std.specs.Vec.{vec_len, vec_capacity};

use crate::conn::{Conn, OpenFile};
use brigade_ops::{Brigades, FileNo, Files, PoolId, PoolTree, Rings, Stored};
use bucket_kinds::FileFault;
use run_model::{Payload, Refusal};
use std::alloc::AllocError;

/// Why a file is not opened.
fn unopened(fault: FileFault) -> Refusal
    ensures { result ≡ unopened_by fault }
{
    match fault {
        FileFault::NotThere => Refusal::NoFile,
        FileFault::Failed => Refusal::FileFailed,
        FileFault::NamesSpent => Refusal::NamesSpent,
        FileFault::NoMemory => Refusal::NoMemory,
    }
}

/// Adds a file, where there is room.
fn add_file(files: &mut Vec<OpenFile>, file: OpenFile)
    requires { vec_len files.old < vec_capacity files.old }
    ensures { files.new.items ≡ files.old.items ++ file ∷ [] }
{
    files.push(file).unwrap();
}

impl Conn {
    /// Notes a file that was opened in the request of this pool, which holds the reference. Without memory nothing is changed.
    fn keep_file<R: Rings<Stored> + Drop>(
        &mut self,
        tree: &mut PoolTree<Payload>,
        store: &mut Brigades<R>,
        req: PoolId,
        file: OpenFile,
    ) -> Result<(), AllocError>
        requires { IsTrue (is_live (map_of tree.old) req) }
        ensures files { OnOk result (self.new.files.items ≡ self.old.files.items ++ file ∷ []) }
        ensures rest { self.new ≡ record self.old { files = self.new.files } }
        ensures same { OnErr result (self.new.files.items ≡ self.old.files.items) }
        ensures map { OnOk result (map_of tree.new ≡ registered req (Payload.FileRef file.number) (map_of tree.old)) }
        ensures counted { OnOk result ((f : ℕ) → references store.new f ≡ (if f == file.number then references store.old f + 1 else references store.old f)) }
        ensures lists { lists store.new ≡ lists store.old }
        ensures brigades { brigade_of store.new ≡ brigade_of store.old }
        ensures pools { pool_of store.new ≡ pool_of store.old }
        ensures next { next_name store.new ≡ next_name store.old }
        ensures formed { IsPoolMap (map_of tree.new) }
        ensures kept { OnErr result (map_of tree.new ≡ map_of tree.old) }
        ensures uncounted { OnErr result ((f : ℕ) → references store.new f ≡ references store.old f) }
        ensures house { IsHouse store.old (map_of tree.old) → IsHouse store.new (map_of tree.new) }
    {
        self.files.reserve(1)?;
        store.refer(tree, req, file.number)?;
        add_file(&mut self.files, file);
        Ok(())
    }

    /// Opens a file in the open request, and gives its number and its length in bytes. Refused, nothing is changed, and no file more is open:
    /// `Broken`; `Busy`: a call is running; `NotInRequest`; `NoFile`: there is none of that name; `FileFailed`: the device failed;
    /// `NamesSpent`: its number would be `u64::MAX`; `NoMemory`.
    #[tactic(auto, using(crate::proofs::FileOpens::file_left, crate::proofs::Refusing::open_left))]
    pub fn open_file<R: Rings<Stored> + Drop, F: Files>(
        &mut self,
        tree: &mut PoolTree<Payload>,
        store: &mut Brigades<R>,
        files: &mut F,
        name: &[u8],
    ) -> Result<(FileNo, u64), Refusal>
        requires stands { (chain : List Program) × Stands chain tree.old store.old (F.device files.old) self.old }
        ensures leaves { LeavesOthers (map_of tree.old) store.old store.new self.old self.new }
        ensures opened { (chain : List Program) (v : Linked) → StandsFor chain tree.old store.old (F.device files.old) self.old v → v.0.file ≤ (F.device files.old).next
            → WasOpened chain tree.new store.new (F.device files.old) (F.device files.new) self.new name.now result v }
    {
        let req = match self.request() {
            Ok(pool) => pool,
            Err(why) => return Err(why),
        };
        let (number, len) = match files.open_file(name) {
            Ok(opened) => opened,
            Err(fault) => return Err(unopened(fault)),
        };
        let Ok(()) = self.keep_file(tree, store, req, OpenFile { number, len }) else {
            files.close_file(number);
            return Err(Refusal::NoMemory);
        };
        Ok((number, len))
    }
}
