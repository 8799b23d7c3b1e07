//! The end of the chain, where the bytes of brigades become output.

ghost use Rattle.std.specs.Prelude.{◌≡◌, ◌==◌, ◌⊎◌, ◌+◌, ◌<◌, ◌≤◌, ◌^◌, ◌*◌, ℕ, Bool, true, false, not, ◌&&◌, length, is_some, if◌then◌else◌, All, Some, IfSome, IsOk, IfOk, OnOk, OnErr};
ghost use Rattle.interp_calls.specs.Prelude.{HasRoomFor, bytes_before_eos, counts, from_place, reads, text, is_there, IsOpenFor, BucketId, list_at, has_eos, is_eos_kind, length_in, items_of, do_pass, has_bytes};
ghost use Rattle.interp_calls.specs.Prelude.{EndsInFile, length_of, read_limit};
ghost use Rattle.interp_calls.specs.Prelude.{Bucket, named, lists, brigade_of, bucket_at, content_of, ContentAdded, HasFront, IsFetched, ItemsAdded, WasDelivered, out_of, Call, ContextView};
ghost use Rattle.interp_calls.specs.Prelude.{EndInFiles, RangeIsOpen, IsHeld, LeavesForeign, live_in, marked, name_in, slot_at, seen, shown, contents};

use crate::output_block::{Filled, OutputBlock};
use crate::passes::{hand_over_with, has_eos, is_eos};
use brigade_ops::{
    BrigadeId, Brigades, BucketId, Content, ContentView, FileNo, Files, Rings, Stored,
};
use interp_state::machine::{Instance, Slot};
use run_model::Mark;
use std::alloc::AllocError;

/// How many bytes a read takes from a file, at most.
const READ_LIMIT: u64 = 8000;

/// How many bytes are asked for at once of a device that does not count its calls: those of ten reads. So a file of 64 KiB takes one.
const SPAN_LIMIT: u64 = 80_000;

/// What became of bytes that were asked for.
#[derive(Clone, Copy)]
pub(crate) enum Fetched {
    /// All of them were given.
    All,
    /// The file ends before the last of them.
    Ended,
    /// The device failed.
    Failed,
}

/// Fills a buffer from a place of a file on, and tells what became of that.
pub(crate) fn fetch<F: Files>(files: &mut F, file: FileNo, at: u64, buffer: &mut [u8]) -> Fetched
    requires { is_there ((F.device files.old).numbered file) ≡ true }
    ensures fetched { IsFetched (F.device files.old) (F.device files.new) file at (length buffer.old) buffer.new result }
    ensures open_files { (F.device files.new).numbered ≡ (F.device files.old).numbered }
    ensures len { length buffer.new ≡ length buffer.old }
{
    let count = buffer.len();
    match files.read_at(file, at, buffer) {
        Ok(filled) if filled == count => Fetched::All,
        Ok(_) => Fetched::Ended,
        Err(_) => Fetched::Failed,
    }
}

/// How many bytes are asked for at once. A device that counts its calls is asked for those of each read alone, so that the read which is
/// to fail does; another is after one call what it is after ten.
fn span_limit<F: Files>(files: &F) -> u64
    ensures { result ≡ (if counts (F.device files.now).plan then read_limit else 10 * read_limit) }
{
    if files.counts_calls() {
        READ_LIMIT
    } else {
        SPAN_LIMIT
    }
}

/// Adds a range to the output, for which there is room, up to a read that fails, and tells whether none did. Ten reads are made as one, but one
/// by one where the device counts its calls, and where the file ends within them.
fn add_range<F: Files>(out: &mut Filled, files: &mut F, file: FileNo, start: u64, len: u64) -> bool
    requires open { is_there ((F.device files.old).numbered file) ≡ true }
    requires ends { start + len < 2 ^ 64 }
    requires room { 0 < len → HasRoomFor len out.old }
    requires within { out.old.end ≤ length out.old.block }
    ensures added { ContentAdded (F.device files.old) (F.device files.new) (Content.Range file start len) result (text out.old) (text out.new) }
    ensures front { HasFront (text out.old) (text out.new) }
    ensures size { length out.new.block ≡ length out.old.block }
    ensures low { out.old.end ≤ out.new.end }
    ensures high { out.new.end ≤ out.old.end + len }
    ensures within { out.new.end ≤ length out.new.block }
    ensures still { len ≡ 0 → F.device files.new ≡ F.device files.old }
    ensures open_files { (F.device files.new).numbered ≡ (F.device files.old).numbered }
{
    let mut count = 0;
    let mut limit = span_limit(files);
    while count < len {
        let part = limit.min(len - count);
        match out.add_span(files, file, start + count, part) {
            Fetched::All => count += part,
            Fetched::Ended if part > READ_LIMIT => limit = READ_LIMIT,
            _ => return false,
        }
    }
    true
}

/// Adds the bytes of a content to the output, up to a read that fails, and tells whether none did. There is room for what is read. Without memory
/// nothing is changed.
fn add<F: Files>(
    out: &mut Filled,
    files: &mut F,
    content: ContentView<'_>,
) -> Result<bool, AllocError>
    requires ends { EndsInFile (content_of content) }
    requires open { IsOpenFor (F.device files.old) (content_of content) }
    requires room { reads (content_of content) ≡ true → HasRoomFor (length_of (content_of content)) out.old }
    requires within { out.old.end ≤ length out.old.block }
    ensures added { IfOk result (λ whole. ContentAdded (F.device files.old) (F.device files.new) (content_of content.entry) whole (text out.old) (text out.new)) }
    ensures front { HasFront (text out.old) (text out.new) }
    ensures sure { length_of (content_of content.entry) ≡ 0 → IsOk result }
    ensures fits { HasRoomFor (length_of (content_of content.entry)) out.old → IsOk result }
    ensures room { (n : ℕ) → HasRoomFor (length_of (content_of content.entry) + n) out.old → HasRoomFor n out.new }
    ensures within { out.new.end ≤ length out.new.block }
    ensures still { reads (content_of content.entry) ≡ false → F.device files.new ≡ F.device files.old }
    ensures unread { OnErr result (F.device files.new ≡ F.device files.old) }
    ensures open_files { (F.device files.new).numbered ≡ (F.device files.old).numbered }
{
    match content {
        ContentView::Bytes(bytes) => {
            out.extend(bytes)?;
            Ok(true)
        }
        ContentView::Range { file, start, len } => Ok(add_range(out, files, file, start, len)),
        ContentView::Nothing => Ok(true),
    }
}

/// Whether a file is read for a content.
fn reads(content: ContentView<'_>) -> bool
    ensures { result ≡ reads (content_of content.entry) }
{
    match content {
        ContentView::Range { len, .. } => len > 0,
        ContentView::Bytes(_) | ContentView::Nothing => false,
    }
}

/// How many bytes the buckets of a brigade have from a place of a walk on, before their first EOS; none where that is more than 2^64 - 1.
fn bytes_from<R: Rings<Stored> + Drop>(
    store: &Brigades<R>,
    b: BrigadeId,
    from: Option<BucketId>,
) -> Option<u64>
    requires inside { IfSome from (λ id. brigade_of store.now id ≡ Some b) }
    ensures { IfSome result (λ n. n ≡ bytes_before_eos (from_place from (list_at (lists store.now) b))) }
{
    let mut sum = 0u64;
    let mut place = from;
    while let Some(id) = place {
        let bucket = store.payload(id);
        if is_eos(bucket.kind) {
            return Some(sum);
        }
        sum = sum.checked_add(bucket.content.len())?;
        place = store.behind(id);
    }
    Some(sum)
}

/// Makes room for all bytes of a brigade from a place of a walk on, before the first file is read, where this content is read: so no read comes
/// before a growth. Tells whether there is such room. Without memory nothing is changed.
fn make_room<R: Rings<Stored> + Drop>(
    out: &mut Filled,
    store: &Brigades<R>,
    b: BrigadeId,
    from: Option<BucketId>,
    content: ContentView<'_>,
    roomy: bool,
) -> Result<bool, AllocError>
    requires inside { IfSome from (λ id. brigade_of store.now id ≡ Some b) }
    requires within { out.old.end ≤ length out.old.block }
    requires room { roomy ≡ true → HasRoomFor (bytes_before_eos (from_place from (list_at (lists store.now) b))) out.old }
    ensures room { IfOk result (λ now. now ≡ true → HasRoomFor (bytes_before_eos (from_place from (list_at (lists store.now) b))) out.new) }
    ensures reads { IfOk result (λ now. reads (content_of content.entry) ≡ true → now ≡ true) }
    ensures stays { IfOk result (λ now. now ≡ false → roomy ≡ false) }
    ensures lacks { OnErr result (roomy ≡ false) }
    ensures sure { reads (content_of content.entry) ≡ false → IsOk result }
    ensures text { text out.new ≡ text out.old }
    ensures within { out.new.end ≤ length out.new.block }
{
    if roomy || !reads(content) {
        return Ok(roomy);
    }
    let Some(count) = bytes_from(store, b, from) else {
        return Err(AllocError);
    };
    out.reserve(count)?;
    Ok(true)
}

/// What was met while the bytes of a brigade were added to the output.
#[derive(Clone, Copy)]
pub(crate) struct Collected {
    /// Whether no read failed.
    pub(crate) whole: bool,
    /// Whether an EOS was reached.
    pub(crate) eos: bool,
}

/// Adds the bytes of a brigade before its first EOS to the output, up to a read that fails, and tells what was met. Room for all that is left
/// is made before the first read. Without memory some bytes may have been added, and nothing was read.
pub(crate) fn add_all<R: Rings<Stored> + Drop, F: Files>(
    out: &mut Filled,
    files: &mut F,
    store: &Brigades<R>,
    b: BrigadeId,
) -> Result<Collected, AllocError>
    requires there { is_some (lists store.now b) ≡ true }
    requires ends { (id : BucketId) (x : Bucket) → brigade_of store.now id ≡ Some b → bucket_at store.now id ≡ Some x → EndsInFile x.content }
    requires open { (id : BucketId) (x : Bucket) → brigade_of store.now id ≡ Some b → bucket_at store.now id ≡ Some x → IsOpenFor (F.device files.old) x.content }
    requires within { out.old.end ≤ length out.old.block }
    ensures added { IfOk result (λ met. ItemsAdded (F.device files.old) (F.device files.new) (list_at (lists store.now) b) met.whole (text out.old) (text out.new)) }
    ensures eos { IfOk result (λ met. (runs : ℕ → Bool) → met.eos ≡ true → has_eos (shown runs (list_at (lists store.now) b)) ≡ true) }
    ensures none { IfOk result (λ met. (runs : ℕ → Bool) → met.whole ≡ true → met.eos ≡ false → has_eos (shown runs (list_at (lists store.now) b)) ≡ false) }
    ensures front { HasFront (text out.old) (text out.new) }
    ensures sure { has_bytes (named (list_at (lists store.now) b)) ≡ false → IsOk result }
    ensures unread { OnErr result (F.device files.new ≡ F.device files.old) }
    ensures within { out.new.end ≤ length out.new.block }
    ensures open_files { (F.device files.new).numbered ≡ (F.device files.old).numbered }
{
    let mut place = store.start(b);
    let mut roomy = false;
    while let Some(id) = place {
        let bucket = store.payload(id);
        if is_eos(bucket.kind) {
            return Ok(Collected {
                whole: true,
                eos: true,
            });
        }
        roomy = make_room(out, store, b, place, bucket.content, roomy)?;
        if !add(out, files, bucket.content)? {
            return Ok(Collected {
                whole: false,
                eos: false,
            });
        }
        place = store.behind(id);
    }
    Ok(Collected {
        whole: true,
        eos: false,
    })
}

/// Whether an EOS stands in a brigade, by what was met while its bytes were added. It is looked for only where a read failed before.
fn ends<R: Rings<Stored> + Drop>(store: &Brigades<R>, b: BrigadeId, met: Collected) -> bool
    requires there { is_some (lists store.now b) ≡ true }
    requires eos { (runs : ℕ → Bool) → met.eos ≡ true → has_eos (shown runs (list_at (lists store.now) b)) ≡ true }
    requires none { (runs : ℕ → Bool) → met.whole ≡ true → met.eos ≡ false → has_eos (shown runs (list_at (lists store.now) b)) ≡ false }
    ensures { (runs : ℕ → Bool) → result ≡ has_eos (shown runs (list_at (lists store.now) b)) }
{
    if met.eos {
        return true;
    }
    if met.whole {
        return false;
    }
    has_eos(store, b)
}

/// Adds the bytes of a brigade before its first EOS to the output, up to a read that fails, and tells whether none did. An EOS ends the
/// output, also behind a read that failed, and what comes after it is ignored. Without memory nothing is changed, and nothing was read.
pub fn add_brigade<R: Rings<Stored> + Drop, F: Files>(
    store: &Brigades<R>,
    files: &mut F,
    b: BrigadeId,
    out: &mut OutputBlock,
    ended: &mut bool,
) -> Result<bool, AllocError>
    requires there { is_some (lists store.now b) ≡ true }
    requires ends { (id : BucketId) (x : Bucket) → brigade_of store.now id ≡ Some b → bucket_at store.now id ≡ Some x → EndsInFile x.content }
    requires open { (id : BucketId) (x : Bucket) → brigade_of store.now id ≡ Some b → bucket_at store.now id ≡ Some x → IsOpenFor (F.device files.old) x.content }
    ensures ok { IfOk result (λ well. (runs : ℕ → Bool)
        → WasDelivered (F.device files.old) (F.device files.new) (out_of out.old ended.old) (shown runs (list_at (lists store.now) b)) (out_of out.new ended.new) well) }
    ensures eos { ended.old ≡ false → OnOk result ((runs : ℕ → Bool) → ended.new ≡ has_eos (shown runs (list_at (lists store.now) b))) }
    ensures err { OnErr result (out_of out.new ended.new ≡ out_of out.old ended.old) }
    ensures sure { (runs : ℕ → Bool) → (not ended.old && has_bytes (shown runs (list_at (lists store.now) b))) ≡ false → IsOk result }
    ensures unread { OnErr result (F.device files.new ≡ F.device files.old) }
    ensures open_files { (F.device files.new).numbered ≡ (F.device files.old).numbered }
{
    if *ended {
        return Ok(true);
    }
    let len = out.len();
    let Ok(met) = out.add_all(files, store, b) else {
        out.truncate(len);
        return Err(AllocError);
    };
    *ended = ends(store, b, met);
    Ok(met.whole)
}

/// The brigade of a variable was taken by the output: its buckets are destroyed, and the variable is marked passed. It is remembered where
/// an EOS went with it.
#[tactic(auto, using(interp_state::proofs::Slots::made_in))]
fn empty_passed<R: Rings<Stored> + Drop>(
    instance: &mut Instance,
    store: &mut Brigades<R>,
    b: u8,
    eos: bool,
)
    requires slot { b < 9 }
    requires live { is_some (live_in (lists store.old) (slot_at instance.old b)) ≡ true }
    requires eos { (runs : ℕ → Bool) → eos ≡ has_eos (contents runs (lists store.old) (live_in (lists store.old) (slot_at instance.old b))) }
    ensures seen { (view : ContextView) (call : Call) → IsHeld store.old instance.old call → seen store.new view instance.new call ≡ do_pass b (seen store.old view instance.old call) }
    ensures held { (call : Call) → IsHeld store.old instance.old call → IsHeld store.new instance.new call }
    ensures left { (call : Call) → LeavesForeign store.old store.new instance.old call }
    ensures slots { (a : ℕ) → slot_at instance.new a ≡ (if a == b then marked Mark.Passed (slot_at instance.old b) else slot_at instance.old a) }
    ensures unasked { store.new.asked ≡ store.old.asked }
{
    let name = instance.brigade(b);
    hand_over_with(instance, store, b, eos);
    store.clean(name);
}

/// The bytes of the brigade of a variable are put out, if it has one, and it is told whether that went well. The brigade stays as it is.
/// Without memory nothing is changed, and nothing was read.
pub fn put_out<R: Rings<Stored> + Drop, F: Files>(
    instance: &Instance,
    store: &Brigades<R>,
    files: &mut F,
    b: u8,
    out: &mut OutputBlock,
    ended: &mut bool,
) -> Result<bool, AllocError>
    requires slot { b < 9 }
    requires there { (m : ℕ) → name_in (slot_at instance.now b) ≡ Some m → is_some (lists store.now m) ≡ true }
    requires ends { EndInFiles store.now instance.now }
    requires open { (view : ContextView) × (call : Call) × All (RangeIsOpen (F.device files.old)) (items_of ((seen store.now view instance.now call).instance.brigades b)) }
    ensures delivered { IfOk result (λ well. (view : ContextView) (call : Call)
        → WasDelivered (F.device files.old) (F.device files.new) (out_of out.old ended.old) (items_of
        ((seen store.now view instance.now call).instance.brigades b)) (out_of out.new ended.new) well) }
    ensures kept { OnErr result (out_of out.new ended.new ≡ out_of out.old ended.old) }
    ensures sure { (view : ContextView) (call : Call) → (not ended.old && has_bytes (items_of ((seen store.now view instance.now call).instance.brigades b))) ≡ false → IsOk result }
    ensures unread { OnErr result (F.device files.new ≡ F.device files.old) }
    ensures open_files { (F.device files.new).numbered ≡ (F.device files.old).numbered }
{
    match instance.slot(b) {
        Slot::Made(name, _, _) => add_brigade(store, files, name, out, ended),
        Slot::Null => Ok(true),
    }
}

/// The last filter passes the brigade of a variable to the end of the chain, and it is told whether that went well. Without memory
/// nothing is changed, and nothing was read.
#[tactic(auto, using(interp_state::proofs::Slots::made_in))]
pub fn pass_out<R: Rings<Stored> + Drop, F: Files>(
    instance: &mut Instance,
    store: &mut Brigades<R>,
    files: &mut F,
    b: u8,
    out: &mut OutputBlock,
    ended: &mut bool,
) -> Result<bool, AllocError>
    requires slot { b < 9 }
    requires live { is_some (live_in (lists store.old) (slot_at instance.old b)) ≡ true }
    requires ends { EndInFiles store.old instance.old }
    requires open { (view : ContextView) × (call : Call) × All (RangeIsOpen (F.device files.old)) (items_of ((seen store.old view instance.old call).instance.brigades b)) }
    ensures delivered { IfOk result (λ well. (view : ContextView) (call : Call)
        → WasDelivered (F.device files.old) (F.device files.new) (out_of out.old ended.old) (items_of
        ((seen store.old view instance.old call).instance.brigades b)) (out_of out.new ended.new) well) }
    ensures passed { OnOk result ((view : ContextView) (call : Call) → IsHeld store.old instance.old call
        → seen store.new view instance.new call ≡ do_pass b (seen store.old view instance.old call)) }
    ensures held { (call : Call) → IsHeld store.old instance.old call → IsHeld store.new instance.new call }
    ensures left { OnOk result ((call : Call) → LeavesForeign store.old store.new instance.old call) }
    ensures err { OnErr result ((view : ContextView) (call : Call) → seen store.new view instance.new call ≡ seen store.old view instance.old call) }
    ensures slots { OnOk result ((a : ℕ) → slot_at instance.new a ≡ (if a == b then marked Mark.Passed (slot_at instance.old b) else slot_at instance.old a)) }
    ensures same { OnErr result ((instance.new ≡ instance.old) × (store.new ≡ store.old)) }
    ensures kept { OnErr result (out_of out.new ended.new ≡ out_of out.old ended.old) }
    ensures sure { (view : ContextView) (call : Call) → (not ended.old && has_bytes (items_of ((seen store.old view instance.old call).instance.brigades b))) ≡ false → IsOk result }
    ensures unread { OnErr result (F.device files.new ≡ F.device files.old) }
    ensures open_files { (F.device files.new).numbered ≡ (F.device files.old).numbered }
    ensures unasked { store.new.asked ≡ store.old.asked }
{
    let name = instance.brigade(b);
    let had_ended = *ended;
    let well = add_brigade(store, files, name, out, ended)?;
    let eos = if had_ended {
        has_eos(store, name)
    } else {
        *ended
    };
    empty_passed(instance, store, b, eos);
    Ok(well)
}
