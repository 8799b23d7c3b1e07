//! The text of the tree.

ghost use Rattle.std.specs.Prelude.{◌≡◌, ℕ, ◌+◌, ◌≤◌, List, ◌++◌, reverse, IsTrue, IfSome, MatchOption, None, Some, [], ◌∷◌};
ghost use Rattle.std.specs.List.{flat_map};
ghost use Rattle.byte_text.specs.Writes.{WroteAll, writer_state};
ghost use Rattle.pool_tree.specs.Prelude.{is_live, children, IsPlace, text_behind, text_left, record_of, parent_of, newest_of, older_of, margin, spaced, spaced_all, marked, marked_all, line, printed, map_of};

use super::{PoolId, PoolTree};
use crate::text::PoolText;
use byte_text::{TextWriter, WriteFault, put_all};
use itoa::Buffer;
use run_model::CleanupKind;
use std::io::Write;

/// Writes two spaces for each pool above.
fn put_margin<W: Write>(out: &mut TextWriter<W>, depth: u64) -> Result<(), WriteFault>
    ensures { WroteAll result (writer_state W.contents out.old) (writer_state W.contents out.new) (margin depth) }
{
    for _level in 0..depth {
        put_all(out, b"  ")?;
    }
    Ok(())
}

/// Writes a space and the text of a payload, where that is shown.
fn put_shown<T: PoolText, W: Write>(out: &mut TextWriter<W>, payload: &T) -> Result<(), WriteFault>
    ensures { WroteAll result (writer_state W.contents out.old) (writer_state W.contents out.new) (spaced (T.shown payload.now)) }
{
    if !payload.is_shown() {
        return Ok(());
    }
    put_all(out, b" ")?;
    payload.put(out)
}

/// Writes the texts of payloads, the oldest first.
fn put_payloads<T: PoolText, W: Write>(
    out: &mut TextWriter<W>,
    payloads: &[T],
) -> Result<(), WriteFault>
    ensures { WroteAll result (writer_state W.contents out.old) (writer_state W.contents out.new) (spaced_all T.shown payloads.now) }
{
    for payload in payloads {
        put_shown(out, payload)?;
    }
    Ok(())
}

/// Writes a space, a caret and the text of a payload, where that is shown.
fn put_early<T: PoolText, W: Write>(out: &mut TextWriter<W>, payload: &T) -> Result<(), WriteFault>
    ensures { WroteAll result (writer_state W.contents out.old) (writer_state W.contents out.new) (marked (T.shown payload.now)) }
{
    if !payload.is_shown() {
        return Ok(());
    }
    put_all(out, b" ^")?;
    payload.put(out)
}

/// Writes the texts of pre-payloads, the oldest first.
fn put_pre_payloads<T: PoolText, W: Write>(
    out: &mut TextWriter<W>,
    payloads: &[T],
) -> Result<(), WriteFault>
    ensures { WroteAll result (writer_state W.contents out.old) (writer_state W.contents out.new) (marked_all T.shown payloads.now) }
{
    for payload in payloads {
        put_early(out, payload)?;
    }
    Ok(())
}

impl<T: Drop + PoolText> PoolTree<T> {
    /// Writes the line of a pool.
    fn put_line<W: Write>(
        &self,
        out: &mut TextWriter<W>,
        pool: PoolId,
        depth: u64,
    ) -> Result<(), WriteFault>
        ensures { WroteAll result (writer_state W.contents out.old) (writer_state W.contents out.new) (line T.shown (map_of self.now) depth pool) }
    {
        let mut digits = Buffer::new();
        put_margin(out, depth)?;
        put_all(out, b"pool ")?;
        put_all(out, digits.format(pool).as_bytes())?;
        put_pre_payloads(out, self.records.payloads(CleanupKind::Pre, pool))?;
        put_payloads(out, self.records.payloads(CleanupKind::Plain, pool))?;
        put_all(out, b"\n")
    }

    /// The child of a pool that was made first.
    fn oldest_child(&self, pool: PoolId) -> Option<PoolId>
        ensures { MatchOption result (newest_of (record_of self.now.records) pool ≡ None) (λ c. (parent_of (record_of self.now.records) c ≡ Some pool)
            × (older_of (record_of self.now.records) c ≡ None)) }
    {
        let mut oldest = match self.records.newest(pool) {
            Some(newest) => newest,
            None => return None,
        };
        while let Some(older) = self.records.older(oldest) {
            oldest = older;
        }
        Some(oldest)
    }

    /// Where a walk of the pools under `top` goes on behind a pool and those under it, and how many pools stand above that: at the next
    /// younger pool beside it, or beside one of those above it. `None`: it was the last.
    fn behind(&self, top: PoolId, pool: PoolId, depth: u64) -> Option<(PoolId, u64)>
        requires { (start : ℕ) × IsPlace self.now top start pool depth }
        ensures place { (start : ℕ) → IsPlace self.now top start pool depth → IfSome result (λ next. IsPlace self.now top start next.0 next.1) }
        ensures left { (text : ℕ → ℕ → List ℕ) (start : ℕ) → IsPlace self.now top start pool depth → text_left text self.now top start result ≡ text_behind text self.now top start pool }
    {
        let mut name = pool;
        let mut level = depth;
        while name != top {
            if let Some(younger) = self.records.younger(name) {
                return Some((younger, level));
            }
            let Some(parent) = self.records.parent(name) else {
                unreachable!()
            };
            name = parent;
            level -= 1;
        }
        None
    }

    /// Where a walk of the pools under `top` goes on behind the line of a pool, as `behind`.
    fn below(&self, top: PoolId, pool: PoolId, depth: u64) -> Option<(PoolId, u64)>
        requires { (start : ℕ) × IsPlace self.now top start pool depth }
        ensures place { (start : ℕ) → IsPlace self.now top start pool depth → IfSome result (λ next. IsPlace self.now top start next.0 next.1) }
        ensures left { (text : ℕ → ℕ → List ℕ) (start : ℕ) → IsPlace self.now top start pool depth
            → text_left text self.now top start result ≡ flat_map (text (depth + 1)) (reverse (children (map_of self.now) pool)) ++ text_behind text self.now top start pool }
    {
        match self.oldest_child(pool) {
            Some(child) => {
                prove!(depth < self.next);
                Some((child, depth + 1))
            }
            None => self.behind(top, pool, depth),
        }
    }

    /// Writes the lines of a pool and of those under it, as `print` does where this many pools stand above.
    pub fn put_pool<W: Write>(
        &self,
        out: &mut TextWriter<W>,
        pool: PoolId,
        depth: u64,
    ) -> Result<(), WriteFault>
        requires live { IsTrue (is_live (map_of self.now) pool) }
        requires small { depth ≤ pool }
        ensures { WroteAll result (writer_state W.contents out.old) (writer_state W.contents out.new) (printed T.shown (map_of self.now) depth pool) }
    {
        let mut place = Some((pool, depth));
        while let Some((name, level)) = place {
            self.put_line(out, name, level)?;
            place = self.below(pool, name, level);
        }
        Ok(())
    }

    /// Writes a line for each pool, its children below it, the oldest first: two spaces for each pool above,
    /// `pool` and its name, then a space, a caret and the text of each pre-payload, then a space and the text of each plain payload whose text is not empty, the oldest first.
    /// It takes no memory, and no more stack where the tree is deeper.
    pub fn print<W: Write>(&self, out: &mut TextWriter<W>) -> Result<(), WriteFault>
        ensures { (root : ℕ) → (map_of self.now).path root ≡ root ∷ [] → WroteAll result (writer_state W.contents out.old) (writer_state W.contents out.new) (printed T.shown (map_of self.now) 0 root) }
    {
        self.put_pool(out, self.root, 0)
    }
}
