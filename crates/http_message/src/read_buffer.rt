//! The bytes that were read and not yet served.

ghost use Rattle.std.specs.Prelude.{◌≡◌, ◌≤◌, ◌++◌, length, drop, [], OnOk, OnErr};

use std::alloc::{AllocError, Global};

/// The bytes that were read and not yet served.
#[derive(Drop)]
pub struct ReadBuffer {
    bytes: Vec<u8>,
    at: usize,
    ghost fits: { at ≤ length bytes.items },
}

impl ReadBuffer {
    ghost use Rattle.http_message.specs.ReadBuffers.{unread};

    /// An inbox with nothing in it.
    pub fn new(alloc: Global) -> ReadBuffer
        ensures { unread result ≡ [] }
    {
        ReadBuffer {
            bytes: Vec::new(alloc),
            at: 0,
        }
    }

    /// The bytes that are not served.
    pub fn unread(&self) -> &[u8]
        ensures { result.now ≡ unread self.now }
    {
        &self.bytes.as_slice()[self.at..]
    }

    /// Drops the first bytes, which are served. Where none is left, their room is used again.
    pub fn skip(&mut self, count: usize)
        requires { count ≤ length (unread self.old) }
        ensures { unread self.new ≡ drop count (unread self.old) }
    {
        self.at += count;
        if self.at == self.bytes.len() {
            self.at = 0;
            self.bytes.clear();
        }
    }

    /// Drops the bytes that are served, which stand before the others.
    #[tactic(auto, using(crate::proofs::Kept::kept_front))]
    fn drop_served(&mut self)
        ensures same { unread self.new ≡ unread self.old }
        ensures none { self.new.at ≡ 0 }
    {
        let at = self.at;
        if at == 0 {
            return;
        }
        let left = self.bytes.len() - at;
        self.at = 0;
        self.bytes.copy_within(at.., 0);
        self.bytes.truncate(left);
    }

    /// Adds bytes. Those that are served are dropped first, so that it holds no more than what is not served. Without memory nothing is added.
    pub fn add(&mut self, more: &[u8]) -> Result<(), AllocError>
        ensures ok { OnOk result (unread self.new ≡ unread self.old ++ more.now) }
        ensures err { OnErr result (unread self.new ≡ unread self.old) }
        ensures held { self.new.at ≡ 0 }
    {
        self.drop_served();
        self.bytes.extend_from_slice(more)
    }
}
