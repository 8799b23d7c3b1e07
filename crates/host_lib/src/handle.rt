//! The handle by which C holds a session: `struct cidawru` of `cidawru.h`.

ghost use Rattle.std.specs.Prelude.{◌≡◌, MatchOption, Option, None, Some, false, true};
ghost use Rattle.std.specs.Coded.{coded_option};
ghost use Rattle.host_lib.specs.declared.session.HostSession.{HostSession};
ghost use Rattle.host_lib.specs.contracts.session.HostSession.{the_row};
ghost use Rattle.host_lib.specs.Owned.{session_owns};

use crate::loose::Loose;
use crate::session::HostSession;
use std::alloc::Global;
use std::marker::{Model, Send};
use std::mem;
use std::ptr::null_mut;

/// The address of a session in a box of its own, or of none.
#[repr(C)]
#[derive(Drop)]
pub struct SessionSlot {
    at: *mut u8,
    pub ghost value: { Option HostSession } by { coded_option the_row.coded },
}

impl Model for SessionSlot {
    ghost also_owns = { λ s. session_owns the_row s.at s.value };
}

unsafe impl Send for SessionSlot {}

/// Is called only where the type may go from thread to thread.
fn may_be_sent<T: Send>() {}

impl SessionSlot {
    ghost use Rattle.host_lib.specs.Awake.{IsAwake, HoldsSession};

    /// The slot of none.
    fn none() -> SessionSlot
        ensures { result.value ≡ None }
    {
        SessionSlot { at: null_mut() }
    }

    fn put(loose: Loose<HostSession, Global>) -> SessionSlot
        ensures { result.value ≡ Some loose.value }
    {
        let Loose { at, alloc: _ } = loose;
        SessionSlot { at: at as *mut u8 }
    }

    fn take(self, alloc: Global) -> Loose<HostSession, Global>
        requires { HoldsSession self.value }
        ensures { Some result.value ≡ self.value }
    {
        let SessionSlot { at } = self;
        Loose {
            at: at as *mut HostSession,
            alloc,
        }
    }

    /// The slot of a session.
    fn of(session: Box<HostSession>) -> SessionSlot
        ensures { result.value ≡ Some session.value }
    {
        SessionSlot::put(Loose::of(session))
    }

    /// The session of a slot.
    #[tactic(auto, using(crate::proofs::Steps::awake_there))]
    fn into_box(self, alloc: Global) -> Box<HostSession>
        requires { HoldsSession self.value }
        ensures value { Some result.value ≡ self.value }
        ensures awake { IsAwake result.value }
    {
        self.take(alloc).into_box()
    }
}

/// A handle: holds a session, or none. C begins with one of zeros, and gives its address to each call.
#[repr(C)]
#[derive(Drop)]
pub struct Handle {
    pub(crate) slot: SessionSlot,
    pub(crate) held: bool,
}

impl Handle {
    ghost use Rattle.host_lib.specs.Awake.{IsAwake, IsReadyHandle};

    /// Takes the session out, if there is one.
    pub(crate) fn take(&mut self, alloc: Global) -> Option<Box<HostSession>>
        requires { IsReadyHandle self.old }
        ensures left { self.new.slot.value ≡ None }
        ensures empty { self.new.held ≡ false }
        ensures session { MatchOption result (self.old.slot.value ≡ None) (λ b. (self.old.slot.value ≡ Some b.value) × IsAwake b.value) }
    {
        if !self.held {
            return None;
        }
        self.held = false;
        let slot = mem::replace(&mut self.slot, SessionSlot::none());
        Some(slot.into_box(alloc))
    }

    /// Holds this session.
    pub(crate) fn put(&mut self, session: Box<HostSession>)
        requires { self.old.slot.value ≡ None }
        ensures held { self.new.held ≡ true }
        ensures session { self.new.slot.value ≡ Some session.value }
    {
        // C may hand it to another thread.
        may_be_sent::<Handle>();
        self.slot = SessionSlot::of(session);
        self.held = true;
    }
}
