//! The places of a raw block. All raw pointers of this repository are in this file.

ghost use Rattle.std.specs.Prelude.{◌≡◌, ℕ, ◌+◌, ◌<◌, ◌≤◌, List, Option, Some, None, true, is_some, length, replicate, get_or, IfOk};
ghost use Rattle.std.specs.Borrow.{sem};
ghost use Rattle.std.specs.Vec.Ownership.{FitsInBlock};
ghost use base.Fml.{ftrue};
ghost use denote.RawPtr.{Ptr};
ghost use Rattle.raw_block.specs.Maps.{read};
ghost use Rattle.raw_block.specs.Ownership.{row_owned, row_shared, right_owned};

use std::alloc::{AllocError, Allocator};
use std::marker::{Model, PhantomData, Send};
use std::mem::{align_of, size_of};
use std::slice;

/// Where a block begins. It owns nothing.
#[derive_where(Clone, Copy)]
pub(crate) struct Base<T> {
    ptr: *mut T,
}

unsafe impl<T> Send for Base<T> {}

/// What is owned of a block's places: the value of each full one, and the bytes of each empty one. It takes no bytes itself.
pub(crate) struct Cells<T> {
    mark: PhantomData<*const T>,
    ghost start: { Ptr },
    ghost places: { List (Option T) },
}

impl<T> Model for Cells<T> {
    ghost also_owns = { λ c. row_owned T.row c.start c.places };

    ghost also_shares = { λ c _ κ. row_shared T.row c.start c.places κ };
}

unsafe impl<T: Send> Send for Cells<T> {}

/// The right to free a block of `len` places. It takes no bytes itself.
pub(crate) struct Right<T, A: Allocator> {
    mark: PhantomData<*const (T, A)>,
    ghost start: { Ptr },
    ghost len: { ℕ },
    ghost alloc: { A },
}

impl<T, A: Allocator> Model for Right<T, A> {
    ghost also_owns = { λ r. right_owned T.row (A.dealloc_token r.alloc) r.start r.len };

    ghost also_shares = { λ _ _ _. ftrue };
}

unsafe impl<T, A: Allocator + Send> Send for Right<T, A> {}

/// A block of `len` empty places.
pub(crate) fn allocate<T, A: Allocator>(
    alloc: &A,
    len: usize,
) -> Result<(Base<T>, Cells<T>, Right<T, A>), AllocError>
    requires { FitsInBlock T.row len }
    ensures { IfOk result (λ r. (r.1.start ≡ r.0.ptr) × (r.1.places ≡ replicate len None) × (r.2.start ≡ r.0.ptr) × (r.2.len ≡ len) × (r.2.alloc ≡ alloc.now)) }
{
    match alloc.allocate(len * size_of::<T>(), align_of::<T>()) {
        Ok(bytes) => {
            let ptr = bytes as *mut T;
            let cells = Cells { mark: PhantomData };
            let right = Right { mark: PhantomData };
            Ok((Base { ptr }, cells, right))
        }
        Err(refused) => Err(refused),
    }
}

/// Frees a block of empty places.
pub(crate) fn deallocate<T, A: Allocator>(
    alloc: &A,
    base: Base<T>,
    len: usize,
    cells: Cells<T>,
    right: Right<T, A>,
)
    requires { (cells.start ≡ base.ptr) × (cells.places ≡ replicate len None) × (right.start ≡ base.ptr) × (right.len ≡ len) × (right.alloc ≡ alloc.now) }
{
    let Cells { mark: _ } = cells;
    let Right { mark: _ } = right;
    unsafe {
        alloc.deallocate(base.ptr as *mut u8, len * size_of::<T>(), align_of::<T>());
    }
}

impl<T> Cells<T> {
    ghost use Rattle.raw_block.specs.Lends.{with_place, LendsPlace};

    /// The value in place `k`.
    pub(crate) fn get(&self, base: Base<T>, k: usize) -> &T
        requires { (base.ptr ≡ self.now.start) × (is_some (get_or self.now.places k None) ≡ true) }
        ensures { get_or self.now.places k None ≡ Some result.now }
    {
        unsafe { &*base.ptr.add(k) }
    }

    /// The value in place `k`, to be changed there.
    pub(crate) fn get_mut(&mut self, base: Base<T>, k: usize) -> &mut T
        requires { (base.ptr ≡ self.old.start) × (is_some (get_or self.old.places k None) ≡ true) }
        ensures* lends { sem 𝓛 (LendsPlace T.row self.entry k result) }
        ensures value { get_or self.old.places k None ≡ Some result.now }
    {
        unsafe { &mut *base.ptr.add(k) }
    }

    /// The values of the `len` places from `from` on.
    pub(crate) fn slice(&self, base: Base<T>, from: usize, len: usize) -> &[T]
        requires { (base.ptr ≡ self.now.start) × (from + len ≤ length self.now.places) × ((k : ℕ) → from ≤ k → k < from + len → is_some (get_or self.now.places k None) ≡ true) }
        ensures { result.now ≡ read (λ k. get_or self.now.places k None) from len }
    {
        unsafe { slice::from_raw_parts(base.ptr.add(from), len) }
    }

    /// Moves the value out of place `k`.
    pub(crate) fn read(&mut self, base: Base<T>, k: usize) -> T
        requires { (base.ptr ≡ self.old.start) × (is_some (get_or self.old.places k None) ≡ true) }
        ensures { (get_or self.old.places k None ≡ Some result) × (self.new ≡ with_place self.old k None) }
    {
        unsafe { base.ptr.add(k).read() }
    }

    /// Moves a value into the empty place `k`.
    pub(crate) fn write(&mut self, base: Base<T>, k: usize, value: T)
        requires { (base.ptr ≡ self.old.start) × (k < length self.old.places) × (get_or self.old.places k None ≡ None) }
        ensures { self.new ≡ with_place self.old k (Some value) }
    {
        unsafe { base.ptr.add(k).write(value) }
    }
}
