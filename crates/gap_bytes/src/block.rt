// The block of memory: where it begins, its places, which may be empty, and the right to give it back.
ghost use Rattle.std.specs.Prelude.{◌≡◌, ℕ, ◌+◌, ◌<◌, ◌≤◌, false, replicate, take, drop, IfOk, ⊤};
ghost use Rattle.std.specs.Vec.Ownership.{FitsInBlock};
ghost use Rattle.core.specs.Mem.Slots.{slots_ptr, slots_len, slots_items, slots_filled};
ghost use Rattle.core.specs.Mem.Slots.Ownership.{Filled, leased};
ghost use denote.RawPtr.{Ptr};

use core::slots::Slots;
use std::alloc::{AllocError, Allocator};
use std::marker::{Model, PhantomData};
use std::mem::{align_of, size_of};
use std::slice;

/// Where a block begins. It owns nothing.
pub struct Start<T> {
    ptr: *mut T,
}

impl<T> Clone for Start<T> {
    ghost is_clone = { λ x y. y ≡ x };

    ghost is_infallible = { λ _. ⊤ };

    fn clone(&self) -> Result<Start<T>, AllocError> {
        Ok(*self)
    }
}

impl<T> Copy for Start<T> {}

/// The right to give back a block of `len` places to the allocator that it is from.
pub struct Claim<T, A: Allocator> {
    mark: PhantomData<*const (T, A)>,
    ghost at: { Ptr },
    ghost len: { ℕ },
    ghost alloc: { A },
}

impl<T, A: Allocator> Model for Claim<T, A> {
    ghost also_owns = { λ c. leased (A.dealloc_token c.alloc) T.row c.at c.len };
}

/// Takes a block of `len` empty places. `blank` only shows that the type has a value.
pub fn take_block<T, A: Allocator>(
    alloc: &A,
    len: usize,
    blank: &T,
) -> Result<(Start<T>, Slots<T>, Claim<T, A>), AllocError>
    requires { FitsInBlock T.row len }
    ensures { IfOk result (λ b. (b.0.ptr ≡ slots_ptr b.1) × (slots_len b.1 ≡ len) × (slots_items b.1 ≡ replicate len blank.now) × (b.2.at ≡ slots_ptr b.1) × (b.2.len ≡ len) × (b.2.alloc ≡ alloc.now)) }
{
    match alloc.allocate(len * size_of::<T>(), align_of::<T>()) {
        Ok(place) => {
            let ptr = place as *mut T;
            let slots = unsafe { Slots::from_raw_parts(ptr, len) };
            Ok((Start { ptr }, slots, Claim { mark: PhantomData }))
        }
        Err(refused) => Err(refused),
    }
}

/// Gives a block back. What its places hold is forgotten.
pub fn give_block<T, A: Allocator>(alloc: &A, slots: Slots<T>, claim: Claim<T, A>)
    requires { (claim.at ≡ slots_ptr slots) × (claim.len ≡ slots_len slots) × (claim.alloc ≡ alloc.now) }
{
    let Claim { mark: _ } = claim;
    unsafe {
        let (ptr, len) = slots.into_raw_parts();
        alloc.deallocate(ptr as *mut u8, len * size_of::<T>(), align_of::<T>());
    }
}

/// The `len` values from the place `from` on.
pub fn run_of<T>(slots: &Slots<T>, start: Start<T>, from: usize, len: usize) -> &[T]
    requires start { start.ptr ≡ slots_ptr slots.now }
    requires within { (0 < len) × (from + len ≤ slots_len slots.now) }
    requires filled { Filled (slots_filled slots.now) from (from + len) }
    ensures { result.now ≡ take len (drop from (slots_items slots.now)) }
{
    unsafe { slice::from_raw_parts(start.ptr.add(from), len) }
}
