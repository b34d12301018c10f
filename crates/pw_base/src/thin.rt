// A block of a count and so many elements behind it, reached by one pointer, and what it goes through.
ghost use Rattle.std.specs.Prelude.{◌≡◌, ℕ, ◌+◌, ◌^◌, ◌<◌, ◌≤◌, List, length, IfSome, IsTrue};
ghost use Rattle.std.specs.Mem.{type_size};
ghost use Rattle.std.specs.Align.{type_align};
ghost use Rattle.core.specs.Mem.Slots.{slots_items, slots_filled, slots_ptr, slots_len, IsFull};
ghost use denote.RawPtr.{Ptr, ◌+ₚ◌};
ghost use Rattle.pw_base.specs.Block.{Fits, block_bytes, space_owns, open_owns, thin_owns, thin_shares};

use core::slots::Slots;
use std::alloc::Allocator;
use std::marker::{Model, PhantomData};
use std::mem::{align_of, size_of};
use std::slice;

// The bytes of the count, which the elements lie behind. No element is aligned to more.
const COUNT_BYTES: usize = 8;

// Room for the count and `len` elements, of which nothing is written.
pub(crate) struct Space<T, A: Allocator> {
    ptr: *mut usize,
    by: PhantomData<*const (T, A)>,
    pub(crate) ghost len: { ℕ },
    pub(crate) ghost heap: { A },
}

impl<T, A: Allocator> Model for Space<T, A> {
    ghost also_owns = { λ s. space_owns (A.dealloc_token s.heap) T.row s.ptr s.len };
}

// What stays of a block while its elements are out as slots.
pub(crate) struct Open<T, A: Allocator> {
    pub(crate) ptr: *mut usize,
    by: PhantomData<*const (T, A)>,
    pub(crate) ghost len: { ℕ },
    pub(crate) ghost heap: { A },
}

impl<T, A: Allocator> Model for Open<T, A> {
    ghost also_owns = { λ o. open_owns (A.dealloc_token o.heap) T.row o.ptr o.len };
}

// A block with its count and its elements.
pub(crate) struct Thin<T, A: Allocator> {
    ptr: *mut usize,
    by: PhantomData<*const (T, A)>,
    pub(crate) ghost items: { List T },
    pub(crate) ghost heap: { A },
}

impl<T, A: Allocator> Model for Thin<T, A> {
    ghost also_owns = { λ t. thin_owns (A.dealloc_token t.heap) T.row t.ptr t.items };

    ghost also_shares = { λ t _ κ. thin_shares T.row t.ptr t.items κ };
}

// It may go to another thread as its elements may. A `&` to it reaches no right to free its block.
unsafe impl<T: Send, A: Allocator + Send> Send for Thin<T, A> {}

unsafe impl<T: Sync, A: Allocator> Sync for Thin<T, A> {}

// The size and the alignment of an element. The borrow checker follows `size_of` of a type parameter
// only in a product.
fn measures<T>() -> (usize, usize)
    ensures size { result.0 < 2 ^ 63 → result.0 ≡ type_size T.row }
    ensures align { result.1 ≡ type_align T.row }
{
    (size_of::<T>(), align_of::<T>())
}

// Whether one block may hold so many elements, which are aligned no more than the count.
pub(crate) fn fits<T>(len: usize) -> bool
    requires { type_align T.row ≤ 8 }
    ensures { IsTrue result → Fits T.row len }
{
    let most = isize::MAX as usize - 16;
    let (size, align) = measures::<T>();
    prove!(align <= COUNT_BYTES);
    if most < size {
        return false;
    }
    match len.checked_mul(size) {
        Some(bytes) => bytes <= most,
        None => false,
    }
}

pub(crate) fn block_bytes<T>(len: usize) -> usize
    requires { Fits T.row len }
    ensures { result ≡ block_bytes T.row len }
{
    (len * size_of::<T>() + 15) / 8 * 8
}

impl<T, A: Allocator> Space<T, A> {
    pub(crate) fn new(alloc: &A, len: usize, bytes: usize) -> Option<Space<T, A>>
        requires { Fits T.row len × (bytes ≡ block_bytes T.row len) }
        ensures { IfSome result (λ s. (s.len ≡ len) × (s.heap ≡ alloc.now)) }
    {
        match alloc.allocate(bytes, COUNT_BYTES) {
            Ok(block) => Some(Space {
                ptr: block as *mut usize,
                by: PhantomData,
            }),
            Err(_) => None,
        }
    }

    pub(crate) fn free(self, alloc: &A, bytes: usize)
        requires { (self.heap ≡ alloc.now) × (bytes ≡ block_bytes T.row self.len) }
    {
        let Space { ptr, by: _ } = self;
        unsafe { alloc.deallocate(ptr as *mut u8, bytes, COUNT_BYTES) }
    }

    // Empty places for as many elements as `like` has, which only shows that there are values for them.
    pub(crate) fn open(self, like: &[T]) -> (Slots<T>, Open<T, A>)
        requires { self.len ≡ length like.now }
        ensures slots { (slots_ptr result.0 ≡ result.1.ptr +ₚ 8) × (slots_len result.0 ≡ self.len) }
        ensures open { (result.1.len ≡ self.len) × (result.1.heap ≡ self.heap) }
    {
        let Space { ptr, by } = self;
        let places = unsafe { (ptr as *mut u8).add(COUNT_BYTES) } as *mut T;
        let slots = unsafe { Slots::from_raw_parts(places, like.len()) };
        (slots, Open { ptr, by })
    }
}

impl<T, A: Allocator> Open<T, A> {
    // A value that is still in a slot is forgotten.
    pub(crate) fn empty(self, slots: Slots<T>) -> Space<T, A>
        requires { (slots_ptr slots ≡ self.ptr +ₚ 8) × (slots_len slots ≡ self.len) }
        ensures { (result.len ≡ self.len) × (result.heap ≡ self.heap) × Fits T.row self.len }
    {
        let _parts = unsafe { slots.into_raw_parts() };
        let Open { ptr, by } = self;
        Space { ptr, by }
    }

    pub(crate) fn close(self, slots: Slots<T>) -> Thin<T, A>
        requires place { (slots_ptr slots ≡ self.ptr +ₚ 8) × (slots_len slots ≡ self.len) }
        requires full { IsFull slots }
        ensures { (result.items ≡ slots_items slots) × (result.heap ≡ self.heap) }
    {
        let (_places, len) = unsafe { slots.into_raw_parts() };
        let Open { ptr, by } = self;
        unsafe { ptr.write(len) };
        Thin { ptr, by }
    }
}

impl<T, A: Allocator> Thin<T, A> {
    pub(crate) fn open(self) -> (Slots<T>, Open<T, A>)
        ensures slots { (slots_ptr result.0 ≡ result.1.ptr +ₚ 8) × IsFull result.0
            × (slots_items result.0 ≡ self.items) }
        ensures open { (result.1.len ≡ slots_len result.0) × (result.1.heap ≡ self.heap) }
    {
        let Thin { ptr, by } = self;
        let len = unsafe { ptr.read() };
        let places = unsafe { (ptr as *mut u8).add(COUNT_BYTES) } as *mut T;
        let slots = unsafe { Slots::from_raw_parts(places, len) };
        (slots, Open { ptr, by })
    }

    pub(crate) fn as_slice(&self) -> &[T]
        ensures { result.now ≡ self.now.items }
    {
        let ptr = self.ptr;
        unsafe {
            let len = *ptr;
            slice::from_raw_parts((ptr as *const u8).add(COUNT_BYTES) as *const T, len)
        }
    }
}
