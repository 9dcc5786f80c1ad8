//! An allocator for tests. It notes the growths that it passes on, and refuses those that a test
//! names.
//!
//! A test runs a call and refuses its first growth, then its second, and so on, until a call meets
//! no refusal. Or it refuses all growths from some call on. Or it compares the growths of two
//! calls. A growth of a collection is one allocation, since `grow` and `shrink` are the trait's
//! own: allocate, copy, free.

use std::alloc::{AllocError, Allocator};
use std::cell::Cell;

/// Growths that were passed on: how many, how many bytes they have, and a number that is the same
/// for two runs if their growths have the same sizes in the same order.
#[derive(Clone, Copy, Debug, PartialEq, Eq)]
pub struct Growths {
    /// How many growths.
    pub count: u64,
    /// How many bytes they have together, also those that were given back since then. So what is
    /// kept of them has at most so many.
    pub bytes: u64,
    /// A number made of their sizes in turn.
    pub sizes: u64,
}

/// No growth.
const NONE: Growths = Growths {
    count: 0,
    bytes: 0,
    sizes: 0,
};

// Which growths are refused from now on.
#[derive(Clone, Copy)]
enum Refusal {
    None,
    // The growth after this number of other growths, and no other growth.
    OneAfter(u64),
    All,
}

// What is known of an allocator.
#[derive(Clone, Copy)]
struct Watch {
    passed: Growths,
    refusal: Refusal,
    // How many growths were refused.
    refused: u64,
}

/// Passes growths on to an allocator, notes them, and refuses those that it is told to refuse.
pub struct Watched<B: Allocator> {
    inner: B,
    watch: Cell<Watch>,
}

impl<B: Allocator> Watched<B> {
    /// An allocator that passes on every growth to `inner`.
    pub fn new(inner: B) -> Watched<B> {
        Watched {
            inner,
            watch: Cell::new(Watch {
                passed: NONE,
                refusal: Refusal::None,
                refused: 0,
            }),
        }
    }

    /// An allocator that refuses the growth after the first `admitted`, and no other.
    pub fn refusing_one_after(inner: B, admitted: u64) -> Watched<B> {
        let heap = Watched::new(inner);
        heap.refuse_one_after(admitted);
        heap
    }

    /// Refuses the growth after the next `admitted`, and no other. What was noted is forgotten.
    pub fn refuse_one_after(&self, admitted: u64) {
        self.restart(Refusal::OneAfter(admitted));
    }

    /// Refuses every growth. What was noted is forgotten.
    pub fn refuse_all(&self) {
        self.restart(Refusal::All);
    }

    /// Refuses no growth. What was noted is forgotten.
    pub fn refuse_none(&self) {
        self.restart(Refusal::None);
    }

    fn restart(&self, refusal: Refusal) {
        self.watch.set(Watch {
            passed: NONE,
            refusal,
            refused: 0,
        });
    }

    /// The growths that were passed on since this allocator was last told what to refuse.
    pub fn passed(&self) -> Growths {
        self.watch.get().passed
    }

    /// Whether a growth was refused since this allocator was last told what to refuse.
    pub fn has_refused(&self) -> bool {
        self.watch.get().refused > 0
    }
}

impl<B: Allocator> Drop for Watched<B> {
    fn drop(self) {
        let Self { inner: _, watch: _ } = self;
    }
}

/// A prime, by which sizes are mixed.
const PRIME: u64 = 1_099_511_628_211;

// Whether this growth is to be refused. If not, it is noted.
fn refuses(watch: &Cell<Watch>, size: usize) -> bool {
    let mut next = watch.get();
    let (refused, refusal) = match next.refusal {
        Refusal::None => (false, Refusal::None),
        Refusal::OneAfter(0) => (true, Refusal::None),
        Refusal::OneAfter(admitted) => (false, Refusal::OneAfter(admitted.saturating_sub(1))),
        Refusal::All => (true, Refusal::All),
    };
    next.refusal = refusal;
    if refused {
        next.refused = next.refused.saturating_add(1);
    } else {
        next.passed = Growths {
            count: next.passed.count.saturating_add(1),
            bytes: next.passed.bytes.saturating_add(size as u64),
            sizes: next
                .passed
                .sizes
                .wrapping_mul(PRIME)
                .wrapping_add(size as u64)
                .wrapping_add(1),
        };
    }
    watch.set(next);
    refused
}

unsafe impl<B: Allocator> Allocator for Watched<B> {
    ghost dealloc_token = { λ heap ty ptr. B.dealloc_token heap.inner ty ptr };

    fn allocate(&self, size: usize, align: usize) -> Result<*mut u8, AllocError> {
        let refused = refuses(&self.watch, size);
        if refused {
            return Err(AllocError);
        }
        self.inner.allocate(size, align)
    }

    unsafe fn deallocate(&self, ptr: *mut u8, size: usize, align: usize) {
        self.inner.deallocate(ptr, size, align);
    }
}
