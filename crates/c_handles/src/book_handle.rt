//! A book behind a pointer.
ghost use Rattle.std.specs.Prelude.{◌≡◌, ◌≢◌, Some, None};
ghost use Rattle.std.specs.declared.option.Option.{Option};
ghost use Rattle.book_steps.specs.Books.{BookHeld};
ghost use Rattle.c_handles.specs.Owned.{owned_book};

use crate::raw_box::RawBox;
use book_steps::StepBook;
use std::alloc::Global;
use std::marker::Model;

/// A book behind a pointer, or none. For C it is a struct of one pointer, of which it copies none and changes none.
#[repr(C)]
pub struct BookHandle {
    at: *mut u8,
    ghost book: { Option BookHeld },
}

impl Model for BookHandle {
    ghost also_owns = { λ h. owned_book h.at h.book };
}

/// A handle is let go only where it has none: what has any is taken out by `into_box`.
impl Drop for BookHandle {
    fn drop(self)
        requires { self.book ≡ None }
    {
        let BookHandle { at: _ } = self;
    }
}

impl BookHandle {
    /// The handle of this book.
    pub fn of(book: Box<StepBook>) -> BookHandle
        ensures { result.book ≡ Some book.value }
    {
        BookHandle::hide(RawBox::of(book))
    }

    /// The book of a handle that has any. The handle is gone.
    pub fn into_box(self, alloc: Global) -> Box<StepBook>
        requires { self.book ≢ None }
        ensures { self.book ≡ Some result.value }
    {
        self.show(alloc).into_box()
    }

    // Keeps the pointer alone.
    fn hide(parts: RawBox<StepBook, Global>) -> BookHandle
        ensures { result.book ≡ Some parts.value }
    {
        let RawBox { at, alloc: _ } = parts;
        BookHandle { at: at as *mut u8 }
    }

    // The parts of the box.
    fn show(self, alloc: Global) -> RawBox<StepBook, Global>
        requires { self.book ≢ None }
        ensures { self.book ≡ Some result.value }
    {
        let BookHandle { at } = self;
        RawBox {
            at: at as *mut StepBook,
            alloc,
        }
    }
}
