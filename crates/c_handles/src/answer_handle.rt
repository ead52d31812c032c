//! An answer behind a pointer.
ghost use Rattle.std.specs.Prelude.{◌≡◌, ◌≢◌, Some, None};
ghost use Rattle.std.specs.declared.option.Option.{Option};
ghost use Rattle.byte_calls.specs.Held.{AnswerHeld};
ghost use Rattle.c_handles.specs.Owned.{owned_answer};

use crate::raw_box::RawBox;
use byte_calls::Answer;
use std::alloc::Global;
use std::marker::Model;

/// An answer behind a pointer, or none. For C it is a struct of one pointer, of which it copies none and changes none.
#[repr(C)]
pub struct AnswerHandle {
    at: *mut u8,
    ghost answer: { Option AnswerHeld },
}

impl Model for AnswerHandle {
    ghost also_owns = { λ h. owned_answer h.at h.answer };
}

/// A handle is let go only where it has none: what has any is taken out by `into_box`.
impl Drop for AnswerHandle {
    fn drop(self)
        requires { self.answer ≡ None }
    {
        let AnswerHandle { at: _ } = self;
    }
}

impl AnswerHandle {
    /// The handle of this answer.
    pub fn of(answer: Box<Answer>) -> AnswerHandle
        ensures { result.answer ≡ Some answer.value }
    {
        AnswerHandle::hide(RawBox::of(answer))
    }

    /// The answer of a handle that has one. The handle is gone.
    pub fn into_box(self, alloc: Global) -> Box<Answer>
        requires { self.answer ≢ None }
        ensures { self.answer ≡ Some result.value }
    {
        self.show(alloc).into_box()
    }

    // Keeps the pointer alone.
    fn hide(parts: RawBox<Answer, Global>) -> AnswerHandle
        ensures { result.answer ≡ Some parts.value }
    {
        let RawBox { at, alloc: _ } = parts;
        AnswerHandle { at: at as *mut u8 }
    }

    // The parts of the box.
    fn show(self, alloc: Global) -> RawBox<Answer, Global>
        requires { self.answer ≢ None }
        ensures { self.answer ≡ Some result.value }
    {
        let AnswerHandle { at } = self;
        RawBox {
            at: at as *mut Answer,
            alloc,
        }
    }
}
