//! The rounds of a set behind a pointer.
ghost use Rattle.std.specs.Prelude.{◌≡◌, ◌≢◌, Some, None};
ghost use Rattle.std.specs.declared.option.Option.{Option};
ghost use Rattle.round_steps.specs.Steps.{StepsHeld};
ghost use Rattle.c_handles.specs.Owned.{owned_steps};

use crate::raw_box::RawBox;
use round_steps::Steps;
use std::alloc::Global;
use std::marker::Model;

/// Steps behind a pointer, or none. For C it is a struct of one pointer, of which it copies none and changes none.
#[repr(C)]
pub struct StepsHandle {
    at: *mut u8,
    ghost steps: { Option StepsHeld },
}

impl Model for StepsHandle {
    ghost also_owns = { λ h. owned_steps h.at h.steps };
}

/// A handle is let go only where it has none: what has any is taken out by `into_box`.
impl Drop for StepsHandle {
    fn drop(self)
        requires { self.steps ≡ None }
    {
        let StepsHandle { at: _ } = self;
    }
}

impl StepsHandle {
    /// The handle of these steps.
    pub fn of(steps: Box<Steps>) -> StepsHandle
        ensures { result.steps ≡ Some steps.value }
    {
        StepsHandle::hide(RawBox::of(steps))
    }

    /// The steps of a handle that has any. The handle is gone.
    pub fn into_box(self, alloc: Global) -> Box<Steps>
        requires { self.steps ≢ None }
        ensures { self.steps ≡ Some result.value }
    {
        self.show(alloc).into_box()
    }

    // Keeps the pointer alone.
    fn hide(parts: RawBox<Steps, Global>) -> StepsHandle
        ensures { result.steps ≡ Some parts.value }
    {
        let RawBox { at, alloc: _ } = parts;
        StepsHandle { at: at as *mut u8 }
    }

    // The parts of the box.
    fn show(self, alloc: Global) -> RawBox<Steps, Global>
        requires { self.steps ≢ None }
        ensures { self.steps ≡ Some result.value }
    {
        let StepsHandle { at } = self;
        RawBox {
            at: at as *mut Steps,
            alloc,
        }
    }
}
