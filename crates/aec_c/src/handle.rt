//! C's handle: a workspace, a coder or a reader in a block of memory, or nothing.

pub(crate) mod loose;

ghost use Rattle.std.specs.Prelude.{◌≡◌, Option, None, Some, OnOk, IfErr};
ghost use Rattle.std.specs.Option.{option_map};
ghost use Rattle.aec_params.specs.declared.fault.Fault.TheVariants.{Memory};
ghost use Rattle.aec_c.specs.Handles.{handle_owns};
ghost use Rattle.aec_c.specs.Kinds.{value_in};
ghost use Rattle.aec_c.specs.declared.kinds.Open.{Open};

use crate::kinds::Open;
use aec_params::Fault;
use loose::Loose;
use std::alloc::Global;
use std::marker::Model;
use std::{mem, ptr};

/// A pointer to what a handle holds, whose type C doesn't see. A handle of zeros holds nothing. C
/// has three types of the same fields: for workspaces, coders and readers.
#[repr(C)]
#[derive(Drop)]
pub struct Handle {
    at: *mut u8,
    full: bool,
    pub ghost value: { Option Open },
}

impl Model for Handle {
    ghost also_owns = { λ h. handle_owns h.full h.at h.value };
}

impl Handle {
    /// Returns a handle that holds nothing.
    fn empty() -> Handle
        ensures { result.value ≡ None }
    {
        Handle {
            at: ptr::null_mut(),
            full: false,
        }
    }

    /// Returns the handle that owns what is at a loose pointer. Allocates nothing.
    fn of_loose(loose: Loose<Open, Global>) -> Handle
        ensures { result.value ≡ Some loose.value }
    {
        let Loose { at, alloc: _ } = loose;
        Handle {
            at: at as *mut u8,
            full: true,
        }
    }

    /// Returns the pointer to what a handle holds, with the ownership of it.
    fn into_loose(self, alloc: Global) -> Option<Loose<Open, Global>>
        ensures { self.value ≡ option_map (λ loose. loose.value) result }
    {
        let Handle { at, full } = self;
        if full {
            Some(Loose {
                at: at as *mut Open,
                alloc,
            })
        } else {
            None
        }
    }

    /// Returns what a handle holds, in its box.
    fn into_box(self, alloc: Global) -> Option<Box<Open>>
        ensures { self.value ≡ value_in result }
    {
        match self.into_loose(alloc) {
            Some(loose) => Some(loose.into_box()),
            None => None,
        }
    }

    /// Takes out what the handle holds. It holds nothing then.
    pub(crate) fn take(&mut self, alloc: Global) -> Option<Box<Open>>
        ensures held { self.old.value ≡ value_in result }
        ensures closed { self.new.value ≡ None }
    {
        mem::replace(self, Handle::empty()).into_box(alloc)
    }

    /// Puts back what was taken out of the handle. Allocates nothing.
    pub(crate) fn put(&mut self, inside: Option<Box<Open>>)
        ensures { self.new.value ≡ value_in inside }
    {
        match inside {
            Some(held) => *self = Handle::of_loose(Loose::of(held)),
            None => *self = Handle::empty(),
        }
    }

    /// Replaces what the handle holds, and frees it. Fails with `Memory` if the allocation fails;
    /// the handle is unchanged then.
    pub(crate) fn hold(&mut self, alloc: Global, inside: Open) -> Result<(), Fault>
        ensures ok { OnOk result (self.new.value ≡ Some inside) }
        ensures fault { IfErr result (λ fault. fault ≡ Memory) }
        ensures err { IfErr result (λ _. self.new.value ≡ self.old.value) }
    {
        let held = Box::new(alloc, inside)?;
        let _freed = self.take(alloc);
        *self = Handle::of_loose(Loose::of(held));
        Ok(())
    }
}
