//! The handles of C: one pointer each, which only this library follows.
ghost use Rattle.std.specs.Prelude.{◌≡◌};
ghost use Rattle.std.specs.Coded.{coded_option};
ghost use Rattle.std.specs.Option.{is_some};
ghost use Rattle.msrp_plan.specs.Common.{Option, Some, None, option_map};
ghost use Rattle.msrp_c.specs.contracts.content.Content.{the_row};
ghost use Rattle.msrp_c.specs.declared.content.Content.{Content as Held};

use crate::content::Content;
use crate::loose::Loose;
use std::alloc::{Allocator, Global};
use std::marker::Model;
use std::mem::replace;
use std::ptr::null_mut;

/// C's handle of an auditor, a run or a core: one pointer, null if the handle is empty.
#[repr(C)]
#[derive(Drop)]
pub struct MsrpHandle {
    at: *mut u8,
    alloc: Global,
    pub ghost value: { Option Held } by { coded_option the_row.coded },
}

impl Model for MsrpHandle {
    ghost use Rattle.msrp_c.specs.Held.{holds};
    ghost use Rattle.msrp_c.specs.contracts.content.Content.{the_row};

    ghost also_owns = { λ h. holds (⟦<Global as Allocator>⟧.dealloc_token h.alloc) the_row h.at h.value };
}

impl MsrpHandle {
    // Drops the pointer's type.
    fn of(content: Loose<Content, Global>) -> MsrpHandle
        ensures { result.value ≡ Some content.value }
    {
        let Loose { at, alloc } = content;
        MsrpHandle {
            at: at.cast::<u8>(),
            alloc,
        }
    }

    // Restores the pointer's type, unless it is null.
    fn into_loose(self) -> Option<Loose<Content, Global>>
        ensures { option_map (λ l. l.value) result ≡ self.value }
    {
        let MsrpHandle { at, alloc } = self;
        if at.is_null() {
            None
        } else {
            Some(Loose {
                at: at.cast::<Content>(),
                alloc,
            })
        }
    }

    // An empty handle.
    fn none(alloc: Global) -> MsrpHandle
        ensures { result.value ≡ None }
    {
        MsrpHandle {
            at: null_mut(),
            alloc,
        }
    }

    /// A handle with this content.
    pub(crate) fn held(content: Box<Content, Global>) -> MsrpHandle
        ensures { result.value ≡ Some content.value }
    {
        MsrpHandle::of(Loose::of(content))
    }

    /// Takes the content out of the handle.
    pub(crate) fn take(&mut self, alloc: Global) -> Option<Box<Content, Global>>
        ensures taken { option_map (λ content. content.value) result ≡ self.old.value }
        ensures none { self.new.value ≡ None }
    {
        match replace(self, MsrpHandle::none(alloc)).into_loose() {
            Some(loose) => Some(loose.into_box()),
            None => None,
        }
    }

    /// Whether the handle isn't empty.
    pub(crate) fn is_used(&mut self, alloc: Global) -> bool
        ensures used { result ≡ is_some self.old.value }
        ensures same { self.new.value ≡ self.old.value }
    {
        match self.take(alloc) {
            Some(content) => {
                *self = MsrpHandle::held(content);
                true
            }
            None => false,
        }
    }
}
