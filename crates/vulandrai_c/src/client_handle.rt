//! What a C program keeps of a client.

ghost use Rattle.std.specs.Prelude.{◌≡◌, Option, None, Some};
ghost use Rattle.foreign_sessions.specs.declared.client.ClientSession.{ClientSession as Session};
ghost use Rattle.vulandrai_c.specs.ClientHandles.{client_owned_at};
ghost use Rattle.vulandrai_c.specs.Handles.{IsThere, mark, inside};

use crate::box_pointer::BoxPointer;
use foreign_sessions::ClientSession;
use std::alloc::Global;
use std::marker::Model;

/// The place of a client's box, or null.
#[repr(C)]
#[derive(Drop)]
pub struct ClientPointer {
    at: *mut u8,
    alloc: Global,
    ghost session: { Option Session },
}

impl Model for ClientPointer {
    ghost also_owns = { λ p. client_owned_at p.alloc p.at p.session };
}

impl ClientPointer {
    fn null(alloc: Global) -> ClientPointer
        ensures { result.session ≡ None }
    {
        ClientPointer {
            at: std::ptr::null_mut(),
            alloc,
        }
    }

    fn of(pointer: BoxPointer<ClientSession, Global>) -> ClientPointer
        ensures { result.session ≡ Some pointer.content }
    {
        let BoxPointer { place, heap } = pointer;
        ClientPointer {
            at: place.cast::<u8>(),
            alloc: heap,
        }
    }

    fn into_pointer(self) -> BoxPointer<ClientSession, Global>
        requires { IsThere self.session }
        ensures { self.session ≡ Some result.content }
    {
        let ClientPointer { at, alloc } = self;
        BoxPointer {
            place: at.cast::<ClientSession>(),
            heap: alloc,
        }
    }
}

// Nothing that the pointer leads to is a thread's own:
// `proofs/client_handle/ClientPointer/TheSendSync`.
unsafe impl Send for ClientPointer {}

/// What a C program keeps of a client. All its bytes are 0 before `vul_client_open` and after
/// `vul_client_close`.
#[repr(C)]
pub struct ClientHandle {
    full: u64,
    held: ClientPointer,
    ghost agrees: { full ≡ mark held.session },
}

impl ClientHandle {
    /// A closed handle.
    pub fn closed(alloc: Global) -> ClientHandle
        ensures { result.held.session ≡ None }
    {
        ClientHandle {
            full: 0,
            held: ClientPointer::null(alloc),
        }
    }

    /// The handle of this client.
    pub fn of(session: Box<ClientSession>) -> ClientHandle
        ensures { result.held.session ≡ Some session.value }
    {
        ClientHandle {
            full: 1,
            held: ClientPointer::of(BoxPointer::from_box(session)),
        }
    }

    /// Its client: `None` if it is closed.
    pub fn into_box(self) -> Option<Box<ClientSession>>
        ensures { inside result ≡ self.held.session }
    {
        let ClientHandle { full, held } = self;
        if full == 0 {
            return None;
        }
        Some(held.into_pointer().into_box())
    }
}

impl Drop for ClientHandle {
    fn drop(self) {
        if let Some(session) = self.into_box() {
            drop(session);
        }
    }
}
