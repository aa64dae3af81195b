//! What a C program keeps of a server.

ghost use Rattle.std.specs.Prelude.{◌≡◌, Option, None, Some};
ghost use Rattle.foreign_sessions.specs.declared.server.ServerSession.{ServerSession as Session};
ghost use Rattle.vulandrai_c.specs.ServerHandles.{server_owned_at};
ghost use Rattle.vulandrai_c.specs.Handles.{IsThere, mark, inside};

use crate::box_pointer::BoxPointer;
use foreign_sessions::ServerSession;
use std::alloc::Global;
use std::marker::Model;

/// The place of a server's box, or null.
#[repr(C)]
#[derive(Drop)]
pub struct ServerPointer {
    at: *mut u8,
    alloc: Global,
    ghost session: { Option Session },
}

impl Model for ServerPointer {
    ghost also_owns = { λ p. server_owned_at p.alloc p.at p.session };
}

impl ServerPointer {
    fn null(alloc: Global) -> ServerPointer
        ensures { result.session ≡ None }
    {
        ServerPointer {
            at: std::ptr::null_mut(),
            alloc,
        }
    }

    fn of(pointer: BoxPointer<ServerSession, Global>) -> ServerPointer
        ensures { result.session ≡ Some pointer.content }
    {
        let BoxPointer { place, heap } = pointer;
        ServerPointer {
            at: place.cast::<u8>(),
            alloc: heap,
        }
    }

    fn into_pointer(self) -> BoxPointer<ServerSession, Global>
        requires { IsThere self.session }
        ensures { self.session ≡ Some result.content }
    {
        let ServerPointer { at, alloc } = self;
        BoxPointer {
            place: at.cast::<ServerSession>(),
            heap: alloc,
        }
    }
}

// Nothing that the pointer leads to is a thread's own:
// `proofs/server_handle/ServerPointer/TheSendSync`.
unsafe impl Send for ServerPointer {}

/// What a C program keeps of a server. All its bytes are 0 before `vul_server_open` and after
/// `vul_server_close`.
#[repr(C)]
pub struct ServerHandle {
    full: u64,
    held: ServerPointer,
    ghost agrees: { full ≡ mark held.session },
}

impl ServerHandle {
    /// A closed handle.
    pub fn closed(alloc: Global) -> ServerHandle
        ensures { result.held.session ≡ None }
    {
        ServerHandle {
            full: 0,
            held: ServerPointer::null(alloc),
        }
    }

    /// The handle of this server.
    pub fn of(session: Box<ServerSession>) -> ServerHandle
        ensures { result.held.session ≡ Some session.value }
    {
        ServerHandle {
            full: 1,
            held: ServerPointer::of(BoxPointer::from_box(session)),
        }
    }

    /// Its server: `None` if it is closed.
    pub fn into_box(self) -> Option<Box<ServerSession>>
        ensures { inside result ≡ self.held.session }
    {
        let ServerHandle { full, held } = self;
        if full == 0 {
            return None;
        }
        Some(held.into_pointer().into_box())
    }
}

impl Drop for ServerHandle {
    fn drop(self) {
        if let Some(session) = self.into_box() {
            drop(session);
        }
    }
}
