//! Events and reports as C reads them.

ghost use Rattle.std.specs.Prelude.{◌≡◌};
ghost use Rattle.vulandrai_c.specs.ClientCalls.{IsEventInC, IsFirstEventInC, reported_server};

use foreign_sessions::{ClientSession, Event, ServerInfo};

/// An event: its kind, which is 0 for none, the byte of its scheme or the code of the server's
/// refusal, the index of its record, its version, and how many bytes the record has. What a kind
/// lacks is 0.
#[repr(C)]
#[derive(Clone, Copy)]
pub struct ReportedEvent {
    pub kind: u32,
    pub detail: u32,
    pub index: u32,
    pub reserved: u32,
    pub version: u64,
    pub record_len: u64,
}

/// What the server reported of its store, all 0 before it let the client in: the version, how many
/// records there are, their form, how many bytes a record has, or in form 2 its slot, and how many
/// words a secret has.
#[repr(C)]
#[derive(Clone, Copy)]
pub struct ReportedServer {
    pub version: u64,
    pub count: u32,
    pub form: u32,
    pub record_len: u32,
    pub dimension: u32,
}

impl ReportedEvent {
    fn of(kind: u32, version: u64) -> ReportedEvent
        ensures { result ≡ record {
          kind = kind;
          detail = 0;
          index = 0;
          reserved = 0;
          version = version;
          record_len = 0;
        } }
    {
        ReportedEvent {
            kind,
            detail: 0,
            index: 0,
            reserved: 0,
            version,
            record_len: 0,
        }
    }
}

// An event as C reads it.
fn event_reported(event: &Event) -> ReportedEvent
    ensures { IsEventInC event.now result }
{
    match event {
        Event::Welcomed(version) => ReportedEvent::of(1, *version),
        Event::Synced(scheme, version) => ReportedEvent {
            detail: u32::from(scheme.byte()),
            ..ReportedEvent::of(2, *version)
        },
        Event::Retrieved {
            index,
            version,
            bytes,
        } => ReportedEvent {
            index: *index,
            record_len: bytes.as_slice().len() as u64,
            ..ReportedEvent::of(3, *version)
        },
        Event::Unreadable { index, version } => ReportedEvent {
            index: *index,
            ..ReportedEvent::of(4, *version)
        },
        Event::Stale(version) => ReportedEvent::of(5, *version),
        Event::Done(version) => ReportedEvent::of(6, *version),
        Event::Refused(code) => ReportedEvent {
            detail: u32::from(*code),
            ..ReportedEvent::of(7, 0)
        },
    }
}

/// The first event that waits as C reads it, with all fields 0 if none waits.
pub fn first_reported(session: &ClientSession) -> ReportedEvent
    ensures { IsFirstEventInC session.now.events.items result }
{
    match session.first_event() {
        None => ReportedEvent::of(0, 0),
        Some(event) => event_reported(event),
    }
}

/// What the server reported of its store as C reads it.
pub fn server_reported(session: &ClientSession) -> ReportedServer
    ensures { result ≡ reported_server session.now.core.state.known }
{
    match session.known() {
        None => ReportedServer {
            version: 0,
            count: 0,
            form: 0,
            record_len: 0,
            dimension: 0,
        },
        Some(
            ServerInfo {
                version,
                count,
                plan,
            },
        ) => ReportedServer {
            version,
            count,
            form: u32::from(plan.form),
            record_len: u32::from(plan.record_len),
            dimension: u32::from(plan.dimension),
        },
    }
}
