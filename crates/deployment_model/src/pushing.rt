//! A push of the folder's version to the servers.

use crate::broken::Broken;
use client_core::{ClientCore, ServerInfo};
use publication_push::{Lack, Push, PushFault, PushStep, lack_of};
use publisher_files::FolderVersion;
use session_core::Lanes;
use simulated_host::{Dice, End, Moved, Network};
use std::alloc::{AllocError, Global};

/// How many steps with nothing to do a push waits for a server.
const PATIENCE: u32 = 200;

/// How a server's part of a push ended.
#[derive(Clone, Copy, Debug, PartialEq, Eq)]
pub enum PushEnd {
    /// The server is at this version.
    Pushed(u64),
    /// The log begins after its version.
    BeforeLog,
    /// The server was left as it was, for this reason.
    Left(&'static str),
}

/// What a step of a push came to.
#[derive(Clone, Copy, Debug, PartialEq, Eq)]
pub struct Pushed {
    /// Which server.
    pub server: usize,
    /// The version that it reported, if it did in this step.
    pub reported: Option<u64>,
    /// How its part ended, if it did.
    pub end: Option<PushEnd>,
}

/// The conversation with one server.
#[derive(Drop)]
pub struct Talk<'v> {
    server: usize,
    end: End,
    push: Push<'v, Lanes>,
    out: Vec<u8>,
    sent: usize,
    idle: u32,
}

impl<'v> Talk<'v> {
    /// Connects to a server, and greets it.
    ///
    /// # Errors
    ///
    /// `PushFault` when memory was refused.
    pub fn begin(
        alloc: Global,
        end: End,
        server: usize,
        wide: bool,
        key: [u8; 32],
    ) -> Result<Talk<'v>, PushFault> {
        let seed = [0u8; 32];
        let client = if wide {
            ClientCore::wide(alloc, Lanes, seed, 0)
        } else {
            ClientCore::new(alloc, Lanes, seed, 0)
        };
        let mut push = Push::new(client);
        let out = push.greet(key)?;
        Ok(Talk {
            server,
            end,
            push,
            out,
            sent: 0,
            idle: 0,
        })
    }

    /// Which server it is with.
    pub fn server(&self) -> usize {
        self.server
    }

    /// The publisher's end of the connection.
    pub fn end(&self) -> End {
        self.end
    }

    /// Whether there is something to do.
    pub fn is_ready(&self, network: &Network) -> bool {
        self.sent < self.out.len() || network.is_ready(self.end)
    }

    /// Sends or takes what there is.
    ///
    /// # Errors
    ///
    /// What is broken.
    pub fn step(
        &mut self,
        version: &'v FolderVersion,
        network: &mut Network,
        dice: &mut Dice,
        buffer: &mut [u8],
    ) -> Result<Pushed, Broken> {
        if self.sent < self.out.len() {
            return self.send(network, dice);
        }
        match network.read(self.end, buffer, dice) {
            Moved::Bytes(0) | Moved::Broken => Ok(self.ended(PushEnd::Left("Ended"))),
            Moved::Bytes(count) => {
                self.idle = 0;
                let step = self.push.feed(&buffer[..count.min(buffer.len())]);
                self.take(version, step)
            }
            Moved::Later => Ok(self.waits()),
        }
    }

    // Nothing can be done yet.
    fn waits(&mut self) -> Pushed {
        self.idle = self.idle.saturating_add(1);
        if self.idle > PATIENCE {
            return self.ended(PushEnd::Left("Silent"));
        }
        self.goes_on(None)
    }

    // The push goes on.
    fn goes_on(&self, reported: Option<u64>) -> Pushed {
        Pushed {
            server: self.server,
            reported,
            end: None,
        }
    }

    // The push has ended.
    fn ended(&self, end: PushEnd) -> Pushed {
        Pushed {
            server: self.server,
            reported: None,
            end: Some(end),
        }
    }

    // Sends some of what is to be sent.
    fn send(&mut self, network: &mut Network, dice: &mut Dice) -> Result<Pushed, Broken> {
        let Some(left) = self.out.get(self.sent..) else {
            return Ok(self.goes_on(None));
        };
        match network.write(self.end, left, dice)? {
            Moved::Bytes(count) => {
                self.idle = 0;
                self.sent = self.sent.saturating_add(count);
                Ok(self.goes_on(None))
            }
            Moved::Later => Ok(self.waits()),
            Moved::Broken => Ok(self.ended(PushEnd::Left("Ended"))),
        }
    }

    // Does what comes next.
    fn take(
        &mut self,
        version: &'v FolderVersion,
        step: Result<PushStep, PushFault>,
    ) -> Result<Pushed, Broken> {
        match step {
            Ok(PushStep::Greeted(known)) => self.greeted(version, &known),
            step => self.go(version, step),
        }
    }

    // Does what comes next, once the server was greeted.
    fn go(
        &mut self,
        version: &FolderVersion,
        step: Result<PushStep, PushFault>,
    ) -> Result<Pushed, Broken> {
        match step {
            Ok(PushStep::Waits) => Ok(self.goes_on(None)),
            Ok(PushStep::Sends(bytes)) => {
                self.out = bytes;
                self.sent = 0;
                Ok(self.goes_on(None))
            }
            Ok(PushStep::Pushed(at)) if at == version.number() => Ok(Pushed {
                server: self.server,
                reported: Some(at),
                end: Some(PushEnd::Pushed(at)),
            }),
            Ok(PushStep::Pushed(_) | PushStep::Greeted(_)) => Err(Broken::OtherPush {
                server: self.server,
            }),
            Err(fault) => self.failed(fault),
        }
    }

    // The server reported what it has: what it lacks is pushed.
    fn greeted(
        &mut self,
        version: &'v FolderVersion,
        known: &ServerInfo,
    ) -> Result<Pushed, Broken> {
        let lack = lack_of(
            &version.plan(),
            version.snapshot_version(),
            version.number(),
            known,
        );
        match lack {
            Lack::OtherStore | Lack::Ahead => Err(Broken::Ahead {
                server: self.server,
                version: known.version,
            }),
            Lack::BeforeLog => Ok(Pushed {
                server: self.server,
                reported: Some(known.version),
                end: Some(PushEnd::BeforeLog),
            }),
            Lack::After(count) => {
                let step = self.push.begin(version.publications().without_first(count));
                let pushed = self.go(version, step)?;
                Ok(Pushed {
                    reported: Some(known.version.max(pushed.reported.unwrap_or(0))),
                    ..pushed
                })
            }
        }
    }

    // The push came to nothing. Its server may be refused memory for it, and is asked again later.
    fn failed(&self, fault: PushFault) -> Result<Pushed, Broken> {
        match fault {
            PushFault::Refused(_) => Ok(self.ended(PushEnd::Left("Refused"))),
            PushFault::WrongVersion { .. } | PushFault::NotDone | PushFault::BadLog => {
                Err(Broken::OtherPush {
                    server: self.server,
                })
            }
            PushFault::Call(_) | PushFault::Client(_) => Err(Broken::OtherPush {
                server: self.server,
            }),
        }
    }
}

/// Adds one more.
///
/// # Errors
///
/// `AllocError` when memory was refused.
pub fn add<T: Drop>(items: &mut Vec<T>, item: T) -> Result<(), AllocError> {
    items.push(item)?;
    Ok(())
}
