//! Files and folders that are opened, locked and closed.

use super::{Handle, Machine};
use crate::names::plain;
use crate::nodes::Node;
use safe_files::folder_of;
use std::fs::OpenOptions;
use std::io;
use std::io::ErrorKind;

impl Machine {
    /// Opens a file or a folder, or makes a file.
    pub(crate) fn open(&mut self, how: &OpenOptions, path: &str) -> io::Result<Handle> {
        self.begin()?;
        how.check()?;
        self.risk(self.faults.opens_fail)?;
        let path = plain(path);
        match self.names.get(path) {
            Some(at) => self.open_old(how, at),
            None => self.open_new(how, path),
        }
    }

    // Opens what is there.
    fn open_old(&mut self, how: &OpenOptions, at: usize) -> io::Result<Handle> {
        if how.asks_create_new() {
            return Err(ErrorKind::AlreadyExists.into());
        }
        if self.is_folder(at) && (how.asks_write() || how.asks_append()) {
            return Err(ErrorKind::IsADirectory.into());
        }
        if how.asks_truncate() {
            self.spend()?;
            if let Some(node) = self.nodes.get_mut(at) {
                node.image.set_len(0)?;
            }
        }
        self.handle_of(at)
    }

    // Makes a file.
    fn open_new(&mut self, how: &OpenOptions, path: &str) -> io::Result<Handle> {
        if !how.asks_create() && !how.asks_create_new() {
            return Err(ErrorKind::NotFound.into());
        }
        self.begin_name(path)?;
        let node = Node::new(self.alloc, None);
        let at = self.nodes.add(node, &self.names)?;
        self.names.make(path, at)?;
        self.handle_of(at)
    }

    // Begins to change a name, in a folder that has to be there.
    pub(super) fn begin_name(&mut self, path: &str) -> io::Result<()> {
        match self.names.get(folder_of(path)) {
            Some(at) if self.is_folder(at) => {}
            Some(_) => return Err(ErrorKind::NotADirectory.into()),
            None => return Err(ErrorKind::NotFound.into()),
        }
        self.spend()?;
        self.risk(self.faults.names_fail)
    }

    pub(super) fn is_folder(&self, at: usize) -> bool {
        match self.nodes.get(at) {
            Some(node) => node.folder.is_some(),
            None => false,
        }
    }

    // Another handle of a node.
    fn handle_of(&mut self, at: usize) -> io::Result<Handle> {
        let handle = Handle {
            node: at,
            epoch: self.epoch,
            id: self.next_id,
        };
        self.next_id = self.next_id.wrapping_add(1);
        let node = self.node(handle)?;
        node.handles = node.handles.saturating_add(1);
        Ok(handle)
    }

    /// Another handle of what is open.
    pub(crate) fn another(&mut self, handle: Handle) -> io::Result<Handle> {
        self.begin_on(handle)?;
        self.risk(self.faults.opens_fail)?;
        self.handle_of(handle.node)
    }

    /// Closes what is open, and gives its lock back.
    pub(crate) fn close(&mut self, handle: Handle) {
        if handle.epoch != self.epoch {
            return;
        }
        if let Some(node) = self.nodes.get_mut(handle.node) {
            node.handles = node.handles.saturating_sub(1);
            if node.lock == Some(handle.id) {
                node.lock = None;
            }
        }
    }

    /// Takes a lock, and returns whether nobody else has it.
    pub(crate) fn lock(&mut self, handle: Handle) -> io::Result<bool> {
        self.begin_on(handle)?;
        let node = self.node(handle)?;
        match node.lock {
            Some(id) => Ok(id == handle.id),
            None => {
                node.lock = Some(handle.id);
                Ok(true)
            }
        }
    }
}
