//! Names that are looked up, made, changed and removed.

use super::{Machine, failed};
use crate::names::plain;
use crate::nodes::Node;
use safe_files::folder_of;
use std::fs::Metadata;
use std::io;
use std::io::ErrorKind;

impl Machine {
    /// What is said of what is at a path.
    pub(crate) fn metadata_at(&mut self, path: &str) -> io::Result<Metadata> {
        self.begin()?;
        self.risk(self.faults.opens_fail)?;
        let at = self.find(plain(path))?;
        match self.nodes.get(at) {
            Some(node) => Ok(node.metadata()),
            None => Err(failed()),
        }
    }

    // The node at a path.
    fn find(&self, path: &str) -> io::Result<usize> {
        match self.names.get(path) {
            Some(at) => Ok(at),
            None => Err(ErrorKind::NotFound.into()),
        }
    }

    // The file at a path.
    fn find_file(&self, path: &str) -> io::Result<usize> {
        let at = self.find(path)?;
        if self.is_folder(at) {
            return Err(ErrorKind::IsADirectory.into());
        }
        Ok(at)
    }

    /// Gives a file another name in its folder, in place of what has that name.
    pub(crate) fn rename(&mut self, from: &str, to: &str) -> io::Result<()> {
        self.begin()?;
        let from = plain(from);
        let to = plain(to);
        self.find_file(from)?;
        if folder_of(from) != folder_of(to) {
            return Err(ErrorKind::Unsupported.into());
        }
        if let Some(at) = self.names.get(to)
            && self.is_folder(at)
        {
            return Err(ErrorKind::IsADirectory.into());
        }
        self.begin_name(to)?;
        if from != to {
            self.names.rename(from, to)?;
        }
        Ok(())
    }

    /// Takes a file's name away.
    pub(crate) fn remove(&mut self, path: &str) -> io::Result<()> {
        self.begin()?;
        let path = plain(path);
        self.find_file(path)?;
        self.begin_name(path)?;
        self.names.remove(path)?;
        Ok(())
    }

    /// Makes a folder.
    pub(crate) fn create_folder(&mut self, path: &str) -> io::Result<()> {
        self.begin()?;
        let path = plain(path);
        if self.names.get(path).is_some() {
            return Err(ErrorKind::AlreadyExists.into());
        }
        self.begin_name(path)?;
        let folder = String::from_str(self.alloc, path)?;
        let node = Node::new(self.alloc, Some(folder));
        let at = self.nodes.add(node, &self.names)?;
        self.names.make(path, at)?;
        Ok(())
    }

    /// The names in a folder, each ended by a NUL.
    pub(crate) fn list(&mut self, path: &str) -> io::Result<Vec<u8>> {
        self.begin()?;
        self.risk(self.faults.opens_fail)?;
        let path = plain(path);
        let at = self.find(path)?;
        if !self.is_folder(at) {
            return Err(ErrorKind::NotADirectory.into());
        }
        Ok(self.names.list(path)?)
    }

    /// Begins to read names from a list of them.
    pub(crate) fn read_names(&mut self) -> io::Result<()> {
        self.begin()?;
        self.risk(self.faults.reads_fail)
    }
}
