//! The names of a machine's files, and those that the device has.

use crate::dice::Dice;
use safe_files::folder_of;
use std::alloc::{AllocError, Global};
use std::collections::BTreeMap;
use std::mem;

/// A change of the names in a folder that the device need not have yet.
#[derive(Drop)]
pub(crate) enum NameChange {
    Makes(String, usize),
    Renames(String, String),
    Removes(String),
}

impl NameChange {
    // A path in the folder that was changed.
    fn path(&self) -> &str {
        match self {
            NameChange::Makes(path, _) => path.as_str(),
            NameChange::Renames(from, _) => from.as_str(),
            NameChange::Removes(path) => path.as_str(),
        }
    }

    // The folder that was changed.
    fn folder(&self) -> &str {
        folder_of(self.path())
    }
}

/// Paths, and the number of the node of each.
pub(crate) type Paths = BTreeMap<String, usize>;

/// The names of a machine's files and folders.
#[derive(Drop)]
pub(crate) struct Names {
    alloc: Global,
    // What a process sees.
    current: Paths,
    // What the device surely has.
    durable: Paths,
    // What was done since, in order.
    changes: Vec<NameChange>,
}

/// A path without a `./` before it and a slash after it.
pub(crate) fn plain(path: &str) -> &str {
    if path == "/" {
        return path;
    }
    let path = path.strip_prefix("./").unwrap_or(path);
    let path = path.strip_suffix("/").unwrap_or(path);
    if path.is_empty() { "." } else { path }
}

/// Whether a folder is there always.
pub(crate) fn is_root(path: &str) -> bool {
    path == "." || path == "/"
}

impl Names {
    /// No names.
    pub(crate) fn new(alloc: Global) -> Names {
        Names {
            alloc,
            current: BTreeMap::new(alloc),
            durable: BTreeMap::new(alloc),
            changes: Vec::new(alloc),
        }
    }

    /// The node at a path.
    pub(crate) fn get(&self, path: &str) -> Option<usize> {
        self.current.get(path).copied()
    }

    /// Gives a node a name.
    pub(crate) fn make(&mut self, path: &str, node: usize) -> Result<(), AllocError> {
        let noted = String::from_str(self.alloc, path)?;
        self.changes.push(NameChange::Makes(noted, node))?;
        self.current
            .insert(String::from_str(self.alloc, path)?, node)?;
        Ok(())
    }

    /// Gives a node a name that the device has at once.
    pub(crate) fn make_durable(&mut self, path: &str, node: usize) -> Result<(), AllocError> {
        self.current
            .insert(String::from_str(self.alloc, path)?, node)?;
        self.durable
            .insert(String::from_str(self.alloc, path)?, node)?;
        Ok(())
    }

    /// Gives the node at a path another name in its folder.
    pub(crate) fn rename(&mut self, from: &str, to: &str) -> Result<(), AllocError> {
        let Some(node) = self.get(from) else {
            return Ok(());
        };
        let old = String::from_str(self.alloc, from)?;
        let new = String::from_str(self.alloc, to)?;
        self.changes.push(NameChange::Renames(old, new))?;
        self.current
            .insert(String::from_str(self.alloc, to)?, node)?;
        self.current.remove(from);
        Ok(())
    }

    /// Takes a name away.
    pub(crate) fn remove(&mut self, path: &str) -> Result<(), AllocError> {
        let noted = String::from_str(self.alloc, path)?;
        self.changes.push(NameChange::Removes(noted))?;
        self.current.remove(path);
        Ok(())
    }

    /// Sends all changes of a folder to the device.
    pub(crate) fn sync(&mut self, folder: &str) -> Result<(), AllocError> {
        self.settle(folder, usize::MAX)
    }

    // Sends the first of a folder's changes to the device, and drops its others.
    fn settle(&mut self, folder: &str, count: usize) -> Result<(), AllocError> {
        let changes = mem::replace(&mut self.changes, Vec::new(self.alloc));
        let mut left = count;
        for change in changes {
            if change.folder() != folder {
                self.changes.push(change)?;
            } else if left > 0 {
                self.apply(change)?;
                left = left.saturating_sub(1);
            }
        }
        Ok(())
    }

    // Makes a change in what the device has.
    fn apply(&mut self, change: NameChange) -> Result<(), AllocError> {
        match change {
            NameChange::Makes(path, node) => {
                self.durable.insert(path, node)?;
            }
            NameChange::Renames(from, to) => {
                if let Some(node) = self.durable.remove(from.as_str()) {
                    self.durable.insert(to, node)?;
                }
            }
            NameChange::Removes(path) => {
                self.durable.remove(path.as_str());
            }
        }
        Ok(())
    }

    /// Does what a crash does: of each folder's changes the first ones come, often all and often
    /// none.
    pub(crate) fn crash(&mut self, dice: &mut Dice) -> Result<(), AllocError> {
        for _ in 0..self.changes.len() {
            self.crash_folder(dice)?;
        }
        self.changes.clear();
        self.durable = reached(self.alloc, &self.durable)?;
        self.current = reached(self.alloc, &self.durable)?;
        Ok(())
    }

    // Settles the folder of the first change.
    fn crash_folder(&mut self, dice: &mut Dice) -> Result<(), AllocError> {
        let Some(first) = self.changes.first() else {
            return Ok(());
        };
        let folder = String::from_str(self.alloc, first.folder())?;
        let count = match dice.below(3) {
            0 => 0,
            1 => usize::MAX,
            _ => dice.below(self.changes.len()),
        };
        self.settle(folder.as_str(), count)
    }

    /// Marks each node that has a name, or had one that may come back.
    pub(crate) fn mark(&self, marks: &mut Vec<bool>) {
        for (_, node) in self.current.iter() {
            mark_node(marks, *node);
        }
        for (_, node) in self.durable.iter() {
            mark_node(marks, *node);
        }
        for change in self.changes.iter() {
            if let NameChange::Makes(_, node) = change {
                mark_node(marks, *node);
            }
        }
    }

    /// The names in a folder, each ended by a NUL.
    pub(crate) fn list(&self, folder: &str) -> Result<Vec<u8>, AllocError> {
        let mut names = Vec::new(self.alloc);
        for (path, _) in self.current.iter() {
            let path = path.as_str();
            if !is_root(path) && folder_of(path) == folder {
                names.extend_from_slice(base_of(path).as_bytes())?;
                names.push(0)?;
            }
        }
        Ok(names)
    }
}

fn mark_node(marks: &mut Vec<bool>, node: usize) {
    if let Some(mark) = marks.get_mut(node) {
        *mark = true;
    }
}

// The last part of a path.
fn base_of(path: &str) -> &str {
    match path.rsplit_once('/') {
        Some((_, base)) => base,
        None => path,
    }
}

// Those of these paths whose folders are among them, too. A folder comes before what is in it.
fn reached(alloc: Global, paths: &Paths) -> Result<Paths, AllocError> {
    let mut reached = BTreeMap::new(alloc);
    for (path, node) in paths.iter() {
        let path = path.as_str();
        let folder = folder_of(path);
        if is_root(folder) || reached.contains_key(folder) {
            reached.insert(String::from_str(alloc, path)?, *node)?;
        }
    }
    Ok(reached)
}
