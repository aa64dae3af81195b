//! The files and folders of a machine, with a name or without.

use crate::dice::Dice;
use crate::image::Image;
use crate::names::Names;
use std::alloc::{AllocError, Global};
use std::fs::Metadata;

/// A file or a folder.
#[derive(Drop)]
pub(crate) struct Node {
    /// The path of a folder; none of a file.
    pub(crate) folder: Option<String>,
    /// The bytes of a file.
    pub(crate) image: Image,
    /// How often it is open.
    pub(crate) handles: usize,
    /// The handle that has its lock.
    pub(crate) lock: Option<u64>,
}

impl Node {
    /// An empty file, or the folder of a path.
    pub(crate) fn new(alloc: Global, folder: Option<String>) -> Node {
        Node {
            folder,
            image: Image::new(alloc),
            handles: 0,
            lock: None,
        }
    }

    /// What is said of it.
    pub(crate) fn metadata(&self) -> Metadata {
        match self.folder {
            Some(_) => Metadata::of_dir(),
            None => Metadata::of_file(self.image.len() as u64),
        }
    }
}

/// The files and folders of a machine, each with a number.
#[derive(Drop)]
pub(crate) struct Nodes {
    alloc: Global,
    slots: Vec<Option<Node>>,
}

impl Nodes {
    /// None.
    pub(crate) fn new(alloc: Global) -> Nodes {
        Nodes {
            alloc,
            slots: Vec::new(alloc),
        }
    }

    /// The node of a number.
    pub(crate) fn get(&self, at: usize) -> Option<&Node> {
        self.slots.get(at)?.as_ref()
    }

    /// The node of a number, to change it.
    pub(crate) fn get_mut(&mut self, at: usize) -> Option<&mut Node> {
        self.slots.get_mut(at)?.as_mut()
    }

    /// Adds a node, and returns its number. If there is no place for it, those that nobody names or
    /// has open are dropped.
    pub(crate) fn add(&mut self, node: Node, names: &Names) -> Result<usize, AllocError> {
        if self.free_slot() == self.slots.len() {
            self.collect(names)?;
        }
        let at = self.free_slot();
        match self.slots.get_mut(at) {
            Some(slot) => *slot = Some(node),
            None => self.slots.push(Some(node))?,
        }
        Ok(at)
    }

    // The first place with no node, or the number of places.
    fn free_slot(&self) -> usize {
        for (at, slot) in self.slots.iter().enumerate() {
            if slot.is_none() {
                return at;
            }
        }
        self.slots.len()
    }

    /// Drops the nodes that nobody names or has open.
    pub(crate) fn collect(&mut self, names: &Names) -> Result<(), AllocError> {
        let mut marks = Vec::from_elem(self.alloc, false, self.slots.len())?;
        names.mark(&mut marks);
        for (slot, mark) in self.slots.iter_mut().zip(marks.iter()) {
            if !*mark && !is_open(slot) {
                *slot = None;
            }
        }
        Ok(())
    }

    /// Closes all that is open, and gives all locks back.
    pub(crate) fn close_all(&mut self) {
        for slot in self.slots.iter_mut() {
            if let Some(node) = slot {
                node.handles = 0;
                node.lock = None;
            }
        }
    }

    /// Does to each file what a crash does.
    pub(crate) fn crash(&mut self, dice: &mut Dice) -> Result<(), AllocError> {
        for slot in self.slots.iter_mut() {
            if let Some(node) = slot {
                node.image.crash(dice)?;
            }
        }
        Ok(())
    }
}

fn is_open(slot: &Option<Node>) -> bool {
    match slot {
        Some(node) => node.handles > 0,
        None => false,
    }
}
