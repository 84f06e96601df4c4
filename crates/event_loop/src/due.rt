//! The sessions that are to be given a further turn without an event.

use std::alloc::Global;

/// The keys of the sessions that have more to do at once.
#[derive(Drop)]
pub(crate) struct Due {
    keys: Vec<usize>,
    /// Whether one isn't among the keys, since there was no memory for its key: then all keys are looked at.
    lacks_one: bool,
}

impl Due {
    /// None.
    pub(crate) fn new(alloc: Global) -> Due {
        Due {
            keys: Vec::new(alloc),
            lacks_one: false,
        }
    }

    /// Whether none is due.
    pub(crate) fn is_empty(&self) -> bool {
        self.keys.is_empty() && !self.lacks_one
    }

    /// Adds the session under a key. It is found without memory too.
    pub(crate) fn add(&mut self, key: usize) {
        if self.keys.push(key).is_err() {
            self.lacks_one = true;
        }
    }

    /// Forgets all.
    pub(crate) fn clear(&mut self) {
        self.keys.clear();
        self.lacks_one = false;
    }

    /// How many keys are to be looked at, where so many are in use.
    pub(crate) fn count(&self, in_use: usize) -> usize {
        if self.lacks_one {
            in_use
        } else {
            self.keys.len()
        }
    }

    /// The key to be looked at next, behind so many.
    pub(crate) fn key(&self, behind: usize) -> usize {
        if self.lacks_one {
            return behind;
        }
        match self.keys.get(behind) {
            Some(key) => *key,
            None => behind,
        }
    }
}
