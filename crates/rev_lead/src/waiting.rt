//! Keys with their classes, in the order in which they came: the evictions of the log that wait for the store that
//! needed their chunk, and others that wait for a later line.
use rev_items::Key;
use std::alloc::{AllocError, Allocator};

/// A key of an item in this class.
#[derive(Drop)]
struct ClassKey<A: Allocator> {
    class: usize,
    key: Key<A>,
}

/// Keys with their classes, in the order in which they came. There are few, so they are looked through.
#[derive(Drop)]
pub struct Waiting<A: Allocator> {
    alloc: A,
    keys: Vec<ClassKey<A>, A>,
}

impl<A: Allocator + Copy> Waiting<A> {
    /// None. No memory is taken.
    pub fn new(alloc: A) -> Waiting<A> {
        Waiting {
            alloc,
            keys: Vec::new(alloc),
        }
    }

    /// Whether the key waits.
    pub fn has(&self, key: &Key<A>) -> bool {
        self.keys.iter().any(|it| it.key.is_same(key))
    }

    /// Puts one behind the others.
    ///
    /// Err: memory was refused.
    pub fn push(&mut self, class: usize, key: &Key<A>) -> Result<(), AllocError> {
        let key = key.copy(self.alloc)?;
        self.keys.push(ClassKey { class, key })?;
        Ok(())
    }

    /// Takes the key out. The answer is whether it waited.
    pub fn take(&mut self, key: &Key<A>) -> bool {
        match self.keys.iter().position(|it| it.key.is_same(key)) {
            Some(place) => {
                self.keys.remove(place);
                true
            }
            None => false,
        }
    }

    /// How many wait.
    pub fn len(&self) -> usize {
        self.keys.len()
    }

    /// Takes the first of all out, if any waits.
    pub fn take_first(&mut self) -> Option<Key<A>> {
        if self.keys.is_empty() {
            return None;
        }
        Some(self.keys.remove(0).key)
    }

    /// Takes the first of this class out, if any waits.
    pub fn take_of(&mut self, class: usize) -> Option<Key<A>> {
        let place = self.keys.iter().position(|it| it.class == class)?;
        Some(self.keys.remove(place).key)
    }

    /// Takes all of this class out, in their order.
    ///
    /// Err: memory was refused.
    pub fn take_all_of(&mut self, class: usize) -> Result<Vec<Key<A>, A>, AllocError> {
        let mut keys = Vec::new(self.alloc);
        for _ in 0..self.keys.len() {
            match self.take_of(class) {
                Some(key) => keys.push(key)?,
                None => break,
            }
        }
        Ok(keys)
    }
}
