//! Elements found by what they have in common.

use glass_base::Memory;
use std::alloc::Global;

/// An element: its bucket, and the one that was put there before it.
#[derive(Clone, Copy)]
struct Link {
    bucket: usize,
    before: Option<u32>,
}

/// Elements, numbered from 0, in buckets. Of each bucket the last one is found first.
#[derive(Drop)]
pub struct Chains {
    heads: Vec<Option<u32>>,
    links: Vec<Link>,
}

impl Chains {
    pub fn new(alloc: Global, buckets: usize) -> Result<Chains, Memory> {
        Ok(Chains {
            heads: vec![in alloc; None; buckets]?,
            links: Vec::new(alloc),
        })
    }

    /// Takes all elements out. It costs no more than they did.
    pub fn clear(&mut self) {
        for link in &self.links {
            if let Some(head) = self.heads.get_mut(link.bucket) {
                *head = None;
            }
        }
        self.links.clear();
    }

    /// The last element of a bucket.
    pub fn last(&self, bucket: usize) -> Option<u32> {
        match self.heads.get(bucket) {
            Some(head) => *head,
            None => None,
        }
    }

    /// The element that was put into the same bucket before this one.
    pub fn before(&self, element: u32) -> Option<u32> {
        match self.links.get(element as usize) {
            Some(link) => link.before,
            None => None,
        }
    }

    /// Puts the next element into a bucket.
    pub fn push(&mut self, bucket: usize) -> Result<(), Memory> {
        let element = self.links.len().min(u32::MAX as usize) as u32;
        if let Some(head) = self.heads.get_mut(bucket) {
            let before = *head;
            *head = Some(element);
            self.links.push(Link { bucket, before })?;
        }
        Ok(())
    }
}
