//! The queue of labels.
ghost use Rattle.std.specs.Prelude.{◌≡◌, ◌<◌, ◌↔◌, None, length, replicate, IfOk, IsNone, IfSome, IfNone, IsTrue};
ghost use Rattle.label_queue.specs.Keys.{key_of, lowered, without, IsEmpty};
ghost use Rattle.label_queue.specs.Least.{IsLeast};

use crate::entry::Entry;
use crate::heap;
use crate::heap::First;
use std::alloc::Global;
use std::marker::Model;
use taxi_base::Memory;

/// There are so many labels at most, so that an entry of the heap takes eight bytes.
const LABELS: usize = 4294967295;

/// A map from labels to keys with its least. All its room is made at the start.
#[derive(Drop)]
pub struct LabelQueue {
    heap: Vec<Entry>,
    // A label that is taken out leaves the first place open, and the next one that comes is put there, so that the heap is put in order
    // once for both.
    first: First,
    // By label: where its entry lies in the heap, while places are kept. The first call that keeps them writes it, so a queue that keeps none
    // never does.
    places: Vec<u32>,
    // From the first call that may have to lower a key until the queue is emptied by `clear`. Then the least entry lies in the first place.
    keeps_places: bool,
    // All labels are below it.
    limit: usize,
}

impl Model for LabelQueue {
    ghost use Rattle.std.specs.Prelude.{List, Option, ℕ};

    ghost Value = { List (Option ℕ) };

    ghost use Rattle.std.specs.Prelude.{◌<◌, ◌≤◌, ◌^◌, vec_capacity};
    ghost use Rattle.label_queue.specs.First.{IsHeapBelow, entries_by};
    ghost use Rattle.label_queue.specs.Entries.{keys_of, AreDistinct};
    ghost use Rattle.label_queue.specs.Places.{AreKept};

    ghost view = { λ q. keys_of q.limit (entries_by q.first q.heap.items) };

    ghost invariant = { λ q.
        IsHeapBelow q.first q.heap.items × AreDistinct q.limit q.heap.items × (q.limit ≤ vec_capacity q.heap) × (q.limit < 2 ^ 32)
        × (q.limit ≤ vec_capacity q.places) × AreKept q.limit q.keeps_places q.first q.places.items q.heap.items };
}

impl LabelQueue {
    /// An empty queue for the labels below `limit`, with room for all of them. There is none for 2^32 labels or more.
    pub fn new(alloc: Global, limit: usize) -> Result<LabelQueue, Memory>
        ensures { IfOk result (λ q. q ≡ replicate limit None) }
    {
        if limit > LABELS {
            return Err(Memory::for_so_many(limit));
        }
        let heap = Vec::with_capacity(alloc, limit)?;
        let places = Vec::with_capacity(alloc, limit)?;
        Ok(LabelQueue {
            heap,
            first: First::Least,
            places,
            keeps_places: false,
            limit,
        })
    }

    /// Whether no label is in the queue.
    pub fn is_empty(&self) -> bool
        ensures { IsTrue result ↔ IsEmpty self.now }
    {
        match self.first {
            First::Taken => self.heap.len() == 1,
            _ => self.heap.is_empty(),
        }
    }

    /// Puts a label in that isn't there. No memory is taken.
    #[inline(always)]
    pub fn insert(&mut self, label: usize, key: u32)
        requires within { label < length self.old }
        requires absent { key_of self.old label ≡ None }
        ensures { self.new ≡ lowered self.old label key }
    {
        match self.first {
            First::Taken => {
                self.heap[0] = Entry::new(label as u32, key);
                self.first = First::New;
            }
            _ => self.insert_among(label, key),
        }
    }

    /// The same, whatever lies in the first place.
    fn insert_among(&mut self, label: usize, key: u32)
        requires within { label < length self.old }
        requires absent { key_of self.old label ≡ None }
        ensures { self.new ≡ lowered self.old label key }
    {
        heap::put_in_order(&mut self.heap, self.first);
        self.first = First::Least;
        let entry = Entry::new(label as u32, key);
        if self.keeps_places {
            heap::add(&mut self.heap, &mut self.places, entry);
        } else {
            heap::add(&mut self.heap, &mut [], entry);
        }
    }

    /// Gives the label this key, or leaves it the lesser one that it has. No memory is taken. From here on the place of each label in the
    /// heap is kept, until the queue is emptied by `clear`, so that its key is lowered where it lies.
    #[inline(never)]
    pub fn insert_or_lower(&mut self, label: usize, key: u32)
        requires { label < length self.old }
        ensures { self.new ≡ lowered self.old label key }
    {
        heap::put_in_order(&mut self.heap, self.first);
        self.first = First::Least;
        heap::keep_places(&self.heap, &mut self.places, self.limit, self.keeps_places);
        self.keeps_places = true;
        match heap::place_of(&self.heap, &self.places, label as u32) {
            None => self.insert_among(label, key),
            Some(at) => {
                if key < self.heap[at].key() {
                    heap::lower(&mut self.heap, &mut self.places, at, key);
                }
            }
        }
    }

    /// Takes out the label with the least key, at a tie the least label.
    #[inline(always)]
    pub fn pop_least(&mut self) -> Option<(usize, u32)>
        ensures none { IsNone result ↔ IsEmpty self.old }
        ensures unchanged { IfNone result (self.new ≡ self.old) }
        ensures least { IfSome result (λ pair. IsLeast self.old pair.0 pair.1) }
        ensures taken { IfSome result (λ pair. self.new ≡ without self.old pair.0) }
    {
        heap::put_in_order(&mut self.heap, self.first);
        self.first = First::Least;
        if self.heap.is_empty() {
            return None;
        }
        let first = self.heap[0];
        if self.keeps_places {
            heap::fill_first(&mut self.heap, &mut self.places);
        } else {
            self.first = First::Taken;
        }
        Some((first.label() as usize, first.key()))
    }

    /// Empty again, with the same limit. No place is kept any more.
    pub fn clear(&mut self)
        ensures { self.new ≡ replicate (length self.old) None }
    {
        self.heap.clear();
        self.first = First::Least;
        self.keeps_places = false;
    }
}
