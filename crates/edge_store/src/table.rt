// The pages of one method, and which page an edge was last held on. Ordered sets and pages stand below, the edges of
// one method above.
ghost use Rattle.std.specs.Prelude.{◌≡◌, ◌≤◌, ◌<◌, ◌+◌, ◌-◌, ◌^◌, ◌++◌, ◌∷◌, ℕ, [], false, IsTrue, length, Contains, IfSome, IfNone, OnOk, OnErr, max, slice_index, slice_set};
ghost use Rattle.std.specs.Int.{bit_at};
ghost use Rattle.ifds_model.specs.State.{At, IsDistinct};
ghost use Rattle.edge_store.specs.Pages.{with_bit};
ghost use Rattle.edge_store.specs.Table.{no_pages};

use crate::page::Page;
use crate::sets::{place_new, place_of};
use indexmap::IndexSet;
use std::alloc::{AllocError, Global};
use std::marker::Model;

#[derive(Drop)]
pub struct Table {
    pages: IndexSet<Page>,
    bits: Vec<u64>,
    last: usize,
    hint: Page,
    held: u64,
    room: u64,
}

impl Model for Table {
    ghost use Rattle.std.specs.Prelude.{◌-◌, vec_capacity, vec_len};
    ghost use Rattle.indexmap.specs.IndexSet.{spare};
    ghost use Rattle.edge_store.specs.Table.{Pages, IsTable};

    ghost Value = { Pages };

    ghost view = { λ t. record { pages = t.pages.keys; bits = t.bits.items; held = t.held; room = t.room } };

    ghost invariant = { λ t. IsTable t.pages.keys t.bits.items t.held t.room (spare t.pages) (vec_capacity t.bits - vec_len t.bits) };
}

impl Table {
    pub fn new(alloc: Global) -> Self
        ensures pages { result.pages ≡ [] }
        ensures bits { result.bits ≡ [] }
        ensures held { result.held ≡ 0 }
        ensures room { result.room ≡ 0 }
        ensures none { result ≡ no_pages }
    {
        Table {
            pages: IndexSet::new(alloc),
            bits: Vec::new(alloc),
            last: 0,
            hint: Page {
                context: 0,
                fact: 0,
                number: 0,
            },
            held: 0,
            room: 0,
        }
    }

    /// The number of edges.
    pub fn held(&self) -> u64
        ensures is { result ≡ self.now.held }
        ensures distinct { IsDistinct self.now.pages }
    {
        self.held
    }

    pub fn room(&self) -> u64
        ensures { result ≡ self.now.room }
    {
        self.room
    }

    pub fn pages(&self) -> &[Page]
        ensures { result.now ≡ self.now.pages }
    {
        self.pages.as_slice()
    }

    /// The fact of the page that was last held on. It is a hint, and what it names is tested.
    pub fn last_fact(&self) -> u32 {
        self.hint.fact
    }

    /// The place of a page. The last one costs no hash.
    pub fn find(&self, page: &Page) -> Option<usize>
        ensures there { IfSome result (λ n. At self.now.pages n page.now) }
        ensures unknown { IfNone result (¬ Contains self.now.pages page.now) }
        ensures distinct { IsDistinct self.now.pages }
        ensures even { length self.now.bits ≡ length self.now.pages }
    {
        if self.hint == *page && is_at(self.pages.as_slice(), self.last, page) {
            return Some(self.last);
        }
        place_of(&self.pages, page)
    }

    /// Whether a bit of a page is set.
    pub fn is_marked(&self, at: usize, place: u32) -> bool
        requires within { at < length self.now.pages }
        requires place { place < 64 }
        ensures yes { IsTrue result → bit_at (slice_index self.now.bits at) place ≡ 1 }
        ensures no { result ≡ false → bit_at (slice_index self.now.bits at) place ≡ 0 }
    {
        has_bit(self.bits[at], place)
    }

    /// Sets a bit of a page, and tells whether it is new.
    pub fn mark(&mut self, at: usize, place: u32) -> bool
        requires within { at < length self.old.pages }
        requires place { place < 64 }
        requires room { 0 < self.old.room }
        ensures is_new { IsTrue result → bit_at (slice_index self.old.bits at) place ≡ 0 }
        ensures was { result ≡ false → bit_at (slice_index self.old.bits at) place ≡ 1 }
        ensures pages { self.new.pages ≡ self.old.pages }
        ensures bits { self.new.bits ≡ slice_set self.old.bits at (with_bit (slice_index self.old.bits at) place) }
        ensures more { IsTrue result → self.new.held ≡ self.old.held + 1 }
        ensures same { result ≡ false → self.new.held ≡ self.old.held }
        ensures room { self.new.room + 1 ≡ self.old.room }
    {
        self.last = at;
        self.hint = self.pages.as_slice()[at];
        self.room -= 1;
        let had = self.bits[at];
        self.bits[at] = had | 1 << place;
        if has_bit(had, place) {
            return false;
        }
        self.held += 1;
        true
    }

    /// Adds a page with one bit.
    pub fn open(&mut self, page: Page, place: u32)
        requires fresh { ¬ Contains self.old.pages page }
        requires place { place < 64 }
        requires room { 0 < self.old.room }
        ensures pages { self.new.pages ≡ self.old.pages ++ page ∷ [] }
        ensures bits { self.new.bits ≡ self.old.bits ++ with_bit 0 place ∷ [] }
        ensures held { self.new.held ≡ self.old.held + 1 }
        ensures room { self.new.room + 1 ≡ self.old.room }
    {
        self.last = place_new(&mut self.pages, page);
        self.hint = page;
        self.room -= 1;
        self.held += 1;
        match self.bits.push(0 | 1 << place) {
            Ok(()) => {}
            Err(_) => unreachable!(),
        }
    }

    /// Makes room for so many further edges.
    pub fn reserve(&mut self, more: u64) -> Result<(), AllocError>
        ensures pages { self.new.pages ≡ self.old.pages }
        ensures bits { self.new.bits ≡ self.old.bits }
        ensures held { self.new.held ≡ self.old.held }
        ensures ok { OnOk result (self.new.room ≡ max self.old.room more) }
        ensures err { OnErr result (self.new.room ≡ self.old.room) }
    {
        if self.held.checked_add(more).is_none() {
            return Err(AllocError);
        }
        self.pages.reserve(more as usize)?;
        self.bits.reserve(more as usize)?;
        if self.room < more {
            self.room = more;
        }
        Ok(())
    }
}

fn is_at(pages: &[Page], at: usize, page: &Page) -> bool
    ensures { IsTrue result → At pages.now at page.now }
{
    at < pages.len() && pages[at] == *page
}

fn has_bit(bits: u64, place: u32) -> bool
    requires { place < 64 }
    ensures yes { IsTrue result → bit_at bits place ≡ 1 }
    ensures no { result ≡ false → bit_at bits place ≡ 0 }
{
    bits >> place & 1 == 1
}
