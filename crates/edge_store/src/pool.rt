// Facts, each once, by number. A fact without uses gives its number to a later one. Ordered sets stand below,
// the edges of one method above.
ghost use Rattle.std.specs.Prelude.{◌≡◌, ◌≤◌, ◌<◌, ◌+◌, ◌-◌, ◌^◌, ℕ, [], IsTrue, length, Contains, IfSome, IfNone, OnOk, slice_index, slice_set, cond, nat_lt};
ghost use Rattle.ifds_model.specs.State.{At, IsDistinct};
ghost use Rattle.edge_store.specs.Pool.{KeepsUsed, UsedFact};
ghost use Rattle.ifds_model.specs.Runs.{HasCount};

use crate::sets::{place_new, place_of, replace_at};
use clean_base::Plain;
use indexmap::IndexSet;
use std::alloc::{AllocError, Global};
use std::marker::Model;

// How many facts there are at most.
const MOST: usize = 4294967296;

/// A number's place in the list of those that are free. The list is no more than a hint: what it names is tested.
#[derive(Clone, Copy, Debug)]
pub struct Link {
    pub listed: bool,
    pub next: Option<u32>,
}

#[derive(Drop)]
pub struct Pool<F: Plain> {
    facts: IndexSet<F>,
    counts: Vec<u64>,
    links: Vec<Link>,
    free: Option<u32>,
    live: u64,
    used: u64,
}

impl<F: Plain> Model for Pool<F> {
    ghost use Rattle.std.specs.Prelude.{◌-◌, ◌^◌, min, length, vec_capacity, vec_len};
    ghost use Rattle.indexmap.specs.IndexSet.{spare};
    ghost use Rattle.edge_store.specs.Pool.{Facts, IsPool};

    ghost Value = { Facts F };

    ghost view = { λ p. record { facts = p.facts.keys; counts = p.counts.items; live = p.live; used = p.used; spare = min (min (spare p.facts) (2 ^ 32 - length p.facts.keys)) (min (vec_capacity p.counts - vec_len p.counts) (vec_capacity p.links - vec_len p.links)) } };

    ghost invariant = { λ p. IsPool p.facts.keys p.counts.items p.live p.used };
}

impl<F: Plain> Pool<F> {
    pub fn new(alloc: Global) -> Self
        ensures facts { result.facts ≡ [] }
        ensures counts { result.counts ≡ [] }
        ensures used { result.used ≡ 0 }
        ensures live { result.live ≡ 0 }
    {
        Pool {
            facts: IndexSet::new(alloc),
            counts: Vec::new(alloc),
            links: Vec::new(alloc),
            free: None,
            live: 0,
            used: 0,
        }
    }

    /// The number of facts that are used.
    pub fn live(&self) -> u64
        ensures is { result ≡ self.now.live }
        ensures count { HasCount (UsedFact self.now.facts self.now.counts) self.now.live }
    {
        self.live
    }

    /// The number of all uses.
    pub fn used(&self) -> u64
        ensures { result ≡ self.now.used }
    {
        self.used
    }

    /// The number of a fact, used or not.
    pub fn find(&self, fact: &F) -> Option<u32>
        ensures there { IfSome result (λ n. At self.now.facts n fact.now) }
        ensures unknown { IfNone result (¬ Contains self.now.facts fact.now) }
        ensures distinct { IsDistinct self.now.facts }
    {
        match place_of(&self.facts, fact) {
            Some(place) => Some(place as u32),
            None => None,
        }
    }

    /// Whether a fact has this number.
    pub fn is_at(&self, number: u32, fact: &F) -> bool
        ensures at { IsTrue result → At self.now.facts number fact.now }
        ensures distinct { IsDistinct self.now.facts }
    {
        let facts = self.facts.as_slice();
        let at = number as usize;
        at < facts.len() && facts[at] == *fact
    }

    /// The fact with this number.
    pub fn fact(&self, number: u32) -> F
        requires { number < length self.now.facts }
        ensures { At self.now.facts number result }
    {
        self.facts.as_slice()[number as usize]
    }

    /// Makes room for so many further facts.
    pub fn reserve(&mut self, more: usize) -> Result<(), AllocError>
        ensures facts { self.new.facts ≡ self.old.facts }
        ensures counts { self.new.counts ≡ self.old.counts }
        ensures live { self.new.live ≡ self.old.live }
        ensures used { self.new.used ≡ self.old.used }
        ensures kept { self.old.spare ≤ self.new.spare }
        ensures ok { OnOk result (more ≤ self.new.spare) }
    {
        if more > MOST - self.facts.len() {
            return Err(AllocError);
        }
        self.facts.reserve(more)?;
        self.counts.reserve(more)?;
        self.links.reserve(more)
    }

    /// Gives a new fact a number. It has no uses yet.
    pub fn put(&mut self, fact: F) -> u32
        requires room { 0 < self.old.spare }
        requires fresh { ¬ Contains self.old.facts fact }
        ensures there { At self.new.facts result fact }
        ensures distinct { IsDistinct self.new.facts }
        ensures kept { KeepsUsed self.old.counts self.old.facts self.new.facts }
        ensures back { KeepsUsed self.old.counts self.new.facts self.old.facts }
        ensures counts { (n : ℕ) → slice_index self.new.counts n ≡ slice_index self.old.counts n }
        ensures none { slice_index self.old.counts result ≡ 0 }
        ensures live { self.new.live ≡ self.old.live }
        ensures used { self.new.used ≡ self.old.used }
        ensures room { self.old.spare ≤ self.new.spare + 1 }
    {
        match next_free(
            self.counts.as_slice(),
            self.links.as_mut_slice(),
            &mut self.free,
        ) {
            Some(number) => {
                replace_at(&mut self.facts, number as usize, fact);
                number
            }
            None => self.put_last(fact),
        }
    }

    fn put_last(&mut self, fact: F) -> u32
        requires room { 0 < self.old.spare }
        requires fresh { ¬ Contains self.old.facts fact }
        ensures there { At self.new.facts result fact }
        ensures distinct { IsDistinct self.new.facts }
        ensures kept { KeepsUsed self.old.counts self.old.facts self.new.facts }
        ensures back { KeepsUsed self.old.counts self.new.facts self.old.facts }
        ensures counts { (n : ℕ) → slice_index self.new.counts n ≡ slice_index self.old.counts n }
        ensures none { slice_index self.old.counts result ≡ 0 }
        ensures live { self.new.live ≡ self.old.live }
        ensures used { self.new.used ≡ self.old.used }
        ensures room { self.old.spare ≤ self.new.spare + 1 }
    {
        let number = place_new(&mut self.facts, fact);
        let link = Link {
            listed: false,
            next: None,
        };
        match self.counts.push(0) {
            Ok(()) => {}
            Err(_) => unreachable!(),
        }
        match self.links.push(link) {
            Ok(()) => {}
            Err(_) => unreachable!(),
        }
        number as u32
    }

    /// One more use of a fact.
    pub fn up(&mut self, number: u32)
        requires within { number < length self.old.facts }
        requires few { self.old.used + 1 < 2 ^ 64 }
        ensures facts { self.new.facts ≡ self.old.facts }
        ensures counts { self.new.counts ≡ slice_set self.old.counts number (slice_index self.old.counts number + 1) }
        ensures used { self.new.used ≡ self.old.used + 1 }
        ensures spare { self.new.spare ≡ self.old.spare }
        ensures even { length self.old.counts ≡ length self.old.facts }
    {
        let at = number as usize;
        let count = self.counts[at];
        self.counts[at] = count + 1;
        self.live = one_more(self.live, count);
        self.used += 1;
    }

    /// One use of a fact less.
    pub fn down(&mut self, number: u32)
        requires { 0 < slice_index self.old.counts number }
        ensures facts { self.new.facts ≡ self.old.facts }
        ensures counts { self.new.counts ≡ slice_set self.old.counts number (slice_index self.old.counts number - 1) }
        ensures used { self.new.used + 1 ≡ self.old.used }
        ensures spare { self.new.spare ≡ self.old.spare }
    {
        let at = number as usize;
        let count = self.counts[at] - 1;
        self.counts[at] = count;
        self.used -= 1;
        self.live = one_less(self.live, count);
        if count == 0 {
            list(self.links.as_mut_slice(), &mut self.free, number);
        }
    }
}

// How many facts are used, once one that had so many uses has a further one.
fn one_more(live: u64, count: u64) -> u64
    requires { live + 1 < 2 ^ 64 }
    ensures { result + cond (nat_lt 0 count) 1 0 ≡ live + 1 }
{
    if count == 0 { live + 1 } else { live }
}

// How many facts are used, once one has a use less, and still so many.
fn one_less(live: u64, count: u64) -> u64
    requires { 0 < live }
    ensures { result + 1 ≡ live + cond (nat_lt 0 count) 1 0 }
{
    if count == 0 { live - 1 } else { live }
}

// Puts a number before the others that are free.
fn list(links: &mut [Link], free: &mut Option<u32>, number: u32) {
    let at = number as usize;
    if at >= links.len() || links[at].listed {
        return;
    }
    links[at] = Link {
        listed: true,
        next: *free,
    };
    *free = Some(number);
}

// The first number of the list that has no uses. Those before it, which are used again, leave the list.
fn next_free(counts: &[u64], links: &mut [Link], free: &mut Option<u32>) -> Option<u32>
    ensures found { IfSome result (λ n. n < length counts.now) }
    ensures none { IfSome result (λ n. slice_index counts.now n ≡ 0) }
{
    for _ in 0..counts.len() {
        let Some(number) = *free else {
            return None;
        };
        let at = number as usize;
        if at >= links.len() || at >= counts.len() {
            return None;
        }
        *free = links[at].next;
        links[at] = Link {
            listed: false,
            next: None,
        };
        if counts[at] == 0 {
            return Some(number);
        }
    }
    None
}
