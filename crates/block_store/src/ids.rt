ghost use Rattle.std.specs.Prelude.{ℕ, ◌≡◌, ◌+◌, ◌<◌, ◌≤◌, [], IsTrue, IfSome, drop, length, vec_capacity};
ghost use Rattle.std.specs.List.{insert};
ghost use Rattle.odb_base.specs.Ids.{after, first, holds, placed, without};
ghost use Rattle.block_store.specs.Changes.{CanChange, changed, next_after};
ghost use Rattle.block_store.specs.Places.{IsPlaceOf};

use std::alloc::Global;
use std::marker::Model;
use std::mem;

/// A change of a list by one member.
#[derive(Clone, Copy, Debug, PartialEq, Eq)]
pub enum Change {
    /// A member enters in front.
    Enter { member: u32 },
    /// A member enters before another one, or last where none is named.
    Return { member: u32, next: Option<u32> },
    /// A member leaves.
    Leave { member: u32 },
}

/// A list of identifiers, the front first. Contracts see the list.
#[derive(Debug, Drop)]
pub struct Ids {
    items: Vec<u32>,
}

impl Model for Ids {
    ghost use Rattle.std.specs.Prelude.{List, ℕ};

    ghost Value = { List ℕ };

    ghost view = { λ l. l.items.items };
}

impl Ids {
    /// A list without identifiers. It takes no memory.
    pub fn new(alloc: Global) -> Ids
        ensures { result ≡ [] }
    {
        Ids {
            items: Vec::new(alloc),
        }
    }

    /// The list of the identifiers of a vector, the front first. It takes no memory.
    pub fn from_vec(items: Vec<u32>) -> Ids
        ensures { result ≡ items.items }
    {
        Ids { items }
    }

    /// The identifiers, the front first.
    pub fn items(&self) -> &[u32]
        ensures { result.now ≡ self.now }
    {
        &self.items
    }

    /// Changes the list, and answers the member that stood after one that left. A member that enters needs a
    /// spare vector with room for all members and itself; one that leaves takes no memory.
    pub fn change(&mut self, change: Change, spare: &mut Vec<u32>) -> Option<u32>
        requires can { CanChange change self.old (vec_capacity spare.old) }
        requires empty { spare.old.items ≡ [] }
        ensures list { self.new ≡ changed change self.old }
        ensures next { result ≡ next_after change self.old }
        ensures empty { spare.new.items ≡ [] }
    {
        match change {
            Change::Enter { member } => {
                insert_at(&mut self.items, 0, member, spare);
                None
            }
            Change::Return { member, next } => {
                let place = place_before(&self.items, next);
                insert_at(&mut self.items, place, member, spare);
                None
            }
            Change::Leave { member } => self.remove(member),
        }
    }

    // Takes a member out, and answers the member that stood after it.
    fn remove(&mut self, member: u32) -> Option<u32>
        requires { IsTrue (holds self.old member) }
        ensures next { result ≡ after self.old member }
        ensures list { self.new ≡ without member self.old }
    {
        let place = place_of(&self.items, member);
        let next = first_from(&self.items, place + 1);
        self.items.remove(place);
        next
    }
}

// The place before a member, or behind the last.
fn place_before(items: &[u32], next: Option<u32>) -> usize
    requires { IfSome next (λ member. IsTrue (holds items.now member)) }
    ensures within { result ≤ length items.now }
    ensures place { (id : ℕ) → placed id next items.now ≡ insert items.now result id }
{
    match next {
        None => items.len(),
        Some(member) => place_of(items, member),
    }
}

// The place of a member, from 0.
fn place_of(items: &[u32], member: u32) -> usize
    requires { IsTrue (holds items.now member) }
    ensures { IsPlaceOf member items.now result }
{
    for (place, id) in items.iter().enumerate() {
        if *id == member {
            return place;
        }
    }
    unreachable!()
}

// The identifier at a place, if there is one.
#[tactic(auto, using(crate::proofs::Places::first_at))]
fn first_from(items: &[u32], place: usize) -> Option<u32>
    ensures { result ≡ first (drop place items.now) }
{
    items.get(place).copied()
}

// Puts an identifier at a place. Where the vector is full, its items move to the spare one.
fn insert_at(items: &mut Vec<u32>, place: usize, id: u32, spare: &mut Vec<u32>)
    requires place { place ≤ length items.old.items }
    requires empty { spare.old.items ≡ [] }
    requires room { length items.old.items + 1 ≤ vec_capacity spare.old }
    ensures items { items.new.items ≡ insert items.old.items place id }
    ensures empty { spare.new.items ≡ [] }
{
    if items.len() == items.capacity() {
        exchange(items, spare);
    }
    match items.insert(place, id) {
        Ok(()) => {}
        Err(_) => unreachable!(),
    }
}

// Moves the items to the spare vector, which takes the place of their own.
fn exchange(items: &mut Vec<u32>, spare: &mut Vec<u32>)
    requires empty { spare.old.items ≡ [] }
    requires room { length items.old.items + 1 ≤ vec_capacity spare.old }
    ensures items { items.new.items ≡ items.old.items }
    ensures room { length items.new.items < vec_capacity items.new }
    ensures empty { spare.new.items ≡ [] }
{
    match spare.extend_from_slice(items) {
        Ok(()) => {}
        Err(_) => unreachable!(),
    }
    mem::swap(items, spare);
    spare.clear();
}
