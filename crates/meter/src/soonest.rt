//! Numbers, and which of them comes first.
ghost use Rattle.std.specs.Prelude.{◌≡◌, ◌≤◌, ◌<◌, ◌+◌, ◌*◌, ◌/◌, ◌%◌, length, replicate, set, IfOk};
ghost use Rattle.meter.specs.Soonests.{AreNodesBut, IsRenewed, IsSoonest as IsTreeOver, IsFirst, IsLeastNumber, IsLeastOf};

use lists::limits::GREATEST_NUMBER;
use std::alloc::{AllocError, Global};
use std::marker::Model;

/// A number past all that are asked for.
pub const NEVER: u64 = 2 * GREATEST_NUMBER;

/// How many places a key tells apart.
///
/// A key is a number and its place, so that the sooner of two is their minimum, which takes no
/// branch that a processor would guess wrong.
const PLACES: u64 = 1024;

/// Numbers up to `NEVER`, with a tree of their keys: its second half are the keys, and each node
/// before is the lesser of the two below it.
#[derive(Debug, Drop)]
pub struct Soonest {
    numbers: Vec<u64>,
    tree: Vec<u64>,
}

impl Model for Soonest {
    ghost use Rattle.std.specs.Prelude.{List, ℕ};

    ghost Value = { List ℕ };

    ghost use Rattle.meter.specs.Soonests.{IsSoonest};

    ghost view = { λ s. s.numbers.items };

    ghost invariant = { λ s. IsSoonest s.numbers.items s.tree.items };
}

/// The other one below the same node.
fn sibling(at: usize) -> usize
    requires { 1 < at }
    ensures { result + at ≡ 4 * (at / 2) + 1 }
{
    if at % 2 == 0 { at + 1 } else { at - 1 }
}

/// Puts another key on a leaf, and renews the nodes above it.
fn renew(tree: &mut [u64], leaf: usize, key: u64)
    requires leaf { length tree.old ≤ 2 * leaf }
    requires within { leaf < length tree.old }
    requires even { length tree.old % 2 ≡ 0 }
    requires nodes { AreNodesBut tree.old 1 }
    ensures { IsRenewed tree.old leaf key tree.new }
{
    tree[leaf] = key;
    let mut at = leaf;
    let mut least = key;
    while at > 1 {
        least = least.min(tree[sibling(at)]);
        at /= 2;
        tree[at] = least;
    }
}

/// Puts the keys of so many numbers 0 on the leaves of a tree of zeros.
fn plant(tree: &mut [u64], count: usize)
    requires some { 0 < count }
    requires few { count ≤ 1000 }
    requires zeros { tree.old ≡ replicate (2 * count) 0 }
    ensures { IsTreeOver (replicate count 0) tree.new }
{
    for k in 0..count {
        renew(tree, count + k, k as u64);
    }
}

impl Soonest {
    /// So many times the number 0.
    pub fn new(alloc: Global, count: usize) -> Result<Soonest, AllocError>
        requires some { 0 < count }
        requires few { count ≤ 1000 }
        ensures { IfOk result (λ s. s ≡ replicate count 0) }
    {
        let numbers = vec![in alloc; 0; count]?;
        let mut tree = vec![in alloc; 0; 2 * count]?;
        plant(&mut tree, count);
        Ok(Soonest { numbers, tree })
    }

    pub fn set(&mut self, k: usize, number: u64)
        requires place { k < length self.old }
        requires number { number ≤ 2000000000 }
        ensures { self.new ≡ set self.old k number }
    {
        // It stands there already: the tree is right.
        if self.numbers[k] == number {
            return;
        }
        let leaf = self.numbers.len() + k;
        self.numbers[k] = number;
        renew(&mut self.tree, leaf, number * PLACES + k as u64);
    }

    /// The least of the numbers.
    pub fn least(&self) -> u64
        ensures { IsLeastNumber self.now result }
    {
        self.tree[1] / PLACES
    }

    /// A place at which the least number stands.
    pub fn first(&self) -> u32
        ensures { IsFirst self.now result }
    {
        (self.tree[1] % PLACES) as u32
    }

    /// The least of the numbers, where it is below the bound; else the bound.
    pub fn least_below(&self, bound: u64) -> u64
        ensures { IsLeastOf self.now bound result }
    {
        self.least().min(bound)
    }
}
