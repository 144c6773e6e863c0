// The three kinds of identifier, which never stand for one another, a position in a shard's log, and a refusal.
#![tactic(auto)]

ghost use Rattle.std.specs.Prelude.{◌≡◌};

// The number of a node, from 0.
#[derive(Clone, Copy, PartialEq, Eq)]
pub struct Node(pub u32);

// The number of a shard, from 0.
#[derive(Clone, Copy, PartialEq, Eq)]
pub struct Shard(pub u32);

// The number of a view, from 1; 0 stands for no view.
#[derive(Clone, Copy, PartialEq, Eq, PartialOrd, Ord)]
pub struct View(pub u32);

// A position of a log: update k of a view. (0, 0) is before all others and is the end of an empty log.
#[derive(Clone, Copy, PartialEq, Eq)]
pub struct Position {
    pub view: View,
    pub k: u32,
}

// A refusal in one word: its number in document 01's table and 256 times the index of the record it tells; 0 is none.
#[derive(Clone, Copy, PartialEq, Eq)]
pub struct Refusal {
    pub code: u32,
}

// A word as an index.
pub fn wide(x: u32) -> usize
    ensures { result ≡ x }
{
    x as usize
}
