// The game of outage and crew: who wins it, and theorems.
#![tactic(auto)]

use base_ids::Node;

// The first move of the outage: it takes a node down, or passes where none is held.
#[derive(Clone, Copy)]
pub enum Lead {
    Taking(Node),
    Passing,
}

// The side that can force the win; the outage with its lowest first move that does it.
#[derive(Clone, Copy)]
pub enum Winner {
    Crew,
    Outage(Lead),
}
