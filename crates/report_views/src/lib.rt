// Views, terminations and waits as values. What the desk's reports say, the quorum, targets and holders stand in specs/.
#![tactic(auto)]

ghost use Rattle.std.specs.Prelude.{◌≡◌, replicate};
ghost use Rattle.report_views.specs.Definitions.{start};

use base_ids::{Node, Position, Shard, View};

// A view: its number (0: none), its members and each shard's members. Entries from S up are 0.
#[derive(Clone, Copy)]
pub struct Layout {
    pub number: View,
    pub members: u32,
    pub masks: [u32; 16],
}

// An epoch termination, if one was made: for each shard the position at which its log ends. Entries from S up are (0, 0).
#[derive(Clone, Copy)]
pub struct Termination {
    pub made: bool,
    pub positions: [Position; 16],
}

// Why no restart is possible yet.
#[derive(Clone, Copy)]
pub enum Reason {
    // no view is kept
    NoView,
    // the held members of the kept view are not more than half of it
    NoMajority,
    // fewer nodes are held than the least group size
    TooFew,
    // this shard has no holder
    NoHolder(Shard),
    // this subgroup has no valid placement
    NoPlacement(u32),
}

// Whether the quorum conditions are met, and if not the first that fails, as definitions have it; calls give a Result.
#[derive(Clone, Copy)]
pub enum Quorum {
    Met,
    Short(Reason),
}

// A plan: the new view, the moves of its placements, and each shard's holder and target. Entries from S up are 0.
#[derive(Clone, Copy)]
pub struct Plan {
    pub layout: Layout,
    pub total: u32,
    pub holders: [Node; 16],
    pub targets: [Position; 16],
}

// Where a restart stands.
#[derive(Clone, Copy)]
pub enum Phase {
    // reports come in
    Gathering,
    // a plan stands, and nodes fetch what they lack
    Ordered,
    // all have fetched, and nodes prepare the new view
    Preparing,
    // all have prepared: the restart is done
    Committed,
}

// No position: (0, 0) for every shard.
pub fn no_positions() -> [Position; 16]
    ensures { result ≡ replicate 16 start }
{
    let p = Position {
        view: View(0),
        k: 0,
    };
    [p; 16]
}
