// The game of outage and crew, on a table of decisions: the number that decide would give for each mask of held nodes.
#![tactic(auto)]

ghost use Rattle.std.specs.Prelude.{◌≡◌, ◌≤◌, ◌<◌, ◌^◌};
ghost use Rattle.game_rules.specs.Turns.{absent as Absent·test, outage_turn, crew_turn, winner_of};
ghost use Rattle.base_laws.specs.Definitions.{any_below};
ghost use Rattle.game_turns.specs.Table as Table;

use base_ids::Node;
use game_rules::{Lead, Winner};

// With these nodes held there is a plan.
fn has_plan(table: &[u8; 1024], held: u32) -> bool
    requires { held < 1024 }
    ensures { result ≡ Table.plan_at table.now held }
{
    table[held as usize] == 0
}

// Node b is absent, and not the one just taken.
fn is_absent(held: u32, taken: usize, b: usize) -> bool
    ensures { result ≡ Absent·test held taken b }
{
    if base_masks::has(held, b) {
        return false;
    }
    b != taken
}

// Some node is absent, other than the one just taken.
fn some_absent(nodes: usize, held: u32, taken: usize) -> bool
    ensures { result ≡ any_below nodes (Absent·test held taken) }
{
    for b in 0..nodes {
        if is_absent(held, taken, b) {
            return true;
        }
    }
    false
}

// The outage is to move: the crew can hold for the half-rounds that are left.
#[cycle(crew_outage)]
fn outage(left: u32, held: u32, nodes: usize, table: &[u8; 1024]) -> bool
    requires { (nodes ≤ 10) × (held < 2 ^ nodes) }
    ensures { result ≡ outage_turn nodes (Table.plan_at table.now) left held }
{
    if left == 0 {
        return true;
    }
    if held == 0 {
        return crew(left - 1, 0, 32, nodes, table);
    }
    for o in 0..nodes {
        if base_masks::has(held, o) {
            if !crew(left - 1, base_masks::without(held, o), o, nodes, table) {
                return false;
            }
        }
    }
    true
}

// The crew is to move, after the outage took a node (32: it passed): it can hold.
#[cycle(crew_outage)]
fn crew(left: u32, held: u32, taken: usize, nodes: usize, table: &[u8; 1024]) -> bool
    requires { (nodes ≤ 10) × (held < 2 ^ nodes) }
    ensures { result ≡ crew_turn nodes (Table.plan_at table.now) left held taken }
{
    if left == 0 {
        return true;
    }
    if !some_absent(nodes, held, taken) {
        if !has_plan(table, held) {
            return false;
        }
        return outage(left - 1, held, nodes, table);
    }
    for b in 0..nodes {
        if is_absent(held, taken, b) {
            let back = base_masks::with(held, b);
            if has_plan(table, back) {
                if outage(left - 1, back, nodes, table) {
                    return true;
                }
            }
        }
    }
    false
}

// Who wins in so many rounds with these nodes held, and by which first node.
pub fn winner(rounds: u32, held: u32, nodes: usize, table: &[u8; 1024]) -> Winner
    requires nodes_bound { (nodes ≤ 10) × (held < 2 ^ nodes) }
    requires rounds_bound { rounds ≤ 3 }
    ensures { result ≡ winner_of nodes (Table.plan_at table.now) rounds held }
{
    if rounds == 0 {
        return Winner::Crew;
    }
    let left = 2 * rounds - 1;
    if held == 0 {
        if crew(left, 0, 32, nodes, table) {
            return Winner::Crew;
        }
        return Winner::Outage(Lead::Passing);
    }
    for o in 0..nodes {
        if base_masks::has(held, o) {
            if !crew(left, base_masks::without(held, o), o, nodes, table) {
                return Winner::Outage(Lead::Taking(Node(o as u32)));
            }
        }
    }
    Winner::Crew
}
