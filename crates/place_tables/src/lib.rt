// A subgroup's tables for the search, from the settings, the held nodes, the old members and the sheet.
#![tactic(auto)]

ghost use Rattle.std.specs.Prelude.{◌≡◌, true, ◌+◌, ◌*◌, ◌-◌, ◌≤◌, ◌<◌, ◌^◌, get_or};
ghost use Rattle.settings_values.specs.Definitions.{Settings, nodes, set_of};
ghost use Rattle.place_groups.specs.Sheet.{sheet_of, sheet_at};
ghost use Rattle.place_groups.specs.Definitions.{of_group};
ghost use Rattle.place_laws.specs.Cases.{set_in, need_in, cap_in, move_cost, cost_in};
ghost use Rattle.place_laws.specs.Tables.{sets_table, needs_table, caps_table, costs_table, costs_below};

use base_ids::{Node, Shard};

// The shard is one, of subgroup g.
pub fn in_group(settings: &[u32], g: u32, shard: Shard) -> bool
    requires { Settings settings.now }
    ensures { result ≡ of_group settings.now g shard.0 }
{
    if shard.0 >= settings_values::shards(settings) {
        return false;
    }
    settings_values::subgroup(settings, shard) == g
}

// The failure set of node n; 0 from N up.
fn set_at(settings: &[u32], n: u32) -> u8
    requires { Settings settings.now }
    ensures { result ≡ set_in settings.now n }
{
    if n >= settings_values::nodes(settings) {
        return 0;
    }
    settings_values::set_of(settings, Node(n)) as u8
}

// The failure set of each node.
pub fn sets(settings: &[u32]) -> [u8; 32]
    requires { Settings settings.now }
    ensures { result ≡ sets_table settings.now }
{
    let mut table = [0u8; 32];
    for n in 0u32..32 {
        table[n as usize] = set_at(settings, n);
    }
    table
}

// From how many sets shard s needs nodes; none if it is not of subgroup g.
fn need_at(settings: &[u32], g: u32, s: u32) -> u8
    requires { Settings settings.now }
    ensures { result ≡ need_in settings.now g s }
{
    if !in_group(settings, g, Shard(s)) {
        return 0;
    }
    settings_values::need(settings, Shard(s)) as u8
}

// What each shard of subgroup g needs.
pub fn needs(settings: &[u32], g: u32) -> [u8; 16]
    requires { Settings settings.now }
    ensures { result ≡ needs_table settings.now g }
{
    let mut table = [0u8; 16];
    for s in 0u32..16 {
        table[s as usize] = need_at(settings, g, s);
    }
    table
}

// How many nodes shard s may have; none if it is not of subgroup g.
fn cap_at(settings: &[u32], g: u32, s: u32) -> u8
    requires { Settings settings.now }
    ensures { result ≡ cap_in settings.now g s }
{
    if !in_group(settings, g, Shard(s)) {
        return 0;
    }
    settings_values::cap(settings, Shard(s)) as u8
}

// What each shard of subgroup g may have.
pub fn caps(settings: &[u32], g: u32) -> [u8; 16]
    requires { Settings settings.now }
    ensures { result ≡ caps_table settings.now g }
{
    let mut table = [0u8; 16];
    for s in 0u32..16 {
        table[s as usize] = cap_at(settings, g, s);
    }
    table
}

// How many nodes shard s of subgroup g may have over its need.
fn spare_at(settings: &[u32], g: u32, s: u32) -> u8
    requires { Settings settings.now }
    ensures value { result ≡ cap_in settings.now g s - need_in settings.now g s }
    ensures upper_bound { result ≤ 15 }
{
    cap_at(settings, g, s) - need_at(settings, g, s)
}

// What a move costs in subgroup g: one more than the nodes that its caps allow over its needs.
fn move_cost(settings: &[u32], g: u32) -> u8
    requires { Settings settings.now }
    ensures { result ≡ move_cost settings.now g }
{
    let mut cost: u8 = 1;
    for s in 0u32..16 {
        cost += spare_at(settings, g, s);
    }
    cost
}

// The sheet's entry for shard s and the failure set of node n.
fn entry(settings: &[u32], held: u32, old: &[u32; 16], sheet: &[[u8; 16]; 16], s: u32, n: u32) -> u8
    requires settings { Settings settings.now }
    requires sheet_value { sheet.now ≡ sheet_of settings.now held (λ i. get_or old.now i 0) }
    requires s_bound { s < 16 }
    requires n_bound { n < nodes settings.now }
    ensures { result ≡ sheet_at settings.now held (λ i. get_or old.now i 0) s (set_of settings.now n) }
{
    let f = settings_values::set_of(settings, Node(n)) as usize;
    sheet[s as usize][f]
}

// The cost of shard s of subgroup g and node n, as far as the sheet tells it: an entry of 2 says that the node is not held, one of 1 that
// no held node of its set was a member. Only at an entry of 0 the old members are looked at.
fn cost_at(
    settings: &[u32],
    held: u32,
    old: &[u32; 16],
    sheet: &[[u8; 16]; 16],
    g: u32,
    w: u8,
    s: u32,
    n: u32,
) -> u8
    requires settings { Settings settings.now }
    requires held_bound { held < 2 ^ nodes settings.now }
    requires sheet_value { sheet.now ≡ sheet_of settings.now held (λ i. get_or old.now i 0) }
    requires w_value { w ≡ move_cost settings.now g }
    requires s_value { of_group settings.now g s ≡ true }
    ensures { result ≡ cost_in settings.now held (λ i. get_or old.now i 0) g s n }
{
    if n >= settings_values::nodes(settings) {
        return 255;
    }
    let least = entry(settings, held, old, sheet, s, n);
    if least == 2 {
        return 255;
    }
    if !base_masks::has(held, n as usize) {
        return 255;
    }
    if least == 1 {
        return w;
    }
    let was = old[s as usize];
    if base_masks::has(was, n as usize) {
        0
    } else {
        w
    }
}

// The table so far, with the costs of shard s of subgroup g.
fn cost_row(
    settings: &[u32],
    held: u32,
    old: &[u32; 16],
    sheet: &[[u8; 16]; 16],
    g: u32,
    w: u8,
    s: u32,
    table: &mut [u8; 512],
)
    requires settings { Settings settings.now }
    requires held_bound { held < 2 ^ nodes settings.now }
    requires sheet_value { sheet.now ≡ sheet_of settings.now held (λ i. get_or old.now i 0) }
    requires w_value { w ≡ move_cost settings.now g }
    requires s_value { of_group settings.now g s ≡ true }
    requires table_value { table.old ≡ costs_below settings.now held (λ i. get_or old.now i 0) g (s * 32) }
    ensures { table.new ≡ costs_below settings.now held (λ i. get_or old.now i 0) g (s * 32 + 32) }
{
    for n in 0u32..32 {
        table[(s * 32 + n) as usize] = cost_at(settings, held, old, sheet, g, w, s, n);
    }
}

// The cost of each shard of subgroup g and each node: 0 the node was a member, the cost of a move if it was none, 255 it is not allowed there.
pub fn costs(
    settings: &[u32],
    held: u32,
    old: &[u32; 16],
    sheet: &[[u8; 16]; 16],
    g: u32,
) -> [u8; 512]
    requires settings { Settings settings.now }
    requires held_bound { held < 2 ^ nodes settings.now }
    requires sheet_value { sheet.now ≡ sheet_of settings.now held (λ i. get_or old.now i 0) }
    ensures { result ≡ costs_table settings.now held (λ i. get_or old.now i 0) g }
{
    let w = move_cost(settings, g);
    let mut table = [255u8; 512];
    for s in 0u32..16 {
        if in_group(settings, g, Shard(s)) {
            cost_row(settings, held, old, sheet, g, w, s, &mut table);
        }
    }
    table
}
