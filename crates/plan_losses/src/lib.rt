// The held nodes whose loss means waiting.
#![tactic(auto)]

ghost use Rattle.std.specs.Prelude.{true, cond, ◌≡◌, ℕ, ◌^◌, ◌+◌, ◌≤◌, ◌<◌, min, get_or};
ghost use Rattle.base_laws.specs.Definitions.{tabulate};
ghost use Rattle.settings_values.specs.Definitions.{nodes, shards, Settings};
ghost use Rattle.place_groups.specs.Definitions.{group_valid};
ghost use Rattle.plan_masks.specs.Masks.{quorum_in};
ghost use Rattle.plan_masks.specs.Definitions.{Placeable};
ghost use Rattle.plan_losses.specs.Needs.{held_of, held_in, needs_at, needy_shards, need_of, group_needs, served_by, LowBelow, Tight};
ghost use Rattle.plan_losses.specs.Definitions.{Lost};
ghost use Rattle.plan_losses.specs.Losses.{quorums_in, Foretold, LostBelow};

use base_ids::{Node, Shard};
use report_views::Layout;

// One where the test holds.
fn counted(b: bool) -> u32
    ensures { (result ≡ cond b 1 0) × (result ≤ 1) }
{
    if b { 1 } else { 0 }
}

// Node n is held and of failure set f.
fn held_of(settings: &[u32], held: u32, f: u32, n: Node) -> bool
    requires settings { Settings settings.now }
    requires n_bound { n.0 < nodes settings.now }
    ensures { result ≡ held_of settings.now held f n.0 }
{
    if !base_masks::has(held, n.0 as usize) {
        return false;
    }
    settings_values::set_of(settings, n) == f
}

// How many held nodes are of failure set f.
fn held_in(settings: &[u32], held: u32, f: u32) -> u32
    requires { Settings settings.now }
    ensures { result ≡ held_in settings.now held f }
{
    let count = settings_values::nodes(settings);
    let mut total: u32 = 0;
    for n in 0..count {
        total += counted(held_of(settings, held, f, Node(n)));
    }
    total
}

// How many held nodes each failure set has.
fn held_counts(settings: &[u32], held: u32) -> [u32; 16]
    requires { Settings settings.now }
    ensures { result ≡ tabulate 16 (held_in settings.now held) }
{
    let mut counts = [0u32; 16];
    for f in 0u32..16 {
        counts[f as usize] = held_in(settings, held, f);
    }
    counts
}

// Shard s is of subgroup g and needs k or more.
fn needs_at(settings: &[u32], g: u32, k: u32, s: Shard) -> bool
    requires settings { Settings settings.now }
    requires s_bound { s.0 < shards settings.now }
    ensures { result ≡ needs_at settings.now g k s.0 }
{
    if settings_values::subgroup(settings, s) != g {
        return false;
    }
    k <= settings_values::need(settings, s)
}

// How many shards of subgroup g need k or more.
fn needy(settings: &[u32], g: u32, k: u32) -> u32
    requires { Settings settings.now }
    ensures { (result ≡ needy_shards settings.now g k) × (result ≤ 16) }
{
    let count = settings_values::shards(settings);
    let mut total: u32 = 0;
    for s in 0..count {
        total += counted(needs_at(settings, g, k, Shard(s)));
    }
    total
}

// What shard s needs, if it is of subgroup g and needs k or more.
fn need_of(settings: &[u32], g: u32, k: u32, s: Shard) -> u32
    requires settings { Settings settings.now }
    requires s_bound { s.0 < shards settings.now }
    ensures value { result ≡ need_of settings.now g k s.0 }
    ensures upper_bound { result ≤ 16 }
{
    if !needs_at(settings, g, k, s) {
        return 0;
    }
    settings_values::need(settings, s)
}

// What the shards of subgroup g that need k or more need together.
fn group_needs(settings: &[u32], g: u32, k: u32) -> u32
    requires { Settings settings.now }
    ensures { result ≡ group_needs settings.now g k }
{
    let count = settings_values::shards(settings);
    let mut total: u32 = 0;
    for s in 0..count {
        total += need_of(settings, g, k, Shard(s));
    }
    total
}

// The lesser of two numbers.
fn lesser(a: u32, b: u32) -> u32
    ensures { result ≡ min a b }
{
    if a < b {
        return a;
    }
    b
}

// How many nodes sets of so many serve j shards with: of each set one node a shard.
fn served(counts: &[u32; 16], j: u32) -> u32
    requires { j ≤ 16 }
    ensures { result ≡ served_by (λ f. get_or counts.now f 0) j }
{
    let mut total: u32 = 0;
    for f in 0..16 {
        total += lesser(counts[f], j);
    }
    total
}

// The sets with set f, if it has j nodes or fewer.
fn low_with(counts: &[u32; 16], j: u32, sets: u32, f: usize) -> u32
    requires f_bound { f < 16 }
    requires low_below { LowBelow counts.now j f sets }
    ensures { LowBelow counts.now j (f + 1) result }
{
    if counts[f] > j {
        return sets;
    }
    base_masks::with(sets, f)
}

// The sets with j nodes or fewer.
fn low_sets(counts: &[u32; 16], j: u32) -> u32
    ensures { LowBelow counts.now j 16 result }
{
    let mut sets: u32 = 0;
    for f in 0usize..16 {
        sets = low_with(counts, j, sets, f);
    }
    sets
}

// The tight sets, with those that shard s and the needier shards of its subgroup leave no node of.
fn tight_with(settings: &[u32], held: u32, counts: &[u32; 16], tight: u32, s: Shard) -> u32
    requires settings { Settings settings.now }
    requires held_bound { (held < 2 ^ nodes settings.now) × (s.0 < shards settings.now) }
    requires counts_value { counts.now ≡ tabulate 16 (held_in settings.now held) }
    requires tight { Tight settings.now held tight }
    ensures { Tight settings.now held result }
{
    let g = settings_values::subgroup(settings, s);
    let k = settings_values::need(settings, s);
    let j = needy(settings, g, k);
    let all = served(counts, j);
    let wanted = group_needs(settings, g, k);
    if wanted < all {
        return tight;
    }
    if all < wanted {
        return 65535;
    }
    tight | low_sets(counts, j)
}

// Failure sets none of whose held nodes can be lost: there is no placement then.
fn tight_sets(settings: &[u32], held: u32) -> u32
    requires settings { Settings settings.now }
    requires held_bound { held < 2 ^ nodes settings.now }
    ensures { Tight settings.now held result }
{
    let counts = held_counts(settings, held);
    let count = settings_values::shards(settings);
    let mut tight: u32 = 0;
    for s in 0..count {
        tight = tight_with(settings, held, &counts, tight, Shard(s));
    }
    tight
}

// The nodes that the shards of subgroup g have.
fn placed_in(settings: &[u32], laid: &[u32; 16], g: u32) -> u32
    requires { Settings settings.now }
{
    let count = settings_values::shards(settings);
    let mut used: u32 = 0;
    for s in 0..count {
        if settings_values::subgroup(settings, Shard(s)) == g {
            used = used | laid[s as usize];
        }
    }
    used
}

// The lowest node of a mask whose failure set is not among the sets, or 32.
fn substitute(settings: &[u32], idle: u32, sets: u32) -> u32
    requires { Settings settings.now }
{
    let count = settings_values::nodes(settings);
    for n in 0..count {
        if base_masks::has(idle, n as usize) {
            if !base_masks::has(
                sets,
                base_ids::wide(settings_values::set_of(settings, Node(n))),
            ) {
                return n;
            }
        }
    }
    32
}

// A placement in which shard s lacks a node: another shard of subgroup g gives it one of a set that is not among the sets, and has an idle one
// instead.
fn passed_on(
    settings: &[u32],
    laid: &[u32; 16],
    idle: u32,
    g: u32,
    s: usize,
    sets: u32,
) -> [u32; 16]
    requires settings { Settings settings.now }
    requires s_bound { s < 16 }
{
    let count = settings_values::shards(settings);
    let mut masks = *laid;
    for t in 0..count {
        if settings_values::subgroup(settings, Shard(t)) == g {
            let given = substitute(settings, laid[t as usize], sets);
            if given < 32 {
                let rest = base_masks::without(laid[t as usize], given as usize);
                let n = substitute(settings, idle, place_groups::sets_of(settings, rest));
                if n < 32 {
                    masks[t as usize] = base_masks::with(rest, n as usize);
                    masks[s] = base_masks::with(laid[s], given as usize);
                    return masks;
                }
            }
        }
    }
    masks
}

// A placement in which shard s of subgroup g is without a node: an idle node stands for it, or one that another shard passes on.
fn relieved(
    settings: &[u32],
    laid: &[u32; 16],
    idle: u32,
    g: u32,
    s: usize,
    node: usize,
) -> [u32; 16]
    requires settings { Settings settings.now }
    requires s_bound { s < 16 }
{
    let mut masks = *laid;
    let fewer = base_masks::without(laid[s], node);
    let sets = place_groups::sets_of(settings, fewer);
    let n = substitute(settings, idle, sets);
    if n < 32 {
        masks[s] = base_masks::with(fewer, n as usize);
        return masks;
    }
    masks[s] = fewer;
    passed_on(settings, &masks, idle, g, s, sets)
}

// A placement in which others stand for a node, in the shard of subgroup g that has it. What it is worth is judged by the caller.
fn instead(settings: &[u32], held: u32, laid: &[u32; 16], node: usize, g: u32) -> [u32; 16]
    requires { Settings settings.now }
{
    let idle = base_masks::minus(held, placed_in(settings, laid, g));
    let count = settings_values::shards(settings);
    for s in 0..count {
        if settings_values::subgroup(settings, Shard(s)) == g {
            if base_masks::has(laid[s as usize], node) {
                return relieved(settings, laid, idle, g, s as usize, node);
            }
        }
    }
    *laid
}

// How many nodes are left of a set, or 0 if it is among the sets.
fn left_of(mask: u32, sets: u32, f: usize) -> u32
    requires { f < 32 }
{
    if base_masks::has(sets, f) {
        return 0;
    }
    base_masks::count(mask)
}

// The set that has most of the nodes left, of those that are not among the sets, or 16.
fn fullest(left: &[u32; 16], sets: u32) -> usize {
    let mut best: usize = 16;
    let mut most: u32 = 0;
    for f in 0..16 {
        let own = left_of(left[f], sets, f);
        if own > most {
            best = f;
            most = own;
        }
    }
    best
}

// A mask without its lowest node.
fn without_lowest(m: u32) -> u32 {
    if m == 0 {
        return 0;
    }
    m & (m - 1)
}

// The held nodes of failure set f.
fn nodes_in(settings: &[u32], held: u32, f: u32) -> u32
    requires { Settings settings.now }
{
    let count = settings_values::nodes(settings);
    let mut mask: u32 = 0;
    for n in 0..count {
        if held_of(settings, held, f, Node(n)) {
            mask = base_masks::with(mask, n as usize);
        }
    }
    mask
}

// The held nodes by failure set.
fn by_set(settings: &[u32], held: u32) -> [u32; 16]
    requires { Settings settings.now }
{
    let mut left = [0u32; 16];
    for f in 0u32..16 {
        left[f as usize] = nodes_in(settings, held, f);
    }
    left
}

// The nodes left when a shard that needs so many has one of each of the fullest sets.
fn taken(left: &[u32; 16], need: u32) -> [u32; 16] {
    let mut rest = *left;
    let mut sets: u32 = 0;
    for k in 0..need {
        let f = fullest(&rest, sets);
        if f < 16 {
            rest[f] = without_lowest(rest[f]);
            sets = base_masks::with(sets, f);
        }
    }
    rest
}

// The nodes that are in one list of masks and not in another.
fn gone(left: &[u32; 16], rest: &[u32; 16]) -> u32 {
    let mut mask: u32 = 0;
    for f in 0..16 {
        mask = mask | base_masks::minus(left[f], rest[f]);
    }
    mask
}

// A placement of subgroup g in which every shard has nodes of the sets that are fullest when its turn comes.
fn dealt(settings: &[u32], held: u32, g: u32) -> [u32; 16]
    requires { Settings settings.now }
{
    let count = settings_values::shards(settings);
    let mut masks = [0u32; 16];
    let mut left = by_set(settings, held);
    for s in 0..count {
        if settings_values::subgroup(settings, Shard(s)) == g {
            let rest = taken(&left, settings_values::need(settings, Shard(s)));
            masks[s as usize] = gone(&left, &rest);
            left = rest;
        }
    }
    masks
}

// Subgroup g has a valid placement of the held nodes, as far as one that is dealt shows.
fn deals(settings: &[u32], held: u32, g: u32) -> bool
    requires { Settings settings.now }
    ensures { result ≡ true → (P : ℕ → ℕ) × (group_valid settings.now held P g ≡ true) }
{
    let masks = dealt(settings, held, g);
    place_groups::check::group_valid(settings, held, &masks, g)
}

// Subgroup g still has a valid placement of the held nodes, as far as an exchange in a given one or one that is dealt shows.
fn stays_in(settings: &[u32], held: u32, laid: &[u32; 16], node: usize, g: u32) -> bool
    requires { Settings settings.now }
    ensures { result ≡ true → (P : ℕ → ℕ) × (group_valid settings.now held P g ≡ true) }
{
    let masks = instead(settings, held, laid, node, g);
    if place_groups::check::group_valid(settings, held, &masks, g) {
        return true;
    }
    deals(settings, held, g)
}

// Every subgroup still has a valid placement of the held nodes, as far as it is shown without a search.
fn stays_placed(settings: &[u32], held: u32, laid: &[u32; 16], node: usize) -> bool
    requires { Settings settings.now }
    ensures { result ≡ true → Placeable settings.now held }
{
    for g in 0u32..4 {
        if !stays_in(settings, held, laid, node, g) {
            return false;
        }
    }
    true
}

// No restart is left with these nodes held. laid: a placement that may still serve once `node` is gone.
fn waits(
    settings: &[u32],
    v: Layout,
    held: u32,
    masks: &[u32; 16],
    laid: &[u32; 16],
    node: usize,
) -> bool
    requires settings { Settings settings.now }
    requires held_bound { held < 2 ^ nodes settings.now }
    ensures { Foretold settings.now held (quorum_in settings.now v held masks.now) result }
{
    let found = plan_masks::quorum(settings, v, held, masks);
    match found {
        Err(_) => true,
        Ok(()) => {
            if stays_placed(settings, held, laid, node) {
                return false;
            }
            let old = v.masks;
            let placed = place_layout::place(settings, held, &old);
            !placed.found
        }
    }
}

// The losses with node n, where it is one.
fn lost_with(
    settings: &[u32],
    v: Layout,
    held: u32,
    masks: &[u32; 16],
    tight: u32,
    laid: &[u32; 16],
    lost: u32,
    n: usize,
) -> u32
    requires settings { Settings settings.now }
    requires held_bound { (held < 2 ^ nodes settings.now) × (n < 32) }
    requires tight { Tight settings.now held tight }
    requires lost_below { LostBelow settings.now held (quorums_in settings.now v masks.now) n lost }
    ensures { LostBelow settings.now held (quorums_in settings.now v masks.now) (n + 1) result }
{
    if !base_masks::has(held, n) {
        return lost;
    }
    if base_masks::has(
        tight,
        base_ids::wide(settings_values::set_of(settings, Node(n as u32))),
    ) {
        return base_masks::with(lost, n);
    }
    if !waits(settings, v, base_masks::without(held, n), masks, laid, n) {
        return lost;
    }
    base_masks::with(lost, n)
}

// The held nodes without each of which there is no restart.
pub fn losses(settings: &[u32], v: Layout, held: u32, masks: &[u32; 16]) -> u32
    requires settings { Settings settings.now }
    requires held_bound { held < 2 ^ nodes settings.now }
    ensures { Lost settings.now held (quorums_in settings.now v masks.now) result }
{
    let old = v.masks;
    let placed = place_layout::place(settings, held, &old);
    let laid = placed.masks;
    let tight = tight_sets(settings, held);
    let mut lost: u32 = 0;
    for n in 0usize..32 {
        lost = lost_with(settings, v, held, masks, tight, &laid, lost, n);
    }
    lost
}
