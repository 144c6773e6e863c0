// Tests on a subgroup's tables: sets and owners by node, needs and caps by shard, costs at shard * 32 + node (from 255 up
// not allowed). An owner below 16 is the node's shard; any other means that the node is placed nowhere, which costs idle.
#![tactic(auto)]

pub mod floor;

ghost use Rattle.std.specs.Prelude.{◌≡◌, cond, true, false, [], ◌+◌, ◌*◌, ◌/◌, ◌%◌, ◌<◌, ◌≤◌, get_or, eqb, ltb};
ghost use Rattle.base_laws.specs.Definitions.{all_below, any_below, has};
ghost use Rattle.search_laws.specs.Case.{size, spread, weight};
ghost use Rattle.search_laws.specs.Tables.{case_of, owners_of};
ghost use Rattle.search_laws.specs.Tests.{stands, needs_met};
ghost use Rattle.search_judge.specs.Post.{WeightJudged, is_barred, hopeless_from};
ghost use Rattle.search_judge.specs.Met.{Joined, Met};
ghost use Rattle.search_judge.specs.Owners.{OwnersHeld};

// A byte as an index.
pub fn wide(x: u8) -> usize
    ensures { (result ≡ x) × (result < 256) }
{
    x as usize
}

// 1 where a and b are equal, else 0.
fn equal(a: u8, b: u8) -> u8
    ensures { (result ≡ cond (eqb a b) 1 0) × (result ≤ 1) }
{
    if a == b { 1 } else { 0 }
}

// How many nodes have owner i.
fn owned(owner: &[u8; 32], i: u8) -> u8
    ensures { result ≡ size (owners_of owner.now) i }
{
    let mut count: u8 = 0;
    for n in 0..32 {
        count += equal(owner[n], i);
    }
    count
}

// A shard as an owner.
fn narrow(i: usize) -> u8
    requires { i < 16 }
    ensures { result ≡ i }
{
    i as u8
}

// How many nodes shard i has.
pub fn size(owner: &[u8; 32], i: usize) -> usize
    requires { i < 16 }
    ensures { result ≡ size (owners_of owner.now) i }
{
    wide(owned(owner, narrow(i)))
}

// The shard of pair t.
pub fn shard(t: usize) -> u8
    requires { t < 512 }
    ensures { result ≡ t / 32 }
{
    (t / 32) as u8
}

// A mask of sets, with set f added where the owner o is shard i.
fn joined(m: u32, o: usize, i: usize, f: usize) -> u32
    requires { m < 65536 }
    ensures { Joined m o i f result }
{
    if o != i {
        return m;
    }
    if f < 16 {
        return base_masks::with(m, f);
    }
    m
}

// The failure sets of which shard i has nodes, as a mask.
fn met(sets: &[u8; 32], owner: &[u8; 32], i: usize) -> u32
    ensures { Met owner.now sets.now i 32 result }
{
    let mut m: u32 = 0;
    for n in 0..32 {
        m = joined(m, wide(owner[n]), i, wide(sets[n]));
    }
    m
}

// Of how many different sets shard i has nodes.
pub fn spread(sets: &[u8; 32], owner: &[u8; 32], i: usize) -> usize
    ensures { result ≡ spread (case_of sets.now [] [] [] 0) (owners_of owner.now) i }
{
    base_masks::count(met(sets, owner, i)) as usize
}

// The owners, as a mask.
fn owners(owner: &[u8; 32]) -> u32
    ensures { OwnersHeld owner.now 32 result }
{
    let mut m: u32 = 0;
    for n in 0..32 {
        m = base_masks::with(m, wide(owner[n]) % 32);
    }
    m
}

// Whether shard i needs no node and is none of the owners.
fn bare(needs: &[u8; 16], used: u32, i: usize) -> bool
    requires { i < 16 }
    ensures { result ≡ true → (get_or needs.now i 0 ≡ 0) × (has used i ≡ false) }
{
    if needs[i] > 0 {
        return false;
    }
    !base_masks::has(used, i)
}

// Shard i has no more nodes than its cap, and no fewer sets than its need. The mask has all owners.
fn filled_at(
    sets: &[u8; 32],
    needs: &[u8; 16],
    caps: &[u8; 16],
    owner: &[u8; 32],
    used: u32,
    i: usize,
) -> bool
    requires i_bound { i < 16 }
    requires owners_held { OwnersHeld owner.now 32 used }
    ensures { result ≡ needs_met (case_of sets.now needs.now caps.now [] 0) (owners_of owner.now) i }
{
    if bare(needs, used, i) {
        return true;
    }
    if size(owner, i) <= wide(caps[i]) {
        wide(needs[i]) <= spread(sets, owner, i)
    } else {
        false
    }
}

// Each shard has no more nodes than its cap, and no fewer sets than its need.
fn filled(sets: &[u8; 32], needs: &[u8; 16], caps: &[u8; 16], owner: &[u8; 32]) -> bool
    ensures { result ≡ all_below 16 (needs_met (case_of sets.now needs.now caps.now [] 0) (owners_of owner.now)) }
{
    let used = owners(owner);
    for i in 0usize..16 {
        if !filled_at(sets, needs, caps, owner, used, i) {
            return false;
        }
    }
    true
}

// Node n is placed nowhere, or where it is allowed.
fn stands_at(costs: &[u8; 512], o: usize, n: usize) -> bool
    requires { n < 32 }
    ensures { result ≡ cond (ltb o 16) (ltb (get_or costs.now (o * 32 + n) 0) 255) true }
{
    if o < 16 {
        costs[o * 32 + n] < 255
    } else {
        true
    }
}

// Each node that is placed is allowed there.
fn stands(costs: &[u8; 512], owner: &[u8; 32]) -> bool
    ensures { result ≡ all_below 32 (stands (case_of [] [] [] costs.now 0) (owners_of owner.now)) }
{
    for n in 0..32 {
        if !stands_at(costs, wide(owner[n]), n) {
            return false;
        }
    }
    true
}

// What node n costs under its owner o.
fn charge(costs: &[u8; 512], o: usize, n: usize, idle: u8) -> usize
    requires { n < 32 }
    ensures { (result ≡ cond (ltb o 16) (get_or costs.now (o * 32 + n) 0) idle) × (result < 256) }
{
    if o < 16 {
        wide(costs[o * 32 + n])
    } else {
        wide(idle)
    }
}

// The weight of the owners.
pub fn weight(costs: &[u8; 512], owner: &[u8; 32], idle: u8) -> usize
    ensures { (result ≡ weight (case_of [] [] [] costs.now idle) (owners_of owner.now)) × (result ≤ 8192) }
{
    let mut sum: usize = 0;
    for n in 0..32 {
        sum += charge(costs, wide(owner[n]), n, idle);
    }
    sum
}

// Whether the owners are a valid placement of a weight of at most k.
pub fn within(
    sets: &[u8; 32],
    needs: &[u8; 16],
    caps: &[u8; 16],
    costs: &[u8; 512],
    owner: &[u8; 32],
    idle: u8,
    k: usize,
) -> bool
    ensures { WeightJudged (case_of sets.now needs.now caps.now costs.now idle) k (owners_of owner.now) result }
{
    if !stands(costs, owner) {
        return false;
    }
    if !filled(sets, needs, caps, owner) {
        return false;
    }
    if weight(costs, owner, idle) > k {
        return false;
    }
    true
}

// Whether pair t, shard t / 32 with node t % 32, can't be taken beside the owners.
pub fn barred(
    sets: &[u8; 32],
    needs: &[u8; 16],
    caps: &[u8; 16],
    costs: &[u8; 512],
    owner: &[u8; 32],
    idle: u8,
    t: usize,
) -> bool
    requires { t < 512 }
    ensures { result ≡ is_barred (case_of sets.now needs.now caps.now costs.now idle) (owners_of owner.now) t }
{
    let i = t / 32;
    if owner[t % 32] < 16 {
        return true;
    }
    if costs[t] >= 255 {
        return true;
    }
    if size(owner, i) >= wide(caps[i]) {
        return true;
    }
    false
}

// Whether a shard before pair t has too few sets.
fn thin(sets: &[u8; 32], needs: &[u8; 16], owner: &[u8; 32], t: usize) -> bool
    requires { t ≤ 512 }
    ensures { result ≡ any_below (t / 32) (λ i. ltb (spread (case_of sets.now [] [] [] 0) (owners_of owner.now) i) (get_or needs.now i 0)) }
{
    let e = t / 32;
    for i in 0..e {
        if spread(sets, owner, i) < wide(needs[i]) {
            return true;
        }
    }
    false
}

// Whether the owners' placed nodes cost more than k or a shard before pair t has too few sets: then no valid placement of a weight of at
// most k agrees with them.
pub fn hopeless(
    sets: &[u8; 32],
    needs: &[u8; 16],
    caps: &[u8; 16],
    costs: &[u8; 512],
    owner: &[u8; 32],
    idle: u8,
    t: usize,
    k: usize,
) -> bool
    requires { t ≤ 512 }
    ensures { result ≡ hopeless_from (case_of sets.now needs.now caps.now costs.now idle) k (owners_of owner.now) t }
{
    if weight(costs, owner, 0) > k {
        return true;
    }
    thin(sets, needs, owner, t)
}
