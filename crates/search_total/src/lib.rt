// The first valid placement of a subgroup of a weight of at most k, and the first of least weight, or that there is none. The tables are
// those of search_judge; shards ascending, the smaller list of nodes in dictionary order comes first, and a list before a longer one.
#![tactic(auto)]

ghost use Rattle.std.specs.Prelude.{◌≡◌, true, Some, [], ◌+◌, ◌≤◌, ◌<◌, eqb};
ghost use Rattle.search_laws.specs.Case.{WeighsWithin};
ghost use Rattle.search_laws.specs.Order.{HasNone, From, shard_end};
ghost use Rattle.search_laws.specs.Tables.{case_of, owners_of};
ghost use Rattle.search_total.specs.Post.{ReadyFrom, Sought, WithinAnswer, LeastAnswer, as_solution};
ghost use Rattle.search_total.specs.Answers.{HasOwners};

// A placement: its weight, and the owner of each node, 16 for none.
#[derive(Clone, Copy)]
pub struct Assignment {
    pub weight: usize,
    pub owners: [u8; 32],
}

// What a search found, as definitions have it: a placement, or, where none exists, the weight 0 and no owners.
#[derive(Clone, Copy)]
pub struct Solution {
    pub exists: bool,
    pub weight: usize,
    pub owners: [u8; 32],
}

// The first pair of the next shard.
pub fn next(t: usize) -> usize
    requires { t < 512 }
    ensures { (result ≡ shard_end t) × (t < result) × (result ≤ 512) }
{
    (t / 32 + 1) * 32
}

// Whether the pair after t is of the same shard.
pub fn same_shard(t: usize) -> bool
    requires { t < 512 }
    ensures { result ≡ eqb (shard_end (t + 1)) (shard_end t) }
{
    t % 32 < 31
}

// Depth first over the pairs from t on: the shard's list is ended before a pair is taken, and a pair is taken before it is left.
// Where `tried` says so there is none with the list ended here.
fn seek(
    sets: &[u8; 32],
    needs: &[u8; 16],
    caps: &[u8; 16],
    costs: &[u8; 512],
    owner: &mut [u8; 32],
    idle: u8,
    t: usize,
    k: usize,
    tried: bool,
) -> bool
    requires t_bound { t ≤ 512 }
    requires ready_from { ReadyFrom owner.old t }
    requires has_none { tried ≡ true → HasNone (From (WeighsWithin (case_of sets.now needs.now caps.now costs.now idle) k) (owners_of owner.old) (shard_end t)) }
    ensures { Sought (case_of sets.now needs.now caps.now costs.now idle) k owner.old t owner.new result }
{
    if t == 512 {
        return search_judge::within(sets, needs, caps, costs, owner, idle, k);
    }
    if search_judge::hopeless(sets, needs, caps, costs, owner, idle, t, k) {
        return false;
    }
    if !tried {
        if seek(sets, needs, caps, costs, owner, idle, next(t), k, false) {
            return true;
        }
        return seek(sets, needs, caps, costs, owner, idle, t, k, true);
    }
    if search_judge::barred(sets, needs, caps, costs, owner, idle, t) {
        if !same_shard(t) {
            return false;
        }
        return seek(sets, needs, caps, costs, owner, idle, t + 1, k, true);
    }
    owner[t % 32] = search_judge::shard(t);
    if seek(sets, needs, caps, costs, owner, idle, t + 1, k, false) {
        return true;
    }
    owner[t % 32] = 16;
    if !same_shard(t) {
        return false;
    }
    seek(sets, needs, caps, costs, owner, idle, t + 1, k, true)
}

// The placement by its owners.
pub fn placed(costs: &[u8; 512], owners: [u8; 32], idle: u8) -> Assignment
    ensures { HasOwners (case_of [] [] [] costs.now idle) owners (as_solution (Some result)) }
{
    let weight = search_judge::weight(costs, &owners, idle);
    Assignment { weight, owners }
}

// The first valid placement of a weight of at most k.
pub fn plain_within(
    sets: &[u8; 32],
    needs: &[u8; 16],
    caps: &[u8; 16],
    costs: &[u8; 512],
    idle: u8,
    k: usize,
) -> Option<Assignment>
    ensures { WithinAnswer (case_of sets.now needs.now caps.now costs.now idle) k (as_solution result) }
{
    let mut owner = [16u8; 32];
    if !seek(sets, needs, caps, costs, &mut owner, idle, 0, k, false) {
        return None;
    }
    Some(placed(costs, owner, idle))
}

// The first of the valid placements of least weight: from the first of all, each time one of less weight, until there is none.
pub fn plain_least(
    sets: &[u8; 32],
    needs: &[u8; 16],
    caps: &[u8; 16],
    costs: &[u8; 512],
    idle: u8,
) -> Option<Assignment>
    ensures { LeastAnswer (case_of sets.now needs.now caps.now costs.now idle) (as_solution result) }
{
    let start = plain_within(sets, needs, caps, costs, idle, 8192)?;
    let mut k = start.weight;
    while k > 0 {
        match plain_within(sets, needs, caps, costs, idle, k - 1) {
            Some(lighter) => k = lighter.weight,
            None => return plain_within(sets, needs, caps, costs, idle, k),
        }
    }
    plain_within(sets, needs, caps, costs, idle, k)
}
