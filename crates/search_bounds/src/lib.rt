// Excludes pairs of shard and node by weights, finds nodes that must be placed, and a floor of the weight. The weights are numbers from
// anywhere: no floor, no exclusion and no mark rests on them being good. Where an inequality fails, the cut says so.
// Pairs that are open: masks of nodes by shard; after them the mask of the nodes that must be placed.
#![tactic(auto)]

ghost use Rattle.std.specs.Prelude.{◌≡◌, true, cond, [], IfSome, ◌+◌, ◌*◌, ◌-◌, ◌/◌, ◌^◌, ◌≤◌, ◌<◌, min, length, get_or, leb, ltb};
ghost use Rattle.base_laws.specs.Definitions.{all_below, has, with, without};
ghost use Rattle.base_sum_laws.specs.Definitions.{mask_below, sum_below};
ghost use Rattle.search_laws.specs.Tables.{case_of, owners_of};
ghost use Rattle.search_laws.specs.Order.{Begun};
ghost use Rattle.search_laws.specs.Duality.{gain, toll};
ghost use Rattle.search_bounds.specs.Post.{weights_of, Small, steady, SoundBound};
ghost use Rattle.search_bounds.specs.Rows.{Onward, Sifted, RowCut};

use search_judge::wide;

// A weight as a number.
fn large(x: u16) -> usize
    ensures { (result ≡ x) × (result < 65536) }
{
    x as usize
}

// A product of a byte and a weight.
fn times(a: u8, b: u16) -> usize
    ensures { (result ≡ a * b) × (result ≤ 16777216) }
{
    wide(a) * large(b)
}

// Numbers by shard, each times its shard's weight.
fn weighted(counts: &[u8; 16], weights: &[u16; 16]) -> usize
    ensures { (result ≡ sum_below 16 (λ i. get_or counts.now i 0 * get_or weights.now i 0)) × (result ≤ 268435456) }
{
    let mut sum: usize = 0;
    for i in 0..16 {
        sum += times(counts[i], weights[i]);
    }
    sum
}

// The sum of the nodes' weights.
fn all_nodes(nodes: &[u16; 32]) -> usize
    ensures { (result ≡ sum_below 32 (λ n. get_or nodes.now n 0)) × (result ≤ 2097152) }
{
    let mut sum: usize = 0;
    for n in 0..32 {
        sum += large(nodes[n]);
    }
    sum
}

// A weight in 32 bits.
fn word(x: u16) -> u32
    ensures { (result ≡ x) × (result < 65536) }
{
    x as u32
}

// Such a sum as a number.
fn counted(x: u32) -> usize
    ensures { result ≡ x }
{
    x as usize
}

// The sum of shard i's pairs, each at most the need's weight.
fn row(want: u16, pairs: &[u16; 256], i: usize) -> u32
    requires { i < 16 }
    ensures { (result ≡ sum_below 16 (λ f. min want (get_or pairs.now (i * 16 + f) 0))) × (result ≤ 1048576) }
{
    if want == 0 {
        return 0;
    }
    let mut sum: u32 = 0;
    for f in 0usize..16 {
        sum += word(smaller(want, pairs[i * 16 + f]));
    }
    sum
}

// The sum of all pairs.
fn all_pairs(wants: &[u16; 16], pairs: &[u16; 256]) -> u32
    ensures { (result ≡ sum_below 16 (λ i. sum_below 16 (λ f. min (get_or wants.now i 0) (get_or pairs.now (i * 16 + f) 0)))) × (result ≤ 16777216) }
{
    let mut sum: u32 = 0;
    for i in 0..16 {
        sum += row(wants[i], pairs, i);
    }
    sum
}

// What the weights grant.
fn grants(needs: &[u8; 16], wants: &[u16; 16]) -> usize
    ensures { (result ≡ gain (case_of [] needs.now [] [] 0) (weights_of wants.now [] [] [])) × (result ≤ 536870912) }
{
    weighted(needs, wants) + 524288
}

// What the weights take.
fn takes(
    caps: &[u8; 16],
    wants: &[u16; 16],
    rooms: &[u16; 16],
    nodes: &[u16; 32],
    pairs: &[u16; 256],
) -> usize
    ensures { (result ≡ toll (case_of [] [] caps.now [] 0) (weights_of wants.now rooms.now nodes.now pairs.now)) × (result ≤ 536870912) }
{
    counted(all_pairs(wants, pairs)) + weighted(caps, rooms) + all_nodes(nodes)
}

// The smaller of two weights.
fn smaller(a: u16, b: u16) -> u16
    ensures { result ≡ min a b }
{
    if a < b { a } else { b }
}

// What node n at cost c asks of shard i, its room not counted.
fn asks(
    sets: &[u8; 32],
    want: u16,
    nodes: &[u16; 32],
    pairs: &[u16; 256],
    c: u8,
    i: usize,
    n: usize,
) -> usize
    requires i_bound { (i < 16) × (n < 32) }
    requires small { Small sets.now }
    ensures { (result ≡ c + min want (get_or pairs.now (i * 16 + get_or sets.now n 0) 0) + get_or nodes.now n 0) × (result ≤ 196608) }
{
    wide(c) + large(smaller(want, pairs[i * 16 + wide(sets[n])])) + large(nodes[n])
}

// A weight from the base.
fn based(x: u16) -> usize
    ensures { (result ≡ x + 16384) × (result ≤ 131072) }
{
    large(x) + 16384
}

// What a node that is placed nowhere asks.
fn rests(idle: u8, x: u16) -> usize
    ensures { (result ≡ idle + x) × (result ≤ 131072) }
{
    wide(idle) + large(x)
}

// Node n's inequality, with its owner or with none.
fn steady(
    sets: &[u8; 32],
    costs: &[u8; 512],
    owner: &[u8; 32],
    wants: &[u16; 16],
    rooms: &[u16; 16],
    nodes: &[u16; 32],
    pairs: &[u16; 256],
    idle: u8,
    n: usize,
) -> bool
    requires n_bound { n < 32 }
    requires small { Small sets.now }
    ensures { result ≡ steady (case_of sets.now [] [] costs.now idle) (weights_of wants.now rooms.now nodes.now pairs.now) (owners_of owner.now) n }
{
    let o = wide(owner[n]);
    if o < 16 {
        let want = wants[o];
        based(want) <= asks(sets, want, nodes, pairs, costs[o * 32 + n], o, n) + large(rooms[o])
    } else {
        16384 <= rests(idle, nodes[n])
    }
}

// Every node's.
fn all_steady(
    sets: &[u8; 32],
    costs: &[u8; 512],
    owner: &[u8; 32],
    wants: &[u16; 16],
    rooms: &[u16; 16],
    nodes: &[u16; 32],
    pairs: &[u16; 256],
    idle: u8,
) -> bool
    requires { Small sets.now }
    ensures { result ≡ all_below 32 (steady (case_of sets.now [] [] costs.now idle) (weights_of wants.now rooms.now nodes.now pairs.now) (owners_of owner.now)) }
{
    for n in 0usize..32 {
        if !steady(sets, costs, owner, wants, rooms, nodes, pairs, idle, n) {
            return false;
        }
    }
    true
}

// The mask m, with node n where that is so.
pub fn added(m: u32, n: usize, yes: bool) -> u32
    requires { n < 32 }
    ensures { result ≡ cond yes (with m n) m }
{
    if yes { base_masks::with(m, n) } else { m }
}

// The mask m, without node n where that is so.
fn dropped(m: u32, n: usize, yes: bool) -> u32
    ensures { result ≡ cond yes (without m n) m }
{
    if yes { base_masks::without(m, n) } else { m }
}

// The nodes without an owner.
fn unowned(owner: &[u8; 32]) -> u32
    ensures { result ≡ mask_below 32 (λ n. leb 16 (get_or owner.now n 0)) }
{
    let mut m: u32 = 0;
    for n in 0..32 {
        m = added(m, n, owner[n] >= 16);
    }
    m
}

// The nodes whose bound, placed nowhere, is above what is allowed.
fn must(nodes: &[u16; 32], idle: u8, low: usize, high: usize) -> u32
    requires { (low ≤ 1073741824) × (high ≤ 1073741824) }
    ensures { result ≡ mask_below 32 (λ n. ltb (low + 16384) (high + (idle + get_or nodes.now n 0))) }
{
    let mut m: u32 = 0;
    for n in 0..32 {
        m = added(m, n, low + 16384 < high + rests(idle, nodes[n]));
    }
    m
}

// The nodes before n.
fn before_node(n: usize) -> u32
    requires { n < 32 }
    ensures { result ≡ 2 ^ n - 1 }
{
    (1u32 << n) - 1
}

// The nodes of m whose pairs with shard i are not before t.
fn onward(m: u32, t: usize, i: usize) -> u32
    requires { (t / 32 ≤ i) × (i < 16) }
    ensures { Onward m t i result }
{
    if t <= i * 32 {
        return m;
    }
    base_masks::minus(m, before_node(t - i * 32))
}

// A node of a mask: its lowest.
fn lowest(m: u32) -> usize
    requires { 0 < m }
    ensures { (has m result ≡ true) × (result < 32) }
{
    u32::trailing_zeros(m) as usize
}

// The row of shard i without the nodes of `from` that ask more than `most`; none where one of them asks less than `least`.
fn sift(
    sets: &[u8; 32],
    costs: &[u8; 512],
    want: u16,
    nodes: &[u16; 32],
    pairs: &[u16; 256],
    i: usize,
    row: u32,
    from: u32,
    least: usize,
    most: usize,
) -> Option<u32>
    requires i_bound { i < 16 }
    requires small { Small sets.now }
    ensures { IfSome result (λ kept. Sifted (λ n. get_or costs.now (i * 32 + n) 0 + min want (get_or pairs.now (i * 16 + get_or sets.now n 0) 0) + get_or nodes.now n 0) row from least most kept) }
{
    let mut m = row & from;
    let mut kept = row;
    while m > 0 {
        let n = lowest(m);
        let x = asks(sets, want, nodes, pairs, costs[i * 32 + n], i, n);
        if x < least {
            return None;
        }
        kept = dropped(kept, n, x > most);
        m = base_masks::without(m, n);
    }
    Some(kept)
}

// a - b, or 0 where b is the larger.
fn floor(a: usize, b: usize) -> usize
    ensures { result ≡ a - b }
{
    if a > b { a - b } else { 0 }
}

// One row: a pair of a node without an owner is excluded where its bound is above what is allowed. False: an inequality fails.
fn cut_row(
    sets: &[u8; 32],
    costs: &[u8; 512],
    rows: &mut [u32; 17],
    wants: &[u16; 16],
    rooms: &[u16; 16],
    nodes: &[u16; 32],
    pairs: &[u16; 256],
    free: u32,
    t: usize,
    i: usize,
    low: usize,
    high: usize,
) -> bool
    requires t_bound { (t / 32 ≤ i) × (i < 16) }
    requires low_bound { (low ≤ 1073741824) × (high ≤ 1073741824) }
    requires small { Small sets.now }
    ensures { result ≡ true → RowCut (case_of sets.now [] [] costs.now 0) (weights_of wants.now rooms.now nodes.now pairs.now) free t low high i rows.old rows.new }
{
    let want = wants[i];
    let u = based(want);
    let h = large(rooms[i]);
    match sift(
        sets,
        costs,
        want,
        nodes,
        pairs,
        i,
        rows[i],
        onward(free, t, i),
        floor(u, h),
        floor(low + u, high + h),
    ) {
        Some(kept) => {
            rows[i] = kept;
            true
        }
        None => false,
    }
}

// Cuts: excludes pairs from t on that no valid placement takes which agrees with the owners before t, takes open pairs only and weighs at
// most k, and marks nodes without an owner that each of those places. Gives the floor that the weights prove; none where an inequality fails.
pub fn cut(
    sets: &[u8; 32],
    needs: &[u8; 16],
    caps: &[u8; 16],
    costs: &[u8; 512],
    rows: &mut [u32; 17],
    owner: &[u8; 32],
    wants: &[u16; 16],
    rooms: &[u16; 16],
    nodes: &[u16; 32],
    pairs: &[u16; 256],
    idle: u8,
    t: usize,
    k: usize,
) -> Option<usize>
    requires t_bound { (t ≤ 512) × (k ≤ 8192) }
    requires small { Small sets.now }
    requires rows_len { length rows.old ≡ 17 }
    requires begun { Begun (owners_of owner.now) t }
    ensures { IfSome result (λ least. SoundBound (case_of sets.now needs.now caps.now costs.now idle) k least (owners_of owner.now) t rows.old rows.new) }
{
    if !all_steady(sets, costs, owner, wants, rooms, nodes, pairs, idle) {
        return None;
    }
    let low = k + takes(caps, wants, rooms, nodes, pairs);
    let high = grants(needs, wants);
    let free = unowned(owner);
    for i in t / 32..16 {
        if !cut_row(
            sets, costs, rows, wants, rooms, nodes, pairs, free, t, i, low, high,
        ) {
            return None;
        }
    }
    rows[16] = rows[16] | (must(nodes, idle, low, high) & free);
    Some(floor(high, low - k))
}
