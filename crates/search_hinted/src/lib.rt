// The first valid placement of a weight of at most k, and the first of least weight, or that there is none, by the hints of an oracle.
// Every pair that is left, every list that goes on and every bound is proved, by a cut, by a node that must be placed or by the sheet, and
// the owners that are found are tested, so no answer rests on the hints. Where a hint fails, the total search answers.
#![tactic(auto)]

ghost use Rattle.std.specs.Prelude.{◌≡◌, true, [], Some, IfSome, ◌⊎◌, ◌+◌, ◌*◌, ◌/◌, ◌%◌, ◌≤◌, ◌<◌, min, ltb, length, get_or, set};
ghost use Rattle.base_laws.specs.Definitions.{without};
ghost use Rattle.base_sum_laws.specs.Definitions.{mask_below};
ghost use Rattle.search_laws.specs.Case.{WeighsWithin, spread};
ghost use Rattle.search_laws.specs.Tables.{case_of, owners_of};
ghost use Rattle.search_laws.specs.Order.{Begun, HasNone, From, shard_end};
ghost use Rattle.search_laws.specs.Floor.{SheetFor};
ghost use Rattle.search_bounds.specs.Post.{Small, SoundBound};
ghost use Rattle.search_total.specs.Post.{WithinAnswer, LeastAnswer, no_owners, as_solution};
ghost use Rattle.search_hinted.specs.declared.ListEnd.TheVariants as Ends;
ghost use Rattle.search_hinted.specs.Stage.{Narrowed, Advanced, Exceeded, Later, OnlyHere, AllowedRow, OpenBelow, At, Moved};
ghost use Rattle.search_hinted.specs.Post.{Found};

use search_total::Assignment;

// The pairs of shard i that are allowed.
fn allowed(prices: &[u8; 512], i: usize) -> u32
    requires { i < 16 }
    ensures { result ≡ mask_below 32 (λ n. ltb (get_or prices.now (i * 32 + n) 0) 255) }
{
    let mut m: u32 = 0;
    for n in 0usize..32 {
        m = search_bounds::added(m, n, prices[i * 32 + n] < 255);
    }
    m
}

// The same, and none where the shard may have no node.
fn allowed_row(caps: &[u8; 16], prices: &[u8; 512], i: usize) -> u32
    requires { i < 16 }
    ensures { AllowedRow caps.now prices.now i result }
{
    if caps[i] == 0 {
        return 0;
    }
    allowed(prices, i)
}

// All pairs that are allowed of shards that may have nodes, and no node that must be placed.
fn all_allowed(caps: &[u8; 16], prices: &[u8; 512]) -> [u32; 17]
    ensures { OpenBelow caps.now prices.now 16 result }
{
    let mut rows = [0u32; 17];
    for i in 0..16 {
        rows[i] = allowed_row(caps, prices, i);
    }
    rows
}

// Cuts with the present weights, and gives the floor that they prove, if they are good. A shard that may have no node has a room that weighs more than any placement.
fn prune(
    sets: &[u8; 32],
    needs: &[u8; 16],
    caps: &[u8; 16],
    prices: &[u8; 512],
    rows: &mut [u32; 17],
    owner: &[u8; 32],
    mem: &[u32; 1024],
    idle: u8,
    t: usize,
    k: usize,
) -> Option<usize>
    requires t_bound { (t ≤ 512) × (k ≤ 8192) }
    requires small { Small sets.now }
    requires rows_len { length rows.old ≡ 17 }
    requires begun { Begun (owners_of owner.now) t }
    ensures { IfSome result (λ floor. SoundBound (case_of sets.now needs.now caps.now prices.now idle) k floor (owners_of owner.now) t rows.old rows.new) }
{
    let mut wants = [0u16; 16];
    let mut rooms = [8300u16; 16];
    let mut nodes = [0u16; 32];
    let mut pairs = [0u16; 256];
    hint_oracle::weigh(mem, sets, &mut wants, &mut rooms, &mut nodes, &mut pairs);
    search_bounds::cut(
        sets, needs, caps, prices, rows, owner, &wants, &rooms, &nodes, &pairs, idle, t, k,
    )
}

// Whether the bound by the present weights is above k. The masks stay as they are.
fn exceeds(
    sets: &[u8; 32],
    needs: &[u8; 16],
    caps: &[u8; 16],
    prices: &[u8; 512],
    rows: &[u32; 17],
    owner: &[u8; 32],
    mem: &[u32; 1024],
    idle: u8,
    t: usize,
    k: usize,
) -> bool
    requires t_bound { (t ≤ 512) × (k ≤ 8192) }
    requires small { Small sets.now }
    requires rows_len { length rows.now ≡ 17 }
    requires begun { Begun (owners_of owner.now) t }
    ensures { result ≡ true → Exceeded (case_of sets.now needs.now caps.now prices.now idle) k (owners_of owner.now) t rows.now }
{
    let mut scratch = *rows;
    match prune(
        sets,
        needs,
        caps,
        prices,
        &mut scratch,
        owner,
        mem,
        idle,
        t,
        k,
    ) {
        Some(floor) => floor > k,
        None => false,
    }
}

// The nodes that are open for a shard past i.
fn later(rows: &[u32; 17], i: usize) -> u32
    requires { i < 16 }
    ensures { Later rows.now i 16 result }
{
    let mut m: u32 = 0;
    for j in i + 1..16 {
        m = m | rows[j];
    }
    m
}

// Whether a node that must be placed is open for no shard past i.
fn stuck(rows: &[u32; 17], i: usize) -> bool
    requires { i < 16 }
    ensures { result ≡ true → OnlyHere rows.now i }
{
    if rows[16] == 0 {
        return false;
    }
    let m = base_masks::minus(rows[16], later(rows, i));
    if m == 0 {
        return false;
    }
    true
}

// Whether shard t / 32 has too few sets: it has none of the nodes from t on.
fn lacks(sets: &[u8; 32], needs: &[u8; 16], owner: &[u8; 32], t: usize) -> bool
    requires t_bound { t < 512 }
    requires small { Small sets.now }
    requires begun { Begun (owners_of owner.now) t }
    ensures { result ≡ true → spread (case_of sets.now [] [] [] 0) (owners_of owner.now) (t / 32) < get_or needs.now (t / 32) 0 }
{
    let need = search_judge::wide(needs[t / 32]);
    if need == 0 {
        return false;
    }
    if t % 32 < need {
        return true;
    }
    if search_judge::size(owner, t / 32) < need {
        return true;
    }
    search_judge::spread(sets, owner, t / 32) < need
}

// What is found of the end of a shard's list.
#[derive(Clone, Copy)]
enum ListEnd {
    // the list is ended
    Here,
    // it can't be
    Later,
}

// Whether shard t / 32 can end its list at pair t; none where no proof was found. Where no pair of the shard is open its list is ended.
fn ends(
    sets: &[u8; 32],
    needs: &[u8; 16],
    caps: &[u8; 16],
    prices: &[u8; 512],
    rows: &[u32; 17],
    owner: &[u8; 32],
    mem: &mut [u32; 1024],
    idle: u8,
    t: usize,
    k: usize,
) -> Option<ListEnd>
    requires t_bound { (t < 512) × (k ≤ 8192) }
    requires small { Small sets.now }
    requires narrowed { Narrowed (case_of sets.now needs.now caps.now prices.now idle) k owner.now t rows.now }
    ensures { result ≡ Some Ends.Later → HasNone (From (WeighsWithin (case_of sets.now needs.now caps.now prices.now idle) k) (owners_of owner.now) (shard_end t)) }
{
    if rows[t / 32] == 0 {
        return Some(ListEnd::Here);
    }
    if lacks(sets, needs, owner, t) {
        return Some(ListEnd::Later);
    }
    if stuck(rows, t / 32) {
        return Some(ListEnd::Later);
    }
    let hint = hint_oracle::close(mem, (t / 32) as u32, k as u32);
    if hint == hint_oracle::GRANTED {
        return Some(ListEnd::Here);
    }
    if exceeds(
        sets,
        needs,
        caps,
        prices,
        rows,
        owner,
        mem,
        idle,
        search_total::next(t),
        k,
    ) {
        return Some(ListEnd::Later);
    }
    None
}

// Takes pair t, unless its node has an owner. The node need not be placed any more.
fn take(owner: &mut [u8; 32], rows: &mut [u32; 17], t: usize) -> bool
    requires { t < 512 }
    ensures bound { result ≡ true → (16 ≤ owners_of owner.old (t % 32)) × (owner.new ≡ set owner.old (t % 32) (t / 32)) }
    ensures rows_after { result ≡ true → rows.new ≡ set rows.old 16 (without (get_or rows.old 16 0) (t % 32)) }
{
    if owner[t % 32] < 16 {
        return false;
    }
    owner[t % 32] = search_judge::shard(t);
    rows[16] = base_masks::without(rows[16], t % 32);
    true
}

// Whether pair t is left for good: barred, or excluded by a cut.
fn leaves(
    sets: &[u8; 32],
    needs: &[u8; 16],
    caps: &[u8; 16],
    prices: &[u8; 512],
    rows: &mut [u32; 17],
    owner: &[u8; 32],
    mem: &[u32; 1024],
    idle: u8,
    hint: u32,
    t: usize,
    k: usize,
) -> bool
    requires t_bound { (t < 512) × (k ≤ 8192) }
    requires small { Small sets.now }
    requires narrowed { Narrowed (case_of sets.now needs.now caps.now prices.now idle) k owner.now t rows.old }
    ensures { result ≡ true → Advanced (case_of sets.now needs.now caps.now prices.now idle) k owner.now t owner.now rows.new }
{
    if hint == hint_oracle::BARRED {
        return search_judge::barred(sets, needs, caps, prices, owner, idle, t);
    }
    if hint != hint_oracle::EXCLUDED {
        return false;
    }
    match prune(sets, needs, caps, prices, rows, owner, mem, idle, t, k) {
        Some(_floor) => !base_masks::has(rows[t / 32], t % 32),
        None => false,
    }
}

// Where the search goes from p: pair p / 2, with the end of the list there tried where p is odd; none where no proof
// was found.
fn ended(
    sets: &[u8; 32],
    needs: &[u8; 16],
    caps: &[u8; 16],
    prices: &[u8; 512],
    rows: &[u32; 17],
    owner: &[u8; 32],
    mem: &mut [u32; 1024],
    idle: u8,
    p: usize,
    k: usize,
) -> Option<usize>
    requires p_bound { (p < 1024) × (k ≤ 8192) }
    requires p_value { p % 2 ≡ 0 }
    requires small { Small sets.now }
    requires at { At (case_of sets.now needs.now caps.now prices.now idle) k owner.now p rows.now }
    ensures { IfSome result (λ next. Moved (case_of sets.now needs.now caps.now prices.now idle) k owner.now p owner.now rows.now next) }
{
    match ends(sets, needs, caps, prices, rows, owner, mem, idle, p / 2, k)? {
        ListEnd::Here => Some(2 * search_total::next(p / 2)),
        ListEnd::Later => Some(p + 1),
    }
}

// The same, where the list goes on: its pair is left or taken.
fn decided(
    sets: &[u8; 32],
    needs: &[u8; 16],
    caps: &[u8; 16],
    prices: &[u8; 512],
    rows: &mut [u32; 17],
    owner: &mut [u8; 32],
    mem: &mut [u32; 1024],
    idle: u8,
    p: usize,
    k: usize,
) -> Option<usize>
    requires p_bound { (p < 1024) × (k ≤ 8192) }
    requires p_value { p % 2 ≡ 1 }
    requires small { Small sets.now }
    requires at { At (case_of sets.now needs.now caps.now prices.now idle) k owner.old p rows.old }
    ensures { IfSome result (λ next. Moved (case_of sets.now needs.now caps.now prices.now idle) k owner.old p owner.new rows.new next) }
{
    let t = p / 2;
    let n = t % 32;
    if !base_masks::has(rows[t / 32], n) {
        return Some(passed(p));
    }
    if owner[n] < 16 {
        return Some(passed(p));
    }
    let hint = hint_oracle::take(mem, (t / 32) as u32, n as u32, k as u32);
    if hint == hint_oracle::GRANTED {
        if take(owner, rows, t) {
            return Some(p + 1);
        }
        return None;
    }
    if leaves(
        sets, needs, caps, prices, rows, owner, mem, idle, hint, t, k,
    ) {
        return Some(passed(p));
    }
    None
}

// Past a pair that is left: the list's end need not be tried again within the shard.
fn passed(p: usize) -> usize
    requires { p < 1024 }
    ensures { (result ≡ p + 1) ⊎ ((result ≡ p + 2) × (shard_end (p / 2 + 1) ≡ shard_end (p / 2))) }
{
    if search_total::same_shard(p / 2) {
        p + 2
    } else {
        p + 1
    }
}

// One step of the search.
fn step(
    sets: &[u8; 32],
    needs: &[u8; 16],
    caps: &[u8; 16],
    prices: &[u8; 512],
    rows: &mut [u32; 17],
    owner: &mut [u8; 32],
    mem: &mut [u32; 1024],
    idle: u8,
    p: usize,
    k: usize,
) -> Option<usize>
    requires p_bound { (p < 1024) × (k ≤ 8192) }
    requires small { Small sets.now }
    requires at { At (case_of sets.now needs.now caps.now prices.now idle) k owner.old p rows.old }
    ensures { IfSome result (λ next. Moved (case_of sets.now needs.now caps.now prices.now idle) k owner.old p owner.new rows.new next) }
{
    if p % 2 == 0 {
        return ended(sets, needs, caps, prices, rows, owner, mem, idle, p, k);
    }
    decided(sets, needs, caps, prices, rows, owner, mem, idle, p, k)
}

// The first valid placement of a weight of at most k; none where the hints don't lead to it.
fn follow(
    sets: &[u8; 32],
    needs: &[u8; 16],
    caps: &[u8; 16],
    prices: &[u8; 512],
    rows: &mut [u32; 17],
    mem: &mut [u32; 1024],
    idle: u8,
    k: usize,
) -> Option<Assignment>
    requires k_bound { k ≤ 8192 }
    requires small { Small sets.now }
    requires narrowed { Narrowed (case_of sets.now needs.now caps.now prices.now idle) k no_owners 0 rows.old }
    ensures { IfSome result (λ p. Found (case_of sets.now needs.now caps.now prices.now idle) k (as_solution (Some p))) }
{
    let mut owner = [16u8; 32];
    let mut p: usize = 0;
    while p < 1024 {
        let next = step(sets, needs, caps, prices, rows, &mut owner, mem, idle, p, k)?;
        p = next;
    }
    if search_judge::within(sets, needs, caps, prices, &owner, idle, k) {
        Some(search_total::placed(prices, owner, idle))
    } else {
        None
    }
}

// Every failure set is below 16.
fn fit(sets: &[u8; 32]) -> bool
    ensures { result ≡ true → Small sets.now }
{
    for n in 0..32 {
        if sets[n] >= 16 {
            return false;
        }
    }
    true
}

// No valid placement weighs more than 8192.
fn capped(k: usize) -> usize
    ensures { result ≡ min k 8192 }
{
    if k < 8192 { k } else { 8192 }
}

// The first valid placement of a weight of at most k, or that there is none: a sure answer, or none where the hints don't lead to it.
fn quick_within(
    sets: &[u8; 32],
    needs: &[u8; 16],
    caps: &[u8; 16],
    prices: &[u8; 512],
    idle: u8,
    k: usize,
) -> Option<Option<Assignment>>
    ensures { IfSome result (λ sure. WithinAnswer (case_of sets.now needs.now caps.now prices.now idle) k (as_solution sure)) }
{
    if !fit(sets) {
        return None;
    }
    let most = capped(k);
    let mut mem = [0u32; 1024];
    let mut rows = all_allowed(caps, prices);
    let owner = [16u8; 32];
    hint_oracle::solve(&mut mem, sets, needs, caps, prices, idle);
    let floor = prune(
        sets, needs, caps, prices, &mut rows, &owner, &mem, idle, 0, most,
    )?;
    if most < floor {
        return Some(None);
    }
    let found = follow(sets, needs, caps, prices, &mut rows, &mut mem, idle, most)?;
    Some(Some(found))
}

// The first of the valid placements of least weight, or that there is none: a sure answer, or none where the hints don't lead to it.
fn by_claim(
    sets: &[u8; 32],
    needs: &[u8; 16],
    caps: &[u8; 16],
    prices: &[u8; 512],
    idle: u8,
) -> Option<Option<Assignment>>
    requires { Small sets.now }
    ensures { IfSome result (λ sure. LeastAnswer (case_of sets.now needs.now caps.now prices.now idle) (as_solution sure)) }
{
    let mut mem = [0u32; 1024];
    let mut rows = all_allowed(caps, prices);
    let owner = [16u8; 32];
    let claim = hint_oracle::solve(&mut mem, sets, needs, caps, prices, idle);
    let most = capped(claim as usize);
    let floor = prune(
        sets, needs, caps, prices, &mut rows, &owner, &mem, idle, 0, most,
    )?;
    if floor > 8192 {
        return Some(None);
    }
    if floor != most {
        return None;
    }
    let found = follow(sets, needs, caps, prices, &mut rows, &mut mem, idle, most)?;
    Some(Some(found))
}

// The same from the sheet, which tells of some cases that there is none.
fn quick_least(
    sets: &[u8; 32],
    needs: &[u8; 16],
    caps: &[u8; 16],
    prices: &[u8; 512],
    idle: u8,
    sheet: &[[u8; 16]; 16],
) -> Option<Option<Assignment>>
    requires { SheetFor (case_of sets.now needs.now caps.now prices.now idle) sheet.now }
    ensures { IfSome result (λ sure. LeastAnswer (case_of sets.now needs.now caps.now prices.now idle) (as_solution sure)) }
{
    if !fit(sets) {
        return None;
    }
    if search_judge::floor::short(needs, sheet) {
        return Some(None);
    }
    by_claim(sets, needs, caps, prices, idle)
}

// The first valid placement of a weight of at most k, or that there is none.
pub fn first_within(
    sets: &[u8; 32],
    needs: &[u8; 16],
    caps: &[u8; 16],
    prices: &[u8; 512],
    idle: u8,
    k: usize,
) -> Option<Assignment>
    ensures { WithinAnswer (case_of sets.now needs.now caps.now prices.now idle) k (as_solution result) }
{
    match quick_within(sets, needs, caps, prices, idle, k) {
        Some(sure) => sure,
        None => search_total::plain_within(sets, needs, caps, prices, idle, k),
    }
}

// The first of the valid placements of least weight, or that there is none. The sheet has for each shard and failure set 2 where no node
// of the set is allowed there, and 1 only where none stays.
pub fn least(
    sets: &[u8; 32],
    needs: &[u8; 16],
    caps: &[u8; 16],
    prices: &[u8; 512],
    idle: u8,
    sheet: &[[u8; 16]; 16],
) -> Option<Assignment>
    requires { SheetFor (case_of sets.now needs.now caps.now prices.now idle) sheet.now }
    ensures { LeastAnswer (case_of sets.now needs.now caps.now prices.now idle) (as_solution result) }
{
    match quick_least(sets, needs, caps, prices, idle, sheet) {
        Some(sure) => sure,
        None => search_total::plain_least(sets, needs, caps, prices, idle),
    }
}
