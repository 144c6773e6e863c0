// The placement of one subgroup for C, as the benchmark and the tests call it: byte slices of fixed lengths.
#![tactic(auto)]

ghost use Rattle.std.specs.Prelude.{◌≡◌, true, ◌&&◌, ◌<◌, ◌≤◌, min, eqb, length};
ghost use Rattle.search_laws.specs.Tables.{case_of};
ghost use Rattle.search_laws.specs.Floor.{SheetFor};
ghost use Rattle.search_total.specs.Post.{as_solution};
ghost use Rattle.c_placement.specs.Number.{Number, GivesLeast, GivesWithin};
ghost use Rattle.c_placement.specs.Rows.{entry_for, RowBelow};

use search_total::Assignment;

// The number of a call with a wrong length.
const WRONG_LENGTH: u32 = 10001;

// An answer's number: its weight, or 10000 where there is none.
fn number(a: Option<Assignment>) -> u32
    requires { (as_solution a).exists ≡ true → (as_solution a).weight ≤ 8192 }
    ensures { Number (as_solution a) result }
{
    match a {
        Some(p) => p.weight as u32,
        None => 10000,
    }
}

// An answer's owners, none where there is no placement.
fn owners_in(a: Option<Assignment>) -> [u8; 32]
    ensures { result ≡ (as_solution a).owners }
{
    match a {
        Some(p) => {
            let owners = p.owners;
            owners
        }
        None => [16u8; 32],
    }
}

// The lengths of sets, needs, caps, costs and owners.
fn fit(sets: usize, needs: usize, caps: usize, costs: usize, owners: usize) -> bool
    ensures { result ≡ (eqb sets 32 && eqb needs 16 && eqb caps 16 && eqb costs 512 && eqb owners 32) }
{
    if sets != 32 {
        return false;
    }
    if needs != 16 {
        return false;
    }
    if caps != 16 {
        return false;
    }
    if costs != 512 {
        return false;
    }
    owners == 32
}

// A slice of N bytes as an array.
fn array<const N: usize>(bytes: &[u8]) -> &[u8; N]
    requires { length bytes.now ≡ N }
    ensures { result.now ≡ bytes.now }
{
    bytes.as_array().unwrap()
}

// The lesser of two entries.
fn lesser(a: u8, b: u8) -> u8
    ensures { result ≡ min a b }
{
    if a < b { a } else { b }
}

// What a sheet has for a cost: 0 of a node that stays, 1 of one that moves, 2 of one that is not allowed.
fn entry(cost: u8) -> u8
    ensures { result ≡ entry_for cost }
{
    if cost < 1 {
        return 0;
    }
    if cost < 255 { 1 } else { 2 }
}

// The row of shard i: for each failure set the least entry of its nodes. Of a shard that needs none nothing is asked.
fn row(sets: &[u8; 32], costs: &[u8; 512], need: u8, i: usize) -> [u8; 16]
    requires { i < 16 }
    ensures { RowBelow sets.now costs.now i 32 result }
{
    if need == 0 {
        return [0u8; 16];
    }
    let mut r = [2u8; 16];
    for n in 0..32 {
        let f = search_judge::wide(sets[n]) % 16;
        r[f] = lesser(r[f], entry(costs[i * 32 + n]));
    }
    r
}

// The sheet of the tables.
fn sheet_of(
    sets: &[u8; 32],
    needs: &[u8; 16],
    caps: &[u8; 16],
    costs: &[u8; 512],
    idle: u8,
) -> [[u8; 16]; 16]
    ensures { SheetFor (case_of sets.now needs.now caps.now costs.now idle) result }
{
    let mut rows = [[2u8; 16]; 16];
    for i in 0..16 {
        rows[i] = row(sets, costs, needs[i], i);
    }
    rows
}

// The first of the valid placements of least weight: the owner of each node, 16 for none, and the weight; or 10000: none exists.
// Lengths other than 32, 16, 16, 512 and 32 give 10001, and the owners stay as they are.
#[unsafe(no_mangle)]
pub extern "C" fn placement_least(
    sets: &[u8],
    needs: &[u8],
    caps: &[u8],
    costs: &[u8],
    idle: u8,
    owners: &mut [u8],
) -> u32
    ensures { GivesLeast sets.now needs.now caps.now costs.now idle owners.old result owners.new }
{
    if !fit(
        sets.len(),
        needs.len(),
        caps.len(),
        costs.len(),
        owners.len(),
    ) {
        return WRONG_LENGTH;
    }
    let s = array::<32>(sets);
    let m = array::<16>(needs);
    let c = array::<16>(caps);
    let p = array::<512>(costs);
    let sheet = sheet_of(s, m, c, p, idle);
    let a = search_hinted::least(s, m, c, p, idle, &sheet);
    let o = owners_in(a);
    owners.copy_from_slice(&o);
    number(a)
}

// The first of the valid placements of a weight of at most k, or 10000: there is none; 10001 as above.
#[unsafe(no_mangle)]
pub extern "C" fn placement_within(
    sets: &[u8],
    needs: &[u8],
    caps: &[u8],
    costs: &[u8],
    idle: u8,
    k: u32,
    owners: &mut [u8],
) -> u32
    ensures { GivesWithin sets.now needs.now caps.now costs.now idle k owners.old result owners.new }
{
    if !fit(
        sets.len(),
        needs.len(),
        caps.len(),
        costs.len(),
        owners.len(),
    ) {
        return WRONG_LENGTH;
    }
    let s = array::<32>(sets);
    let m = array::<16>(needs);
    let c = array::<16>(caps);
    let p = array::<512>(costs);
    let w = search_hinted::first_within(s, m, c, p, idle, k as usize);
    let o = owners_in(w);
    owners.copy_from_slice(&o);
    number(w)
}
