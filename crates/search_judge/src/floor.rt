// What a placement sheet tells of a subgroup before any search: how many moves every valid placement has at least, and where there is
// none. The sheet goes by shard and failure set, the needs by shard.
ghost use Rattle.std.specs.Prelude.{◌≡◌, cond, [], ◌-◌, ◌<◌, ◌≤◌, min, ltb};
ghost use Rattle.search_laws.specs.Tables.{case_of};
ghost use Rattle.search_laws.specs.Floor.{entries_below, floor_of, short_at, too_few};

// 1 where a is below b, else 0.
fn below(a: u8, b: u8) -> usize
    ensures { (result ≡ cond (ltb a b) 1 0) × (result ≤ 1) }
{
    if a < b { 1 } else { 0 }
}

// How many entries of shard i are below e.
fn entries(sheet: &[[u8; 16]; 16], i: usize, e: u8) -> usize
    requires { i < 16 }
    ensures { result ≡ entries_below sheet.now i e }
{
    let mut count: usize = 0;
    for f in 0..16 {
        count += below(sheet[i][f], e);
    }
    count
}

// What a shard needs beyond the sets of which a node stays.
fn beyond(need: usize, stay: usize) -> usize
    ensures { (result ≡ need - min need stay) × (result ≤ need) }
{
    if stay < need { need - stay } else { 0 }
}

// How many nodes move at least: over the shards, the need less the lesser of the need and the zeros of the shard's row.
pub fn floor(needs: &[u8; 16], sheet: &[[u8; 16]; 16]) -> usize
    ensures { result ≡ floor_of (case_of [] needs.now [] [] 0) sheet.now }
{
    let mut sum: usize = 0;
    for i in 0..16 {
        sum += beyond(crate::wide(needs[i]), entries(sheet, i, 1));
    }
    sum
}

// Whether the row of shard i has fewer entries below 2 than the shard needs nodes.
fn short_at(needs: &[u8; 16], sheet: &[[u8; 16]; 16], i: usize) -> bool
    requires { i < 16 }
    ensures { result ≡ short_at (case_of [] needs.now [] [] 0) sheet.now i }
{
    if needs[i] == 0 {
        return false;
    }
    entries(sheet, i, 2) < crate::wide(needs[i])
}

// Whether some shard's row has fewer: then there is no valid placement.
pub fn short(needs: &[u8; 16], sheet: &[[u8; 16]; 16]) -> bool
    ensures { result ≡ too_few (case_of [] needs.now [] [] 0) sheet.now }
{
    for i in 0usize..16 {
        if short_at(needs, sheet, i) {
            return true;
        }
    }
    false
}
