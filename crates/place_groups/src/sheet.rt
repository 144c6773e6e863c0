// The placement sheet, 16 by 16, by shard and failure set.
ghost use Rattle.std.specs.Prelude.{◌≡◌, get_or};
ghost use Rattle.base_laws.specs.Definitions.{tabulate};
ghost use Rattle.settings_values.specs.Definitions.{Settings};
ghost use Rattle.place_groups.specs.Sheet.{sheet_of};
ghost use Rattle.place_groups.specs.Laws.{entry_by};

use base_ids::Shard;

// The entry of shard s and failure set f, from the sets of the shard's held old members and those of all held nodes.
fn entry(settings: &[u32], stay: u32, any: u32, s: Shard, f: u32) -> u8
    requires { Settings settings.now }
    ensures { result ≡ entry_by settings.now stay any s.0 f }
{
    if s.0 >= settings_values::shards(settings) {
        return 2;
    }
    if f >= settings_values::sets(settings) {
        return 2;
    }
    if base_masks::has(stay, f as usize) {
        return 0;
    }
    if base_masks::has(any, f as usize) {
        1
    } else {
        2
    }
}

// The row of shard s.
fn row(settings: &[u32], stay: u32, any: u32, s: Shard) -> [u8; 16]
    requires { Settings settings.now }
    ensures { result ≡ tabulate 16 (entry_by settings.now stay any s.0) }
{
    let mut r = [2u8; 16];
    for f in 0u32..16 {
        r[f as usize] = entry(settings, stay, any, s, f);
    }
    r
}

// The sheet: 0 if a held old member of the shard is in the set, 1 if only other held nodes are, 2 if none, and 2 from S or F up.
pub fn sheet(settings: &[u32], held: u32, old: &[u32; 16]) -> [[u8; 16]; 16]
    requires { Settings settings.now }
    ensures { result ≡ sheet_of settings.now held (λ s. get_or old.now s 0) }
{
    let any = crate::sets_of(settings, held);
    let mut rows = [[2u8; 16]; 16];
    for s in 0u32..16 {
        let stay = crate::sets_of(settings, held & old[s as usize]);
        rows[s as usize] = row(settings, stay, any, Shard(s));
    }
    rows
}
