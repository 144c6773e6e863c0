// Whether a subgroup's placement is valid, and its moves, from the masks alone.
ghost use Rattle.std.specs.Prelude.{◌≡◌, ◌<◌, ◌≤◌, get_or};
ghost use Rattle.base_laws.specs.Definitions.{count, minus};
ghost use Rattle.settings_values.specs.Definitions.{Settings, shards};
ghost use Rattle.place_groups.specs.Definitions as Definitions;

use base_ids::Shard;

// How many failure sets the nodes of the mask are of.
fn sets_in(settings: &[u32], mask: u32) -> u32
    requires { Settings settings.now }
    ensures { result ≡ Definitions.sets_in settings.now mask }
{
    let sets = crate::sets_of(settings, mask);
    base_masks::count(sets)
}

// Shard s gets held nodes, at most its cap, from at least as many failure sets as it needs.
fn shard_valid(settings: &[u32], held: u32, masks: &[u32; 16], s: Shard) -> bool
    requires settings { Settings settings.now }
    requires s_bound { s.0 < shards settings.now }
    ensures { result ≡ Definitions.shard_valid settings.now held (λ i. get_or masks.now i 0) s.0 }
{
    let mask = masks[s.0 as usize];
    if !base_masks::subset(mask, held) {
        return false;
    }
    if base_masks::count(mask) > settings_values::cap(settings, s) {
        return false;
    }
    settings_values::need(settings, s) <= sets_in(settings, mask)
}

// Shard s is of another subgroup, or is valid and shares no node with a lower shard of its subgroup.
fn group_valid_at(settings: &[u32], held: u32, masks: &[u32; 16], g: u32, s: Shard) -> bool
    requires settings { Settings settings.now }
    requires s_bound { s.0 < shards settings.now }
    ensures { result ≡ Definitions.group_valid_at settings.now held (λ i. get_or masks.now i 0) g s.0 }
{
    if settings_values::subgroup(settings, s) != g {
        return true;
    }
    if !shard_valid(settings, held, masks, s) {
        return false;
    }
    message_rows::shards::apart_below(settings, masks, s)
}

// The placement of subgroup g is valid.
pub fn group_valid(settings: &[u32], held: u32, masks: &[u32; 16], g: u32) -> bool
    requires { Settings settings.now }
    ensures { result ≡ Definitions.group_valid settings.now held (λ i. get_or masks.now i 0) g }
{
    let count = settings_values::shards(settings);
    for s in 0..count {
        if !group_valid_at(settings, held, masks, g, Shard(s)) {
            return false;
        }
    }
    true
}

// How many nodes are in a mask and were not before.
fn moved(new: u32, old: u32) -> u32
    ensures value { result ≡ count (minus new old) }
    ensures upper_bound { result ≤ 32 }
{
    base_masks::count(base_masks::minus(new, old))
}

// The moves in shard s, if it is of subgroup g.
fn moves_at(settings: &[u32], old: &[u32; 16], masks: &[u32; 16], g: u32, s: Shard) -> u32
    requires settings { Settings settings.now }
    requires s_bound { s.0 < shards settings.now }
    ensures value { result ≡ Definitions.group_moves_at settings.now (λ i. get_or old.now i 0) (λ i. get_or masks.now i 0) g s.0 }
    ensures upper_bound { result ≤ 32 }
{
    if settings_values::subgroup(settings, s) != g {
        return 0;
    }
    moved(masks[s.0 as usize], old[s.0 as usize])
}

// The moves of a placement of subgroup g.
pub fn group_moves(settings: &[u32], old: &[u32; 16], masks: &[u32; 16], g: u32) -> u32
    requires { Settings settings.now }
    ensures { result ≡ Definitions.group_moves settings.now (λ i. get_or old.now i 0) (λ i. get_or masks.now i 0) g }
{
    let count = settings_values::shards(settings);
    let mut total: u32 = 0;
    for s in 0..count {
        total += moves_at(settings, old, masks, g, Shard(s));
    }
    total
}
