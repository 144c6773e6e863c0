// Row 10 of document 01's table: the shards' masks of a view. Each function gives what its definition in message_format says.
ghost use Rattle.std.specs.Prelude.{◌≡◌, ◌<◌, get_or};
ghost use Rattle.base_laws.specs.Definitions.{all_below};
ghost use Rattle.settings_values.specs.Definitions.{Settings, shards};
ghost use Rattle.message_format.specs.Definitions as Definitions;

use base_ids::Shard;

// Shards s and t are of different subgroups or share no node.
fn shard_apart(settings: &[u32], masks: &[u32; 16], s: Shard, t: Shard) -> bool
    requires settings { Settings settings.now }
    requires s_bound { s.0 < shards settings.now }
    requires t_bound { t.0 < shards settings.now }
    ensures { result ≡ Definitions.shard_apart settings.now (λ i. get_or masks.now i 0) s.0 t.0 }
{
    if settings_values::subgroup(settings, t) != settings_values::subgroup(settings, s) {
        return true;
    }
    base_masks::disjoint(masks[t.0 as usize], masks[s.0 as usize])
}

// Shard s shares no node with a lower shard of its subgroup.
pub fn apart_below(settings: &[u32], masks: &[u32; 16], s: Shard) -> bool
    requires settings { Settings settings.now }
    requires s_bound { s.0 < shards settings.now }
    ensures { result ≡ all_below s.0 (Definitions.shard_apart settings.now (λ i. get_or masks.now i 0) s.0) }
{
    let top = s.0;
    for t in 0..top {
        if !shard_apart(settings, masks, s, Shard(t)) {
            return false;
        }
    }
    true
}

// Row 10 at shard s: it is not empty, lies inside the members and shares no node with a lower shard of its subgroup.
fn row10_at(settings: &[u32], members: u32, masks: &[u32; 16], s: Shard) -> bool
    requires settings { Settings settings.now }
    requires s_bound { s.0 < shards settings.now }
    ensures { result ≡ Definitions.row10_at settings.now members (λ i. get_or masks.now i 0) s.0 }
{
    let mask = masks[s.0 as usize];
    if mask < 1 {
        return false;
    }
    if !base_masks::subset(mask, members) {
        return false;
    }
    apart_below(settings, masks, s)
}

// Row 10, for the members and shard masks of a view.
pub fn row10(settings: &[u32], members: u32, masks: &[u32; 16]) -> bool
    requires { Settings settings.now }
    ensures { result ≡ Definitions.row10 settings.now members (λ i. get_or masks.now i 0) }
{
    let count = settings_values::shards(settings);
    for s in 0..count {
        if !row10_at(settings, members, masks, Shard(s)) {
            return false;
        }
    }
    true
}
