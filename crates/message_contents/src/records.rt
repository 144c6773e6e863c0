// What the records of a message's contents say together: the shards that have a record of a kind, those that
// a node carries, whether a record is missing, and the shard masks.
ghost use Rattle.std.specs.Prelude.{◌≡◌, ◌<◌, ◌≤◌};
ghost use Rattle.base_laws.specs.Definitions as Definitions;
ghost use Rattle.settings_values.specs.Definitions.{Settings, shards};
ghost use Rattle.message_format.specs.Definitions as Format;
ghost use Rattle.message_contents.specs.Gathered.{SmallShards, of_kind, gives_shard, with_shard, shard_masks};

use base_ids::Node;
use message_format::{Contents, Form};

// The mask with the shard of record j, if its kind is k.
fn shards_more(mask: u32, k: u32, body: &[u32; 381], j: usize) -> u32
    requires j_bound { j < 127 }
    requires j_bound_2 { Format.record_shard body.now j < 16 }
    ensures { result ≡ with_shard (of_kind k body.now j) mask body.now j }
{
    if message_rows::fields::kind(body, j) != k {
        return mask;
    }
    let shard = message_rows::fields::shard(body, j);
    base_masks::with(mask, shard.0 as usize)
}

// The shards that have a record of kind k.
fn shards_of(k: u32, c: &Contents) -> u32
    requires len_bound { c.now.len ≤ 127 }
    requires small_shards { SmallShards c.now.body c.now.len }
    ensures { result ≡ Format.shards_of k c.now.body c.now.len }
{
    let mut mask: u32 = 0;
    for j in 0..c.len {
        mask = shards_more(mask, k, &c.body, j);
    }
    mask
}

// The mask with the shard of record j, if that record gives its members and the node is one of them.
pub fn carried_more(mask: u32, node: Node, body: &[u32; 381], j: usize) -> u32
    requires j_bound { j < 127 }
    requires j_bound_2 { Format.record_shard body.now j < 16 }
    ensures { result ≡ with_shard (gives_shard node.0 body.now j) mask body.now j }
{
    if message_rows::fields::kind(body, j) != 1 {
        return mask;
    }
    if !base_masks::has(message_rows::fields::word1(body, j), node.0 as usize) {
        return mask;
    }
    let shard = message_rows::fields::shard(body, j);
    base_masks::with(mask, shard.0 as usize)
}

// The shards that the contents' node carries, by the members that the records give.
fn carried_by(c: &Contents) -> u32
    requires len_bound { c.now.len ≤ 127 }
    requires small_shards { SmallShards c.now.body c.now.len }
    ensures { result ≡ Format.carried_by c.now.node.0 c.now.body c.now.len }
{
    let mut mask: u32 = 0;
    for j in 0..c.len {
        mask = carried_more(mask, c.node, &c.body, j);
    }
    mask
}

// Every shard, as a mask.
fn every_shard(settings: &[u32]) -> u32
    requires { Settings settings.now }
    ensures { result ≡ Format.every_shard settings.now }
{
    (1u32 << settings_values::shards(settings)) - 1
}

// Every shard of the mask has a record of kind k.
fn covered(mask: u32, k: u32, c: &Contents) -> bool
    requires len_bound { c.now.len ≤ 127 }
    requires small_shards { SmallShards c.now.body c.now.len }
    ensures { result ≡ Definitions.subset mask (Format.shards_of k c.now.body c.now.len) }
{
    base_masks::subset(mask, shards_of(k, c))
}

// A report has kind 1 for each shard, and kind 2 for every shard or for none.
fn complete_report(settings: &[u32], c: &Contents) -> bool
    requires settings { Settings settings.now }
    requires len_bound { c.now.len ≤ 127 }
    requires small_shards { SmallShards c.now.body c.now.len }
    ensures { result ≡ Format.complete Form.Report settings.now 0 c.now.body c.now.len }
{
    let every = every_shard(settings);
    if !covered(every, 1, c) {
        return false;
    }
    let second = shards_of(2, c);
    if second == 0 {
        return true;
    }
    base_masks::subset(every, second)
}

// An order has kinds 1 and 2 for each shard, and kinds 4 and 5 for the shards that its recipient carries.
fn complete_order(settings: &[u32], c: &Contents) -> bool
    requires settings { Settings settings.now }
    requires len_bound { c.now.len ≤ 127 }
    requires small_shards { SmallShards c.now.body c.now.len }
    ensures { result ≡ Format.complete Form.Order settings.now c.now.node.0 c.now.body c.now.len }
{
    let every = every_shard(settings);
    if !covered(every, 1, c) {
        return false;
    }
    if !covered(every, 2, c) {
        return false;
    }
    let carried = carried_by(c);
    if !covered(carried, 4, c) {
        return false;
    }
    covered(carried, 5, c)
}

// Row 17: no record is missing.
pub fn complete(form: Form, settings: &[u32], c: &Contents) -> bool
    requires settings { Settings settings.now }
    requires len_bound { c.now.len ≤ 127 }
    requires small_shards { SmallShards c.now.body c.now.len }
    ensures { result ≡ Format.complete form settings.now c.now.node.0 c.now.body c.now.len }
{
    match form {
        Form::Report => complete_report(settings, c),
        Form::Order => complete_order(settings, c),
    }
}

// The members of each shard, and zeros from S up.
pub fn masks_of(settings: &[u32], c: &Contents) -> [u32; 16]
    requires { Settings settings.now }
    ensures { result ≡ shard_masks (shards settings.now) c.now.body }
{
    let count = settings_values::shards(settings) as usize;
    let mut masks = [0u32; 16];
    for s in 0..count {
        masks[s] = message_rows::fields::word1(&c.body, s);
    }
    masks
}
