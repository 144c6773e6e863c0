// What the words of the settings say.
#![tactic(auto)]

ghost use Rattle.std.specs.Prelude.{◌≡◌, ◌<◌};
ghost use Rattle.settings_values.specs.Definitions.{from_to, Sizes, Settings, nodes, sets, least, shards, set_of, shard_word, subgroup, need, cap};

use base_ids::{Node, Shard};

// low ≤ x ≤ high
pub fn from_to(low: u32, high: u32, x: u32) -> bool
    ensures { result ≡ from_to low high x }
{
    (low..=high).contains(&x)
}

// The word of a shard.
pub fn shard_word(settings: &[u32], shard: Shard) -> u32
    requires sizes { Sizes settings.now }
    requires shard_bound { shard.0 < shards settings.now }
    ensures { result ≡ shard_word settings.now shard.0 }
{
    let n = base_ids::wide(settings[0]);
    let s = shard.0 as usize;
    settings[4 + n + s]
}

// The number of nodes.
pub fn nodes(settings: &[u32]) -> u32
    requires { Settings settings.now }
    ensures { result ≡ nodes settings.now }
{
    settings[0]
}

// The number of failure sets.
pub fn sets(settings: &[u32]) -> u32
    requires { Settings settings.now }
    ensures { result ≡ sets settings.now }
{
    settings[1]
}

// The least group size.
pub fn least(settings: &[u32]) -> u32
    requires { Settings settings.now }
    ensures { result ≡ least settings.now }
{
    settings[2]
}

// The number of shards.
pub fn shards(settings: &[u32]) -> u32
    requires { Settings settings.now }
    ensures { result ≡ shards settings.now }
{
    settings[3]
}

// The failure set of a node.
pub fn set_of(settings: &[u32], node: Node) -> u32
    requires settings { Settings settings.now }
    requires node_bound { node.0 < nodes settings.now }
    ensures { result ≡ set_of settings.now node.0 }
{
    let n = node.0 as usize;
    settings[4 + n]
}

// The subgroup of a shard.
pub fn subgroup(settings: &[u32], shard: Shard) -> u32
    requires settings { Settings settings.now }
    requires shard_bound { shard.0 < shards settings.now }
    ensures { result ≡ subgroup settings.now shard.0 }
{
    shard_word(settings, shard) / 256 % 256
}

// From how many different failure sets a shard needs members.
pub fn need(settings: &[u32], shard: Shard) -> u32
    requires settings { Settings settings.now }
    requires shard_bound { shard.0 < shards settings.now }
    ensures { result ≡ need settings.now shard.0 }
{
    shard_word(settings, shard) % 256
}

// How many members a shard may have.
pub fn cap(settings: &[u32], shard: Shard) -> u32
    requires sizes { Sizes settings.now }
    requires shard_bound { shard.0 < shards settings.now }
    ensures { result ≡ cap settings.now shard.0 }
{
    let word = shard_word(settings, shard);
    if word / 65536 == 0 {
        return word % 256;
    }
    word / 65536
}
