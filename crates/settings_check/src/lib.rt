// Row 2: whether the words of the settings are right.
#![tactic(auto)]

ghost use Rattle.std.specs.Prelude.{◌≡◌, ◌<◌, ◌≤◌, length};
ghost use Rattle.settings_values.specs.Definitions.{ranges_ok, sizes_ok, nodes_ok, shard_ok, shards_ok, settings_ok, Sizes, shards};

use base_ids::Shard;

// The first four words are in their ranges.
fn ranges_ok(settings: &[u32]) -> bool
    requires { 4 ≤ length settings.now }
    ensures { result ≡ ranges_ok settings.now }
{
    settings_values::from_to(1, 32, settings[0])
        && settings_values::from_to(1, 16, settings[1])
        && settings_values::from_to(1, settings[0], settings[2])
        && settings_values::from_to(1, 16, settings[3])
}

// The first four words are in their ranges, and the length is what they say.
fn sizes_ok(settings: &[u32]) -> bool
    ensures { result ≡ sizes_ok settings.now }
{
    if settings.len() < 4 {
        return false;
    }
    if !ranges_ok(settings) {
        return false;
    }
    settings.len() == 4 + base_ids::wide(settings[0]) + base_ids::wide(settings[3])
}

// Each node's failure set is one of them.
fn nodes_ok(settings: &[u32]) -> bool
    requires { Sizes settings.now }
    ensures { result ≡ nodes_ok settings.now }
{
    let n = base_ids::wide(settings[0]);
    let f = settings[1];
    for i in 0..n {
        if f <= settings[4 + i] {
            return false;
        }
    }
    true
}

// Subgroup 0 to 3, a need from 1 to F, and a cap from the need to 16.
fn shard_ok(settings: &[u32], shard: Shard) -> bool
    requires sizes { Sizes settings.now }
    requires shard_bound { shard.0 < shards settings.now }
    ensures { result ≡ shard_ok settings.now shard.0 }
{
    let word = settings_values::shard_word(settings, shard);
    if 3 < word / 256 % 256 {
        return false;
    }
    if !settings_values::from_to(1, settings[1], word % 256) {
        return false;
    }
    settings_values::from_to(word % 256, 16, settings_values::cap(settings, shard))
}

fn shards_ok(settings: &[u32]) -> bool
    requires { Sizes settings.now }
    ensures { result ≡ shards_ok settings.now }
{
    let count = settings[3];
    for s in 0..count {
        if !shard_ok(settings, Shard(s)) {
            return false;
        }
    }
    true
}

// Row 2: the words are right settings.
pub fn check(settings: &[u32]) -> bool
    ensures { result ≡ settings_ok settings.now }
{
    if !sizes_ok(settings) {
        return false;
    }
    if !nodes_ok(settings) {
        return false;
    }
    shards_ok(settings)
}
