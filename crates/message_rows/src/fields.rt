// A record of a message's contents by its index: its words, kind and shard, and which of two comes first.
ghost use Rattle.std.specs.Prelude.{◌≡◌, ◌<◌};
ghost use Rattle.message_format.specs.Definitions as Definitions;

use base_ids::Shard;

// Word 0 of record j: kind × 256 + shard.
pub fn tag(body: &[u32; 381], j: usize) -> u32
    requires { j < 127 }
    ensures { result ≡ Definitions.tag body.now j }
{
    body[3 * j]
}

// The kind of record j.
pub fn kind(body: &[u32; 381], j: usize) -> u32
    requires { j < 127 }
    ensures { result ≡ Definitions.kind body.now j }
{
    tag(body, j) / 256
}

// The shard of record j.
pub fn shard(body: &[u32; 381], j: usize) -> Shard
    requires { j < 127 }
    ensures { result.0 ≡ Definitions.record_shard body.now j }
{
    Shard(tag(body, j) % 256)
}

// Word 1 of record j.
pub fn word1(body: &[u32; 381], j: usize) -> u32
    requires { j < 127 }
    ensures { result ≡ Definitions.word1 body.now j }
{
    body[3 * j + 1]
}

// Word 2 of record j.
pub fn word2(body: &[u32; 381], j: usize) -> u32
    requires { j < 127 }
    ensures { result ≡ Definitions.word2 body.now j }
{
    body[3 * j + 2]
}

// Record i comes before record j: by kind, then shard, then (kind 3) view.
pub fn precedes(body: &[u32; 381], i: usize, j: usize) -> bool
    requires i_bound { i < 127 }
    requires j_bound { j < 127 }
    ensures { result ≡ Definitions.precedes body.now i j }
{
    let first = tag(body, i);
    let second = tag(body, j);
    if first < second {
        return true;
    }
    if first != second {
        return false;
    }
    if second / 256 != 3 {
        return false;
    }
    word1(body, i) < word1(body, j)
}
