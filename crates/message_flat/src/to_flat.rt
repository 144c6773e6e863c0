// The contents of a report as a flat report of the former seller.
ghost use Rattle.std.specs.Prelude.{cond, ◌≡◌, ◌+◌, ◌*◌, ◌-◌, ◌≤◌, ◌<◌, length};
ghost use Rattle.settings_values.specs.Definitions.{Settings};
ghost use Rattle.message_flat.specs.Definitions.{flat_length, flat_words, triple_word};
ghost use Rattle.message_flat.specs.Parted.{ended_in, parts_of, Few, length_of, head_by, flag_of, pair_word, front_word, word_of};

use message_format::Contents;

// What a report consists of: whether it has a termination, and how many masks, positions and runs.
#[derive(Clone, Copy)]
struct Parts {
    ended: bool,
    shards: usize,
    places: usize,
    runs: usize,
}

// A report has a termination: the record after the masks is of kind 2.
fn has_places(shards: usize, c: &Contents) -> bool
    requires { shards < 127 }
    ensures { result ≡ ended_in shards c.now.len c.now.body }
{
    if c.len <= shards {
        return false;
    }
    message_rows::fields::kind(&c.body, shards) == 2
}

// How many positions there are.
fn places_of(ended: bool, shards: usize) -> usize
    ensures { result ≡ cond ended shards 0 }
{
    if ended {
        return shards;
    }
    0
}

// How many of so many records follow the first ones.
fn rest_of(len: usize, first: usize) -> usize
    ensures { result ≡ len - first }
{
    if len < first {
        return 0;
    }
    len - first
}

// The parts of a report.
fn parts_of(settings: &[u32], c: &Contents) -> Parts
    requires { Settings settings.now }
    ensures { result ≡ parts_of settings.now c.now.len c.now.body }
{
    let shards = base_ids::wide(settings_values::shards(settings));
    let ended = has_places(shards, c);
    let places = places_of(ended, shards);
    let runs = rest_of(c.len, shards + places);
    Parts {
        ended,
        shards,
        places,
        runs,
    }
}

// How many words the flat report takes.
fn length_of(parts: Parts) -> usize
    requires { Few parts }
    ensures { result ≡ length_of parts }
{
    6 + parts.shards + 2 * parts.places + 3 * parts.runs
}

// Word k of the head.
fn head_word(c: &Contents, k: usize) -> u32
    ensures { result ≡ head_by c.now.node c.now.view c.now.members k }
{
    if k == 0 {
        return c.node.0;
    }
    if k == 1 {
        return c.view.0;
    }
    c.members
}

// The word before the positions.
fn flag_of(ended: bool) -> u32
    ensures { result ≡ flag_of ended }
{
    if ended {
        return 1;
    }
    0
}

// Word i of the positions, which start after so many records.
fn position_word(body: &[u32; 381], shards: usize, i: usize) -> u32
    requires { 2 * shards + i < 254 }
    ensures { result ≡ pair_word body.now shards i }
{
    body[3 * (shards + i / 2) + 1 + i % 2]
}

// Word i of the triples, which start after so many records.
fn triple_word(body: &[u32; 381], first: usize, i: usize) -> u32
    requires { 3 * first + i < 381 }
    ensures { result ≡ triple_word body.now first i }
{
    if i % 3 == 0 {
        let shard = message_rows::fields::shard(body, first + i / 3);
        return shard.0;
    }
    body[3 * first + i]
}

// Word k before the positions: the head, the number of shards, the masks, and whether positions follow.
fn front_word(c: &Contents, parts: Parts, k: usize) -> u32
    requires { Few parts }
    ensures { result ≡ front_word c.now.node c.now.view c.now.members c.now.body parts k }
{
    if k < 3 {
        return head_word(c, k);
    }
    if k < 4 {
        return parts.shards as u32;
    }
    if k < 4 + parts.shards {
        return message_rows::fields::word1(&c.body, k - 4);
    }
    flag_of(parts.ended)
}

// Word k of the flat report, 0 past its end.
fn word_of(c: &Contents, parts: Parts, k: usize) -> u32
    requires { Few parts }
    ensures { result ≡ word_of c.now.node c.now.view c.now.members c.now.body parts k }
{
    let places = 5 + parts.shards;
    let count = places + 2 * parts.places;
    if k < places {
        return front_word(c, parts, k);
    }
    if k < count {
        return position_word(&c.body, parts.shards, k - places);
    }
    if k < count + 1 {
        return parts.runs as u32;
    }
    if k < length_of(parts) {
        return triple_word(&c.body, parts.shards + parts.places, k - (count + 1));
    }
    0
}

// Writes the flat report of the contents c into 512 lent words, with zeros after it, and answers its length.
pub fn write(settings: &[u32], c: &Contents, words: &mut [u32]) -> usize
    requires settings { Settings settings.now }
    requires len_bound { c.now.len ≤ 127 }
    requires words_len { length words.old ≡ 512 }
    ensures answer { result ≡ flat_length settings.now c.now }
    ensures words { words.new ≡ flat_words settings.now c.now }
{
    let parts = parts_of(settings, c);
    for k in 0..512 {
        words[k] = word_of(c, parts, k);
    }
    length_of(parts)
}
