// Flat reports of the former seller, read where they lie in lent bytes: rows 19 to 21, and the contents of the report that they are
// turned into.
ghost use Rattle.std.specs.Prelude.{◌≡◌, ◌+◌, ◌*◌, ◌<◌, min, length, get_or};
ghost use Rattle.base_ids.specs.Definitions.{or_refusal};
ghost use Rattle.base_lent.specs.Definitions.{words_in};
ghost use Rattle.message_flat.specs.Definitions.{flat_refusal, flat_contents};
ghost use Rattle.message_flat.specs.Counted.{counts_of, places_by, explained_by, zero_in, records_of, mask_word, place_word, run_word, record_in, body_in};

use base_ids::{Node, Refusal, View};
use message_format::Contents;

// What the counts of a flat report say: the word before its positions, and how many masks, positions and runs it has.
#[derive(Clone, Copy)]
struct Counts {
    flag: u32,
    shards: u32,
    places: u32,
    runs: u32,
}

// How many words the bytes are; bytes that are no whole words are none.
fn words_in(flat: &[u8]) -> usize
    ensures { result ≡ length (words_in flat.now) }
{
    if flat.len() % 4 != 0 {
        return 0;
    }
    flat.len() / 4
}

// Word k, 0 past the end.
fn word_in(flat: &[u8], k: usize) -> u32
    ensures { result ≡ get_or (words_in flat.now) k 0 }
{
    if words_in(flat) <= k {
        return 0;
    }
    base_bytes::word_at(flat, k)
}

// How many positions there are, by the word before them.
fn places_by(flag: u32, shards: u32) -> u32
    ensures { result ≡ places_by flag shards }
{
    if flag == 1 {
        return shards;
    }
    0
}

// Where the count of runs stands.
fn count_at(shards: u32, places: u32) -> usize
    ensures { result ≡ 5 + shards + 2 * places }
{
    5 + base_ids::wide(shards) + 2 * base_ids::wide(places)
}

// The counts of a flat report.
fn counts_of(flat: &[u8]) -> Counts
    ensures { result ≡ counts_of (words_in flat.now) }
{
    let shards = word_in(flat, 3);
    let flag = word_in(flat, 4 + base_ids::wide(shards));
    let places = places_by(flag, shards);
    let runs = word_in(flat, count_at(shards, places));
    Counts {
        flag,
        shards,
        places,
        runs,
    }
}

// Row 19: the counts explain the length, and the word before the positions is 0 or 1.
fn explained(n: Counts, words: usize) -> bool
    ensures { result ≡ explained_by n words }
{
    if 1 < n.flag {
        return false;
    }
    words == count_at(n.shards, n.places) + 1 + 3 * base_ids::wide(n.runs)
}

// Row 20: some triple has count 0.
fn zero_in(flat: &[u8], n: Counts) -> bool
    ensures { result ≡ zero_in (words_in flat.now) n }
{
    let at = count_at(n.shards, n.places);
    let runs = base_ids::wide(n.runs);
    for i in 0..runs {
        if word_in(flat, at + 3 * i + 3) == 0 {
            return true;
        }
    }
    false
}

// How many records follow the head of the report.
fn records_of(n: Counts) -> usize
    ensures { result ≡ records_of n }
{
    base_ids::wide(n.shards) + base_ids::wide(n.places) + base_ids::wide(n.runs)
}

// Why a flat report is no such one: rows 19, 20 and 21.
pub fn flat_refusal(flat: &[u8]) -> Result<(), Refusal>
    ensures { result ≡ or_refusal (flat_refusal (words_in flat.now)) tt }
{
    let n = counts_of(flat);
    if !explained(n, words_in(flat)) {
        return Err(Refusal { code: 19 });
    }
    if zero_in(flat, n) {
        return Err(Refusal { code: 20 });
    }
    if 127 < records_of(n) {
        return Err(Refusal { code: 21 });
    }
    Ok(())
}

// Word p of the record of mask j.
fn mask_word(flat: &[u8], j: usize, p: usize) -> u32
    requires { j < 127 }
    ensures { result ≡ mask_word (words_in flat.now) j p }
{
    if p == 0 {
        return 256 + j as u32;
    }
    if p == 1 {
        return word_in(flat, 4 + j);
    }
    0
}

// Word p of the record of position i, of so many shards.
fn place_word(flat: &[u8], shards: u32, i: usize, p: usize) -> u32
    requires i_bound { i < 127 }
    requires p_bound { p < 3 }
    ensures { result ≡ place_word (words_in flat.now) shards i p }
{
    if p == 0 {
        return 512 + i as u32;
    }
    word_in(flat, 4 + base_ids::wide(shards) + 2 * i + p)
}

// A shard of a flat report as a record has it: one that is too large is 255.
fn clamped(shard: u32) -> u32
    ensures { result ≡ min shard 255 }
{
    if shard < 255 {
        return shard;
    }
    255
}

// Word p of the record of run i, the count of runs standing at so many words.
fn run_word(flat: &[u8], at: usize, i: usize, p: usize) -> u32
    requires i_bound { i < 127 }
    requires p_bound { p < 3 }
    requires at_bound { at < 17179869184 }
    ensures { result ≡ run_word (words_in flat.now) at i p }
{
    if p == 0 {
        return 768 + clamped(word_in(flat, at + 1 + 3 * i));
    }
    word_in(flat, at + 1 + 3 * i + p)
}

// Word p of record j after the head: a mask, a position or a run.
fn record_in(flat: &[u8], n: Counts, j: usize, p: usize) -> u32
    requires j_bound { j < 127 }
    requires p_bound { p < 3 }
    ensures { result ≡ record_in (words_in flat.now) n j p }
{
    let masks = base_ids::wide(n.shards);
    let first = masks + base_ids::wide(n.places);
    if j < masks {
        return mask_word(flat, j, p);
    }
    if j < first {
        return place_word(flat, n.shards, j - masks, p);
    }
    run_word(flat, count_at(n.shards, n.places), j - first, p)
}

// Word k of the body.
fn body_word(flat: &[u8], n: Counts, k: usize) -> u32
    requires { k < 381 }
    ensures { result ≡ body_in (words_in flat.now) n k }
{
    if k < 3 * records_of(n) {
        return record_in(flat, n, k / 3, k % 3);
    }
    0
}

// The contents of the report that the flat one is turned into.
pub fn contents_from(flat: &[u8]) -> Contents
    ensures { result ≡ flat_contents (words_in flat.now) }
{
    let n = counts_of(flat);
    let mut body = [0u32; 381];
    for k in 0..381 {
        body[k] = body_word(flat, n, k);
    }
    Contents {
        node: Node(word_in(flat, 0)),
        view: View(word_in(flat, 1)),
        members: word_in(flat, 2),
        len: records_of(n),
        body,
    }
}
