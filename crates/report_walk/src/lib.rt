// A walk over a held node's slot, two words at a time. It tells a report of the kept view whose records stand one after another, as
// the writer lays them out, and where each shard's last run stands. Of a slot that it does not tell nothing is said. What it compares
// with is made once of the kept view and its termination.
#![tactic(auto)]

ghost use Rattle.std.specs.Prelude.{◌≡◌, ℕ, ◌+◌, ◌-◌, ◌*◌, ◌/◌, ◌%◌, ◌<◌, ◌≤◌, true, IfSome, length, slice_index};
ghost use Rattle.settings_values.specs.Definitions.{Settings};
ghost use Rattle.base_laws.specs.Definitions.{all_below};
ghost use Rattle.report_views.specs.Definitions.{position_at, position_sound};
ghost use Rattle.report_walk.specs.Pairs.{pair_of, pairs_of};
ghost use Rattle.report_walk.specs.Seen.{key_of, before_at, runs_noted, Goes, RunEnds, RunsOn, RunsSeen, RunsAfter, PositionsSeen, RestSeen, FrontSeen, SlotTold, MaskRecords, PositionRecords, end_key};
ghost use Rattle.report_walk.specs.Updates.{run_has, update_seen, goal_at};
ghost use Rattle.report_walk.specs.Kept.{ready_of, TablesOf};

use base_ids::{Node, Position, View};
use message_format::Form;
use report_views::{Layout, Termination};

// Whether a report of the kept view can be told by comparing; the view's number and members, whether its termination is made, and S.
#[derive(Clone, Copy)]
pub struct Frame {
    pub ready: bool,
    pub number: View,
    pub members: u32,
    pub made: bool,
    pub count: usize,
}

// What slots and messages are compared with: the pairs of the records of members, and of those of positions.
#[derive(Clone, Copy)]
pub struct Tables {
    pub frame: Frame,
    pub masks: [u64; 32],
    pub positions: [u64; 32],
}

// Two words as one number.
fn joined(low: u32, high: u32) -> u64
    ensures value { result ≡ low + 4294967296 * high }
    ensures low_bound { low < 4294967296 }
{
    low as u64 + 4294967296 * (high as u64)
}

// Words 2i and 2i + 1 as one number.
fn pair(words: &[u32], i: usize) -> u64
    requires { 2 * i + 2 ≤ length words.now }
    ensures { result ≡ pair_of words.now i }
{
    joined(words[2 * i], words[2 * i + 1])
}

// The words of a message as pairs, zeros after its end.
pub fn pairs(words: &[u32]) -> [u64; 256]
    requires { (length words.now ≤ 512) × (length words.now % 2 ≡ 0) }
    ensures { result ≡ pairs_of words.now }
{
    let count = words.len() / 2;
    let mut list = [0u64; 256];
    for i in 0..count {
        list[i] = pair(words, i);
    }
    list
}

// The first word of a pair.
fn low(x: u64) -> u32
    ensures { result ≡ x % 4294967296 }
{
    (x % 4294967296) as u32
}

// The second word of a pair.
fn high(x: u64) -> u32
    ensures { result ≡ x / 4294967296 }
{
    (x / 4294967296) as u32
}

// A record's tag and word 1 as one number, by which runs rise.
fn key_of(front: u64) -> u64
    ensures { result ≡ key_of front }
{
    4294967296 * (front % 4294967296) + front / 4294967296
}

// A run's view is from 1 to the report's.
fn run_view(v: u32, view: u32) -> bool
    ensures { result ≡ true → (1 ≤ v) × (v ≤ view) }
{
    std::num::wrapping_sub_u32(v, 1) < view
}

// Record i is a run that rises from the key before it, and record i + 1 comes next.
fn goes_on(since: u64, front: u64, back: u64, i: usize, view: u32) -> bool
    requires { i ≤ 127 }
    ensures { result ≡ true → Goes since front back i view }
{
    let key = key_of(front);
    if key <= since {
        return false;
    }
    if !run_view(low(key), view) {
        return false;
    }
    std::num::wrapping_sub_u64(back, 4294967296 * (i as u64 + 1) + 1) < 4294967295
}

// The first record from `first` on that is no run with another after it. The runs before it are noted.
fn runs_on(b: &[u64; 256], first: usize, view: u32, last: &mut [usize; 16]) -> usize
    requires { (1 ≤ first) × (first ≤ 127) }
    ensures runs_on { RunsOn b.now first view result }
    ensures last_after { last.new ≡ runs_noted b.now last.old first (result - first) }
{
    let mut since: u64 = 3298534883328;
    for i in first..127 {
        let front = b[2 * i];
        if !goes_on(since, front, b[2 * i + 1], i, view) {
            return i;
        }
        last[(front % 16) as usize] = i;
        since = key_of(front);
    }
    127
}

// The key before record i of the runs.
fn before_at(b: &[u64; 256], first: usize, i: usize) -> u64
    requires { (1 ≤ first) × (first ≤ i) × (i ≤ 127) }
    ensures { result ≡ before_at b.now first i }
{
    if first < i {
        key_of(b[2 * i - 2])
    } else {
        3298534883328
    }
}

// A run of a known shard that rises from the key before it and ends the chain.
fn run_ends(since: u64, front: u64, back: u64, count: u32, view: u32) -> bool
    requires { count ≤ 16 }
    ensures { result ≡ true → RunEnds since front back count view }
{
    let key = key_of(front);
    if key <= since {
        return false;
    }
    if !run_view(low(key), view) {
        return false;
    }
    if 4294967296 <= back {
        return false;
    }
    if back < 1 {
        return false;
    }
    low(front) < 768 + count
}

// The runs, from record `first` on: the index of the last record, where it is told.
fn runs_told(
    b: &[u64; 256],
    first: usize,
    count: u32,
    view: u32,
    last: &mut [usize; 16],
) -> Option<usize>
    requires { (1 ≤ first) × (first ≤ 127) × (count ≤ 16) }
    ensures { IfSome result (λ i. (i ≤ 127) × RunsSeen b.now first count view last.old last.new i) }
{
    let i = runs_on(b, first, view, last);
    let since = before_at(b, first, i);
    let front = b[2 * i];
    if !run_ends(since, front, b[2 * i + 1], count, view) {
        return None;
    }
    last[(front % 16) as usize] = i;
    Some(i)
}

// The first n pairs of record `from` and those after it are these.
fn same_records(b: &[u64; 256], from: usize, given: &[u64; 32], n: usize) -> bool
    requires { (from ≤ 32) × (n ≤ 32) }
    ensures { result ≡ true → (k : ℕ) → k < n → slice_index b.now (2 * from + k) ≡ slice_index given.now k }
{
    for k in 0..n {
        if b[2 * from + k] != given[k] {
            return false;
        }
    }
    true
}

// Record `at` ends the chain, or the runs stand after it: the index of the last record, where it is told.
fn runs_after(
    b: &[u64; 256],
    at: usize,
    count: u32,
    view: u32,
    last: &mut [usize; 16],
) -> Option<usize>
    requires { (1 ≤ at) × (at ≤ 32) × (count ≤ 16) }
    ensures { IfSome result (λ i. (i ≤ 127) × RunsAfter b.now at count view last.old last.new i) }
{
    let next = high(b[2 * at + 1]);
    if next < 1 {
        return Some(at);
    }
    if next != at as u32 + 1 {
        return None;
    }
    runs_told(b, at + 1, count, view, last)
}

// The records after those of members are the kept positions.
fn positions_told(b: &[u64; 256], made: bool, positions: &[u64; 32], count: usize) -> bool
    requires { (1 ≤ count) × (count ≤ 16) }
    ensures { result ≡ true → PositionsSeen b.now made positions.now count }
{
    if !made {
        return false;
    }
    if high(b[2 * count + 1]) != count as u32 + 1 {
        return false;
    }
    if !same_records(b, count + 1, positions, 2 * count - 1) {
        return false;
    }
    low(b[4 * count + 1]) == low(positions[2 * count - 1])
}

// What follows the records of members: the kept positions or none, and the runs or none. The index of the last record, where it is told.
fn rest_told(
    b: &[u64; 256],
    made: bool,
    positions: &[u64; 32],
    count: usize,
    view: u32,
    last: &mut [usize; 16],
) -> Option<usize>
    requires { (1 ≤ count) × (count ≤ 16) }
    ensures { IfSome result (λ i. (i ≤ 127) × RestSeen b.now made positions.now count view last.old last.new i) }
{
    if positions_told(b, made, positions, count) {
        return runs_after(b, count + count, count as u32, view, last);
    }
    runs_after(b, count, count as u32, view, last)
}

// The head is a member's of the kept view, and the records of members are the kept ones.
fn front_told(
    number: u32,
    members: u32,
    masks: &[u64; 32],
    count: usize,
    b: &[u64; 256],
    node: u32,
) -> bool
    requires { (1 ≤ count) × (count ≤ 16) }
    ensures { result ≡ true → FrontSeen number members masks.now count b.now node }
{
    if b[0] != joined(node, number) {
        return false;
    }
    if b[1] != joined(members, 1) {
        return false;
    }
    if !base_masks::has(members, node as usize) {
        return false;
    }
    if !same_records(b, 1, masks, 2 * count - 1) {
        return false;
    }
    low(b[2 * count + 1]) == 0
}

// A report of the kept view by this node whose records stand one after another: the index of its last record, where it is told.
// last: where each shard's last run stands; it stays 0 for one without runs.
pub fn told(
    frame: Frame,
    masks: &[u64; 32],
    positions: &[u64; 32],
    b: &[u64; 256],
    node: Node,
    last: &mut [usize; 16],
) -> Option<usize>
    requires { (1 ≤ frame.count) × (frame.count ≤ 16) }
    ensures { IfSome result (λ i. (i ≤ 127) × (frame.ready ≡ true)
        × SlotTold frame.number.0 frame.members masks.now frame.made positions.now frame.count b.now node.0 last.old last.new i) }
{
    if !frame.ready {
        return None;
    }
    let number = frame.number;
    if !front_told(number.0, frame.members, masks, frame.count, b, node.0) {
        return None;
    }
    rest_told(b, frame.made, positions, frame.count, number.0, last)
}

// The view and k of a run as one number.
fn end_key(front: u64, back: u64) -> u64
    ensures { result ≡ 4294967296 * (front / 4294967296) + back % 4294967296 }
{
    4294967296 * (front / 4294967296) + back % 4294967296
}

// The end of shard s's log as one number, 2^32 view + k. 0: it has no run.
pub fn end_at(b: &[u64; 256], last: &[usize; 16], s: usize) -> u64
    requires { (s < 16) × (slice_index last.now s ≤ 127) }
    ensures { result ≡ end_key b.now last.now s }
{
    let i = last[s];
    if i == 0 {
        return 0;
    }
    end_key(b[2 * i], b[2 * i + 1])
}

// The number of shard s's position, by the pairs of its record.
pub fn goal_at(positions: &[u64; 32], s: usize) -> u64
    requires { s < 16 }
    ensures { result ≡ goal_at positions.now s }
{
    end_key(positions[2 * s], positions[2 * s + 1])
}

// Record j + 1 is a run with this front, its tag and its view, and reaches k.
fn run_has(b: &[u64; 256], front: u64, k: u64, j: usize) -> bool
    requires { j < 127 }
    ensures { result ≡ run_has b.now front k j }
{
    if b[2 * j + 2] != front {
        return false;
    }
    k <= b[2 * j + 3] % 4294967296
}

// The log of shard s in the records from 1 to n has the update with this number: any log has (0, 0).
pub fn has_update(b: &[u64; 256], n: usize, s: usize, goal: u64) -> bool
    requires { (n ≤ 127) × (s < 16) }
    ensures { result ≡ update_seen b.now n s goal }
{
    if goal == 0 {
        return true;
    }
    let k = goal % 4294967296;
    if k < 1 {
        return false;
    }
    let front = joined(768 + s as u32, high(goal));
    for j in 0..n {
        if run_has(b, front, k, j) {
            return true;
        }
    }
    false
}

// The pairs of the records of members.
fn mask_records(masks: &[u32; 16]) -> [u64; 32]
    ensures { MaskRecords masks.now result }
{
    let mut list = [0u64; 32];
    for s in 0..16 {
        list[2 * s] = joined(256 + s as u32, masks[s]);
        list[2 * s + 1] = joined(0, s as u32 + 2);
    }
    list
}

// The pairs of the records of positions.
fn position_records(positions: [Position; 16], count: usize) -> [u64; 32]
    requires { count ≤ 16 }
    ensures { PositionRecords positions count result }
{
    let mut list = [0u64; 32];
    for s in 0..16 {
        let p = positions[s];
        let view = p.view;
        list[2 * s] = joined(512 + s as u32, view.0);
        list[2 * s + 1] = joined(p.k, count as u32 + s as u32 + 2);
    }
    list
}

// A position of no view above the kept one.
fn position_legal(number: View, p: Position) -> bool
    ensures { result ≡ position_sound number.0 p }
{
    if !message_rows::position(p) {
        return false;
    }
    let view = p.view;
    view.0 <= number.0
}

// Positions of no view above the kept one.
fn positions_legal(number: View, t: Termination, count: usize) -> bool
    requires { count ≤ 16 }
    ensures { result ≡ all_below count (λ s. position_sound number.0 (position_at t s)) }
{
    let positions = t.positions;
    for s in 0..count {
        if !position_legal(number, positions[s]) {
            return false;
        }
    }
    true
}

// The kept view and termination can be told by comparing: they pass rows 7, 10 and 11, whatever the node.
fn ready(settings: &[u32], v: Layout, t: Termination) -> bool
    requires { Settings settings.now }
    ensures { result ≡ ready_of settings.now v t }
{
    let number = v.number;
    if !message_rows::view_ok(Form::Report, number) {
        return false;
    }
    if !base_masks::within(settings_values::nodes(settings) as usize, v.members) {
        return false;
    }
    if !message_rows::shards::row10(settings, v.members, &v.masks) {
        return false;
    }
    if !t.made {
        return true;
    }
    positions_legal(number, t, settings_values::shards(settings) as usize)
}

// What slots and messages are compared with.
pub fn tables_of(settings: &[u32], v: Layout, t: Termination) -> Tables
    requires { Settings settings.now }
    ensures { TablesOf settings.now v t result }
{
    let count = base_ids::wide(settings_values::shards(settings));
    let kept = t.positions;
    let masks = mask_records(&v.masks);
    let positions = position_records(kept, count);
    let frame = Frame {
        ready: ready(settings, v, t),
        number: v.number,
        members: v.members,
        made: t.made,
        count,
    };
    Tables {
        frame,
        masks,
        positions,
    }
}
