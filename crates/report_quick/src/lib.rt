// A quick acceptance of a held node's slot that has a report of an earlier view than the kept one, its records one after another as the
// writer lays them out. It accepts only sound slots; of one that it does not accept nothing is said.
#![tactic(auto)]

ghost use Rattle.std.specs.Prelude.{true, ◌⊎◌, ◌≡◌, ℕ, ◌+◌, ◌*◌, ◌<◌, ◌≤◌, length, get_or};
ghost use Rattle.settings_values.specs.Definitions.{Settings, shards};
ghost use Rattle.message_format.specs.Definitions.{row10};
ghost use Rattle.report_quick.specs.Told.{MemberTold, PositionTold, RunFits, RunsTold, HeadTold, mask_told};
ghost use Rattle.report_quick.specs.Accepts.{RestFits, WordsFit};

use base_ids::{Node, Position, View};
use message_format::Form;

// Record s + 1 stands after the one before it and gives the members of shard s.
fn member_told(w: &[u32], s: usize) -> bool
    requires { (length w.now ≡ 512) × (s < 16) }
    ensures { result ≡ true → MemberTold w.now s }
{
    if w[4 * s + 3] != s as u32 + 1 {
        return false;
    }
    if w[4 * s + 4] != 256 + s as u32 {
        return false;
    }
    w[4 * s + 6] == 0
}

// The records after the head give the members of the shards.
fn members_told(w: &[u32], count: usize) -> bool
    requires { (length w.now ≡ 512) × (count ≤ 16) }
    ensures { result ≡ true → (s : ℕ) → s < count → MemberTold w.now s }
{
    for s in 0..count {
        if !member_told(w, s) {
            return false;
        }
    }
    true
}

// Record i + 1 stands after the one before it and gives the position of shard s, of no view above the report's.
fn position_told(w: &[u32], view: u32, i: usize, s: usize) -> bool
    requires { (length w.now ≡ 512) × (i < 32) × (s < 16) }
    ensures { result ≡ true → PositionTold w.now view i s }
{
    if w[4 * i + 3] != i as u32 + 1 {
        return false;
    }
    if w[4 * i + 4] != 512 + s as u32 {
        return false;
    }
    if view < w[4 * i + 5] {
        return false;
    }
    let at = Position {
        view: View(w[4 * i + 5]),
        k: w[4 * i + 6],
    };
    message_rows::position(at)
}

// The next count records give the positions of the shards.
fn positions_told(w: &[u32], count: usize, view: u32) -> bool
    requires { (length w.now ≡ 512) × (count ≤ 16) }
    ensures { result ≡ true → (s : ℕ) → s < count → PositionTold w.now view (count + s) s }
{
    for s in 0..count {
        if !position_told(w, view, count + s, s) {
            return false;
        }
    }
    true
}

// A record comes after one by tag, then word 1.
fn rises(before: u32, since: u32, tag: u32, v: u32) -> bool
    ensures { result ≡ true → (before < tag) ⊎ ((before ≡ tag) × (since < v)) }
{
    if before < tag {
        return true;
    }
    if before == tag {
        return since < v;
    }
    false
}

// A run: of a known shard, after the record before it by shard and view, its view from 1 to the report's and its count from 1.
fn run_fits(before: u32, since: u32, tag: u32, v: u32, k: u32, count: u32, view: u32) -> bool
    requires { count ≤ 16 }
    ensures { result ≡ true → RunFits before since tag v k count view }
{
    if !rises(before, since, tag, v) {
        return false;
    }
    if tag < 768 {
        return false;
    }
    if 768 + count <= tag {
        return false;
    }
    if v < 1 {
        return false;
    }
    if view < v {
        return false;
    }
    1 <= k
}

// The runs stand one after another after record at, up to a last record.
fn runs_told(w: &[u32], at: usize, count: u32, view: u32) -> bool
    requires { (length w.now ≡ 512) × (at ≤ 32) × (count ≤ 16) }
    ensures { result ≡ true → (last : ℕ) × RunsTold w.now at count view last }
{
    let mut tag = w[4 * at];
    let mut word = w[4 * at + 1];
    for i in at..127 {
        if w[4 * i + 3] == 0 {
            return true;
        }
        if w[4 * i + 3] != i as u32 + 1 {
            return false;
        }
        if !run_fits(
            tag,
            word,
            w[4 * i + 4],
            w[4 * i + 5],
            w[4 * i + 6],
            count,
            view,
        ) {
            return false;
        }
        tag = w[4 * i + 4];
        word = w[4 * i + 5];
    }
    w[511] == 0
}

// The head is the node's, of a view below the kept one.
fn head_told(settings: &[u32], number: View, w: &[u32], node: Node) -> bool
    requires settings { Settings settings.now }
    requires w_len { length w.now ≡ 512 }
    ensures { result ≡ true → HeadTold settings.now number.0 w.now node.0 }
{
    if w[0] != node.0 {
        return false;
    }
    if settings_values::nodes(settings) <= w[0] {
        return false;
    }
    if number.0 <= w[1] {
        return false;
    }
    message_rows::row7(Form::Report, settings, Node(w[0]), View(w[1]), w[2])
}

// The masks that the records give for the shards.
fn masks_told(w: &[u32], count: usize) -> [u32; 16]
    requires { (length w.now ≡ 512) × (count ≤ 16) }
    ensures { (s : ℕ) → s < count → mask_told w.now s ≡ get_or result s 0 }
{
    let mut masks = [0u32; 16];
    for s in 0..count {
        masks[s] = w[4 * s + 5];
    }
    masks
}

// The masks pass row 10.
fn masks_fit(settings: &[u32], w: &[u32], count: usize) -> bool
    requires settings { Settings settings.now }
    requires w_len { (length w.now ≡ 512) × (count ≡ shards settings.now) }
    ensures { result ≡ true → row10 settings.now (get_or w.now 2 0) (mask_told w.now) ≡ true }
{
    let masks = masks_told(w, count);
    message_rows::shards::row10(settings, w[2], &masks)
}

// The records after the masks: a termination or none, and the runs.
fn rest_fits(w: &[u32], count: usize) -> bool
    requires { (length w.now ≡ 512) × (count ≤ 16) }
    ensures { result ≡ true → RestFits count w.now }
{
    if w[4 * count + 4] / 256 != 2 {
        return runs_told(w, count, count as u32, w[1]);
    }
    if !positions_told(w, count, w[1]) {
        return false;
    }
    runs_told(w, count + count, count as u32, w[1])
}

// The words of a node's slot are sound beside a kept view of this number, as far as is seen at once: a report of an earlier view.
pub fn words_fit(settings: &[u32], number: View, w: &[u32], node: Node) -> bool
    requires settings { Settings settings.now }
    requires w_len { length w.now ≡ 512 }
    ensures { result ≡ true → WordsFit settings.now number.0 w.now node.0 }
{
    if !head_told(settings, number, w, node) {
        return false;
    }
    let count = settings_values::shards(settings) as usize;
    if !members_told(w, count) {
        return false;
    }
    if !masks_fit(settings, w, count) {
        return false;
    }
    rest_fits(w, count)
}
