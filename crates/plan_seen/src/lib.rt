// What the desk tells of the held nodes: whether their slots are sound, the views that they reported, and each shard's holder and target.
#![tactic(auto)]

ghost use Rattle.std.specs.Prelude.{true, false, not, ◌||◌, List, ◌≡◌, ℕ, ◌<◌, ◌≤◌, ◌+◌, ◌*◌, ◌/◌, ◌%◌, eqb, ltb, length, get_or, replicate};
ghost use Rattle.base_lent.specs.Definitions.{words_in};
ghost use Rattle.base_ids.specs.declared.Position as Positions;
ghost use Rattle.settings_values.specs.Definitions.{Settings, shards};
ghost use Rattle.report_views.specs.Definitions.{has_update, slot_ok, slots_ok};
ghost use Rattle.report_views.specs.Numbers.{as_number, from_number};
ghost use Rattle.report_views.specs.Definitions as Definitions;
ghost use Rattle.report_views.specs.declared.Layout as Layouts;
ghost use Rattle.report_views.specs.declared.Termination as Terminations;
ghost use Rattle.report_walk.specs.Seen.{PositionRecords};
ghost use Rattle.report_walk.specs.Updates.{RecordsAre, goal_at};
ghost use Rattle.report_walk.specs.Kept.{TablesOf};
ghost use Rattle.plan_seen.specs.Nodes.{word_of_pairs, words_of_pairs, RenewedAt, RenewedBelow, SlotIs, EndsTold, EndTells, eligible};
ghost use Rattle.plan_seen.specs.Fold.{SoFar, Stepped, holders_from, target_from, targets_from};
ghost use Rattle.plan_seen.specs.Quick.{EndIs, QuickStep};
ghost use Rattle.plan_seen.specs.Sight.{none_seen, view_seen, views_seen, seen_of};

use base_ids::{Node, Position, View};
use message_format::{Contents, Form};
use report_views::{Layout, Termination};
use report_walk::{Frame, Tables};

// What a desk tells. ok: every held node's slot is sound; else nothing more is told. views: the view that each held node reported.
#[derive(Clone, Copy)]
pub struct Seen {
    pub ok: bool,
    pub views: [View; 32],
    pub holders: [Node; 16],
    pub targets: [Position; 16],
}

// A node that is noted: its number, whether a termination is made, and the last of its records.
#[derive(Clone, Copy)]
struct Turn {
    node: Node,
    made: bool,
    last: usize,
}

// A held node's slot: its node, and whether the walk has told it.
#[derive(Clone, Copy)]
struct SlotSeen {
    node: Node,
    told: bool,
}

// Nothing is told: a held node's slot is not sound.
fn none_seen() -> Seen
    ensures { result ≡ none_seen }
{
    let nobody = Node(0);
    Seen {
        ok: false,
        views: [View(0); 32],
        holders: [nobody; 16],
        targets: report_views::no_positions(),
    }
}

// The view that a held node reported; 0 of a node that is not held.
fn view_seen(held: u32, desk: &[u8], node: Node) -> View
    requires { (length desk.now ≡ 65536) × (node.0 < 32) }
    ensures { result ≡ view_seen held (words_in desk.now) node.0 }
{
    let n = node.0 as usize;
    if !base_masks::has(held, n) {
        return View(0);
    }
    View(base_bytes::word_at(desk, 512 * n + 1))
}

// Two words as one number.
fn joined(low: u32, high: u32) -> u64
    ensures value { result ≡ low + 4294967296 * high }
    ensures low_bound { low < 4294967296 }
{
    low as u64 + 4294967296 * (high as u64)
}

// The first word of a pair.
fn low(x: u64) -> u32
    ensures { result ≡ x % 4294967296 }
{
    (x % 4294967296) as u32
}

// The second word of a pair.
fn high(x: u64) -> u32
    ensures { result ≡ x / 4294967296 }
{
    (x / 4294967296) as u32
}

// Word k of a slot that is given as pairs.
fn word_at(b: &[u64; 256], k: usize) -> u32
    requires { k < 512 }
    ensures { result ≡ word_of_pairs b.now k }
{
    if k % 2 == 0 {
        return low(b[k / 2]);
    }
    high(b[k / 2])
}

// The words of a slot that is given as pairs.
fn words_of(b: &[u64; 256]) -> [u32; 512]
    ensures { result ≡ words_of_pairs b.now }
{
    let mut words = [0u32; 512];
    for k in 0..512 {
        words[k] = word_at(b, k);
    }
    words
}

// The position that a number stands for.
fn position_of(x: u64) -> Position
    ensures { result ≡ from_number x }
{
    Position {
        view: View((x / 4294967296) as u32),
        k: (x % 4294967296) as u32,
    }
}

// The records of a report's contents as pairs, one after another from record 1 on.
fn record_pairs(body: &[u32; 381], len: usize) -> [u64; 256]
    requires { len ≤ 127 }
    ensures { RecordsAre result body.now len }
{
    let mut list = [0u64; 256];
    for j in 0..len {
        list[2 * j + 2] = joined(body[3 * j], body[3 * j + 1]);
        list[2 * j + 3] = joined(body[3 * j + 2], 0);
    }
    list
}

// If a termination is made, the log of shard s has its position. x is the number of the log's end.
fn reached(b: &[u64; 256], turn: Turn, positions: &[u64; 32], s: usize, x: u64) -> bool
    requires { (turn.last ≤ 127) × (s < 16) }
    ensures { (body : List ℕ) (p : Positions.Position) → EndTells b.now body turn.last s p x (goal_at positions.now s)
        → result ≡ (not turn.made || has_update body turn.last s p) }
{
    if !turn.made {
        return true;
    }
    let y = report_walk::goal_at(positions, s);
    if x == y {
        return true;
    }
    if x < y {
        return false;
    }
    if x / 4294967296 == y / 4294967296 {
        if 1 <= y % 4294967296 {
            return true;
        }
    }
    report_walk::has_update(b, turn.last, s, y)
}

// There is no best yet (32), or its end x is before the end y.
fn takes(best: u32, x: u64, y: u64) -> bool
    ensures { result ≡ (eqb best 32 || ltb x y) }
{
    if best == 32 {
        return true;
    }
    x < y
}

// Notes a node for a shard, where it is better than the best so far.
fn note_best(holders: &mut [u32; 16], tops: &mut [u64; 16], s: usize, end: u64, node: Node)
    requires holders_len { (length holders.old ≡ 16) × (length tops.old ≡ 16) }
    requires s_bound { s < 16 }
    ensures holders_len_2 { (length holders.new ≡ 16) × (length tops.new ≡ 16) }
    ensures renewed_at { RenewedAt true node.0 end s holders.old tops.old holders.new tops.new }
{
    if !takes(holders[s], tops[s], end) {
        return;
    }
    holders[s] = node.0;
    tops[s] = end;
}

// Notes a node that reported the kept view for a shard, if it counts for it.
fn note_shard(
    masks: &[u32; 16],
    positions: &[u64; 32],
    b: &[u64; 256],
    turn: Turn,
    ends: &[u64; 16],
    s: usize,
    holders: &mut [u32; 16],
    tops: &mut [u64; 16],
)
    requires holders_len { (length holders.old ≡ 16) × (length tops.old ≡ 16) }
    requires last_bound { (turn.last ≤ 127) × (s < 16) }
    ensures holders_len_2 { (length holders.new ≡ 16) × (length tops.new ≡ 16) }
    ensures by_index { (σ : List ℕ) (v : Layouts.Layout) (t : Terminations.Termination) (d : List ℕ)
        → EndsTold σ v t d turn.node.0 b.now turn.last ends.now
        → masks.now ≡ v.masks → turn.made ≡ t.made → PositionRecords t.positions (shards σ) positions.now → s < shards σ
        → RenewedAt (eligible v t d s turn.node.0) turn.node.0 (as_number (Definitions.end_at d s turn.node.0)) s holders.old tops.old holders.new tops.new }
{
    let node = turn.node;
    if !base_masks::has(masks[s], node.0 as usize) {
        return;
    }
    let end = ends[s];
    if !reached(b, turn, positions, s, end) {
        return;
    }
    note_best(holders, tops, s, end, node);
}

// Notes a node that reported the kept view for the first count shards.
fn note(
    masks: &[u32; 16],
    positions: &[u64; 32],
    b: &[u64; 256],
    turn: Turn,
    ends: &[u64; 16],
    count: usize,
    holders: &mut [u32; 16],
    tops: &mut [u64; 16],
)
    requires holders_len { (length holders.old ≡ 16) × (length tops.old ≡ 16) }
    requires last_bound { (turn.last ≤ 127) × (count ≤ 16) }
    ensures holders_len_2 { (length holders.new ≡ 16) × (length tops.new ≡ 16) }
    ensures by_index { (σ : List ℕ) (v : Layouts.Layout) (t : Terminations.Termination) (d : List ℕ)
        → EndsTold σ v t d turn.node.0 b.now turn.last ends.now
        → masks.now ≡ v.masks → turn.made ≡ t.made → PositionRecords t.positions (shards σ) positions.now → count ≡ shards σ
        → RenewedBelow v t d turn.node.0 (shards σ) holders.old tops.old holders.new tops.new }
{
    for s in 0..count {
        note_shard(masks, positions, b, turn, ends, s, holders, tops);
    }
}

// Notes a node by its report, if it is of the kept view.
fn note_report(
    settings: &[u32],
    v: Layout,
    t: Termination,
    positions: &[u64; 32],
    c: Contents,
    node: Node,
    holders: &mut [u32; 16],
    tops: &mut [u64; 16],
)
    requires settings { Settings settings.now }
    requires holders_len { (length holders.old ≡ 16) × (length tops.old ≡ 16) }
    requires position_records { PositionRecords t.positions (shards settings.now) positions.now }
    requires len_bound { c.len ≤ 127 }
    ensures holders_len_2 { (length holders.new ≡ 16) × (length tops.new ≡ 16) }
    ensures by_index { (d b : List ℕ) → SlotIs d node.0 b → node.0 < 32 → slot_ok settings.now v t d node.0 ≡ true → c ≡ Definitions.report_of d node.0
        → RenewedBelow v t d node.0 (shards settings.now) holders.old tops.old holders.new tops.new }
{
    let view = c.view;
    let number = v.number;
    if view.0 != number.0 {
        return;
    }
    let len = c.len;
    let ends = report_desk::ends::ends_of(&c.body, len);
    let b = record_pairs(&c.body, len);
    let turn = Turn {
        node,
        made: t.made,
        last: len,
    };
    let count = base_ids::wide(settings_values::shards(settings));
    note(&v.masks, positions, &b, turn, &ends, count, holders, tops);
}

// Reads a held node's slot and notes the node, unless the walk has. False: the slot is not sound.
fn read_step(
    settings: &[u32],
    v: Layout,
    t: Termination,
    positions: &[u64; 32],
    b: &[u64; 256],
    slot: SlotSeen,
    holders: &mut [u32; 16],
    tops: &mut [u64; 16],
) -> bool
    requires settings { Settings settings.now }
    requires holders_len { (length holders.old ≡ 16) × (length tops.old ≡ 16) }
    requires node_bound { slot.node.0 < 32 }
    requires position_records { PositionRecords t.positions (shards settings.now) positions.now }
    ensures holders_len_2 { (length holders.new ≡ 16) × (length tops.new ≡ 16) }
    ensures value { slot.told ≡ true → (result ≡ true) × (holders.new ≡ holders.old) × (tops.new ≡ tops.old) }
    ensures stepped { slot.told ≡ false → (d : List ℕ) → SlotIs d slot.node.0 b.now
        → Stepped settings.now v t d slot.node.0 result holders.old tops.old holders.new tops.new }
{
    if slot.told {
        return true;
    }
    let w = words_of(b);
    if report_quick::words_fit(settings, v.number, &w, slot.node) {
        return true;
    }
    let Ok(c) = message_reader::read_under(Form::Report, settings, &w) else {
        return false;
    };
    if !report_desk::slots::report_fits(settings, v, t, c, slot.node) {
        return false;
    }
    note_report(settings, v, t, positions, c, slot.node, holders, tops);
    true
}

// The holders of the first count shards, then zeros.
fn holders_seen(list: &[u32; 16], count: usize) -> [Node; 16]
    requires { count ≤ 16 }
    ensures { result ≡ holders_from list.now count }
{
    let none = Node(0);
    let mut holders = [none; 16];
    for s in 0..count {
        holders[s] = Node(list[s]);
    }
    holders
}

// A target: the kept position if a termination is made, or else the greatest end.
fn target_of(made: bool, kept: Position, top: u64) -> Position
    ensures { result ≡ target_from made kept top }
{
    if made {
        return kept;
    }
    position_of(top)
}

// The targets of the first count shards, then (0, 0).
fn targets_seen(t: Termination, tops: &[u64; 16], count: usize) -> [Position; 16]
    requires { count ≤ 16 }
    ensures { result ≡ targets_from t tops.now count }
{
    let kept = t.positions;
    let mut targets = report_views::no_positions();
    for s in 0..count {
        targets[s] = target_of(t.made, kept[s], tops[s]);
    }
    targets
}

// The end of shard s's log by the walk's list, if the node is a member of the shard.
fn member_end(masks: &[u32; 16], b: &[u64; 256], node: Node, last: &[usize; 16], s: usize) -> u64
    requires { s < 16 }
    ensures { EndIs masks.now b.now last.now node.0 s result }
{
    if !base_masks::has(masks[s], node.0 as usize) {
        return 0;
    }
    if 127 < last[s] {
        return 0;
    }
    report_walk::end_at(b, last, s)
}

// The ends by the walk's list, of the first count shards of which the node is a member.
fn member_ends(
    masks: &[u32; 16],
    count: usize,
    b: &[u64; 256],
    node: Node,
    last: &[usize; 16],
) -> [u64; 16]
    requires { count ≤ 16 }
    ensures { (s : ℕ) → s < count → EndIs masks.now b.now last.now node.0 s (get_or result s 0) }
{
    let mut ends = [0u64; 16];
    for s in 0..count {
        ends[s] = member_end(masks, b, node, last, s);
    }
    ends
}

// Walks over a slot, and notes the node if the walk tells its report of the kept view. False: it is not told.
fn quick_step(
    frame: Frame,
    masks: &[u32; 16],
    records: &[u64; 32],
    positions: &[u64; 32],
    b: &[u64; 256],
    node: Node,
    holders: &mut [u32; 16],
    tops: &mut [u64; 16],
) -> bool
    requires holders_len { (length holders.old ≡ 16) × (length tops.old ≡ 16) }
    requires le_count { (1 ≤ frame.count) × (frame.count ≤ 16) }
    ensures holders_len_2 { (length holders.new ≡ 16) × (length tops.new ≡ 16) }
    ensures quick_step { QuickStep frame masks.now records.now positions.now b.now node.0 result holders.old tops.old holders.new tops.new }
{
    let mut told = [0usize; 16];
    let Some(last) = report_walk::told(frame, records, positions, b, node, &mut told) else {
        return false;
    };
    let ends = member_ends(masks, frame.count, b, node, &told);
    let turn = Turn {
        node,
        made: frame.made,
        last,
    };
    note(masks, positions, b, turn, &ends, frame.count, holders, tops);
    true
}

// Every held node's slot is sound; if so each node is noted. The lists are those of no node before.
fn walk_nodes(
    settings: &[u32],
    v: Layout,
    t: Termination,
    tables: Tables,
    held: u32,
    desk: &[u8],
    holders: &mut [u32; 16],
    tops: &mut [u64; 16],
) -> bool
    requires settings { Settings settings.now }
    requires tables_of { TablesOf settings.now v t tables }
    requires desk_len { length desk.now ≡ 65536 }
    requires holders_value { (holders.old ≡ replicate 16 32) × (tops.old ≡ replicate 16 0) }
    ensures value { result ≡ slots_ok settings.now v t held (words_in desk.now) }
    ensures so_far { result ≡ true → SoFar v t held (words_in desk.now) (shards settings.now) 32 holders.new tops.new }
{
    let frame = tables.frame;
    let masks = v.masks;
    let records = tables.masks;
    let positions = tables.positions;
    let mut b = [0u64; 256];
    for n in 0usize..32 {
        if base_masks::has(held, n) {
            let at = 2048 * n;
            base_bytes::pairs(&desk[at..at + 2048], &mut b);
            let node = Node(n as u32);
            let told = quick_step(frame, &masks, &records, &positions, &b, node, holders, tops);
            let slot = SlotSeen { node, told };
            if !read_step(settings, v, t, &positions, &b, slot, holders, tops) {
                return false;
            }
        }
    }
    true
}

// The views that the held nodes reported.
fn views_seen(held: u32, desk: &[u8]) -> [View; 32]
    requires { length desk.now ≡ 65536 }
    ensures { result ≡ views_seen held (words_in desk.now) }
{
    let mut views = [View(0); 32];
    for n in 0..32 {
        views[n] = view_seen(held, desk, Node(n as u32));
    }
    views
}

// What the desk tells of the held nodes, by the tables of the kept view and its termination.
pub fn see(
    settings: &[u32],
    v: Layout,
    t: Termination,
    tables: Tables,
    held: u32,
    desk: &[u8],
) -> Seen
    requires settings { Settings settings.now }
    requires tables_of { TablesOf settings.now v t tables }
    requires desk_len { length desk.now ≡ 65536 }
    ensures { result ≡ seen_of settings.now v t held (words_in desk.now) }
{
    let mut best = [32u32; 16];
    let mut tops = [0u64; 16];
    if !walk_nodes(settings, v, t, tables, held, desk, &mut best, &mut tops) {
        return none_seen();
    }
    let frame = tables.frame;
    let views = views_seen(held, desk);
    let holders = holders_seen(&best, frame.count);
    let targets = targets_seen(t, &tops, frame.count);
    Seen {
        ok: true,
        views,
        holders,
        targets,
    }
}
