// The contents of a node's order: the plan's view, masks and targets, and the holder and cut of each shard that the node
// carries. Four loops over the shards store the records one after another. The cuts come from the desk, and are a table by then.
#![tactic(auto)]

ghost use Rattle.std.specs.Prelude.{cond, List, ◌≡◌, ℕ, ◌+◌, ◌*◌, ◌<◌, ◌≤◌};
ghost use Rattle.base_laws.specs.Definitions.{count_below, has};
ghost use Rattle.base_laws.specs.Loops.{turns};
ghost use Rattle.base_lent.specs.Definitions.{words_in};
ghost use Rattle.settings_values.specs.Definitions.{Sizes, shards};
ghost use Rattle.report_views.specs.Definitions.{start};
ghost use Rattle.plan_order.specs.Definitions.{is_member, carried_below, cut_beside, order_contents};
ghost use Rattle.plan_order.specs.Orders.{cuts_of};
ghost use Rattle.plan_order.specs.Stores.{words_stored, store_members, store_target, store_holder, store_tabled};
ghost use Rattle.plan_order.specs.Readable.{ReadableSlot, Holders};

use base_ids::{Node, Position, Shard, View};
use message_format::Contents;
use report_views::{Layout, Plan};

// Stores the words of record j.
fn put(body: &mut [u32; 381], j: usize, a: u32, b: u32, c: u32)
    requires { j < 127 }
    ensures { body.new ≡ words_stored body.old j a b c }
{
    body[3 * j] = a;
    body[3 * j + 1] = b;
    body[3 * j + 2] = c;
}

// Stores each shard's members.
fn put_members(body: &mut [u32; 381], layout: Layout, count: usize)
    requires { count ≤ 16 }
    ensures { body.new ≡ turns count (store_members layout) body.old }
{
    for s in 0..count {
        put(body, s, 256 + s as u32, layout.masks[s], 0);
    }
}

// Stores each shard's target after the members.
fn put_targets(body: &mut [u32; 381], plan: Plan, count: usize)
    requires { count ≤ 16 }
    ensures { body.new ≡ turns count (store_target count plan) body.old }
{
    for s in 0..count {
        let t = plan.targets[s];
        let v = t.view;
        put(body, count + s, 512 + s as u32, v.0, t.k);
    }
}

// Stores the holder of each shard that a node carries, from record `from` up, and gives the next record's index.
fn put_holders(body: &mut [u32; 381], plan: Plan, count: usize, node: Node, from: usize) -> usize
    requires { (count ≤ 16) × (from ≤ 32) }
    ensures value { result ≡ from + carried_below plan node.0 count }
    ensures body_after { body.new ≡ turns count (store_holder from plan node.0) body.old }
{
    let layout = plan.layout;
    let mut j = from;
    for s in 0..count {
        if base_masks::has(layout.masks[s], node.0 as usize) {
            let h = plan.holders[s];
            put(body, j, 1024 + s as u32, h.0, 0);
            j += 1;
        }
    }
    j
}

// Stores the cut of each shard that a node carries, from record `from` up, and gives the next record's index. A cut is two words of
// the table.
fn put_cuts(
    body: &mut [u32; 381],
    cuts: &[u32; 32],
    layout: Layout,
    count: usize,
    node: Node,
    from: usize,
) -> usize
    requires { (count ≤ 16) × (from ≤ 48) }
    ensures value { result ≡ from + count_below count (is_member layout node.0) }
    ensures body_after { body.new ≡ turns count (store_tabled from (is_member layout node.0) cuts.now) body.old }
{
    let mut j = from;
    for s in 0..count {
        if base_masks::has(layout.masks[s], node.0 as usize) {
            put(body, j, 1280 + s as u32, cuts[2 * s], cuts[2 * s + 1]);
            j += 1;
        }
    }
    j
}

// The contents of a node's order under a plan, given its cuts.
fn contents_with(settings: &[u32], plan: Plan, cuts: &[u32; 32], node: Node) -> Contents
    requires { Sizes settings.now }
    ensures { (d : List ℕ) → cuts.now ≡ cuts_of settings.now plan d node.0 → result ≡ order_contents settings.now plan d node.0 }
{
    let count = base_ids::wide(settings[3]);
    let layout = plan.layout;
    let number = layout.number;
    let mut body = [0u32; 381];
    put_members(&mut body, layout, count);
    put_targets(&mut body, plan, count);
    let next = put_holders(&mut body, plan, count, node, 2 * count);
    let len = put_cuts(&mut body, cuts, layout, count, node, next);
    Contents {
        node,
        view: number,
        members: layout.members,
        len,
        body,
    }
}

// The cut for a shard of the node whose report has this body of len records, where it is in the shard's mask; else (0, 0).
fn cut_for(
    mask: u32,
    node: Node,
    body: &[u32; 381],
    len: usize,
    desk: &[u8],
    shard: Shard,
    holder: Node,
    target: Position,
) -> Position
    requires len_bound { len ≤ 127 }
    requires readable_slot { ReadableSlot (words_in desk.now) holder.0 }
    ensures { result ≡ cond (has mask node.0) (cut_beside (words_in desk.now) body.now len shard.0 holder.0 target) start }
{
    if !base_masks::has(mask, node.0 as usize) {
        return Position {
            view: View(0),
            k: 0,
        };
    }
    let report = report_desk::slots::report_at(desk, holder);
    let records = report.len;
    report_cuts::cut(body, len, &report.body, records, shard, target)
}

// The cuts of a node under a plan: two words for each shard, zeros for those that it does not carry.
fn cuts_of(settings: &[u32], plan: Plan, desk: &[u8], node: Node) -> [u32; 32]
    requires sizes { Sizes settings.now }
    requires readable_slot { ReadableSlot (words_in desk.now) node.0 }
    requires holders { Holders (shards settings.now) plan (words_in desk.now) }
    ensures { result ≡ cuts_of settings.now plan (words_in desk.now) node.0 }
{
    let count = base_ids::wide(settings[3]);
    let layout = plan.layout;
    let report = report_desk::slots::report_at(desk, node);
    let len = report.len;
    let mut cuts = [0u32; 32];
    for s in 0..count {
        let holder = plan.holders[s];
        let target = plan.targets[s];
        let t = cut_for(
            layout.masks[s],
            node,
            &report.body,
            len,
            desk,
            Shard(s as u32),
            holder,
            target,
        );
        let v = t.view;
        cuts[2 * s] = v.0;
        cuts[2 * s + 1] = t.k;
    }
    cuts
}

// The contents of a node's order under a plan, from the reports that the desk holds.
pub fn order_contents(settings: &[u32], plan: Plan, desk: &[u8], node: Node) -> Contents
    requires sizes { Sizes settings.now }
    requires readable_slot { ReadableSlot (words_in desk.now) node.0 }
    requires holders { Holders (shards settings.now) plan (words_in desk.now) }
    ensures { result ≡ order_contents settings.now plan (words_in desk.now) node.0 }
{
    let cuts = cuts_of(settings, plan, desk, node);
    contents_with(settings, plan, &cuts, node)
}
