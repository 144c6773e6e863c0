// What any set of held nodes would allow: the slots are read once, for each shard the nodes that count for it are noted, and from
// these masks alone comes the number that decide would give.
#![tactic(auto)]

pub mod rows;

ghost use Rattle.std.specs.Prelude.{◌≡◌, ◌^◌, ◌<◌, ◌≤◌, length};
ghost use Rattle.base_laws.specs.Tables.{filled};
ghost use Rattle.base_lent.specs.Definitions.{words_in};
ghost use Rattle.settings_values.specs.Definitions.{nodes, Settings};
ghost use Rattle.report_views.specs.Definitions.{number_of};
ghost use Rattle.plan_quorum.specs.Answer.{quorum_from};
ghost use Rattle.plan_masks.specs.Masks as Masks;
ghost use Rattle.plan_masks.specs.Counting as Counting;
ghost use Rattle.plan_masks.specs.Counted.{counted_from};
ghost use Rattle.plan_masks.specs.Definitions as Definitions;

use base_ids::Node;
use plan_seen::Seen;
use report_views::{Layout, Reason, Termination};

// What is counted, as definitions have it; calls give an Option. ok: every slot that was asked for is sound. masks: for each shard the
// nodes that count for it, 0 from S up.
#[derive(Clone, Copy)]
pub struct HolderMasks {
    pub ok: bool,
    pub masks: [u32; 16],
}

// A shard's mask with one node more, if the shard has it as holder where no other node is held.
fn counted_with(mask: u32, holder: Node, node: Node) -> u32
    requires { node.0 < 32 }
    ensures { result ≡ Counting.counted_with mask holder.0 node.0 }
{
    if holder.0 == node.0 {
        return base_masks::with(mask, node.0 as usize);
    }
    mask
}

// Notes a node for the first count shards, by what the desk tells where no other node is held.
fn count_node(seen: Seen, node: Node, count: usize, masks: &mut [u32; 16])
    requires masks_len { (length masks.old ≡ 16) × (node.0 < 32) }
    requires count_bound { count ≤ 16 }
    ensures { masks.new ≡ filled count (Counting.counted_at seen.holders node.0 masks.old) masks.old }
{
    let holders = seen.holders;
    for s in 0..count {
        masks[s] = counted_with(masks[s], holders[s], node);
    }
}

// For each shard the nodes of `all` that count for it, if each of their slots is sound.
pub fn count(
    settings: &[u32],
    v: Layout,
    t: Termination,
    all: u32,
    desk: &[u8],
) -> Option<[u32; 16]>
    requires settings { Settings settings.now }
    requires desk_len { length desk.now ≡ 65536 }
    ensures { counted_from result ≡ Counting.counted_of settings.now v t all (words_in desk.now) }
{
    let tables = report_walk::tables_of(settings, v, t);
    let shards = base_ids::wide(settings_values::shards(settings));
    let mut masks = [0u32; 16];
    for n in 0usize..32 {
        if base_masks::has(all, n) {
            let seen = plan_seen::see(settings, v, t, tables, base_masks::with(0, n), desk);
            if !seen.ok {
                return None;
            }
            count_node(seen, Node(n as u32), shards, &mut masks);
        }
    }
    Some(masks)
}

// A shard's holder as far as waits ask: none where no held node counts for it.
fn some_holder(held: u32, mask: u32) -> Node
    ensures { result.0 ≡ Masks.some_holder held mask }
{
    if base_masks::disjoint(held, mask) {
        return Node(32);
    }
    Node(0)
}

// Whether each shard has a holder.
fn some_holders(held: u32, masks: &[u32; 16]) -> [Node; 16]
    ensures { result ≡ Masks.some_holders held masks.now }
{
    let none = Node(0);
    let mut holders = [none; 16];
    for s in 0..16 {
        holders[s] = some_holder(held, masks[s]);
    }
    holders
}

// A reason's number.
fn reason_number(reason: Reason) -> u8
    ensures { result ≡ number_of reason }
{
    match reason {
        Reason::NoView => 1,
        Reason::NoMajority => 2,
        Reason::TooFew => 3,
        Reason::NoHolder(_) => 4,
        Reason::NoPlacement(_) => 5,
    }
}

// 0 where every subgroup has a valid placement of held nodes, else 5.
fn placement_number(settings: &[u32], v: Layout, held: u32) -> u8
    requires settings { Settings settings.now }
    requires held_bound { held < 2 ^ nodes settings.now }
    ensures { Definitions.PlacementNumber settings.now held result }
{
    let old = v.masks;
    let placed = place_layout::place(settings, held, &old);
    if placed.found {
        return 0;
    }
    5
}

// Waits 1 to 4 with these nodes held: the first that applies.
pub fn quorum(settings: &[u32], v: Layout, held: u32, masks: &[u32; 16]) -> Result<(), Reason>
    requires { Settings settings.now }
    ensures { quorum_from result ≡ Masks.quorum_in settings.now v held masks.now }
{
    plan_quorum::quorum(settings, v, held, some_holders(held, masks))
}

// The number that decide would give with these nodes held: 0 for a plan, else the wait's.
pub fn number(settings: &[u32], v: Layout, held: u32, masks: &[u32; 16]) -> u8
    requires settings { Settings settings.now }
    requires held_bound { held < 2 ^ nodes settings.now }
    ensures { Definitions.Numbered settings.now held (Masks.quorum_in settings.now v held masks.now) result }
{
    let found = quorum(settings, v, held, masks);
    match found {
        Err(reason) => reason_number(reason),
        Ok(()) => placement_number(settings, v, held),
    }
}
