// The placement oracle: it keeps a placement of least weight among those that have all pairs taken for good, and levels
// that say why it is the least, as a minimum cost flow by shortest ways. It is proved safe and ending, and its answers are claims: the
// search that asks believes none of them, and proves each by the weights.
#![tactic(auto)]

mod claims;
mod start;
mod levels; // levels.rt: the levels as weights

ghost use Rattle.std.specs.Prelude.{◌≡◌, ◌≤◌, length};

// What the oracle claims of a pair, or of the end of a list: it is granted for good, there is no room for it, the weights exclude it, or
// none of these.
pub const GRANTED: u32 = 0;

pub const BARRED: u32 = 1;

pub const EXCLUDED: u32 = 2;

pub const GIVEN_UP: u32 = 3;

// A claim of the least weight, or, by 65535, that there is no valid placement.
pub fn solve(
    mem: &mut [u32; 1024],
    sets: &[u8; 32],
    needs: &[u8; 16],
    caps: &[u8; 16],
    costs: &[u8; 512],
    idle: u8,
) -> u32
    ensures { result ≤ 65535 }
{
    crate::start::start(mem, sets, needs, caps, costs, idle)
}

// What the oracle claims of the pair. Granted, the shard has the node for good.
pub fn take(mem: &mut [u32; 1024], shard: u32, node: u32, most: u32) -> u32
    ensures { result ≤ 3 }
{
    crate::claims::claim(mem, shard % 16, node % 32, most)
}

// What it claims of the end of the shard's list. Granted, the list is ended for good.
pub fn close(mem: &mut [u32; 1024], shard: u32, most: u32) -> u32
    ensures { result ≤ 3 }
{
    crate::claims::close(mem, shard % 16, most)
}

// The present weights, or those of the list that could not be ended: of shards for their needs and rooms, up to the last that may have
// nodes, of nodes, and of pairs of a shard and a failure set at shard * 16 + set. Others stay as they are.
pub fn weigh(
    mem: &[u32; 1024],
    sets: &[u8; 32],
    wants: &mut [u16; 16],
    rooms: &mut [u16; 16],
    nodes: &mut [u16; 32],
    pairs: &mut [u16; 256],
)
    ensures wants_len_unchanged { length wants.new ≡ length wants.old }
    ensures rooms_len_unchanged { length rooms.new ≡ length rooms.old }
    ensures nodes_len_unchanged { length nodes.new ≡ length nodes.old }
    ensures pairs_len_unchanged { length pairs.new ≡ length pairs.old }
{
    levels::rooms(rooms, mem);
    levels::wants(wants, mem, rooms);
    levels::nodes(nodes, mem, rooms);
    let count = hint_memory::owners::shards(mem);
    let mut i: u32 = 0;
    while i < count {
        levels::weigh_row(pairs, mem, sets, wants, rooms, i);
        i += 1;
    }
    levels::weigh_fixed(pairs, mem, sets, wants);
}
