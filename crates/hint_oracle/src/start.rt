// The first placement: shards keep nodes that stay, for their needs and in their rooms; the others are placed nowhere; then ways from each
// shard that lacks nodes to nowhere.
ghost use Rattle.std.specs.Prelude.{◌≤◌};

// The level of all nodes, and of nowhere, at first.
const FIRST_LEVEL: u32 = 1000;

// More than any placement weighs.
const BEYOND: u32 = 8600;

// The claim that there is no valid placement.
const NO_PLACEMENT: u32 = 65535;

// The nodes of each failure set, by set.
fn nodes_of_sets(sets: &[u8; 32]) -> [u32; 16] {
    let mut nodes = [0u32; 16];
    for n in 0u32..32 {
        let f = hint_memory::wide(sets[n as usize]) % 16;
        nodes[f as usize] = nodes[f as usize] | hint_memory::bit(n);
    }
    nodes
}

// Every node without an owner, at the first level.
fn load_nodes(mem: &mut [u32; 1024], sets: &[u8; 32]) {
    let nodes = nodes_of_sets(sets);
    for n in 0u32..32 {
        let f = hint_memory::wide(sets[n as usize]) % 16;
        hint_memory::set(mem, hint_memory::PEERS, n, nodes[f as usize]);
        hint_memory::set(mem, hint_memory::OWNER, n, hint_memory::NO_OWNER);
        hint_memory::set(mem, hint_memory::LEVEL, n, FIRST_LEVEL);
    }
}

// The mask of node n, if it is chosen.
fn chosen(is: bool, n: u32) -> u32 {
    if is { hint_memory::bit(n) } else { 0 }
}

// The nodes that shard i may have: those at no cost, and those at the cost of a move, which is the greatest below 255.
fn load_row(mem: &mut [u32; 1024], costs: &[u8; 512], i: u32) {
    let mut stay: u32 = 0;
    let mut moved: u32 = 0;
    let mut top: u32 = 0;
    for n in 0u32..32 {
        let c = hint_memory::wide(costs[(i % 16 * 32 + n) as usize]);
        stay = stay | chosen(c == 0, n);
        moved = moved | chosen(c % 255 != 0, n);
        top = hint_memory::larger(top, c % 255);
    }
    hint_memory::set(mem, hint_memory::STAY, i, stay);
    hint_memory::set(mem, hint_memory::MOVED, i, moved);
    let most = hint_memory::number(mem, hint_memory::MOVE_COST, 0);
    hint_memory::set(
        mem,
        hint_memory::MOVE_COST,
        0,
        hint_memory::larger(most, top),
    );
}

// A shard with no node.
fn load_shard(mem: &mut [u32; 1024], i: u32, need: u32, cap: u32) {
    hint_memory::set(mem, hint_memory::OWED, i, 0);
    hint_memory::set(mem, hint_memory::SPARE, i, 0);
    hint_memory::set(mem, hint_memory::USED, i, 0);
    hint_memory::set(mem, hint_memory::COVERED, i, 0);
    hint_memory::set(mem, hint_memory::NEED, i, need);
    hint_memory::set(mem, hint_memory::LACK, i, need);
    let room = hint_memory::less(cap, need);
    hint_memory::set(mem, hint_memory::ROOM, i, room);
    hint_memory::set(mem, hint_memory::FREE, i, room);
}

// Shard i keeps nodes that stay, one of a set, for its need.
fn keep_need(mem: &mut [u32; 1024], i: u32) {
    for round in 0u32..32 {
        let m = hint_memory::nodes(mem, hint_memory::STAY, i)
            & hint_memory::nodes(mem, hint_memory::LOOSE, 0)
            & !hint_memory::nodes(mem, hint_memory::USED, i);
        if m == 0 || hint_memory::owners::lack(mem, i) == 0 {
            return;
        }
        hint_memory::owners::give(mem, hint_memory::lowest(m), i);
    }
}

// And in its room.
fn keep_room(mem: &mut [u32; 1024], i: u32) {
    for round in 0u32..32 {
        let m = hint_memory::nodes(mem, hint_memory::STAY, i)
            & hint_memory::nodes(mem, hint_memory::LOOSE, 0);
        if m == 0 || hint_memory::owners::free_room(mem, i) == 0 {
            return;
        }
        hint_memory::owners::give(mem, hint_memory::lowest(m), hint_memory::owners::room_of(i));
    }
}

// A shard, with the nodes that it keeps for its need.
fn enter_shard(mem: &mut [u32; 1024], costs: &[u8; 512], i: u32, need: u32, cap: u32) {
    load_shard(mem, i, need, cap);
    if cap == 0 {
        hint_memory::set(mem, hint_memory::STAY, i, 0);
        hint_memory::set(mem, hint_memory::MOVED, i, 0);
        return;
    }
    hint_memory::set(mem, hint_memory::SHARDS, 0, i % 16 + 1);
    load_row(mem, costs, i);
    keep_need(mem, i);
}

// All shards.
fn enter_shards(mem: &mut [u32; 1024], needs: &[u8; 16], caps: &[u8; 16], costs: &[u8; 512]) {
    for i in 0u32..16 {
        enter_shard(
            mem,
            costs,
            i,
            hint_memory::wide(needs[i as usize]),
            hint_memory::wide(caps[i as usize]),
        );
    }
}

// All rooms: how many nodes more they could take.
fn enter_rooms(mem: &mut [u32; 1024]) -> u32
    ensures { result ≤ 1048576 }
{
    let count = hint_memory::owners::shards(mem);
    let mut free: u32 = 0;
    for i in 0..count {
        keep_room(mem, i);
        free += hint_memory::owners::free_room(mem, i);
    }
    free
}

// Nowhere at the level at which it takes any node, where no room could take one.
fn raise_nowhere(mem: &mut [u32; 1024], free: u32, idle: u8) {
    if free == 0 {
        hint_memory::set(
            mem,
            hint_memory::LEVEL,
            hint_memory::NOWHERE,
            FIRST_LEVEL + hint_memory::wide(idle),
        );
    }
}

// Of some nodes, those placed nowhere that shard i takes at the least level, where all nodes are at one level.
fn nearest(mem: &[u32; 1024], i: u32, nodes: u32) -> u32 {
    if hint_memory::number(mem, hint_memory::FLAT, 0) == 0 {
        return 0;
    }
    let stay = nodes & hint_memory::nodes(mem, hint_memory::STAY, i);
    let idle = hint_memory::nodes(mem, hint_memory::IDLE, 0);
    if stay == 0 { nodes & idle } else { stay & idle }
}

// One node more for the need of shard i: whether there is a way. A node that is placed nowhere is one, where no other is nearer.
fn augment(mem: &mut [u32; 1024], i: u32) -> bool {
    let nodes = hint_memory::owners::unused(mem, i);
    let near = nearest(mem, i, nodes);
    if near != 0 {
        let n = hint_memory::lowest(near);
        hint_memory::owners::release(mem, n);
        hint_memory::owners::give(mem, n, i);
        return true;
    }
    let level = hint_memory::owners::least_level(mem, i, nodes);
    hint_ways::from_shard(mem, i, nodes, level, BEYOND) != 0
}

// All that shard i needs: whether it gets them.
fn complete_shard(mem: &mut [u32; 1024], i: u32) -> bool {
    for round in 0u32..256 {
        if hint_memory::owners::lack(mem, i) == 0 {
            return true;
        }
        if !augment(mem, i) {
            return false;
        }
    }
    false
}

// All that the shards need: whether there is a placement.
fn complete(mem: &mut [u32; 1024]) -> bool {
    for i in 0u32..16 {
        if !complete_shard(mem, i) {
            return false;
        }
    }
    true
}

// Sets the memory up, whatever it held: all but the shards.
fn load(mem: &mut [u32; 1024], sets: &[u8; 32], idle: u8) {
    load_nodes(mem, sets);
    hint_memory::set(mem, hint_memory::LEVEL, hint_memory::NOWHERE, FIRST_LEVEL);
    hint_memory::set(mem, hint_memory::OPEN, 0, 0xffffffff);
    hint_memory::set(mem, hint_memory::IDLE, 0, 0);
    hint_memory::set(mem, hint_memory::LOOSE, 0, 0xffffffff);
    hint_memory::set(mem, hint_memory::CLOSED, 0, 0);
    hint_memory::set(mem, hint_memory::WEIGHT, 0, 0);
    hint_memory::set(mem, hint_memory::STALE, 0, 0);
    hint_memory::set(mem, hint_memory::FLAT, 0, 1);
    hint_memory::set(mem, hint_memory::MOVE_COST, 0, 0);
    hint_memory::set(mem, hint_memory::SHARDS, 0, 0);
    hint_memory::set(mem, hint_memory::IDLE_COST, 0, hint_memory::wide(idle));
}

// A placement of least weight: its weight, or 65535 where there is none.
pub fn start(
    mem: &mut [u32; 1024],
    sets: &[u8; 32],
    needs: &[u8; 16],
    caps: &[u8; 16],
    costs: &[u8; 512],
    idle: u8,
) -> u32
    ensures { result ≤ 65535 }
{
    load(mem, sets, idle);
    enter_shards(mem, needs, caps, costs);
    let free = enter_rooms(mem);
    raise_nowhere(mem, free, idle);
    hint_ways::settle(mem);
    if complete(mem) {
        return hint_memory::number(mem, hint_memory::WEIGHT, 0);
    }
    NO_PLACEMENT
}
