// Single changes of the oracle's placement: what an owner pays for a node, at which level it has it, and one node that loses its owner or
// gets one. The weight of the placement is kept along.
ghost use Rattle.std.specs.Prelude.{◌≡◌, ◌+◌, ◌-◌, ◌%◌, ◌≤◌, ◌<◌, get_or};
ghost use Rattle.std.specs.Int.Bits.{bit_and, bit_or};
ghost use Rattle.hint_memory.specs.Places.{owner_place, stay_place, moved_place, used_place, open_place, lack_place, free_place};

// The number of shards up to the last that may have nodes.
pub fn shards(mem: &[u32; 1024]) -> u32
    ensures { result ≤ 16 }
{
    let n = crate::number(mem, crate::SHARDS, 0);
    if n < 16 { n } else { 16 }
}

// What shard i pays for node n.
fn price(mem: &[u32; 1024], i: u32, n: u32) -> u32
    ensures { result < 65536 }
{
    if (crate::nodes(mem, crate::MOVED, i % 16) >> (n % 32)) % 2 == 1 {
        crate::number(mem, crate::MOVE_COST, 0)
    } else {
        0
    }
}

// The level at which shard i has node n, or would have it.
pub fn level_with(mem: &[u32; 1024], i: u32, n: u32) -> u32
    ensures { result < 131072 }
{
    let level = crate::number(mem, crate::LEVEL, n);
    level + price(mem, i, n)
}

// What owner o pays for node n.
fn charge(mem: &[u32; 1024], o: u32, n: u32) -> u32
    ensures { result < 65536 }
{
    if o < crate::NOWHERE {
        return price(mem, o, n);
    }
    if o == crate::NOWHERE {
        return crate::number(mem, crate::IDLE_COST, 0);
    }
    0
}

// The level at which its owner has node n.
pub fn held_level(mem: &[u32; 1024], n: u32) -> u32
    ensures { result < 131072 }
{
    crate::number(mem, crate::LEVEL, n) + charge(mem, crate::number(mem, crate::OWNER, n), n)
}

// The need of shard i loses node n.
fn leave_need(mem: &mut [u32; 1024], i: u32, n: u32) {
    crate::drop_nodes(mem, crate::OWED, i, crate::bit(n));
    let peers = crate::nodes(mem, crate::PEERS, n);
    crate::drop_nodes(mem, crate::USED, i, peers);
    crate::add_number(mem, crate::LACK, i, 1);
}

// And gets it.
fn enter_need(mem: &mut [u32; 1024], i: u32, n: u32) {
    crate::add_nodes(mem, crate::OWED, i, crate::bit(n));
    let peers = crate::nodes(mem, crate::PEERS, n);
    crate::add_nodes(mem, crate::USED, i, peers);
    crate::add_number(mem, crate::LACK, i, 65535);
}

// The room of shard i loses node n.
fn leave_room(mem: &mut [u32; 1024], i: u32, n: u32) {
    crate::drop_nodes(mem, crate::SPARE, i, crate::bit(n));
    crate::add_number(mem, crate::FREE, i, 1);
}

// And gets it.
fn enter_room(mem: &mut [u32; 1024], i: u32, n: u32) {
    crate::add_nodes(mem, crate::SPARE, i, crate::bit(n));
    crate::add_number(mem, crate::FREE, i, 65535);
}

// Owner o, a shard's need or room, loses node n.
fn leave(mem: &mut [u32; 1024], o: u32, n: u32) {
    if o < 16 {
        leave_need(mem, o, n);
    } else {
        leave_room(mem, o % 16, n);
    }
}

// And gets it.
fn enter(mem: &mut [u32; 1024], o: u32, n: u32) {
    if o < 16 {
        enter_need(mem, o, n);
    } else {
        enter_room(mem, o % 16, n);
    }
}

// Takes node n from its owner, which it answers.
pub fn release(mem: &mut [u32; 1024], n: u32) -> u32
    ensures { result ≡ get_or mem.old (owner_place n) 0 % 65536 }
{
    let o = crate::number(mem, crate::OWNER, n);
    let c = charge(mem, o, n);
    crate::add_number(mem, crate::WEIGHT, 0, 65536 - c);
    if o < crate::NOWHERE {
        leave(mem, o, n);
    }
    crate::drop_nodes(mem, crate::IDLE, 0, crate::bit(n));
    crate::add_nodes(mem, crate::LOOSE, 0, crate::bit(n));
    crate::set(mem, crate::OWNER, n, crate::NO_OWNER);
    o
}

// Gives node n, which has no owner, to owner o. Answers what that costs.
pub fn give(mem: &mut [u32; 1024], n: u32, o: u32) -> u32
    ensures { result < 65536 }
{
    let cost = charge(mem, o, n);
    crate::add_number(mem, crate::WEIGHT, 0, cost);
    if o < crate::NOWHERE {
        enter(mem, o, n);
    } else {
        crate::add_nodes(mem, crate::IDLE, 0, crate::bit(n));
    }
    crate::drop_nodes(mem, crate::LOOSE, 0, crate::bit(n));
    crate::set(mem, crate::OWNER, n, o);
    cost
}

// How many nodes the need of shard i lacks.
pub fn lack(mem: &[u32; 1024], i: u32) -> u32
    ensures { (result ≡ get_or mem.now (lack_place i) 0 % 65536) × (result < 65536) }
{
    crate::number(mem, crate::LACK, i)
}

// How many nodes more the room of shard i could take.
pub fn free_room(mem: &[u32; 1024], i: u32) -> u32
    ensures { (result ≡ get_or mem.now (free_place i) 0 % 65536) × (result < 65536) }
{
    crate::number(mem, crate::FREE, i)
}

// The owner that is shard i's room.
pub fn room_of(i: u32) -> u32
    ensures { result ≡ i % 16 + 16 }
{
    i % 16 + 16
}

// The open nodes that shard i may have of sets that its need does not use.
pub fn unused(mem: &[u32; 1024], i: u32) -> u32
    ensures { result ≡ bit_and (bit_and (get_or mem.now open_place 0) (bit_or (get_or mem.now (stay_place i) 0) (get_or mem.now (moved_place i) 0))) (4294967295 - get_or mem.now (used_place i) 0) }
{
    let nodes = crate::nodes(mem, crate::STAY, i) | crate::nodes(mem, crate::MOVED, i);
    crate::nodes(mem, crate::OPEN, 0) & nodes & !crate::nodes(mem, crate::USED, i)
}

// The highest level at which shard i has one of some nodes.
pub fn highest(mem: &[u32; 1024], i: u32, nodes: u32) -> u32
    ensures { result < 131072 }
{
    let mut top: u32 = 0;
    let mut m = nodes;
    while m != 0 {
        let n = crate::lowest(m);
        top = crate::larger(top, crate::number(mem, crate::LEVEL, n) + price(mem, i, n));
        m = crate::without_lowest(m);
    }
    top
}

// The least level at which shard i could take one of some nodes.
pub fn least_level(mem: &[u32; 1024], i: u32, nodes: u32) -> u32
    ensures { result ≤ 131072 }
{
    let mut least: u32 = 131072;
    let mut m = nodes;
    while m != 0 {
        let n = crate::lowest(m);
        least = crate::smaller(
            least,
            crate::number(mem, crate::LEVEL, n) + price(mem, i, n),
        );
        m = crate::without_lowest(m);
    }
    least
}
