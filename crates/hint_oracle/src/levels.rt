// The dual weights of the placement, counted from 16384 at nowhere.
ghost use Rattle.std.specs.Prelude.{◌≡◌, ◌≤◌, ◌<◌, length};

const BASE: u32 = 16384;

// More than any placement weighs.
const BEYOND: u32 = 8300;

// Below 65536.
fn short(x: u32) -> u16 {
    (x % 65536) as u16
}

fn wide(x: u16) -> u32
    ensures { result < 65536 }
{
    x as u32
}

// The level of nowhere.
fn zero(mem: &[u32; 1024]) -> u32
    ensures { result < 65536 }
{
    hint_memory::number(mem, hint_memory::LEVEL, hint_memory::NOWHERE)
}

// The weight of shard i's room: none where it is not full or the list is ended, more than any placement's where there is no room at all.
fn room_weight(mem: &[u32; 1024], i: u32) -> u32
    ensures { result < 65536 }
{
    if (hint_memory::nodes(mem, hint_memory::CLOSED, 0) >> (i % 16)) % 2 == 1 {
        return 0;
    }
    if hint_memory::number(mem, hint_memory::ROOM, i) == 0 {
        return BEYOND;
    }
    if 0 < hint_memory::owners::free_room(mem, i) {
        return 0;
    }
    let n = hint_memory::lowest(hint_memory::nodes(mem, hint_memory::SPARE, i));
    hint_memory::less(zero(mem), hint_memory::owners::level_with(mem, i, n))
}

// The level of shard i's need.
fn need_level(mem: &[u32; 1024], i: u32) -> u32
    ensures { result ≤ 131072 }
{
    if hint_memory::owners::lack(mem, i) == 0 {
        return hint_memory::owners::highest(mem, i, hint_memory::nodes(mem, hint_memory::OWED, i));
    }
    let nodes = hint_memory::owners::unused(mem, i);
    if nodes == 0 {
        return hint_memory::larger(
            zero(mem) + BEYOND,
            hint_memory::owners::highest(mem, i, hint_memory::nodes(mem, hint_memory::OWED, i)),
        );
    }
    hint_memory::owners::least_level(mem, i, nodes)
}

// The weight of shard i's need.
fn need_weight(mem: &[u32; 1024], i: u32, room: u32) -> u32
    ensures { result < 262144 }
{
    if hint_memory::number(mem, hint_memory::NEED, i) == 0 {
        return 0;
    }
    hint_memory::less(need_level(mem, i) + room % 65536, zero(mem))
}

// Of all shards' rooms, up to the last that may have nodes.
pub(crate) fn rooms(h: &mut [u16; 16], mem: &[u32; 1024])
    ensures { length h.new ≡ length h.old }
{
    let count = hint_memory::owners::shards(mem);
    for i in 0..count {
        h[i as usize] = short(room_weight(mem, i));
    }
}

// Of all shards' needs.
pub(crate) fn wants(u: &mut [u16; 16], mem: &[u32; 1024], rooms: &[u16; 16])
    ensures { length u.new ≡ length u.old }
{
    let count = hint_memory::owners::shards(mem);
    for i in 0..count {
        u[i as usize] = short(need_weight(mem, i, wide(rooms[i as usize])));
    }
}

// Of all nodes, as if no shard had any for good.
fn open_nodes(v: &mut [u16; 32], mem: &[u32; 1024])
    ensures { length v.new ≡ length v.old }
{
    let up = zero(mem);
    for n in 0u32..32 {
        v[n as usize] = short(hint_memory::less(
            BASE + hint_memory::number(mem, hint_memory::LEVEL, n),
            up,
        ));
    }
}

// The weight of node n, which a shard has for good: what the shard's room and the node's cost leave.
fn fixed_weight(mem: &[u32; 1024], rooms: &[u16; 16], n: u32) -> u32
    ensures { result < 131072 }
{
    let i = hint_memory::number(mem, hint_memory::OWNER, n) % 16;
    hint_memory::less(
        BASE + hint_memory::number(mem, hint_memory::LEVEL, n),
        wide(rooms[i as usize]) + hint_memory::owners::level_with(mem, i, n),
    )
}

// Of all nodes.
pub(crate) fn nodes(v: &mut [u16; 32], mem: &[u32; 1024], rooms: &[u16; 16])
    ensures { length v.new ≡ length v.old }
{
    open_nodes(v, mem);
    let mut m = !hint_memory::nodes(mem, hint_memory::OPEN, 0);
    while m != 0 {
        let n = hint_memory::lowest(m);
        v[n as usize] = short(fixed_weight(mem, rooms, n));
        m = hint_memory::without_lowest(m);
    }
}

// The failure set of node n.
fn set_of(sets: &[u8; 32], n: u32) -> u32
    ensures { result < 16 }
{
    hint_memory::wide(sets[(n % 32) as usize]) % 16
}

// The level of shard i's need, as its weight has it.
fn level_left(mem: &[u32; 1024], wants: &[u16; 16], rooms: &[u16; 16], i: u32) -> u32
    ensures { result < 131072 }
{
    hint_memory::less(
        wide(wants[(i % 16) as usize]) + zero(mem),
        wide(rooms[(i % 16) as usize]),
    )
}

// Of the pairs of shard i and the sets of the open nodes that its need has: what the node's level leaves of the need's.
pub(crate) fn weigh_row(
    w: &mut [u16; 256],
    mem: &[u32; 1024],
    sets: &[u8; 32],
    wants: &[u16; 16],
    rooms: &[u16; 16],
    i: u32,
)
    ensures { length w.new ≡ length w.old }
{
    let level = level_left(mem, wants, rooms, i);
    let mut m = hint_memory::nodes(mem, hint_memory::OWED, i);
    while m != 0 {
        let n = hint_memory::lowest(m);
        let at = i % 16 * 16 + set_of(sets, n);
        w[at as usize] = short(hint_memory::less(
            level,
            hint_memory::owners::level_with(mem, i, n),
        ));
        m = hint_memory::without_lowest(m);
    }
}

// Of the pairs of a shard and the set of a node that it has for good: all of the shard's weight.
pub(crate) fn weigh_fixed(w: &mut [u16; 256], mem: &[u32; 1024], sets: &[u8; 32], wants: &[u16; 16])
    ensures { length w.new ≡ length w.old }
{
    let mut m = !hint_memory::nodes(mem, hint_memory::OPEN, 0);
    while m != 0 {
        let n = hint_memory::lowest(m);
        let i = hint_memory::number(mem, hint_memory::OWNER, n) % 16;
        let at = i * 16 + set_of(sets, n);
        w[at as usize] = wants[i as usize];
        m = hint_memory::without_lowest(m);
    }
}
