// What is decided for good: a pair that is taken, a list that is ended. Each is tried by a search for a way that the weight allows.
ghost use Rattle.std.specs.Prelude.{◌≤◌};

use crate::{BARRED, EXCLUDED, GIVEN_UP, GRANTED};

// Copies the first half's lower part to the second half.
fn save(mem: &mut [u32; 1024]) {
    for i in 0..256 {
        mem[512 + i] = mem[i];
    }
}

// And back.
fn take_back(mem: &mut [u32; 1024]) {
    for i in 0..256 {
        mem[i] = mem[512 + i];
    }
}

// What a refused end of a list left is undone.
fn refresh(mem: &mut [u32; 1024]) {
    if hint_memory::number(mem, hint_memory::STALE, 0) == 1 {
        take_back(mem);
    }
}

// Whether a part has node n at i.
fn has(mem: &[u32; 1024], part: u32, i: u32, n: u32) -> bool {
    (hint_memory::nodes(mem, part, i) >> (n % 32)) % 2 == 1
}

// Shard i has node n for good.
fn fix(mem: &mut [u32; 1024], i: u32, n: u32) {
    hint_memory::drop_nodes(mem, hint_memory::OPEN, 0, hint_memory::bit(n));
    hint_memory::drop_nodes(mem, hint_memory::OWED, i, hint_memory::bit(n));
    hint_memory::drop_nodes(mem, hint_memory::SPARE, i, hint_memory::bit(n));
    let peers = hint_memory::nodes(mem, hint_memory::PEERS, n);
    hint_memory::add_nodes(mem, hint_memory::USED, i, peers);
    hint_memory::add_nodes(mem, hint_memory::COVERED, i, peers);
    hint_memory::set(mem, hint_memory::OWNER, n, i);
}

// The same, with a unit less of its need, or of its room.
fn fix_by(mem: &mut [u32; 1024], i: u32, n: u32, part: u32) -> u32
    ensures { result ≤ 3 }
{
    fix(mem, i, n);
    hint_memory::add_number(mem, part, i, 65535);
    GRANTED
}

// The nodes of which the shard's need must lose one for node n: that of the same set, or any.
fn rivals(mem: &[u32; 1024], i: u32, n: u32) -> u32 {
    let owed = hint_memory::nodes(mem, hint_memory::OWED, i);
    let m = owed & hint_memory::nodes(mem, hint_memory::PEERS, n);
    if m == 0 { owed } else { m }
}

// Changes the placement so that shard i, as owner `taker`, has node n: a way from the node to one of `goal`, or to nowhere.
fn reroute(
    mem: &mut [u32; 1024],
    i: u32,
    n: u32,
    taker: u32,
    goal: u32,
    at_nowhere: u32,
    aim: u32,
    most: u32,
) -> u32
    ensures { result ≤ 3 }
{
    let slack = hint_memory::less(
        most % 65536,
        hint_memory::number(mem, hint_memory::WEIGHT, 0),
    );
    let d = hint_memory::less(hint_memory::owners::level_with(mem, i, n), aim);
    if slack < d {
        return EXCLUDED;
    }
    if hint_ways::from_node(mem, n, taker, goal, at_nowhere, aim, slack - d) == 0 {
        return EXCLUDED;
    }
    GRANTED
}

// The shard's need takes the node from the shard's room, and gives it another.
fn exchange(mem: &mut [u32; 1024], i: u32, n: u32) {
    let y = hint_memory::lowest(rivals(mem, i, n));
    hint_memory::owners::release(mem, n);
    hint_memory::owners::release(mem, y);
    hint_memory::owners::give(mem, y, hint_memory::owners::room_of(i));
    hint_memory::owners::give(mem, n, i);
}

// Takes node n for the need of shard i.
fn claim_need(mem: &mut [u32; 1024], i: u32, n: u32, most: u32) -> u32
    ensures { result ≤ 3 }
{
    let o = hint_memory::number(mem, hint_memory::OWNER, n);
    if o == hint_memory::owners::room_of(i) {
        exchange(mem, i, n);
        return GRANTED;
    }
    if o == i {
        return GRANTED;
    }
    let goal = rivals(mem, i, n);
    reroute(
        mem,
        i,
        n,
        i,
        goal,
        0,
        hint_memory::owners::highest(mem, i, goal),
        most,
    )
}

// Takes node n for the room of shard i.
fn claim_room(mem: &mut [u32; 1024], i: u32, n: u32, most: u32) -> u32
    ensures { result ≤ 3 }
{
    if hint_memory::number(mem, hint_memory::OWNER, n) == hint_memory::owners::room_of(i) {
        return GRANTED;
    }
    if 0 < hint_memory::owners::free_room(mem, i) {
        let level = hint_memory::number(mem, hint_memory::LEVEL, hint_memory::NOWHERE);
        let idle = hint_memory::nodes(mem, hint_memory::IDLE, 0);
        return reroute(
            mem,
            i,
            n,
            hint_memory::owners::room_of(i),
            idle,
            1,
            level,
            most,
        );
    }
    let goal = hint_memory::nodes(mem, hint_memory::SPARE, i);
    reroute(
        mem,
        i,
        n,
        hint_memory::owners::room_of(i),
        goal,
        0,
        hint_memory::owners::highest(mem, i, goal),
        most,
    )
}

// Takes node n for good, for the need where that lacks its set, else for the room.
fn claim_open(mem: &mut [u32; 1024], i: u32, n: u32, most: u32) -> u32
    ensures { result ≤ 3 }
{
    let needs = hint_memory::number(mem, hint_memory::NEED, i);
    if 0 < needs && !has(mem, hint_memory::COVERED, i, n) {
        let a = claim_need(mem, i, n, most);
        if a == GRANTED {
            return fix_by(mem, i, n, hint_memory::NEED);
        }
        return a;
    }
    if hint_memory::number(mem, hint_memory::ROOM, i) == 0 {
        if needs == 0 {
            return BARRED;
        }
        return EXCLUDED;
    }
    let b = claim_room(mem, i, n, most);
    if b == GRANTED {
        return fix_by(mem, i, n, hint_memory::ROOM);
    }
    b
}

// Takes the pair for good if it can.
pub fn claim(mem: &mut [u32; 1024], i: u32, n: u32, most: u32) -> u32
    ensures { result ≤ 3 }
{
    refresh(mem);
    if !has(mem, hint_memory::OPEN, 0, n) {
        return BARRED;
    }
    if !has(mem, hint_memory::STAY, i, n) && !has(mem, hint_memory::MOVED, i, n) {
        return GIVEN_UP;
    }
    claim_open(mem, i, n, most)
}

// Takes some nodes from their owners.
fn release_all(mem: &mut [u32; 1024], nodes: u32) {
    for n in hint_memory::Bits(nodes) {
        hint_memory::owners::release(mem, n);
    }
}

// Shard i takes no node more.
fn shut(mem: &mut [u32; 1024], i: u32) {
    let open = hint_memory::nodes(mem, hint_memory::OPEN, 0);
    hint_memory::drop_nodes(mem, hint_memory::STAY, i, open);
    hint_memory::drop_nodes(mem, hint_memory::MOVED, i, open);
    hint_memory::set(mem, hint_memory::ROOM, i, 0);
    hint_memory::set(mem, hint_memory::FREE, i, 0);
    hint_memory::add_nodes(mem, hint_memory::CLOSED, 0, hint_memory::bit(i));
}

// Ends the list of shard i, whose room has the nodes, if the weight allows that.
fn give_up(mem: &mut [u32; 1024], i: u32, nodes: u32, most: u32) -> u32
    ensures { result ≤ 3 }
{
    save(mem);
    release_all(mem, nodes);
    shut(mem, i);
    hint_ways::settle(mem);
    if hint_memory::number(mem, hint_memory::WEIGHT, 0) <= most % 65536 {
        return GRANTED;
    }
    hint_memory::set(mem, hint_memory::STALE, 0, 1);
    EXCLUDED
}

// Ends the list of shard i if it can.
pub fn close(mem: &mut [u32; 1024], i: u32, most: u32) -> u32
    ensures { result ≤ 3 }
{
    refresh(mem);
    if 0 < hint_memory::number(mem, hint_memory::NEED, i) {
        return GIVEN_UP;
    }
    let nodes = hint_memory::nodes(mem, hint_memory::SPARE, i);
    if nodes == 0 {
        shut(mem, i);
        return GRANTED;
    }
    give_up(mem, i, nodes, most)
}
