// What the placement oracle keeps: an array that the caller lends, in parts, some of masks and the others of numbers below 65536.
// An element is named by its part and its index there; every place is taken modulo the array's length, so that no index is out of range.
#![tactic(auto)]

pub mod owners;

ghost use Rattle.std.specs.Prelude.{◌≡◌, ◌+◌, ◌-◌, ◌^◌, ◌%◌, ◌≤◌, ◌<◌, min, max, get_or, IfSome, MatchOption};
ghost use Rattle.std.specs.Iterator.{at_most};
ghost use Rattle.std.proofs.Math.ListN as Lists;
ghost use Rattle.std.specs.Int.Bits.{bit_and, bit_or};
ghost use Rattle.std.specs.Int.Count.{count_trailing_zeros};
ghost use Rattle.hint_memory.specs.Places.{cell};

// Masks by shard: the nodes that it may have at no cost, and at the cost of a move; those that it has for its need and in its room,
// not for good; those of the failure sets that its need uses, and of those that it has for good.
pub const STAY: u32 = 0;

pub const MOVED: u32 = 16;

pub const OWED: u32 = 32;

pub const SPARE: u32 = 48;

pub const USED: u32 = 64;

pub const COVERED: u32 = 80;

// By node: its owner, and its level; the level of nowhere is the one at 32.
pub const OWNER: u32 = 96;

pub const LEVEL: u32 = 128;

// By shard: how many nodes its need asks for, and its room has place for, beside those it has for good.
pub const NEED: u32 = 176;

pub const ROOM: u32 = 192;

// By shard: how many nodes its need lacks, and its room could take more.
pub const LACK: u32 = 224;

pub const FREE: u32 = 240;

// One element each: the nodes that no shard has for good; those that are placed nowhere; those that have no owner at all; the shards
// whose lists are ended; the weight of the placement; 1 where the copy is to be taken back; 1 where all nodes are at one level.
pub const OPEN: u32 = 208;

pub const IDLE: u32 = 209;

pub const LOOSE: u32 = 210;

pub const CLOSED: u32 = 211;

pub const WEIGHT: u32 = 212;

pub const STALE: u32 = 213;

pub const FLAT: u32 = 214;

// By node: the nodes of its failure set. One each: the cost of a move, and of a node placed nowhere; the
// number of shards up to the last that may have nodes.
pub const PEERS: u32 = 256;

pub const MOVE_COST: u32 = 288;

pub const IDLE_COST: u32 = 289;

pub const SHARDS: u32 = 290;

// Of the present search. By vertex (a node, nowhere, the end): its distance, the vertex before it, the owner that takes it from there.
pub const DISTANCE: u32 = 320;

pub const FROM: u32 = 368;

pub const TAKER: u32 = 416;

// One each: the distance that the search is at; the nodes there, those further away, those done; 1 where nowhere is done; the nodes at
// which the search ends, and 1 where it ends at nowhere; the level of its end; the distance that it may not pass.
pub const NOW: u32 = 464;

pub const FRONT: u32 = 465;

pub const LATER: u32 = 466;

pub const DONE: u32 = 467;

pub const NOWHERE_DONE: u32 = 468;

pub const GOAL: u32 = 469;

pub const GOAL_NOWHERE: u32 = 470;

pub const AIM: u32 = 471;

pub const LIMIT: u32 = 472;

// The copy of the first 256 elements.
pub const COPY: u32 = 512;

// Owners: a shard's need is the shard, its room 16 more, then nowhere and none. Vertices: nodes, nowhere, the end, none.
pub const NOWHERE: u32 = 32;

pub const NO_OWNER: u32 = 33;

pub const END: u32 = 33;

pub const NO_VERTEX: u32 = 34;

// a - b, or 0 where b is the larger.
pub fn less(a: u32, b: u32) -> u32
    ensures { (result ≡ a - b) × (result ≤ a) }
{
    if b < a { a - b } else { 0 }
}

pub fn larger(a: u32, b: u32) -> u32
    ensures { result ≡ max a b }
{
    if a < b { b } else { a }
}

pub fn smaller(a: u32, b: u32) -> u32
    ensures { result ≡ min a b }
{
    if a < b { a } else { b }
}

// A byte as a number.
pub fn wide(x: u8) -> u32
    ensures { (result ≡ x) × (result < 256) }
{
    x as u32
}

// The mask of one node.
pub fn bit(n: u32) -> u32
    ensures { result ≡ 2 ^ (n % 32) }
{
    1 << (n % 32)
}

// The lowest node of a mask.
pub fn lowest(m: u32) -> u32
    ensures { (result ≡ count_trailing_zeros 32 m % 32) × (result < 32) }
{
    u32::trailing_zeros(m) % 32
}

// A mask without its lowest node. It is less where there is one, so a loop over the nodes ends.
pub fn without_lowest(m: u32) -> u32
    ensures { (result ≡ bit_and m (m - 1)) × (result < max m 1) }
{
    if m == 0 { 0 } else { m & (m - 1) }
}

// The nodes of a mask, from the lowest up.
#[derive(Clone, Copy, Drop)]
pub struct Bits(pub u32);

impl Iterator for Bits {
    type Item = u32;

    ghost remaining = { λ s. at_most s.0 };

    ghost next_gives = { λ s r after. IfSome r (λ n. n < 32) ×
        MatchOption r ((s.0 ≡ 0) × (after.0 ≡ 0)) (λ n. (n ≡ count_trailing_zeros 32 s.0 % 32) × (after.0 ≡ bit_and s.0 (s.0 - 1))) };

    fn next(&mut self) -> Option<u32> {
        if self.0 == 0 {
            return None;
        }
        let n = lowest(self.0);
        self.0 = without_lowest(self.0);
        Some(n)
    }
}

pub fn nodes(mem: &[u32; 1024], part: u32, i: u32) -> u32
    ensures { result ≡ get_or mem.now (cell part i) 0 }
{
    mem[((part % 1024 + i % 256) % 1024) as usize]
}

// The element as a number below 65536.
pub fn number(mem: &[u32; 1024], part: u32, i: u32) -> u32
    ensures { (result ≡ get_or mem.now (cell part i) 0 % 65536) × (result < 65536) }
{
    mem[((part % 1024 + i % 256) % 1024) as usize] % 65536
}

pub fn set(mem: &mut [u32; 1024], part: u32, i: u32, v: u32)
    ensures { mem.new ≡ Lists.set mem.old (cell part i) v }
{
    mem[((part % 1024 + i % 256) % 1024) as usize] = v;
}

pub fn add_nodes(mem: &mut [u32; 1024], part: u32, i: u32, nodes: u32)
    ensures { mem.new ≡ Lists.set mem.old (cell part i) (bit_or (get_or mem.old (cell part i) 0) nodes) }
{
    let at = ((part % 1024 + i % 256) % 1024) as usize;
    mem[at] = mem[at] | nodes;
}

pub fn drop_nodes(mem: &mut [u32; 1024], part: u32, i: u32, nodes: u32)
    ensures { mem.new ≡ Lists.set mem.old (cell part i) (bit_and (get_or mem.old (cell part i) 0) (4294967295 - nodes)) }
{
    let at = ((part % 1024 + i % 256) % 1024) as usize;
    mem[at] = mem[at] & !nodes;
}

// So much more, modulo 65536.
pub fn add_number(mem: &mut [u32; 1024], part: u32, i: u32, by: u32)
    ensures { mem.new ≡ Lists.set mem.old (cell part i) (get_or mem.old (cell part i) 0 % 65536 + by % 65536) }
{
    let at = ((part % 1024 + i % 256) % 1024) as usize;
    mem[at] = mem[at] % 65536 + by % 65536;
}
