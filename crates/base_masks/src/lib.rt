// Tests and changes of a mask: a u32 whose bit n stands for node n. Each function gives what its definition in base_laws says.
#![tactic(auto)]

pub mod majority;

ghost use Rattle.std.specs.Prelude.{◌≡◌, ◌<◌};
ghost use Rattle.base_laws.specs.Definitions as Definitions;

// Bit n of m is set.
pub fn has(m: u32, n: usize) -> bool
    ensures { result ≡ Definitions.has m n }
{
    if n < 32 { (m >> n) % 2 == 1 } else { false }
}

// How many bits of m are set.
pub fn count(m: u32) -> u32
    ensures { result ≡ Definitions.count m }
{
    u32::count_ones(m)
}

// No bit of m from n up is set.
pub fn within(n: usize, m: u32) -> bool
    ensures { result ≡ Definitions.within n m }
{
    if n < 32 { m < 1u32 << n } else { true }
}

// Every bit of a is a bit of b.
pub fn subset(a: u32, b: u32) -> bool
    ensures { result ≡ Definitions.subset a b }
{
    a & b == a
}

// No bit is in both.
pub fn disjoint(a: u32, b: u32) -> bool
    ensures { result ≡ Definitions.disjoint a b }
{
    a & b == 0
}

// The bits of a that are not bits of b.
pub fn minus(a: u32, b: u32) -> u32
    ensures { result ≡ Definitions.minus a b }
{
    a & !b
}

// m with bit n set.
pub fn with(m: u32, n: usize) -> u32
    requires { n < 32 }
    ensures { result ≡ Definitions.with m n }
{
    m | (1u32 << n)
}

// m with bit n cleared.
pub fn without(m: u32, n: usize) -> u32
    ensures { result ≡ Definitions.without m n }
{
    if n < 32 { m & !(1u32 << n) } else { m }
}
