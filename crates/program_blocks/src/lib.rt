// Blocks of words in a stream of bytes, each preceded by its word count.
#![tactic(auto)]

pub mod intake;

ghost use Rattle.std.specs.Prelude.{◌≡◌, ◌≤◌, length};
ghost use Rattle.program_blocks.specs.Definitions as Definitions;
ghost use Rattle.program_blocks.specs.Held.{held};

// The words of a block: the first len of the table.
#[derive(Clone, Copy)]
pub struct Block {
    pub len: usize,
    pub table: [u32; 513],
}

// How many bytes the first block takes with its count, as far as they are looked at.
pub fn needed(bytes: &[u8]) -> usize
    ensures { result ≡ Definitions.needed bytes.now }
{
    if bytes.len() < 4 {
        return 4;
    }
    let count = base_bytes::word_at(bytes, 0);
    if count < 513 {
        return 4 + 4 * base_ids::wide(count);
    }
    2056
}

// The whole words of a block's bytes.
pub fn words_of(bytes: &[u8]) -> Block
    requires { length bytes.now ≤ 2052 }
    ensures { result ≡ held bytes.now }
{
    let len = bytes.len() / 4;
    let mut table = [0u32; 513];
    base_bytes::decode(bytes, &mut table[0..len]);
    Block { len, table }
}
