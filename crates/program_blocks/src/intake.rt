// The bytes of a block as they come in, and the words of a block that has come.
ghost use Rattle.std.specs.Prelude.{◌≡◌, ◌≤◌, ◌-◌, length, take, drop};
ghost use Rattle.base_laws.specs.Definitions as Definitions;
ghost use Rattle.program_blocks.specs.Held.{held};
ghost use Rattle.program_blocks.specs.Intake.{Lacks, BytesCome};

use crate::Block;

// The words with zeros after them.
pub fn padded(words: &[u32]) -> [u32; 52]
    requires { length words.now ≤ 52 }
    ensures { result ≡ Definitions.padded 52 words.now }
{
    let mut table = [0u32; 52];
    table[..words.len()].copy_from_slice(words);
    table
}

// Stores, after the first `at` bytes of a block, what it lacks as far as is known, or all that was fed from place `from` on. Answers how many
// bytes of the block are there then.
pub fn gather(bytes: &mut [u8], at: usize, fed: &[u8], from: usize) -> usize
    requires { Lacks bytes.old at × (from ≤ length fed.now) }
    ensures { BytesCome bytes.old at fed.now from bytes.new result }
{
    let whole = crate::needed(&bytes[0..at]);
    let n = (whole - at).min(fed.len() - from);
    let end = at + n;
    let to = from + n;
    bytes[at..end].copy_from_slice(&fed[from..to]);
    end
}

// The words of the block that takes the bytes below `end`: its count is no part of them.
pub fn block_of(bytes: &[u8], end: usize) -> Block
    requires { (4 ≤ end) × ((end ≤ length bytes.now) × (length bytes.now ≡ 2056)) }
    ensures { result ≡ held (take (end - 4) (drop 4 bytes.now)) }
{
    crate::words_of(&bytes[4..end])
}
