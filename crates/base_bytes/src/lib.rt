// Little-endian words from bytes and to bytes.
#![tactic(auto)]

ghost use Rattle.std.specs.Prelude.{◌≡◌, ◌+◌, ◌*◌, ◌≤◌, length};
ghost use Rattle.base_laws.specs.Definitions.{tabulate};
ghost use Rattle.base_bytes.specs.Definitions.{word_at, words_of, bytes_of};
ghost use Rattle.base_bytes.specs.Words.{stored, pair_at};

// Word i of the bytes.
pub fn word_at(bytes: &[u8], i: usize) -> u32
    requires { 4 * i + 4 ≤ length bytes.now }
    ensures { result ≡ word_at bytes.now i }
{
    let at = 4 * i;
    u32::from_le_bytes([bytes[at], bytes[at + 1], bytes[at + 2], bytes[at + 3]])
}

// Stores a word in each place of words, from the bytes' start on.
pub fn decode(bytes: &[u8], words: &mut [u32])
    requires { 4 * length words.old ≤ length bytes.now }
    ensures { words.new ≡ words_of bytes.now (length words.old) }
{
    for i in 0..words.len() {
        words[i] = word_at(bytes, i);
    }
}

// Stores the four bytes of w from place at on.
fn put(bytes: &mut [u8], at: usize, w: u32)
    requires { at + 4 ≤ length bytes.old }
    ensures { bytes.new ≡ stored bytes.old at w }
{
    bytes[at..at + 4].copy_from_slice(&w.to_le_bytes());
}

// Stores the bytes of all words.
pub fn encode(words: &[u32], bytes: &mut [u8])
    requires { 4 * length words.now ≡ length bytes.old }
    ensures { bytes.new ≡ bytes_of words.now }
{
    for i in 0..words.len() {
        put(bytes, 4 * i, words[i]);
    }
}

// Words 2 i and 2 i + 1 of the bytes as one number, word 2 i in the lower half.
fn pair_at(bytes: &[u8], i: usize) -> u64
    requires { 8 * i + 8 ≤ length bytes.now }
    ensures { result ≡ pair_at bytes.now i }
{
    let at = 8 * i;
    u64::from_le_bytes([
        bytes[at],
        bytes[at + 1],
        bytes[at + 2],
        bytes[at + 3],
        bytes[at + 4],
        bytes[at + 5],
        bytes[at + 6],
        bytes[at + 7],
    ])
}

// The words of 2048 bytes, two by two: words 2 i and 2 i + 1 as one number, word 2 i in the lower half.
pub fn pairs(bytes: &[u8], out: &mut [u64; 256])
    requires bytes_len { length bytes.now ≡ 2048 }
    requires out_len { length out.old ≡ 256 }
    ensures { out.new ≡ tabulate 256 (λ i. pair_at bytes.now i) }
{
    for i in 0..256 {
        out[i] = pair_at(bytes, i);
    }
}
