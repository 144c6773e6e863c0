// Bytes that a C caller lends, as words.
#![tactic(auto)]

ghost use Rattle.std.specs.Prelude.{◌≡◌, ◌≤◌};
ghost use Rattle.base_lent.specs.Definitions.{with_length};
ghost use Rattle.base_lent.specs.Lent.{count_within, HoldsIn, HoldsWords, HoldsSettings};

// The words of lent bytes: the first len of a table of N.
#[derive(Clone, Copy)]
pub struct Lent<const N: usize> {
    pub len: usize,
    pub table: [u32; N],
}

// How many words so many bytes are, for a call that looks at no more than `most`; 0 where they are more, or no whole words.
fn count_within(most: usize, bytes: usize) -> usize
    ensures { result ≡ count_within most bytes }
{
    if bytes % 4 != 0 {
        return 0;
    }
    if most < bytes / 4 {
        return 0;
    }
    bytes / 4
}

// The words of the bytes in a table of N, for a call that looks at no more than `most`.
fn words_within<const N: usize>(most: usize, bytes: &[u8]) -> Lent<N>
    requires { most ≤ N }
    ensures { HoldsIn N result.table result.len most bytes.now }
{
    let len = count_within(most, bytes.len());
    let mut table = [0u32; N];
    let places = &mut table[..];
    base_bytes::decode(bytes, &mut places[0..len]);
    Lent { len, table }
}

// The words of the bytes, for a call that looks at no more than `most`.
pub fn words_of(most: usize, bytes: &[u8]) -> Lent<512>
    requires { most ≤ 512 }
    ensures { HoldsWords result.table result.len most bytes.now }
{
    words_within(most, bytes)
}

// The words of settings, which are at most 52.
pub fn settings_of(bytes: &[u8]) -> Lent<52>
    ensures { HoldsSettings result.table result.len bytes.now }
{
    words_within(52, bytes)
}

// The number of words, of which there are few, as an answer.
pub fn with_length(words: usize) -> u32
    requires { words ≤ 512 }
    ensures { result ≡ with_length words }
{
    16777216 + words as u32
}
