// The moves file in blocks. A tally is what is known of the lines taken so far; a block puts what its lines print and gives the next one.
#![tactic(auto)]

ghost use Rattle.std.specs.Prelude.{◌≡◌, ◌≤◌, length, take};
ghost use Rattle.base_ids.specs.Definitions.{first_of};
ghost use Rattle.base_laws.specs.Definitions.{padded};
ghost use Rattle.program_text.specs.Definitions.{Puts};
ghost use Rattle.mondays_moves.specs.Definitions.{line_refusal, cut_refusal, refusal_line, tally_of};
ghost use Rattle.mondays_moves.specs.Tallies.{fresh_tally, TakesBlock};
ghost use Rattle.mondays_moves.specs.Walking.{GathersMoves};

use base_ids::Refusal;

// What is known of the lines taken so far: the refusal that ended them if there is one, the least number that the next line may have, and
// the moves of the last 63 lines, or of all where they are fewer, with zeros after them.
#[derive(Clone, Copy)]
pub struct Tally {
    pub refusal: Refusal,
    pub least: u64,
    pub count: usize,
    pub kept: [u8; 63],
}

// What came of a block: the tally after it, and the length of the text that it put.
#[derive(Clone, Copy)]
pub struct MovesTaken {
    pub tally: Tally,
    pub len: usize,
}

// What came of a block's lines: the place after their moves, the least number that may follow, and the refusal of the first bad one.
#[derive(Clone, Copy)]
struct LinesGathered {
    place: usize,
    least: u64,
    refusal: Refusal,
}

// The refusal of a line: 24 out of sequence, then 25 for more than 128 moves.
fn line_refusal(least: u64, number: u32, moves: u32) -> Refusal
    ensures { result ≡ line_refusal least (record { number = number; moves = moves }) }
{
    if u64::from(number) < least {
        return Refusal { code: 24 };
    }
    if moves > 128 {
        return Refusal { code: 25 };
    }
    Refusal { code: 0 }
}

// Puts the moves of the lines before the first bad one.
fn gather(bytes: &[u8], least: u64, moves: &mut [u8], at: usize) -> LinesGathered
    requires { at ≤ length moves.old }
    ensures { GathersMoves bytes.now least moves.old at moves.new result.place result.least result.refusal }
{
    let count = bytes.len() / 8;
    let mut next = least;
    let mut place = at;
    for i in 0..count {
        let number = base_bytes::word_at(bytes, 2 * i);
        let many = base_bytes::word_at(bytes, 2 * i + 1);
        let refusal = line_refusal(next, number, many);
        if refusal.code != 0 {
            return LinesGathered {
                place,
                least: next,
                refusal,
            };
        }
        place = program_text::put_byte(moves, place, many as u8);
        next = u64::from(number) + 1;
    }
    LinesGathered {
        place,
        least: next,
        refusal: Refusal { code: 0 },
    }
}

// The refusal of bytes: that of their lines, or 24 where a line is cut short at their end.
fn ended(refusal: Refusal, len: usize) -> Refusal
    ensures { result ≡ first_of refusal (cut_refusal len) }
{
    if refusal.code != 0 {
        return refusal;
    }
    if len % 8 != 0 {
        return Refusal { code: 24 };
    }
    Refusal { code: 0 }
}

// Puts the line of a refusal, if there is one.
fn put_refusal(out: &mut [u8], at: usize, refusal: Refusal) -> usize
    requires { at ≤ length out.old }
    ensures { Puts out.old at (refusal_line refusal) out.new result }
{
    if refusal.code == 0 {
        return at;
    }
    program_text::put_number(out, at, refusal)
}

// Puts the moves that are kept.
fn put_kept(out: &mut [u8], kept: &[u8], count: usize) -> usize
    ensures { Puts out.old 0 (take count kept.now) out.new result }
{
    let end = count.min(kept.len());
    program_text::put_text(out, 0, &kept[0..end])
}

// Moves with zeros after them.
fn table_of(moves: &[u8]) -> [u8; 63]
    requires { length moves.now ≤ 63 }
    ensures { result ≡ padded 63 moves.now }
{
    let mut table = [0u8; 63];
    table[..moves.len()].copy_from_slice(moves);
    table
}

// The tally after moves: the last 63 of them are kept.
fn tally_of(moves: &[u8], least: u64, refusal: Refusal) -> Tally
    ensures { result ≡ tally_of moves.now least refusal }
{
    let count = moves.len().min(63);
    let first = moves.len() - count;
    let kept = table_of(&moves[first..]);
    Tally {
        refusal,
        least,
        count,
        kept,
    }
}

// Takes bytes where nothing was refused before.
fn take_bytes(tally: Tally, bytes: &[u8], out: &mut [u8]) -> MovesTaken
    requires { (tally.refusal.code ≡ 0) × (length bytes.now ≤ 32768) }
    ensures { TakesBlock tally bytes.now out.old result out.new }
{
    let mut moves = [0u8; 4159];
    let kept = tally.kept;
    let at = put_kept(&mut moves, &kept, tally.count);
    let lines = gather(bytes, tally.least, &mut moves, at);
    let place = lines.place;
    let refusal = ended(lines.refusal, bytes.len());
    let windows = mondays_windows::put_windows(out, &moves[0..place]);
    let len = put_refusal(out, windows, refusal);
    let after = tally_of(&moves[0..place], lines.least, refusal);
    MovesTaken { tally: after, len }
}

impl Tally {
    // Before the first line.
    pub fn start() -> Tally
        ensures { result ≡ fresh_tally }
    {
        Tally {
            refusal: Refusal { code: 0 },
            least: 0,
            count: 0,
            kept: [0; 63],
        }
    }

    // Takes the first len bytes of a block, or all where len is greater, and puts what they print. After a refusal it puts nothing.
    pub fn take(self, block: &[u8; 32768], len: usize, out: &mut [u8; 98304]) -> MovesTaken
        ensures { TakesBlock self (take len block.now) out.old result out.new }
    {
        let refusal = self.refusal;
        if refusal.code != 0 {
            return MovesTaken {
                tally: self,
                len: 0,
            };
        }
        let whole = &block[..];
        let end = len.min(32768);
        take_bytes(self, &whole[0..end], out)
    }
}
