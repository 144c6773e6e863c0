// Windows of 64 consecutive moves: for each a line with their sum and the greatest of them. The next window is the one before without
// its first move and with one more.
#![tactic(auto)]

ghost use Rattle.std.specs.Prelude.{◌≡◌, ◌≤◌, length, take, drop};
ghost use Rattle.program_text.specs.Definitions.{Puts};
ghost use Rattle.mondays_windows.specs.Definitions as Definitions;

// The sum and the greatest of the moves of a window.
#[derive(Clone, Copy)]
pub struct Window {
    pub sum: u32,
    pub greatest: u8,
}

// The greatest of moves; 0 of none.
fn greatest_of(moves: &[u8]) -> u8
    ensures { result ≡ Definitions.greatest_of moves.now }
{
    let mut greatest = 0;
    for x in moves {
        greatest = greatest.max(*x);
    }
    greatest
}

// A window, added up afresh.
fn fresh(moves: &[u8]) -> Window
    requires { length moves.now ≤ 64 }
    ensures { result ≡ Definitions.window_of moves.now }
{
    Window {
        sum: program_sums::sum_of(moves),
        greatest: greatest_of(moves),
    }
}

// The window of the last 64 of 65 moves, from that of the first 64.
fn slide(window: Window, moves: &[u8]) -> Window
    requires moves_len { length moves.now ≡ 65 }
    requires window_value { window ≡ Definitions.window_of (take 64 moves.now) }
    ensures { result ≡ Definitions.window_of (drop 1 moves.now) }
{
    let old = moves[0];
    let new = moves[64];
    let sum = window.sum + u32::from(new) - u32::from(old);
    if window.greatest <= new {
        return Window { sum, greatest: new };
    }
    if old < window.greatest {
        return Window {
            sum,
            greatest: window.greatest,
        };
    }
    Window {
        sum,
        greatest: greatest_of(&moves[1..65]),
    }
}

// The line of a window.
fn put_window(out: &mut [u8], at: usize, window: Window) -> usize
    requires { at ≤ length out.old }
    ensures { Puts out.old at (Definitions.window_line window) out.new result }
{
    let next = program_text::put_decimal(out, at, window.sum);
    program_text::put_line(out, next, b" ", u32::from(window.greatest))
}

// Puts the lines of all windows of the moves.
pub fn put_windows(out: &mut [u8], moves: &[u8]) -> usize
    ensures { Puts out.old 0 (Definitions.all_windows moves.now) out.new result }
{
    if moves.len() < 64 {
        return 0;
    }
    let mut window = fresh(&moves[0..64]);
    let mut next = 0;
    for part in moves.windows(65) {
        next = put_window(out, next, window);
        window = slide(window, part);
    }
    put_window(out, next, window)
}
