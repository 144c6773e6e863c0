// What if this machine goes too, over lent bytes. State and desk are only read.
ghost use Rattle.std.specs.Prelude.{◌≡◌, ◌≤◌, length};
ghost use Rattle.base_laws.specs.Definitions as Definitions;
ghost use Rattle.base_bytes.specs.Definitions.{bytes_of};
ghost use Rattle.c_state_words.specs.Definitions.{state_words};
ghost use Rattle.c_events.specs.Definitions.{decision_word, preview_leaves, PreviewCall, WarnCall};
ghost use Rattle.c_events.specs.Decisions.{decision_value};

use base_ids::Node;
use state_planner::{Decided, Decision, State};

// The words with zeros after them.
fn padded(words: &[u32]) -> [u32; 512]
    requires { length words.now ≤ 512 }
    ensures { result ≡ Definitions.padded 512 words.now }
{
    let mut table = [0u32; 512];
    for i in 0..words.len() {
        table[i] = words[i];
    }
    table
}

// Stores a state in a lent buffer, with zeros after it.
fn store(x: State, buffer: &mut [u8])
    requires { length buffer.old ≡ 2048 }
    ensures { buffer.new ≡ bytes_of (Definitions.padded 512 (state_words x)) }
{
    let words = c_state_words::encode(x);
    let table = padded(&words);
    base_bytes::encode(&table, buffer);
}

// The answer to a preview; the state that would follow is stored for a plan and for a wait.
fn keep(o: Decided, buffer: &mut [u8]) -> u32
    requires { (length buffer.old ≡ 2048) × (decision_value o.decision ≤ 16) }
    ensures { (result ≡ decision_word o.decision) × (buffer.new ≡ preview_leaves o.decision o.state buffer.old) }
{
    let decision = o.decision;
    match decision {
        Decision::Planned => {
            store(o.state, buffer);
            33554432
        }
        Decision::Wait(reason) => {
            store(o.state, buffer);
            crate::decide::reason_word(reason)
        }
        Decision::Refused(refusal) => refusal.code,
    }
}

// What decide would answer without a held node: rows 1 (desk or buffer), 2, 15, 3, 4, 6 and 14.
pub fn preview(
    role: u32,
    settings: &[u8],
    state: &[u8],
    desk: &[u8],
    node: u32,
    buffer: &mut [u8],
) -> u32
    ensures { PreviewCall role settings.now state.now desk.now node buffer.old result buffer.new }
{
    let lengths = c_state::lengths_ok(desk.len(), buffer.len());
    let entry = c_state::enter_planner(role, lengths, settings, state);
    let refusal = entry.refusal;
    if refusal.code != 0 {
        return refusal.code;
    }
    let n = entry.words;
    let own = entry.settings;
    let o = state_preview::preview_under(entry.state, &own[0..n], desk, Node(node));
    keep(o, buffer)
}

// Writes the mask of the held nodes whose loss means waiting: rows 1 (desk or buffer), 2, 15, 3 and 4.
pub fn preview_all(role: u32, settings: &[u8], state: &[u8], desk: &[u8], buffer: &mut [u8]) -> u32
    ensures { WarnCall role settings.now state.now desk.now buffer.old result buffer.new }
{
    let lengths = c_state::lengths_ok(desk.len(), buffer.len());
    let entered = c_state::enter_planner(role, lengths, settings, state);
    let first = entered.refusal;
    if first.code != 0 {
        return first.code;
    }
    let n = entered.words;
    let own = entered.settings;
    let warning = state_preview::preview_all_under(entered.state, &own[0..n], desk);
    let refusal = warning.refusal;
    if refusal.code != 0 {
        return refusal.code;
    }
    let mut table = [0u32; 512];
    table[0] = warning.lost;
    base_bytes::encode(&table, buffer);
    base_lent::with_length(1)
}
