// The order event, over lent bytes.
ghost use Rattle.std.specs.Prelude.{◌≡◌};
ghost use Rattle.c_events.specs.Definitions.{order_answer, order_leaves};

use base_ids::Node;

// Writes a node's order into the lent buffer: rows 1 (desk or buffer), 2, 15, 3, 4, 6 and 14.
pub fn order(
    role: u32,
    settings: &[u8],
    state: &[u8],
    desk: &[u8],
    node: u32,
    buffer: &mut [u8],
) -> u32
    ensures answer { result ≡ order_answer role settings.now state.now desk.now node buffer.old }
    ensures bytes { buffer.new ≡ order_leaves role settings.now state.now desk.now node buffer.old }
{
    let lengths = c_state::lengths_ok(desk.len(), buffer.len());
    let entry = c_state::enter_planner(role, lengths, settings, state);
    let first = entry.refusal;
    if first.code != 0 {
        return first.code;
    }
    let mut words = [0u32; 512];
    let n = entry.words;
    let own = entry.settings;
    match state_order::order_under(&own[0..n], entry.state, desk, Node(node), &mut words) {
        Ok(length) => {
            base_bytes::encode(&words, buffer);
            base_lent::with_length(length)
        }
        Err(refusal) => refusal.code,
    }
}
