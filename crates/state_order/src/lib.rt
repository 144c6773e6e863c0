// The order event: has the writer write the order of a held node, while the planner is ordered. It changes neither state nor desk.
#![tactic(auto)]

ghost use Rattle.std.specs.Prelude.{◌≡◌, length};
ghost use Rattle.base_lent.specs.Definitions.{words_in};
ghost use Rattle.base_ids.specs.Definitions.{or_refusal};
ghost use Rattle.settings_values.specs.Definitions.{Settings};
ghost use Rattle.state_order.specs.Definitions.{ordered, order_buffer};
ghost use Rattle.state_order.specs.Orders.{call_refuses};

use base_ids::{Node, Refusal};
use state_planner::State;

// Writes the node's order into 512 lent words, where rows 1 and 2 do not refuse: rows 3, 4, 6 and 14. No row of the writer refuses an
// order, so it is not judged again.
pub fn order_under(
    settings: &[u32],
    x: State,
    desk: &[u8],
    node: Node,
    buffer: &mut [u32],
) -> Result<usize, Refusal>
    requires settings { Settings settings.now }
    requires desk_len { length desk.now ≡ 65536 }
    requires buffer_len { length buffer.old ≡ 512 }
    ensures answer { result ≡ or_refusal (ordered settings.now x (words_in desk.now) node.0 buffer.old).refusal (ordered settings.now x (words_in desk.now) node.0 buffer.old).length }
    ensures words { buffer.new ≡ order_buffer settings.now x (words_in desk.now) node.0 buffer.old }
{
    let phase = x.phase;
    let in_phase = state_rows::is_ordered(phase);
    let known = base_masks::has(x.held, node.0 as usize);
    state_planner::check_event(settings, x, desk, in_phase, node, known)?;
    let c = plan_order::order_contents(settings, x.plan, desk, node);
    Ok(message_writer::fill(buffer, &c))
}

// Rows 1 and 2. The buffer's length and the desk's make row 1.
fn call_refusal(settings: &[u32], desk: &[u8], buffer: &[u32]) -> Result<(), Refusal>
    ensures { result ≡ or_refusal (call_refuses settings.now (words_in desk.now) buffer.now) tt }
{
    if buffer.len() != 512 {
        return Err(Refusal { code: 1 });
    }
    if desk.len() != 65536 {
        return Err(Refusal { code: 1 });
    }
    if !settings_check::check(settings) {
        return Err(Refusal { code: 2 });
    }
    Ok(())
}

// Writes the node's order into 512 lent words, and answers its length; a refusal leaves the words as they were.
pub fn order(
    settings: &[u32],
    x: State,
    desk: &[u8],
    node: Node,
    buffer: &mut [u32],
) -> Result<usize, Refusal>
    ensures answer { result ≡ or_refusal (ordered settings.now x (words_in desk.now) node.0 buffer.old).refusal (ordered settings.now x (words_in desk.now) node.0 buffer.old).length }
    ensures words { buffer.new ≡ order_buffer settings.now x (words_in desk.now) node.0 buffer.old }
{
    call_refusal(settings, desk, buffer)?;
    order_under(settings, x, desk, node, buffer)
}
