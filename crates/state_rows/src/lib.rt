// What the events ask of a state's parts: its phase, rows 6 and 14 of a node, and the marks of its nodes.
#![tactic(auto)]

pub mod sound_parts;
pub mod sound_plan;

ghost use Rattle.std.specs.Prelude.{cond, not, ◌&&◌, ◌≡◌, eqb, ltb};
ghost use Rattle.base_laws.specs.Definitions.{has, with};
ghost use Rattle.base_ids.specs.Definitions.{or_refusal};
ghost use Rattle.settings_values.specs.Definitions.{Settings};
ghost use Rattle.report_views.specs.Definitions.{is_gathering, is_ordered, is_preparing, is_committed};
ghost use Rattle.state_rows.specs.Definitions as Definitions;

use base_ids::{Node, Refusal};
use report_views::Phase;

pub fn is_gathering(phase: Phase) -> bool
    ensures { result ≡ is_gathering phase }
{
    match phase {
        Phase::Gathering => true,
        Phase::Ordered => false,
        Phase::Preparing => false,
        Phase::Committed => false,
    }
}

pub fn is_ordered(phase: Phase) -> bool
    ensures { result ≡ is_ordered phase }
{
    match phase {
        Phase::Gathering => false,
        Phase::Ordered => true,
        Phase::Preparing => false,
        Phase::Committed => false,
    }
}

pub fn is_preparing(phase: Phase) -> bool
    ensures { result ≡ is_preparing phase }
{
    match phase {
        Phase::Gathering => false,
        Phase::Ordered => false,
        Phase::Preparing => true,
        Phase::Committed => false,
    }
}

pub fn is_committed(phase: Phase) -> bool
    ensures { result ≡ is_committed phase }
{
    match phase {
        Phase::Gathering => false,
        Phase::Ordered => false,
        Phase::Preparing => false,
        Phase::Committed => true,
    }
}

// Rows 6 and 14, for a node that an event names.
pub fn check_node(settings: &[u32], node: Node, ok: bool) -> Result<(), Refusal>
    requires { Settings settings.now }
    ensures { result ≡ or_refusal (Definitions.node_refusal settings.now node.0 ok) tt }
{
    if settings_values::nodes(settings) <= node.0 {
        return Err(Refusal { code: 6 });
    }
    if !ok {
        return Err(Refusal { code: 14 });
    }
    Ok(())
}

// The node is in one mask and not in the other.
pub fn lacks(held: u32, marks: u32, node: Node) -> bool
    ensures { result ≡ (has held node.0 && not (has marks node.0)) }
{
    if !base_masks::has(held, node.0 as usize) {
        return false;
    }
    !base_masks::has(marks, node.0 as usize)
}

// The marks with that of a node; no node from 32 up can be marked.
pub fn mark(marks: u32, node: Node) -> u32
    ensures { result ≡ cond (ltb node.0 32) (with marks node.0) marks }
{
    if node.0 < 32 {
        base_masks::with(marks, node.0 as usize)
    } else {
        marks
    }
}

// The phase when some nodes are marked: the next one when all held nodes are.
pub fn phase_after(marks: u32, held: u32, phase: Phase, next: Phase) -> Phase
    ensures { result ≡ cond (eqb marks held) next phase }
{
    if marks == held {
        return next;
    }
    phase
}
