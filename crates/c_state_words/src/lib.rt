// The planner's state as 160 words, and back.
#![tactic(auto)]

pub mod page;

ghost use Rattle.std.specs.Prelude.{◌≡◌, ◌+◌, ◌≤◌, length, get_or, set};
ghost use Rattle.base_laws.specs.Options.{some_if};
ghost use Rattle.base_laws.specs.Loops.{turns};
ghost use Rattle.report_views.specs.Definitions.{start, node_at};
ghost use Rattle.c_state_words.specs.Definitions as Definitions;
ghost use Rattle.c_state_words.specs.Stores as Stores;

use base_ids::{Node, Position, View};
use report_rows::latest::Latest;
use report_views::{Layout, Phase, Plan, Termination};
use state_planner::State;

// What words say, as definitions have it: whether they are a state, and the state; the fresh state where they are none.
#[derive(Clone, Copy)]
pub struct DecodedState {
    pub ok: bool,
    pub state: State,
}

// The number of a phase.
pub fn phase_number(phase: Phase) -> u32
    ensures { result ≡ Definitions.phase_number phase }
{
    match phase {
        Phase::Gathering => 0,
        Phase::Ordered => 1,
        Phase::Preparing => 2,
        Phase::Committed => 3,
    }
}

// A yes or no as a word.
pub fn flag(made: bool) -> u32
    ensures { result ≡ Definitions.flag made }
{
    if made { 1 } else { 0 }
}

// Stores the two words of a position from a place on.
fn put_position(words: &mut [u32; 160], at: usize, p: Position)
    requires { at + 2 ≤ 160 }
    ensures { words.new ≡ set (set words.old at p.view.0) (at + 1) p.k }
{
    let view = p.view;
    words[at] = view.0;
    words[at + 1] = p.k;
}

// Stores 16 positions from a place on, two words each.
fn put_positions(words: &mut [u32; 160], at: usize, positions: [Position; 16])
    requires { at + 32 ≤ 160 }
    ensures { words.new ≡ turns 16 (Stores.store_position (λ s. get_or positions s start) at) words.old }
{
    for s in 0..16 {
        put_position(words, at + 2 * s, positions[s]);
    }
}

// Stores 16 masks from a place on.
fn put_masks(words: &mut [u32; 160], at: usize, masks: &[u32; 16])
    requires { at + 16 ≤ 160 }
    ensures { words.new ≡ turns 16 (Stores.store_word (λ s. get_or masks.now s 0) at) words.old }
{
    for s in 0..16 {
        words[at + s] = masks[s];
    }
}

// Stores the plan's holders.
fn put_holders(words: &mut [u32; 160], holders: [Node; 16])
    ensures { words.new ≡ turns 16 (Stores.store_word (node_at holders) 74) words.old }
{
    for s in 0..16 {
        let holder = holders[s];
        words[74 + s] = holder.0;
    }
}

// Stores each node's greatest reported view.
fn put_views(words: &mut [u32; 160], views: [View; 32])
    ensures { words.new ≡ turns 32 (Stores.store_word (Stores.view_number_at views) 122) words.old }
{
    for n in 0..32 {
        let view = views[n];
        words[122 + n] = view.0;
    }
}

// Stores the phase, the kept view and its termination.
fn put_kept(words: &mut [u32; 160], phase: u32, kept: Layout, termination: Termination)
    ensures { words.new ≡ Stores.store_kept phase kept termination words.old }
{
    words[0] = phase;
    words[1] = kept.number.0;
    words[2] = kept.members;
    words[3] = flag(termination.made);
    put_masks(words, 4, &kept.masks);
    let positions = termination.positions;
    put_positions(words, 20, positions);
}

// Stores the plan.
fn put_plan(words: &mut [u32; 160], plan: Plan)
    ensures { words.new ≡ Stores.store_plan plan words.old }
{
    let layout = plan.layout;
    words[55] = layout.number.0;
    words[56] = layout.members;
    words[57] = plan.total;
    put_masks(words, 58, &layout.masks);
    let holders = plan.holders;
    put_holders(words, holders);
    let targets = plan.targets;
    put_positions(words, 90, targets);
}

// The words of a state.
pub fn encode(x: State) -> [u32; 160]
    ensures { result ≡ Definitions.state_words x }
{
    let mut words = [0u32; 160];
    let phase = x.phase;
    put_kept(&mut words, phase_number(phase), x.kept, x.termination);
    words[52] = x.held;
    words[53] = x.fetched;
    words[54] = x.prepared;
    put_plan(&mut words, x.plan);
    let latest = x.latest;
    let views = latest.views;
    put_views(&mut words, views);
    words
}

// The phase with a number.
fn phase_of(n: u32) -> Phase
    ensures { result ≡ Definitions.phase_of n }
{
    match n {
        0 => Phase::Gathering,
        1 => Phase::Ordered,
        2 => Phase::Preparing,
        _ => Phase::Committed,
    }
}

// The 16 words from a place on.
fn sixteen(words: &[u32], at: usize) -> [u32; 16]
    requires { at + 16 ≤ length words.now }
    ensures { result ≡ Definitions.span words.now at 16 }
{
    let mut out = [0u32; 16];
    for s in 0..16 {
        out[s] = words[at + s];
    }
    out
}

// The 16 nodes from a place on.
fn nodes_at(words: &[u32], at: usize) -> [Node; 16]
    requires { at + 16 ≤ length words.now }
    ensures { result ≡ Definitions.nodes_at words.now at }
{
    let mut nodes = [Node(0); 16];
    for s in 0..16 {
        nodes[s] = Node(words[at + s]);
    }
    nodes
}

// The 32 views from a place on.
fn views_at(words: &[u32], at: usize) -> [View; 32]
    requires { at + 32 ≤ length words.now }
    ensures { result ≡ Definitions.views_at words.now at }
{
    let mut views = [View(0); 32];
    for n in 0..32 {
        views[n] = View(words[at + n]);
    }
    views
}

// The 16 positions from a place on, two words each.
fn positions_at(words: &[u32], at: usize) -> [Position; 16]
    requires { at + 32 ≤ length words.now }
    ensures { result ≡ Definitions.positions_at words.now at }
{
    let mut positions = [Position {
        view: View(0),
        k: 0,
    }; 16];
    for s in 0..16 {
        positions[s] = Position {
            view: View(words[at + 2 * s]),
            k: words[at + 2 * s + 1],
        };
    }
    positions
}

// The view whose number and members stand from a place on, and its masks after another word.
fn layout_at(words: &[u32], at: usize) -> Layout
    requires { at + 19 ≤ length words.now }
    ensures { result ≡ Definitions.layout_at words.now at }
{
    Layout {
        number: View(words[at]),
        members: words[at + 1],
        masks: sixteen(words, at + 3),
    }
}

// The state that 160 words say.
fn state_in(words: &[u32]) -> State
    requires { length words.now ≡ 160 }
    ensures { result ≡ Definitions.state_in words.now }
{
    State {
        phase: phase_of(words[0]),
        kept: layout_at(words, 1),
        termination: Termination {
            made: words[3] == 1,
            positions: positions_at(words, 20),
        },
        held: words[52],
        fetched: words[53],
        prepared: words[54],
        plan: Plan {
            layout: layout_at(words, 55),
            total: words[57],
            holders: nodes_at(words, 74),
            targets: positions_at(words, 90),
        },
        latest: Latest {
            views: views_at(words, 122),
        },
    }
}

// The words that carry nothing are zero.
fn rest_is_zero(words: &[u32]) -> bool
    requires { length words.now ≡ 160 }
    ensures { result ≡ Definitions.rest_zero words.now }
{
    for k in 0usize..6 {
        if words[154 + k] != 0 {
            return false;
        }
    }
    true
}

// Words that are a state: 160 of them, a phase, a flag, and zeros where they carry nothing.
fn is_state(words: &[u32]) -> bool
    ensures { result ≡ Definitions.is_state words.now }
{
    if words.len() != 160 {
        return false;
    }
    if 3 < words[0] {
        return false;
    }
    if 1 < words[3] {
        return false;
    }
    rest_is_zero(words)
}

// The state that words say, where they are a state.
pub fn decode(words: &[u32]) -> Option<State>
    ensures { result ≡ some_if (Definitions.is_state words.now) (Definitions.state_in words.now) }
{
    if !is_state(words) {
        return None;
    }
    Some(state_in(words))
}
