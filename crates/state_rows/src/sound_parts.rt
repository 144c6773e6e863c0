// Row 3: whether the planner's state is sound beside a desk, part by part. Each function gives what its definition says.
ghost use Rattle.std.specs.Prelude.{◌&&◌, ◌||◌, eqb, ltb, ◌≡◌, length};
ghost use Rattle.settings_values.specs.Definitions.{Settings, shards};
ghost use Rattle.base_laws.specs.Definitions.{all_below};
ghost use Rattle.report_views.specs.Shorthands.{all_zero};
ghost use Rattle.report_views.specs.Definitions as Definitions;
ghost use Rattle.report_walk.specs.Kept.{ready_of};
ghost use Rattle.state_rows.specs.Ready as Ready;

use base_ids::{Node, Position};
use report_views::{Layout, Phase, Plan, Termination};

// Every entry is zero.
fn zeros(l: &[u32]) -> bool
    ensures { result ≡ all_zero l.now (length l.now) }
{
    for i in 0..l.len() {
        if l[i] != 0 {
            return false;
        }
    }
    true
}

// No view.
fn layout_blank(v: Layout) -> bool
    ensures { result ≡ Definitions.layout_blank v }
{
    let number = v.number;
    if number.0 != 0 {
        return false;
    }
    if v.members != 0 {
        return false;
    }
    zeros(&v.masks)
}

// An entry from S up is zero.
fn tidy_at(settings: &[u32], mask: u32, s: usize) -> bool
    requires { Settings settings.now }
    ensures { result ≡ (ltb s (shards settings.now) || eqb mask 0) }
{
    if s < settings_values::shards(settings) as usize {
        return true;
    }
    mask == 0
}

// No entry from S up.
pub fn layout_tidy(settings: &[u32], v: Layout) -> bool
    requires { Settings settings.now }
    ensures { result ≡ Definitions.layout_tidy settings.now v }
{
    for s in 0..16 {
        if !tidy_at(settings, v.masks[s], s) {
            return false;
        }
    }
    true
}

// No position: (0, 0).
fn no_position(p: Position) -> bool
    ensures { result ≡ Definitions.is_start p }
{
    let view = p.view;
    if view.0 != 0 {
        return false;
    }
    p.k == 0
}

// Shard s has a position in a termination, or (0, 0).
fn position_tidy(settings: &[u32], made: bool, p: Position, s: usize) -> bool
    requires { Settings settings.now }
    ensures { result ≡ (made && ltb s (shards settings.now) || Definitions.is_start p) }
{
    if !made {
        return no_position(p);
    }
    if settings_values::shards(settings) as usize <= s {
        return no_position(p);
    }
    true
}

// No position stands where no termination is made, nor from S up.
fn positions_tidy(settings: &[u32], t: Termination) -> bool
    requires { Settings settings.now }
    ensures { result ≡ all_below 16 (Ready.position_tidy settings.now t) }
{
    let positions = t.positions;
    for s in 0..16 {
        if !position_tidy(settings, t.made, positions[s], s) {
            return false;
        }
    }
    true
}

// No view is kept, nothing is held and no termination is made.
fn nothing_kept(v: Layout, t: Termination, held: u32) -> bool
    ensures { result ≡ Definitions.nothing_kept v t held }
{
    if !layout_blank(v) {
        return false;
    }
    if held != 0 {
        return false;
    }
    !t.made
}

// A view that passes its rows has no entry from S up; else nothing is kept.
fn tidy_or_none(settings: &[u32], v: Layout, t: Termination, held: u32, ready: bool) -> bool
    requires { Settings settings.now }
    ensures { result ≡ Ready.tidy_or_none settings.now v t held ready }
{
    if ready {
        return layout_tidy(settings, v);
    }
    nothing_kept(v, t, held)
}

// The kept view, its termination and the held nodes. ready: whether the view and the termination pass rows 7, 10 and 11, which are not
// judged again.
pub fn kept_sound(settings: &[u32], v: Layout, t: Termination, held: u32, ready: bool) -> bool
    requires settings { Settings settings.now }
    requires ready_value { ready ≡ ready_of settings.now v t }
    ensures { result ≡ Definitions.kept_sound settings.now v t held }
{
    if !tidy_or_none(settings, v, t, held, ready) {
        return false;
    }
    if !positions_tidy(settings, t) {
        return false;
    }
    base_masks::within(settings_values::nodes(settings) as usize, held)
}

// Marks lie within held, and are as the phase says.
pub fn marks_sound(phase: Phase, held: u32, fetched: u32, prepared: u32) -> bool
    ensures { result ≡ Definitions.marks_sound phase held fetched prepared }
{
    match phase {
        Phase::Gathering => {
            if fetched != 0 {
                return false;
            }
            prepared == 0
        }
        Phase::Ordered => {
            if !base_masks::subset(fetched, held) {
                return false;
            }
            if fetched == held {
                return false;
            }
            prepared == 0
        }
        Phase::Preparing => {
            if fetched != held {
                return false;
            }
            if !base_masks::subset(prepared, held) {
                return false;
            }
            prepared != held
        }
        Phase::Committed => {
            if fetched != held {
                return false;
            }
            prepared == held
        }
    }
}

// No holder and no target.
fn nothing_planned(holder: Node, target: Position) -> bool
    ensures { result ≡ (eqb holder.0 0 && Definitions.is_start target) }
{
    if holder.0 != 0 {
        return false;
    }
    no_position(target)
}

// No shard has a holder or a target.
fn shards_blank(p: Plan) -> bool
    ensures { result ≡ all_below 16 (λ s. eqb (Definitions.holder_at p s) 0 && Definitions.is_start (Definitions.target_at p s)) }
{
    let holders = p.holders;
    let targets = p.targets;
    for s in 0..16 {
        if !nothing_planned(holders[s], targets[s]) {
            return false;
        }
    }
    true
}

// No plan.
pub fn plan_blank(p: Plan) -> bool
    ensures { result ≡ Definitions.plan_blank p }
{
    if !layout_blank(p.layout) {
        return false;
    }
    if p.total != 0 {
        return false;
    }
    shards_blank(p)
}
