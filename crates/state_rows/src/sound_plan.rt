// Whether a plan is sound: it is held, part by part, against the holders and targets that the desk tells.
ghost use Rattle.std.specs.Prelude.{◌&&◌, ◌≡◌, ◌<◌, ◌^◌, eqb};
ghost use Rattle.settings_values.specs.Definitions.{Settings, nodes};
ghost use Rattle.report_views.specs.Definitions.{same_position};
ghost use Rattle.report_views.specs.Definitions as Definitions;
ghost use Rattle.plan_quorum.specs.Answer.{quorum_from};
ghost use Rattle.state_rows.specs.Matches as Matches;

use base_ids::{Node, Position};
use plan_seen::Seen;
use report_views::{Layout, Phase, Plan, Reason};

// Waits 1 to 4 do not apply.
fn is_met(waits: Result<(), Reason>) -> bool
    ensures { result ≡ Definitions.is_met (quorum_from waits) }
{
    waits.is_ok()
}

// Two shards' holders and targets are the same.
fn same_shard(holder: Node, target: Position, other: Node, goal: Position) -> bool
    ensures { result ≡ (eqb holder.0 other.0 && same_position target goal) }
{
    if holder.0 != other.0 {
        return false;
    }
    let v = target.view;
    let w = goal.view;
    if v.0 != w.0 {
        return false;
    }
    target.k == goal.k
}

// The plan's holders and targets are those that the desk tells.
fn same_shards(p: Plan, seen: Seen) -> bool
    ensures { result ≡ Matches.same_shards p seen }
{
    let holders = p.holders;
    let targets = p.targets;
    let others = seen.holders;
    let goals = seen.targets;
    for s in 0..16 {
        if !same_shard(holders[s], targets[s], others[s], goals[s]) {
            return false;
        }
    }
    true
}

// The view w comes after v and has all held nodes.
fn follows(v: Layout, held: u32, w: Layout) -> bool
    ensures { result ≡ Matches.follows v held w }
{
    let old = v.number;
    let new = w.number;
    if new.0 as usize != old.0 as usize + 1 {
        return false;
    }
    w.members == held
}

// The placement of every subgroup is valid.
fn groups_valid(settings: &[u32], held: u32, w: Layout) -> bool
    requires settings { Settings settings.now }
    requires held_bound { held < 2 ^ nodes settings.now }
    ensures { result ≡ Matches.groups_valid settings.now held w }
{
    for g in 0u32..4 {
        if !place_groups::check::group_valid(settings, held, &w.masks, g) {
            return false;
        }
    }
    true
}

// The moves of all subgroups.
fn all_moves(settings: &[u32], old: Layout, new: Layout) -> usize
    requires { Settings settings.now }
    ensures { result ≡ Definitions.all_moves settings.now old new }
{
    let mut total: usize = 0;
    for g in 0u32..4 {
        total += place_groups::check::group_moves(settings, &old.masks, &new.masks, g) as usize;
    }
    total
}

// The plan agrees with what the desk tells, its placements are valid and its total is that of their moves.
fn matches(settings: &[u32], v: Layout, held: u32, p: Plan, seen: Seen) -> bool
    requires settings { Settings settings.now }
    requires held_bound { held < 2 ^ nodes settings.now }
    ensures { result ≡ Matches.matches settings.now v held p seen }
{
    let holders = seen.holders;
    let quorum = plan_quorum::quorum(settings, v, held, holders);
    if !is_met(quorum) {
        return false;
    }
    if !follows(v, held, p.layout) {
        return false;
    }
    if !crate::sound_parts::layout_tidy(settings, p.layout) {
        return false;
    }
    if !same_shards(p, seen) {
        return false;
    }
    if !groups_valid(settings, held, p.layout) {
        return false;
    }
    p.total as usize == all_moves(settings, v, p.layout)
}

// The phases in which a plan stands.
fn has_plan(phase: Phase) -> bool
    ensures { result ≡ Matches.has_plan phase }
{
    match phase {
        Phase::Gathering => false,
        Phase::Ordered => true,
        Phase::Preparing => true,
        Phase::Committed => true,
    }
}

// The plan is as the phase says, by what is seen.
pub fn plan_fits(phase: Phase, settings: &[u32], v: Layout, held: u32, seen: Seen, p: Plan) -> bool
    requires settings { Settings settings.now }
    requires held_bound { held < 2 ^ nodes settings.now }
    ensures { result ≡ Matches.fits_seen phase settings.now v held seen p }
{
    if !has_plan(phase) {
        return crate::sound_parts::plan_blank(p);
    }
    matches(settings, v, held, p, seen)
}
