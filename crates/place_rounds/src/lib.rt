// Improving rounds over the four subgroups: each starts from its first valid placement, whatever its moves, and each round goes, in the
// lowest subgroup that has a valid placement of fewer moves, to the first such.
#![tactic(auto)]

ghost use Rattle.std.specs.Prelude.{◌≡◌, ◌<◌, ◌^◌, min, get_or, replicate, Some};
ghost use Rattle.settings_values.specs.Definitions.{Settings, nodes};
ghost use Rattle.search_laws.specs.Tables.{case_of};
ghost use Rattle.search_total.specs.Post.{WithinAnswer, as_solution};
ghost use Rattle.search_rounds.specs.Post.{Low, Weighed, Improved, as_improvement};
ghost use Rattle.place_groups.specs.Definitions.{group_moves};
ghost use Rattle.place_groups.specs.Sheet.{sheet_of};
ghost use Rattle.place_laws.specs.Definitions.{masks_of};
ghost use Rattle.place_laws.specs.Adding.{masks_with};
ghost use Rattle.place_rounds.specs.Tables as Tables;
ghost use Rattle.place_rounds.specs.Post as Post;

use place_layout::Placed;
use search_rounds::BestSoFar;

// Where every subgroup has a valid placement: the one that the rounds reach, and its gap, by which no valid placement has fewer moves.
// Else the lowest subgroup without one, nothing placed, and no gap.
#[derive(Clone, Copy)]
pub struct PlacedWithin {
    pub placed: Placed,
    pub gap: u32,
}

// What rounds reach in one subgroup: whether it has a valid placement, the owners of its nodes, the rounds that are left, and how many
// moves it has at least.
#[derive(Clone, Copy)]
struct Grouped {
    found: bool,
    owners: [u8; 32],
    left: usize,
    floor: usize,
}

// A cost where a move costs w.
fn repriced(cost: u8, w: u8) -> u8
    ensures { result ≡ Tables.repriced w cost }
{
    if cost == 0 {
        return 0;
    }
    if cost == 255 {
        return 255;
    }
    w
}

// The table where a move costs w.
fn repriced_table(costs: &[u8; 512], w: u8) -> [u8; 512]
    ensures { result ≡ Tables.repriced_table w costs.now }
{
    let mut table = [0u8; 512];
    for t in 0..512 {
        table[t] = repriced(costs[t], w);
    }
    table
}

// The first valid placement, whatever its moves: where nothing costs anything every one weighs 0.
fn start(
    sets: &[u8; 32],
    needs: &[u8; 16],
    caps: &[u8; 16],
    costs: &[u8; 512],
) -> Option<search_total::Assignment>
    ensures { WithinAnswer (case_of sets.now needs.now caps.now (Tables.repriced_table 0 costs.now) 0) 0 (as_solution result) }
{
    let free = repriced_table(costs, 0);
    search_hinted::first_within(sets, needs, caps, &free, 0, 0)
}

// Up to so many rounds from it, by a table where a move costs 1; none where it has no more moves than the floor.
fn onward(
    sets: &[u8; 32],
    needs: &[u8; 16],
    caps: &[u8; 16],
    costs: &[u8; 512],
    floor: usize,
    first: search_total::Assignment,
    rounds: usize,
) -> BestSoFar
    requires low { Low (case_of sets.now needs.now caps.now (Tables.repriced_table 1 costs.now) 0) floor }
    requires weighed { Weighed (case_of sets.now needs.now caps.now (Tables.repriced_table 1 costs.now) 0) (as_solution (Some first)) }
    ensures { Improved (case_of sets.now needs.now caps.now (Tables.repriced_table 1 costs.now) 0) rounds (as_solution (Some first)) (as_improvement result) }
{
    if first.weight <= floor {
        return BestSoFar {
            placement: first,
            left: rounds,
            stuck: true,
        };
    }
    let counted = repriced_table(costs, 1);
    search_rounds::better(sets, needs, caps, &counted, 0, floor, first, rounds)
}

// The moves of subgroup g by its owners.
fn moves_of(settings: &[u32], old: &[u32; 16], g: u32, owners: &[u8; 32]) -> usize
    requires { Settings settings.now }
    ensures { result ≡ group_moves settings.now (λ s. get_or old.now s 0) (masks_of (masks_with settings.now g owners.now (replicate 16 0))) g }
{
    let none = [0u32; 16];
    let masks = place_layout::masks_with(settings, g, owners, &none);
    place_groups::check::group_moves(settings, old, &masks, g) as usize
}

// Start and rounds of subgroup g. Without shards there is nothing to place.
fn reach(
    settings: &[u32],
    held: u32,
    old: &[u32; 16],
    sheet: &[[u8; 16]; 16],
    g: u32,
    rounds: usize,
) -> Grouped
    requires settings { Settings settings.now }
    requires held_bound { held < 2 ^ nodes settings.now }
    requires sheet_value { sheet.now ≡ sheet_of settings.now held (λ s. get_or old.now s 0) }
    ensures { Post.GroupReached settings.now held (λ s. get_or old.now s 0) g rounds result }
{
    if !place_layout::has_shards(settings, g) {
        return Grouped {
            found: true,
            owners: [16u8; 32],
            left: rounds,
            floor: 0,
        };
    }
    let sets = place_tables::sets(settings);
    let needs = place_tables::needs(settings, g);
    let caps = place_tables::caps(settings, g);
    let costs = place_tables::costs(settings, held, old, sheet, g);
    match start(&sets, &needs, &caps, &costs) {
        None => Grouped {
            found: false,
            owners: [16u8; 32],
            left: rounds,
            floor: 0,
        },
        Some(first) => {
            let owners = first.owners;
            let floor = search_judge::floor::floor(&needs, sheet);
            if rounds == 0 {
                return Grouped {
                    found: true,
                    owners,
                    left: rounds,
                    floor,
                };
            }
            let weight = moves_of(settings, old, g, &owners);
            let from = search_total::Assignment { weight, owners };
            let best = onward(&sets, &needs, &caps, &costs, floor, from, rounds);
            let reached = best.placement;
            let owners = reached.owners;
            Grouped {
                found: true,
                owners,
                left: best.left,
                floor,
            }
        }
    }
}

// What rounds enough reach in subgroup g: the first placement of least moves. Without shards there is nothing to place.
fn reach_end(
    settings: &[u32],
    held: u32,
    old: &[u32; 16],
    sheet: &[[u8; 16]; 16],
    g: u32,
) -> Grouped
    requires settings { Settings settings.now }
    requires held_bound { held < 2 ^ nodes settings.now }
    requires sheet_value { sheet.now ≡ sheet_of settings.now held (λ s. get_or old.now s 0) }
    ensures { Post.GroupEnded settings.now held (λ s. get_or old.now s 0) g result }
{
    if !place_layout::has_shards(settings, g) {
        return Grouped {
            found: true,
            owners: [16u8; 32],
            left: 0,
            floor: 0,
        };
    }
    let sets = place_tables::sets(settings);
    let needs = place_tables::needs(settings, g);
    let caps = place_tables::caps(settings, g);
    let costs = place_tables::costs(settings, held, old, sheet, g);
    let counted = repriced_table(&costs, 1);
    match search_hinted::least(&sets, &needs, &caps, &counted, 0, sheet) {
        None => Grouped {
            found: false,
            owners: [16u8; 32],
            left: 0,
            floor: 0,
        },
        Some(best) => {
            let owners = best.owners;
            let floor = search_judge::floor::floor(&needs, sheet);
            Grouped {
                found: true,
                owners,
                left: 0,
                floor,
            }
        }
    }
}

// Subgroup g has no valid placement.
fn nowhere(g: u32) -> PlacedWithin
    ensures { result ≡ Post.nowhere g }
{
    PlacedWithin {
        placed: Placed {
            found: false,
            group: g,
            masks: [0u32; 16],
            total: 0,
        },
        gap: 0,
    }
}

// The placement that 128 rounds reach, from the sheet: they are enough, so each subgroup is searched once.
fn finish(settings: &[u32], held: u32, old: &[u32; 16], sheet: &[[u8; 16]; 16]) -> PlacedWithin
    requires settings { Settings settings.now }
    requires held_bound { held < 2 ^ nodes settings.now }
    requires sheet_value { sheet.now ≡ sheet_of settings.now held (λ s. get_or old.now s 0) }
    ensures { Post.PlacementWithin settings.now held (λ s. get_or old.now s 0) 128 result }
{
    let mut masks = [0u32; 16];
    let mut total: u32 = 0;
    let mut floor: usize = 0;
    for g in 0u32..4 {
        let end = reach_end(settings, held, old, sheet, g);
        if !end.found {
            return nowhere(g);
        }
        let owners = end.owners;
        masks = place_layout::masks_with(settings, g, &owners, &masks);
        total += place_groups::check::group_moves(settings, old, &masks, g);
        floor += end.floor;
    }
    PlacedWithin {
        placed: Placed {
            found: true,
            group: 0,
            masks,
            total,
        },
        gap: total - floor as u32,
    }
}

// The placement that so many rounds, at most 128, reach in the four subgroups, from the held nodes and the shards' old members. A round in a subgroup
// once every lower one has none better is a round of all.
pub fn improve(settings: &[u32], held: u32, old: &[u32; 16], rounds: u32) -> PlacedWithin
    requires settings { Settings settings.now }
    requires held_bound { held < 2 ^ nodes settings.now }
    ensures { Post.PlacementWithin settings.now held (λ s. get_or old.now s 0) (min rounds 128) result }
{
    let sheet = place_groups::sheet::sheet(settings, held, old);
    if rounds >= 128 {
        return finish(settings, held, old, &sheet);
    }
    let mut left = rounds as usize;
    let mut masks = [0u32; 16];
    let mut total: u32 = 0;
    let mut floor: usize = 0;
    for g in 0u32..4 {
        let one = reach(settings, held, old, &sheet, g, left);
        if !one.found {
            return nowhere(g);
        }
        let owners = one.owners;
        masks = place_layout::masks_with(settings, g, &owners, &masks);
        total += place_groups::check::group_moves(settings, old, &masks, g);
        floor += one.floor;
        left = one.left;
    }
    PlacedWithin {
        placed: Placed {
            found: true,
            group: 0,
            masks,
            total,
        },
        gap: total - floor as u32,
    }
}
