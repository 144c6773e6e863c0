// The placement of all four subgroups: a mask for each shard, in every subgroup of the placements of least moves with the most stays the
// first, or the lowest subgroup without a valid placement.
#![tactic(auto)]

ghost use Rattle.std.specs.Prelude.{◌≡◌, cond, ◌<◌, ◌^◌, eqb, get_or};
ghost use Rattle.base_laws.specs.Definitions.{any_below, with};
ghost use Rattle.settings_values.specs.Definitions.{Settings, nodes};
ghost use Rattle.search_laws.specs.Tables.{case_of};
ghost use Rattle.search_laws.specs.Floor.{SheetFor};
ghost use Rattle.place_groups.specs.Sheet.{sheet_of};
ghost use Rattle.place_groups.specs.Definitions.{of_group};
ghost use Rattle.place_laws.specs.Tables.{group_case};
ghost use Rattle.place_laws.specs.Adding.{owned_by, mask_with, masks_with};
ghost use Rattle.search_total.specs.Post.{LeastAnswer, as_solution};
ghost use Rattle.place_layout.specs.Definitions.{PlacedAlone};
ghost use Rattle.place_layout.specs.Post.{LaidSoFar, OneMore, Placement};

use base_ids::{Node, Shard};

// Where every subgroup has a valid placement: a mask for each shard, 0 from S up, and the total of the moves. Else the lowest
// subgroup without one, and nothing placed.
#[derive(Clone, Copy)]
pub struct Placed {
    pub found: bool,
    pub group: u32,
    pub masks: [u32; 16],
    pub total: u32,
}

// What one subgroup has, whatever the others: whether it has a valid placement, a mask for each of its shards, 0 for any other, and the moves.
#[derive(Clone, Copy)]
pub struct Offer {
    pub found: bool,
    pub masks: [u32; 16],
    pub moves: u32,
}

// Some shard is of subgroup g.
pub fn has_shards(settings: &[u32], g: u32) -> bool
    requires { Settings settings.now }
    ensures { result ≡ any_below 16 (of_group settings.now g) }
{
    for s in 0u32..16 {
        if place_tables::in_group(settings, g, Shard(s)) {
            return true;
        }
    }
    false
}

// The search for one subgroup, from its tables and the sheet; a node that is placed nowhere costs 1.
fn least(
    sets: &[u8; 32],
    needs: &[u8; 16],
    caps: &[u8; 16],
    costs: &[u8; 512],
    sheet: &[[u8; 16]; 16],
) -> Option<search_total::Assignment>
    requires { SheetFor (case_of sets.now needs.now caps.now costs.now 1) sheet.now }
    ensures { LeastAnswer (case_of sets.now needs.now caps.now costs.now 1) (as_solution result) }
{
    search_hinted::least(sets, needs, caps, costs, 1, sheet)
}

// The first owners of least weight of subgroup g.
fn solve(
    settings: &[u32],
    held: u32,
    old: &[u32; 16],
    sheet: &[[u8; 16]; 16],
    g: u32,
) -> Option<search_total::Assignment>
    requires settings { Settings settings.now }
    requires held_bound { held < 2 ^ nodes settings.now }
    requires sheet_value { sheet.now ≡ sheet_of settings.now held (λ s. get_or old.now s 0) }
    ensures { LeastAnswer (group_case settings.now held (λ s. get_or old.now s 0) g) (as_solution result) }
{
    let sets = place_tables::sets(settings);
    let needs = place_tables::needs(settings, g);
    let caps = place_tables::caps(settings, g);
    let costs = place_tables::costs(settings, held, old, sheet, g);
    least(&sets, &needs, &caps, &costs, sheet)
}

// The mask with node n if shard s owns it.
fn with_node(mask: u32, owner: u8, s: Shard, n: Node) -> u32
    requires { n.0 < 32 }
    ensures { result ≡ cond (eqb owner s.0) (with mask n.0) mask }
{
    if owner as u32 == s.0 {
        return base_masks::with(mask, n.0 as usize);
    }
    mask
}

// The nodes that shard s owns.
fn owned_by(owners: &[u8; 32], s: Shard) -> u32
    ensures { result ≡ owned_by owners.now s.0 }
{
    let mut mask: u32 = 0;
    for n in 0u32..32 {
        mask = with_node(mask, owners[n as usize], s, Node(n));
    }
    mask
}

// The mask of shard s: the nodes that it owns if it is of subgroup g, else as it was.
fn mask_with(settings: &[u32], g: u32, owners: &[u8; 32], was: u32, s: Shard) -> u32
    requires { Settings settings.now }
    ensures { result ≡ mask_with settings.now g owners.now was s.0 }
{
    if !place_tables::in_group(settings, g, s) {
        return was;
    }
    owned_by(owners, s)
}

// The masks, with those of subgroup g from its owners.
pub fn masks_with(settings: &[u32], g: u32, owners: &[u8; 32], masks: &[u32; 16]) -> [u32; 16]
    requires { Settings settings.now }
    ensures { result ≡ masks_with settings.now g owners.now masks.now }
{
    let mut all = [0u32; 16];
    for s in 0u32..16 {
        all[s as usize] = mask_with(settings, g, owners, masks[s as usize], Shard(s));
    }
    all
}

// Subgroup g is placed beside the lower ones, or has no valid placement. Without shards there is nothing to place.
fn place_group(
    settings: &[u32],
    held: u32,
    old: &[u32; 16],
    sheet: &[[u8; 16]; 16],
    g: u32,
    lower: Placed,
) -> Placed
    requires settings { Settings settings.now }
    requires held_bound { held < 2 ^ nodes settings.now }
    requires sheet_value { sheet.now ≡ sheet_of settings.now held (λ s. get_or old.now s 0) }
    requires g_bound { g < 4 }
    requires laid_so_far { LaidSoFar settings.now held (λ s. get_or old.now s 0) g lower }
    ensures { OneMore settings.now held (λ s. get_or old.now s 0) g result }
{
    let was = lower.masks;
    if !has_shards(settings, g) {
        return Placed {
            found: true,
            group: 0,
            masks: was,
            total: lower.total,
        };
    }
    match solve(settings, held, old, sheet, g) {
        None => Placed {
            found: false,
            group: g,
            masks: [0u32; 16],
            total: 0,
        },
        Some(answer) => {
            let owners = answer.owners;
            let masks = masks_with(settings, g, &owners, &was);
            let moved = place_groups::check::group_moves(settings, old, &masks, g);
            Placed {
                found: true,
                group: 0,
                masks,
                total: lower.total + moved,
            }
        }
    }
}

// The placement of all four subgroups, from the held nodes and the shards' old members.
pub fn place(settings: &[u32], held: u32, old: &[u32; 16]) -> Placed
    requires settings { Settings settings.now }
    requires held_bound { held < 2 ^ nodes settings.now }
    ensures { Placement settings.now held (λ s. get_or old.now s 0) result }
{
    let sheet = place_groups::sheet::sheet(settings, held, old);
    let mut placed = Placed {
        found: true,
        group: 0,
        masks: [0u32; 16],
        total: 0,
    };
    for g in 0u32..4 {
        placed = place_group(settings, held, old, &sheet, g, placed);
        if !placed.found {
            return placed;
        }
    }
    placed
}

// The placement of subgroup g alone, whatever the others, or none. Without shards there is nothing to place.
pub fn place_one(settings: &[u32], held: u32, old: &[u32; 16], g: u32) -> Offer
    requires settings { Settings settings.now }
    requires held_bound { held < 2 ^ nodes settings.now }
    ensures { PlacedAlone settings.now held (λ s. get_or old.now s 0) g result }
{
    let none = [0u32; 16];
    if !has_shards(settings, g) {
        return Offer {
            found: true,
            masks: none,
            moves: 0,
        };
    }
    let sheet = place_groups::sheet::sheet(settings, held, old);
    match solve(settings, held, old, &sheet, g) {
        None => Offer {
            found: false,
            masks: none,
            moves: 0,
        },
        Some(answer) => {
            let owners = answer.owners;
            let masks = masks_with(settings, g, &owners, &none);
            let moves = place_groups::check::group_moves(settings, old, &masks, g);
            Offer {
                found: true,
                masks,
                moves,
            }
        }
    }
}
