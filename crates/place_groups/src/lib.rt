// The failure sets of the nodes in a mask.
#![tactic(auto)]

pub mod check;
pub mod sheet;

ghost use Rattle.std.specs.Prelude.{◌≡◌, ◌<◌};
ghost use Rattle.settings_values.specs.Definitions.{Settings, nodes};
ghost use Rattle.place_groups.specs.Sets.{sets_of, seen_with};

use base_ids::Node;

// The failure sets seen, with that of node n if it is in the mask.
fn seen_with(settings: &[u32], mask: u32, seen: u32, n: Node) -> u32
    requires settings { Settings settings.now }
    requires n_bound { n.0 < nodes settings.now }
    ensures { result ≡ seen_with settings.now mask seen n.0 }
{
    if !base_masks::has(mask, n.0 as usize) {
        return seen;
    }
    base_masks::with(seen, settings_values::set_of(settings, n) as usize)
}

// The failure sets of the nodes in a mask.
pub fn sets_of(settings: &[u32], mask: u32) -> u32
    requires { Settings settings.now }
    ensures { result ≡ sets_of settings.now mask }
{
    let count = settings_values::nodes(settings);
    let mut seen: u32 = 0;
    for n in 0..count {
        seen = seen_with(settings, mask, seen, Node(n));
    }
    seen
}
