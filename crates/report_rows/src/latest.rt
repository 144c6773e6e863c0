// The greatest view that each node has reported: row 18, when a state remembers soundly, and what it remembers after a report.
ghost use Rattle.std.specs.Prelude.{◌||◌, ◌≡◌, ◌<◌, max, eqb, leb, ltb};
ghost use Rattle.settings_values.specs.Definitions.{Settings, nodes};
ghost use Rattle.report_rows.specs.Definitions as Definitions;
ghost use Rattle.report_rows.specs.Laws.{recalled_by, latest_by};

use base_ids::{Node, View};

// Each node's greatest reported view since the fresh state; 0: none. Entries from N up are 0.
#[derive(Clone, Copy)]
pub struct Latest {
    pub views: [View; 32],
}

// Nothing is remembered.
pub fn no_latest() -> Latest
    ensures { result ≡ Definitions.no_latest }
{
    Latest {
        views: [View(0); 32],
    }
}

// The greatest view that a node has reported, 0: none.
fn latest_at(latest: Latest, node: Node) -> View
    requires { node.0 < 32 }
    ensures { result.0 ≡ Definitions.latest_at latest node.0 }
{
    let views = latest.views;
    views[node.0 as usize]
}

// Row 18: a node's report has no smaller view than the greatest that it has reported.
pub fn row18(latest: Latest, node: Node, view: View) -> bool
    requires { node.0 < 32 }
    ensures { result ≡ leb (Definitions.latest_at latest node.0) view.0 }
{
    let earlier = latest_at(latest, node);
    earlier.0 <= view.0
}

// The later of two views.
fn later(a: View, b: View) -> View
    ensures { result.0 ≡ max a.0 b.0 }
{
    if a.0 < b.0 { b } else { a }
}

// What is remembered of one node after another's report, or its own.
fn noted_at(latest: Latest, reporter: Node, view: View, node: Node) -> View
    requires { node.0 < 32 }
    ensures { result ≡ Definitions.noted_at latest reporter.0 view.0 node.0 }
{
    let earlier = latest_at(latest, node);
    if node.0 == reporter.0 {
        return later(earlier, view);
    }
    earlier
}

// What is remembered after a node's report.
pub fn note(latest: Latest, node: Node, view: View) -> Latest
    ensures { result ≡ Definitions.noted latest node.0 view.0 }
{
    let mut views = [View(0); 32];
    for n in 0..32 {
        views[n] = noted_at(latest, node, view, Node(n as u32));
    }
    Latest { views }
}

// A node that the settings have, or no view.
fn known_or_none(settings: &[u32], node: Node, view: View) -> bool
    requires { Settings settings.now }
    ensures { result ≡ (ltb node.0 (nodes settings.now) || eqb view.0 0) }
{
    if node.0 < settings_values::nodes(settings) {
        return true;
    }
    view.0 == 0
}

// What is remembered of one node is sound: of a held one a view from the reported one up to the kept one.
fn recalled(
    settings: &[u32],
    number: View,
    held: u32,
    reported: View,
    view: View,
    node: Node,
) -> bool
    requires settings { Settings settings.now }
    requires node_bound { node.0 < 32 }
    ensures { result ≡ recalled_by settings.now number.0 held reported.0 view.0 node.0 }
{
    if !known_or_none(settings, node, view) {
        return false;
    }
    if !base_masks::has(held, node.0 as usize) {
        return true;
    }
    settings_values::from_to(reported.0, number.0, view.0)
}

// What is remembered is sound: of each held node a view from its report's up to the kept one, and nothing of nodes from N up.
// views: the view that each held node reported.
pub fn latest_sound(
    settings: &[u32],
    number: View,
    held: u32,
    views: [View; 32],
    latest: Latest,
) -> bool
    requires { Settings settings.now }
    ensures { result ≡ latest_by settings.now number.0 held views latest }
{
    let remembered = latest.views;
    for n in 0..32 {
        if !recalled(
            settings,
            number,
            held,
            views[n],
            remembered[n],
            Node(n as u32),
        ) {
            return false;
        }
    }
    true
}
