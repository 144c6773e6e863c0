// A report against what is kept: rows 12 and 13, and whether its termination is kept.
#![tactic(auto)]

pub mod latest;

ghost use Rattle.std.specs.Prelude.{true, ◌&&◌, ◌≡◌, ◌<◌, ◌≤◌};
ghost use Rattle.settings_values.specs.Definitions.{Settings};
ghost use Rattle.report_views.specs.Definitions as Definitions;
ghost use Rattle.report_rows.specs.Comparisons.{masks_same, record_same, positions_same};

use base_ids::Position;
use message_format::Contents;
use report_views::{Layout, Termination};

// The report has these masks for its first count shards.
fn same_masks(masks: &[u32; 16], body: &[u32; 381], count: usize) -> bool
    requires { count ≤ 16 }
    ensures { result ≡ masks_same masks.now body.now count }
{
    for s in 0..count {
        if message_rows::fields::word1(body, s) != masks[s] {
            return false;
        }
    }
    true
}

// The report has the members and the shard masks of the view.
fn same_view(settings: &[u32], v: Layout, c: Contents) -> bool
    requires { Settings settings.now }
    ensures { result ≡ Definitions.same_view settings.now v c }
{
    if c.members != v.members {
        return false;
    }
    let count = settings_values::shards(settings) as usize;
    same_masks(&v.masks, &c.body, count)
}

// The report is of the kept view.
fn of_kept(v: Layout, c: Contents) -> bool
    ensures { result ≡ Definitions.of_kept v c }
{
    let view = c.view;
    let number = v.number;
    view.0 == number.0
}

// Row 12: a report with the kept number has its masks.
pub fn row12(settings: &[u32], v: Layout, c: Contents) -> bool
    requires { Settings settings.now }
    ensures { result ≡ Definitions.row12 settings.now v c }
{
    if !of_kept(v, c) {
        return true;
    }
    same_view(settings, v, c)
}

// A report that passes rows 9, 16 and 17 has a termination.
pub fn terminated(settings: &[u32], c: Contents) -> bool
    requires { Settings settings.now }
    ensures { result ≡ Definitions.terminated settings.now c }
{
    let count = settings_values::shards(settings) as usize;
    let len = c.len;
    if len <= count {
        return false;
    }
    message_rows::fields::kind(&c.body, count) == 2
}

// Record j has this position.
fn same_position(p: Position, body: &[u32; 381], j: usize) -> bool
    requires { j < 127 }
    ensures { result ≡ record_same p body.now j }
{
    let v = p.view;
    if message_rows::fields::word1(body, j) != v.0 {
        return false;
    }
    message_rows::fields::word2(body, j) == p.k
}

// The positions after the first count records of the report are these.
fn same_positions(positions: [Position; 16], body: &[u32; 381], count: usize) -> bool
    requires { count ≤ 16 }
    ensures { result ≡ positions_same positions body.now count count }
{
    for s in 0..count {
        if !same_position(positions[s], body, count + s) {
            return false;
        }
    }
    true
}

// The report's termination is the kept one.
fn same_termination(settings: &[u32], t: Termination, c: Contents) -> bool
    requires { Settings settings.now }
    ensures { result ≡ Definitions.same_termination settings.now t c }
{
    let count = settings_values::shards(settings) as usize;
    let positions = t.positions;
    same_positions(positions, &c.body, count)
}

// The report is of the kept view and has a termination.
fn kept_terminated(settings: &[u32], v: Layout, c: Contents) -> bool
    requires { Settings settings.now }
    ensures { result ≡ (Definitions.of_kept v c && Definitions.terminated settings.now c) }
{
    if !of_kept(v, c) {
        return false;
    }
    terminated(settings, c)
}

// Row 13: a termination of the kept view does not differ from the kept one.
pub fn row13(settings: &[u32], v: Layout, t: Termination, c: Contents) -> bool
    requires { Settings settings.now }
    ensures { result ≡ Definitions.row13 settings.now v t c }
{
    if !kept_terminated(settings, v, c) {
        return true;
    }
    if !t.made {
        return true;
    }
    same_termination(settings, t, c)
}

// A termination of the kept view is kept.
pub fn term_kept(settings: &[u32], v: Layout, t: Termination, c: Contents) -> bool
    requires { Settings settings.now }
    ensures { result ≡ Definitions.term_kept settings.now v t c }
{
    if !kept_terminated(settings, v, c) {
        return true;
    }
    t.made
}
