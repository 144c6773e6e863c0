// A report taken in: rows 5 to 13 with 18, the view and the termination that it gives, what is kept afterwards, and its slot of the desk.
#![tactic(auto)]

ghost use Rattle.std.specs.Prelude.{true, List, ◌≡◌, ℕ, ◌%◌, ◌<◌, ◌≤◌, length};
ghost use Rattle.base_ids.specs.Definitions.{or_refusal};
ghost use Rattle.settings_values.specs.Definitions.{Settings};
ghost use Rattle.message_format.specs.Messages.{as_read};
ghost use Rattle.report_views.specs.declared.Layout as Layouts;
ghost use Rattle.report_views.specs.declared.Termination as Terminations;
ghost use Rattle.report_walk.specs.Kept.{TablesOf};
ghost use Rattle.report_kept.specs.Definitions as Definitions;
ghost use Rattle.report_kept.specs.Reports as Reports;
ghost use Rattle.report_kept.specs.Words.{mask_in, masks_in, position_in, positions_in, made_first};
ghost use Rattle.report_kept.specs.AtOnce.{ReportsKept, TakenAtOnce, kept_stays};

use base_ids::{Node, Position, Refusal, View};
use message_format::{Contents, Form};
use report_rows::latest::Latest;
use report_views::{Layout, Termination};
use report_walk::Tables;

// What is kept of the reports: the view and its termination.
#[derive(Clone, Copy)]
pub struct Kept {
    pub view: Layout,
    pub termination: Termination,
}

// A report beside what is kept and remembered: its refusal; its node and view, and what is kept afterwards. A refused one gives node 0,
// view 0 and what was kept.
#[derive(Clone, Copy)]
pub struct Received {
    pub refusal: Refusal,
    pub node: Node,
    pub view: View,
    pub kept: Layout,
    pub termination: Termination,
}

// Row 18, then rows 12 and 13.
fn kept_refusal(
    settings: &[u32],
    v: Layout,
    t: Termination,
    latest: Latest,
    c: Contents,
) -> Result<(), Refusal>
    requires settings { Settings settings.now }
    requires node_bound { c.node.0 < 32 }
    ensures { result ≡ or_refusal (Definitions.kept_refusal settings.now v t latest c) tt }
{
    if !report_rows::latest::row18(latest, c.node, c.view) {
        return Err(Refusal { code: 18 });
    }
    if !report_rows::row12(settings, v, c) {
        return Err(Refusal { code: 12 });
    }
    if !report_rows::row13(settings, v, t, c) {
        return Err(Refusal { code: 13 });
    }
    Ok(())
}

// Reads a report beside what is kept and remembered: rows 5 to 11, 18, 12 and 13, and what it says.
fn read_beside(
    settings: &[u32],
    v: Layout,
    t: Termination,
    latest: Latest,
    message: &[u32],
) -> Result<Contents, Refusal>
    requires { Settings settings.now }
    ensures { result ≡ as_read (Reports.reading_beside settings.now v t latest message.now) }
{
    let c = message_reader::read_under(Form::Report, settings, message)?;
    kept_refusal(settings, v, t, latest, c)?;
    Ok(c)
}

// The members of shard s, of the first count; 0 from count up.
fn mask_in(body: &[u32; 381], count: usize, s: usize) -> u32
    requires { count ≤ 16 }
    ensures { result ≡ mask_in body.now count s }
{
    if s < count { body[3 * s + 1] } else { 0 }
}

// The members of each shard.
fn masks_in(body: &[u32; 381], count: usize) -> [u32; 16]
    requires { count ≤ 16 }
    ensures { result ≡ masks_in body.now count }
{
    let mut masks = [0u32; 16];
    for s in 0..16 {
        masks[s] = mask_in(body, count, s);
    }
    masks
}

// The view that a report gives.
fn layout_of(settings: &[u32], c: Contents) -> Layout
    requires { Settings settings.now }
    ensures { result ≡ Definitions.layout_of settings.now c }
{
    let count = settings_values::shards(settings) as usize;
    Layout {
        number: c.view,
        members: c.members,
        masks: masks_in(&c.body, count),
    }
}

// The position that record s after the first count has; (0, 0) from the position count up.
fn position_in(body: &[u32; 381], count: usize, s: usize) -> Position
    requires { count ≤ 16 }
    ensures { result ≡ position_in body.now count s }
{
    if count <= s {
        return Position {
            view: View(0),
            k: 0,
        };
    }
    Position {
        view: View(body[3 * (count + s) + 1]),
        k: body[3 * (count + s) + 2],
    }
}

// The positions that the records after the first count have.
fn positions_in(body: &[u32; 381], count: usize) -> [Position; 16]
    requires { count ≤ 16 }
    ensures { result ≡ positions_in body.now count }
{
    let mut positions = report_views::no_positions();
    for s in 0..16 {
        positions[s] = position_in(body, count, s);
    }
    positions
}

// The termination that a report gives, or none.
fn termination_of(settings: &[u32], c: Contents) -> Termination
    requires { Settings settings.now }
    ensures { result ≡ Definitions.termination_of settings.now c }
{
    if !report_rows::terminated(settings, c) {
        return Termination {
            made: false,
            positions: report_views::no_positions(),
        };
    }
    let count = settings_values::shards(settings) as usize;
    Termination {
        made: true,
        positions: positions_in(&c.body, count),
    }
}

fn keep(view: Layout, termination: Termination) -> Kept
    ensures { result ≡ Definitions.keeps view termination }
{
    Kept { view, termination }
}

// The first termination if one was made, or else the second.
fn made_first(t: Termination, u: Termination) -> Termination
    ensures { result ≡ made_first t u }
{
    if t.made { t } else { u }
}

// What is kept after a report: a greater view with its termination or none; of an equal view the termination if none is kept.
fn renew(settings: &[u32], v: Layout, t: Termination, c: Contents) -> Kept
    requires { Settings settings.now }
    ensures { result ≡ Definitions.renewed settings.now v t c }
{
    let kept = v.number;
    let view = c.view;
    let own = termination_of(settings, c);
    if kept.0 < view.0 {
        return keep(layout_of(settings, c), own);
    }
    if kept.0 == view.0 {
        return keep(v, made_first(t, own));
    }
    keep(v, t)
}

// Reads a report beside what is kept and remembered, record by record, and says what is kept after it.
fn read_in(settings: &[u32], v: Layout, t: Termination, latest: Latest, message: &[u32]) -> Received
    requires { Settings settings.now }
    ensures { result ≡ Reports.taken_in settings.now v t latest message.now }
{
    match read_beside(settings, v, t, latest, message) {
        Ok(c) => {
            let renewed = renew(settings, v, t, c);
            Received {
                refusal: Refusal { code: 0 },
                node: c.node,
                view: c.view,
                kept: renewed.view,
                termination: renewed.termination,
            }
        }
        Err(refusal) => Received {
            refusal,
            node: Node(0),
            view: View(0),
            kept: v,
            termination: t,
        },
    }
}

// A report of the kept view whose records stand one after another: it passes rows 5 to 13, and what it says is kept.
fn of_kept(tables: Tables, message: &[u32]) -> bool
    requires in_bounds { (4 ≤ length message.now) × (length message.now ≤ 512) × (length message.now % 4 ≡ 0) }
    requires le_count { (1 ≤ tables.frame.count) × (tables.frame.count ≤ 16) }
    ensures { result ≡ true → (σ : List ℕ) (v : Layouts.Layout) (t : Terminations.Termination) → Settings σ → TablesOf σ v t tables → ReportsKept σ v t message.now }
{
    let b = report_walk::pairs(message);
    let node = Node(message[0]);
    let mut last = [0usize; 16];
    let masks = tables.masks;
    let positions = tables.positions;
    match report_walk::told(tables.frame, &masks, &positions, &b, node, &mut last) {
        Some(n) => n < message.len() / 4,
        None => false,
    }
}

// A report of the kept view that is taken and changes nothing that is kept. Of other reports nothing is said.
fn taken_at_once(tables: Tables, latest: Latest, message: &[u32]) -> bool
    requires { (1 ≤ tables.frame.count) × (tables.frame.count ≤ 16) }
    ensures { result ≡ true → (σ : List ℕ) (v : Layouts.Layout) (t : Terminations.Termination) → Settings σ → TablesOf σ v t tables → TakenAtOnce σ v t latest message.now }
{
    let n = message.len();
    if n < 4 {
        return false;
    }
    if 512 < n {
        return false;
    }
    if n % 4 != 0 {
        return false;
    }
    if 32 <= message[0] {
        return false;
    }
    let frame = tables.frame;
    let number = frame.number;
    if message[1] != number.0 {
        return false;
    }
    if !of_kept(tables, message) {
        return false;
    }
    report_rows::latest::row18(latest, Node(message[0]), number)
}

// What is kept stays: the view, and its termination if one was made.
fn kept_stays(node: Node, v: Layout, t: Termination) -> Received
    ensures { result ≡ kept_stays node.0 v t }
{
    let none = Termination {
        made: false,
        positions: report_views::no_positions(),
    };
    let view = v.number;
    let termination = made_first(t, none);
    Received {
        refusal: Refusal { code: 0 },
        node,
        view,
        kept: v,
        termination,
    }
}

// Reads a report beside what is kept and remembered, and says what is kept after it. tables: what is made of the kept view and its
// termination to compare with.
pub fn take_in(
    settings: &[u32],
    v: Layout,
    t: Termination,
    tables: Tables,
    latest: Latest,
    message: &[u32],
) -> Received
    requires settings { Settings settings.now }
    requires tables_of { TablesOf settings.now v t tables }
    ensures { result ≡ Reports.taken_in settings.now v t latest message.now }
{
    if taken_at_once(tables, latest, message) {
        return kept_stays(Node(message[0]), v, t);
    }
    read_in(settings, v, t, latest, message)
}
