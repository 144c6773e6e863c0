// Rows 6, 7, 9, 16, 17, 10 and 11 over the contents of a report or an order, for the reader, the writer and the slots of
// the desk.
#![tactic(auto)]

mod passes;
mod records;

ghost use Rattle.std.specs.Prelude.{◌≡◌, ◌<◌, ◌≤◌};
ghost use Rattle.base_ids.specs.Definitions.{refused_at, or_refusal};
ghost use Rattle.settings_values.specs.Definitions.{Settings};
ghost use Rattle.message_format.specs.Definitions.{head_refusal, in_order, records_refusal, contents_refusal};
ghost use Rattle.message_contents.specs.Structure.{structure_refusal};

use base_ids::{Node, Refusal, View};
use message_format::{Contents, Form};

// Rows 6 and 7 over the contents' head.
pub fn head_refusal(
    form: Form,
    settings: &[u32],
    node: Node,
    view: View,
    members: u32,
) -> Result<(), Refusal>
    requires { Settings settings.now }
    ensures { result ≡ or_refusal (head_refusal form settings.now node.0 view.0 members) tt }
{
    if settings_values::nodes(settings) <= node.0 {
        return Err(Refusal { code: 6 });
    }
    if !message_rows::row7(form, settings, node, view, members) {
        return Err(Refusal { code: 7 });
    }
    Ok(())
}

// The refusal by the number of a row, told at record i.
pub fn told_at(row: u32, i: usize) -> Refusal
    requires row_bound { row < 256 }
    requires i_bound { i ≤ 127 }
    ensures { result ≡ refused_at row i }
{
    Refusal {
        code: row + 256 * i as u32,
    }
}

// Rows 9, 16 and 17: the first record with a wrong kind or word 2, with an unknown shard, out of sequence; then a missing
// one, told at the last.
fn structure_refusal(form: Form, settings: &[u32], c: &Contents) -> Result<(), Refusal>
    requires settings { Settings settings.now }
    requires len_bound { c.now.len ≤ 127 }
    ensures { result ≡ or_refusal (structure_refusal form settings.now c.now.node.0 c.now.body c.now.len) tt }
{
    if let Some(j) = crate::passes::kinds(form, c) {
        return Err(told_at(9, j + 1));
    }
    if let Some(j) = crate::passes::shards(settings, c) {
        return Err(told_at(16, j + 1));
    }
    if let Some(j) = crate::passes::sequence(c) {
        return Err(told_at(17, j + 1));
    }
    if !crate::records::complete(form, settings, c) {
        return Err(told_at(17, c.len));
    }
    Ok(())
}

// Rows 9, 16, 17, 10 and 11 over the contents' records, told at their steps along the chain.
pub fn records_refusal(form: Form, settings: &[u32], c: &Contents) -> Result<(), Refusal>
    requires settings { Settings settings.now }
    requires len_bound { c.now.len ≤ 127 }
    ensures { result
        ≡ or_refusal (records_refusal in_order form settings.now c.now.node.0 c.now.view.0 c.now.members c.now.body c.now.len) tt }
{
    structure_refusal(form, settings, c)?;
    let masks = crate::records::masks_of(settings, c);
    if !message_rows::shards::row10(settings, c.members, &masks) {
        return Err(Refusal { code: 10 });
    }
    if !crate::passes::positions(form, c) {
        return Err(Refusal { code: 11 });
    }
    Ok(())
}

// The refusal of contents under right settings: row 5 (by the words needed), then the rows above.
pub fn contents_refusal(form: Form, settings: &[u32], c: &Contents) -> Result<(), Refusal>
    requires { Settings settings.now }
    ensures { result ≡ or_refusal (contents_refusal form settings.now c.now) tt }
{
    if 127 < c.len {
        return Err(Refusal { code: 5 });
    }
    head_refusal(form, settings, c.node, c.view, c.members)?;
    records_refusal(form, settings, c)
}
