// What a slot of the desk says, and whether a report fits what is kept.
ghost use Rattle.std.specs.Prelude.{true, ◌≡◌, ◌<◌, length};
ghost use Rattle.base_lent.specs.Definitions.{words_in};
ghost use Rattle.settings_values.specs.Definitions.{Settings};
ghost use Rattle.message_format.specs.Definitions.{row8};
ghost use Rattle.report_views.specs.Definitions as Definitions;
ghost use Rattle.report_desk.specs.SlotsOf.{report_fits};

use base_ids::Node;
use message_format::Contents;
use report_views::{Layout, Termination};

// A node's report.
pub fn report_at(desk: &[u8], node: Node) -> Contents
    requires desk_len { (length desk.now ≡ 65536) × (node.0 < 32) }
    requires node_value { row8 (Definitions.slot (words_in desk.now) node.0) ≡ true }
    ensures { result ≡ Definitions.report_of (words_in desk.now) node.0 }
{
    let words = crate::slot_words(desk, node);
    message_reader::contents_of(&words)
}

// A report fits what is kept as a node's: the node's own, of no later view, and under rows 12 and 13.
pub fn report_fits(settings: &[u32], v: Layout, t: Termination, c: Contents, node: Node) -> bool
    requires { Settings settings.now }
    ensures { result ≡ report_fits settings.now v t c node.0 }
{
    let own = c.node;
    if own.0 != node.0 {
        return false;
    }
    let view = c.view;
    let number = v.number;
    if number.0 < view.0 {
        return false;
    }
    if !report_rows::row12(settings, v, c) {
        return false;
    }
    if !report_rows::row13(settings, v, t, c) {
        return false;
    }
    report_rows::term_kept(settings, v, t, c)
}
