// The tests of rows 7, 9 and 11 of document 01's table. Each gives what its definition in message_format says.
#![tactic(auto)]

pub mod fields;
pub mod shards;

ghost use Rattle.std.specs.Prelude.{◌≡◌, ◌<◌};
ghost use Rattle.settings_values.specs.Definitions.{Settings};
ghost use Rattle.message_format.specs.Definitions as Definitions;

use base_ids::{Node, Position, View};
use message_format::Form;

// The limits of a view number.
pub fn view_ok(form: Form, view: View) -> bool
    ensures { result ≡ Definitions.view_ok form view.0 }
{
    match form {
        Form::Report => settings_values::from_to(1, 4294967294, view.0),
        Form::Order => settings_values::from_to(2, 4294967295, view.0),
    }
}

// Row 7: the view is in its limits, and the members mask has no bit from N up and has the head's node.
pub fn row7(form: Form, settings: &[u32], node: Node, view: View, members: u32) -> bool
    requires { Settings settings.now }
    ensures { result ≡ Definitions.row7 form settings.now node.0 view.0 members }
{
    if !view_ok(form, view) {
        return false;
    }
    if !base_masks::within(settings_values::nodes(settings) as usize, members) {
        return false;
    }
    base_masks::has(members, node.0 as usize)
}

// The kinds that a message can have.
pub fn kind_ok(form: Form, kind: u32) -> bool
    ensures { result ≡ Definitions.kind_ok form kind }
{
    match form {
        Form::Report => settings_values::from_to(1, 3, kind),
        Form::Order => {
            if settings_values::from_to(1, 2, kind) {
                return true;
            }
            settings_values::from_to(4, 5, kind)
        }
    }
}

// Word 2 of kinds 1 and 4 is zero.
pub fn plain(k: u32, word2: u32) -> bool
    ensures { result ≡ Definitions.plain k word2 }
{
    if k == 1 {
        return word2 == 0;
    }
    if k == 4 {
        return word2 == 0;
    }
    true
}

// (0, 0), or view and k from 1.
pub fn position(p: Position) -> bool
    ensures { result ≡ Definitions.is_position p.view.0 p.k }
{
    let view = p.view;
    if view.0 == 0 {
        return p.k == 0;
    }
    1 <= p.k
}

// The view of a position or run against the head's: not above it in a report, below it in an order.
fn view_fits(form: Form, view: View, v: View) -> bool
    ensures { result ≡ Definitions.view_fits form view.0 v.0 }
{
    match form {
        Form::Report => v.0 <= view.0,
        Form::Order => v.0 < view.0,
    }
}

// Row 11 for a run: view and count from 1, and the view fits.
fn run(form: Form, view: View, v: View, count: u32) -> bool
    ensures { result ≡ Definitions.legal form view.0 0 3 v.0 count }
{
    if v.0 < 1 {
        return false;
    }
    if count < 1 {
        return false;
    }
    view_fits(form, view, v)
}

// Row 11 for a record's kind and words 1 and 2.
pub fn legal(form: Form, view: View, members: u32, kind: u32, word1: u32, word2: u32) -> bool
    ensures { result ≡ Definitions.legal form view.0 members kind word1 word2 }
{
    if kind == 1 {
        return true;
    }
    if kind == 3 {
        return run(form, view, View(word1), word2);
    }
    if kind == 4 {
        return base_masks::has(members, word1 as usize);
    }
    let at = Position {
        view: View(word1),
        k: word2,
    };
    if !position(at) {
        return false;
    }
    view_fits(form, view, at.view)
}
