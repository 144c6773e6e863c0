// The passes of rows 9, 16 and 17 over the contents' records, each of which gives the first record that fails it, and of row 11.
ghost use Rattle.std.specs.Prelude.{◌≡◌, ◌<◌, ◌≤◌};
ghost use Rattle.settings_values.specs.Definitions.{Settings};
ghost use Rattle.message_format.specs.Definitions.{carried_by};
ghost use Rattle.message_format.specs.Definitions as Definitions;
ghost use Rattle.base_laws.specs.Definitions.{all_below};
ghost use Rattle.message_contents.specs.Gathered.{SmallShards};
ghost use Rattle.message_contents.specs.Passes.{failing};
ghost use Rattle.message_contents.specs.Sequence.{follows_at, stray_at};

use base_ids::Node;
use message_format::{Contents, Form};

// Row 9 at record j: its kind and its word 2.
fn kind_at(form: Form, body: &[u32; 381], j: usize) -> bool
    requires { j < 127 }
    ensures { result ≡ Definitions.kind_at form body.now j }
{
    let kind = message_rows::fields::kind(body, j);
    if !message_rows::kind_ok(form, kind) {
        return false;
    }
    message_rows::plain(kind, message_rows::fields::word2(body, j))
}

// Row 9: kinds and word 2.
pub fn kinds(form: Form, c: &Contents) -> Option<usize>
    requires { c.now.len ≤ 127 }
    ensures { result ≡ failing c.now.len (Definitions.kind_at form c.now.body) }
{
    for j in 0..c.len {
        if !kind_at(form, &c.body, j) {
            return Some(j);
        }
    }
    None
}

// Row 16: shards.
pub fn shards(settings: &[u32], c: &Contents) -> Option<usize>
    requires settings { Settings settings.now }
    requires len_bound { c.now.len ≤ 127 }
    ensures { result ≡ failing c.now.len (Definitions.shard_at settings.now c.now.body) }
{
    let count = settings_values::shards(settings);
    for j in 0..c.len {
        let shard = message_rows::fields::shard(&c.body, j);
        if count <= shard.0 {
            return Some(j);
        }
    }
    None
}

// Record j is the first or follows the record before it.
fn follows(body: &[u32; 381], j: usize) -> bool
    requires { j < 127 }
    ensures { result ≡ follows_at body.now j }
{
    if j == 0 {
        return true;
    }
    message_rows::fields::precedes(body, j - 1, j)
}

// Record j is a holder or a cut for a shard that is not among those carried.
fn stray(carried: u32, body: &[u32; 381], j: usize) -> bool
    requires { j < 127 }
    ensures { result ≡ stray_at carried body.now j }
{
    if message_rows::fields::kind(body, j) < 4 {
        return false;
    }
    let shard = message_rows::fields::shard(body, j);
    !base_masks::has(carried, shard.0 as usize)
}

// Row 17 at record j, with the shards that the node carries by the records before it.
fn sequence_at(node: Node, carried: u32, body: &[u32; 381], j: usize) -> bool
    requires j_bound { j < 127 }
    requires carried_value { carried ≡ carried_by node.0 body.now j }
    ensures { result ≡ Definitions.sequence_at node.0 body.now j }
{
    if !follows(body, j) {
        return false;
    }
    !stray(carried, body, j)
}

// Row 17: sequence and surplus.
pub fn sequence(c: &Contents) -> Option<usize>
    requires len_bound { c.now.len ≤ 127 }
    requires small_shards { SmallShards c.now.body c.now.len }
    ensures { result ≡ failing c.now.len (Definitions.sequence_at c.now.node.0 c.now.body) }
{
    let mut carried: u32 = 0;
    for j in 0..c.len {
        if !sequence_at(c.node, carried, &c.body, j) {
            return Some(j);
        }
        carried = crate::records::carried_more(carried, c.node, &c.body, j);
    }
    None
}

// Row 11 at record j.
fn position_at(form: Form, c: &Contents, j: usize) -> bool
    requires { j < 127 }
    ensures { result ≡ Definitions.row11_at form c.now.view.0 c.now.members c.now.body j }
{
    let kind = message_rows::fields::kind(&c.body, j);
    let first = message_rows::fields::word1(&c.body, j);
    let second = message_rows::fields::word2(&c.body, j);
    message_rows::legal(form, c.view, c.members, kind, first, second)
}

// Row 11.
pub fn positions(form: Form, c: &Contents) -> bool
    requires { c.now.len ≤ 127 }
    ensures { result ≡ all_below c.now.len (Definitions.row11_at form c.now.view.0 c.now.members c.now.body) }
{
    for j in 0..c.len {
        if !position_at(form, c, j) {
            return false;
        }
    }
    true
}
