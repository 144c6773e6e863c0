// The desk as 65536 lent bytes, 2048 for each node: a slot is read as words, and a message is stored in it.
#![tactic(auto)]

pub mod ends;
pub mod slots;

ghost use Rattle.std.specs.Prelude.{◌≡◌, ◌<◌, ◌≤◌, length};
ghost use Rattle.base_laws.specs.Definitions.{padded};
ghost use Rattle.base_bytes.specs.Definitions.{bytes_of};
ghost use Rattle.base_lent.specs.Definitions.{words_in};
ghost use Rattle.report_views.specs.Definitions.{slot};
ghost use Rattle.report_desk.specs.Definitions.{desk_with};

use base_ids::Node;

// The words of a node's slot.
pub fn slot_words(desk: &[u8], node: Node) -> [u32; 512]
    requires { (length desk.now ≡ 65536) × (node.0 < 32) }
    ensures { result ≡ slot (words_in desk.now) node.0 }
{
    let at = 2048 * (node.0 as usize);
    let mut words = [0u32; 512];
    base_bytes::decode(&desk[at..at + 2048], &mut words);
    words
}

// Copies the message's bytes to a slot, and zeros after them.
fn copy(slot: &mut [u8], message: &[u32])
    requires { (length slot.old ≡ 2048) × (length message.now ≤ 512) }
    ensures { slot.new ≡ padded 2048 (bytes_of message.now) }
{
    let end = 4 * message.len();
    base_bytes::encode(message, &mut slot[0..end]);
    slot[end..].fill(0);
}

// Copies a message to a node's slot of the desk. No other byte is written.
pub fn store(desk: &mut [u8], node: Node, message: &[u32])
    requires desk_len { (length desk.old ≡ 65536) × (node.0 < 32) }
    requires message_len_bound { length message.now ≤ 512 }
    ensures words { words_in desk.new ≡ desk_with (words_in desk.old) node.0 message.now }
    ensures bytes { desk.new ≡ bytes_of (desk_with (words_in desk.old) node.0 message.now) }
{
    let from = 2048 * (node.0 as usize);
    copy(&mut desk[from..from + 2048], message);
}
