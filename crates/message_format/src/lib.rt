// Messages: their contents as a value. What the words of a message mean, and rows 5 to 11, stand in specs/.
#![tactic(auto)]

use base_ids::{Node, Refusal, View};

// A message is a report from a node or an order to one; nothing in its words says which.
#[derive(Clone, Copy)]
pub enum Form {
    Report,
    Order,
}

// What a message says: its head, and the records of its chain after the head, three words each, one after another.
// Words of body from 3 * len up say nothing; a reader gives them as zero.
#[derive(Clone, Copy)]
pub struct Contents {
    pub node: Node,
    pub view: View,
    pub members: u32,
    pub len: usize,
    pub body: [u32; 381],
}

// What reading gives, as definitions have it: the contents, or blank ones beside a refusal. Calls give a Result.
#[derive(Clone, Copy)]
pub struct Reading {
    pub refusal: Refusal,
    pub contents: Contents,
}

// What writing answers, as definitions have it: the message's length in words, or 0 beside a refusal. Calls give a Result.
#[derive(Clone, Copy)]
pub struct Writing {
    pub refusal: Refusal,
    pub length: usize,
}
