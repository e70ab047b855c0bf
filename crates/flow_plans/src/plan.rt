//! Plans, as plain data.

use dream_words::Name;
use graph_order::NodeId;
use sqlite_items::{Boxed, Items};

/// A word that an added variable is known to have, or that it is tested for.
#[derive(Clone, Copy)]
pub struct Value {
    pub name: Name,
    pub value: u32,
}

/// The flow may be about to enter the node, and if so these values are known.
#[derive(Drop)]
pub struct Entry {
    /// A loop turn was begun before its head is entered, and none of the blocks since was a head.
    pub owes: bool,
    pub node: NodeId,
    pub known: Items<Value>,
}

/// A variable that is set to one number where something is so, and to another one where it isn't.
#[derive(Clone, Copy)]
pub struct Way {
    pub name: Name,
    pub on_true: u32,
    pub on_false: u32,
}

/// How blocks of a flow stand in a text. A variable is a local for tests or for selecting, which the flow doesn't have.
#[derive(Drop)]
pub enum Plan {
    /// The block of a node. Where it ends in a Branch the variable tells which way it goes, and where it ends in a Switch
    /// it is set to the word.
    Block(NodeId, Way),
    Seq(Items<Plan>),
    /// If one of the variables has its value the first plan, else the second.
    Test(Items<Value>, Boxed<Plan>, Boxed<Plan>),
    /// The variable is set.
    Put(Value),
    /// The variable tells whether another one has its value.
    Pick(Way, Value),
    /// Nothing is done. From here on no more than this is known.
    Forget(Items<Entry>),
    /// Nothing is done. From here on nothing is known of the variable.
    Fade(Name),
    /// The innermost loop is left.
    Leave,
    /// A loop: what may be about to be entered where a turn begins, and where the loop is left.
    Loop(Items<Entry>, Items<Entry>, Boxed<Plan>),
}
