//! Nodes, and the words that stand for them.
ghost use Rattle.std.specs.Prelude.{◌≡◌, ◌≢◌, ℕ, ◌+◌, ◌*◌, ◌<◌, ◌≤◌, IfSome, IfNone};
ghost use Rattle.node_set.specs.Nodes.{packed, tag_of, first_of, second_of, word_of, HasParts, IsNode};

use clr_base::{DefId, Handle, MethId};

/// What a cell of a board names: a part of a key, or a row of words that belongs to a key.
///
/// The number of the cell is the node's handle. Nodes name each other by handles, so a key is a chain of nodes.
#[derive(Clone, Copy, PartialEq, Eq)]
pub enum Node {
    /// The type definition that heads a key.
    Head { definition: DefId },
    /// One argument, put to a head or a method behind the arguments that it has.
    Argument { of: Handle, argument: Handle },
    /// The array type of an element.
    Array { element: Handle },
    /// A method, and the exact type that owns it.
    Method { method: MethId, owner: Handle },
    /// A further row of a key's record. Rows count from 1, since the first row lies in the key's own cell.
    Row { key: Handle, row: u32 },
    /// A segment of 32 slots of the layout of a canonical key. Segments count from 0.
    LayoutSegment { canonical: Handle, segment: u32 },
    /// A segment of 32 words of the dictionary of an exact key. Segments count from 0.
    DictionarySegment { exact: Handle, segment: u32 },
}

fn pack(tag: u64, first: u32, second: u32) -> u64
    requires { tag < 16 }
    ensures { result ≡ packed tag first second }
{
    tag + 16 * (first as u64 + 16_777_216 * second as u64)
}

// The node of a tag and two numbers. The second is passed over where the tag has one number alone.
fn of_parts(tag: u64, first: u32, second: u32) -> Option<Node>
    ensures some { IfSome result (λ n.
        (first_of n ≡ first) × (second_of n ≤ second)
        × ((m : Node) → HasParts m tag first second → m ≡ n)) }
    ensures none { IfNone result ((m : Node) → tag_of m ≢ tag) }
{
    let node = match tag {
        1 => Node::Head {
            definition: DefId(first),
        },
        2 => Node::Argument {
            of: Handle(first),
            argument: Handle(second),
        },
        3 => Node::Array {
            element: Handle(first),
        },
        4 => Node::Method {
            method: MethId(first),
            owner: Handle(second),
        },
        5 => Node::Row {
            key: Handle(first),
            row: second,
        },
        6 => Node::LayoutSegment {
            canonical: Handle(first),
            segment: second,
        },
        7 => Node::DictionarySegment {
            exact: Handle(first),
            segment: second,
        },
        _ => return None,
    };
    Some(node)
}

impl Node {
    /// The word of a node: its tag, from 1 to 7, and two numbers, `tag + 16 * (first + 16777216 * second)`.
    pub fn word(self) -> u64
        ensures { (result ≡ word_of self) × (0 < result) }
    {
        match self {
            Node::Head { definition } => pack(1, definition.0, 0),
            Node::Argument { of, argument } => pack(2, of.0, argument.0),
            Node::Array { element } => pack(3, element.0, 0),
            Node::Method { method, owner } => pack(4, method.0, owner.0),
            Node::Row { key, row } => pack(5, key.0, row),
            Node::LayoutSegment { canonical, segment } => pack(6, canonical.0, segment),
            Node::DictionarySegment { exact, segment } => pack(7, exact.0, segment),
        }
    }

    /// The node of a word, or None where no node has it.
    pub fn read(word: u64) -> Option<Node>
        ensures some { IfSome result (λ n. (word_of n ≡ word) × IsNode n) }
        ensures none { IfNone result ((n : Node) → IsNode n → word_of n ≢ word) }
    {
        let first = (word / 16 % 16_777_216) as u32;
        let second = u32::try_from(word / 268_435_456).ok()?;
        let node = of_parts(word % 16, first, second)?;
        if node.word() == word {
            Some(node)
        } else {
            None
        }
    }
}
