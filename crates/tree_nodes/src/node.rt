// Nodes, and their byte form.
ghost use Rattle.std.specs.Prelude.{◌≡◌, ℕ, ◌^◌, ◌≤◌, List, length, refl};
ghost use Rattle.tree_nodes.specs.NodeForms.{IsNodeValue, node_bytes, node_of, node_back, plain_88_8, code, kind_of};

use arena_chunks::{Block, Str};
use arena_items::Item;
use arena_vec::Vec;

/// The kind of a node.
#[derive(Clone, Copy, PartialEq, Eq, Debug)]
pub enum Kind {
    /// A number, in `number`.
    Num,
    /// A name, in `text`.
    Name,
    /// The negation of its only child.
    Neg,
    /// The sum of its children, two or more.
    Sum,
    /// The product of its children, two or more.
    Prod,
    /// Gives the name in `text` the value of its only child.
    Let,
    /// Shows the value of its only child.
    Show,
    /// A block of statements.
    Block,
}

fn code(kind: Kind) -> u8
    ensures { result ≡ code kind }
{
    match kind {
        Kind::Num => 0,
        Kind::Name => 1,
        Kind::Neg => 2,
        Kind::Sum => 3,
        Kind::Prod => 4,
        Kind::Let => 5,
        Kind::Show => 6,
        Kind::Block => 7,
    }
}

fn kind_of(code: u8) -> Kind
    ensures { result ≡ kind_of code }
{
    match code {
        0 => Kind::Num,
        1 => Kind::Name,
        2 => Kind::Neg,
        3 => Kind::Sum,
        4 => Kind::Prod,
        5 => Kind::Let,
        6 => Kind::Show,
        _ => Kind::Block,
    }
}

/// A node of a tree: its kind, a number, a text, and the list of its children.
#[derive(Clone, Copy)]
pub struct Node {
    /// Its kind.
    pub kind: Kind,
    /// The number of a `Num`.
    pub number: u64,
    /// The name of a `Name` or a `Let`.
    pub text: Str,
    /// The block of its children; see `kids`.
    pub kids: Block,
    /// How many children there are.
    pub len: u32,
    /// How many children there is room for.
    pub cap: u32,
}

impl Item for Node {
    ghost is_value = { IsNodeValue };

    ghost encoded = { node_bytes };

    ghost decoded = { node_of };

    ghost SIZE = { 88 };

    ghost ALIGN = { 8 };

    const SIZE: u64 = 88;

    const ALIGN: u64 = 8;

    ghost round_trip = { λ v h s. node_back v h };

    ghost encoded_length = { λ v h s. refl };

    ghost layout = { plain_88_8 };

    fn known(&self) {
        let _number = self.number;
        let _text = &self.text;
        _text.known();
        let _kids = &self.kids;
        _kids.known();
        let _len = self.len;
        let _cap = self.cap;
    }

    fn encode(self, out: &mut [u8]) {
        let (kind, rest) = out.split_at_mut(8);
        let (number, rest) = rest.split_at_mut(8);
        let (text, rest) = rest.split_at_mut(32);
        let (kids, rest) = rest.split_at_mut(32);
        let (len, cap) = rest.split_at_mut(4);
        u64::from(code(self.kind)).encode(kind);
        self.number.encode(number);
        self.text.encode(text);
        self.kids.encode(kids);
        self.len.encode(len);
        self.cap.encode(cap);
    }

    fn decode(bytes: &[u8]) -> Self {
        Node {
            kind: kind_of(bytes[0]),
            number: u64::decode(&bytes[8..16]),
            text: Str::decode(&bytes[16..48]),
            kids: Block::decode(&bytes[48..80]),
            len: u32::decode(&bytes[80..84]),
            cap: u32::decode(&bytes[84..]),
        }
    }
}
