// Nodes: their parts, which are their byte form, and the indices in them.
ghost use Rattle.std.specs.Prelude.{◌≡◌, ◌<◌, ◌==◌, ℕ, if◌then◌else◌, refl};
ghost use Rattle.example_language.specs.Nodes.{IsAfter, sign_node};
ghost use Rattle.example_language.specs.declared.nodes.Node.TheVariants.{Number, Name, Sum, Product};

use arena::{Ast, ByParts, Linked, Parts, Plain, Vec};

/// A node of a tree.
#[derive(Clone, Copy, PartialEq, Eq, Debug)]
pub enum Node {
    /// A number.
    Number(u32),
    /// The name with this number.
    Name(u32),
    /// The sum of the nodes at these indices.
    Sum(u32, u32),
    /// The product of the nodes at these indices.
    Product(u32, u32),
}

impl Parts for Node {
    type Form = (u8, (u32, u32));

    ghost parts = { elim [
      | Number n ↦ (0, (n, 0))
      | Name n ↦ (1, (n, 0))
      | Sum m n ↦ (2, (m, n))
      | Product m n ↦ (3, (m, n))
    ] };

    ghost whole = { λ p. if p.0 == 0 then Number p.1.0 else (if p.0 == 1 then Name p.1.0 else (
        if p.0 == 2 then Sum p.1.0 p.1.1 else Product p.1.0 p.1.1)) };

    ghost back = { elim [ Number n ↦ refl | Name n ↦ refl | Sum m n ↦ refl | Product m n ↦ refl ] };

    fn parts(self) -> Self::Form {
        match self {
            Node::Number(n) => (0, (n, 0)),
            Node::Name(n) => (1, (n, 0)),
            Node::Sum(m, n) => (2, (m, n)),
            Node::Product(m, n) => (3, (m, n)),
        }
    }

    fn whole(form: Self::Form) -> Self {
        let (tag, (m, n)) = form;
        match tag {
            0 => Node::Number(m),
            1 => Node::Name(m),
            2 => Node::Sum(m, n),
            _ => Node::Product(m, n),
        }
    }
}

impl Plain for Node {}

impl Linked for Node {
    ghost is_after = { IsAfter };
}

/// The handle of a list of nodes.
pub type NodeList = Vec<ByParts<Node>>;

/// The handle of a tree. Its last node is the whole of it.
pub type Tree = Ast<ByParts<Node>>;

// What joins two trees.
#[derive(Clone, Copy)]
pub(crate) enum Sign {
    Plus,
    Times,
}

// The node of two trees that a sign joins.
pub(crate) fn sign_node(sign: Sign, left: u32, right: u32) -> Node
    ensures node { result ≡ sign_node sign left right }
    ensures after { (at : ℕ) → left < at → right < at → IsAfter at result }
{
    match sign {
        Sign::Plus => Node::Sum(left, right),
        Sign::Times => Node::Product(left, right),
    }
}
