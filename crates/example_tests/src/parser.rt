// Tests of the parser that proves safety alone: the nodes and names of a text, and texts that have no tree.
use crate::tests::{ample, same};
use example_parser::{Node, ParseErr, Term, operand, parse, parse_calls};

// x 2 + y *
const NODES: &[Node] = &[
    Node::Name(0),
    Node::Number(2),
    Node::Sum(0, 1),
    Node::Name(1),
    Node::Product(2, 3),
];

#[test]
#[tactic(auto, unfolding(arena_rules::specs::Rounding::up, arena_items::specs::Layout::second_at, arena_items::specs::Layout::pair_size))]
fn nodes(rt: HostRuntime) {
    let mut a = ample(rt.alloc());
    let tree = parse(&mut a, "x 2 + y *").expect(&rt, "a tree");
    same(&rt, "length", tree.nodes.len(), 5);
    for i in 0..tree.nodes.len() {
        let found = tree.nodes.get(&a, i).0;
        same(&rt, "node", Some(found), NODES.get(i as usize).copied());
    }
    let found = (tree.number(&a, "y"), tree.number(&a, "z"));
    same(&rt, "names", found, (Some(1), None));
}

// Texts that have no tree, and why.
const WRONG: &[(&str, ParseErr)] = &[
    ("", ParseErr::Token),
    ("x *", ParseErr::Operands),
    ("1 2", ParseErr::Operands),
];

#[test]
fn wrong_texts(rt: HostRuntime) {
    for (text, wanted) in WRONG {
        let mut a = ample(rt.alloc());
        same(&rt, *text, parse(&mut a, *text).err(), Some(*wanted));
    }
}

// x y 2 f/3 g/1
const TERMS: &[Term] = &[
    Term::Name(0),
    Term::Name(1),
    Term::Name(2),
    Term::Call(3, 0, 3),
    Term::Call(4, 3, 4),
];

// The operands of these nodes, by their numbers.
const OPERANDS: &[(usize, u32, Option<u32>)] = &[
    (0, 0, None),
    (3, 0, Some(0)),
    (3, 2, Some(2)),
    (3, 3, None),
    (4, 0, Some(3)),
    (4, 1, None),
];

#[test]
#[tactic(auto, unfolding(arena_rules::specs::Rounding::up, arena_items::specs::Layout::second_at, arena_items::specs::Layout::pair_size))]
fn calls_and_their_operands(rt: HostRuntime) {
    let mut a = ample(rt.alloc());
    let calls = parse_calls(&mut a, "x y 2 f/3 g/1").expect(&rt, "a tree");
    same(&rt, "length", calls.first.nodes.len(), 5);
    for i in 0..calls.first.nodes.len() {
        let found = calls.first.nodes.get(&a, i).0;
        same(&rt, "node", Some(found), TERMS.get(i as usize).copied());
    }
    for (of, i, wanted) in OPERANDS {
        let term = TERMS.get(*of).copied().expect(&rt, "a node");
        same(&rt, "operand", operand(&a, &calls, term, *i), *wanted);
    }
}

// Texts that have no tree of calls, and why.
const WRONG_CALLS: &[(&str, ParseErr)] = &[
    ("x y", ParseErr::Operands),
    ("x f/2", ParseErr::Operands),
    ("x f/y", ParseErr::Token),
];

#[test]
fn wrong_calls(rt: HostRuntime) {
    for (text, wanted) in WRONG_CALLS {
        let mut a = ample(rt.alloc());
        same(&rt, *text, parse_calls(&mut a, *text).err(), Some(*wanted));
    }
}
