// What the handle of a tree means: one `frame_law` for all of it.
ghost use Rattle.arena_ast.specs.laws.AstLaws.{ast_readable, ast_same_footprint, ast_same, ast_held_again};
ghost use Rattle.arena_ast.specs.Asts.{IsAstIn, ast_blocks};
ghost use Rattle.arena_ast.specs.Rows.{Rows, rows_in};

use crate::ast::Ast;
use crate::linked::Linked;
use arena_items::{InArena, Item};

impl<T: Item + Linked> InArena for Ast<T> {
    ghost Meaning = { Rows T };

    ghost footprint = { ast_blocks };

    ghost is_held = { IsAstIn T.Item T.is_after };

    ghost means = { rows_in T.Item };

    ghost readable = { ast_readable ⟦<T as Item>⟧ T.is_after };

    ghost same_footprint = { λ a c t agree. ast_same_footprint ⟦<T as Item>⟧ T.is_after a c t agree };

    ghost same_meaning = { λ a c t agree. ast_same ⟦<T as Item>⟧ T.is_after a c t agree };

    ghost held_again = { λ a c t held agree readable.
        ast_held_again ⟦<T as Item>⟧ T.is_after a c t agree held readable };
}
