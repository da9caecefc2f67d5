// Tests of interners and scoped tables through public calls alone: worked examples, lists of calls, arenas that are
// full or get no chunk, and many texts and scopes. Each interner and each scoped table is in an arena of its own
// (`kept`), so calls on it have no preconditions.
mod declared;
mod full;
mod kept;
mod many;
mod rows;
