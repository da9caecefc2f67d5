// What is called when a piece of work starts and ends.

/// Is called at the start and at the end of each piece, by the worker that does it.
pub trait Gate {
    /// Called after the worker has claimed the piece with this number, before it takes an arena.
    fn started(&self, piece: u32);

    /// Called after the piece is done, and its arena, if there was memory for one, was given back or given up.
    fn finished(&self, piece: u32);
}

/// A gate that does nothing.
#[derive(Clone, Copy, Debug)]
pub struct NoGate;

impl Gate for NoGate {
    fn started(&self, _piece: u32) {}

    fn finished(&self, _piece: u32) {}
}
