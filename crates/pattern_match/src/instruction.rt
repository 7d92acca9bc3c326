//! The instructions that a pattern is compiled to.

/// One instruction. They are passed from the first to the last, and carry whether a word may end there.
#[derive(Clone, Copy, Drop)]
pub enum Instruction {
    /// Takes one character, of the atom whose token has the number `at`.
    Take {
        at: usize,
        optional: bool,
        repeated: bool,
    },
    /// Begins a group. `length` instructions stand between it and its `Close`.
    Open {
        length: usize,
        optional: bool,
        repeated: bool,
    },
    /// Ends a branch of a group, and begins the next.
    Bar,
    /// Ends a group.
    Close,
}

/// What is kept of a group that is begun: whether a word may begin it here, and whether one may have left it.
#[derive(Clone, Copy, Drop)]
pub struct Frame {
    pub entered: bool,
    pub left: bool,
}

/// A group that is begun: where its `Open` stands, and of the group around it the positions before it, where the
/// branch begins that it stands in, and whether an empty branch was left out.
#[derive(Clone, Copy, Drop)]
pub struct Begun {
    pub start: usize,
    pub total: u64,
    pub branch: usize,
    pub empty: bool,
}

/// A place in the code while it is made: the cell, and how many instructions stand before it.
#[derive(Clone, Copy, Drop)]
pub struct Place {
    pub cell: usize,
    pub count: usize,
}

/// A group that is begun, and the cell that its `Open` stands in.
#[derive(Clone, Copy, Drop)]
pub struct Group {
    pub cell: usize,
    pub around: Begun,
}
