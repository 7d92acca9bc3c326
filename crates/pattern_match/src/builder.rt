//! The code of a pattern, made token by token.
ghost use Rattle.std.specs.Prelude.{◌≡◌, ◌==◌, ◌+◌, ◌-◌, ◌*◌, ◌<◌, false, not, IsTrue, Option, is_some, List, [], ◌++◌, length, take, drop, OnOk, IfOk};
ghost use Rattle.pattern_match.specs.declared.instruction.Instruction.{Instruction};
ghost use Rattle.pattern_match.specs.Building.{flagged_first, copies_code, repeated_code, wrapped_group, closed_code, piece_code, after_atom, after_open, after_bar, after_close, after_times, after, nothing_built, built_whole};
ghost use Rattle.pattern_match.specs.inner.Drafting.{live, full_cells, IsPlace, IsGroup, IsGroupBegun, KeepsFront, AreBegun, Drafted, MayRepeatLast, MayTakeToken, Leaves, AreFollowing};

use crate::counter::{LIMIT, capped_sum, copies_kept};
use crate::draft::{Draft, with_flags};
use crate::instruction::{Begun, Group, Instruction, Place};
use crate::token::Token;
use std::alloc::{AllocError, Global};
use std::marker::Model;

/// Pushes a fragment with these flags on its first instruction too.
fn push_copy(
    code: &mut Draft,
    fragment: &[Instruction],
    optional: bool,
    repeated: bool,
) -> Result<(), AllocError>
    ensures { OnOk result (code.new ≡ code.old ++ full_cells (flagged_first optional repeated fragment.now)) }
{
    if fragment.len() == 0 {
        return Ok(());
    }
    code.push(with_flags(fragment[0], optional, repeated))?;
    for instruction in &fragment[1..] {
        code.push(*instruction)?;
    }
    Ok(())
}

/// Pushes so many copies of a fragment.
fn push_copies(
    code: &mut Draft,
    fragment: &[Instruction],
    count: u64,
    optional: bool,
    repeated: bool,
) -> Result<(), AllocError>
    ensures { OnOk result (code.new ≡ code.old ++ full_cells (copies_code count (flagged_first optional repeated fragment.now))) }
{
    for i in 0..count {
        push_copy(code, fragment, optional, repeated)?;
    }
    Ok(())
}

/// Pushes a fragment, repeated as the bounds say.
fn push_repeated(
    code: &mut Draft,
    fragment: &[Instruction],
    least: u64,
    most: Option<u64>,
) -> Result<(), AllocError>
    ensures { OnOk result (code.new ≡ code.old ++ full_cells (repeated_code least most fragment.now)) }
{
    match most {
        Some(most) => {
            push_copies(code, fragment, least, false, false)?;
            push_copies(code, fragment, most.saturating_sub(least), true, false)
        }
        None => {
            if least == 0 {
                push_copy(code, fragment, true, true)
            } else {
                push_copies(code, fragment, least - 1, false, false)?;
                push_copy(code, fragment, false, true)
            }
        }
    }
}

/// Whether one copy is kept, of which only the flags of the first instruction change.
fn is_one_copy(least: u64, most: Option<u64>) -> bool
    ensures { IsTrue result → (f : List Instruction) → repeated_code least most f ≡ flagged_first (least == 0) (not (is_some most)) f }
{
    match most {
        Some(most) => least <= 1 && most == 1,
        None => least <= 1,
    }
}

/// Puts so many copies of the piece that begins at `start` into its place, as the bounds say.
fn copy_piece(
    alloc: Global,
    code: &mut Draft,
    start: Place,
    least: u64,
    most: Option<u64>,
) -> Result<(), AllocError>
    requires { IsPlace code.old start }
    ensures code { OnOk result (live code.new ≡ take start.count (live code.old) ++ repeated_code least most (drop start.count (live code.old))) }
    ensures kept { OnOk result (KeepsFront code.old code.new start) }
{
    let fragment = code.code_from(alloc, start)?;
    code.truncate(start);
    push_repeated(code, fragment.as_slice(), least, most)?;
    Ok(())
}

/// Repeats the piece of so many positions that begins at `start`, as the bounds say.
fn repeat_piece(
    alloc: Global,
    code: &mut Draft,
    start: Place,
    positions: u64,
    least: u64,
    most: Option<u64>,
) -> Result<(), AllocError>
    requires { IsPlace code.old start }
    ensures code { OnOk result (live code.new ≡ piece_code start.count (live code.old) positions least most) }
    ensures kept { OnOk result (KeepsFront code.old code.new start) }
{
    if positions == 0 {
        code.truncate(start);
        return Ok(());
    }
    if positions > LIMIT {
        return Ok(());
    }
    if is_one_copy(least, most) {
        code.flag_at(start, least == 0, most.is_none());
        return Ok(());
    }
    copy_piece(alloc, code, start, least, most)
}

/// Marks a group that begins at `start`, where it has more than one item.
fn wrap_group(code: &mut Draft, start: Place, empty: bool) -> Result<(), AllocError>
    requires { IsGroup code.old start }
    ensures code { OnOk result (live code.new ≡ wrapped_group start.count empty (live code.old)) }
    ensures kept { OnOk result (KeepsFront code.old code.new start) }
{
    if code.has_one_item(start) {
        code.lift_item(start, empty);
        return Ok(());
    }
    code.mark_group(start, empty)?;
    Ok(())
}

/// Ends the group of so many positions that begins at `start`, and before whose last branch so many instructions stand.
fn close_group(
    code: &mut Draft,
    start: Place,
    branch: usize,
    empty: bool,
    positions: u64,
) -> Result<(), AllocError>
    requires { IsGroupBegun code.old start }
    ensures code { OnOk result (live code.new ≡ closed_code start.count branch empty (live code.old) positions) }
    ensures kept { OnOk result (KeepsFront code.old code.new start) }
{
    if positions == 0 {
        code.truncate(start);
        return Ok(());
    }
    if code.len() == branch {
        code.drop_last();
        return wrap_group(code, start, true);
    }
    wrap_group(code, start, empty)
}

/// The code so far, the groups that are begun, and the positions of the innermost.
#[derive(Drop)]
pub struct Builder {
    code: Draft,
    begun: Vec<Group>,
    total: u64,
    last: u64,
    start: Place,
    branch: usize,
    empty: bool,
}

impl Model for Builder {
    ghost use Rattle.std.specs.Prelude.{reverse, map};
    ghost use Rattle.pattern_match.specs.inner.Drafting.{live, Drafted};

    ghost Value = { Drafted };

    ghost view = { λ b. record {
      built = record { code = live b.code; begun = map (λ g. g.around) (reverse b.begun.items); total = b.total; last = b.last; start = b.start.count; branch = b.branch; empty = b.empty };
      cells = b.code;
      groups = reverse b.begun.items;
      cell = b.start.cell;
    } };
}

impl Builder {
    /// No code and no group.
    fn new(alloc: Global) -> Builder
        ensures { result ≡ record { built = nothing_built; cells = []; groups = []; cell = 0 } }
    {
        Builder {
            code: Draft::new(alloc),
            begun: Vec::new(alloc),
            total: 0,
            last: 0,
            start: Place { cell: 0, count: 0 },
            branch: 0,
            empty: false,
        }
    }

    /// All instructions of the code.
    fn into_code(self, alloc: Global) -> Result<Vec<Instruction>, AllocError>
        ensures { IfOk result (λ v. v.items ≡ live self.cells) }
    {
        let Builder {
            code,
            begun: _,
            total: _,
            last: _,
            start: _,
            branch: _,
            empty: _,
        } = self;
        code.code(alloc)
    }

    /// Goes on with the atom whose token has the number `at`.
    fn push_atom(&mut self, at: usize) -> Result<(), AllocError>
        requires { AreBegun self.old.cells self.old.groups }
        ensures built { OnOk result (self.new.built ≡ after_atom at self.old.built) }
        ensures ready { OnOk result (MayRepeatLast self.new) }
        ensures groups { self.new.groups ≡ self.old.groups }
    {
        self.total = capped_sum(self.total, self.last);
        self.last = 1;
        self.start = self.code.end();
        self.code.push(Instruction::Take {
            at,
            optional: false,
            repeated: false,
        })?;
        Ok(())
    }

    /// Begins a group, and keeps what is built around it.
    fn open(&mut self) -> Result<(), AllocError>
        requires { AreBegun self.old.cells self.old.groups }
        ensures built { OnOk result (self.new.built ≡ after_open self.old.built) }
        ensures leaves { OnOk result (Leaves Token.Open self.old self.new) }
    {
        let end = self.code.end();
        self.begun.push(Group {
            cell: end.cell,
            around: Begun {
                start: end.count,
                total: capped_sum(self.total, self.last),
                branch: self.branch,
                empty: self.empty,
            },
        })?;
        self.code.push(Instruction::Open {
            length: 0,
            optional: false,
            repeated: false,
        })?;
        self.branch = self.code.len();
        self.empty = false;
        self.total = 0;
        self.last = 0;
        self.start = Place { cell: 0, count: 0 };
        Ok(())
    }

    /// Ends a branch of the innermost group; one of which nothing is kept is left out.
    fn bar(&mut self) -> Result<(), AllocError>
        requires { AreBegun self.old.cells self.old.groups }
        ensures built { OnOk result (self.new.built ≡ after_bar self.old.built) }
        ensures leaves { OnOk result (Leaves Token.Bar self.old self.new) }
    {
        self.total = capped_sum(self.total, self.last);
        self.last = 0;
        self.start = Place { cell: 0, count: 0 };
        if self.code.len() == self.branch {
            self.empty = true; // of a branch without code the group keeps that it may be left out
            return Ok(());
        }
        self.code.push(Instruction::Bar)?;
        self.branch = self.code.len();
        Ok(())
    }

    /// Ends the innermost group, which is then the last piece of the one around it.
    fn close(&mut self) -> Result<(), AllocError>
        requires { AreBegun self.old.cells self.old.groups }
        ensures built { OnOk result (self.new.built ≡ after_close self.old.built) }
        ensures leaves { OnOk result (Leaves Token.Close self.old self.new) }
    {
        if let Some(group) = self.begun.pop() {
            let positions = capped_sum(self.total, self.last);
            let start = Place {
                cell: group.cell,
                count: group.around.start,
            };
            close_group(&mut self.code, start, self.branch, self.empty, positions)?;
            self.total = group.around.total;
            self.last = positions;
            self.start = start;
            self.branch = group.around.branch;
            self.empty = group.around.empty;
        }
        Ok(())
    }

    /// Repeats the last piece, as the bounds say.
    fn repeat(&mut self, alloc: Global, least: u64, most: Option<u64>) -> Result<(), AllocError>
        requires { MayRepeatLast self.old }
        ensures built { OnOk result (self.new.built ≡ after_times least most self.old.built) }
        ensures leaves { OnOk result (Leaves (Token.Times least most) self.old self.new) }
    {
        let positions = self.last.saturating_mul(copies_kept(least, most));
        repeat_piece(alloc, &mut self.code, self.start, positions, least, most)?;
        self.last = positions.min(LIMIT + 1);
        Ok(())
    }

    /// Goes on with the token of this number.
    fn take(&mut self, alloc: Global, token: Token, at: usize) -> Result<(), AllocError>
        requires { MayTakeToken token self.old }
        ensures built { OnOk result (self.new.built ≡ after token at self.old.built) }
        ensures leaves { OnOk result (Leaves token self.old self.new) }
    {
        match token {
            Token::Open => self.open(),
            Token::Close => self.close(),
            Token::Bar => self.bar(),
            Token::Member { .. } => Ok(()),
            Token::Times { least, most } => self.repeat(alloc, least, most),
            _ => self.push_atom(at),
        }
    }
}

/// Compiles the tokens of a whole pattern, where each quantifier stands behind a piece.
pub fn compile(alloc: Global, tokens: &[Token]) -> Result<Vec<Instruction>, AllocError>
    requires { AreFollowing 1 false tokens.now }
    ensures { IfOk result (λ c. c.items ≡ (built_whole tokens.now).code) }
{
    let mut builder = Builder::new(alloc);
    builder.open()?;
    for (at, token) in tokens.iter().enumerate() {
        builder.take(alloc, *token, at)?;
    }
    builder.close()?;
    builder.into_code(alloc)
}
