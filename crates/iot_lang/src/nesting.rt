//! The blocks that are open while the lines of a script are taken.
ghost use Rattle.std.specs.Prelude.{◌≡◌, ◌≢◌, ◌≤◌, ◌+◌, ◌∷◌, [], None, Err, OnOk, IfSome, IfNone, IsOkUnless, ℕ, List, length};
ghost use Rattle.iot_lang.specs.Scripts.{Spell, IsOpen};
ghost use Rattle.iot_lang.specs.Nesting.{HasTaken, closed_by, stack_of, lines_so_far, IsSound, Adds, Opens, Moves, IsFull};
ghost use Rattle.iot_lang.specs.OpenBlocks.{open_after};
ghost use Rattle.iot_lang.specs.declared.lines.Line.TheVariants as says;

use crate::blocks::{Block, Stmt};
use crate::faults::LineFault;
use crate::lines::Line;
use crate::scripts::Script;
use crate::words::{Cond, Word};
use iot_text::Text;
use std::alloc::Global;
use std::mem;

/// How deep blocks nest at most.
pub const DEPTH_LIMIT: usize = 16;

/// How the statement of an open block begins.
#[derive(Drop)]
pub(crate) enum Head {
    If(Cond),
    Else(Cond, Block),
    For(Text, Word),
}

/// An open block: the statements before the one that it belongs to, and how that one begins.
#[derive(Drop)]
pub(crate) struct Open {
    before: Vec<Stmt>,
    head: Head,
}

/// The lines so far: the open blocks from the outermost on, and the statements in the innermost.
#[derive(Drop)]
pub(crate) struct Nesting {
    open: Vec<Open>,
    statements: Vec<Stmt>,
}

impl Head {
    /// The statement whose last block is this body.
    fn closed(self, body: Block) -> Stmt
        ensures { result ≡ closed_by self body }
    {
        match self {
            Head::If(condition) => Stmt::If {
                condition,
                body,
                otherwise: None,
            },
            Head::Else(condition, first) => Stmt::If {
                condition,
                body: first,
                otherwise: Some(body),
            },
            Head::For(variable, path) => Stmt::For {
                variable,
                path,
                body,
            },
        }
    }
}

impl Nesting {
    /// No line so far.
    pub(crate) fn new(alloc: Global) -> Nesting
        ensures empty { lines_so_far result ≡ [] }
        ensures sound { IsSound result }
    {
        Nesting {
            open: Vec::new(alloc),
            statements: Vec::new(alloc),
        }
    }

    /// Takes the next line. After an `Err` do not use the lines so far.
    pub(crate) fn take(&mut self, alloc: Global, line: Line) -> Result<(), LineFault>
        ensures moves { OnOk result (Moves self.old line self.new) }
        ensures bad { result ≡ Err LineFault.BadStatement → open_after (DEPTH_LIMIT + 1) (stack_of self.old) (line ∷ []) ≡ None }
        ensures deep { result ≡ Err LineFault.TooDeep → IsFull self.old line }
    {
        match line {
            Line::Do(command) => self.add(Stmt::Do(command)),
            Line::Stop => self.add(Stmt::Stop),
            Line::If(condition) => self.open(alloc, Head::If(condition)),
            Line::For(variable, path) => self.open(alloc, Head::For(variable, path)),
            Line::Else => self.turn(alloc),
            Line::Close => self.close(),
        }
    }

    /// Adds a whole statement.
    fn add(&mut self, statement: Stmt) -> Result<(), LineFault>
        ensures adds { OnOk result (Adds self.old statement self.new) }
        ensures no_memory { IsOkUnless result LineFault.NoMemory }
    {
        self.statements.push(statement)?;
        Ok(())
    }

    /// Opens a block.
    fn open(&mut self, alloc: Global, head: Head) -> Result<(), LineFault>
        ensures opens { OnOk result (Opens self.old head self.new) }
        ensures not_bad { result ≢ Err LineFault.BadStatement }
        ensures deep { result ≡ Err LineFault.TooDeep → DEPTH_LIMIT ≤ length (stack_of self.old) }
    {
        if self.open.len() >= DEPTH_LIMIT {
            return Err(LineFault::TooDeep);
        }
        let before = mem::replace(&mut self.statements, Vec::new(alloc));
        self.open.push(Open { before, head })?;
        Ok(())
    }

    /// Ends the first block of an `if` and opens its else block.
    fn turn(&mut self, alloc: Global) -> Result<(), LineFault>
        ensures moves { OnOk result (Moves self.old says.Else self.new) }
        ensures bad { result ≡ Err LineFault.BadStatement → open_after (DEPTH_LIMIT + 1) (stack_of self.old) (says.Else ∷ []) ≡ None }
        ensures not_deep { result ≢ Err LineFault.TooDeep }
    {
        let Some(Open { before, head }) = self.open.pop() else {
            return Err(LineFault::BadStatement);
        };
        let Head::If(condition) = head else {
            return Err(LineFault::BadStatement);
        };
        let first = Block::of(mem::replace(&mut self.statements, Vec::new(alloc)));
        let head = Head::Else(condition, first);
        self.open.push(Open { before, head })?;
        Ok(())
    }

    /// Ends the innermost block.
    fn close(&mut self) -> Result<(), LineFault>
        ensures moves { OnOk result (Moves self.old says.Close self.new) }
        ensures bad { result ≡ Err LineFault.BadStatement → open_after (DEPTH_LIMIT + 1) (stack_of self.old) (says.Close ∷ []) ≡ None }
        ensures not_deep { result ≢ Err LineFault.TooDeep }
    {
        let Some(Open { before, head }) = self.open.pop() else {
            return Err(LineFault::BadStatement);
        };
        let body = Block::of(mem::replace(&mut self.statements, before));
        self.statements.push(head.closed(body))?;
        Ok(())
    }

    /// The script, if no block is open.
    pub(crate) fn finish(self) -> Option<Script>
        requires { (texts : List (List ℕ)) × HasTaken self texts }
        ensures found { IfSome result (λ script. (texts : List (List ℕ)) → HasTaken self texts → Spell texts script) }
        ensures none { IfNone result ((texts : List (List ℕ)) → HasTaken self texts → IsOpen texts (length texts)) }
    {
        let Nesting { open, statements } = self;
        if !open.is_empty() {
            return None;
        }
        Some(Script::of(Block::of(statements)))
    }
}
