//! The place in a script at which its next act is done.
ghost use Rattle.std.specs.Prelude.{◌≡◌, ◌+◌, ◌++◌, [], OnOk, IfSome, IfNone};
ghost use Rattle.std.specs.Option.{option_copied};
ghost use Rattle.iot_lang.specs.Code.{Code, End};
ghost use Rattle.iot_lang.specs.Blocks.{code_of_statements};
ghost use Rattle.iot_exec.specs.Positions.{rest_of, skip, block_code, block_in, round_it, left_in, here, around, role_weight, weight};
ghost use Rattle.iot_exec.specs.Positions.{AreInnermost, IsFirst};

use iot_lang::{Block, Stmt};
use iot_text::{Name, NoMemory, Text};
use iot_tree::Sequence;
use std::alloc::Global;
use std::mem::replace;

/// What a block is.
#[derive(Drop)]
pub(crate) enum Role {
    /// The script.
    Script,

    /// What is done if a condition holds.
    Body,

    /// What is done if it does not.
    Otherwise,

    /// A turn of a loop: its variable, the names of all turns, and the place of the next turn's name.
    Turn {
        variable: Text,
        names: Sequence<Name>,
        next: usize,
    },
}

/// A block that is being done.
#[derive(Drop)]
pub(crate) struct Open {
    pub(crate) role: Role,

    /// The place of the statement that is next, or that has the next block in it.
    pub(crate) at: usize,
}

/// The block that is being done, and those round it from the outermost inwards.
#[derive(Drop)]
pub(crate) struct Position {
    pub(crate) outer: Vec<Open>,
    pub(crate) here: Open,
}

/// The statements from this place on.
fn from(statements: &[Stmt], at: usize) -> &[Stmt]
    ensures { code_of_statements result.now ≡ skip at (code_of_statements statements.now) }
{
    if at < statements.len() {
        &statements[at..]
    } else {
        &[]
    }
}

/// The statements of a block, if there is one.
fn statements_of(block: Option<&Block>) -> &[Stmt]
    ensures { code_of_statements result.now ≡ block_code (option_copied block.entry) }
{
    match block {
        Some(block) => block.statements(),
        None => &[],
    }
}

impl Position {
    /// At the first statement of a script. Does not allocate.
    pub(crate) fn start(alloc: Global) -> Position
        ensures here { (script : Code) → here script result ≡ script }
        ensures around { (script : Code) → around script result ≡ [] }
    {
        Position {
            outer: Vec::new(alloc),
            here: Open {
                role: Role::Script,
                at: 0,
            },
        }
    }

    /// After the last statement of a script. Does not allocate.
    pub(crate) fn after(alloc: Global, script: &Block) -> Position
        ensures { here script.now result ≡ End }
    {
        Position {
            outer: Vec::new(alloc),
            here: Open {
                role: Role::Script,
                at: script.statements().len(),
            },
        }
    }

    /// The statements of the innermost block, which are found by a walk through the blocks round it.
    pub(crate) fn statements<'s>(&self, script: &'s Block) -> &'s [Stmt]
        ensures { AreInnermost script.now result.now self.now }
    {
        let mut statements: &[Stmt] = &[];
        'outer: for open in &self.outer {
            statements = from(open.block_in(script, statements), open.at);
        }
        self.here.block_in(script, statements)
    }

    /// The statements that are next, of those of the innermost block.
    pub(crate) fn rest<'s>(&self, statements: &'s [Stmt]) -> &'s [Stmt]
        ensures { (script : Code) → AreInnermost script statements.now self.now → code_of_statements result.now ≡ here script self.now }
    {
        from(statements, self.here.at)
    }

    /// The statement that is next, if there is one.
    pub(crate) fn statement<'s>(&self, script: &'s Block) -> Option<&'s Stmt>
        ensures { IsFirst (option_copied result) (here script.now self.now) }
    {
        self.next_of(self.statements(script))
    }

    /// The same, of the statements of the innermost block.
    pub(crate) fn next_of<'s>(&self, statements: &'s [Stmt]) -> Option<&'s Stmt>
        ensures { (script : Code) → AreInnermost script statements.now self.now → IsFirst (option_copied result) (here script self.now) }
    {
        self.rest(statements).first()
    }

    /// Goes past the statement that is next, if there is one, of those of the innermost block.
    pub(crate) fn advance(&mut self, statements: &[Stmt])
        ensures here { (script : Code) → AreInnermost script statements.now self.old
            → here script self.new ≡ rest_of (here script self.old) }
        ensures around { (script : Code) → around script self.new ≡ around script self.old }
        ensures weight { weight self.new ≡ weight self.old }
        ensures block { (script : Code) → AreInnermost script statements.now self.old → AreInnermost script statements.now self.new }
    {
        if self.here.at < statements.len() {
            self.here.at += 1;
        }
    }

    /// Begins a block of the statement that is next.
    pub(crate) fn enter(&mut self, role: Role) -> Result<(), NoMemory>
        ensures here { OnOk result ((script : Code) → here script self.new ≡ block_in script (here script self.old) role) }
        ensures around { OnOk result
            ((script : Code) → around script self.new ≡ round_it (here script self.old) role ++ around script self.old) }
        ensures weight { OnOk result (weight self.new ≡ weight self.old + role_weight role) }
    {
        let outer = replace(&mut self.here, Open { role, at: 0 });
        self.outer.push(outer)?;
        Ok(())
    }

    /// Leaves the innermost block, if another one is round it.
    pub(crate) fn leave(&mut self) -> Option<Role>
        ensures left { IfSome result
            (λ role. (script : Code) → around script self.old ≡ round_it (here script self.new) role ++ around script self.new) }
        ensures weight { IfSome result (λ role. weight self.old ≡ weight self.new + role_weight role) }
        ensures alone { IfNone result ((script : Code) → around script self.old ≡ []) }
        ensures stays { IfNone result ((script : Code) → here script self.new ≡ here script self.old) }
        ensures around { IfNone result ((script : Code) → around script self.new ≡ around script self.old) }
    {
        match self.outer.pop() {
            Some(outer) => Some(replace(&mut self.here, outer).role),
            None => None,
        }
    }
}

impl Open {
    /// The statements of this block, which stands in the first of the given ones.
    fn block_in<'s>(&self, script: &'s Block, statements: &'s [Stmt]) -> &'s [Stmt]
        ensures { code_of_statements result.now ≡ block_in script.now (code_of_statements statements.now) self.now.role }
    {
        match (&self.role, statements.first()) {
            (Role::Script, _) => script.statements(),
            (Role::Body, Some(Stmt::If { body, .. })) => body.statements(),
            (Role::Otherwise, Some(Stmt::If { otherwise, .. })) => statements_of(
                otherwise.as_ref(),
            ),
            (Role::Turn { .. }, Some(Stmt::For { body, .. })) => body.statements(),
            _ => &[],
        }
    }
}
