//! Names that copies share.
ghost use Rattle.std.specs.Prelude.{◌≡◌, ◌++◌, ◌∷◌, [], IfOk};
ghost use Rattle.iot_text.specs.Shared.{names_in};

use crate::{Name, NoMemory};
use std::alloc::Global;
use std::marker::Model;
use std::rc::Rc;

/// How many names have a block of just their size.
const FEW: usize = 4;

/// Names that copies share, in one block of memory if they are few. Contracts see them as their list.
#[derive(Clone, Debug, Drop)]
pub(crate) struct SharedNames {
    /// The block; None of no names, which take no memory.
    block: Option<Rc<Block>>,
}

/// The names, in the block itself if they are few.
#[derive(Debug, Drop)]
enum Block {
    One([Name; 1]),
    Two([Name; 2]),
    Three([Name; 3]),
    Four([Name; 4]),
    Many(Vec<Name>),
}

impl Model for SharedNames {
    ghost use Rattle.std.specs.Prelude.{ℕ, List, []};
    ghost use Rattle.std.specs.Option.{option_map_or};
    ghost use Rattle.iot_text.specs.Shared.{names_in};

    ghost Value = { List (List ℕ) };

    ghost view = { λ shared. option_map_or (λ block. names_in block.value) shared.block [] };
}

impl Block {
    /// The names in it.
    #[inline]
    fn names(&self) -> &[Name]
        ensures { result.now ≡ names_in self.now }
    {
        match self {
            Block::One(names) => names.as_slice(),
            Block::Two(names) => names.as_slice(),
            Block::Three(names) => names.as_slice(),
            Block::Four(names) => names.as_slice(),
            Block::Many(names) => names.as_slice(),
        }
    }
}

impl SharedNames {
    /// No names. Does not allocate.
    #[inline]
    pub fn none() -> SharedNames
        ensures { result ≡ [] }
    {
        SharedNames { block: None }
    }

    /// The names in this block.
    #[inline]
    fn on(alloc: Global, block: Block) -> Result<SharedNames, NoMemory>
        ensures { IfOk result (λ shared. shared ≡ names_in block) }
    {
        Ok(SharedNames {
            block: Some(Rc::new(alloc, block)?),
        })
    }

    /// These names, in memory of their own.
    pub fn of(alloc: Global, names: &[Name]) -> Result<SharedNames, NoMemory>
        ensures { IfOk result (λ shared. shared ≡ names.now) }
    {
        let block = match names {
            [] => return Ok(SharedNames::none()),
            [a] => Block::One([*a]),
            [a, b] => Block::Two([*a, *b]),
            [a, b, c] => Block::Three([*a, *b, *c]),
            [a, b, c, d] => Block::Four([*a, *b, *c, *d]),
            _ => Block::Many(Vec::from_slice(alloc, names)?),
        };
        SharedNames::on(alloc, block)
    }

    /// These names: the list itself, if they are many.
    pub fn of_vec(names: Vec<Name>) -> Result<SharedNames, NoMemory>
        ensures { IfOk result (λ shared. shared ≡ names.items) }
    {
        let alloc = *names.allocator();
        if names.len() <= FEW {
            return SharedNames::of(alloc, &names);
        }
        SharedNames::on(alloc, Block::Many(names))
    }

    /// The names of both lists, one list after the other, in memory of their own.
    pub fn of_both(alloc: Global, front: &[Name], back: &[Name]) -> Result<SharedNames, NoMemory>
        ensures { IfOk result (λ shared. shared ≡ front.now ++ back.now) }
    {
        match (front, back) {
            ([], _) => SharedNames::of(alloc, back),
            (_, []) => SharedNames::of(alloc, front),
            ([a], [b]) => SharedNames::of(alloc, &[*a, *b]),
            ([a], [b, c]) => SharedNames::of(alloc, &[*a, *b, *c]),
            ([a, b], [c]) => SharedNames::of(alloc, &[*a, *b, *c]),
            _ => SharedNames::of_many(alloc, front, back),
        }
    }

    /// The same of many names.
    fn of_many(alloc: Global, front: &[Name], back: &[Name]) -> Result<SharedNames, NoMemory>
        ensures { IfOk result (λ shared. shared ≡ front.now ++ back.now) }
    {
        let mut names = Vec::with_capacity(alloc, front.len() + back.len())?;
        names.extend_from_slice(front)?;
        names.extend_from_slice(back)?;
        SharedNames::on(alloc, Block::Many(names))
    }

    /// The same names: they share their memory. Does not allocate.
    ///
    /// # Errors
    ///
    /// Only if they are shared more often than can be counted.
    #[inline]
    pub fn copy(&self) -> Result<SharedNames, NoMemory>
        ensures { IfOk result (λ shared. shared ≡ self.now) }
    {
        let block = match &self.block {
            Some(block) => Some(Rc::clone(block)?),
            None => None,
        };
        Ok(SharedNames { block })
    }

    /// The names.
    #[inline]
    pub fn as_slice(&self) -> &[Name]
        ensures { result.now ≡ self.now }
    {
        match &self.block {
            Some(block) => block.names(),
            None => &[],
        }
    }
}
