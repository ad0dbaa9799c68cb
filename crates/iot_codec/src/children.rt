//! What is in a directory: names with the kinds of the objects.
ghost use Rattle.iot_views.specs.Rules.{IsObject, AreChildren};
ghost use Rattle.iot_views.specs.Decoding.{kind_at, children_at};
ghost use Rattle.iot_codec.specs.Spelling.{kind_spelling, children_spelling};
ghost use Rattle.iot_codec.specs.Laws.Values.{kind_laws, children_laws};

use crate::CodecFault;
use crate::spelled::Spelled;
use crate::tables::{put_table, read_table};
use iot_text::{NoMemory, Text};
use iot_tree::{Children, Kind};
use iot_views::kind_at;
use std::alloc::Global;

impl Spelled for Kind {
    ghost has_spelling = { IsObject };

    ghost spelling = { kind_spelling };

    ghost decoding = { kind_at };

    #[tactic(auto, unfolding(crate::specs::Spelling::kind_spelling))]
    fn put(&self, out: &mut Text) -> Result<(), NoMemory> {
        out.push(match self {
            Kind::Away => 1,
            Kind::Absent => 2,
            Kind::IsDir => 3,
            Kind::IsFile => 4,
        })
    }

    fn read(_alloc: Global, bytes: &[u8], at: usize) -> Result<(Kind, usize), CodecFault> {
        Ok(kind_at(bytes, at)?)
    }

    ghost laws = { kind_laws };
}

impl Spelled for Children {
    ghost has_spelling = { AreChildren };

    ghost spelling = { children_spelling };

    ghost decoding = { children_at };

    fn put(&self, out: &mut Text) -> Result<(), NoMemory> {
        put_table(self.as_slice(), out)
    }

    #[tactic(auto, unfolding(iot_views::specs::Decoding::children_at))]
    fn read(alloc: Global, bytes: &[u8], at: usize) -> Result<(Children, usize), CodecFault> {
        read_table(alloc, bytes, at)
    }

    ghost laws = { children_laws };
}
