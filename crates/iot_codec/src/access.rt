//! Accesses: what a transaction asks of the tree before it, and its updates.
ghost use Rattle.std.specs.Prelude.{◌≡◌, ◌++◌, length, OnOk, OnErr, IfOk};
ghost use Rattle.iot_text.specs.Texts.{AppendsPart};
ghost use Rattle.iot_codec.specs.Outcomes.{IsOutcome, DecodesWhatIsSpelled};
ghost use Rattle.iot_codec.specs.Places.{IsSpelledAt, IsAlone};
ghost use Rattle.iot_views.specs.Decoding.{base_at, bases_at, access_at};
ghost use Rattle.iot_views.specs.Rules.{IsAccess};
ghost use Rattle.iot_codec.specs.Spelling.{base_spelling, bases_spelling, access_spelling};
ghost use Rattle.iot_codec.specs.Laws.Bases.{access_laws};

use crate::CodecFault;
use crate::lists::{put_list, read_list};
use crate::spelled::{Spelled, read};
use iot_text::{NoMemory, Text};
use iot_tree::{Access, Places, Read, Reads, Update};
use iot_views::number_at;
use std::alloc::Global;

/// Appends a base read: the read, and then its place.
fn put_base(base: &Read, place: u64, out: &mut Text) -> Result<(), NoMemory>
    ensures ok { OnOk result (out.new ≡ out.old ++ base_spelling (base.now, place)) }
    ensures err { OnErr result (AppendsPart out.old out.new (base_spelling (base.now, place))) }
{
    base.put(out)?;
    place.put(out)
}

/// Appends base reads: their number, and then each read with its place.
fn put_bases(reads: &[Read], places: &[u64], out: &mut Text) -> Result<(), NoMemory>
    ensures ok { OnOk result (out.new ≡ out.old ++ bases_spelling (reads.now, places.now)) }
    ensures err { OnErr result (AppendsPart out.old out.new (bases_spelling (reads.now, places.now))) }
{
    let count = reads.len().min(places.len());
    (count as u64).put(out)?;
    'bases: for (base, place) in reads.iter().zip(places) {
        put_base(base, *place, out)?;
    }
    Ok(())
}

/// Reads a base read.
#[tactic(auto, unfolding(iot_views::specs::Decoding::base_at))]
fn read_base(alloc: Global, bytes: &[u8], at: usize) -> Result<((Read, u64), usize), CodecFault>
    ensures { IsOutcome result (base_at bytes.now at) }
{
    let (base, at) = Read::read(alloc, bytes, at)?;
    let (place, end) = number_at(bytes, at)?;
    Ok(((base, place), end))
}

/// Reads base reads, and gives the reads and their places.
fn read_bases(
    alloc: Global,
    bytes: &[u8],
    at: usize,
) -> Result<((Reads, Places), usize), CodecFault>
    ensures { IsOutcome result (bases_at bytes.now at) }
{
    let (count, at) = number_at(bytes, at)?;
    let mut reads = Reads::new(alloc);
    let mut places = Places::new(alloc);
    let mut end = at;
    'bases: for _ in 0..count {
        let ((base, place), after) = read_base(alloc, bytes, end)?;
        reads.push(base)?;
        places.push(place)?;
        end = after;
    }
    Ok(((reads, places), end))
}

impl Spelled for Access {
    ghost has_spelling = { IsAccess };

    ghost spelling = { access_spelling };

    ghost decoding = { access_at };

    #[tactic(auto, unfolding(crate::specs::Spelling::access_spelling))]
    fn put(&self, out: &mut Text) -> Result<(), NoMemory> {
        put_bases(self.reads.as_slice(), self.places.as_slice(), out)?;
        put_list(self.updates.as_slice(), out)
    }

    #[tactic(auto, unfolding(iot_views::specs::Decoding::access_at))]
    fn read(alloc: Global, bytes: &[u8], at: usize) -> Result<(Access, usize), CodecFault> {
        let ((reads, places), at) = read_bases(alloc, bytes, at)?;
        let (updates, end) = read_list::<Update>(alloc, bytes, at)?;
        let access = Access {
            reads,
            updates,
            places,
        };
        Ok((access, end))
    }

    ghost laws = { access_laws };
}

/// Appends the spelling of the access: the number of its base reads, of each its question, its answer and its place, and
/// then its updates. It has as many places as reads.
pub fn put_access(value: &Access, out: &mut Text) -> Result<(), NoMemory>
    requires even { length value.now.places ≡ length value.now.reads }
    ensures ok { OnOk result (out.new ≡ out.old ++ access_spelling value.now) }
    ensures err { OnErr result (AppendsPart out.old out.new (access_spelling value.now)) }
{
    value.put(out)
}

/// Reads the access that is spelled at the offset, and gives the offset after it. It has as many places as reads.
///
/// # Errors
///
/// `Malformed` exactly if no access is spelled there. `NoMemory` if there is none for it.
pub fn read_access(alloc: Global, bytes: &[u8], at: usize) -> Result<(Access, usize), CodecFault>
    ensures found { IfOk result (IsSpelledAt IsAccess access_spelling bytes.now at) }
    ensures only { DecodesWhatIsSpelled IsAccess access_spelling bytes.now at result }
    ensures one { IsAlone IsAccess access_spelling bytes.now at }
    ensures exact { IsOutcome result (access_at bytes.now at) }
{
    read(alloc, bytes, at)
}
