//! Names.
ghost use Rattle.std.specs.Prelude.{◌≡◌, ◌++◌, length, OnOk, OnErr, IfOk, IfSome, Ok};
ghost use Rattle.iot_text.specs.Names.{IsName};
ghost use Rattle.iot_text.specs.Texts.{AppendsPart};
ghost use Rattle.iot_codec.specs.Outcomes.{IsOutcome, DecodesWhatIsSpelled};
ghost use Rattle.iot_codec.specs.Places.{IsSpelledAt, IsAlone};
ghost use Rattle.iot_views.specs.Decoding.{name_at};
ghost use Rattle.iot_codec.specs.Spelling.{name_spelling};
ghost use Rattle.iot_codec.specs.Laws.Values.{name_laws};

use crate::CodecFault;
use crate::parts::malformed;
use crate::spelled::{Spelled, read};
use iot_text::{NAME_LIMIT, Name, NoMemory, Text};
use iot_views::{bytes_at, number_at};
use std::alloc::Global;

impl Spelled for Name {
    ghost has_spelling = { IsName };

    ghost spelling = { name_spelling };

    ghost decoding = { name_at };

    /// In one piece, since a path has many of them.
    fn put(&self, out: &mut Text) -> Result<(), NoMemory> {
        let text = self.as_bytes();
        let mut spelled = [0; 8 + NAME_LIMIT];
        let end = 8 + text.len();
        spelled[..8].copy_from_slice(&(text.len() as u64).to_be_bytes());
        spelled[8..end].copy_from_slice(text);
        out.append(&spelled[..end])
    }

    #[tactic(auto, unfolding(iot_views::specs::Decoding::name_at))]
    fn read(_alloc: Global, bytes: &[u8], at: usize) -> Result<(Name, usize), CodecFault> {
        let (len, at) = number_at(bytes, at)?;
        let (text, end) = bytes_at(bytes, at, len)?;
        match Name::parse(text) {
            Ok(name) => Ok((name, end)),
            Err(_) => Err(malformed(at)),
        }
    }

    ghost laws = { name_laws };
}

/// The offset after the spelling of the name, if that is what lies at the offset.
#[inline]
#[tactic(auto, unfolding(iot_views::specs::Decoding::name_at))]
pub(crate) fn after_name(name: &Name, bytes: &[u8], at: usize) -> Option<usize>
    ensures { IfSome result (λ end. name_at bytes.now at ≡ Ok (name.now, end)) }
{
    let Ok((len, at)) = number_at(bytes, at) else {
        return None;
    };
    let Ok((text, end)) = bytes_at(bytes, at, len) else {
        return None;
    };
    if text != name.as_bytes() {
        return None;
    }
    Some(end)
}

/// Appends the spelling of the name: the number of its bytes, and then the bytes.
pub fn put_name(value: &Name, out: &mut Text) -> Result<(), NoMemory>
    ensures ok { OnOk result (out.new ≡ out.old ++ name_spelling value.now) }
    ensures err { OnErr result (AppendsPart out.old out.new (name_spelling value.now)) }
{
    value.put(out)
}

/// Reads the name that is spelled at the offset, and gives the offset after it.
///
/// # Errors
///
/// `Malformed` exactly if no name is spelled there.
pub fn read_name(alloc: Global, bytes: &[u8], at: usize) -> Result<(Name, usize), CodecFault>
    ensures found { IfOk result (IsSpelledAt IsName name_spelling bytes.now at) }
    ensures only { DecodesWhatIsSpelled IsName name_spelling bytes.now at result }
    ensures one { IsAlone IsName name_spelling bytes.now at }
    ensures exact { IsOutcome result (name_at bytes.now at) }
{
    read(alloc, bytes, at)
}
