//! The contents of files.
ghost use Rattle.std.specs.Prelude.{◌≡◌, ◌++◌, length, OnOk, OnErr, IfOk};
ghost use Rattle.iot_text.specs.Texts.{AppendsPart};
ghost use Rattle.iot_codec.specs.Outcomes.{IsOutcome, DecodesWhatIsSpelled};
ghost use Rattle.iot_codec.specs.Places.{IsSpelledAt, IsAlone};
ghost use Rattle.iot_views.specs.Decoding.{contents_at};
ghost use Rattle.iot_views.specs.Rules.{IsContents};
ghost use Rattle.iot_codec.specs.Spelling.{contents_spelling};
ghost use Rattle.iot_codec.specs.Laws.Values.{contents_laws};

use crate::CodecFault;
use crate::parts::put_counted;
use crate::spelled::{Spelled, read};
use iot_text::{NoMemory, Text};
use iot_tree::Blob;
use iot_views::contents_at;
use std::alloc::Global;

impl Spelled for Blob {
    ghost has_spelling = { IsContents };

    ghost spelling = { contents_spelling };

    ghost decoding = { contents_at };

    fn put(&self, out: &mut Text) -> Result<(), NoMemory> {
        put_counted(self.as_slice(), out)
    }

    fn read(alloc: Global, bytes: &[u8], at: usize) -> Result<(Blob, usize), CodecFault> {
        let (contents, end) = contents_at(bytes, at)?;
        let blob = Blob::from_slice(alloc, contents)?;
        Ok((blob, end))
    }

    ghost laws = { contents_laws };
}

/// Appends the spelling of contents: the number of their bytes, and then the bytes.
pub fn put_contents(value: &Blob, out: &mut Text) -> Result<(), NoMemory>
    requires { IsContents value.now }
    ensures ok { OnOk result (out.new ≡ out.old ++ contents_spelling value.now) }
    ensures err { OnErr result (AppendsPart out.old out.new (contents_spelling value.now)) }
{
    value.put(out)
}

/// Reads the contents that are spelled at the offset, and gives the offset after them.
///
/// # Errors
///
/// `Malformed` exactly if no contents are spelled there. `NoMemory` if there is none for them.
pub fn read_contents(alloc: Global, bytes: &[u8], at: usize) -> Result<(Blob, usize), CodecFault>
    ensures found { IfOk result (IsSpelledAt IsContents contents_spelling bytes.now at) }
    ensures only { DecodesWhatIsSpelled IsContents contents_spelling bytes.now at result }
    ensures one { IsAlone IsContents contents_spelling bytes.now at }
    ensures exact { IsOutcome result (contents_at bytes.now at) }
{
    read(alloc, bytes, at)
}
