//! Files that are kept: contents by their paths.
ghost use Rattle.std.specs.Prelude.{◌≡◌, ◌++◌, length, OnOk, OnErr, IfOk};
ghost use Rattle.iot_text.specs.Texts.{AppendsPart};
ghost use Rattle.iot_codec.specs.Outcomes.{IsOutcome, DecodesWhatIsSpelled};
ghost use Rattle.iot_codec.specs.Places.{IsSpelledAt, IsAlone};
ghost use Rattle.iot_views.specs.Decoding.{files_at};
ghost use Rattle.iot_views.specs.Rules.{AreFiles};
ghost use Rattle.iot_codec.specs.Spelling.{files_spelling};
ghost use Rattle.iot_codec.specs.Laws.Values.{files_laws};

use crate::CodecFault;
use crate::spelled::{Spelled, read};
use crate::tables::{put_table, read_table};
use iot_text::{NoMemory, Text};
use iot_tree::Files;
use std::alloc::Global;

impl Spelled for Files {
    ghost has_spelling = { AreFiles };

    ghost spelling = { files_spelling };

    ghost decoding = { files_at };

    fn put(&self, out: &mut Text) -> Result<(), NoMemory> {
        put_table(self.as_slice(), out)
    }

    #[tactic(auto, unfolding(iot_views::specs::Decoding::files_at))]
    fn read(alloc: Global, bytes: &[u8], at: usize) -> Result<(Files, usize), CodecFault> {
        read_table(alloc, bytes, at)
    }

    ghost laws = { files_laws };
}

/// Appends the spelling of the files: their number, and then of each its path and its contents.
pub fn put_files(value: &Files, out: &mut Text) -> Result<(), NoMemory>
    requires { AreFiles value.now }
    ensures ok { OnOk result (out.new ≡ out.old ++ files_spelling value.now) }
    ensures err { OnErr result (AppendsPart out.old out.new (files_spelling value.now)) }
{
    value.put(out)
}

/// Reads the files that are spelled at the offset, and gives the offset after them.
///
/// # Errors
///
/// `Malformed` exactly if no files are spelled there. `NoMemory` if there is none for them.
pub fn read_files(alloc: Global, bytes: &[u8], at: usize) -> Result<(Files, usize), CodecFault>
    ensures found { IfOk result (IsSpelledAt AreFiles files_spelling bytes.now at) }
    ensures only { DecodesWhatIsSpelled AreFiles files_spelling bytes.now at result }
    ensures one { IsAlone AreFiles files_spelling bytes.now at }
    ensures exact { IsOutcome result (files_at bytes.now at) }
{
    read(alloc, bytes, at)
}
