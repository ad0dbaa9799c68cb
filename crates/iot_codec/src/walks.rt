//! Limits of walks: how much is taken along.
ghost use Rattle.std.specs.Prelude.{◌≡◌, ◌++◌, OnOk, OnErr, IfOk};
ghost use Rattle.iot_text.specs.Texts.{AppendsPart};
ghost use Rattle.iot_codec.specs.Outcomes.{IsOutcome, DecodesWhatIsSpelled};
ghost use Rattle.iot_codec.specs.Places.{IsSpelledAt, IsAlone};
ghost use Rattle.iot_tree.specs.Profiles.{IsWalkLimit};
ghost use Rattle.iot_views.specs.Decoding.{walk_limit_at};
ghost use Rattle.iot_codec.specs.Spelling.{number_spelling};

use crate::CodecFault;
use crate::spelled::Spelled;
use iot_text::{NoMemory, Text};
use iot_tree::WALK_LIMIT;
use iot_views::from_to;

/// Appends the limit, which is a number.
pub fn put_walk_limit(value: &u64, out: &mut Text) -> Result<(), NoMemory>
    requires { IsWalkLimit value.now }
    ensures ok { OnOk result (out.new ≡ out.old ++ number_spelling value.now) }
    ensures err { OnErr result (AppendsPart out.old out.new (number_spelling value.now)) }
{
    value.put(out)
}

/// Reads the limit that is spelled at the offset, and gives the offset after it.
///
/// # Errors
///
/// `Malformed` exactly if no limit is spelled there: also if the number there is 0, or greater than a limit may be.
pub fn read_walk_limit(bytes: &[u8], at: usize) -> Result<(u64, usize), CodecFault>
    ensures found { IfOk result (IsSpelledAt IsWalkLimit number_spelling bytes.now at) }
    ensures only { DecodesWhatIsSpelled IsWalkLimit number_spelling bytes.now at result }
    ensures one { IsAlone IsWalkLimit number_spelling bytes.now at }
    ensures exact { IsOutcome result (walk_limit_at bytes.now at) }
{
    walk_limit_at(bytes, at)
}

/// Reads the limit.
fn walk_limit_at(bytes: &[u8], at: usize) -> Result<(u64, usize), CodecFault>
    ensures { IsOutcome result (walk_limit_at bytes.now at) }
{
    Ok(from_to(1, WALK_LIMIT, bytes, at)?)
}
