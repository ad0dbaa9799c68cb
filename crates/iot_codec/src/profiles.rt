//! Profiles: what clients want to take along.
ghost use Rattle.std.specs.Prelude.{◌≡◌, ◌++◌, OnOk, OnErr, IfOk};
ghost use Rattle.iot_text.specs.Texts.{AppendsPart};
ghost use Rattle.iot_codec.specs.Outcomes.{IsOutcome, DecodesWhatIsSpelled};
ghost use Rattle.iot_codec.specs.Places.{IsSpelledAt, IsAlone};
ghost use Rattle.iot_tree.specs.Profiles.{IsWish, IsProfile};
ghost use Rattle.iot_views.specs.Decoding.{reach_at, wish_at, profile_at};
ghost use Rattle.iot_views.specs.Rules.{IsReach};
ghost use Rattle.iot_codec.specs.Spelling.{reach_spelling, wish_spelling, profile_spelling};
ghost use Rattle.iot_codec.specs.Laws.Profiles.{reach_laws, wish_laws, profile_laws};

use crate::CodecFault;
use crate::lists::{put_list, read_items};
use crate::parts::malformed;
use crate::spelled::{Spelled, read};
use iot_text::{NoMemory, Path, Text};
use iot_tree::{PRIORITY_LIMIT, Profile, Reach, WISH_LIMIT, Wish};
use iot_views::{at_most, from_to, tag_at};
use std::alloc::Global;

impl Spelled for Reach {
    ghost has_spelling = { IsReach };

    ghost spelling = { reach_spelling };

    ghost decoding = { reach_at };

    #[tactic(auto, unfolding(crate::specs::Spelling::reach_spelling))]
    fn put(&self, out: &mut Text) -> Result<(), NoMemory> {
        out.push(match self {
            Reach::Path => 0,
            Reach::Below => 1,
        })
    }

    #[tactic(auto, unfolding(iot_views::specs::Decoding::reach_at))]
    fn read(_alloc: Global, bytes: &[u8], at: usize) -> Result<(Reach, usize), CodecFault> {
        match tag_at(bytes, at) {
            Some(0) => Ok((Reach::Path, at + 1)),
            Some(1) => Ok((Reach::Below, at + 1)),
            _ => Err(malformed(at)),
        }
    }

    ghost laws = { reach_laws };
}

impl Spelled for Wish {
    ghost has_spelling = { IsWish };

    ghost spelling = { wish_spelling };

    ghost decoding = { wish_at };

    #[tactic(auto, unfolding(crate::specs::Spelling::wish_spelling))]
    fn put(&self, out: &mut Text) -> Result<(), NoMemory> {
        self.priority.put(out)?;
        self.path.put(out)?;
        self.reach.put(out)
    }

    #[tactic(auto, unfolding(iot_views::specs::Decoding::wish_at))]
    fn read(alloc: Global, bytes: &[u8], at: usize) -> Result<(Wish, usize), CodecFault> {
        let (priority, at) = from_to(1, PRIORITY_LIMIT, bytes, at)?;
        let (path, at) = Path::read(alloc, bytes, at)?;
        let (reach, end) = Reach::read(alloc, bytes, at)?;
        let wish = Wish {
            priority,
            path,
            reach,
        };
        Ok((wish, end))
    }

    ghost laws = { wish_laws };
}

impl Spelled for Profile {
    ghost has_spelling = { IsProfile };

    ghost spelling = { profile_spelling };

    ghost decoding = { profile_at };

    fn put(&self, out: &mut Text) -> Result<(), NoMemory> {
        put_list(self.as_slice(), out)
    }

    #[tactic(auto, unfolding(iot_views::specs::Decoding::profile_at))]
    fn read(alloc: Global, bytes: &[u8], at: usize) -> Result<(Profile, usize), CodecFault> {
        let (count, at) = at_most(WISH_LIMIT as u64, bytes, at)?;
        read_items(alloc, count, bytes, at)
    }

    ghost laws = { profile_laws };
}

/// Appends the spelling of the profile: the number of its wishes, and then each wish: its priority, its path, and one byte that is
/// 0, or 1 if it reaches below the path.
pub fn put_profile(value: &Profile, out: &mut Text) -> Result<(), NoMemory>
    requires { IsProfile value.now }
    ensures ok { OnOk result (out.new ≡ out.old ++ profile_spelling value.now) }
    ensures err { OnErr result (AppendsPart out.old out.new (profile_spelling value.now)) }
{
    value.put(out)
}

/// Reads the profile that is spelled at the offset, and gives the offset after it.
///
/// # Errors
///
/// `Malformed` exactly if no profile is spelled there: also if there are too many wishes or a priority is beyond its limits.
/// `NoMemory` if there is none for it.
pub fn read_profile(alloc: Global, bytes: &[u8], at: usize) -> Result<(Profile, usize), CodecFault>
    ensures found { IfOk result (IsSpelledAt IsProfile profile_spelling bytes.now at) }
    ensures only { DecodesWhatIsSpelled IsProfile profile_spelling bytes.now at result }
    ensures one { IsAlone IsProfile profile_spelling bytes.now at }
    ensures exact { IsOutcome result (profile_at bytes.now at) }
{
    read(alloc, bytes, at)
}
