//! Paths: lists of names.
ghost use Rattle.std.specs.Prelude.{ℕ, List, [], ◌∷◌, ◌++◌, ◌≡◌, ◌≢◌, ◌↔◌, IsTrue, IfOk, IfErr, OnOk, OnErr, IfSome, option_copied, Some};
ghost use Rattle.std.specs.Prelude.{None, refl, nat_eq};
ghost use Rattle.std.specs.Ordering.{nat_cmp};
ghost use Rattle.std.specs.Cmp.{partial_equiv_from_equiv, po};
ghost use Rattle.std.specs.Cmp.Lexicographic.{pointwise, slice_cmp, nat_list_eq_equiv, nat_list_cmp_total, texts_ties, lists_equiv};
ghost use Rattle.std.specs.Cmp.Lexicographic.{lists_total, lists_ties};
ghost use Rattle.iot_text.specs.Paths.{IsPath, IsPathText, RefusesPath, is_slash, path_of, path_text, last_of, parent_of, IsBelow};
ghost use Rattle.iot_text.specs.Paths.{is_below, path_cmp};
ghost use Rattle.iot_text.specs.Texts.{AppendsPart};
ghost use Rattle.std.specs.List.{position_or_len};

use crate::names::beginning_len;
use crate::shared::SharedNames;
use crate::{Name, NoMemory, Text, TextFault};
use std::alloc::Global;
use std::cmp::Ordering;
use std::marker::Model;

/// A path: the names on the way down from the root, whose own path has none.
/// Contracts see it as the list of its names. Copies share them.
#[derive(Clone, Debug, Drop)]
pub struct Path {
    names: SharedNames,
}

impl Model for Path {
    ghost use Rattle.std.specs.Prelude.{ℕ, List};
    ghost use Rattle.iot_text.specs.Paths.{IsPath};

    ghost Value = { List (List ℕ) };

    ghost view = { λ path. path.names };

    ghost invariant = { λ path. IsPath path.names };
}

/// How many bytes come before the first `/`, or in all if there is none.
fn part_len(text: &[u8]) -> usize
    ensures { result ≡ position_or_len is_slash text.now }
{
    'bytes: for (len, byte) in text.iter().enumerate() {
        if *byte == b'/' {
            return len;
        }
    }
    text.len()
}

/// Appends a `/` and the name.
fn append_name(name: &Name, out: &mut Text) -> Result<(), NoMemory>
    ensures ok { OnOk result (out.new ≡ out.old ++ 47 ∷ name.now) }
    ensures err { OnErr result (AppendsPart out.old out.new (47 ∷ name.now)) }
{
    out.push(b'/')?;
    out.append(name.as_bytes())
}

impl Path {
    /// Parses the text of a path.
    ///
    /// # Errors
    ///
    /// `BadPath`, exactly if the text is that of no path: its first `at` bytes begin the text of
    /// some path, and no more of them do. `NoMemory` if memory runs out.
    pub fn parse(alloc: Global, text: &[u8]) -> Result<Path, TextFault>
        ensures ok { IfOk result (IsPathText text.now) }
        ensures refused { IfErr result (RefusesPath text.now) }

        // The same by the function that parses a path.
        ensures found { IfOk result (λ path. path_of text.now ≡ Some path) }
        ensures none { IfErr result (λ fault.
            fault ≢ TextFault.NoMemory → path_of text.now ≡ None) }
    {
        if text.is_empty() || text[0] != b'/' {
            return Err(TextFault::BadPath { at: 0 });
        }
        if text.len() == 1 {
            return Ok(Path {
                names: SharedNames::none(),
            });
        }
        let mut names = Vec::new(alloc);
        let mut start = 1;
        'parts: loop {
            let rest = &text[start..];
            let len = part_len(rest);
            let Ok(name) = Name::parse(&rest[..len]) else {
                let at = start + beginning_len(rest);
                return Err(TextFault::BadPath { at: at as u64 });
            };
            names.push(name)?;
            start += len;
            if start == text.len() {
                return Ok(Path::from_names(names)?);
            }
            start += 1;
        }
    }

    /// The path of the root. Does not allocate.
    pub fn root(_alloc: Global) -> Path
        ensures { result ≡ [] }
    {
        Path {
            names: SharedNames::none(),
        }
    }

    /// A path of these names, which its copies share.
    pub fn from_names(names: Vec<Name>) -> Result<Path, NoMemory>
        requires { IsPath names.items }
        ensures { IfOk result (λ path. path ≡ names.items) }
    {
        Ok(Path {
            names: SharedNames::of_vec(names)?,
        })
    }

    /// A path of a copy of these names, which its own copies share.
    pub fn from_slice(alloc: Global, names: &[Name]) -> Result<Path, NoMemory>
        requires { IsPath names.now }
        ensures { IfOk result (λ path. path ≡ names.now) }
    {
        Ok(Path {
            names: SharedNames::of(alloc, names)?,
        })
    }

    /// A path of a copy of the names of both lists, one list after the other.
    pub fn from_parts(alloc: Global, front: &[Name], back: &[Name]) -> Result<Path, NoMemory>
        requires { IsPath (front.now ++ back.now) }
        ensures { IfOk result (λ path. path ≡ front.now ++ back.now) }
    {
        Ok(Path {
            names: SharedNames::of_both(alloc, front, back)?,
        })
    }

    /// The names of the path, from the root down.
    #[inline]
    pub fn names(&self) -> &[Name]
        ensures value { result.now ≡ self.now }
        ensures valid { IsPath result.now }
    {
        self.names.as_slice()
    }

    /// The last name, which only the root's path has not.
    pub fn last(&self) -> Option<&Name>
        ensures { option_copied result ≡ last_of self.now }
    {
        self.names().last()
    }

    /// Whether the path lies below the other: it begins with all names of the other, and has more.
    pub fn is_below(&self, other: &Path) -> bool
        ensures value { result ≡ is_below self.now other.now }
        ensures means { IsTrue result ↔ IsBelow self.now other.now }
    {
        other.names().len() < self.names().len() && self.names().starts_with(other.names())
    }

    /// The names of the parent's path, or `None` exactly at the root. Does not allocate.
    pub fn parent_names(&self) -> Option<&[Name]>
        ensures value { option_copied result ≡ parent_of self.now }
        ensures valid { IfSome result (λ names. IsPath names.now) }
    {
        match self.names().split_last() {
            Some((_, parent)) => Some(parent),
            None => None,
        }
    }

    /// The path without its last name, or `None` exactly at the root.
    pub fn parent(&self, alloc: Global) -> Result<Option<Path>, NoMemory>
        ensures { IfOk result (λ parent. parent ≡ parent_of self.now) }
    {
        match self.parent_names() {
            Some(names) => Ok(Some(Path::from_slice(alloc, names)?)),
            None => Ok(None),
        }
    }

    /// The path with one more name at its end.
    pub fn joined(&self, alloc: Global, name: &Name) -> Result<Path, NoMemory>
        ensures { IfOk result (λ path. path ≡ self.now ++ name.now ∷ []) }
    {
        // That it is a name is known of its bytes.
        let _valid = name.as_bytes();
        Path::from_parts(alloc, self.names(), &[*name])
    }

    /// The same path: it shares its names. Does not allocate.
    ///
    /// # Errors
    ///
    /// Only if it is shared more often than can be counted.
    #[inline]
    pub fn copy(&self, _alloc: Global) -> Result<Path, NoMemory>
        ensures { IfOk result (λ path. path ≡ self.now) }
    {
        Ok(Path {
            names: self.names.copy()?,
        })
    }

    /// Appends the text of the path: `/` for the root, else each name after a `/`.
    pub fn write_to(&self, out: &mut Text) -> Result<(), NoMemory>
        ensures ok { OnOk result (out.new ≡ out.old ++ path_text self.now) }
        ensures err { OnErr result (AppendsPart out.old out.new (path_text self.now)) }
        ensures reads_back { path_of (path_text self.now) ≡ Some self.now }
    {
        if self.names().is_empty() {
            return out.push(b'/');
        }
        'names: for name in self.names() {
            append_name(name, out)?;
        }
        Ok(())
    }
}

impl PartialEq for Path {
    ghost eq = { pointwise (pointwise nat_eq) };

    ghost laws = { partial_equiv_from_equiv (lists_equiv nat_list_eq_equiv) };

    fn eq(&self, other: &Path) -> bool
        ensures value { result ≡ pointwise (pointwise nat_eq) self.now other.now }
        ensures same { IsTrue result ↔ (self.now ≡ other.now) }
    {
        self.names() == other.names()
    }
}

impl Eq for Path {
    ghost laws = { lists_equiv nat_list_eq_equiv };
}

impl PartialOrd for Path {
    ghost partial_cmp = { λ a b. Some (path_cmp a b) };

    ghost laws = { po (lists_total nat_list_cmp_total) (lists_ties (slice_cmp nat_cmp) texts_ties) };

    fn partial_cmp(&self, other: &Path) -> Option<Ordering> {
        Some(self.cmp(other))
    }
}

impl Ord for Path {
    ghost cmp = { path_cmp };

    ghost total = { lists_total nat_list_cmp_total };

    ghost matches_partial_cmp = { λ a b. refl };

    ghost matches_eq = { lists_ties (slice_cmp nat_cmp) texts_ties };

    fn cmp(&self, other: &Path) -> Ordering {
        self.names().cmp(other.names())
    }
}
