//! Lists of one kind of value.
ghost use Rattle.std.specs.Prelude.{◌≡◌, ◌==◌, ◌<◌, ◌≤◌, ◌+◌, ◌++◌, ◌∷◌, [], List, length, map, take, drop, insert, slice_set};
ghost use Rattle.std.specs.Prelude.{slice_index_or, OnOk, OnErr};

use iot_text::NoMemory;
use std::alloc::Global;
use std::marker::Model;

/// A list of values of one type. Contracts see it as that list.
#[derive(Drop)]
pub struct Sequence<T> {
    items: Vec<T>,
}

impl<T> Model for Sequence<T> {
    ghost use Rattle.std.specs.Prelude.{List};
    ghost use Rattle.std.specs.Coded.{coded_list};

    ghost Value = { List T };

    ghost coded = { coded_list T.code };

    ghost view = { λ s. s.items.items };
}

impl<T> Sequence<T> {
    /// The empty list. Does not allocate.
    pub fn new(alloc: Global) -> Sequence<T>
        ensures { result ≡ [] }
    {
        Sequence {
            items: Vec::new(alloc),
        }
    }

    /// Takes these items. Does not allocate.
    pub fn from_vec(items: Vec<T>) -> Sequence<T>
        ensures { result ≡ items.items }
    {
        Sequence { items }
    }

    /// Gives the items back. Does not allocate.
    pub fn into_vec(self) -> Vec<T>
        ensures { result.items ≡ self }
    {
        self.items
    }

    /// What it takes its memory from.
    #[inline]
    pub(crate) fn allocator(&self) -> Global {
        *self.items.allocator()
    }

    /// The items in their order.
    #[inline]
    pub fn as_slice(&self) -> &[T]
        ensures { result.now ≡ self.now }
    {
        self.items.as_slice()
    }

    /// How many items there are.
    #[inline]
    pub fn len(&self) -> usize
        ensures { result ≡ length self.now }
    {
        self.items.len()
    }

    /// Whether there is no item.
    #[inline]
    pub fn is_empty(&self) -> bool
        ensures { result ≡ (length self.now == 0) }
    {
        self.items.is_empty()
    }
}

impl<T: Drop> Sequence<T> {
    /// Puts an item after the others. After an error the list is as it was.
    pub fn push(&mut self, item: T) -> Result<(), NoMemory>
        ensures ok { OnOk result (self.new ≡ self.old ++ item ∷ []) }
        ensures err { OnErr result (self.new ≡ self.old) }
    {
        self.items.push(item)?;
        Ok(())
    }

    /// Puts an item at a place, before those that are there. After an error the list is as it was.
    pub fn insert(&mut self, at: usize, item: T) -> Result<(), NoMemory>
        requires { at ≤ length self.old }
        ensures ok { OnOk result (self.new ≡ insert self.old at item) }
        ensures err { OnErr result (self.new ≡ self.old) }
    {
        self.items.insert(at, item)?;
        Ok(())
    }
}

impl<T: Drop> Sequence<T> {
    /// Takes the item at a place away.
    pub fn remove(&mut self, at: usize)
        requires { at < length self.old }
        ensures { self.new ≡ take at self.old ++ drop (at + 1) self.old }
    {
        self.items.remove(at);
    }
}

impl<T> Sequence<T> {
    /// Puts the `count` items from a place on after all others. Does not allocate.
    pub fn rotate(&mut self, at: usize, count: usize)
        requires { at + count ≤ length self.old }
        ensures { (a b c : List T) → self.old ≡ a ++ (b ++ c) → length a ≡ at → length b ≡ count → self.new ≡ a ++ (c ++ b) }
    {
        self.items[at..].rotate_left(count);
    }
}

impl<K: Drop, V: Drop> Sequence<(K, V)> {
    /// Gives the key at a place another value.
    pub fn set_value(&mut self, at: usize, value: V)
        requires { at < length self.old }
        ensures { (d : K × V) → self.new ≡ slice_set self.old at ((slice_index_or self.old at d).0, value) }
    {
        self.items[at].1 = value;
    }

    /// Gives the items from a place on other keys, one for each key.
    pub fn set_keys(&mut self, at: usize, mut keys: Vec<K>)
        requires { at + length keys.items ≤ length self.old }
        ensures { (f : K → K) (a b c : List (K × V)) → self.old ≡ a ++ (b ++ c) → length a ≡ at → keys.items ≡ map (λ item. f item.0) b
            → self.new ≡ a ++ (map (λ item. (f item.0, item.1)) b ++ c) }
    {
        'keys: while let Some(key) = keys.pop() {
            self.items[at + keys.len()].0 = key;
        }
    }
}
