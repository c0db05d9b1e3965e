//! Maps by name, and by scope and name. A key feeds its hasher eight bytes of its name at once.

ghost use Rattle.std.specs.Prelude.{◌≡◌, ◌<◌, ℕ, List, [], ◌∷◌, ◌++◌, None, OnOk, false, option_map, length};
ghost use Rattle.plan_scope.specs.Scopes.{frame, last_of, nearest};
ghost use Rattle.plan_scope.specs.Keys.{mark_of, marks, key_input, key_of, same_key, same_key_equiv, same_key_fed};
ghost use Rattle.std.specs.Cmp.{on_equiv, on_per, partial_equiv_from_equiv};
ghost use Rattle.plan_scope.specs.Kept.{few_bindings, map_bindings};

use indexmap::{Equivalent, IndexMap};
use plan_text::feed_words;
use std::alloc::{AllocError, Global};
use std::hash::{Hash, Hasher};
use std::marker::Model;

/// The number of marks.
pub const MARKS: usize = 64;

/// Returns the mark of a name. Names with different marks differ.
pub fn mark(name: &[u8]) -> usize
    ensures mark { result ≡ mark_of name.now }
    ensures within { result < marks }
{
    match name {
        [] => 0,
        [first, ..] => (usize::from(*first) + 3 * (name.len() % MARKS)) % MARKS,
    }
}

/// Values by scope and name. Only the last value of a name in a scope is held.
#[derive(Drop)]
pub struct ScopedMap<V> {
    values: IndexMap<Key, V>,
    /// Whether a name with this mark was set. For most names that aren't bound, the mark shows that without a hash for
    /// each scope.
    marked: [bool; MARKS],
}

impl<V> Model for ScopedMap<V> {
    ghost use Rattle.plan_scope.specs.Scopes as scopes;
    ghost use Rattle.plan_scope.specs.Keys.{IsMarked, scoped_by};

    ghost Value = { scopes.ScopedBindings V };

    ghost view = { λ s. scoped_by s.values.entries };

    ghost invariant = { λ s. IsMarked s.marked s.values.entries };
}

impl<V> ScopedMap<V> {
    /// Creates an empty map.
    pub fn new(alloc: Global) -> Self
        ensures { result ≡ [] }
    {
        ScopedMap {
            values: IndexMap::new(alloc),
            marked: [false; MARKS],
        }
    }

    /// Returns the value of a name in a scope.
    pub fn own(&self, scope: usize, name: &[u8]) -> Option<&V>
        ensures { option_map (λ v. v.now) result ≡ last_of name.now (frame scope self.now) }
    {
        match self.values.get(Named { scope, name }) {
            Some(value) => Some(value),
            None => None,
        }
    }

    /// Checks by its mark whether a scope may have the name. If it returns `false`, no scope has the name.
    pub fn may_have(&self, name: &[u8]) -> bool
        ensures { result ≡ false → (scopes : List ℕ) → nearest self.now scopes name.now ≡ None }
    {
        self.marked[mark(name)]
    }

    /// Returns the value of a name in the nearest of these scopes that has one.
    pub fn nearest(&self, scopes: &[usize], name: &[u8]) -> Option<&V>
        ensures { option_map (λ v. v.now) result ≡ nearest self.now scopes.now name.now }
    {
        if !self.may_have(name) {
            return None;
        }
        for scope in scopes {
            match self.own(*scope, name) {
                Some(value) => return Some(value),
                None => {}
            }
        }
        None
    }
}

impl<V: Drop> ScopedMap<V> {
    /// Sets the value of a name in a scope. Replaces the value that it may have.
    pub fn set(
        &mut self,
        alloc: Global,
        scope: usize,
        name: &[u8],
        value: V,
    ) -> Result<(), AllocError>
        ensures bound { OnOk result ((s : ℕ) (n : List ℕ) → last_of n (frame s self.new) ≡ last_of n (frame s (self.old ++ (scope, (name.now, value)) ∷ []))) }
    {
        let mut own_name = Vec::new(alloc);
        own_name.extend_from_slice(name)?;
        let key = Key {
            scope,
            name: own_name,
        };
        self.values.insert(key, value)?;
        self.marked[mark(name)] = true;
        Ok(())
    }
}

/// A scope and a name, as a map holds them.
#[derive(Drop)]
pub struct Key {
    /// The scope.
    pub scope: usize,
    /// The name.
    pub name: Vec<u8>,
}

impl PartialEq for Key {
    ghost eq = { λ x y. same_key (key_of x) (key_of y) };

    ghost laws = { on_per key_of (partial_equiv_from_equiv same_key_equiv) };

    fn eq(&self, other: &Key) -> bool {
        self.scope == other.scope && self.name.as_slice() == other.name.as_slice()
    }
}

impl Eq for Key {
    ghost laws = { on_equiv key_of same_key_equiv };
}

impl Hash for Key {
    ghost hash_input = { λ x. key_input (key_of x) };

    ghost respects_eq = { λ x y. same_key_fed (key_of x) (key_of y) };

    fn hash<H: Hasher>(&self, state: &mut H) {
        self.scope.hash(state);
        feed_words(&self.name, state);
    }
}

/// A scope and a name, as they are looked up.
#[derive(Clone, Copy)]
pub struct Named<'a> {
    /// The scope.
    pub scope: usize,
    /// The name.
    pub name: &'a [u8],
}

impl<'a> PartialEq for Named<'a> {
    ghost eq = { λ x y. same_key (x.scope, x.name.now) (y.scope, y.name.now) };

    ghost laws = { on_per (λ x. (x.scope, x.name.now)) (partial_equiv_from_equiv same_key_equiv) };

    fn eq(&self, other: &Named<'a>) -> bool {
        self.scope == other.scope && self.name == other.name
    }
}

impl<'a> Eq for Named<'a> {
    ghost laws = { on_equiv (λ x. (x.scope, x.name.now)) same_key_equiv };
}

impl<'a> Hash for Named<'a> {
    ghost hash_input = { λ x. key_input (x.scope, x.name.now) };

    ghost respects_eq = { λ x y. same_key_fed (x.scope, x.name.now) (y.scope, y.name.now) };

    fn hash<H: Hasher>(&self, state: &mut H) {
        self.scope.hash(state);
        feed_words(self.name, state);
    }
}

impl<'a> Equivalent<Key> for Named<'a> {
    ghost equivalent = { λ q k. same_key (q.scope, q.name.now) (key_of k) };

    ghost respects_hash = { λ q k. same_key_fed (q.scope, q.name.now) (key_of k) };

    ghost respects_eq = { λ q x y. same_key_equiv.congr (q.scope, q.name.now) (key_of x) (key_of y) };

    fn equivalent(&self, key: &Key) -> bool {
        self.scope == key.scope && self.name == key.name.as_slice()
    }
}

/// Values by name, of which the last one counts. Most maps have few values, which are found faster one by one than by
/// hashes.
#[derive(Drop)]
pub struct SmallMap<'a, V> {
    /// The first values, in the order in which they were set.
    few: Vec<(&'a [u8], V)>,
    /// The values that were set after the first ones.
    more: IndexMap<&'a [u8], V>,
}

impl<'a, V> Model for SmallMap<'a, V> {
    ghost use Rattle.std.specs.Prelude.{◌≡◌, ◌<◌, [], ◌++◌, length};
    ghost use Rattle.plan_scope.specs.Scopes.{Bindings};
    ghost use Rattle.plan_scope.specs.Kept.{few_bindings, most_few, map_bindings};

    ghost Value = { Bindings V };

    ghost view = { λ f. few_bindings f.few.items ++ map_bindings f.more.entries };

    ghost invariant = { λ f. length f.few.items < most_few → f.more.entries ≡ [] };
}

/// The number of values that are searched one by one.
const FEW: usize = 8;

/// Returns the last value of a name.
fn last_among<'b, 'a, V>(few: &'b [(&'a [u8], V)], name: &[u8]) -> Option<&'b V>
    ensures { option_map (λ v. v.now) result ≡ last_of name.now (few_bindings few.now) }
{
    let mut last = None;
    for entry in few {
        if entry.0 == name {
            last = Some(&entry.1);
        }
    }
    last
}

impl<'a, V> SmallMap<'a, V> {
    /// Creates an empty map.
    pub fn new(alloc: Global) -> Self
        ensures { result ≡ [] }
    {
        SmallMap {
            few: Vec::new(alloc),
            more: IndexMap::new(alloc),
        }
    }

    /// Returns the value of a name.
    #[inline(always)]
    pub fn get(&self, name: &[u8]) -> Option<&V>
        ensures { option_map (λ v. v.now) result ≡ last_of name.now self.now }
    {
        if self.few.is_empty() {
            return None;
        }
        self.get_among(name)
    }

    /// Returns the value of a name in a map that isn't empty.
    fn get_among(&self, name: &[u8]) -> Option<&V>
        ensures { option_map (λ v. v.now) result ≡ last_of name.now self.now }
    {
        if self.few.len() < FEW {
            return last_among(&self.few, name);
        }
        match self.more.get(name) {
            Some(value) => Some(value),
            None => last_among(&self.few, name),
        }
    }
}

impl<'a, V: Drop> SmallMap<'a, V> {
    /// Sets the value of a name. Lookups find it instead of the value that the name may have.
    pub fn set(&mut self, name: &'a [u8], value: V) -> Result<(), AllocError>
        ensures bound { OnOk result ((n : List ℕ) → last_of n self.new ≡ last_of n (self.old ++ (name.now, value) ∷ [])) }
    {
        if self.few.len() < FEW {
            self.few.push((name, value))?;
            return Ok(());
        }
        self.more.insert(name, value)?;
        Ok(())
    }
}
