//! The texts and the pools of an image.

ghost use Rattle.std.specs.Prelude.{All, ◌≡◌, ◌≤◌, ◌+◌, ◌++◌, ◌∷◌, [], List, Some, ℕ, bytes_eq, IfOk, length, map, OnOk, option_map, slice_get};
ghost use Rattle.plan_scope.specs.Edges.{max_depth};
ghost use Rattle.plan_image.specs.declared.maxima.TheConstants.{MAX_TEXTS};
ghost use Rattle.plan_compile.specs.EdgeNumbers.{command_numbers, edge_numbers};
ghost use Rattle.plan_scope.specs.declared.manifest.Pool.{Pool as ManifestPool};
ghost use Rattle.plan_compile.specs.PoolDepths.{AreDepths};
ghost use Rattle.plan_compile.specs.Names.{declared, depfile_number, depth_of, edge_pool, edge_texts, or_command, text_number, unless_empty};
ghost use Rattle.plan_compile.specs.Numbering.{with_item, with_items};
ghost use Rattle.plan_scope.specs.TextLists.{whole};

use crate::build::word;
use crate::numbers::Numbers;
use crate::text_key::HeldKey;
use indexmap::{IndexMap, IndexSet};
use plan_graph::Key;
use plan_image::Pool;
use plan_scope::{CowText, EdgeRef, EdgeText};
use plan_text::{Items, RowList};
use std::alloc::{AllocError, Global};
use std::marker::Model;

/// Texts, without repetitions, in the order in which they were added.
#[derive(Drop)]
pub(crate) struct Texts<'a> {
    texts: IndexSet<HeldKey<'a>>,
}

impl<'a> Model for Texts<'a> {
    ghost use Rattle.std.specs.Prelude.{List, ℕ, map};

    ghost Value = { List (List ℕ) };

    ghost view = { λ t. map (λ k. k.text) t.texts.keys };
}

impl<'a> Texts<'a> {
    ghost use Rattle.std.specs.Prelude.{◌≡◌, ◌≤◌, ◌+◌, ◌++◌, ◌∷◌, [], List, Some, ℕ, bytes_eq, IfOk, length, OnOk, option_map, slice_get};
    ghost use Rattle.plan_image.specs.Spelling.{IsWord};
    ghost use Rattle.plan_compile.specs.Names.{text_number};
    ghost use Rattle.plan_compile.specs.Numbering.{with_item};

    /// Creates an empty list.
    pub(crate) fn new(alloc: Global) -> Self
        ensures { result ≡ [] }
    {
        Texts {
            texts: IndexSet::new(alloc),
        }
    }

    /// Reserves room for `texts` further texts.
    pub(crate) fn reserve(&mut self, texts: usize) -> Result<(), AllocError>
        ensures { self.new ≡ self.old }
    {
        self.texts.reserve(texts)
    }

    /// Appends a text unless it is in the list, and returns its number.
    fn put(&mut self, text: CowText<'a>) -> Result<u32, AllocError>
        requires { IsWord (length self.old) }
        ensures texts { OnOk result (self.new ≡ with_item bytes_eq self.old text.entry) }
        ensures number { IfOk result (λ n. n ≡ text_number self.new text.entry) }
        ensures few { OnOk result (length self.new ≤ length self.old + 1) }
    {
        let (number, _is_new) = self.texts.insert_full(HeldKey { text })?;
        Ok(word(number))
    }

    /// Returns the number of texts.
    pub(crate) fn len(&self) -> usize
        ensures { result ≡ length self.now }
    {
        self.texts.len()
    }

    /// Returns text `number`. Returns None if there is no such text.
    fn get(&self, number: usize) -> Option<&[u8]>
        ensures { option_map (λ t. t.now) result ≡ slice_get self.now number }
    {
        match self.texts.get_index(number) {
            Some(key) => Some(key.text.as_slice()),
            None => None,
        }
    }

    /// Appends text `number` to rows.
    fn push_to(&self, rows: &mut RowList<u8>, number: usize) -> Result<(), AllocError>
        ensures { (text : List ℕ) → slice_get self.now number ≡ Some text → OnOk result (rows.new ≡ rows.old ++ text ∷ []) }
    {
        match self.get(number) {
            Some(text) => {
                rows.push(text)?;
                Ok(())
            }
            None => Ok(()),
        }
    }

    /// Returns the texts as rows, in their order.
    pub(crate) fn rows(&self, alloc: Global) -> Result<RowList<u8>, AllocError>
        ensures { IfOk result (λ rows. rows ≡ self.now) }
    {
        let mut rows = RowList::new(alloc);
        rows.reserve(self.len())?;
        for number in 0..self.len() {
            self.push_to(&mut rows, number)?;
        }
        Ok(rows)
    }
}

/// Adds a text unless it is empty, and returns its number. Returns None if it is empty.
fn put_unless_empty<'a>(
    alloc: Global,
    texts: &mut Texts<'a>,
    text: &EdgeText<'a>,
) -> Result<Option<u32>, AllocError>
    requires { length texts.old ≤ MAX_TEXTS }
    ensures texts { OnOk result (texts.new ≡ with_items bytes_eq texts.old (unless_empty (whole text.now))) }
    ensures number { IfOk result (λ n. n ≡ depfile_number texts.new (whole text.now)) }
    ensures few { OnOk result (length texts.new ≤ length texts.old + 1) }
{
    if text.is_empty() {
        return Ok(None);
    }
    let number = texts.put(text.join(alloc)?)?;
    Ok(Some(number))
}

/// Adds the label of an edge and its command, and returns their numbers. The label is the description, or the
/// command if there is no description.
fn put_shown<'a>(
    alloc: Global,
    texts: &mut Texts<'a>,
    description: &EdgeText<'a>,
    command: &EdgeText<'a>,
) -> Result<(u32, u32), AllocError>
    requires { length texts.old ≤ 4194302 }
    ensures texts { OnOk result (texts.new ≡ with_items bytes_eq texts.old (or_command (whole description.now) (whole command.now) ∷ whole command.now ∷ [])) }
    ensures label { IfOk result (λ n. n.0 ≡ text_number texts.new (or_command (whole description.now) (whole command.now))) }
    ensures command { IfOk result (λ n. n.1 ≡ text_number texts.new (whole command.now)) }
    ensures few { OnOk result (length texts.new ≤ length texts.old + 2) }
{
    if description.is_empty() {
        let number = texts.put(command.join(alloc)?)?;
        return Ok((number, number));
    }
    let label = texts.put(description.join(alloc)?)?;
    let command = texts.put(command.join(alloc)?)?;
    Ok((label, command))
}

/// Adds the texts and the pool of an edge with a command, and returns their numbers.
fn put_command<'a>(
    alloc: Global,
    texts: &mut Texts<'a>,
    pools: &mut Texts<'a>,
    edge: &EdgeRef<'a>,
) -> Result<Numbers, AllocError>
    requires texts { length texts.old ≤ 4194300 }
    requires pools { length pools.old ≤ 4194300 }
    ensures texts { OnOk result (texts.new ≡ with_items bytes_eq texts.old (or_command edge.now.description edge.now.command ∷ edge.now.command ∷ unless_empty edge.now.depfile)) }
    ensures pools { OnOk result (pools.new ≡ with_items bytes_eq pools.old (unless_empty edge.now.pool)) }
    ensures numbers { IfOk result (λ n. n ≡ command_numbers texts.new pools.new edge.now) }
    ensures few { OnOk result (length texts.new ≤ length texts.old + 3) }
    ensures few_pools { OnOk result (length pools.new ≤ length pools.old + 1) }
{
    let (label, command) = put_shown(alloc, texts, &edge.description(), &edge.command())?;
    let depfile = put_unless_empty(alloc, texts, &edge.depfile())?;
    let pool = put_unless_empty(alloc, pools, &edge.pool())?;
    Ok(Numbers {
        label,
        command,
        depfile,
        pool,
    })
}

/// Adds the texts and the pool of an edge, and returns their numbers.
pub(crate) fn put_names<'a>(
    alloc: Global,
    texts: &mut Texts<'a>,
    pools: &mut Texts<'a>,
    edge: &EdgeRef<'a>,
) -> Result<Numbers, AllocError>
    requires texts { length texts.old ≤ 4194300 }
    requires pools { length pools.old ≤ 4194300 }
    ensures texts { OnOk result (texts.new ≡ with_items bytes_eq texts.old (edge_texts edge.now)) }
    ensures pools { OnOk result (pools.new ≡ with_items bytes_eq pools.old (edge_pool edge.now)) }
    ensures numbers { IfOk result (λ n. n ≡ edge_numbers texts.new pools.new edge.now) }
    ensures few { OnOk result (length texts.new ≤ length texts.old + 3) }
    ensures few_pools { OnOk result (length pools.new ≤ length pools.old + 1) }
{
    if edge.is_phony() {
        let label = texts.put(CowText::of_slice(&[]))?;
        return Ok(Numbers {
            label,
            command: 0,
            depfile: None,
            pool: None,
        });
    }
    put_command(alloc, texts, pools, edge)
}

/// Returns the depths of pools by their names. If a name is declared twice, the first one counts.
fn depths_of<'a>(
    alloc: Global,
    pools: &'a [plan_scope::Pool],
) -> Result<IndexMap<Key<'a>, u32>, AllocError>
    requires { All (λ p. p.depth ≤ max_depth) pools.now }
    ensures { IfOk result (AreDepths pools.now) }
{
    let mut depths = IndexMap::new(alloc);
    depths.reserve(pools.len())?;
    for number in (0..pools.len()).rev() {
        let pool = &pools[number];
        let name = pool.name.as_slice();
        depths.insert(Key { bytes: name }, pool.depth as u32)?;
    }
    Ok(depths)
}

/// Returns the depth of the pool with this name, or 0 if there is none.
fn depth_in<'a>(depths: &IndexMap<Key<'a>, u32>, name: &'a [u8]) -> u32
    ensures { (pools : List ManifestPool) → AreDepths pools depths.now → result ≡ depth_of pools name.now }
{
    match depths.get(&Key { bytes: name }) {
        Some(depth) => *depth,
        None => 0,
    }
}

/// Appends pool `number` with its depth.
fn push_pool<'a>(
    alloc: Global,
    pools: &mut Vec<Pool>,
    depths: &IndexMap<Key<'a>, u32>,
    names: &'a Texts<'a>,
    number: usize,
) -> Result<(), AllocError>
    ensures { (known : List ManifestPool) (name : List ℕ) → AreDepths known depths.now → slice_get names.now number ≡ Some name
        → OnOk result (pools.new.items ≡ pools.old.items ++ declared known name ∷ []) }
{
    match names.get(number) {
        Some(name) => {
            let depth = depth_in(depths, name);
            let name = Items::new(Vec::from_slice(alloc, name)?);
            pools.push(Pool { name, depth })?;
            Ok(())
        }
        None => Ok(()),
    }
}

/// Returns the pools of an image, given their names.
pub(crate) fn pool_table<'a>(
    alloc: Global,
    known: &'a [plan_scope::Pool],
    names: &'a Texts<'a>,
) -> Result<Items<Pool>, AllocError>
    requires { All (λ p. p.depth ≤ max_depth) known.now }
    ensures { IfOk result (λ pools. pools ≡ map (declared known.now) names.now) }
{
    let depths = depths_of(alloc, known)?;
    let mut pools = Vec::with_capacity(alloc, names.len())?;
    for number in 0..names.len() {
        push_pool(alloc, &mut pools, &depths, names, number)?;
    }
    Ok(Items::new(pools))
}
