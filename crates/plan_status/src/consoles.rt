//! Console edges, whose commands have the terminal to themselves: which of them hold job tokens.

ghost use Rattle.std.specs.Prelude.{◌≡◌, ◌≤◌, ◌+◌, ℕ, IfOk, false, get_or, option_map, slice_set};
ghost use Rattle.plan_machine.specs.declared.event.Mark.{Mark as Told};
ghost use Rattle.plan_status.specs.Consoles.{AreFree, AreNoted, HasLooked, is_console, is_console_name};
ghost use Rattle.plan_status.specs.Trues.{trues};

use plan_image::{Parts, Pool};
use plan_machine::Mark;
use plan_verify::Verified;
use std::alloc::{AllocError, Global};

/// Checks whether a pool has the name `console`.
fn is_console_name(pool: Option<&Pool>) -> bool
    ensures { result ≡ is_console_name (option_map (λ p. p.now) pool.entry) }
{
    match pool {
        Some(pool) => pool.name.as_slice() == b"console".as_slice(),
        None => false,
    }
}

/// Checks whether an edge's pool has the name `console`.
pub fn in_console(parts: &Parts, edge: u32) -> bool
    ensures { result ≡ is_console parts.now edge }
{
    let Some(edge) = parts.edges.get(edge as usize) else {
        return false;
    };
    match edge.pool {
        Some(pool) => is_console_name(parts.pools.as_slice().get(pool as usize)),
        None => false,
    }
}

/// Checks whether an edge of an image is a console edge: its pool has the name `console` (the Ninja manual, "The
/// console pool").
pub fn is_console(image: &Verified, edge: u32) -> bool
    ensures { result ≡ is_console image.now edge }
{
    in_console(image.image().parts(), edge)
}

/// Which console edges hold job tokens after the marks so far, and how many of these marks may be reported.
#[derive(Drop)]
pub struct Consoles {
    /// For each edge, whether it is a console edge that holds a job token.
    holding: Vec<bool>,
    /// The number of set flags.
    held: usize,
    /// The number of marks that were looked at, from the first on.
    looked: usize,
    /// The greatest number of them after which no console edge holds a job token.
    pub(crate) free: usize,
}

/// Sets the flag at an index, if there is one.
fn put(flags: &mut Vec<bool>, at: usize, flag: bool)
    ensures { flags.new.items ≡ slice_set flags.old.items at flag }
{
    if at < flags.len() {
        flags[at] = flag;
    }
}

/// Returns the flag at an index, or false if there is none.
fn flag_at(flags: &[bool], at: usize) -> bool
    ensures { result ≡ get_or flags.now at false }
{
    match flags.get(at) {
        Some(flag) => *flag,
        None => false,
    }
}

/// Adds one to a number, but at most up to `most`.
fn one_more(number: usize, most: usize) -> usize
    requires { number ≤ most }
    ensures more { result ≤ number + 1 }
    ensures most { (n : ℕ) → n ≤ number + 1 → n ≤ most → n ≤ result }
    ensures within { result ≤ most }
{
    if number < most { number + 1 } else { number }
}

impl Consoles {
    ghost use Rattle.std.specs.Prelude.{◌≡◌, ◌≤◌, ◌+◌, ◌∷◌, [], ◌++◌, ℕ, List, IfOk, false, get_or, length, slice_set, true};
    ghost use Rattle.plan_machine.specs.declared.event.Mark.{Mark as Told};
    ghost use Rattle.plan_status.specs.Consoles.{AreFree, AreNoted, HasLooked, is_console};
    ghost use Rattle.plan_status.specs.Trues.{trues};

    /// Creates the state in which no mark was looked at.
    pub(crate) fn new(alloc: Global, parts: &Parts) -> Result<Consoles, AllocError>
        ensures { IfOk result (λ c. (marks : List Told) → HasLooked parts.now marks c) }
    {
        let holding = vec![in alloc; false; parts.edges.len()]?;
        Ok(Consoles {
            holding,
            held: 0,
            looked: 0,
            free: 0,
        })
    }

    /// Notes that an edge takes a job token, or releases it if `holds` is false.
    fn set(&mut self, edge: u32, holds: bool)
        requires { self.old.held ≡ trues self.old.holding.items }
        ensures holding { self.new.holding.items ≡ slice_set self.old.holding.items edge holds }
        ensures held { self.new.held ≡ trues self.new.holding.items }
        ensures same { (self.new.looked ≡ self.old.looked) × (self.new.free ≡ self.old.free) }
    {
        let at = edge as usize;
        if at >= self.holding.len() || flag_at(&self.holding, at) == holds {
            return;
        }
        put(&mut self.holding, at, holds);
        if holds {
            self.held += 1;
        } else {
            self.held -= 1;
        }
    }

    /// Notes one more mark.
    fn note(&mut self, parts: &Parts, mark: Mark)
        requires { self.old.held ≡ trues self.old.holding.items }
        ensures noted { (before : List Told) → AreNoted parts.now before self.old → AreNoted parts.now (before ++ mark ∷ []) self.new }
        ensures same { (self.new.looked ≡ self.old.looked) × (self.new.free ≡ self.old.free) }
    {
        match mark {
            Mark::Took(edge) => {
                if in_console(parts, edge) {
                    self.set(edge, true);
                }
            }
            Mark::Released(edge) => self.set(edge, false),
            Mark::Failed(edge, _) => self.set(edge, false),
            _ => {}
        }
    }

    /// Looks at the marks after those that it has looked at.
    pub(crate) fn look(&mut self, parts: &Parts, marks: &[Mark])
        requires { HasLooked parts.now marks.now self.old }
        ensures looked { HasLooked parts.now marks.now self.new }
        ensures all { self.new.looked ≡ length marks.now }
        ensures more { self.old.free ≤ self.new.free }
    {
        for at in self.looked..marks.len() {
            self.note(parts, marks[at]);
            self.looked = at + 1;
            if self.held == 0 {
                self.free = at + 1;
            }
        }
    }

    /// Returns how many of these marks may be shown after it has looked at them: the free ones, and the one after them,
    /// by which a console edge takes its job token.
    pub(crate) fn shown(&self, marks: &[Mark]) -> usize
        requires { self.now.free ≤ length marks.now }
        ensures more { result ≤ self.now.free + 1 }
        ensures most { (n : ℕ) → n ≤ self.now.free + 1 → n ≤ length marks.now → n ≤ result }
        ensures within { result ≤ length marks.now }
    {
        one_more(self.free, marks.len())
    }
}

/// Returns how many marks of a run, from the first on, may be reported while it goes on: the greatest number of them
/// after which no console edge holds a job token, so that its command isn't running. The mark after them may be
/// reported too: by it a console edge takes its job token. Lines of other marks wait until its command has ended.
///
/// # Errors
/// `AllocError` if memory runs out.
pub fn free_marks(alloc: Global, image: &Verified, marks: &[Mark]) -> Result<usize, AllocError>
    ensures { IfOk result (λ n. AreFree image.now marks.now n) }
{
    let parts = image.image().parts();
    let mut consoles = Consoles::new(alloc, parts)?;
    consoles.look(parts, marks);
    Ok(consoles.free)
}
