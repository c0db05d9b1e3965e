//! The word that is meant by another one.

ghost use Rattle.std.specs.Prelude.{◌≡◌, ◌+◌, IfOk, ℕ, Some, None, map, option_map, if◌then◌else◌, nat_lt};
ghost use Rattle.plan_graph.specs.Files.{paths_in};
ghost use Rattle.plan_tools.specs.Suggestion.{IsBest, Suggests, SuggestsText, edit_distance};

use plan_graph::Graph;
use plan_text::Memory;
use std::alloc::Global;
use strsim::generic_levenshtein;

/// The best word so far.
#[derive(Clone, Copy)]
pub struct Best {
    /// Its distance; 4 if there is none.
    pub distance: usize,
    /// Its number.
    pub number: Option<usize>,
}

/// The best word of none.
const NONE: Best = Best {
    distance: 4,
    number: None,
};

/// Returns the distance of two texts, if it is less than this.
fn distance_below(
    alloc: Global,
    text: &[u8],
    word: &[u8],
    limit: usize,
) -> Result<Option<usize>, Memory>
    ensures { IfOk result (λ distance. distance ≡ (if nat_lt (edit_distance text.now word.now) limit then Some (edit_distance text.now word.now) else None)) }
{
    if text.len().abs_diff(word.len()) >= limit {
        return Ok(None);
    }
    let distance = generic_levenshtein(alloc, text, word)?;
    if distance < limit {
        Ok(Some(distance))
    } else {
        Ok(None)
    }
}

/// Returns the best word, of those so far and the next one.
fn better(
    alloc: Global,
    best: Best,
    number: usize,
    text: &[u8],
    word: &[u8],
) -> Result<Best, Memory>
    ensures { IfOk result (λ new. (distances : ℕ → ℕ) → distances number ≡ edit_distance text.now word.now → IsBest distances number best → IsBest distances (number + 1) new) }
{
    match distance_below(alloc, text, word, best.distance)? {
        None => Ok(best),
        Some(distance) => Ok(Best {
            distance,
            number: Some(number),
        }),
    }
}

/// Returns the number of the closest of some words, if it is near.
fn closest_of(alloc: Global, words: &[&[u8]], word: &[u8]) -> Result<Option<usize>, Memory>
    ensures { IfOk result (λ number. Suggests (map (λ w. w.now) words.now) word.now number) }
{
    let mut best = NONE;
    for number in 0..words.len() {
        best = better(alloc, best, number, words[number], word)?;
    }
    Ok(best.number)
}

/// Returns the word that is meant: of those at most three edits away the closest, and the first of equal ones. An edit
/// inserts, removes or replaces a byte.
///
/// # Errors
/// Memory runs out.
pub fn closest<'a>(
    alloc: Global,
    words: &[&'a [u8]],
    word: &[u8],
) -> Result<Option<&'a [u8]>, Memory>
    ensures { IfOk result (λ text. SuggestsText (map (λ w. w.now) words.now) word.now (option_map (λ t. t.now) text)) }
{
    match closest_of(alloc, words, word)? {
        None => Ok(None),
        Some(number) => Ok(Some(words[number])),
    }
}

/// Returns the number of the closest path of a graph, if it is near.
fn closest_number(alloc: Global, graph: &Graph<'_>, word: &[u8]) -> Result<Option<usize>, Memory>
    ensures { IfOk result (λ number. Suggests (paths_in graph.now.files) word.now number) }
{
    let mut best = NONE;
    for number in 0..graph.files.len() {
        match graph.files.path(number) {
            None => return Err(Memory),
            Some(path) => best = better(alloc, best, number, path, word)?,
        }
    }
    Ok(best.number)
}

/// Returns the path that is meant, as `closest` does among the paths of the graph.
///
/// # Errors
/// Memory runs out.
pub fn closest_path<'a>(
    alloc: Global,
    graph: &Graph<'a>,
    word: &[u8],
) -> Result<Option<&'a [u8]>, Memory>
    ensures { IfOk result (λ text. SuggestsText (paths_in graph.now.files) word.now (option_map (λ t. t.now) text)) }
{
    match closest_number(alloc, graph, word)? {
        None => Ok(None),
        Some(number) => Ok(graph.files.path(number)),
    }
}
