//! Creates small images from the parts in which they differ.

use plan_image::{Edge, EdgeCode, Edges, Image, Instr, Parts, Pool, Sort};
use plan_text::{Items, RowList};
use plan_verify::{Verified, verify};
use std::alloc::{AllocError, Global};

/// The code of an edge that takes a job token, runs a command (text 0), releases the job token and ends.
pub const RUNS: [Instr; 5] = [
    Instr::Take,
    Instr::Text(0),
    Instr::Run,
    Instr::Release,
    Instr::End,
];

/// An edge of a sample. Edge n has the rank n and the single output n.
#[derive(Clone, Copy)]
pub struct SampleEdge<'a> {
    /// Its sort.
    pub sort: Sort,
    /// The number of its pool, if any.
    pub pool: Option<u32>,
    /// The number of the text that is its label.
    pub label: u32,
    /// The numbers of the edges that it waits for, ascending.
    pub waits: &'a [u32],
    /// Its instructions.
    pub code: &'a [Instr],
}

fn texts_of(alloc: Global, texts: &[&[u8]]) -> Result<RowList<u8>, AllocError> {
    let mut rows = RowList::new(alloc);
    for text in texts {
        rows.push(text)?;
    }
    Ok(rows)
}

/// Returns the names of `count` files. They differ if there are at most 702.
fn files_of(alloc: Global, count: usize) -> Result<RowList<u8>, AllocError> {
    let mut rows = RowList::new(alloc);
    for number in 0..count {
        let letters = [
            b'a' + ((number / 26) % 26) as u8,
            b'a' + (number % 26) as u8,
        ];
        rows.push(&letters[if number < 26 { 1 } else { 0 }..])?;
    }
    Ok(rows)
}

fn pool_of(alloc: Global, name: &[u8], depth: u32) -> Result<Pool, AllocError> {
    Ok(Pool {
        name: Items::new(Vec::from_slice(alloc, name)?),
        depth,
    })
}

fn pools_of(alloc: Global, pools: &[(&[u8], u32)]) -> Result<Vec<Pool>, AllocError> {
    let mut made = Vec::with_capacity(alloc, pools.len())?;
    for (name, depth) in pools {
        made.push(pool_of(alloc, name, *depth)?)?;
    }
    Ok(made)
}

fn edge_of(alloc: Global, number: u32, edge: &SampleEdge<'_>) -> Result<Edge, AllocError> {
    let (Ok(outputs), Ok(waits), Ok(code)) = (
        Vec::from_slice(alloc, [number].as_slice()),
        Vec::from_slice(alloc, edge.waits),
        Vec::from_slice(alloc, edge.code),
    ) else {
        return Err(AllocError);
    };
    Ok(Edge {
        sort: edge.sort,
        pool: edge.pool,
        rank: number,
        label: edge.label,
        outputs: Items::new(outputs),
        waits: Items::new(waits),
        code: EdgeCode::Own(Items::new(code)),
    })
}

fn edges_of(alloc: Global, edges: &[SampleEdge<'_>]) -> Result<Edges, AllocError> {
    let mut table = Edges::new(alloc);
    let mut number = 0u32;
    for edge in edges {
        table.push(alloc, &edge_of(alloc, number, edge)?)?;
        number = number.saturating_add(1);
    }
    Ok(table)
}

fn parts_of(
    alloc: Global,
    texts: &[&[u8]],
    pools: &[(&[u8], u32)],
    edges: &[SampleEdge<'_>],
    defaults: &[u32],
) -> Result<Parts, AllocError> {
    let (Ok(texts), Ok(files), Ok(pools), Ok(edges), Ok(defaults)) = (
        texts_of(alloc, texts),
        files_of(alloc, edges.len()),
        pools_of(alloc, pools),
        edges_of(alloc, edges),
        Vec::from_slice(alloc, defaults),
    ) else {
        return Err(AllocError);
    };
    Ok(Parts {
        texts,
        files,
        pools: Items::new(pools),
        slots: Items::empty(alloc),
        bodies: None,
        edges,
        defaults: Items::new(defaults),
    })
}

/// Creates an image of texts (labels and commands), pools (names and depths) and edges. `defaults` are the numbers of
/// the edges that are built by default, ascending. Each edge has one file: `a` to `z`, and then names of two letters.
///
/// Returns `None` if the image isn't accepted or memory runs out.
pub fn make_sample(
    alloc: Global,
    texts: &[&[u8]],
    pools: &[(&[u8], u32)],
    edges: &[SampleEdge<'_>],
    defaults: &[u32],
) -> Option<Verified> {
    let Ok(parts) = parts_of(alloc, texts, pools, edges, defaults) else {
        return None;
    };
    let Ok(image) = Image::new(parts) else {
        return None;
    };
    match verify(alloc, image) {
        Ok(verified) => Some(verified),
        Err(_) => None,
    }
}
