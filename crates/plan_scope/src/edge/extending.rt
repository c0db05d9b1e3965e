//! Adds paths to an edge that was read.

ghost use Rattle.std.specs.Prelude.{◌≡◌, ◌≤◌, ◌++◌, ◌∷◌, [], IfOk, OnErr, OnOk, get_or, length};
ghost use Rattle.plan_chunks.specs.Joining.{HasMore};
ghost use Rattle.plan_parse.specs.PathLists.{between};
ghost use Rattle.plan_scope.specs.EdgePlaces.{ArePlaced, paths_at};
ghost use Rattle.plan_scope.specs.EdgeRows.{AreWithin, edges_in};
ghost use Rattle.plan_scope.specs.Extended.{added, changed_at, paths_with};

use crate::edge::addition::Addition;
use crate::edge::edge_list::{EdgeMarks, EdgeRows, PathPlaces};
use crate::edge::paths::row_count;
use plan_text::RowList;
use std::alloc::{AllocError, Global};

/// Appends a copy of the row with this number.
fn copy_row(rows: &mut RowList<u8>, number: usize, buffer: &mut Vec<u8>) -> Result<(), AllocError>
    ensures row { OnOk result (rows.new ≡ rows.old ++ get_or rows.old number [] ∷ []) }
    ensures same { OnErr result (rows.new ≡ rows.old) }
{
    buffer.clear();
    buffer.extend_from_slice(rows.row(number))?;
    rows.push(buffer)
}

/// Appends copies of the rows with the numbers from `start` up to, but not including, `end`.
fn copy_rows(
    rows: &mut RowList<u8>,
    start: u32,
    end: u32,
    buffer: &mut Vec<u8>,
) -> Result<(), AllocError>
    requires { (start ≤ end) × (end ≤ length rows.old) }
    ensures rows { OnOk result (rows.new ≡ rows.old ++ between start end rows.old) }
    ensures more { HasMore rows.old rows.new }
{
    for number in start..end {
        copy_row(rows, number as usize, buffer)?;
    }
    Ok(())
}

/// Appends more rows.
fn push_rows(rows: &mut RowList<u8>, more: &RowList<u8>) -> Result<(), AllocError>
    ensures rows { OnOk result (rows.new ≡ rows.old ++ more.now) }
    ensures more { HasMore rows.old rows.new }
{
    for number in 0..more.len() {
        rows.push(more.row(number))?;
    }
    Ok(())
}

/// Appends copies of the rows with the numbers from `start` up to, but not including, `end`. Returns the number of all
/// rows.
fn copy_list(
    rows: &mut RowList<u8>,
    start: u32,
    end: u32,
    buffer: &mut Vec<u8>,
) -> Result<u32, AllocError>
    requires { (start ≤ end) × (end ≤ length rows.old) }
    ensures rows { OnOk result (rows.new ≡ rows.old ++ between start end rows.old) }
    ensures count { IfOk result (λ count. count ≡ length rows.new) }
    ensures more { HasMore rows.old rows.new }
{
    copy_rows(rows, start, end, buffer)?;
    row_count(rows)
}

/// Appends copies of the rows with the numbers from `start` up to, but not including, `end`, and then more rows.
/// Returns the number of all rows.
fn put_list(
    rows: &mut RowList<u8>,
    start: u32,
    end: u32,
    more: &RowList<u8>,
    buffer: &mut Vec<u8>,
) -> Result<u32, AllocError>
    requires { (start ≤ end) × (end ≤ length rows.old) }
    ensures rows { OnOk result (rows.new ≡ rows.old ++ (between start end rows.old ++ more.now)) }
    ensures count { IfOk result (λ count. count ≡ length rows.new) }
    ensures more { HasMore rows.old rows.new }
{
    copy_rows(rows, start, end, buffer)?;
    push_rows(rows, more)?;
    row_count(rows)
}

/// Appends the paths of an edge with an addition. Returns their places.
fn put_paths(
    rows: &mut RowList<u8>,
    old: PathPlaces,
    addition: &Addition,
    buffer: &mut Vec<u8>,
) -> Result<PathPlaces, AllocError>
    requires { ArePlaced (length rows.old) old }
    ensures paths { IfOk result (λ now. paths_at rows.new now ≡ paths_with addition.now (paths_at rows.old old)) }
    ensures placed { IfOk result (λ now. ArePlaced (length rows.new) now) }
    ensures more { HasMore rows.old rows.new }
{
    let (outputs, inputs, order_only) = (&addition.outputs, &addition.inputs, &addition.order_only);
    let first = row_count(rows)?;
    let second = copy_list(rows, old.outputs, old.implicit_outputs, buffer)?;
    let third = put_list(rows, old.implicit_outputs, old.inputs, outputs, buffer)?;
    let fourth = copy_list(rows, old.inputs, old.implicit_inputs, buffer)?;
    let fifth = put_list(
        rows,
        old.implicit_inputs,
        old.order_only_inputs,
        inputs,
        buffer,
    )?;
    let end = put_list(rows, old.order_only_inputs, old.end, order_only, buffer)?;
    Ok(PathPlaces {
        outputs: first,
        implicit_outputs: second,
        inputs: third,
        implicit_inputs: fourth,
        order_only_inputs: fifth,
        end,
    })
}

/// Adds paths to the edge with the addition's number, if there is one.
pub fn add_paths(alloc: Global, rows: &mut EdgeRows, addition: &Addition) -> Result<(), AllocError>
    requires { AreWithin rows.old }
    ensures within { AreWithin rows.new }
    ensures added { OnOk result (edges_in rows.new ≡ changed_at addition.now.edge (added addition.now) (edges_in rows.old)) }
    ensures same { OnErr result (edges_in rows.new ≡ edges_in rows.old) }
{
    let number = addition.edge as usize;
    if number >= rows.marks.len() {
        return Ok(());
    }
    let marks = rows.marks[number];
    let mut buffer = Vec::new(alloc);
    let paths = put_paths(&mut rows.paths.rows, marks.paths, addition, &mut buffer)?;
    rows.marks[number] = EdgeMarks { paths, ..marks };
    Ok(())
}
