// Rows of a paper as lines. They are bytes and no `Display`, as a letter may be any byte, and `Display` writes a `str`.
ghost use Rattle.model.specs.Paper.{seen, view as viewed};
ghost use Rattle.model.specs.Values.{way_number};
ghost use Rattle.model.specs.Rows.{first_end, last_space, rows};
ghost use Rattle.printing.specs.Printed.{rows_printed, title, way_printed};
ghost use Rattle.printing.specs.Values.{FirstRow, after_place, cells_of};
ghost use Rattle.std.specs.Prelude.{◌≡◌, [], ◌∷◌, ◌++◌, IfOk, OnOk};
ghost use Rattle.text.specs.Shown.{row_line};

use crate::reading::Cell;
use model::Way;
use std::alloc::{AllocError, Global};
use text::push_cell;

// The most letters of a row.
const WIDTH: usize = 64;

// The letter that ends a paragraph. It and a space are bytes, where the letters of lent memory are words.
pub const END: u8 = b'\n';

const SPACE: u8 = b' ';

// A row has so many letters, and so many after it are not set: 1 or none, as a number, since it is added to find the next row.
#[derive(Clone, Copy, Debug, PartialEq, Eq, Hash)]
struct Cut {
    long: usize,
    skips: usize,
}

// The cells that are seen in a way to look.
pub fn view(heap: Global, cells: &[Cell], way: Way) -> Result<Vec<Cell>, AllocError>
    ensures { IfOk result (λ v. cells_of v.items ≡ viewed (way_number way) (cells_of cells.now)) }
{
    cells
        .iter()
        .copied()
        .filter(|x| way.sees((*x).into()))
        .collect(heap)
}

// The place of the first end of a paragraph among the first `WIDTH` + 1 cells.
fn first_end(cells: &[Cell]) -> Option<usize>
    ensures { after_place result ≡ first_end (cells_of cells.now) 65 0 }
{
    cells.iter().take(WIDTH + 1).position(|x| x.letter == END)
}

// The place of the last space among the first `WIDTH` + 1 cells.
fn last_space(cells: &[Cell]) -> Option<usize>
    ensures { after_place result ≡ last_space (cells_of cells.now) 65 0 0 }
{
    let near = &cells[..cells.len().min(WIDTH + 1)];
    near.iter().rposition(|x| x.letter == SPACE)
}

// The first row.
fn first_row(cells: &[Cell]) -> Cut
    ensures { FirstRow cells.now result }
{
    if let Some(long) = first_end(cells) {
        return Cut { long, skips: 1 };
    }
    if cells.len() <= WIDTH {
        return Cut {
            long: cells.len(),
            skips: 0,
        };
    }
    match last_space(cells) {
        Some(long) => Cut { long, skips: 1 },
        None => Cut {
            long: WIDTH,
            skips: 0,
        },
    }
}

// A row as a line.
fn push_row(out: &mut Vec<u8>, row: &[Cell]) -> Result<(), AllocError>
    ensures { OnOk result (out.new.items ≡ (out.old.items ++ row_line (cells_of row.now)) ++ (10 ∷ [])) }
{
    for x in row {
        push_cell(out, x.letter, x.put_in, x.struck)?;
    }
    out.push(END)?;
    Ok(())
}

// All rows of some cells.
fn push_rows(out: &mut Vec<u8>, cells: &[Cell]) -> Result<(), AllocError>
    ensures { OnOk result (out.new.items ≡ out.old.items ++ rows_printed (rows 64 (cells_of cells.now))) }
{
    // No iterator over the rows: where one begins is told by the one before it.
    let mut rest = cells;
    while !rest.is_empty() {
        let row = first_row(rest);
        push_row(out, &rest[..row.long])?;
        rest = &rest[row.long + row.skips..];
    }
    Ok(())
}

fn title_of(way: Way) -> &'static [u8]
    ensures { result.now ≡ title (way_number way) }
{
    match way {
        Way::Everything => b"| 0: everything",
        Way::Accepted => b"| 1: as if all open changes were accepted",
        Way::Rejected => b"| 2: as if all open changes were rejected",
    }
}

// A paper's cells in one way to look: the line that says which, and the rows.
pub fn push_way(out: &mut Vec<u8>, heap: Global, cells: &[Cell], way: Way) -> Result<(), AllocError>
    ensures { OnOk result (out.new.items ≡ out.old.items ++ way_printed (way_number way) (cells_of cells.now)) }
{
    let seen = view(heap, cells, way)?;
    out.extend_from_slice(title_of(way))?;
    out.push(END)?;
    push_rows(out, seen.as_slice())
}
