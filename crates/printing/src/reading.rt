// A paper from the text of its file.
ghost use Rattle.std.specs.Prelude.{◌≡◌, ◌≤◌, map, length, ◌<◌, IfOk, MatchResult, slice_index_or};
ghost use Rattle.file.specs.File.{paper_in};
ghost use Rattle.model.specs.Paper.{Cell as PaperCell};
ghost use Rattle.model.specs.Values.{cell_of as wide_of, change_of};
ghost use Rattle.printing.specs.declared.reading.ReadError.TheVariants.{Memory};
ghost use Rattle.printing.specs.Reading.{CeasesAt, Says};
ghost use Rattle.printing.specs.Values.{Reads, Widens, cell_of, cells_of, paper_of as shown_paper};

use file::File;
use model::Change;
use std::alloc::{AllocError, Global};

// The most numbers that the file of a paper has: how many changes, 128 changes and 2,048 cells.
const NUMBERS: usize = 8449;

// A cell as in `model`, whose letter is a byte: a type of its own, so that whoever prints a letter need not be told that it fits one.
// Its marks are numbers as in `model`, where 0 is none: a file has them so, and so they are printed.
#[derive(Clone, Copy, Debug, PartialEq, Eq, Hash)]
pub struct Cell {
    pub letter: u8,
    pub style: u32,
    pub put_in: u32,
    pub struck: u32,
}

impl From<Cell> for model::Cell {
    ghost from_gives = { Widens };

    fn from(x: Cell) -> model::Cell {
        model::Cell {
            letter: u32::from(x.letter),
            style: x.style,
            put_in: x.put_in,
            struck: x.struck,
        }
    }
}

// No `PartialEq` and no `Hash`: papers are never compared.
#[derive(Debug, Drop)]
pub struct Paper {
    pub changes: Vec<Change>,
    pub cells: Vec<Cell>,
}

// Why no paper was read: the number at which a text ceases to be one's file, counted from 0, or no memory. No `Display`: who prints it has words of its own.
#[derive(Clone, Copy, Debug, PartialEq, Eq, Hash)]
pub enum ReadError {
    Ceases(usize),
    Memory,
}

impl From<AllocError> for ReadError {
    ghost from_gives = { λ _ e. e ≡ Memory };

    fn from(_error: AllocError) -> ReadError {
        Self::Memory
    }
}

// The file that a text is, whose numbers are written to lent words, or where the text ceases to be one.
// A function of its own and no conversion, as it writes to lent words.
fn file_of<'a>(text: &[u8], room: &'a mut [u32]) -> Result<File<'a>, usize>
    requires { length room.old ≡ 8449 }
    ensures { MatchResult result (λ f. Says text.now (paper_in f)) (CeasesAt text.now) }
{
    match file::numbers(text, room) {
        Ok(n) => File::read(&room[..n]),
        // The numbers before the one that was not read may cease to be a file earlier.
        Err(n) => File::read(&room[..n]).and(Err(n)),
    }
}

// The changes of a file. An index in the chain: what `file` promises is of each change by its number.
fn read_changes(heap: Global, file: &File) -> Result<Vec<Change>, AllocError>
    ensures { IfOk result (λ v. map change_of v.items ≡ (paper_in file.now).changes) }
{
    (0..file.changes).map(|k| file.change(k)).collect(heap)
}

// A cell whose letter is known to be a byte. No `TryFrom`, as it does not fail.
fn narrow(cell: model::Cell) -> Cell
    requires { cell.letter ≤ 126 }
    ensures { cell_of result ≡ wide_of cell }
{
    Cell {
        letter: cell.letter as u8,
        style: cell.style,
        put_in: cell.put_in,
        struck: cell.struck,
    }
}

// Cell number k of a file.
fn read_cell(file: &File, k: usize) -> Cell
    requires { k < file.now.cells }
    ensures { (d : PaperCell) → slice_index_or (paper_in file.now).cells k d ≡ cell_of result }
{
    narrow(file.cell(k))
}

// The cells of a file, by their numbers too: an iterator over words would need again what `file` says of the limits of a letter.
fn read_cells(heap: Global, file: &File) -> Result<Vec<Cell>, AllocError>
    ensures { IfOk result (λ v. cells_of v.items ≡ (paper_in file.now).cells) }
{
    (0..file.cells).map(|k| read_cell(file, k)).collect(heap)
}

// The paper of a file.
fn read_file(heap: Global, file: &File) -> Result<Paper, AllocError>
    ensures { IfOk result (λ p. shown_paper p ≡ paper_in file.now) }
{
    let changes = read_changes(heap, file)?;
    let cells = read_cells(heap, file)?;
    Ok(Paper { changes, cells })
}

// The paper whose file a text is, or where the text ceases to be one.
pub fn read_paper(heap: Global, text: &[u8]) -> Result<Paper, ReadError>
    ensures { Reads text.now result }
{
    // Room for the longest file that fits: a vector could fail before it is known what the text is.
    let mut room = [0; NUMBERS];
    let file = file_of(text, &mut room).map_err(ReadError::Ceases)?;
    Ok(read_file(heap, &file)?)
}
