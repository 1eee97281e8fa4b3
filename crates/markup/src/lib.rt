// The cells of a paper as marked letters of a page: what is put in is underlined and what is struck out is struck through, each in the colour of its author.
// What has letters of the paper is appended by functions and is no `Display`: a letter may be any byte, and `Display` writes a `str`.
// `out` and `changes` stay parameters: methods of a struct of both would each have to say that the changes stay as they were.
// Tags and titles, from `push_said` to `push_between`, have none: a `Display` of each would be a struct of its parameters with the same lines inside, no plainer.
// Where a vector's own method comes last, `Ok(())` follows it: it says what it appends in both outcomes, where our contracts speak of success only.
#![tactic(auto)]

ghost use Rattle.std.specs.Prelude.{◌≡◌, ◌-◌, ◌<◌, ◌++◌, decimal, map, OnOk, Some};
ghost use Rattle.markup.specs.Laws.{ReadsCells, ReadsLetters};
ghost use Rattle.markup.specs.Marked.{alike as look_alike, author_by, bare, between, closed, colour, followed, hue as hue_of, mark_tag, marked, opened, said, span, title};
ghost use Rattle.markup.specs.Plain.{escaped};
ghost use Rattle.model.specs.Values.{change_of};
ghost use Rattle.printing.specs.Values.{cell_of, cells_of};

use model::Change;
use printing::{Cell, END};
use std::alloc::AllocError;
use std::fmt;
use text::push_number;

// A letter, by its name where it could be taken for markup.
pub fn push_letter(out: &mut Vec<u8>, letter: u8) -> Result<(), AllocError>
    ensures { OnOk result (out.new.items ≡ out.old.items ++ escaped letter) }
{
    match letter {
        b'<' => out.extend_from_slice(b"&lt;"),
        b'>' => out.extend_from_slice(b"&gt;"),
        b'&' => out.extend_from_slice(b"&amp;"),
        b'"' => out.extend_from_slice(b"&quot;"),
        _ => Ok(out.push(letter)?),
    }
}

// An author's colour: authors that follow one another are far apart.
fn hue(author: u32) -> u64
    ensures { result ≡ hue_of author }
{
    u64::from(author) % 360 * 137 % 360
}

// The colour of an author, as a tag names it.
#[derive(Clone, Copy, Debug, PartialEq, Eq, Hash)]
pub struct Colour {
    pub author: u32,
}

impl fmt::Display for Colour {
    ghost output = { λ c. Some (colour c.author) };

    fn fmt<W: fmt::Write>(&self, f: &mut fmt::Formatter<W>) -> fmt::Result {
        write!(f, " style='color:hsl({},70%,30%)'", hue(self.author))
    }
}

// The author of the change whose mark a cell has.
fn author_of(changes: &[Change], mark: u32) -> u32
    requires { 0 < mark }
    ensures { result ≡ author_by (map change_of changes.now) mark }
{
    changes
        .get(mark as usize - 1)
        .map_or(0, |change| change.author)
}

// A number between two pieces of markup. A page has thousands, so it is appended, in line: by `write!` a page takes half as long again, by a call a tenth.
#[inline(always)]
fn push_numbered(out: &mut Vec<u8>, before: &str, n: u64, after: &str) -> Result<(), AllocError>
    ensures { OnOk result (out.new.items ≡ out.old.items ++ (before.now ++ (decimal n ++ after.now))) }
{
    out.extend_from_slice(before.as_bytes())?;
    push_number(out, n)?;
    out.extend_from_slice(after.as_bytes())?;
    Ok(())
}

// A sentence for a mark, and nothing where there is none.
fn push_said(out: &mut Vec<u8>, words: &str, mark: u32) -> Result<(), AllocError>
    ensures { OnOk result (out.new.items ≡ out.old.items ++ said words.now mark) }
{
    if mark == 0 {
        return Ok(());
    }
    push_numbered(out, words, u64::from(mark - 1), ". ")
}

// Whether a cell has no marks.
fn is_bare(x: Cell) -> bool
    ensures { result ≡ bare x.put_in x.struck }
{
    x.put_in == 0 && x.struck == 0
}

// What is shown of a letter's marks where one points at it.
fn push_title(out: &mut Vec<u8>, x: Cell) -> Result<(), AllocError>
    ensures { OnOk result (out.new.items ≡ out.old.items ++ title x.put_in x.struck) }
{
    if is_bare(x) {
        return Ok(());
    }
    out.extend_from_slice(b" title='")?;
    push_said(out, "Put in by change ", x.put_in)?;
    push_said(out, "Struck out by change ", x.struck)?;
    out.extend_from_slice(b"'")?;
    Ok(())
}

fn push_span(out: &mut Vec<u8>, x: Cell) -> Result<(), AllocError>
    ensures { OnOk result (out.new.items ≡ out.old.items ++ span (cell_of x)) }
{
    push_numbered(out, "<span class='s", u64::from(x.style), "'")?;
    push_title(out, x)?;
    out.extend_from_slice(b">")?;
    Ok(())
}

// An author's colour, in the bytes that `Colour` prints.
fn push_colour(out: &mut Vec<u8>, author: u32) -> Result<(), AllocError>
    ensures { OnOk result (out.new.items ≡ out.old.items ++ colour author) }
{
    push_numbered(out, " style='color:hsl(", hue(author), ",70%,30%)'")
}

// The tag for a mark, in the colour of its author, and nothing where there is none.
fn push_mark(
    out: &mut Vec<u8>,
    start: &str,
    changes: &[Change],
    mark: u32,
) -> Result<(), AllocError>
    ensures { OnOk result (out.new.items ≡ out.old.items ++ mark_tag start.now (map change_of changes.now) mark) }
{
    if mark == 0 {
        return Ok(());
    }
    push_numbered(out, start, u64::from(mark - 1), "'")?;
    push_colour(out, author_of(changes, mark))?;
    out.extend_from_slice(b">")?;
    Ok(())
}

// The tags before a letter.
fn push_open(out: &mut Vec<u8>, changes: &[Change], x: Cell) -> Result<(), AllocError>
    ensures { OnOk result (out.new.items ≡ out.old.items ++ opened (map change_of changes.now) (cell_of x)) }
{
    push_span(out, x)?;
    push_mark(out, "<ins data-change='", changes, x.put_in)?;
    push_mark(out, "<del data-change='", changes, x.struck)
}

// The tags after a letter.
fn close_of(x: Cell) -> &'static [u8]
    ensures { result.now ≡ closed x.put_in x.struck }
{
    match (x.put_in, x.struck) {
        (0, 0) => b"</span>",
        (0, _) => b"</del></span>",
        (_, 0) => b"</ins></span>",
        _ => b"</del></ins></span>",
    }
}

// The same style and the same marks: the letter, which a derived equality would compare too, may differ.
fn alike(x: Cell, y: Cell) -> bool
    ensures { result ≡ look_alike (cell_of x) (cell_of y) }
{
    x.style == y.style && x.put_in == y.put_in && x.struck == y.struck
}

// What stands between two letters.
fn push_between(out: &mut Vec<u8>, changes: &[Change], x: Cell, y: Cell) -> Result<(), AllocError>
    ensures { OnOk result (out.new.items ≡ out.old.items ++ between (map change_of changes.now) (cell_of x) (cell_of y)) }
{
    if x.letter == END {
        out.extend_from_slice(close_of(x))?;
        out.extend_from_slice(b"</p><p>")?;
        return push_open(out, changes, y);
    }
    if alike(x, y) {
        return Ok(());
    }
    out.extend_from_slice(close_of(x))?;
    push_open(out, changes, y)
}

// What follows on the first of some cells.
fn push_following(out: &mut Vec<u8>, changes: &[Change], cells: &[Cell]) -> Result<(), AllocError>
    ensures { OnOk result (out.new.items ≡ out.old.items ++ followed (map change_of changes.now) (cells_of cells.now)) }
{
    let Some(last) = cells.last() else {
        return Ok(());
    };
    for [x, y] in cells.array_windows::<2>() {
        push_between(out, changes, *x, *y)?;
        push_letter(out, y.letter)?;
    }
    out.extend_from_slice(close_of(*last))?;
    out.extend_from_slice(b"</p>")?;
    Ok(())
}

// Cells as paragraphs.
pub fn push_cells(out: &mut Vec<u8>, changes: &[Change], cells: &[Cell]) -> Result<(), AllocError>
    ensures { OnOk result (out.new.items ≡ out.old.items ++ marked (map change_of changes.now) (cells_of cells.now)) }
{
    let Some(first) = cells.first() else {
        return Ok(());
    };
    out.extend_from_slice(b"<p>")?;
    push_open(out, changes, *first)?;
    push_letter(out, first.letter)?;
    push_following(out, changes, cells)
}

// Whatever letters are written, a reader of the page sees just these.
pub fn reads_letters()
    ensures { ReadsLetters }
{}

// A reader of marked cells sees their letters, and no letter becomes markup.
pub fn reads_cells()
    ensures { ReadsCells }
{}
