// The page of a paper: everything with its marks, the paper as if all open changes were accepted and as if all were rejected, and the changes.
// Appended by functions and no `Display`, as in `markup`; `out` and `changes` stay parameters, and `Ok(())` ends a function, as there.
// The legend, the table and their rows have no letters of the paper: a `Display` of each would be a struct of the changes with the same loop inside, no plainer.
#![tactic(auto)]

ghost use Rattle.model.specs.Values.{change_of, way_number};
ghost use Rattle.page.specs.Page.{Paged, as_if, author_item, authors_from, bare as bare_cell, became as became_shown, change_row, change_rows, foot, has_author, head, key, legend, page_of, part, parts, table, table_head};
ghost use Rattle.printing.specs.Values.{cells_of, paper_of};
ghost use Rattle.std.specs.Prelude.{◌≡◌, ◌++◌, map, IfOk, OnOk};

use markup::{Colour, push_cells};
use model::{Change, Way};
use printing::{Cell, Paper, print_by, view};
use std::alloc::{AllocError, Global};
use std::io::Write;

// What every page begins with.
fn head_of() -> &'static [u8]
    ensures { result.now ≡ head }
{
    b"<!DOCTYPE html>
<html lang='en'>
<head>
<meta charset='utf-8'>
<title>Paper</title>
<style>
body{max-width:44em;margin:2em auto;padding:0 1em;font:16px/1.6 Georgia,DejaVu Serif,serif;color:#111;background:#fff}
h2,ul,th{font:bold 13px/1.6 Arial,DejaVu Sans,sans-serif;color:#555}
h2{border-bottom:1px solid #bbb;margin:2em 0 .8em;break-after:avoid}
p{margin:0;white-space:pre-wrap;overflow-wrap:anywhere}
ins,u{text-decoration:underline;text-decoration-thickness:2px}
del,s{text-decoration:line-through;text-decoration-thickness:2px}
ins::before,del::before{content:attr(data-change);display:inline-block;font:bold 9px/1 Arial,DejaVu Sans,sans-serif;vertical-align:super}
.s1,.s3{font-weight:bold}
.s2,.s3{font-style:italic}
ul{list-style:none;margin:0;padding:0}
li{display:inline-block;margin-right:1.5em}
table{border-collapse:collapse;font-size:14px}
td,th{border:1px solid #bbb;padding:.1em .8em;text-align:left}
tr{break-inside:avoid}
@media print{body{margin:0;max-width:none;font-size:11pt}*{print-color-adjust:exact}}
</style>
</head>
<body>
"
}

fn key_of() -> &'static [u8]
    ensures { result.now ≡ key }
{
    b"<ul><li><u>underlined</u>: put in</li><li><s>struck through</s>: struck out</li><li>small number: which change</li></ul>
<ul>"
}

fn table_head() -> &'static [u8]
    ensures { result.now ≡ table_head }
{
    b"<h2>Changes</h2>
<table>
<tr><th>Change</th><th>Author</th><th>Became</th></tr>
"
}

fn foot_of() -> &'static [u8]
    ensures { result.now ≡ foot }
{
    b"</table>
</body>
</html>
"
}

// Whether an author made a change.
fn has(changes: &[Change], author: u32) -> bool
    ensures { result ≡ has_author (map change_of changes.now) author }
{
    changes.iter().any(|change| change.author == author)
}

fn push_author(out: &mut Vec<u8>, author: u32) -> Result<(), AllocError>
    ensures { OnOk result (out.new.items ≡ out.old.items ++ author_item author) }
{
    write!(out, "<li{}>Author {}</li>", Colour { author }, author).map_err(|_| AllocError)
}

// The authors who made changes.
fn push_authors(out: &mut Vec<u8>, changes: &[Change]) -> Result<(), AllocError>
    ensures { OnOk result (out.new.items ≡ out.old.items ++ authors_from 256 0 (map change_of changes.now)) }
{
    // A range of authors, and no index.
    for author in 0..256 {
        if has(changes, author) {
            push_author(out, author)?;
        }
    }
    Ok(())
}

// What the marks mean, and the authors.
fn push_legend(out: &mut Vec<u8>, changes: &[Change]) -> Result<(), AllocError>
    ensures { OnOk result (out.new.items ≡ out.old.items ++ legend (map change_of changes.now)) }
{
    out.extend_from_slice(key_of())?;
    push_authors(out, changes)?;
    out.extend_from_slice(b"</ul>\n")?;
    Ok(())
}

// Some cells under a title.
fn push_part(
    out: &mut Vec<u8>,
    name: &str,
    changes: &[Change],
    cells: &[Cell],
) -> Result<(), AllocError>
    ensures { OnOk result (out.new.items ≡ out.old.items ++ part name.now (map change_of changes.now) (cells_of cells.now)) }
{
    write!(out, "<h2>{}</h2>\n<div class='text'>", name).map_err(|_| AllocError)?;
    push_cells(out, changes, cells)?;
    out.extend_from_slice(b"</div>\n")?;
    Ok(())
}

// Cells without their marks.
fn bare(heap: Global, cells: &[Cell]) -> Result<Vec<Cell>, AllocError>
    ensures { IfOk result (λ v. cells_of v.items ≡ map bare_cell (cells_of cells.now)) }
{
    cells
        .iter()
        .map(|x| Cell {
            letter: x.letter,
            style: x.style,
            put_in: 0,
            struck: 0,
        })
        .collect(heap)
}

// The cells as if all open changes were accepted, or all rejected.
fn settled(heap: Global, cells: &[Cell], way: Way) -> Result<Vec<Cell>, AllocError>
    ensures { IfOk result (λ v. cells_of v.items ≡ as_if (way_number way) (cells_of cells.now)) }
{
    let seen = view(heap, cells, way)?;
    bare(heap, seen.as_slice())
}

// By its number, as a change has it: a `Verdict` is of a decided change only.
fn became_of(change: Change) -> &'static str
    ensures { result.now ≡ became_shown change.became }
{
    match change.became {
        0 => "open",
        1 => "accepted",
        _ => "rejected",
    }
}

// A change's number, its author, and what became of it.
fn push_change(out: &mut Vec<u8>, number: usize, change: Change) -> Result<(), AllocError>
    ensures { OnOk result (out.new.items ≡ out.old.items ++ change_row number (change_of change)) }
{
    let author = change.author;
    write!(
        out,
        "<tr><td>{}</td><td{}>{}</td><td>{}</td></tr>\n",
        number,
        Colour { author },
        author,
        became_of(change)
    )
    .map_err(|_| AllocError)
}

fn push_changes(out: &mut Vec<u8>, changes: &[Change]) -> Result<(), AllocError>
    ensures { OnOk result (out.new.items ≡ out.old.items ++ change_rows 0 (map change_of changes.now)) }
{
    for (number, change) in changes.iter().enumerate() {
        push_change(out, number, *change)?;
    }
    Ok(())
}

// The three ways to look at a paper.
fn push_parts(out: &mut Vec<u8>, heap: Global, paper: &Paper) -> Result<(), AllocError>
    ensures { OnOk result (out.new.items ≡ out.old.items ++ parts (paper_of paper.now)) }
{
    let changes = paper.changes.as_slice();
    let cells = paper.cells.as_slice();
    let accepted = settled(heap, cells, Way::Accepted)?;
    let rejected = settled(heap, cells, Way::Rejected)?;
    push_part(out, "Everything", changes, cells)?;
    push_part(
        out,
        "As if all open changes were accepted",
        changes,
        accepted.as_slice(),
    )?;
    push_part(
        out,
        "As if all open changes were rejected",
        changes,
        rejected.as_slice(),
    )
}

// The list of changes, and the end of the page.
fn push_table(out: &mut Vec<u8>, changes: &[Change]) -> Result<(), AllocError>
    ensures { OnOk result (out.new.items ≡ out.old.items ++ table (map change_of changes.now)) }
{
    out.extend_from_slice(table_head())?;
    push_changes(out, changes)?;
    out.extend_from_slice(foot_of())?;
    Ok(())
}

fn push_page(out: &mut Vec<u8>, heap: Global, paper: &Paper) -> Result<(), AllocError>
    ensures { OnOk result (out.new.items ≡ out.old.items ++ page_of (paper_of paper.now)) }
{
    let changes = paper.changes.as_slice();
    out.extend_from_slice(head_of())?;
    push_legend(out, changes)?;
    push_parts(out, heap, paper)?;
    push_table(out, changes)
}

// What the program writes of a text when it is asked for a page.
pub fn write_page(heap: Global, text: &[u8]) -> Result<Vec<u8>, AllocError>
    ensures { IfOk result (λ v. Paged text.now v.items) }
{
    print_by(heap, text, |out, paper| push_page(out, heap, paper))
}
