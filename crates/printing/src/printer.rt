// What is printed of a text: the paper that it is the file of, or where it ceases to be one.
ghost use Rattle.std.specs.Prelude.{◌≡◌, ℕ, ◌≤◌, List, ◌++◌, IfOk, OnOk};
ghost use Rattle.model.specs.Paper.{Paper as ModelPaper};
ghost use Rattle.printing.specs.Laws.{OneOutput};
ghost use Rattle.printing.specs.Printed.{Printed, Written, refusal, way_printed};
ghost use Rattle.printing.specs.Values.{Appends, cells_of};

use crate::reading::{Cell, Paper, ReadError, read_paper};
use crate::rows::push_way;
use model::Way;
use std::alloc::{AllocError, Global};
use std::io::Write;

// The sentence that says which number is missing or does not fit.
pub fn refuse(out: &mut Vec<u8>, place: usize) -> Result<(), AllocError>
    requires { place ≤ 8449 }
    ensures { OnOk result (out.new.items ≡ out.old.items ++ refusal place) }
{
    write!(
        out,
        "Not a paper: number {} is missing or does not fit.\n",
        place + 1
    )
    .map_err(|_| AllocError)
}

// The three ways to look at a paper.
fn push_ways(out: &mut Vec<u8>, heap: Global, cells: &[Cell]) -> Result<(), AllocError>
    ensures { OnOk result (out.new.items ≡ out.old.items ++ (way_printed 0 (cells_of cells.now) ++ (way_printed 1 (cells_of cells.now) ++ way_printed 2 (cells_of cells.now)))) }
{
    push_way(out, heap, cells, Way::Everything)?;
    push_way(out, heap, cells, Way::Accepted)?;
    push_way(out, heap, cells, Way::Rejected)
}

// What is written of a text: its paper, as `write` appends one, or the sentence that refuses it. Rows and a page differ in the first alone.
pub fn print_by<F: FnOnce(&mut Vec<u8>, &Paper) -> Result<(), AllocError>>(
    heap: Global,
    text: &[u8],
    write: F,
) -> Result<Vec<u8>, AllocError>
    requires { F.IsAlwaysCallable write }
    ensures { (shown : ModelPaper → List ℕ) → Appends (F.post write) shown → IfOk result (λ v. Written shown text.now v.items) }
{
    let mut out = Vec::new(heap);
    match read_paper(heap, text) {
        Ok(paper) => write(&mut out, &paper)?,
        Err(ReadError::Ceases(place)) => refuse(&mut out, place)?,
        Err(ReadError::Memory) => return Err(AllocError),
    }
    Ok(out)
}

// What the program prints of a text.
pub fn print(heap: Global, text: &[u8]) -> Result<Vec<u8>, AllocError>
    ensures { IfOk result (λ v. Printed text.now v.items) }
{
    print_by(heap, text, |out, paper| {
        push_ways(out, heap, paper.cells.as_slice())
    })
}

// Of each text one thing only is printed.
pub fn one_output()
    ensures { OneOutput }
{}

#[cfg(test)]
mod tests {
    use super::*;
    use std::test::Fail;
    use text::push_number;

    // No clause says that there is memory: a body that always fails would be proved too.
    #[test]
    fn prints_by(rt: HostRuntime) -> Result<(), Fail> {
        let out = print_by(rt.alloc(), b"0", |out, _| push_number(out, 7))?;
        assert_eq!(rt; out.as_slice(), b"7".as_slice());
        Ok(())
    }

    #[test]
    fn prints_a_refusal(rt: HostRuntime) -> Result<(), Fail> {
        let out = print_by(rt.alloc(), b"0 9", |out, _| push_number(out, 7))?;
        assert_eq!(rt;
            out.as_slice(),
            b"Not a paper: number 2 is missing or does not fit.\n".as_slice()
        );
        Ok(())
    }
}
