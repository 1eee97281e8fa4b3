// Prints a paper: reads the paper's file from standard input, and writes the paper to standard output, in rows or as a page.
#![tactic(auto)]

use anyhow::anyhow;
use std::env;
use std::io::{Read, Write};

#[derive(Clone, Copy, Debug, PartialEq, Eq, Hash)]
enum Task {
    Rows,
    Page,
}

// What the word after the program's name asks for, if it is known.
fn task_of(word: Option<&str>) -> Option<Task> {
    match word {
        None => Some(Task::Rows),
        Some("page") => Some(Task::Page),
        Some(_) => None,
    }
}

fn main(rt: HostRuntime) -> anyhow::Result<()> {
    let heap = rt.alloc();
    let mut args = env::args(&rt)?;
    let _ = args.next();
    let Some(task) = task_of(args.next().as_deref()) else {
        return Ok(println!(rt;
            "paper: rows of the paper whose file is read from standard input; paper page: a page of it"
        )?);
    };
    let mut text = Vec::new(heap);
    rt.stdin().read_to_end(&mut text)?;
    let made = match task {
        Task::Rows => printing::print(heap, text.as_slice()),
        Task::Page => page::write_page(heap, text.as_slice()),
    };
    let out = made.map_err(|_| anyhow!("out of memory"))?;
    rt.stdout().write_all(out.as_slice())?;
    Ok(())
}
