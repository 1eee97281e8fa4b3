// The lines of a file that are not passed over, one by one.
ghost use Rattle.std.specs.Prelude.{◌≡◌, ◌<◌, ◌∷◌, length};
ghost use Rattle.std.specs.Iterator.{YieldsFirstRef, item_count};
ghost use Rattle.transcript.specs.Transcript.{call_lines, lines_of, passed_over};

// Empty lines and lines that begin with # are passed over.
fn is_passed(line: &[u8]) -> bool
    ensures { result ≡ passed_over line.now }
{
    matches!(line, [] | [b'#', ..])
}

// The first line of a file that has bytes, and what comes after it. A line ends with byte 10 or with the file.
fn first_line(file: &[u8]) -> (&[u8], &[u8])
    requires { 0 < length file.now }
    ensures lines { lines_of file.now ≡ result.0.now ∷ lines_of result.1.now }
    ensures less { length result.1.now < length file.now }
{
    for (i, x) in file.iter().enumerate() {
        if *x == b'\n' {
            return (&file[..i], &file[i + 1..]);
        }
    }
    (file, &[])
}

// The lines of what is left of a file, but for those that are passed over.
#[derive(Clone, Copy, Debug)]
pub(crate) struct Lines<'a> {
    pub(crate) rest: &'a [u8],
}

impl<'a> Iterator for Lines<'a> {
    type Item = &'a [u8];

    ghost next_gives = { YieldsFirstRef (λ s. call_lines s.rest.now) };

    ghost remaining = { item_count (λ s. call_lines s.rest.now) };

    fn next(&mut self) -> Option<&'a [u8]> {
        while let [first, others @ ..] = self.rest {
            // An empty line is passed over at once, as there may be many.
            if *first == b'\n' {
                self.rest = others;
                continue;
            }
            let (line, after) = first_line(self.rest);
            self.rest = after;
            if !is_passed(line) {
                return Some(line);
            }
        }
        None
    }
}
