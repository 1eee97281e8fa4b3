// Puts, insertions, removals and writes at many places of a text with few slots, so that pieces are cut and packed together, beside a plain row of cells.
// In a crate of its own, since a crate with tests is proved twice.
#![tactic(auto)]

ghost use Rattle.std.specs.Prelude.{◌≡◌};

#[cfg(test)]
mod tests {
    use kept::TextMut;
    use model::{Cell, Way};
    use std::process::Abort;
    use std::test::Fail;

    const SLOTS: usize = 5;

    // As many cells as five slots take for sure.
    const MOST: usize = 3072;

    // A text in pieces, and beside it a plain row that is to have the same cells.
    #[derive(Drop)]
    struct Both<'a> {
        text: TextMut<'a>,
        row: Vec<Cell>,
        ghost five: { text.slots ≡ 5 },
    }

    impl Both<'_> {
        // Both have the same cells, and their marks are in the sets.
        fn check(&self, rt: &impl Abort) {
            let text = self.text.text();
            assert!(rt; text.count() == self.row.len());
            for (place, expected) in self.row.iter().enumerate() {
                let spot = text.locate(place);
                let cell = text.cell(spot.piece, spot.offset);
                assert!(rt; cell == *expected);
                if cell.put_in > 0 {
                    assert!(rt; text.may_have(spot.piece, cell.put_in));
                }
                if cell.struck > 0 {
                    assert!(rt; text.may_have(spot.piece, cell.struck));
                }
            }
            for way in [Way::Everything, Way::Accepted, Way::Rejected] {
                self.check_way(rt, way);
            }
        }

        // Each cell of the row that is seen is found in its piece, and each piece counts its own, so that all are counted.
        fn check_way(&self, rt: &impl Abort, way: Way) {
            let text = self.text.text();
            assert!(rt; text.count() == self.row.len());
            let seen = text.seen(way);
            let mut found = 0;
            let mut counts = [0; SLOTS];
            for (place, cell) in self.row.iter().enumerate() {
                if way.sees(*cell) {
                    let piece = text.locate(place).piece;
                    assert!(rt; found < seen);
                    let spot = text.find_seen(way, found);
                    assert!(rt; spot.piece == piece);
                    assert!(rt; spot.offset == counts[piece]);
                    assert!(rt; counts[piece] < 1024);
                    counts[piece] += 1;
                    found += 1;
                }
            }
            assert!(rt; seen == found);
            for (k, count) in counts.iter().enumerate() {
                assert!(rt; text.seen_in(k, way) == *count);
            }
        }

        // Puts letters into both.
        fn put(&mut self, place: usize, letters: &[u8], change: u32) -> Result<(), Fail> {
            let n = self.text.text().seen(Way::Everything);
            if letters.len() > 1024
                || n > MOST - letters.len()
                || place > n
                || place > self.row.len()
                || change > 1000
            {
                return Err(Fail::new("no room"));
            }
            self.text.put(place, letters, 3, change);
            let new = letters.iter().map(|letter| Cell {
                letter: u32::from(*letter),
                style: 3,
                put_in: change + 1,
                struck: 0,
            });
            self.row.splice(place..place, new)?;
            Ok(())
        }

        // Puts the cells whose words `words` has into both.
        fn insert(&mut self, place: usize, words: &[u32]) -> Result<(), Fail> {
            let n = self.text.text().seen(Way::Everything);
            let more = words.len() / 4;
            if more > MOST || n > MOST - more || place > n || place > self.row.len() {
                return Err(Fail::new("no room"));
            }
            self.text.insert(place, words);
            let (cells, _) = words.as_chunks::<4>();
            let new = cells.iter().map(|cell| {
                let [letter, style, put_in, struck] = *cell;
                Cell {
                    letter,
                    style,
                    put_in,
                    struck,
                }
            });
            self.row.splice(place..place, new)?;
            Ok(())
        }

        // Takes `m` cells out of both.
        fn remove(&mut self, place: usize, m: usize) -> Result<(), Fail> {
            let n = self.text.text().seen(Way::Everything).min(self.row.len());
            if place > n || m > n - place {
                return Err(Fail::new("too many"));
            }
            self.text.remove(place, m);
            self.row.drain(place..place + m);
            Ok(())
        }

        // Writes one cell of both.
        fn overwrite(&mut self, rt: &impl Abort, place: usize, cell: Cell) {
            assert!(rt; place < self.text.text().count());
            assert!(rt; place < self.row.len());
            let spot = self.text.text().locate(place);
            self.text.overwrite(spot, cell);
            self.row[place] = cell;
        }

        // Many edits, one after the other.
        fn run(
            &mut self,
            rt: &impl Abort,
            letters: &[u8; 300],
            words: &[u32; 2400],
        ) -> Result<(), Fail> {
            let mut seed: usize = 1;
            // By number: it is the number of the change, and goes over no row.
            for change in 0..300 {
                seed = (seed * 75 + 74) % 65537;
                let many = 1 + seed % 299;
                let n = self.row.len();
                let place = seed % (n + 1);
                if change % 4 == 0 && n <= MOST - 2 * many {
                    self.insert(place, &words[..8 * many])?;
                } else if n <= MOST - many {
                    self.put(place, &letters[..many], change)?;
                } else {
                    self.remove(place / 2, n / 3)?;
                }
                let cell = Cell {
                    letter: 10,
                    style: change,
                    put_in: 0,
                    struck: change + 1,
                };
                self.overwrite(rt, place / 2, cell);
                self.check(rt);
            }
            Ok(())
        }
    }

    #[test]
    fn edits(rt: HostRuntime) -> Result<(), Fail> {
        let mut cells = [7; 20480];
        let mut tables = [7; 34816];
        // All letters in turn.
        let mut letters = [0; 300];
        for (letter, next) in letters.iter_mut().zip((32..127).cycle()) {
            *letter = next;
        }
        // Cells with and without marks.
        let mut words = [0; 2400];
        for (word, next) in words.iter_mut().zip((0..5).cycle()) {
            *word = next;
        }
        kept::clear(&mut cells, &mut tables, SLOTS);
        let mut both = Both {
            text: TextMut {
                cells: &mut cells,
                tables: &mut tables,
                slots: SLOTS,
            },
            row: Vec::new(rt.alloc()),
        };
        both.run(&rt, &letters, &words)
    }
}
