#![tactic(auto)]

// What some bytes read as, in a crate of its own since a crate with tests is proved twice.
#[cfg(test)]
mod tests {
    use codec::Call;
    use std::process::Abort;
    use std::test::Fail;

    // `bytes` is a call and one byte too many. The call alone is read, nothing shorter is, and neither is the whole.
    fn row(rt: &impl Abort, bytes: &[u8], call: Call, letters: &[u8]) -> Result<(), Fail> {
        let Some((_, alone)) = bytes.split_last() else {
            return Err(Fail::new("no bytes"));
        };
        assert_eq!(rt; codec::read(alone), Ok((call, letters)));
        // A range, as `n` is how many bytes are read.
        for n in 0..alone.len() {
            assert_eq!(rt; codec::read(&alone[..n]), Err(n));
        }
        assert_eq!(rt; codec::read(bytes), Err(alone.len()));
        Ok(())
    }

    #[test]
    fn readings(rt: HostRuntime) -> Result<(), Fail> {
        let calls: [(&[u8], Call, &[u8]); 13] = [
            (
                &[
                    0, 7, 0, 0, 0, 1, 2, 0, 0, 3, 0, 0, 0, 2, 0, 0, 0, 104, 105, 9,
                ],
                Call::Put {
                    author: 7,
                    place: 513,
                    style: 3,
                },
                b"hi",
            ),
            (
                &[0, 7, 0, 0, 0, 1, 2, 0, 0, 3, 0, 0, 0, 0, 0, 0, 0, 9],
                Call::Put {
                    author: 7,
                    place: 513,
                    style: 3,
                },
                b"",
            ),
            (
                &[1, 255, 255, 255, 255, 4, 3, 2, 1, 0, 0, 0, 128, 9],
                Call::Strike {
                    author: 4294967295,
                    place: 16909060,
                    count: 2147483648,
                },
                b"",
            ),
            (&[2, 5, 0, 0, 0, 9], Call::Accept { change: 5 }, b""),
            (&[3, 5, 0, 0, 0, 9], Call::Reject { change: 5 }, b""),
            (
                &[4, 1, 0, 0, 0, 2, 0, 0, 0, 3, 0, 0, 0, 9],
                Call::Style {
                    place: 1,
                    count: 2,
                    style: 3,
                },
                b"",
            ),
            (&[5, 9], Call::Undo, b""),
            (&[6, 9], Call::Redo, b""),
            (
                &[7, 2, 0, 0, 0, 64, 0, 0, 0, 0, 1, 0, 0, 10, 0, 0, 0, 9],
                Call::Show {
                    way: 2,
                    width: 64,
                    row: 256,
                    count: 10,
                },
                b"",
            ),
            (
                &[8, 1, 0, 0, 0, 0, 0, 1, 0, 3, 0, 0, 0, 97, 0, 255, 9],
                Call::Find {
                    way: 1,
                    from: 65536,
                },
                &[97, 0, 255],
            ),
            (&[9, 1, 0, 0, 0, 9], Call::Count { way: 1 }, b""),
            (&[10, 0, 0, 0, 1, 9], Call::Change { change: 16777216 }, b""),
            (
                &[11, 1, 0, 0, 0, 2, 0, 0, 0, 9],
                Call::Save { from: 1, count: 2 },
                b"",
            ),
        ];
        for (bytes, call, letters) in calls {
            row(&rt, bytes, call, letters)?;
        }
        let others: [(&[u8], usize); 5] = [
            (&[12, 0, 0, 0, 0], 0),
            (&[255], 0),
            // more letters than follow
            (
                &[0, 7, 0, 0, 0, 1, 0, 0, 0, 2, 0, 0, 0, 3, 0, 0, 0, 104, 105],
                19,
            ),
            (
                &[
                    0, 7, 0, 0, 0, 1, 0, 0, 0, 2, 0, 0, 0, 255, 255, 255, 255, 104,
                ],
                18,
            ),
            (&[8, 1, 0, 0, 0, 0, 0, 0, 0, 255, 255, 255, 255], 13),
        ];
        for (bytes, place) in others {
            assert_eq!(rt; codec::read(bytes), Err(place));
        }
        Ok(())
    }
}
