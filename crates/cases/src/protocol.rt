//! A protocol read as a whole and carried out, with the lines that the rules give.
use engine::run::run;
use maps::map_of;
use printouts::answer_line;
use protocols::read_protocol;
use regions::Regions;
use std::test::Fail;

// Acts over the path of three regions, each with the line that is printed of it. An asterisk stands for the 492
// bytes of filling of a mark block. The block is that of regions 0 and 1 under job 7, with the check 87; then
// come its check wrong, its byte 0 wrong, and the code of regions 0 and 2, which do not touch.
const ACTS: [(&str, &str); 28] = [
    ("next", "1"),
    ("next", "1"),
    ("next", "2"),
    ("tally", "4 9"),
    ("read 9", "0300000000000000ee"),
    ("read 7", "refused 1"),
    ("save 7 511", "refused 1"),
    ("save 7 513", "01000800070000000300000000000000*57000000ee"),
    ("next", "1"),
    ("next", "2"),
    ("next", "3"),
    ("next", "end"),
    ("tally", "7 39"),
    ("next", "refused 7"),
    ("read 0", "refused 7"),
    ("save 7 0", "refused 7"),
    ("resume 7 -", "refused 2"),
    (
        "resume 7 01000800070000000300000000000000*58000000",
        "refused 3",
    ),
    (
        "resume 7 02000800070000000300000000000000*58000000",
        "refused 4",
    ),
    (
        "resume 8 01000800070000000300000000000000*57000000",
        "refused 5",
    ),
    (
        "resume 7 01000800070000000500000000000000*69000000",
        "refused 6",
    ),
    ("tally", "7 39"),
    ("resume 7 01000800070000000300000000000000*57000000", "done"),
    ("tally", "1 0"),
    ("next", "1"),
    ("tally", "2 13"),
    ("restart", "done"),
    ("tally", "1 0"),
];

// A line of the table, with its filling in place.
fn push_line(out: &mut Vec<u8>, line: &str) -> Result<(), Fail> {
    for byte in line.as_bytes() {
        if *byte == b'*' {
            out.extend_from_slice(&[b'0'; 984])?;
        } else {
            out.extend_from_slice(&[*byte])?;
        }
    }
    out.extend_from_slice(b"\n")?;
    Ok(())
}

#[test]
fn every_act(rt: HostRuntime) -> Result<(), Fail> {
    let mut acts = Vec::new(rt.alloc());
    let mut text = Vec::new(rt.alloc());
    for (act, line) in ACTS {
        push_line(&mut acts, act)?;
        push_line(&mut text, line)?;
    }
    let map = map_of(3, &[(0, 1), (1, 2)])?;
    let mut calls = read_protocol(rt.alloc(), acts.as_slice())?;
    let _census = run(Regions::new(&map), calls.as_mut_slice());
    let mut said = Vec::new(rt.alloc());
    for call in calls.iter() {
        answer_line(&mut said, call)?;
    }
    assert!(rt; said.as_slice() == text.as_slice());
    Ok(())
}
