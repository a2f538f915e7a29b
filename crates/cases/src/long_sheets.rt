//! Sheets as long as one may be, and a byte longer.
use lines::verdict::verdict_line;
use sheets::sheet_bytes;
use std::test::Fail;

// A sheet of 64 regions with many pair lines and a full stop: 65,525 bytes in front of the stop.
fn long_sheet(rt: &HostRuntime, stop: &[u8]) -> Result<Vec<u8>, Fail> {
    let mut sheet = Vec::new(rt.alloc());
    sheet.extend_from_slice(b"R 64\n")?;
    for _ in 0..10_915 {
        sheet.extend_from_slice(b"- 0 1\n")?;
    }
    for _ in 0..5 {
        sheet.extend_from_slice(b"- 0 10\n")?;
    }
    sheet.extend_from_slice(stop)?;
    Ok(sheet)
}

// The stop line, the bytes of the sheet, those that are taken of it, and the verdict. Of a longer input a byte
// more is taken than a sheet may have.
#[test]
fn longest(rt: HostRuntime) -> Result<(), Fail> {
    let cases: [(&[u8], usize, usize, &str); 3] = [
        (
            b". 100\n",
            65_536,
            65_536,
            "accepted R 64 pairs 2 cap 64 most 100\n",
        ),
        (b". 1000\n", 65_537, 65_537, "fault 15 line 0 layer 1\n"),
        (b". 100000\n", 65_539, 65_537, "fault 15 line 0 layer 1\n"),
    ];
    for (stop, all, most, line) in cases {
        let sheet = long_sheet(&rt, stop)?;
        assert_eq!(rt; sheet.len(), all);
        let mut left = sheet.as_slice();
        let taken = sheet_bytes(rt.alloc(), &mut left)?;
        assert_eq!(rt; taken.len(), most);
        let mut said = Vec::new(rt.alloc());
        verdict_line(&mut said, taken.as_slice())?;
        assert!(rt; said.as_slice() == line.as_bytes());
    }
    Ok(())
}
