//! What is printed by hand of a sheet, and single lines.
use lines::{hex_line, last_line};
use printouts::SheetPager;
use std::test::Fail;

// The lines of a sheet as they are appended, and whether the last is written, with pages of a line, of none
// and of two; and the line of a fault, which is written once.
#[test]
fn paged(rt: HostRuntime) -> Result<(), Fail> {
    let one: [(usize, bool, &str); 4] = [
        (1, false, "0 0000000000000000\n"),
        (0, false, ""),
        (2, true, "1 0100000000000000\nwhole 2 steps 4\n"),
        (2, true, ""),
    ];
    let fault: [(usize, bool, &str); 4] = [
        (0, false, ""),
        (1, true, "fault 12 line 1 layer 3\n"),
        (1, true, ""),
        (2, true, ""),
    ];
    for (sheet, pages) in [("R 1\n. 100\n", one), ("P 25\n. 1\n", fault)] {
        let mut pager = SheetPager::of_sheet(sheet.as_bytes());
        for (limit, done, text) in pages {
            let mut out = Vec::new(rt.alloc());
            assert_eq!(rt; pager.page(&mut out, limit)?, done);
            assert!(rt; out.as_slice() == text.as_bytes());
        }
    }
    Ok(())
}

#[test]
fn single_lines(rt: HostRuntime) -> Result<(), Fail> {
    let mut out = Vec::new(rt.alloc());
    hex_line(&mut out, &[])?;
    hex_line(&mut out, &[0xee, 0x0f])?;
    last_line(&mut out, false, 4_294_967_295, 18_446_744_073_709_551_615)?;
    assert!(rt;
        out.as_slice() == b"\nee0f\nopen 4294967295 steps 18446744073709551615\n".as_slice()
    );
    Ok(())
}
