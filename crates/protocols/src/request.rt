// What a line asks for. A resume holds the hexadecimal digits of its bytes, two for each, and none
// where the line has a hyphen. In a value that no line gave, a byte that is no digit counts as 0 and
// an odd last digit is left out.
#[derive(Clone, Copy)]
pub enum Request<'a> {
    Next,
    Restart,
    Tally,
    Read(usize),
    Save(u32, usize),
    Resume(u32, &'a [u8]),
}
