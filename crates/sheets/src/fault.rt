use refusals::Refusal;

// Why a sheet was refused, and at which line, from 1; a sheet that is too long has line 0, as
// the rules print it.
#[derive(Clone, Copy, PartialEq, Eq, Debug)]
pub struct Fault {
    pub refusal: Refusal,
    pub line: u32,
}
