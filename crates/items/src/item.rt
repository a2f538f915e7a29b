// Where an item begins: its line, from 1, and its byte in that line, from 0. A number begins with its first
// digit; one that has no digits is where the first would stand.
#[derive(Clone, Copy, PartialEq, Eq, Debug)]
pub struct Place {
    pub line: u32,
    pub at: usize,
}

// What was read, or why nothing was, with the place of the item that says it.
#[derive(Clone, Copy)]
pub struct Placed<T> {
    pub value: T,
    pub place: Place,
}

// A part of the sheet with its place. A number is the digits behind a space, be they none; any other byte is a
// letter, of which a well-formed line has one, its first byte; behind the last byte is the line break.
#[derive(Clone, Copy)]
pub enum Item<'a> {
    Letter(&'a u8, Place),
    Number(&'a [u8], Place),
    Break(Place),
}
