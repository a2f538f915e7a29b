ghost use Rattle.std.specs.Prelude.{◌≡◌, suc, ok_or};
ghost use Rattle.items.specs.Items.{part_of, place_of, part_at};
ghost use Rattle.items.specs.Texts.{Spells, SevenDigits};
ghost use Rattle.items.specs.Lines.{kind_of, kind_in, number_in, ended, paired, numbered, lettered};
ghost use Rattle.items.specs.Faults.{spot, misfit, numbers_behind, line_read, unplaced, Located, ByHand};

use super::item::{Item, Place, Placed};
use super::lexer::Lexer;
use super::line::{Kind, Line};
use super::numerals::numeral;
use refusals::Refusal;

// The first byte of a line says what the line is about: the five letters are matched as characters.
fn kind_of(byte: u8) -> Option<Kind>
    ensures { result ≡ kind_of byte }
{
    match char::from(byte) {
        'R' => Some(Kind::Regions),
        'P' => Some(Kind::Polygon),
        '-' => Some(Kind::Pair),
        'C' => Some(Kind::Cap),
        '.' => Some(Kind::Stop),
        _ => None,
    }
}

fn place_of(item: Item) -> Place
    ensures { result ≡ place_of item.entry }
{
    match item {
        Item::Letter(_, place) => place,
        Item::Number(_, place) => place,
        Item::Break(place) => place,
    }
}

// What the letter says, or the place of an item that is none of the five.
fn kind_in(item: Item) -> Result<Kind, Place>
    ensures { result ≡ ok_or (kind_in (part_of item.entry)) (place_of item.entry) }
{
    match item {
        Item::Letter(byte, place) => kind_of(*byte).ok_or(place),
        _ => Err(place_of(item)),
    }
}

// The number, or the place of an item that is no number or a malformed one.
fn number_in(item: Item) -> Result<u32, Place>
    ensures { result ≡ ok_or (number_in (part_of item.entry)) (place_of item.entry) }
{
    match item {
        Item::Number(digits, place) => numeral(digits).ok_or(place),
        _ => Err(place_of(item)),
    }
}

// The line, if its break comes next, or the place of what does.
fn end_of(item: Item, line: Line) -> Result<Line, Place>
    ensures { result ≡ ok_or (ended (part_of item.entry) line) (place_of item.entry) }
{
    match item {
        Item::Break(_) => Ok(line),
        _ => Err(place_of(item)),
    }
}

// A pair line behind its first number, or the place of the first item that does not fit.
fn pair_from(first: u32, lexer: &mut Lexer) -> Result<Line, Place>
    ensures { result ≡ ok_or (paired first lexer.old.line.now lexer.old.place.at) (spot lexer.old.place.line (misfit 1 lexer.old.line.now lexer.old.place.at)) }
{
    let second = number_in(lexer.next_item())?;
    end_of(lexer.next_item(), Line::Pair(first, second))
}

// A line behind its first number, or the place of the first item that does not fit.
#[tactic(auto, unfolding(crate::specs::Faults::misfit))]
fn line_from(kind: Kind, first: u32, lexer: &mut Lexer) -> Result<Line, Place>
    ensures { result ≡ ok_or (numbered kind first lexer.old.line.now lexer.old.place.at) (spot lexer.old.place.line (misfit (numbers_behind kind) lexer.old.line.now lexer.old.place.at)) }
{
    match kind {
        Kind::Regions => end_of(lexer.next_item(), Line::Regions(first)),
        Kind::Polygon => end_of(lexer.next_item(), Line::Polygon(first)),
        Kind::Pair => pair_from(first, lexer),
        Kind::Cap => end_of(lexer.next_item(), Line::Cap(first)),
        Kind::Stop => end_of(lexer.next_item(), Line::Stop(first)),
    }
}

// A line behind its letter, or the place of the first item that does not fit.
fn numbers_from(kind: Kind, lexer: &mut Lexer) -> Result<Line, Place>
    ensures { result ≡ ok_or (lettered kind lexer.old.line.now lexer.old.place.at) (spot lexer.old.place.line (misfit (suc (numbers_behind kind)) lexer.old.line.now lexer.old.place.at)) }
{
    let first = number_in(lexer.next_item())?;
    line_from(kind, first, lexer)
}

// The line's letter, and then its numbers.
fn parse_line(bytes: &[u8], number: u32) -> Result<Placed<Line>, Placed<Refusal>>
    ensures { result ≡ line_read bytes.now number }
{
    let mut lexer = Lexer::new(bytes, number);
    let letter = lexer.next_item();
    let kind = kind_in(letter).map_err(|place| Placed {
        value: Refusal::FirstByte,
        place,
    })?;
    let line = numbers_from(kind, &mut lexer).map_err(|place| Placed {
        value: Refusal::LineForm,
        place,
    })?;
    Ok(Placed {
        value: line,
        place: place_of(letter),
    })
}

// What the finished line of that number says, with the place of its letter; or what is wrong with its bytes,
// with the place of the first item that does not fit.
pub fn read_line(bytes: &[u8], number: u32) -> Result<Placed<Line>, Placed<Refusal>>
    ensures value { result ≡ line_read bytes.now number }
    ensures located { Located bytes.now number result }
    ensures by_hand { ByHand bytes.now number result }
    ensures spells { Spells bytes.now (unplaced result) }
    ensures seven_digits { SevenDigits bytes.now (unplaced result) }
{
    parse_line(bytes, number)
}
