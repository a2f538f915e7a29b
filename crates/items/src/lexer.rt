ghost use Rattle.std.specs.Prelude.{◌≡◌, ◌≤◌, length};
ghost use Rattle.std.specs.Char.{is_ascii_digit};
ghost use Rattle.std.specs.List.{prefix_len};
ghost use Rattle.items.specs.Items.{part_of, place_of, part_at, begins_at};

use super::item::{Item, Place};

// Reads the items of one finished line; the line's break is not among its bytes.
#[derive(Drop)]
pub struct Lexer<'a> {
    line: &'a [u8],
    place: Place,
}

// How many digits stand at the front.
fn digit_run(bytes: &[u8]) -> usize
    ensures value { result ≡ prefix_len is_ascii_digit bytes.now }
    ensures within { result ≤ length bytes.now }
{
    bytes.iter().take_while(|b| b.is_ascii_digit()).count()
}

impl<'a> Lexer<'a> {
    // At the first byte of the line of that number.
    pub fn new(line: &'a [u8], number: u32) -> Self
        ensures line { result.line.now ≡ line.now }
        ensures place { result.place ≡ record { line = number; at = 0 } }
    {
        Lexer {
            line,
            place: Place {
                line: number,
                at: 0,
            },
        }
    }

    // The item from the present place on, which moves behind it; at the end of the line its break.
    pub fn next_item(&mut self) -> Item<'a>
        ensures item { (part_of result, self.new.place.at) ≡ part_at self.old.line.now self.old.place.at }
        ensures place { place_of result ≡ record { line = self.old.place.line; at = begins_at self.old.line.now self.old.place.at } }
        ensures line { self.new.line.now ≡ self.old.line.now }
        ensures number { self.new.place.line ≡ self.old.place.line }
    {
        let line = self.line;
        let start = self.place;
        let Some(first) = line.get(start.at) else {
            return Item::Break(start);
        };
        let behind = Place {
            line: start.line,
            at: start.at + 1,
        };
        if *first != b' ' {
            self.place = behind;
            return Item::Letter(first, start);
        }
        let rest = &line[behind.at..];
        let n = digit_run(rest);
        self.place.at = behind.at + n;
        Item::Number(&rest[0..n], behind)
    }
}
