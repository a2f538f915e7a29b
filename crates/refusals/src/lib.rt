//! The refusals of the engine: one enum, their numbers, and the layers of a sheet's faults.
#![tactic(auto)]

ghost use Rattle.std.specs.Prelude.{◌≡◌, Some};
ghost use Rattle.std.specs.Option.{option_map};
ghost use Rattle.refusals.specs.Numbers.{number_of, layer_of, layer_number};
ghost use Rattle.refusals.specs.Stand.{NumbersStand};
ghost use Rattle.refusals.specs.Words.{refusal_text};

mod layer;

pub use layer::Layer;
use std::error::Error;
use std::fmt;

// Why a call was refused. Each refusal has the number that the rules give it.
#[derive(Clone, Copy, PartialEq, Eq, Debug)]
pub enum Refusal {
    // the buffer is too short
    BufferShort = 1,
    // the block has not 512 bytes
    BlockSize = 2,
    // the block's check disagrees with its bytes
    BlockCheck = 3,
    // the block's head or filling is malformed
    BlockForm = 4,
    // the block was saved under another job number
    JobDiffers = 5,
    // the bytes are not the code of an object
    NotACode = 6,
    // the census is past the end
    PastEnd = 7,
    // the slot's number is the width or more
    SlotRange = 8,
    // a line is empty or begins with another byte
    FirstByte = 9,
    // the rest of a line is malformed
    LineForm = 10,
    // a line is out of place
    LineOrder = 11,
    // a number is out of range
    OutOfRange = 12,
    // a pair is of one region with itself, or of a polygon
    BadPair = 13,
    // the sheet stops early
    SheetShort = 14,
    // the sheet is too long
    SheetLong = 15,
}

impl Refusal {
    pub fn number(self) -> u8
        ensures { result ≡ number_of self }
    {
        self as u8
    }

    // The layer of a sheet's fault; the refusals of other calls have none.
    pub fn layer(self) -> Option<Layer>
        ensures { option_map layer_number result ≡ layer_of self }
    {
        match self {
            Refusal::FirstByte | Refusal::LineForm | Refusal::SheetLong => Some(Layer::Items),
            Refusal::LineOrder | Refusal::SheetShort => Some(Layer::Lines),
            Refusal::OutOfRange | Refusal::BadPair => Some(Layer::SetUp),
            _ => None,
        }
    }
}

// The refusals have the numbers 1 to 15; of a sheet's faults 9, 10 and 15 have layer 1, 11 and 14 layer 2,
// and 12 and 13 layer 3.
pub fn numbers_stand()
    ensures { NumbersStand }
{}

impl fmt::Display for Refusal {
    ghost output = { λ refusal. Some (refusal_text refusal) };

    fn fmt<W: fmt::Write>(&self, f: &mut fmt::Formatter<W>) -> fmt::Result {
        match self {
            Refusal::BufferShort => f.write_str("the buffer is too short"),
            Refusal::BlockSize => f.write_str("the block has not 512 bytes"),
            Refusal::BlockCheck => f.write_str("the block's check disagrees with its bytes"),
            Refusal::BlockForm => f.write_str("the block's head or filling is malformed"),
            Refusal::JobDiffers => f.write_str("the block was saved under another job number"),
            Refusal::NotACode => f.write_str("the bytes are not the code of an object"),
            Refusal::PastEnd => f.write_str("the census is past the end"),
            Refusal::SlotRange => f.write_str("the slot's number is the width or more"),
            Refusal::FirstByte => f.write_str("a line is empty or begins with another byte"),
            Refusal::LineForm => f.write_str("the rest of a line is malformed"),
            Refusal::LineOrder => f.write_str("a line is out of place"),
            Refusal::OutOfRange => f.write_str("a number is out of range"),
            Refusal::BadPair => f.write_str("a pair is of one region with itself, or of a polygon"),
            Refusal::SheetShort => f.write_str("the sheet stops early"),
            Refusal::SheetLong => f.write_str("the sheet is too long"),
        }
    }
}

impl Error for Refusal {}
