ghost use Rattle.std.specs.Prelude.{◌≡◌, Some};
ghost use Rattle.std.specs.Option.{unwrap_or};
ghost use Rattle.refusals.specs.Numbers.{number_of, layer_of};
ghost use Rattle.sheets.specs.Reading.{at_line};
ghost use Rattle.sheets.specs.Told.{fault_words};

use super::fault::Fault;
use items::Place;
use refusals::{Layer, Refusal};
use std::error::Error;
use std::fmt;

impl Fault {
    // At the line of that place.
    pub(crate) fn at(refusal: Refusal, place: Place) -> Self
        ensures { result ≡ at_line refusal place.line }
    {
        Fault {
            refusal,
            line: place.line,
        }
    }

    pub fn number(&self) -> u8
        ensures { result ≡ number_of self.now.refusal }
    {
        self.refusal.number()
    }

    // The layer that finds such a fault, as it is printed: 1 items, 2 lines, 3 set-up. A refusal that is no
    // sheet's would have 0: the call never fails.
    pub fn layer(&self) -> u8
        ensures { result ≡ unwrap_or (layer_of self.now.refusal) 0 }
    {
        self.refusal.layer().map_or(0, Layer::number)
    }
}

impl fmt::Display for Fault {
    ghost output = { λ fault. Some (fault_words fault) };

    fn fmt<W: fmt::Write>(&self, f: &mut fmt::Formatter<W>) -> fmt::Result {
        let number = self.number();
        let line = self.line;
        let layer = self.layer();
        write!(f, "fault {number} line {line} layer {layer}")
    }
}

impl Error for Fault {}
