// The refusals of document 01's table, in its order.
ghost use Rattle.std.specs.Prelude.{◌≡◌, ◌≤◌};
ghost use Rattle.format.specs.Refusal.{number_of};

use std::error::Error;
use std::fmt;

#[derive(Clone, Copy, Debug, PartialEq, Eq, PartialOrd, Ord, Hash)]
pub enum Refusal {
    StoreOver = 1,
    NoRecord,
    BadText,
    BadName,
    BadExpr,
    ItemLarge,
    StoreFull,
    BadOrder,
    NoFrames,
    OutputShort,
    NothingToRead,
    BadLine,
}

impl Refusal {
    // Its number in the table.
    pub fn number(self) -> u8
        ensures { result ≡ number_of self }
    {
        self as u8
    }

    // The refusal of a number.
    pub fn of(number: u32) -> Refusal
        requires { (1 ≤ number) × (number ≤ 12) }
        ensures { number_of result ≡ number }
    {
        match number {
            1 => Refusal::StoreOver,
            2 => Refusal::NoRecord,
            3 => Refusal::BadText,
            4 => Refusal::BadName,
            5 => Refusal::BadExpr,
            6 => Refusal::ItemLarge,
            7 => Refusal::StoreFull,
            8 => Refusal::BadOrder,
            9 => Refusal::NoFrames,
            10 => Refusal::OutputShort,
            11 => Refusal::NothingToRead,
            _ => Refusal::BadLine,
        }
    }
}

impl fmt::Display for Refusal {
    fn fmt<W: fmt::Write>(&self, f: &mut fmt::Formatter<W>) -> fmt::Result {
        f.write_str(match self {
            Refusal::StoreOver => "store over its limit, or room used above its length",
            Refusal::NoRecord => "words are no record, more than 4,096, or some left over",
            Refusal::BadText => "text too long, or a span ends past it",
            Refusal::BadName => "a name is not UTF-8",
            Refusal::BadExpr => "an expression is not a constant expression",
            Refusal::ItemLarge => "item over 65,536 bytes",
            Refusal::StoreFull => "room used + item length + 5 above store length",
            Refusal::BadOrder => "order list too long or with another id",
            Refusal::NoFrames => "frames from byte 0 don't end at room used",
            Refusal::OutputShort => "output shorter than the result",
            Refusal::NothingToRead =>
                "no item of that section, or no number of that kind, begins the bytes",
            Refusal::BadLine => "hex line malformed, too long, or with a wrong sum",
        })
    }
}

impl Error for Refusal {}
