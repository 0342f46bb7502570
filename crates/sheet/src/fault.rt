//! Refusals: why a call was turned down, where, and in which layer; and the one place where the
//! causes of the inner layers turn into numbers.

ghost use Rattle.std.specs.Prelude.{◌≡◌, Some};
ghost use Rattle.sheet.specs.Numbers.{cause_number, layer_number, layer_of};
ghost use Rattle.sheet.specs.Refusals.{fault, flaw_cause, refusal_text};
ghost use Rattle.sheet.specs.declared.fault.Cause.TheVariants.{Inconsistent};

use matching::Shortfall;
use std::error::Error;
use std::fmt;
use tables::Flaw;
use walk::Apart;

/// Why a call was refused. The numbers are part of the interface and never move.
#[derive(Clone, Copy, PartialEq, Eq, Debug)]
pub enum Cause {
    /// The size is 0 or above 64.
    Size = 1,
    /// A table has the wrong length.
    TableLength = 2,
    /// A block number is the size or more.
    Block = 3,
    /// A cost is not within 10^9 in each column.
    CostRange = 4,
    /// The pair is absent.
    Absent = 5,
    /// The standing pairs hold no perfect pairing.
    NoPerfectPairing = 6,
    /// The tables do not hold together.
    Inconsistent = 7,
    /// A field runs past the end of the file.
    Overrun = 8,
    /// A field's tag is unknown or out of order.
    Tag = 9,
    /// A field's length is not the one of its tag.
    FieldLength = 10,
    /// The output buffer is too short.
    ShortBuffer = 11,
    /// A line has no form that may come where it stands.
    Line = 12,
    /// The counts of a text are not met.
    Counts = 13,
}

/// The layer that found the fault.
#[derive(Clone, Copy, PartialEq, Eq, Debug)]
pub enum Layer {
    /// The bytes of a field.
    Field = 1,
    /// The order and the form of fields, or of lines.
    Record = 2,
    /// The sheet itself.
    Sheet = 3,
}

/// A refusal. The place is the offset of the faulty field's tag in a file, of the faulty line in a
/// text, and 0 elsewhere.
#[derive(Clone, Copy, PartialEq, Eq, Debug)]
pub struct Fault {
    pub cause: Cause,
    pub place: usize,
    pub layer: Layer,
}

// `refused NUMBER at PLACE layer LAYER`
impl fmt::Display for Fault {
    ghost output = { λ f. Some (refusal_text f) };

    fn fmt<W: fmt::Write>(&self, f: &mut fmt::Formatter<W>) -> fmt::Result {
        let cause = self.cause.number();
        let place = self.place;
        let layer = self.layer.number();
        write!(f, "refused {cause} at {place} layer {layer}")
    }
}

impl Error for Fault {}

impl Cause {
    /// The number that stands for the cause in files, listings and calls from C.
    pub fn number(self) -> u8
        ensures { result ≡ cause_number self }
    {
        self as u8
    }

    /// The layer that refuses for this cause.
    pub fn layer(self) -> Layer
        ensures { result ≡ layer_of self }
    {
        match self {
            Cause::Overrun => Layer::Field,
            Cause::Tag | Cause::FieldLength | Cause::Line | Cause::Counts => Layer::Record,
            _ => Layer::Sheet,
        }
    }

    /// The refusal for this cause at a place.
    pub fn at(self, place: usize) -> Fault
        ensures { result ≡ fault self place }
    {
        Fault {
            cause: self,
            place,
            layer: self.layer(),
        }
    }
}

impl Layer {
    /// The number that stands for the layer.
    pub fn number(self) -> u8
        ensures { result ≡ layer_number self }
    {
        self as u8
    }
}

/// The refusal of a call that takes a state: the state comes back in it, as it was.
#[derive(Drop, Debug)]
pub struct Refusal<S> {
    pub fault: Fault,
    pub state: S,
    /// Where no pairing is perfect, the crowd set and its shortage; else nothing.
    pub shortfall: Option<Shortfall>,
}

// as its fault does
impl<S> fmt::Display for Refusal<S> {
    ghost output = { λ refusal. Some (refusal_text refusal.fault) };

    fn fmt<W: fmt::Write>(&self, f: &mut fmt::Formatter<W>) -> fmt::Result {
        fmt::Display::fmt(&self.fault, f)
    }
}

impl<S: fmt::Debug + Drop> Error for Refusal<S> {}

// The state is let go.
impl<S: Drop> From<Refusal<S>> for Fault {
    ghost from_gives = { λ refusal f. f ≡ refusal.fault };

    fn from(refusal: Refusal<S>) -> Fault {
        refusal.fault
    }
}

// ---- The causes of the inner layers

impl From<Flaw> for Fault {
    ghost from_gives = { λ flaw f. f ≡ fault (flaw_cause flaw) 0 };

    fn from(flaw: Flaw) -> Fault {
        match flaw {
            Flaw::Size => Cause::Size,
            Flaw::Length => Cause::TableLength,
            Flaw::Order => Cause::Inconsistent,
        }
        .at(0)
    }
}

impl From<Apart> for Fault {
    ghost from_gives = { λ _ f. f ≡ fault Inconsistent 0 };

    fn from(_: Apart) -> Fault {
        Cause::Inconsistent.at(0)
    }
}
