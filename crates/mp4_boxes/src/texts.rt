//! Faults and refusals as texts: the words of the program's lines on standard error.
ghost use Rattle.std.specs.Prelude.{◌≡◌, ◌<◌, ◌≤◌, ◌&&◌, nat_le, length};
ghost use Rattle.std.specs.List.{list_all};
ghost use Rattle.mp4_boxes.specs.format.FaultTexts.{hex_digit, kind_text};

use crate::fault::{Fault, Kind};
use crate::four_cc::FourCc;
use crate::refusal::{Memory, Refusal};
use std::error::Error;
use std::fmt;

impl Kind {
    /// The name of the kind, as it stands in a fault's text.
    pub fn name(self) -> &'static str
        ensures name { result.now ≡ kind_text self }
        ensures short { length result.now ≤ 19 }
    {
        match self {
            Kind::ShortHeader => "ShortHeader",
            Kind::BadSize => "BadSize",
            Kind::Overrun => "Overrun",
            Kind::ShortBox => "ShortBox",
            Kind::BoxNotInProfile => "BoxNotInProfile",
            Kind::DuplicateBox => "DuplicateBox",
            Kind::MissingBox => "MissingBox",
            Kind::BadVersion => "BadVersion",
            Kind::BadFlags => "BadFlags",
            Kind::BadValue => "BadValue",
            Kind::OutsideData => "OutsideData",
            Kind::CountMismatch => "CountMismatch",
            Kind::BadOrder => "BadOrder",
            Kind::BadDescriptionIndex => "BadDescriptionIndex",
            Kind::SampleOutsideFile => "SampleOutsideFile",
            Kind::UnknownTrack => "UnknownTrack",
            Kind::Gap => "Gap",
            Kind::OffsetTooLarge => "OffsetTooLarge",
            Kind::ItemLocation => "ItemLocation",
            Kind::TooManySamples => "TooManySamples",
            Kind::TimeTooLarge => "TimeTooLarge",
            Kind::MovieTooLarge => "MovieTooLarge",
            Kind::FragmentBeforeMovie => "FragmentBeforeMovie",
        }
    }
}

impl fmt::Display for Kind {
    ghost output = { λ kind. Some (kind_text kind) };

    ghost use Rattle.std.specs.Prelude.{Some};

    fn fmt<W: fmt::Write>(&self, f: &mut fmt::Formatter<W>) -> fmt::Result {
        write!(f, "{}", self.name())
    }
}

impl FourCc {
    /// Whether all four bytes are printable characters of ASCII.
    pub fn is_text(&self) -> bool
        ensures { result ≡ list_all (λ b. nat_le 32 b && nat_le b 126) self.now.0 }
    {
        self.0.iter().all(|byte| 32 <= *byte && *byte <= 126)
    }
}

// A digit of a hexadecimal number, in lower case.
fn digit_char(digit: u8) -> char
    requires { digit < 16 }
    ensures { result ≡ hex_digit digit }
{
    char::from(if digit < 10 { 48 + digit } else { 87 + digit })
}

// A byte as two hexadecimal digits.
#[derive(Clone, Copy)]
struct Hex(u8);

impl fmt::Display for Hex {
    ghost use Rattle.std.specs.Prelude.{Some};
    ghost use Rattle.mp4_boxes.specs.format.FaultTexts.{hex_digits};

    ghost output = { λ byte. Some (hex_digits 2 byte.0) };

    fn fmt<W: fmt::Write>(&self, f: &mut fmt::Formatter<W>) -> fmt::Result {
        let (high, low) = (digit_char(self.0 / 16), digit_char(self.0 % 16));
        write!(f, "{high}{low}")
    }
}

/// The four characters; eight hexadecimal digits where some byte is no printable character.
impl fmt::Display for FourCc {
    ghost use Rattle.std.specs.Prelude.{Some};
    ghost use Rattle.mp4_boxes.specs.format.FaultTexts.{type_text};

    ghost output = { λ kind. Some (type_text kind.0) };

    fn fmt<W: fmt::Write>(&self, f: &mut fmt::Formatter<W>) -> fmt::Result {
        let [a, b, c, d] = self.0;
        if self.is_text() {
            let (a, b) = (char::from(a), char::from(b));
            let (c, d) = (char::from(c), char::from(d));
            write!(f, "{a}{b}{c}{d}")
        } else {
            let (a, b, c, d) = (Hex(a), Hex(b), Hex(c), Hex(d));
            write!(f, "{a}{b}{c}{d}")
        }
    }
}

/// As `Gap in tfdt at 793`.
impl fmt::Display for Fault {
    ghost use Rattle.std.specs.Prelude.{Some};
    ghost use Rattle.mp4_boxes.specs.format.FaultTexts.{fault_text};

    ghost output = { λ fault. Some (fault_text fault) };

    fn fmt<W: fmt::Write>(&self, f: &mut fmt::Formatter<W>) -> fmt::Result {
        let kind = self.kind;
        let named = FourCc(self.box_type);
        let offset = self.offset;
        write!(f, "{kind} in {named} at {offset}")
    }
}

impl Error for Fault {}

impl fmt::Display for Memory {
    ghost use Rattle.std.specs.Prelude.{Some, codes};

    ghost output = { λ _. Some (codes "failed: memory") };

    fn fmt<W: fmt::Write>(&self, f: &mut fmt::Formatter<W>) -> fmt::Result {
        write!(f, "failed: memory")
    }
}

impl Error for Memory {}

/// As `refused: Gap in tfdt at 793`, `failed: store`.
impl fmt::Display for Refusal {
    ghost use Rattle.std.specs.Prelude.{Some};
    ghost use Rattle.mp4_boxes.specs.format.FaultTexts.{fault_line};

    ghost output = { λ refusal. Some (fault_line refusal) };

    fn fmt<W: fmt::Write>(&self, f: &mut fmt::Formatter<W>) -> fmt::Result {
        match self {
            Refusal::Fault(fault) => write!(f, "refused: {fault}"),
            Refusal::Memory => write!(f, "failed: memory"),
            Refusal::StoreFailed => write!(f, "failed: store"),
            Refusal::StoreChanged => write!(f, "failed: store changed"),
            Refusal::WriteFailed => write!(f, "failed: write"),
            Refusal::NoSuchTrack => write!(f, "failed: no such track"),
        }
    }
}

impl Error for Refusal {}
