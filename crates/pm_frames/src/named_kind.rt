//! A kind of device in a frame.

ghost use Rattle.std.specs.Prelude.{◌≡◌, ◌+◌, ◌≤◌, ◌∷◌, ◌↔◌, IsTrue, length};
ghost use Rattle.pm_frames.specs.Kinds.{kind_kind, kind_size};
ghost use Rattle.pm_frames.specs.NamedKinds.{kind_bytes, kind_of_named, is_bare, IsKindFormed, IsValidKind};

use pm_device::Kind;
use pm_wire::read_i32;

/// The numbers by which a frame names a kind of device: 0 a freezer, 1 a heat pump, 2 a cogeneration unit, 3 a battery, 4 a solar
/// panel, 5 a load, and the parameters of the kind in their order. They need not name one.
#[derive(Clone, Copy, Debug, PartialEq, Eq)]
pub struct NamedKind {
    pub(crate) number: u8,
    pub(crate) first: i64,
    pub(crate) second: i64,
    pub(crate) third: i64,
    pub(crate) fourth: i64,
    pub(crate) fifth: i64,
}

/// The first byte, and the bytes behind it.
fn read_byte(bytes: &[u8]) -> (u8, &[u8])
    requires { 1 ≤ length bytes.now }
    ensures { bytes.now ≡ result.0 ∷ result.1.now }
{
    (bytes[0], &bytes[1..])
}

/// The numbers that the bytes after the first one are.
pub(crate) fn read_named_kind(body: &[u8]) -> NamedKind
    requires { kind_size ≡ length body.now + 1 }
    ensures formed { IsKindFormed result }
    ensures spelled { kind_kind ∷ body.now ≡ kind_bytes result }
{
    let (number, rest) = read_byte(body);
    let (first, rest) = read_i32(rest);
    let (second, rest) = read_i32(rest);
    let (third, rest) = read_i32(rest);
    let (fourth, rest) = read_i32(rest);
    let (fifth, _rest) = read_i32(rest);
    NamedKind {
        number,
        first,
        second,
        third,
        fourth,
        fifth,
    }
}

impl NamedKind {
    /// Whether no parameter is named.
    fn is_bare(&self) -> bool
        ensures { result ≡ is_bare self.now }
    {
        self.first == 0
            && self.second == 0
            && self.third == 0
            && self.fourth == 0
            && self.fifth == 0
    }

    /// The kind that is named, if one is. A parameter that it does not have is 0.
    pub(crate) fn kind(&self) -> Option<Kind>
        ensures { result ≡ kind_of_named self.now }
    {
        match self.number {
            0 => Some(Kind::Freezer {
                low: self.first,
                high: self.second,
                power: self.third,
                warm: self.fourth,
                cool: self.fifth,
            }),
            1 => Some(Kind::HeatPump {
                low: self.first,
                high: self.second,
                power: self.third,
                loss: self.fourth,
                gain: self.fifth,
            }),
            2 => Some(Kind::Cogeneration {
                low: self.first,
                high: self.second,
                power: self.third,
                loss: self.fourth,
                gain: self.fifth,
            }),
            3 if self.fifth == 0 => Some(Kind::Battery {
                capacity: self.first,
                charge: self.second,
                discharge: self.third,
                spread: self.fourth,
            }),
            4 if self.is_bare() => Some(Kind::Solar),
            5 if self.is_bare() => Some(Kind::Load),
            _ => None,
        }
    }

    /// Whether a kind is named, and its parameters are within their limits.
    pub(crate) fn is_valid(&self) -> bool
        ensures { IsTrue result ↔ IsValidKind (kind_of_named self.now) }
    {
        match self.kind() {
            Some(kind) => kind.valid(),
            None => false,
        }
    }
}
