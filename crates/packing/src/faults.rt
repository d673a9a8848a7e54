//! What `pack` refuses: a macro with a part out of range, and memory that is too short.
ghost use Rattle.packing.specs.Faults.{in_pack, no_room, told_pack};
ghost use Rattle.std.specs.Prelude.{◌≡◌};

use macros::faults::{Call, MacroFault, Told};

/// Memory of `given` bytes where `needed` are to be written: refusal 8.
#[derive(Clone, Copy, Debug, PartialEq, Eq)]
pub struct RoomFault {
    pub needed: usize,
    pub given: usize,
}

#[derive(Clone, Copy, Debug, PartialEq, Eq)]
pub enum PackFault {
    Macro(MacroFault),
    Room(RoomFault),
}

/// What `pack` answers where it declines, a type of its own as `ReadRefusal` is.
#[derive(Clone, Copy, Debug, PartialEq, Eq)]
pub struct PackRefusal {
    pub call: Call,
    pub fault: PackFault,
}

impl From<MacroFault> for PackRefusal {
    ghost from_gives = { λ f r. r ≡ in_pack f };

    fn from(fault: MacroFault) -> PackRefusal {
        PackRefusal {
            call: Call::Pack,
            fault: PackFault::Macro(fault),
        }
    }
}

impl From<RoomFault> for PackRefusal {
    ghost from_gives = { λ f r. r ≡ no_room f };

    fn from(fault: RoomFault) -> PackRefusal {
        PackRefusal {
            call: Call::Pack,
            fault: PackFault::Room(fault),
        }
    }
}

impl PackRefusal {
    /// The refusal by its number and spot.
    pub fn told(self) -> Told
        ensures { result ≡ told_pack self }
    {
        match self.fault {
            PackFault::Macro(fault) => fault.told(self.call),
            PackFault::Room(_) => Told {
                number: 8,
                call: self.call,
                bit: None,
                edge: None,
            },
        }
    }
}
