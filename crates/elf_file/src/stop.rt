//! Why a reading stops.

use file_formats::ElfFault;
use file_picture::Need;

/// Why a file's section table isn't read.
#[derive(Clone, Copy, Debug, PartialEq, Eq)]
pub enum Stop {
    /// This range isn't there.
    Need(Need),
    /// A test fails.
    Fault(ElfFault),
}

impl From<Need> for Stop {
    ghost use Rattle.std.specs.Prelude.{◌≡◌};
    ghost use Rattle.elf_file.specs.declared.stop.Stop.TheVariants as stop;

    ghost from_gives = { λ need given. given ≡ stop.Need need };

    fn from(need: Need) -> Stop {
        Stop::Need(need)
    }
}

impl From<ElfFault> for Stop {
    ghost use Rattle.std.specs.Prelude.{◌≡◌};
    ghost use Rattle.elf_file.specs.declared.stop.Stop.TheVariants as stop;

    ghost from_gives = { λ fault given. given ≡ stop.Fault fault };

    fn from(fault: ElfFault) -> Stop {
        Stop::Fault(fault)
    }
}
