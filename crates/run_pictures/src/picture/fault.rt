//! Why a picture was not written.

ghost use Rattle.std.specs.Prelude.{◌≡◌};
ghost use Rattle.run_pictures.specs.declared.picture.fault.PictureFault.TheVariants.{Device, Memory};

use std::alloc::AllocError;
use swift_report::Device;

/// Why a picture was not written to its end (our own). A prefix of it may have been.
#[derive(Clone, Copy, Debug, PartialEq, Eq)]
pub enum PictureFault {
    /// There was no memory for a piece of its text.
    Memory,
    /// A write failed, or took no byte.
    Device,
}

impl From<AllocError> for PictureFault {
    ghost from_gives = { λ _ f. f ≡ Memory };

    fn from(_fault: AllocError) -> PictureFault {
        PictureFault::Memory
    }
}

impl From<Device> for PictureFault {
    ghost from_gives = { λ _ f. f ≡ Device };

    fn from(_fault: Device) -> PictureFault {
        PictureFault::Device
    }
}
