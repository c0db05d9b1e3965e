//! The reasons why an image is refused.

ghost use Rattle.std.specs.Prelude.{◌≡◌};
ghost use Rattle.plan_image.specs.declared.fault.ImageFault.TheVariants.{Memory};
ghost use Rattle.plan_image.specs.Faults.{number_of, offset_of};

use plan_text::Memory;
use std::alloc::AllocError;

/// The reason why bytes or tables are refused. An offset counts bytes from 0. If there are several faults, the
/// first one that a reader meets from left to right is returned. If tables are refused that were not read from
/// bytes, the offset is 0.
#[derive(Clone, Copy, PartialEq, Eq)]
pub enum ImageFault {
    /// The bytes don't begin with `PLANIMG`. The offset is 0.
    BadMagic(u64),
    /// The version is neither 1 nor 2. Holds the offset of its byte, 7.
    BadVersion(u64),
    /// The bytes end too early. Holds their length.
    Truncated(u64),
    /// Bytes follow the last default. Holds the offset of the first of them.
    Trailing(u64),
    /// A byte is not a valid sort, kind, opcode or flag. Holds its offset.
    BadTag(u64),
    /// A count, length, depth or number is above its limit. Holds the offset of its field, or 0 if there are
    /// more than 268,435,456 bytes.
    Limit(u64),
    /// Memory ran out. This fault does not depend on the image.
    Memory,
    /// A wait or a default is not greater than the one before it. Holds its offset.
    BadOrder(u64),
    /// An edge names a body that doesn't exist. Holds the offset of the body's number. If tables are refused,
    /// this also means code in the form of the other version, or a different number of operands than the body
    /// has open instructions.
    BadBody(u64),
}

impl ImageFault {
    /// Returns the number that a program prints for the fault, from 60 to 68 in the order of the variants. The
    /// numbers are this project's own choice.
    pub fn number(&self) -> u8
        ensures { result ≡ number_of self.now }
    {
        match self {
            ImageFault::BadMagic(_) => 60,
            ImageFault::BadVersion(_) => 61,
            ImageFault::Truncated(_) => 62,
            ImageFault::Trailing(_) => 63,
            ImageFault::BadTag(_) => 64,
            ImageFault::Limit(_) => 65,
            ImageFault::Memory => 66,
            ImageFault::BadOrder(_) => 67,
            ImageFault::BadBody(_) => 68,
        }
    }

    /// Returns the offset of the fault. Returns None for `Memory`.
    pub fn offset(&self) -> Option<u64>
        ensures { result ≡ offset_of self.now }
    {
        match self {
            ImageFault::BadMagic(at)
            | ImageFault::BadVersion(at)
            | ImageFault::Truncated(at)
            | ImageFault::Trailing(at)
            | ImageFault::BadTag(at)
            | ImageFault::Limit(at)
            | ImageFault::BadOrder(at)
            | ImageFault::BadBody(at) => Some(*at),
            ImageFault::Memory => None,
        }
    }
}

impl From<Memory> for ImageFault {
    ghost from_gives = { λ _ e. e ≡ Memory };

    fn from(_e: Memory) -> ImageFault {
        ImageFault::Memory
    }
}

impl From<AllocError> for ImageFault {
    ghost from_gives = { λ _ e. e ≡ Memory };

    fn from(_e: AllocError) -> ImageFault {
        ImageFault::Memory
    }
}

/// The kind of a fault, without its offset.
#[derive(Clone, Copy, PartialEq, Eq)]
pub(crate) enum Cause {
    BadMagic,
    BadVersion,
    Truncated,
    Trailing,
    BadTag,
    Limit,
    BadOrder,
    BadBody,
}

impl Cause {
    /// Returns the fault with this cause at an offset.
    pub(crate) fn at(self, offset: u64) -> ImageFault
        ensures { result ≡ Rattle.plan_image.specs.Faults.fault_at self offset }
    {
        match self {
            Cause::BadMagic => ImageFault::BadMagic(offset),
            Cause::BadVersion => ImageFault::BadVersion(offset),
            Cause::Truncated => ImageFault::Truncated(offset),
            Cause::Trailing => ImageFault::Trailing(offset),
            Cause::BadTag => ImageFault::BadTag(offset),
            Cause::Limit => ImageFault::Limit(offset),
            Cause::BadOrder => ImageFault::BadOrder(offset),
            Cause::BadBody => ImageFault::BadBody(offset),
        }
    }
}
