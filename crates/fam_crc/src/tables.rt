//! Tables of what zero bits make of a register that holds one byte.
//!
//! A table has 256 numbers, and `rt fmt` gives each a line, so a file has two or three.

mod bits_1000_to_1008;
mod bits_1016_to_1024;
mod bits_168_to_176;
mod bits_184_to_192;
mod bits_2304_to_2368;
mod bits_2424_to_2488;
mod bits_2496_to_2672;
mod bits_2680_to_2688;
mod bits_32_to_48;
mod bits_56_to_64;
mod bits_8_to_24;

ghost use Rattle.std.specs.Prelude.{◌≡◌};
ghost use Rattle.fam_crc.specs.Crc.{steps};

use crate::tables::bits_8_to_24::{AFTER_8, AFTER_16, AFTER_24};
use crate::tables::bits_32_to_48::{AFTER_32, AFTER_40, AFTER_48};
use crate::tables::bits_56_to_64::{AFTER_56, AFTER_64};
use crate::tables::bits_168_to_176::{AFTER_168, AFTER_176};
use crate::tables::bits_184_to_192::{AFTER_184, AFTER_192};
use crate::tables::bits_1000_to_1008::{AFTER_1000, AFTER_1008};
use crate::tables::bits_1016_to_1024::{AFTER_1016, AFTER_1024};
use crate::tables::bits_2304_to_2368::{AFTER_2304, AFTER_2360, AFTER_2368};
use crate::tables::bits_2424_to_2488::{AFTER_2424, AFTER_2432, AFTER_2488};
use crate::tables::bits_2496_to_2672::{AFTER_2496, AFTER_2624, AFTER_2672};
use crate::tables::bits_2680_to_2688::{AFTER_2680, AFTER_2688};

/// The register that held `byte`, after 8 bits of zero.
pub(crate) fn after_8(byte: u8) -> u32
    ensures { result ≡ steps 8 byte }
{
    AFTER_8[byte as usize]
}

/// The register that held `byte`, after 16 bits of zero.
pub(crate) fn after_16(byte: u8) -> u32
    ensures { result ≡ steps 16 byte }
{
    AFTER_16[byte as usize]
}

/// The register that held `byte`, after 24 bits of zero.
pub(crate) fn after_24(byte: u8) -> u32
    ensures { result ≡ steps 24 byte }
{
    AFTER_24[byte as usize]
}

/// The register that held `byte`, after 32 bits of zero.
pub(crate) fn after_32(byte: u8) -> u32
    ensures { result ≡ steps 32 byte }
{
    AFTER_32[byte as usize]
}

/// The register that held `byte`, after 40 bits of zero.
pub(crate) fn after_40(byte: u8) -> u32
    ensures { result ≡ steps 40 byte }
{
    AFTER_40[byte as usize]
}

/// The register that held `byte`, after 48 bits of zero.
pub(crate) fn after_48(byte: u8) -> u32
    ensures { result ≡ steps 48 byte }
{
    AFTER_48[byte as usize]
}

/// The register that held `byte`, after 56 bits of zero.
pub(crate) fn after_56(byte: u8) -> u32
    ensures { result ≡ steps 56 byte }
{
    AFTER_56[byte as usize]
}

/// The register that held `byte`, after 64 bits of zero.
pub(crate) fn after_64(byte: u8) -> u32
    ensures { result ≡ steps 64 byte }
{
    AFTER_64[byte as usize]
}

/// The register that held `byte`, after 168 bits of zero.
pub(crate) fn after_168(byte: u8) -> u32
    ensures { result ≡ steps 168 byte }
{
    AFTER_168[byte as usize]
}

/// The register that held `byte`, after 176 bits of zero.
pub(crate) fn after_176(byte: u8) -> u32
    ensures { result ≡ steps 176 byte }
{
    AFTER_176[byte as usize]
}

/// The register that held `byte`, after 184 bits of zero.
pub(crate) fn after_184(byte: u8) -> u32
    ensures { result ≡ steps 184 byte }
{
    AFTER_184[byte as usize]
}

/// The register that held `byte`, after 192 bits of zero.
pub(crate) fn after_192(byte: u8) -> u32
    ensures { result ≡ steps 192 byte }
{
    AFTER_192[byte as usize]
}

/// The register that held `byte`, after 1000 bits of zero.
pub(crate) fn after_1000(byte: u8) -> u32
    ensures { result ≡ steps 1000 byte }
{
    AFTER_1000[byte as usize]
}

/// The register that held `byte`, after 1008 bits of zero.
pub(crate) fn after_1008(byte: u8) -> u32
    ensures { result ≡ steps 1008 byte }
{
    AFTER_1008[byte as usize]
}

/// The register that held `byte`, after 1016 bits of zero.
pub(crate) fn after_1016(byte: u8) -> u32
    ensures { result ≡ steps 1016 byte }
{
    AFTER_1016[byte as usize]
}

/// The register that held `byte`, after 1024 bits of zero.
pub(crate) fn after_1024(byte: u8) -> u32
    ensures { result ≡ steps 1024 byte }
{
    AFTER_1024[byte as usize]
}

/// The register that held `byte`, after 2304 bits of zero.
pub(crate) fn after_2304(byte: u8) -> u32
    ensures { result ≡ steps 2304 byte }
{
    AFTER_2304[byte as usize]
}

/// The register that held `byte`, after 2360 bits of zero.
pub(crate) fn after_2360(byte: u8) -> u32
    ensures { result ≡ steps 2360 byte }
{
    AFTER_2360[byte as usize]
}

/// The register that held `byte`, after 2368 bits of zero.
pub(crate) fn after_2368(byte: u8) -> u32
    ensures { result ≡ steps 2368 byte }
{
    AFTER_2368[byte as usize]
}

/// The register that held `byte`, after 2424 bits of zero.
pub(crate) fn after_2424(byte: u8) -> u32
    ensures { result ≡ steps 2424 byte }
{
    AFTER_2424[byte as usize]
}

/// The register that held `byte`, after 2432 bits of zero.
pub(crate) fn after_2432(byte: u8) -> u32
    ensures { result ≡ steps 2432 byte }
{
    AFTER_2432[byte as usize]
}

/// The register that held `byte`, after 2488 bits of zero.
pub(crate) fn after_2488(byte: u8) -> u32
    ensures { result ≡ steps 2488 byte }
{
    AFTER_2488[byte as usize]
}

/// The register that held `byte`, after 2496 bits of zero.
pub(crate) fn after_2496(byte: u8) -> u32
    ensures { result ≡ steps 2496 byte }
{
    AFTER_2496[byte as usize]
}

/// The register that held `byte`, after 2624 bits of zero.
pub(crate) fn after_2624(byte: u8) -> u32
    ensures { result ≡ steps 2624 byte }
{
    AFTER_2624[byte as usize]
}

/// The register that held `byte`, after 2672 bits of zero.
pub(crate) fn after_2672(byte: u8) -> u32
    ensures { result ≡ steps 2672 byte }
{
    AFTER_2672[byte as usize]
}

/// The register that held `byte`, after 2680 bits of zero.
pub(crate) fn after_2680(byte: u8) -> u32
    ensures { result ≡ steps 2680 byte }
{
    AFTER_2680[byte as usize]
}

/// The register that held `byte`, after 2688 bits of zero.
pub(crate) fn after_2688(byte: u8) -> u32
    ensures { result ≡ steps 2688 byte }
{
    AFTER_2688[byte as usize]
}
