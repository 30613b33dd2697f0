//! The fields of an instruction word.
//!
//! Source: the instruction formats of the MIPS R2000.

ghost use Rattle.std.specs.Prelude.{◌≡◌, ◌<◌, ◌^◌};
ghost use Rattle.s2_decode.specs.Fields.{op_of, rs_of, rt_of, rd_of, sa_of, fn_of, imm_of, target_of};

/// The operation code, bits 31 to 26.
#[inline(always)]
pub fn operation(word: u32) -> u32
    ensures { result ≡ op_of word }
{
    word / 0x0400_0000
}

/// The register in bits 25 to 21.
#[inline(always)]
pub fn rs(word: u32) -> u8
    ensures value { result ≡ rs_of word }
    ensures below { result < 32 }
{
    (word / 0x0020_0000 % 32) as u8
}

/// The register in bits 20 to 16.
#[inline(always)]
pub fn rt(word: u32) -> u8
    ensures value { result ≡ rt_of word }
    ensures below { result < 32 }
{
    (word / 0x0001_0000 % 32) as u8
}

/// The register in bits 15 to 11.
#[inline(always)]
pub fn rd(word: u32) -> u8
    ensures value { result ≡ rd_of word }
    ensures below { result < 32 }
{
    (word / 2048 % 32) as u8
}

/// The shift amount, bits 10 to 6.
#[inline(always)]
pub fn amount(word: u32) -> u8
    ensures value { result ≡ sa_of word }
    ensures below { result < 32 }
{
    (word / 64 % 32) as u8
}

/// The function code, bits 5 to 0.
#[inline(always)]
pub fn function(word: u32) -> u32
    ensures { result ≡ fn_of word }
{
    word % 64
}

/// The immediate or the offset, bits 15 to 0.
#[inline(always)]
pub fn immediate(word: u32) -> u16
    ensures { result ≡ imm_of word }
{
    (word % 65536) as u16
}

/// The target of a jump, bits 25 to 0.
#[inline(always)]
pub fn target(word: u32) -> u32
    ensures value { result ≡ target_of word }
    ensures below { result < 2 ^ 26 }
{
    word % 0x0400_0000
}
