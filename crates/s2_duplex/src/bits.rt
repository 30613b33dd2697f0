//! Parity bits, packed into units of 64.

ghost use Rattle.std.specs.Prelude.{◌≡◌, ◌≢◌, ◌<◌, ◌%◌, ℕ, IfOk, false, length, map, slice_index_or, slice_set};
ghost use Rattle.s2_duplex.specs.BoardParity.{is_same_bit, parity_of};
ghost use Rattle.s2_duplex.specs.ParityUnits.{unit_bit};

use s2_base::Memory;
use std::alloc::Global;
use std::marker::Model;

/// How many bits a unit has.
pub(crate) const UNIT_BITS: usize = 64;

/// The even parity bit of a word: set where the number of its bits that are set is odd.
pub(crate) fn parity(word: u32) -> bool
    ensures { result ≡ parity_of word }
{
    word.count_ones() % 2 == 1
}

/// Whether two bits are the same.
pub(crate) fn is_same(a: bool, b: bool) -> bool
    ensures { result ≡ is_same_bit a b }
{
    if a { b } else { !b }
}

/// A unit with one bit, below 64, put in.
fn with_bit(unit: u64, k: usize, bit: bool) -> u64
    requires { k < UNIT_BITS }
    ensures same { unit_bit result k ≡ bit }
    ensures other { (j : ℕ) → j < UNIT_BITS → j ≢ k → unit_bit result j ≡ unit_bit unit j }
{
    if bit {
        unit | (1 << k)
    } else {
        unit & !(1 << k)
    }
}

/// A list of bits, as many as fill its units.
#[derive(Drop)]
pub(crate) struct ParityBits {
    units: Vec<u64>,
}

impl Model for ParityBits {
    ghost use Rattle.std.specs.Prelude.{List, Bool};
    ghost use Rattle.s2_duplex.specs.ParityUnits.{unpacked};

    ghost Value = { List Bool };

    ghost view = { λ bits. unpacked bits.units.items };
}

impl ParityBits {
    /// The parity bits of words, whose number is a multiple of 64.
    ///
    /// `Memory` where the units were refused their memory.
    pub(crate) fn of(alloc: Global, words: &[u32]) -> Result<ParityBits, Memory>
        requires { length words.now % UNIT_BITS ≡ 0 }
        ensures { IfOk result (λ bits. bits ≡ map parity_of words.now) }
    {
        let mut bits = ParityBits::with_len(alloc, words.len())?;
        for i in 0..words.len() {
            bits.set(i, parity(words[i]));
        }
        Ok(bits)
    }

    /// So many bits, a multiple of 64, whatever they are.
    fn with_len(alloc: Global, len: usize) -> Result<ParityBits, Memory>
        requires { len % UNIT_BITS ≡ 0 }
        ensures { IfOk result (λ bits. length bits ≡ len) }
    {
        match vec![in alloc; 0u64; len / UNIT_BITS] {
            Ok(units) => Ok(ParityBits { units }),
            Err(_) => Err(Memory),
        }
    }

    /// Bit `i`, below the length.
    pub(crate) fn get(&self, i: usize) -> bool
        requires { i < length self.now }
        ensures { result ≡ slice_index_or self.now i false }
    {
        (self.units[i / UNIT_BITS] >> (i % UNIT_BITS)) & 1 == 1
    }

    /// Bit `i`, below the length, becomes `bit`.
    pub(crate) fn set(&mut self, i: usize, bit: bool)
        requires { i < length self.old }
        ensures { self.new ≡ slice_set self.old i bit }
    {
        let unit = &mut self.units[i / UNIT_BITS];
        *unit = with_bit(*unit, i % UNIT_BITS, bit);
    }
}
