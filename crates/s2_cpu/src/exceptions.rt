//! Exceptions as values, and the kinds of access that raise them.

ghost use Rattle.std.specs.Prelude.{◌≡◌, ◌<◌, false};
ghost use Rattle.s2_cpu.specs.Exceptions.{exception, exception_at, CpU, address_error, failed_look_up, is_store, IsException};
ghost use Rattle.s2_cp0.specs.ExceptionEntry.{is_look_up};

use s2_cp0::{ADEL, ADES, CPU, TLBL, TLBS};

/// Why an address is used.
#[derive(Debug, Clone, Copy, PartialEq, Eq)]
pub enum Access {
    /// To fetch an instruction.
    Fetch,
    /// To load.
    Load,
    /// To store.
    Store,
}

/// An exception, with what it leaves in the registers of coprocessor 0.
#[derive(Debug, Clone, Copy, PartialEq, Eq)]
pub struct Exc {
    /// ExcCode, below 16.
    pub code: u8,
    /// Whether the refill vector serves it: a miss in kuseg.
    pub refill: bool,
    /// The virtual address that BadVAddr takes, if it takes one.
    pub bad: Option<u32>,
    /// CE, below 4: the coprocessor of a Coprocessor Unusable, and 0 otherwise.
    pub unit: u8,
}

impl Exc {
    /// An exception that has no address, by its code, below 16; it is none of a look-up.
    pub fn plain(code: u8) -> Exc
        requires code { code < 16 }
        requires no_look_up { is_look_up code ≡ false }
        ensures value { result ≡ exception code }
        ensures sound { IsException result }
    {
        Exc {
            code,
            refill: false,
            bad: None,
            unit: 0,
        }
    }

    /// An exception of the general vector that a virtual address caused, by its code, below 16.
    pub fn at(code: u8, va: u32) -> Exc
        requires { code < 16 }
        ensures value { result ≡ exception_at code va }
        ensures sound { IsException result }
    {
        Exc {
            code,
            refill: false,
            bad: Some(va),
            unit: 0,
        }
    }

    /// Coprocessor Unusable, by the number of the coprocessor, below 4.
    pub fn unusable(unit: u8) -> Exc
        requires { unit < 4 }
        ensures value { result ≡ CpU unit }
        ensures sound { IsException result }
    {
        Exc {
            code: CPU,
            refill: false,
            bad: None,
            unit,
        }
    }

    /// The address error of an access to a virtual address.
    pub fn address_error(access: Access, va: u32) -> Exc
        ensures value { result ≡ address_error access va }
        ensures sound { IsException result }
    {
        match access {
            Access::Fetch | Access::Load => Exc::at(ADEL, va),
            Access::Store => Exc::at(ADES, va),
        }
    }

    /// The exception of an access whose look-up found no valid entry.
    pub fn failed_look_up(access: Access, refill: bool, va: u32) -> Exc
        ensures value { result ≡ failed_look_up access refill va }
        ensures sound { IsException result }
    {
        let code = match access {
            Access::Fetch | Access::Load => TLBL,
            Access::Store => TLBS,
        };
        Exc {
            code,
            refill,
            bad: Some(va),
            unit: 0,
        }
    }
}

impl Access {
    /// Whether it is a store.
    pub fn is_store(self) -> bool
        ensures { result ≡ is_store self }
    {
        match self {
            Access::Fetch | Access::Load => false,
            Access::Store => true,
        }
    }
}
