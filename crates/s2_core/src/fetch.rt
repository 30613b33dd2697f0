//! The fetch of an instruction.

ghost use Rattle.std.specs.Prelude.{◌≡◌, length, IfErr};
ghost use Rattle.s2_base.specs.Map.{place_at};
ghost use Rattle.s2_cpu.specs.Exceptions.{IsException};
ghost use Rattle.s2_core.specs.TestOrder.{fetch_outcome, fetch_at_place};

use s2_base::{LOCAL_WORDS, Place, place};
use s2_cp0::{ADEL, IBE};
use s2_cpu::{Access, Cpu, Exc};
use s2_store::Store;

/// The word of an instruction at a physical address.
#[inline(always)]
fn fetch_at<S: Store>(store: &S, pa: u32) -> Result<u32, Exc>
    requires { length (S.words store.now) ≡ LOCAL_WORDS }
    ensures value { result ≡ fetch_at_place (S.words store.now) (place_at pa) }
    ensures sound { IfErr result IsException }
{
    match place(pa) {
        Place::Local(i) | Place::Boot(i) => Ok(store.word(i)),
        Place::Global(_) | Place::Device(_) | Place::Nowhere => Err(Exc::plain(IBE)),
    }
}

/// The word that pc names, or the exception of its fetch.
#[inline(always)]
pub fn fetch<S: Store>(cpu: &Cpu, store: &S) -> Result<u32, Exc>
    requires { length (S.words store.now) ≡ LOCAL_WORDS }
    ensures value { result ≡ fetch_outcome cpu.now (S.words store.now) }
    ensures sound { IfErr result IsException }
{
    if cpu.pc % 4 != 0 {
        return Err(Exc::at(ADEL, cpu.pc));
    }
    match cpu.translate(cpu.pc, Access::Fetch) {
        Ok(pa) => fetch_at(store, pa),
        Err(exc) => Err(exc),
    }
}
