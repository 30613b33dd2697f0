//! The devices of the machine.

ghost use Rattle.std.specs.Prelude.{◌≡◌, ◌<◌, ◌≤◌, ◌↔◌, true, false, length, IfOk, IsSome, IsTrue};
ghost use Rattle.s2_base.specs.declared.devices.TheConstants.{CONOUT, HALT, PRIV2};
ghost use Rattle.s2_device.specs.declared.numbers.TheConstants.{WAITING_BYTES};
ghost use Rattle.s2_ports.specs.Events.{IsEventInRange};
ghost use Rattle.s2_device.specs.DeviceState.{empty_slots, quiet_device, lines_of, device_after};
ghost use Rattle.s2_device.specs.DeviceRegisters.{device_access, oldest_of, without_oldest, console_state};

use crate::Effect;
use crate::numbers::{KEYBOARD_LINE, NO_BYTE, OVERRUN, TIMER_LINE, WAITING_BYTES};
use crate::slots::Slots;
use circular_buffer::HeapCircularBuffer;
use s2_base::{CONIN, CONOUT, CONSTAT, HALT, Memory, PRIV, PRIV0, PRIV1, PRIV2, TICKS, TIMACK};
use s2_ports::{Event, NO_VALUE};
use std::alloc::Global;
use std::marker::Model;

/// Console, keyboard, timer, halt register and slots, seen as the record of what they hold.
///
/// What is written to the console and the halt value are no part of it: the access that makes them
/// gives them. Only `new` takes memory.
#[derive(Drop)]
pub struct Board {
    waiting: HeapCircularBuffer<u8>,
    overrun: bool,
    ticks: u32,
    timer: bool,
    next: Slots,
    slots: Slots,
}

/// No processor has put a value into its slot.
const EMPTY_SLOTS: Slots = Slots {
    a: NO_VALUE,
    b: NO_VALUE,
    c: NO_VALUE,
};

impl Model for Board {
    ghost use Rattle.std.specs.Prelude.{◌≡◌, ◌≤◌, length};
    ghost use Rattle.s2_ports.specs.Events.{AreValues};
    ghost use Rattle.s2_device.specs.DeviceState.{Device};
    ghost use Rattle.s2_device.specs.declared.numbers.TheConstants.{WAITING_BYTES};

    ghost Value = { Device };

    ghost view = { λ b. record { waiting = b.waiting.items; overrun = b.overrun; ticks = b.ticks; timer = b.timer; next = b.next; slots = b.slots } };

    ghost invariant = { λ b. (b.waiting.capacity ≡ WAITING_BYTES) × (length b.waiting.items ≤ WAITING_BYTES)
        × AreValues b.next.a b.next.b b.next.c × AreValues b.slots.a b.slots.b b.slots.c };
}

impl Board {
    /// No byte waits and none was lost, no ticks, the timer line down. All memory that the devices ever
    /// need is taken here.
    ///
    /// `Memory` where the room for the waiting bytes was refused.
    pub fn new(alloc: Global) -> Result<Board, Memory>
        ensures { IfOk result (λ b. b ≡ quiet_device) }
    {
        match HeapCircularBuffer::with_capacity(alloc, WAITING_BYTES) {
            Ok(waiting) => Ok(Board {
                waiting,
                overrun: false,
                ticks: 0,
                timer: false,
                next: EMPTY_SLOTS,
                slots: EMPTY_SLOTS,
            }),
            Err(_) => Err(Memory),
        }
    }

    /// The access of register `k`, below 10, by a store of `word` or by a load, which has no word.
    ///
    /// The registers are CONOUT, CONIN, CONSTAT, TICKS, TIMACK and HALT, and PRIV with the three slots.
    pub fn access(&mut self, k: u32, store: bool, word: u32) -> Effect
        requires { k ≤ PRIV2 }
        ensures effect { result ≡ (device_access self.old k store word).effect }
        ensures devices { self.new ≡ (device_access self.old k store word).device }
        ensures out { IsSome result.out ↔ (IsTrue store × (k ≡ CONOUT)) }
        ensures halt { IsSome result.halt ↔ (IsTrue store × (k ≡ HALT)) }
    {
        if store {
            return self.store(k, word);
        }
        let word = self.load(k);
        Effect {
            word,
            out: None,
            halt: None,
        }
    }

    /// An event acts: a tick counts and raises the timer line; a key waits, or is dropped and sets the
    /// overrun where `WAITING_BYTES` wait already; private values, each at most `NO_VALUE`, are those of the
    /// next store to PRIV.
    pub fn deliver(&mut self, event: Event)
        requires { IsEventInRange event }
        ensures { self.new ≡ device_after self.old event }
    {
        match event {
            Event::Tick => {
                self.ticks = self.ticks.wrapping_add(1);
                self.timer = true;
            }
            Event::Key(byte) => {
                if self.waiting.try_push_back(byte).is_err() {
                    self.overrun = true;
                }
            }
            Event::Private { a, b, c } => self.next = Slots { a, b, c },
        }
    }

    /// The devices hold what those of another machine hold. It takes no memory.
    pub fn copy_from(&mut self, other: &Board)
        ensures { self.new ≡ other.now }
    {
        self.waiting.clear();
        let (front, back) = other.waiting.as_slices();
        self.waiting.extend_from_slice(front);
        self.waiting.extend_from_slice(back);
        self.overrun = other.overrun;
        self.ticks = other.ticks;
        self.timer = other.timer;
        self.next = other.next;
        self.slots = other.slots;
    }

    /// The interrupt lines, below 4: that of the keyboard is up while bytes wait.
    pub fn lines(&self) -> u8
        ensures lines { result ≡ lines_of self.now }
        ensures below { result < 4 }
    {
        let keyboard = if self.waiting.is_empty() {
            0
        } else {
            KEYBOARD_LINE
        };
        let timer = if self.timer { TIMER_LINE } else { 0 };
        keyboard + timer
    }

    /// How many bytes wait, at most `WAITING_BYTES`.
    pub fn waiting(&self) -> u8
        ensures waiting { result ≡ length self.now.waiting }
        ensures within { result ≤ WAITING_BYTES }
    {
        self.waiting.len() as u8
    }

    /// Whether a byte was dropped since the last store to CONSTAT.
    pub fn overrun(&self) -> bool
        ensures { result ≡ self.now.overrun }
    {
        self.overrun
    }

    /// A load of register `k`: its word. The byte that CONIN gives is taken.
    fn load(&mut self, k: u32) -> u32
        requires { k ≤ PRIV2 }
        ensures word { result ≡ (device_access self.old k false 0).effect.word }
        ensures devices { self.new ≡ (device_access self.old k false 0).device }
    {
        match k {
            CONIN => self.take_oldest(),
            CONSTAT => self.console_state(),
            TICKS => self.ticks,
            PRIV0 => u32::from(self.slots.a),
            PRIV1 => u32::from(self.slots.b),
            PRIV2 => u32::from(self.slots.c),
            _ => 0,
        }
    }

    /// A store of `word` to register `k`.
    fn store(&mut self, k: u32, word: u32) -> Effect
        requires { k ≤ PRIV2 }
        ensures effect { result ≡ (device_access self.old k true word).effect }
        ensures devices { self.new ≡ (device_access self.old k true word).device }
    {
        let mut effect = Effect {
            word: 0,
            out: None,
            halt: None,
        };
        match k {
            CONOUT => effect.out = Some((word % 256) as u8),
            CONSTAT => self.overrun = false,
            TIMACK => self.timer = false,
            HALT => effect.halt = Some(word),
            PRIV => self.slots = self.next,
            _ => {}
        }
        effect
    }

    /// The oldest waiting byte, which is taken, or `NO_BYTE`.
    fn take_oldest(&mut self) -> u32
        ensures word { result ≡ oldest_of self.old.waiting }
        ensures devices { self.new ≡ without_oldest self.old }
    {
        match self.waiting.pop_front() {
            Some(byte) => u32::from(byte),
            None => NO_BYTE,
        }
    }

    /// How many bytes wait, with the bit `OVERRUN` where one was dropped.
    fn console_state(&self) -> u32
        ensures { result ≡ console_state self.now }
    {
        let waiting = u32::from(self.waiting());
        if self.overrun {
            waiting + OVERRUN
        } else {
            waiting
        }
    }
}
