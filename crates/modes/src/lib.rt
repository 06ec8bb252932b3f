// Entering and leaving initialization, sleeping and waking, the write of $00.
#![tactic(auto)]

ghost use Rattle.std.specs.Prelude.{◌≡◌};
ghost use Rattle.rules.specs.Modes.{entered_mode, enter, left_mode, leave, wake, cancel, write_sleep, written_mode, write_mcr};

use masks::NONE;
use rules::bits::{ALARM, INITRQ, LOCKIE, MASTER, SLPRQ, SSWAI, WPULSE, has};
use rules::{Control, Events, Fifo, Mode, Places};
use waiting::asleep;

// In initialization, awake and unsynchronized.
fn entered_mode(m: Mode) -> Mode
    ensures { result ≡ entered_mode m }
{
    Mode {
        init: true,
        slprq: false,
        synced: false,
        ..m
    }
}

// Out of initialization, unsynchronized.
fn left_mode(m: Mode) -> Mode
    ensures { result ≡ left_mode m }
{
    Mode {
        init: false,
        synced: false,
        ..m
    }
}

// ALARM and SSWAI as written, MASTER and WPULSE too in initialization.
#[tactic(auto, unfolding(masks::specs::Pick::pick))]
fn written_mode(m: Mode, v: u8) -> Mode
    ensures { result ≡ written_mode m v }
{
    let mut next = m;
    next.alarm = has(v, ALARM);
    next.sswai = has(v, SSWAI);
    if m.init {
        next.master = has(v, MASTER);
        next.wpulse = has(v, WPULSE);
    }
    next
}

// Initialization entered, by INITRQ or a lock error.
#[tactic(auto, unfolding(rules::specs::Modes::enter))]
pub fn enter(c: Control) -> Control
    ensures { result ≡ enter c }
{
    let mut next = c;
    next.mode = entered_mode(c.mode);
    next.config.rier = 0;
    next.config.gier = c.config.gier & LOCKIE;
    next.events = Events {
        risr: 0,
        gisr: 0,
        clearing: false,
    };
    next.fifo = Fifo {
        oldest: 0,
        next: 0,
        count: 0,
        locked: false,
    };
    next.places = Places {
        first: NONE,
        second: NONE,
        swapped: false,
    };
    next.buffers.iflg = 0;
    next.buffers.abtak = 0;
    next.buffers.armed = 0;
    next
}

// Initialization left: IFLG of every transmit buffer set.
#[tactic(auto, unfolding(rules::specs::Modes::leave))]
pub fn leave(c: Control) -> Control
    ensures { result ≡ leave c }
{
    let mut next = c;
    next.mode = left_mode(c.mode);
    next.buffers.iflg = c.buffers.cfg | c.buffers.iflg;
    next
}

// Awake, unsynchronized, nothing armed.
#[tactic(auto, unfolding(rules::specs::Modes::wake))]
pub fn wake(c: Control) -> Control
    ensures { result ≡ wake c }
{
    let mut next = c;
    next.mode.slprq = false;
    next.mode.synced = false;
    next.buffers.armed = 0;
    next
}

// SLPRQ cancelled, which is no waking.
#[tactic(auto, unfolding(rules::specs::Modes::cancel))]
pub fn cancel(c: Control) -> Control
    ensures { result ≡ cancel c }
{
    let mut next = c;
    next.mode.slprq = false;
    next
}

// SLPRQ written in normal operation: 1 sleeps if BFEN is set, once no frame waits; 0 wakes a sleeping module, without WAKEIF, and
// cancels a request that still waits.
#[tactic(auto, unfolding(masks::specs::Pick::pick, rules::specs::Modes::write_sleep))]
pub fn write_sleep(c: Control, on: bool) -> Control
    ensures { result ≡ write_sleep c on }
{
    if on {
        let mut next = c;
        if c.config.bfen {
            next.mode.slprq = true;
        }
        next
    } else if asleep(c) {
        wake(c)
    } else {
        cancel(c)
    }
}

// A write of $00 that is not refused.
#[tactic(auto, unfolding(rules::specs::Modes::write_mcr, rules::specs::Modes::mode_by))]
pub fn write_mcr(c: Control, v: u8) -> Control
    ensures { result ≡ write_mcr c v }
{
    let mut next = c;
    next.mode = written_mode(c.mode, v);
    match (c.mode.init, has(v, INITRQ)) {
        (true, true) => next,
        (true, false) => leave(next),
        (false, true) => enter(next),
        (false, false) => write_sleep(next, has(v, SLPRQ)),
    }
}
