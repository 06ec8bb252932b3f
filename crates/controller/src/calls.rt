// Document 01's calls and events, each a method that takes the record by value.
ghost use Rattle.std.specs.Prelude.{◌≡◌};
ghost use Rattle.rules.specs.Flags.{lines_of};
ghost use Rattle.rules.specs.Steps.Step.{reset, read, write, sync, sync_due, slot, frame, fault, timeout};
ghost use Rattle.controller.specs.Carry.{reset_state};
ghost use Rattle.controller.specs.Session.{step_of};
ghost use Rattle.controller.specs.Calls.{done_of, step_for, room_for};

use crate::changes::{accepted, carried};
use crate::{Call, Controller, Done, events, registers};
use contents::BLANK;
use filter::Filter;
use locks::Locks;
use masks::NONE;
use rules::{Buffers, Config, Control, Events, Fault, Fifo, Mode, Places, SyncKind};

impl Controller {
    // The record after reset.
    #[tactic(auto, unfolding(crate::specs::Carry::reset_state, rules::specs::Registers::reset_control))]
    pub fn after_reset() -> Controller
        ensures { result ≡ reset_state }
    {
        let open = Filter {
            pattern: 0,
            mask: 0xFF,
        };
        let free = Locks {
            holder: NONE,
            contender: NONE,
        };
        Controller {
            control: Control {
                mode: Mode {
                    init: true,
                    master: false,
                    alarm: false,
                    slprq: false,
                    wpulse: false,
                    sswai: false,
                    synced: false,
                    last: 0,
                },
                config: Config {
                    fsiz: 0,
                    tcr1: 0,
                    tcr2: 0,
                    tcr3: 0,
                    rier: 0,
                    gier: 0,
                    accept: open,
                    reject: open,
                    bfen: false,
                },
                events: Events {
                    risr: 0,
                    gisr: 0,
                    clearing: false,
                },
                fifo: Fifo {
                    oldest: 0,
                    next: 0,
                    count: 0,
                    locked: false,
                },
                receive: free,
                transmit: free,
                places: Places {
                    first: NONE,
                    second: NONE,
                    swapped: false,
                },
                buffers: Buffers {
                    cfg: 0,
                    iena: 0,
                    iflg: 0,
                    abtak: 0,
                    armed: 0,
                },
            },
            rows: [BLANK; 16],
            held: [BLANK; 2],
        }
    }

    // The five interrupt lines: 4 FIFO, 3 receive, 2 sync, 1 XSYNC, 0 general.
    pub fn lines(self) -> u8
        ensures { result ≡ lines_of self.control }
    {
        let c = self.control;
        reads::flags::lines(c)
    }

    // A reset, whatever the record.
    pub fn reset(self) -> Done
        ensures { result ≡ done_of (step_of self reset) }
    {
        Done {
            next: Controller::after_reset(),
            answered: accepted(),
        }
    }

    // A register read. It changes nothing.
    pub fn read(self, a: u8) -> Done
        ensures { result ≡ done_of (step_of self (read a)) }
    {
        let c = self.control;
        let i = registers::window_row(c, a);
        let row = self.rows[i];
        Done {
            next: self,
            answered: registers::read_answer(c, a, row),
        }
    }

    // A register write.
    pub fn write(self, a: u8, v: u8) -> Done
        ensures { result ≡ done_of (step_of self (write a v)) }
    {
        let c = self.control;
        if a < 0x50 {
            let i = registers::window_row(c, a);
            let row = self.rows[i];
            return carried(self, registers::write_change(c, a, v, row));
        }
        let k = registers::newest_place(c, a - 0x50);
        let image = self.held[k];
        carried(self, registers::write_change(c, a, v, image))
    }

    // A sync of a kind.
    pub fn sync(self, k: SyncKind) -> Done
        ensures { result ≡ done_of (step_of self (sync k)) }
    {
        carried(self, events::sync(self, k))
    }

    // A sync due.
    pub fn sync_due(self) -> Done
        ensures { result ≡ done_of (step_of self sync_due) }
    {
        carried(self, events::sync_due(self))
    }

    // Slot i. A sent frame fills the first bytes of the room, and the rest stays, as the whole room does on any other answer.
    pub fn slot(self, i: u8, room: &mut [u8]) -> Done
        ensures value { result ≡ done_of (step_of self (slot i room.old)) }
        ensures room_after { room.new ≡ (step_of self (slot i room.old)).room }
    {
        let r = events::slot_ruling(self, i, room.len());
        let k = events::row_of(r);
        let row = self.rows[k];
        carried(self, events::slot_change(r, row, room))
    }

    // A frame: its verdict and its bytes.
    pub fn frame(self, good: bool, f: &[u8]) -> Done
        ensures { result ≡ done_of (step_of self (frame good f.now)) }
    {
        let r = events::frame_ruling(self, good, f);
        carried(self, events::frame_change(r, f))
    }

    // A fault of the bus.
    pub fn fault(self, k: Fault) -> Done
        ensures { result ≡ done_of (step_of self (fault k)) }
    {
        carried(self, events::fault(self, k))
    }

    // The alarm timeout.
    pub fn timeout(self) -> Done
        ensures { result ≡ done_of (step_of self timeout) }
    {
        carried(self, events::timeout(self))
    }

    // The call as a value: what its own method gives. Only a slot looks at the room, and only a frame at the bytes f.
    pub fn step(self, call: Call, f: &[u8], room: &mut [u8]) -> Done
        ensures value { result ≡ done_of (step_of self (step_for call f.now room.old)) }
        ensures room_after { room.new ≡ room_for self call room.old }
    {
        match call {
            Call::Reset => self.reset(),
            Call::Read(a) => self.read(a),
            Call::Write(a, v) => self.write(a, v),
            Call::Sync(k) => self.sync(k),
            Call::SyncDue => self.sync_due(),
            Call::Slot(i) => self.slot(i, room),
            Call::Frame(good) => self.frame(good, f),
            Call::Fault(k) => self.fault(k),
            Call::Timeout => self.timeout(),
        }
    }
}
