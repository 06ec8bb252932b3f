// The emulated Byteflight controller: the control state, the sixteen buffers' bytes, and those of the frames in the two waiting places.
// What it shows are document 01's calls, as methods that take the record by value and return the next one with its answer, one for
// each call or event; none asks anything of its caller. The other modules say what a call changes, for these methods and for the step
// on a lent record.
#![tactic(auto, unfolding(masks::specs::Pick::pick))]

mod calls;
pub mod changes;
pub mod events;
pub mod registers;

use contents::Contents;
use rules::{Answer, Control, Fault, SyncKind, Target};

#[repr(C)]
#[derive(Clone, Copy)]
pub struct Controller {
    pub control: Control,
    pub rows: [Contents; 16],
    pub held: [Contents; 2],
}

// What a call or an event is answered, and how many dedicated receive buffers were examined: 0 where no frame was looked up.
#[derive(Clone, Copy)]
pub struct Answered {
    pub answer: Answer,
    pub looked: u8,
}

// The record after a call or an event, and what it is answered.
#[derive(Clone, Copy)]
pub struct Done {
    pub next: Controller,
    pub answered: Answered,
}

// What is stored in a buffer or a waiting place; in none where its number is too large.
#[derive(Clone, Copy)]
pub struct Stored {
    pub to: Target,
    pub contents: Contents,
}

// What a step changes: the control state, and the bytes of one buffer or waiting place at most. It is small, so that a step in place
// writes no more of the record than it changes.
#[derive(Clone, Copy)]
pub struct Change {
    pub control: Control,
    pub stored: Option<Stored>,
    pub answered: Answered,
}

// A call or an event as a value; the frame's bytes and the room for a sent frame go beside it.
#[derive(Clone, Copy)]
pub enum Call {
    Reset,
    Read(u8),
    Write(u8, u8),
    Sync(SyncKind),
    SyncDue,
    Slot(u8),
    Frame(bool),
    Fault(Fault),
    Timeout,
}
