// What the bytes of a rule table and of a header mean: one rule, a whole table, a header.
// Bytes are judged once, and everything above speaks of rules.
#![tactic(auto)]

mod check;
mod fields;
mod headers;
mod numbers;
mod prefixes;
mod records;

pub use check::{action_of, check_rule, check_table, decode};
pub use fields::{length_of, value_of, width_of};
pub use prefixes::Prefixes;
pub use records::{Record, Table, record_at};

pub const RECORD_BYTES: usize = 24;

pub const HEADER_BYTES: usize = 13;

pub const MOST_RULES: usize = 256;

// Source address, destination address, source port, destination port, protocol. A field is a number below 5 and no enum: 01 roots
// field f's paths at record f of an index, the definitions and laws are said of numbers, and the five are gone through in order.
pub const FIELDS: usize = 5;

pub type RecordBytes = [u8; RECORD_BYTES];

#[derive(Clone, Copy, PartialEq, Eq)]
pub enum Action {
    Hold,
    Deliver(u8),
}

// The five values of a packet header.
#[derive(Clone, Copy)]
pub struct Header {
    pub source: u32,
    pub destination: u32,
    pub sport: u16,
    pub dport: u16,
    pub protocol: u8,
}

// Two rules, by their old places, that a move may not carry past each other, and their lowest shared header.
#[derive(Clone, Copy)]
pub struct Crossing {
    pub lower: usize,
    pub higher: usize,
    pub header: Header,
}

// Every refusal of the desk, in the order of its numbers, from 1. specs/Refusal.antt has the numbers and what each carries.
#[derive(Clone, Copy)]
pub enum Refusal {
    RaggedTable,
    TooManyRules,
    LongPrefix(usize),
    StrayBit(usize),
    UnknownAction(usize),
    SpareBytes(usize),
    ShortArea,
    NotAHeader,
    DamagedArea,
    ShortList,
    NotAnOrder,
    ShortOutput,
    NotAllowed(Crossing),
    StrayPort(usize),
}
