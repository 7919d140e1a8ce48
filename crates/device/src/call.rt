// Calls on a device as values, and their answers.
use super::exchange::Exchange;
use rows::refusal::Refusal;
use rows::row::Row;

// A call on a device: a value, so that a promise can speak of every list of calls.
#[derive(Clone, Copy)]
pub enum DeviceCall {
    Put { slot: usize, row: Row },
    Empty { slot: usize },
    Read { slot: usize },
    Mute { on: bool },
    Ask { number: u64 },
}

// What a device answers to a call that it grants.
#[derive(Clone, Copy, PartialEq, Eq, Debug)]
pub enum DeviceAnswer {
    Done,
    Holds(Option<Row>),
    Says(bool),
}

// A call on a device, and the place for its answer.
pub type DeviceExchange = Exchange<DeviceCall, Result<DeviceAnswer, Refusal>>;
