use hex::FromHexError;
use qu_base::{NoMemory, ReadFail};
use std::alloc::{AllocError, AllocFailed};
use std::io;
use std::num::ParseIntError;

/// Why a case has no answer.
#[derive(Clone, Copy)]
pub enum NoAnswer {
    NoMemory,
    /// A file could not be read.
    File,
    /// No command, part or line is spelled so.
    Word,
    Number,
    /// Neither a name nor hexadecimal digits.
    Bytes,
    /// The bytes are none of what is asked for.
    Part,
    /// A line `flow` where events are made one by one.
    Flow,
    /// A line `fake` there.
    Made,
    /// A script or an event that is refused.
    Event,
}

impl NoAnswer {
    pub fn words(self) -> &'static str {
        match self {
            NoAnswer::NoMemory => "no memory is left",
            NoAnswer::File => "a file is not read",
            NoAnswer::Word => "a word is not known",
            NoAnswer::Number => "a number is not one",
            NoAnswer::Bytes => "bytes are not written so",
            NoAnswer::Part => "the bytes are refused",
            NoAnswer::Flow => "the letters have to be named",
            NoAnswer::Made => "no reply is made here",
            NoAnswer::Event => "a script or an event is refused",
        }
    }
}

impl From<AllocError> for NoAnswer {
    fn from(_error: AllocError) -> NoAnswer {
        NoAnswer::NoMemory
    }
}

impl<T: Drop> From<AllocFailed<T>> for NoAnswer {
    fn from(_error: AllocFailed<T>) -> NoAnswer {
        NoAnswer::NoMemory
    }
}

impl From<NoMemory> for NoAnswer {
    fn from(_error: NoMemory) -> NoAnswer {
        NoAnswer::NoMemory
    }
}

impl From<io::Error> for NoAnswer {
    fn from(_error: io::Error) -> NoAnswer {
        NoAnswer::File
    }
}

impl From<ParseIntError> for NoAnswer {
    fn from(_error: ParseIntError) -> NoAnswer {
        NoAnswer::Number
    }
}

impl From<FromHexError> for NoAnswer {
    fn from(_error: FromHexError) -> NoAnswer {
        NoAnswer::Bytes
    }
}

impl From<ReadFail> for NoAnswer {
    fn from(_fail: ReadFail) -> NoAnswer {
        NoAnswer::Part
    }
}
