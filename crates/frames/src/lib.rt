// Step frames: the reader and the writer.
#![tactic(auto)]

mod checks;
mod layout;
mod reader;
mod writer;

pub use reader::{data, read};
pub use writer::write;

#[derive(Clone, Copy)]
pub enum Step {
    Begin {
        command: usize,
    },
    Fetch {
        command: usize,
        address: usize,
        size: usize,
    },
    End {
        command: usize,
    },
    HostWrite {
        address: usize,
        size: usize,
    },
    OwnWrite {
        command: usize,
        address: usize,
        size: usize,
    },
}

// A step, and how many bytes of the frame it took up.
#[derive(Clone, Copy)]
pub struct Parsed {
    pub consumed: usize,
    pub step: Step,
}
