//! Why an input of a capture gives nothing.
//!
//! A read for which memory is refused fails, as one that the device fails: it takes nothing, and no fault of the text is told.
//! Where that was room for a block, the next read asks again; where it was for a record or for the description of an interface,
//! each read behind it fails.
ghost use Rattle.std.specs.Prelude.{◌≡◌};
ghost use Rattle.pcapng_input.specs.Stops.{is_of_memory};

/// Why an input of a capture gives nothing.
#[derive(Clone, Copy)]
pub enum Stop {
    /// A read of the input below failed, or none may be made of it any more.
    Below,
    /// The text has a fault.
    Fault,
    /// Memory was refused.
    NoMemory,
}

impl Stop {
    /// Whether memory was refused.
    pub fn is_of_memory(self) -> bool
        ensures { result ≡ is_of_memory self }
    {
        match self {
            Stop::Below | Stop::Fault => false,
            Stop::NoMemory => true,
        }
    }
}
