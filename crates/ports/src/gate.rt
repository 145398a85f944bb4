/// A moment of the server's work.
#[derive(Clone, Copy, Debug, PartialEq, Eq)]
pub enum Point {
    /// A station is about to check.
    Check {
        /// The station's number.
        station: u32,
        /// The greatest number of a version that the checks waiting at the station ask for.
        version: u64,
    },
    /// A request about a place in a file is about to be answered.
    Interact {
        /// The request's place in the stream of messages.
        place: u64,
    },
    /// The answer to a request was written.
    Written {
        /// The request's place in the stream of messages.
        place: u64,
    },
}

/// Is told each moment, and promises nothing. By it a test holds a thread until another has come as far as it is to.
pub trait Gate {
    /// Is called at a moment, by the thread that comes to it.
    fn at(&self, point: Point);
}

/// A gate that does nothing.
#[derive(Clone, Copy, Debug)]
pub struct OpenGate;

impl Gate for OpenGate {
    fn at(&self, _point: Point) {}
}
