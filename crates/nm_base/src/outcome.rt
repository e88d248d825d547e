ghost use Rattle.nm_base.specs.Status.{code_of};
ghost use Rattle.std.specs.Prelude.{◌≡◌};

/// How a run of the program ends. The number of a status is the exit status of the process.
#[derive(Clone, Copy, Debug, PartialEq, Eq)]
pub enum Status {
    /// The work was done.
    Done = 0,
    /// The input was read and refused.
    Refused = 1,
    /// The words of the command line are none of the forms.
    Usage = 2,
    /// Reading the input failed.
    ReadFault = 3,
    /// Writing the output failed.
    WriteFault = 4,
    /// No memory was left.
    NoMemory = 5,
    /// A line of the session is no command.
    BadSession = 6,
    /// The session ended before its last line, or within a document.
    Cut = 7,
    /// The session has more bytes than are taken.
    TooMuch = 8,
    /// The listener failed.
    DoorFault = 10,
}

impl Status {
    /// The exit status of a process that ends so.
    pub fn code(self) -> u8
        ensures { result ≡ code_of self }
    {
        self as u8
    }
}

/// The limits that a refusal can name.
#[derive(Clone, Copy, Debug, PartialEq, Eq)]
pub enum Limit {
    /// 67,108,864 bytes in a document.
    L1,
    /// 1,048,576 statements stated in a full model, and 65,536 in the sections of a difference
    /// model together.
    L2,
    /// 65,536 bytes in a literal, and 2,048 in an IRI.
    L3,
    /// 4,096 live steps.
    L4,
    /// 65,536 commits.
    L5,
    /// 268,435,456 bytes of documents over the base and the log.
    L6,
    /// 64 profiles, 64 dependencies and 4,160 superseded models stated in a header.
    L7,
    /// 256 bytes in a command line before its line feed.
    L8,
    /// 16,384 bytes and 64 field lines in the head of a request.
    L9,
    /// 1 to 32 workers.
    L10,
    /// 4,294,967,296 bytes taken as lines and documents in a session.
    L11,
    /// 65,536 requests on a connection.
    L12,
}
