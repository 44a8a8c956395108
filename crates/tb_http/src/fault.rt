//! Why a message could not be read or answered.
ghost use Rattle.std.specs.Prelude.{◌≡◌, length};
ghost use Rattle.tb_http.specs.Fault.{status_of, name_of, body_of, closes_connection};

/// Why a message could not be read, or is no call and no view.
#[derive(Clone, Copy, Debug, PartialEq, Eq)]
pub enum WireFault {
    /// The bytes ended before a message.
    Ended,
    /// The bytes ended within a message.
    Torn,
    /// The reader failed.
    ReadFailed,
    /// The bytes begin no head, or its Host or Content-Length lines are wrong.
    BadHead,
    /// The head is longer than 16,384 bytes, or has more than 64 fields.
    HeadTooLong,
    /// The head asks for a transfer coding.
    Coding,
    /// A POST has no Content-Length.
    NoLength,
    /// The body is longer than 1,048,576 bytes.
    BodyTooLong,
    /// No route has the path.
    NoRoute,
    /// The path has another method.
    NoMethod,
    /// A POST has no readable identifier.
    NoId,
    /// The body isn't what the route takes.
    BadBody,
    /// The clock gave no moment.
    NoClock,
    /// There was no memory.
    Memory,
}

impl WireFault {
    /// The name that an answer gives.
    #[tactic(auto, unfolding(crate::specs::Fault::name_of))]
    pub fn name(self) -> &'static str
        ensures { result.now ≡ name_of self }
    {
        match self {
            WireFault::Ended => "Ended",
            WireFault::Torn => "Torn",
            WireFault::ReadFailed => "ReadFailed",
            WireFault::BadHead => "BadHead",
            WireFault::HeadTooLong => "HeadTooLong",
            WireFault::Coding => "Coding",
            WireFault::NoLength => "NoLength",
            WireFault::BodyTooLong => "BodyTooLong",
            WireFault::NoRoute => "NoRoute",
            WireFault::NoMethod => "NoMethod",
            WireFault::NoId => "NoId",
            WireFault::BadBody => "BadBody",
            WireFault::NoClock => "NoClock",
            WireFault::Memory => "Memory",
        }
    }

    /// The status of the answer, or None where nothing is answered.
    #[tactic(auto, unfolding(crate::specs::Fault::status_of))]
    pub fn status(self) -> Option<u16>
        ensures { result ≡ status_of self }
    {
        match self {
            WireFault::Ended | WireFault::Torn | WireFault::ReadFailed => None,
            WireFault::BadHead | WireFault::NoId | WireFault::BadBody => Some(400),
            WireFault::HeadTooLong => Some(431),
            WireFault::Coding => Some(501),
            WireFault::NoLength => Some(411),
            WireFault::BodyTooLong => Some(413),
            WireFault::NoRoute => Some(404),
            WireFault::NoMethod => Some(405),
            WireFault::NoClock | WireFault::Memory => Some(503),
        }
    }

    /// The body of the answer, which names the fault.
    #[tactic(auto, unfolding(crate::specs::Fault::body_of, crate::specs::Fault::name_of))]
    pub fn body(self) -> &'static str
        ensures { result.now ≡ body_of self }
    {
        match self {
            WireFault::Ended => r#"{"name":"Ended"}"#,
            WireFault::Torn => r#"{"name":"Torn"}"#,
            WireFault::ReadFailed => r#"{"name":"ReadFailed"}"#,
            WireFault::BadHead => r#"{"name":"BadHead"}"#,
            WireFault::HeadTooLong => r#"{"name":"HeadTooLong"}"#,
            WireFault::Coding => r#"{"name":"Coding"}"#,
            WireFault::NoLength => r#"{"name":"NoLength"}"#,
            WireFault::BodyTooLong => r#"{"name":"BodyTooLong"}"#,
            WireFault::NoRoute => r#"{"name":"NoRoute"}"#,
            WireFault::NoMethod => r#"{"name":"NoMethod"}"#,
            WireFault::NoId => r#"{"name":"NoId"}"#,
            WireFault::BadBody => r#"{"name":"BadBody"}"#,
            WireFault::NoClock => r#"{"name":"NoClock"}"#,
            WireFault::Memory => r#"{"name":"Memory"}"#,
        }
    }

    /// Whether the connection is closed after the answer: no further message can be told from the bytes, or
    /// there is no memory to read it.
    #[tactic(auto, unfolding(crate::specs::Fault::closes_connection))]
    pub fn closes(self) -> bool
        ensures { result ≡ closes_connection self }
    {
        match self {
            WireFault::NoRoute
            | WireFault::NoMethod
            | WireFault::NoId
            | WireFault::BadBody
            | WireFault::NoClock => false,
            WireFault::Ended
            | WireFault::Torn
            | WireFault::ReadFailed
            | WireFault::BadHead
            | WireFault::HeadTooLong
            | WireFault::Coding
            | WireFault::NoLength
            | WireFault::BodyTooLong
            | WireFault::Memory => true,
        }
    }
}
