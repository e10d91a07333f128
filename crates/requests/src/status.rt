ghost use Rattle.std.specs.Prelude.{◌≡◌};
ghost use Rattle.requests.specs.Statuses.{status_code};

/// How a request ended: the status of its reply.
#[derive(Clone, Copy, Debug, PartialEq, Eq)]
pub enum Status {
    /// The request is done.
    Done,
    /// There is no row under the key.
    Missing,
    /// The bytes aren't a request, or the request needs an open transaction and there is none.
    Misuse,
    File,
    OtherLayout,
    Damaged,
    NotOpened,
    Lost,
    NotClosed,
    /// There is no store of this name.
    NoStore,
    Conflict,
    Full,
    RowTooLong,
    TooManyKeys,
    TooManyTransactions,
    OutOfMemory,
    Failed,
    Unknown,
    Refused,
}

impl Status {
    ghost use Rattle.std.specs.Prelude.{◌≡◌};
    ghost use Rattle.requests.specs.Statuses.{status_code};

    /// The number that stands for it in a reply.
    pub fn code(self) -> u16
        ensures { result ≡ status_code self }
    {
        match self {
            Status::Done => 0,
            Status::Missing => 1,
            Status::Misuse => 2,
            Status::File => 10,
            Status::OtherLayout => 11,
            Status::Damaged => 12,
            Status::NotOpened => 13,
            Status::Lost => 14,
            Status::NotClosed => 15,
            Status::NoStore => 16,
            Status::Conflict => 20,
            Status::Full => 22,
            Status::RowTooLong => 24,
            Status::TooManyKeys => 25,
            Status::TooManyTransactions => 26,
            Status::OutOfMemory => 27,
            Status::Failed => 28,
            Status::Unknown => 29,
            Status::Refused => 30,
        }
    }
}
