//! How the program ended.
ghost use Rattle.std.specs.Prelude.{◌≡◌};
ghost use Rattle.dk_cli.specs.Status.{code_of};

use dk_engine::Refusal;

/// How the program ended.
#[derive(Drop)]
pub enum Status {
    /// The sink took the whole output.
    Done,
    /// The words are no command.
    Usage,
    /// The sink failed: it took a prefix of the output.
    SinkFault,
    /// The source failed.
    SourceFault,
    /// The command was refused, and nothing was written.
    Refused(Refusal),
}

impl Status {
    /// The exit status: 0 for Done, 2 for Usage, 10 for SinkFault, 11 for SourceFault, else the refusal's number. Takes no
    /// memory.
    pub fn code(&self) -> u8
        ensures { result ≡ code_of self.now }
    {
        match self {
            Status::Done => 0,
            Status::Usage => 2,
            Status::SinkFault => 10,
            Status::SourceFault => 11,
            Status::Refused(Refusal::Store) => 3,
            Status::Refused(Refusal::Missing { .. }) => 4,
            Status::Refused(Refusal::Unsupported { .. }) => 5,
            Status::Refused(Refusal::Damaged { .. }) => 7,
            Status::Refused(Refusal::Limit { .. }) => 8,
            Status::Refused(Refusal::OutOfMemory) => 9,
            Status::Refused(Refusal::Conflict { .. }) => 6,
            Status::Refused(Refusal::Invalid { .. }) => 12,
            Status::Refused(Refusal::NoVersion { .. }) => 13,
            Status::Refused(Refusal::Taken { .. }) => 14,
            Status::Refused(Refusal::WinnersGone { .. }) => 15,
            Status::Refused(Refusal::TooEarly { .. }) => 16,
            Status::Refused(Refusal::NothingToDo { .. }) => 17,
            Status::Refused(Refusal::Gone { .. }) => 18,
            Status::Refused(Refusal::NotBegun) => 19,
            Status::Refused(Refusal::NoSpare { .. }) => 20,
        }
    }
}
