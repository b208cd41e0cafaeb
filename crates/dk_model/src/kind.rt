//! Why a commit can't stand behind another one.

ghost use Rattle.std.specs.Prelude.{◌≡◌};
ghost use Rattle.dk_model.specs.Kinds.{kind_name};

/// How a commit that came in between is in the way of one's own.
#[derive(Clone, Copy, Debug, PartialEq, Eq)]
pub enum Kind {
    /// One of the two has a protocol.
    ProtocolChanged,
    /// The other one has metadata.
    MetadataChanged,
    /// Both speak of one application.
    ConcurrentTransaction,
    /// Both speak of one domain.
    DomainChanged,
    /// The table was read, and the other one adds rows.
    ConcurrentAppend,
    /// The other one removes what was read.
    ConcurrentDeleteRead,
    /// Both remove one file.
    ConcurrentDeleteDelete,
}

impl Kind {
    /// The kind as it is written in an answer.
    pub fn name(self) -> &'static str
        ensures { result.now ≡ kind_name self }
    {
        match self {
            Kind::ProtocolChanged => "ProtocolChanged",
            Kind::MetadataChanged => "MetadataChanged",
            Kind::ConcurrentTransaction => "ConcurrentTransaction",
            Kind::DomainChanged => "DomainChanged",
            Kind::ConcurrentAppend => "ConcurrentAppend",
            Kind::ConcurrentDeleteRead => "ConcurrentDeleteRead",
            Kind::ConcurrentDeleteDelete => "ConcurrentDeleteDelete",
        }
    }
}
