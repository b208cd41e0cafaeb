//! The words of Thrift's compact protocol: the kinds of values, what a field header and a list header say, and why bytes begin
//! with no value.

/// What a field header says (Thrift compact protocol, "Struct encoding").
#[derive(Clone, Copy)]
pub enum Field {
    /// The struct ends here.
    End,
    /// A field with this id follows, whose value has this kind, a number from 1 to 12.
    Next { id: i16, kind: u8 },
}

/// What the header of a list or set says: how many elements follow, and of which kind, a number from 1 to 12 (Thrift compact
/// protocol, "List and set encoding"). Where there are none, the kind may be 0: some writers spell an empty list as the byte 0.
#[derive(Clone, Copy)]
pub struct ListHead {
    pub count: u32,
    pub kind: u8,
}

/// The kinds of values, by how they are spelled.
#[derive(Clone, Copy)]
pub enum Kind {
    /// A truth value. As a field's value it stands in the kind, 1 for true and 2 for false.
    Flag,
    /// 3.
    Byte,
    /// A whole number of 16, 32 or 64 bits: 4, 5 or 6.
    Whole,
    /// 7.
    Double,
    /// A text or any other bytes: 8.
    Binary,
    /// A list or a set: 9 or 10.
    List,
    /// 11.
    Map,
    /// 12.
    Struct,
}

/// Why bytes begin with no value. A place is said by the number of bytes from it to the end.
#[derive(Clone, Copy)]
pub enum Flaw {
    /// They end inside the value.
    Short,
    /// A number that is no kind, a varint of more than 64 bits or a number out of its range stands there.
    BadType { left: usize },
    /// A struct or container begins there inside too many others.
    TooDeep { left: usize },
}
