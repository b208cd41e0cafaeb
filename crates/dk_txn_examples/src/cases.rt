//! The cases. The wanted answers were written by hand from the rules of transactions, never taken from the program's own output.

use dk_store::{Call, How};

const FIRST: &str = "_delta_log/00000000000000000000.json";

const SECOND: &str = "_delta_log/00000000000000000001.json";

const THIRD: &str = "_delta_log/00000000000000000002.json";

const FOURTH: &str = "_delta_log/00000000000000000003.json";

const LAST: &str = "_delta_log/09223372036854775807.json";

const CHECKPOINT: &str = "_delta_log/00000000000000000001.checkpoint.parquet";

const STAGED: &str =
    "_delta_log/_staged_commits/00000000000000000001.0a1b2c3d-4e5f-4678-9abc-def012345678.json";

pub const STAGED_NAME: &str = "00000000000000000001.0a1b2c3d-4e5f-4678-9abc-def012345678.json";

const TABLE: &str = r#"{"protocol":{"minReaderVersion":1,"minWriterVersion":1}}
{"metaData":{"configuration":{},"format":{"options":{},"provider":"parquet"},"id":"t","partitionColumns":[],"schemaString":"{}"}}
{"add":{"dataChange":true,"modificationTime":5,"partitionValues":{},"path":"a","size":1}}
"#;

const EMPTY_TABLE: &str = r#"{"protocol":{"minReaderVersion":1,"minWriterVersion":1}}
{"metaData":{"configuration":{},"format":{"options":{},"provider":"parquet"},"id":"t","partitionColumns":[],"schemaString":"{}"}}
"#;

const TABLE_OF_DOMAINS: &str =
    r#"{"protocol":{"minReaderVersion":1,"minWriterVersion":7,"writerFeatures":["domainMetadata"]}}
{"metaData":{"configuration":{},"format":{"options":{},"provider":"parquet"},"id":"t","partitionColumns":[],"schemaString":"{}"}}
"#;

const PROTOCOL: &str = r#"{"protocol":{"minReaderVersion":1,"minWriterVersion":1}}
"#;

const METADATA: &str =
    r#"{"metaData":{"configuration":{},"format":{"options":{},"provider":"parquet"},"id":"t","partitionColumns":[],"schemaString":"{}"}}
"#;

const ADD_A: &str =
    r#"{"add":{"dataChange":true,"modificationTime":5,"partitionValues":{},"path":"a","size":1}}
"#;

const ADD_B: &str =
    r#"{"add":{"dataChange":true,"modificationTime":5,"partitionValues":{},"path":"b","size":1}}
"#;

const ADD_C: &str =
    r#"{"add":{"dataChange":true,"modificationTime":5,"partitionValues":{},"path":"c","size":1}}
"#;

const ADD_C_TWICE: &str =
    r#"{"add":{"dataChange":true,"modificationTime":5,"partitionValues":{},"path":"c","size":1}}
{"add":{"dataChange":true,"modificationTime":5,"partitionValues":{},"path":"c","size":1}}
"#;

const REMOVE_A: &str = r#"{"remove":{"dataChange":true,"deletionTimestamp":1,"path":"a"}}
"#;

const LOADED: &str = r#"{"txn":{"appId":"loader","version":7}}
"#;

const ADD_B_AND_LOADED: &str =
    r#"{"add":{"dataChange":true,"modificationTime":5,"partitionValues":{},"path":"b","size":1}}
{"txn":{"appId":"loader","version":7}}
"#;

const DOMAIN: &str = r#"{"domainMetadata":{"configuration":"c","domain":"d","removed":false}}
"#;

const OWN_ADD_B: &str =
    r#"{"commitInfo":{"engineInfo":"deltak","timestamp":1000,"txnId":"00000000-0000-0000-0000-000000000020"}}
{"add":{"dataChange":true,"modificationTime":5,"partitionValues":{},"path":"b","size":1}}
"#;

const OWN_TABLE: &str =
    r#"{"commitInfo":{"engineInfo":"deltak","timestamp":1000,"txnId":"00000000-0000-0000-0000-000000000020"}}
{"protocol":{"minReaderVersion":1,"minWriterVersion":1}}
{"metaData":{"configuration":{},"format":{"options":{},"provider":"parquet"},"id":"t","partitionColumns":[],"schemaString":"{}"}}
{"add":{"dataChange":true,"modificationTime":5,"partitionValues":{},"path":"a","size":1}}
"#;

/// What was read of the table.
#[derive(Clone, Copy)]
pub enum Read {
    Nothing,
    Table,
    FileA,
}

/// One step of a case. Texts at the end are what it is to answer.
pub enum Step {
    /// The transaction begins at the latest version, and puts the case's actions.
    Begin,
    /// Another writer puts an object.
    Put(&'static str, &'static str),
    /// Another writer is to put this where the next commit is put, right before it; the last that is said comes first.
    ComeFirst(&'static str),
    /// The staged commit of version 1 is ratified.
    Ratify,
    Delete(&'static str),
    /// The next call of this kind fails.
    Fail(Call, How),
    Check(&'static str),
    Commit(&'static str),
    /// The case's actions are committed in one call, with this limit of objects in bytes.
    Whole(u64, &'static str),
    /// An object has this text; where that is empty there is none.
    Holds(&'static str, &'static str),
    /// So many clashes were counted so far.
    Clashes(u64),
}

/// What a transaction has read, what it is to commit, and what comes to pass.
pub struct Case {
    pub name: &'static str,
    pub read: Read,
    pub own: &'static str,
    pub steps: &'static [Step],
}

/// Others commit meanwhile.
pub const TRANSACTIONS: [Case; 19] = [
    Case {
        name: "nobody was there",
        read: Read::Table,
        own: REMOVE_A,
        steps: &[
            Step::Put(FIRST, TABLE),
            Step::Begin,
            Step::Check("version 1"),
            Step::Commit("version 1"),
        ],
    },
    Case {
        name: "both remove one file",
        read: Read::Nothing,
        own: REMOVE_A,
        steps: &[
            Step::Put(FIRST, TABLE),
            Step::Begin,
            Step::Put(SECOND, REMOVE_A),
            Step::Check("ConcurrentDeleteDelete 1"),
            Step::Commit("ConcurrentDeleteDelete 1"),
        ],
    },
    Case {
        name: "both add",
        read: Read::Nothing,
        own: ADD_C,
        steps: &[
            Step::Put(FIRST, TABLE),
            Step::Begin,
            Step::Put(SECOND, ADD_B),
            Step::Check("version 2"),
            Step::Commit("version 2"),
        ],
    },
    Case {
        name: "the winner has a protocol",
        read: Read::Nothing,
        own: ADD_C,
        steps: &[
            Step::Put(FIRST, TABLE),
            Step::Begin,
            Step::Put(SECOND, PROTOCOL),
            Step::Check("ProtocolChanged 1"),
            Step::Commit("ProtocolChanged 1"),
        ],
    },
    Case {
        name: "the own commit has one",
        read: Read::Nothing,
        own: PROTOCOL,
        steps: &[
            Step::Put(FIRST, TABLE),
            Step::Begin,
            Step::Put(SECOND, ADD_B),
            Step::Check("ProtocolChanged 1"),
            Step::Commit("ProtocolChanged 1"),
        ],
    },
    Case {
        name: "the winner has metadata",
        read: Read::Nothing,
        own: ADD_C,
        steps: &[
            Step::Put(FIRST, TABLE),
            Step::Begin,
            Step::Put(SECOND, METADATA),
            Step::Check("MetadataChanged 1"),
            Step::Commit("MetadataChanged 1"),
        ],
    },
    Case {
        name: "both speak of one loader",
        read: Read::Nothing,
        own: LOADED,
        steps: &[
            Step::Put(FIRST, TABLE),
            Step::Begin,
            Step::Put(SECOND, ADD_B_AND_LOADED),
            Step::Check("ConcurrentTransaction 1"),
            Step::Commit("ConcurrentTransaction 1"),
        ],
    },
    Case {
        name: "rows came into the table that was read",
        read: Read::Table,
        own: ADD_C,
        steps: &[
            Step::Put(FIRST, TABLE),
            Step::Begin,
            Step::Put(SECOND, ADD_B),
            Step::Check("ConcurrentAppend 1"),
            Step::Commit("ConcurrentAppend 1"),
        ],
    },
    Case {
        name: "rows went from the table that was read",
        read: Read::Table,
        own: ADD_C,
        steps: &[
            Step::Put(FIRST, TABLE),
            Step::Begin,
            Step::Put(SECOND, REMOVE_A),
            Step::Check("ConcurrentDeleteRead 1"),
            Step::Commit("ConcurrentDeleteRead 1"),
        ],
    },
    Case {
        name: "the file that was read went",
        read: Read::FileA,
        own: ADD_C,
        steps: &[
            Step::Put(FIRST, TABLE),
            Step::Begin,
            Step::Put(SECOND, REMOVE_A),
            Step::Check("ConcurrentDeleteRead 1"),
            Step::Commit("ConcurrentDeleteRead 1"),
        ],
    },
    Case {
        name: "the first winner in the way is told",
        read: Read::Table,
        own: ADD_C,
        steps: &[
            Step::Put(FIRST, TABLE),
            Step::Begin,
            Step::Put(SECOND, LOADED),
            Step::Put(THIRD, ADD_B),
            Step::Put(FOURTH, METADATA),
            Step::Check("ConcurrentAppend 2"),
            Step::Commit("ConcurrentAppend 2"),
        ],
    },
    Case {
        name: "two commits of one domain",
        read: Read::Nothing,
        own: DOMAIN,
        steps: &[
            Step::Put(FIRST, TABLE_OF_DOMAINS),
            Step::Begin,
            Step::Put(SECOND, DOMAIN),
            Step::Check("DomainChanged 1"),
            Step::Commit("DomainChanged 1"),
        ],
    },
    Case {
        name: "no version comes after the last",
        read: Read::Nothing,
        own: ADD_B,
        steps: &[
            Step::Put(FIRST, TABLE),
            Step::Begin,
            Step::Put(LAST, ADD_C),
            Step::Check("no version after 9223372036854775807"),
            Step::Commit("no version after 9223372036854775807"),
        ],
    },
    Case {
        name: "winners without a protocol are a damaged log",
        read: Read::Nothing,
        own: ADD_C,
        steps: &[
            Step::Begin,
            Step::Put(FIRST, ADD_A),
            Step::Check("damaged _delta_log/00000000000000000000.json 0"),
            Step::Commit("damaged _delta_log/00000000000000000000.json 0"),
        ],
    },
    Case {
        name: "an id that was used before is answered",
        read: Read::Nothing,
        own: TABLE,
        steps: &[
            Step::Begin,
            Step::Put(FIRST, EMPTY_TABLE),
            Step::Put(SECOND, OWN_ADD_B),
            Step::Put(THIRD, STAGED_NAME),
            Step::Check("version 1"),
            Step::Commit("version 1"),
        ],
    },
    Case {
        name: "a winner that was deleted is gone",
        read: Read::Nothing,
        own: ADD_C,
        steps: &[
            Step::Put(FIRST, TABLE),
            Step::Begin,
            Step::Put(SECOND, ADD_B),
            Step::Put(THIRD, REMOVE_A),
            Step::Delete(SECOND),
            Step::Check("gone _delta_log/00000000000000000001.json"),
            Step::Commit("gone _delta_log/00000000000000000001.json"),
        ],
    },
    Case {
        name: "a winner that stands ratified is read from its staged object",
        read: Read::Nothing,
        own: REMOVE_A,
        steps: &[
            Step::Put(FIRST, TABLE),
            Step::Begin,
            Step::Put(STAGED, REMOVE_A),
            Step::Check("version 1"),
            Step::Ratify,
            Step::Commit("ConcurrentDeleteDelete 1"),
        ],
    },
    Case {
        name: "a transaction makes the first version",
        read: Read::Nothing,
        own: TABLE,
        steps: &[
            Step::Begin,
            Step::Check("version 0"),
            Step::Commit("version 0"),
            Step::Holds(FIRST, OWN_TABLE),
        ],
    },
    Case {
        name: "a broken rule is told by check and by commit",
        read: Read::Nothing,
        own: ADD_C_TWICE,
        steps: &[
            Step::Put(FIRST, TABLE),
            Step::Begin,
            Step::Check("rule 3"),
            Step::Commit("rule 3"),
            Step::Holds(SECOND, ""),
        ],
    },
];

/// Commits in one call.
pub const AT_LATEST: [Case; 7] = [
    Case {
        name: "after a version that stands ratified",
        read: Read::Nothing,
        own: ADD_B,
        steps: &[
            Step::Put(FIRST, EMPTY_TABLE),
            Step::Put(STAGED, ADD_A),
            Step::Ratify,
            Step::Whole(1000, "version 2"),
            Step::Holds(THIRD, OWN_ADD_B),
        ],
    },
    Case {
        name: "a staged commit that isn't ratified is no version",
        read: Read::Nothing,
        own: ADD_B,
        steps: &[
            Step::Put(FIRST, EMPTY_TABLE),
            Step::Put(STAGED, ADD_A),
            Step::Whole(1000, "version 1"),
            Step::Holds(SECOND, OWN_ADD_B),
        ],
    },
    Case {
        name: "over a gap",
        read: Read::Nothing,
        own: ADD_B,
        steps: &[
            Step::Put(FIRST, EMPTY_TABLE),
            Step::Put(THIRD, ADD_A),
            Step::Whole(1000, "missing _delta_log/00000000000000000001.json"),
        ],
    },
    Case {
        name: "a log whose commits are gone isn't empty",
        read: Read::Nothing,
        own: ADD_B,
        steps: &[
            Step::Put(CHECKPOINT, ADD_A),
            Step::Whole(1000, "missing _delta_log/00000000000000000000.json"),
        ],
    },
    Case {
        name: "a commit that is read is greater than the limit",
        read: Read::Nothing,
        own: ADD_B,
        steps: &[
            Step::Put(FIRST, EMPTY_TABLE),
            Step::Whole(186, "over the limit: 187"),
        ],
    },
    Case {
        name: "the commit's own text is greater than the limit",
        read: Read::Nothing,
        own: ADD_B,
        steps: &[
            Step::Put(FIRST, EMPTY_TABLE),
            Step::Whole(192, "over the limit: 193"),
        ],
    },
    Case {
        name: "it is as great as the limit",
        read: Read::Nothing,
        own: ADD_B,
        steps: &[
            Step::Put(FIRST, EMPTY_TABLE),
            Step::Whole(193, "version 1"),
            Step::Holds(SECOND, OWN_ADD_B),
        ],
    },
];

/// Calls of the store fail, and answers are asked again.
pub const FAILING: [Case; 5] = [
    Case {
        name: "a lost answer is found by the id",
        read: Read::Table,
        own: ADD_B,
        steps: &[
            Step::Put(FIRST, TABLE),
            Step::Begin,
            Step::Fail(Call::PutNew, How::After),
            Step::Commit("store"),
            Step::Put(THIRD, REMOVE_A),
            Step::Check("version 1"),
            Step::Commit("version 1"),
            Step::Holds(SECOND, OWN_ADD_B),
            Step::Holds(FOURTH, ""),
        ],
    },
    Case {
        name: "a put that failed before its event is made again",
        read: Read::Table,
        own: ADD_B,
        steps: &[
            Step::Put(FIRST, TABLE),
            Step::Begin,
            Step::Fail(Call::PutNew, How::Before),
            Step::Commit("store"),
            Step::Holds(SECOND, ""),
            Step::Commit("version 1"),
        ],
    },
    Case {
        name: "commits up to the snapshot are read no more",
        read: Read::Table,
        own: ADD_B,
        steps: &[
            Step::Put(FIRST, TABLE),
            Step::Begin,
            Step::Fail(Call::Get, How::Before),
            Step::Commit("version 1"),
        ],
    },
    Case {
        name: "after an Ok commit leaves the store alone, and check looks",
        read: Read::Table,
        own: ADD_B,
        steps: &[
            Step::Put(FIRST, TABLE),
            Step::Begin,
            Step::Commit("version 1"),
            Step::Fail(Call::Any, How::Before),
            Step::Commit("version 1"),
            Step::Check("store"),
            Step::Check("version 1"),
        ],
    },
    Case {
        name: "after an Ok and a cleanup check finds a winner gone",
        read: Read::Table,
        own: ADD_B,
        steps: &[
            Step::Put(FIRST, TABLE),
            Step::Begin,
            Step::Commit("version 1"),
            Step::Put(THIRD, ADD_C),
            Step::Delete(SECOND),
            Step::Check("gone _delta_log/00000000000000000001.json"),
            Step::Commit("version 1"),
        ],
    },
];

/// Others put a commit right before the own one.
pub const IN_BETWEEN: [Case; 8] = [
    Case {
        name: "once: all begins again",
        read: Read::Nothing,
        own: ADD_B,
        steps: &[
            Step::Put(FIRST, TABLE),
            Step::Begin,
            Step::ComeFirst(ADD_C),
            Step::Commit("version 2"),
            Step::Holds(THIRD, OWN_ADD_B),
            Step::Clashes(1),
        ],
    },
    Case {
        name: "once: who came first is a winner",
        read: Read::Table,
        own: ADD_B,
        steps: &[
            Step::Put(FIRST, TABLE),
            Step::Begin,
            Step::ComeFirst(ADD_C),
            Step::Commit("ConcurrentAppend 1"),
            Step::Clashes(1),
        ],
    },
    Case {
        name: "twice: the path was taken",
        read: Read::Nothing,
        own: ADD_B,
        steps: &[
            Step::Put(FIRST, TABLE),
            Step::Begin,
            Step::ComeFirst(ADD_C),
            Step::ComeFirst(LOADED),
            Step::Commit("taken _delta_log/00000000000000000002.json"),
            Step::Clashes(2),
            Step::Commit("version 3"),
        ],
    },
    Case {
        name: "thrice: the next call begins again once",
        read: Read::Nothing,
        own: ADD_B,
        steps: &[
            Step::Put(FIRST, TABLE),
            Step::Begin,
            Step::ComeFirst(ADD_C),
            Step::ComeFirst(LOADED),
            Step::ComeFirst(ADD_C),
            Step::Commit("taken _delta_log/00000000000000000002.json"),
            Step::Clashes(2),
            Step::Commit("version 4"),
            Step::Clashes(3),
        ],
    },
    Case {
        name: "in one call: nothing was read",
        read: Read::Nothing,
        own: ADD_B,
        steps: &[
            Step::Put(FIRST, TABLE),
            Step::ComeFirst(ADD_C),
            Step::Whole(1000, "version 2"),
            Step::Holds(THIRD, OWN_ADD_B),
        ],
    },
    Case {
        name: "in one call: the table was read",
        read: Read::Table,
        own: ADD_B,
        steps: &[
            Step::Put(FIRST, TABLE),
            Step::ComeFirst(ADD_C),
            Step::Whole(1000, "ConcurrentAppend 1"),
        ],
    },
    Case {
        name: "in one call: the file that was read goes",
        read: Read::FileA,
        own: ADD_B,
        steps: &[
            Step::Put(FIRST, TABLE),
            Step::ComeFirst(REMOVE_A),
            Step::Whole(1000, "ConcurrentDeleteRead 1"),
        ],
    },
    Case {
        name: "in one call: twice",
        read: Read::Table,
        own: ADD_B,
        steps: &[
            Step::Put(FIRST, TABLE),
            Step::ComeFirst(LOADED),
            Step::ComeFirst(LOADED),
            Step::Whole(1000, "taken _delta_log/00000000000000000002.json"),
            Step::Clashes(2),
        ],
    },
];
