//! What a listing says of versions, and from which objects one is read.
ghost use Rattle.std.specs.Prelude.{◌<◌, ◌^◌, All, IfOk};

use dk_engine::Refusal;
use dk_lawful::{Checkpoints, Choice, Step};
use dk_listing::{Catalogued, group};
use dk_segment::choose;
use dk_store::{Entry, Ratification};
use std::alloc::{AllocError, Global};
use std::process::Abort;
use std::test::Fail;

const COMMIT_0: &str = "00000000000000000000.json";

const COMMIT_1: &str = "00000000000000000001.json";

const COMMIT_2: &str = "00000000000000000002.json";

const STAGED_1: &str = "00000000000000000001.0a1b2c3d-4e5f-4678-9abc-def012345678.json";

const STAGED_2: &str = "00000000000000000002.0a1b2c3d-4e5f-4678-9abc-def012345678.json";

const OTHER_STAGED_2: &str = "00000000000000000002.0a1b2c3d-4e5f-4678-9abc-def012345679.json";

const PART_1_OF_2: &str = "00000000000000000005.checkpoint.0000000001.0000000002.parquet";

const PART_2_OF_2: &str = "00000000000000000005.checkpoint.0000000002.0000000002.parquet";

const PART_2_OF_3: &str = "00000000000000000005.checkpoint.0000000002.0000000003.parquet";

const PATH_0: &str = "_delta_log/00000000000000000000.json";

const PATH_1: &str = "_delta_log/00000000000000000001.json";

const PATH_2: &str = "_delta_log/00000000000000000002.json";

const STAGED_PATH_1: &str =
    "_delta_log/_staged_commits/00000000000000000001.0a1b2c3d-4e5f-4678-9abc-def012345678.json";

const STAGED_PATH_2: &str =
    "_delta_log/_staged_commits/00000000000000000002.0a1b2c3d-4e5f-4678-9abc-def012345678.json";

/// The names of a log and of its staged commits, and the versions that stand ratified; then the latest version, the latest
/// published one, and the paths of what a version is read from, staged commits first or not: the last of them is missing where
/// that is said.
struct Case {
    shows: &'static str,
    log: &'static [&'static str],
    staged: &'static [&'static str],
    ratified: &'static [(u32, &'static str)],
    latest: Option<u64>,
    published: Option<u64>,
    version: u32,
    staged_first: bool,
    paths: &'static [&'static str],
    is_missing: bool,
}

const CASES: [Case; 12] = [
    Case {
        shows: "an empty folder has no version",
        log: &[],
        staged: &[],
        ratified: &[],
        latest: None,
        published: None,
        version: 0,
        staged_first: false,
        paths: &[PATH_0],
        is_missing: true,
    },
    Case {
        shows: "the first gap is named; compacted files, the hint and other names are no versions",
        log: &[
            COMMIT_0,
            COMMIT_2,
            "00000000000000000002.00000000000000000009.compacted.json",
            "00000000000000000009.JSON",
            "_last_checkpoint",
        ],
        staged: &[],
        ratified: &[],
        latest: Some(2),
        published: Some(2),
        version: 2,
        staged_first: false,
        paths: &[PATH_1],
        is_missing: true,
    },
    Case {
        shows: "a checkpoint that lacks a part is none",
        log: &[COMMIT_0, COMMIT_1, PART_1_OF_2],
        staged: &[],
        ratified: &[],
        latest: Some(1),
        published: Some(1),
        version: 1,
        staged_first: false,
        paths: &[PATH_0, PATH_1],
        is_missing: false,
    },
    Case {
        shows: "a complete checkpoint in parts stands above all commits",
        log: &[COMMIT_0, PART_1_OF_2, PART_2_OF_2],
        staged: &[],
        ratified: &[],
        latest: Some(5),
        published: Some(0),
        version: 0,
        staged_first: false,
        paths: &[PATH_0],
        is_missing: false,
    },
    Case {
        shows: "two numbers of parts are two checkpoints, and neither is complete",
        log: &[COMMIT_0, PART_1_OF_2, PART_2_OF_3],
        staged: &[],
        ratified: &[],
        latest: Some(0),
        published: Some(0),
        version: 0,
        staged_first: false,
        paths: &[PATH_0],
        is_missing: false,
    },
    Case {
        shows: "a checkpoint of a UUID is complete by itself",
        log: &[
            COMMIT_0,
            "00000000000000000004.checkpoint.0a1b2c3d-4e5f-4678-9abc-def012345678.json",
        ],
        staged: &[],
        ratified: &[],
        latest: Some(4),
        published: Some(0),
        version: 0,
        staged_first: true,
        paths: &[PATH_0],
        is_missing: false,
    },
    Case {
        shows: "a ratified commit that isn't published is read from its staged object",
        log: &[COMMIT_0, COMMIT_1],
        staged: &[STAGED_2],
        ratified: &[(2, STAGED_2)],
        latest: Some(2),
        published: Some(1),
        version: 2,
        staged_first: false,
        paths: &[PATH_0, PATH_1, STAGED_PATH_2],
        is_missing: false,
    },
    Case {
        shows: "a published commit comes before its staged object",
        log: &[COMMIT_0, COMMIT_1],
        staged: &[STAGED_1],
        ratified: &[(1, STAGED_1)],
        latest: Some(1),
        published: Some(1),
        version: 1,
        staged_first: false,
        paths: &[PATH_0, PATH_1],
        is_missing: false,
    },
    Case {
        shows: "a staged object comes first where that is asked for",
        log: &[COMMIT_0, COMMIT_1],
        staged: &[STAGED_1],
        ratified: &[(1, STAGED_1)],
        latest: Some(1),
        published: Some(1),
        version: 1,
        staged_first: true,
        paths: &[PATH_0, STAGED_PATH_1],
        is_missing: false,
    },
    Case {
        shows: "a staged object that isn't listed isn't read",
        log: &[COMMIT_0, COMMIT_1],
        staged: &[STAGED_2],
        ratified: &[(1, STAGED_1)],
        latest: Some(1),
        published: Some(1),
        version: 1,
        staged_first: true,
        paths: &[PATH_0, PATH_1],
        is_missing: false,
    },
    Case {
        shows: "a staged commit that doesn't stand ratified is no version",
        log: &[COMMIT_0, COMMIT_1],
        staged: &[STAGED_2],
        ratified: &[],
        latest: Some(1),
        published: Some(1),
        version: 2,
        staged_first: true,
        paths: &[PATH_2],
        is_missing: true,
    },
    Case {
        shows: "another staged commit of the version is none",
        log: &[COMMIT_0, COMMIT_1],
        staged: &[OTHER_STAGED_2, STAGED_1],
        ratified: &[(2, STAGED_2)],
        latest: Some(2),
        published: Some(1),
        version: 2,
        staged_first: false,
        paths: &[PATH_2],
        is_missing: true,
    },
];

fn entries(alloc: Global, names: &[&str]) -> Result<Vec<Entry>, AllocError> {
    let mut found = Vec::new(alloc);
    for name in names {
        found.push(Entry {
            name: String::from_str(alloc, name)?,
            size: 1,
            stamp: 5,
        })?;
    }
    Ok(found)
}

fn ratifications(alloc: Global, pairs: &[(u32, &str)]) -> Result<Vec<Ratification>, AllocError>
    ensures { IfOk result (λ found. All (λ r. r.version < 2 ^ 63) found.items) }
{
    let mut found = Vec::new(alloc);
    for (version, name) in pairs {
        found.push(Ratification {
            version: u64::from(*version),
            name: String::from_str(alloc, name)?,
        })?;
    }
    Ok(found)
}

fn listing(alloc: Global, case: &Case) -> Result<Catalogued, AllocError> {
    let log = entries(alloc, case.log)?;
    let staged = entries(alloc, case.staged)?;
    let ratified = ratifications(alloc, case.ratified)?;
    group(alloc, log, staged, ratified)
}

/// The paths of what a version is read from, or the one that is missing.
fn compare(rt: &impl Abort, alloc: Global, case: &Case, listing: &Catalogued) {
    let choice = Choice {
        checkpoints: Checkpoints::Newest,
        compacted: true,
        staged_first: case.staged_first,
    };
    match choose(alloc, listing, u64::from(case.version), &choice) {
        Ok(segment) => {
            let steps = segment.steps.as_slice();
            assert!(rt; !case.is_missing, "{}", case.shows);
            assert_eq!(rt; steps.len(), case.paths.len(), "{}", case.shows);
            for (step, path) in steps.iter().zip(case.paths) {
                assert!(rt;
                    matches!(step, Step::Commit { path: found, .. } if found.as_str() == *path),
                    "{}",
                    case.shows
                );
            }
        }
        Err(Refusal::Missing { path }) => {
            assert!(rt; case.is_missing, "{}", case.shows);
            assert_eq!(rt; Some(&path.as_str()), case.paths.first(), "{}", case.shows);
        }
        Err(_) => panic!(rt; "{}", case.shows),
    }
}

#[test]
fn a_listing_says_the_latest_version_and_what_each_is_read_from(
    rt: HostRuntime,
) -> Result<(), Fail> {
    for case in &CASES {
        let listing = listing(rt.alloc(), case)?;
        assert_eq!(rt; listing.latest(), case.latest, "{}", case.shows);
        assert_eq!(rt; listing.published(), case.published, "{}", case.shows);
        compare(&rt, rt.alloc(), case, &listing);
    }
    Ok(())
}
