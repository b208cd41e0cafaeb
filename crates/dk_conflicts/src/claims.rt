//! What a transaction would have of its own, and which commit of another is in its way.

ghost use Rattle.std.specs.Prelude.{◌≡◌, List, IfOk};
ghost use Rattle.std.specs.List.{list_any};
ghost use Rattle.dk_conflicts.specs.Claims.{AreClaims};
ghost use Rattle.dk_conflicts.specs.Conflicts.{all_kinds, conflict_of, files_read, winner_is_in_the_way, is_metadata, is_protocol, is_table, kind_of, names_in};
ghost use Rattle.dk_model.specs.NameSets.{HasNames, has_name};
ghost use Rattle.dk_model.specs.Rows.{adds_rows, removes_rows};
ghost use Rattle.dk_model.specs.declared.action.Action.{Action};
ghost use Rattle.dk_conflicts.specs.declared.reads.Reads.{Reads};
ghost use Rattle.dk_model.specs.declared.kind.Kind.TheVariants as Kind;

use crate::reads::Reads;
use crate::topic::{Topic, name_of};
use dk_model::{Action, Commit, Kind, name_set};
use std::alloc::{AllocError, Global};
use std::collections::BTreeSet;

const ALL: [Kind; 7] = [
    Kind::ProtocolChanged,
    Kind::MetadataChanged,
    Kind::ConcurrentTransaction,
    Kind::DomainChanged,
    Kind::ConcurrentAppend,
    Kind::ConcurrentDeleteRead,
    Kind::ConcurrentDeleteDelete,
];

/// The kinds of conflicts, in the order in which they are told.
#[tactic(auto, unfolding(crate::specs::Conflicts::all_kinds))]
fn all_kinds() -> &'static [Kind]
    ensures { result.now ≡ all_kinds }
{
    &ALL
}

/// What a transaction has read and would commit, as far as another commit can be in its way.
#[derive(Drop)]
pub struct Claims<'a> {
    has_protocol: bool,
    reads_table: bool,
    files: BTreeSet<&'a str>,
    applications: BTreeSet<&'a str>,
    domains: BTreeSet<&'a str>,
    removed: BTreeSet<&'a str>,
}

fn has_protocol(actions: &[Action]) -> bool
    ensures { result ≡ list_any is_protocol actions.now }
{
    'actions: for action in actions {
        if let Action::Protocol(_) = action {
            return true;
        }
    }
    false
}

fn has_metadata(actions: &[Action]) -> bool
    ensures { result ≡ list_any is_metadata actions.now }
{
    'actions: for action in actions {
        if let Action::Metadata(_) = action {
            return true;
        }
    }
    false
}

/// Whether rows are added that weren't in the table before.
fn add_rows(actions: &[Action]) -> bool
    ensures { result ≡ list_any adds_rows actions.now }
{
    'actions: for action in actions {
        if action.adds_rows() {
            return true;
        }
    }
    false
}

/// Whether rows are removed that are in the table no more.
fn remove_rows(actions: &[Action]) -> bool
    ensures { result ≡ list_any removes_rows actions.now }
{
    'actions: for action in actions {
        if action.removes_rows() {
            return true;
        }
    }
    false
}

/// The names of this kind that actions have.
fn names_of(alloc: Global, topic: Topic, actions: &[Action]) -> Result<BTreeSet<&str>, AllocError>
    ensures { IfOk result (λ names. HasNames names (names_in topic actions.now)) }
{
    let mut names: BTreeSet<&str> = BTreeSet::new(alloc);
    'actions: for action in actions {
        if let Some(name) = name_of(topic, action) {
            names.insert(name.as_str())?;
        }
    }
    Ok(names)
}

/// The paths of the files that were read, where they are told one by one.
fn files_of(alloc: Global, reads: &Reads) -> Result<BTreeSet<&str>, AllocError>
    ensures { IfOk result (λ names. HasNames names (files_read reads.now)) }
{
    match reads {
        Reads::Files(paths) => name_set(alloc, paths.as_slice()),
        _ => Ok(BTreeSet::new(alloc)),
    }
}

fn reads_table(reads: &Reads) -> bool
    ensures { result ≡ is_table reads.now }
{
    match reads {
        Reads::Table => true,
        _ => false,
    }
}

/// Whether a commit has a name of this kind that is one of these.
fn has_one(topic: Topic, names: &BTreeSet<&str>, winner: &[Action]) -> bool
    ensures { result ≡ list_any (has_name names.now) (names_in topic winner.now) }
{
    'actions: for action in winner {
        if let Some(name) = name_of(topic, action) {
            if names.contains(name.as_str()) {
                return true;
            }
        }
    }
    false
}

impl<'a> Claims<'a> {
    /// The claims of a transaction that has read this and would commit these actions. Takes memory in proportion to the names
    /// in both; `Err` says that it was wanted and not had.
    pub fn new(alloc: Global, reads: &'a Reads, own: &'a [Action]) -> Result<Claims<'a>, AllocError>
        ensures { IfOk result (λ claims. AreClaims claims reads.now own.now) }
    {
        Ok(Claims {
            has_protocol: has_protocol(own),
            reads_table: reads_table(reads),
            files: files_of(alloc, reads)?,
            applications: names_of(alloc, Topic::Application, own)?,
            domains: names_of(alloc, Topic::Domain, own)?,
            removed: names_of(alloc, Topic::Removed, own)?,
        })
    }

    /// Whether a commit that came in between is in the way in this way.
    fn is_in_the_way(&self, kind: Kind, winner: &[Action]) -> bool
        ensures { (reads : Reads) (own : List Action) → AreClaims self.now reads own → result ≡ winner_is_in_the_way reads own winner.now kind }
    {
        match kind {
            Kind::ProtocolChanged => has_protocol(winner) || self.has_protocol,
            Kind::MetadataChanged => has_metadata(winner),
            Kind::ConcurrentTransaction => has_one(Topic::Application, &self.applications, winner),
            Kind::DomainChanged => has_one(Topic::Domain, &self.domains, winner),
            Kind::ConcurrentAppend => self.reads_table && add_rows(winner),
            Kind::ConcurrentDeleteRead => self.is_read_deleted(winner),
            Kind::ConcurrentDeleteDelete => has_one(Topic::Removed, &self.removed, winner),
        }
    }

    /// Whether a commit removes what was read.
    fn is_read_deleted(&self, winner: &[Action]) -> bool
        ensures { (reads : Reads) (own : List Action) → AreClaims self.now reads own → result ≡ winner_is_in_the_way reads own winner.now Kind.ConcurrentDeleteRead }
    {
        if self.reads_table && remove_rows(winner) {
            true
        } else {
            has_one(Topic::Removed, &self.files, winner)
        }
    }

    /// How a commit that came in between is in the way, if it is: the first kind in the order of [`Kind`]. Takes no memory,
    /// and time in proportion to the commit's actions.
    pub fn kind(&self, winner: &[Action]) -> Option<Kind>
        ensures { (reads : Reads) (own : List Action) → AreClaims self.now reads own → result ≡ kind_of reads own winner.now }
    {
        'kinds: for kind in all_kinds() {
            if self.is_in_the_way(*kind, winner) {
                return Some(*kind);
            }
        }
        None
    }

    /// The place of the first of these commits, the oldest first, that is in the way, counted from 0, and how it is. Takes no
    /// memory, and time in proportion to the commits' actions.
    pub fn conflict(&self, winners: &[Commit]) -> Option<(usize, Kind)>
        ensures { (reads : Reads) (own : List Action) → AreClaims self.now reads own → result ≡ conflict_of reads own winners.now }
    {
        'winners: for (place, winner) in winners.iter().enumerate() {
            if let Some(kind) = self.kind(winner.as_slice()) {
                return Some((place, kind));
            }
        }
        None
    }
}
