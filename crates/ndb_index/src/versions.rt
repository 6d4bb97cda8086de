//! The versions of a world's database, each with its index.
ghost use Rattle.std.specs.Prelude.{◌≡◌, ◌<◌, drop, length, if◌then◌else◌, IfOk};
ghost use Rattle.net_base.specs.Versions as spec;
ghost use Rattle.ndb_index.specs.Moments.{earliest, earliest_moments, sooner};

use crate::Index;
use net_base::{Db, Version};
use std::alloc::{AllocError, Global};
use std::marker::Model;

/// A version with its index. Clauses see the version.
#[derive(Drop)]
pub struct IndexedVersion {
    moment: u64,
    index: Index,
}

impl Model for IndexedVersion {
    ghost use Rattle.net_base.specs.declared.world.Version.{Version};

    ghost Value = { Version };

    ghost view = { λ v. record { moment = v.moment; db = v.index } };
}

/// The versions of a database, in the order of their moments. Clauses see the list.
///
/// `moments` contains for each version, from the last to the first, the earliest moment of this version and those after it.
#[derive(Drop)]
pub struct IndexedVersions {
    versions: Vec<IndexedVersion>,
    moments: Vec<u64>,
}

impl Model for IndexedVersions {
    ghost use Rattle.std.specs.Prelude.{◌≡◌, List};
    ghost use Rattle.net_base.specs.declared.world.Version.{Version};
    ghost use Rattle.ndb_index.specs.Moments.{earliest_moments};

    ghost Value = { List Version };

    ghost view = { λ v. v.versions.items };

    ghost invariant = { λ v. v.moments.items ≡ earliest_moments v.versions.items };
}

impl IndexedVersions {
    /// The versions, each with the index of a copy of its database.
    pub fn new(alloc: Global, versions: &[Version]) -> Result<IndexedVersions, AllocError>
        ensures { IfOk result (λ indexed. indexed ≡ versions.now) }
    {
        let mut indexed = Vec::with_capacity(alloc, versions.len())?;
        for version in versions {
            indexed.push(indexed_version(alloc, version)?)?;
        }
        let moments = earliest_moments(alloc, versions)?;
        Ok(IndexedVersions {
            versions: indexed,
            moments,
        })
    }

    /// The earliest moment of the version with this number and those after it.
    fn earliest(&self, number: usize) -> u64
        requires { number < length self.now }
        ensures { result ≡ earliest (drop number self.now) }
    {
        self.moments[self.moments.len() - 1 - number]
    }

    /// Returns the number of the version that is in force at a moment.
    ///
    /// Each look at a moment halves the versions that are left.
    pub fn in_force(&self, now: u64) -> u64
        ensures { result ≡ spec.in_force now self.now }
    {
        let mut first = 0;
        let mut end = self.versions.len();
        while end - first > 1 {
            let middle = first + (end - first) / 2;
            if self.earliest(middle) <= now {
                first = middle;
            } else {
                end = middle;
            }
        }
        first as u64
    }

    /// The database of the version with this number.
    pub fn index(&self, number: u64) -> &Index
        requires { number < length self.now }
        ensures { result.now ≡ spec.database_of self.now number }
    {
        &self.versions[number as usize].index
    }
}

/// Returns the smaller of a moment and the earliest one after it, if the moment is not the last one.
fn earlier(is_last: bool, moment: u64, after: u64) -> u64
    ensures { result ≡ (if is_last then moment else sooner moment after) }
{
    if is_last || moment < after {
        moment
    } else {
        after
    }
}

/// Returns for each version, from the last to the first, the earliest moment of this version and those after it.
fn earliest_moments(alloc: Global, versions: &[Version]) -> Result<Vec<u64>, AllocError>
    ensures { IfOk result (λ moments. moments.items ≡ earliest_moments versions.now) }
{
    let mut moments = Vec::with_capacity(alloc, versions.len())?;
    let mut earliest = 0;
    for back in 0..versions.len() {
        let moment = versions[versions.len() - 1 - back].moment;
        earliest = earlier(back == 0, moment, earliest);
        moments.push(earliest)?;
    }
    Ok(moments)
}

/// A version with the index of a copy of its database.
fn indexed_version(alloc: Global, version: &Version) -> Result<IndexedVersion, AllocError>
    ensures { IfOk result (λ indexed. indexed ≡ version.now) }
{
    Ok(IndexedVersion {
        moment: version.moment,
        index: Index::new(alloc, copy_of(&version.db)?)?,
    })
}

fn copy_of(db: &Db) -> Result<Db, AllocError>
    ensures { IfOk result (λ copy. copy ≡ db.now) }
{
    db.clone()
}
