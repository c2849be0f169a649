//! What can be seen of a cluster, as numbers that can be compared.

use q_book::Book;
use q_cluster::Cluster;
use q_replay::journal_bytes;
use q_session::Job;
use sc_msg::encode_fitting;
use sc_node::{Phase, Session, StoreBack};
use sc_view::{Stored, View};
use sc_world::Op;
use std::alloc::{AllocError, Global};
use std::hash::{DefaultHasher, Hasher};

/// How many nodes a script has at most.
pub const NODES: usize = 3;

/// How many jobs a script hands out at most.
const JOBS: usize = 4;

/// The journal of a node: how many events it has, and a digest of its bytes. Both are 0 where the node never was.
#[derive(Clone, Copy, PartialEq, Eq)]
pub struct Journal {
    pub events: usize,
    pub bytes: u64,
}

/// Digests of the journals of nodes 1 to 3, of all messages that were sent, of the records of all operations and of the
/// jobs that were handed out.
#[derive(Clone, Copy, PartialEq, Eq)]
pub struct Seen {
    pub journals: [Journal; NODES],
    messages: u64,
    ops: u64,
    jobs: u64,
}

/// A digest of bytes.
fn digest(bytes: &[u8]) -> u64 {
    let mut hasher = DefaultHasher::new();
    hasher.write(bytes);
    hasher.finish()
}

/// The journal of a book.
fn read_journal(alloc: Global, book: &Book) -> Result<Journal, AllocError> {
    let bytes = journal_bytes(alloc, book)?;
    Ok(Journal {
        events: book.events(),
        bytes: digest(bytes.as_slice()),
    })
}

/// The journal of a node.
fn journal_of(alloc: Global, cluster: &Cluster, node: u64) -> Result<Journal, AllocError> {
    match cluster.book(node) {
        Some(book) => read_journal(alloc, book),
        None => Ok(Journal {
            events: 0,
            bytes: 0,
        }),
    }
}

/// A digest of all messages.
fn messages(alloc: Global, cluster: &Cluster) -> Result<u64, AllocError> {
    let mut hasher = DefaultHasher::new();
    for number in 0..cluster.sent() {
        if let Some(message) = cluster.message(number) {
            hasher.write(encode_fitting(alloc, cluster.version(), message)?.as_slice());
        }
    }
    Ok(hasher.finish())
}

fn put_stored(hasher: &mut DefaultHasher, stored: &Stored) {
    hasher.write_u64(stored.number());
    hasher.write(stored.value().bytes());
}

fn put_view(hasher: &mut DefaultHasher, view: &View) {
    hasher.write_usize(view.len());
    for (id, stored) in view.records() {
        hasher.write_u64(id);
        put_stored(hasher, stored);
    }
}

fn put_phase(hasher: &mut DefaultHasher, phase: &Phase) {
    hasher.write_u64(phase.threshold);
    hasher.write_usize(phase.counted.len());
    for id in phase.counted.iter() {
        hasher.write_u64(id);
    }
}

fn put_session(hasher: &mut DefaultHasher, session: &Session) {
    match session {
        Session::Store { stored, back } => {
            put_stored(hasher, stored);
            put_back(hasher, back);
        }
        Session::Querying(query) => put_phase(hasher, query),
        Session::StoringBack { query, back } => {
            put_phase(hasher, query);
            put_back(hasher, back);
        }
    }
}

fn put_back(hasher: &mut DefaultHasher, back: &StoreBack) {
    put_view(hasher, &back.view);
    put_phase(hasher, &back.phase);
}

/// A digest of the records of all operations.
fn ops(ops: &[Op]) -> u64 {
    let mut hasher = DefaultHasher::new();
    for op in ops {
        hasher.write_u64(op.node);
        hasher.write_u64(op.tag);
        hasher.write_usize(op.begin);
        hasher.write_usize(op.end.unwrap_or(usize::MAX));
        put_session(&mut hasher, &op.session);
    }
    hasher.finish()
}

fn put_job(hasher: &mut DefaultHasher, job: &Job) {
    hasher.write_u64(job.node());
    hasher.write_usize(job.query());
    hasher.write_u32(job.program().number());
    hasher.write_u64(job.start());
    put_view(hasher, job.view());
}

/// A digest of the jobs.
fn jobs(cluster: &Cluster) -> u64 {
    let mut hasher = DefaultHasher::new();
    for number in 0..JOBS {
        if let Some(job) = cluster.job(number) {
            put_job(&mut hasher, job);
        }
    }
    hasher.finish()
}

/// What can be seen of a cluster. The one error is that memory is refused.
pub fn see(alloc: Global, cluster: &Cluster) -> Result<Seen, AllocError> {
    let journals = [
        journal_of(alloc, cluster, 1)?,
        journal_of(alloc, cluster, 2)?,
        journal_of(alloc, cluster, 3)?,
    ];
    Ok(Seen {
        journals,
        messages: messages(alloc, cluster)?,
        ops: ops(cluster.ops()),
        jobs: jobs(cluster),
    })
}
