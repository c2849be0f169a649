//! The sockets, doors and mailboxes of a case.

use crate::console::MAILBOXES;
use crate::disturbed::Disturbed;
use crate::door::PolledDoor;
use crate::plan::{Part, Plan};
use crate::role::{Role, RoleDoors};
use q_doors::{DoorAddress, UdpPost};
use q_kept::MemoryFile;
use q_outside::Hub;
use q_script::{ClusterFile, read_cluster};
use std::alloc::{AllocError, Global};
use std::fs::Files;
use std::io;
use std::io::ErrorKind;
use std::net::{IpAddr, Ipv4Addr, Net, SocketAddr, TcpListener, TcpStream};
use std::sync::atomic::AtomicU64;
use std::time::Duration;

/// For how many milliseconds a socket waits for a datagram.
pub const PATIENCE: u64 = 50;

/// The number of each case's run.
pub const NUMBER: u64 = 7;

/// How many clients run at once at most.
pub const CLIENTS: u64 = 8;

/// What the nodes of a case share.
#[derive(Drop)]
pub struct Common {
    /// What the case begins with.
    pub plan: Plan,
    /// The file of their cluster.
    pub file: ClusterFile,
    /// Their mailboxes, followed by one for each client.
    pub hub: Hub,
    /// How many datagrams of strangers each of them was sent.
    pub strangers: Vec<AtomicU64>,
}

/// A socket that knows no node yet.
pub fn bind<R: Net>(rt: &R, alloc: Global) -> io::Result<UdpPost> {
    let at = SocketAddr::new(IpAddr::V4(Ipv4Addr::new(127, 0, 0, 1)), 0);
    UdpPost::bind(rt, alloc, at, NUMBER, Duration::from_millis(PATIENCE))
}

/// So many sockets.
fn bind_all<R: Net>(rt: &R, alloc: Global, count: usize) -> io::Result<Vec<UdpPost>> {
    let mut posts = Vec::new(alloc);
    for _ in 0..count {
        posts.push(bind(rt, alloc)?)?;
    }
    Ok(posts)
}

/// The file of the cluster whose nodes have these sockets.
fn file_of(alloc: Global, plan: &Plan, posts: &[UdpPost]) -> io::Result<ClusterFile> {
    let heading = plan.heading.as_str();
    let mut text = format!(in alloc; "cluster {heading}\n")?;
    for (before, post) in posts.iter().enumerate() {
        let before = before as u64;
        let word = if before < plan.founders {
            "founder"
        } else {
            "node"
        };
        let id = before.saturating_add(1);
        let address = post.address()?;
        writeln!(text, "{word} {id} {address}")?;
    }
    match read_cluster(alloc, text.as_str()) {
        Ok(file) => Ok(file),
        Err(_) => Err(io::Error::from(ErrorKind::InvalidInput)),
    }
}

/// So many counters.
fn counters(alloc: Global, count: usize) -> Result<Vec<AtomicU64>, AllocError> {
    let mut counters = Vec::new(alloc);
    for _ in 0..count {
        counters.push(AtomicU64::new(0))?;
    }
    Ok(counters)
}

/// The sockets of the nodes of a plan, and then one of a stranger, which all know all nodes; and what they share.
pub fn open<R: Net>(
    rt: &R,
    alloc: Global,
    plan: Plan,
) -> io::Result<(Common, Vec<UdpPost>, UdpPost)> {
    let count = plan.parts.len();
    let mut posts = bind_all(rt, alloc, count)?;
    let mut stranger = bind(rt, alloc)?;
    let file = file_of(alloc, &plan, posts.as_slice())?;
    for post in &mut posts {
        post.meet(&file.nodes)?;
    }
    stranger.meet(&file.nodes)?;
    let mailboxes = (count as u64)
        .saturating_mul(MAILBOXES)
        .saturating_add(CLIENTS);
    let common = Common {
        plan,
        file,
        hub: Hub::open(alloc, mailboxes)?,
        strangers: counters(alloc, count)?,
    };
    Ok((common, posts, stranger))
}

/// What the node with this id is run with.
pub fn role<'a, R: Net<Listener = TcpListener, Stream = TcpStream> + Files>(
    rt: &R,
    alloc: Global,
    id: u64,
    part: &Part,
    inner: UdpPost,
    strangers: &'a AtomicU64,
) -> io::Result<Role<'a>> {
    let door = PolledDoor::open(rt, DoorAddress::of(part.door.as_str()))?;
    let console = match &part.console {
        Some(path) => Some(PolledDoor::open(rt, DoorAddress::Unix(path.as_str()))?),
        None => None,
    };
    let place = match door.address() {
        Some(address) => format!(in alloc; "{address}")?,
        None => part.door.clone()?,
    };
    Ok(Role {
        id,
        post: Disturbed {
            inner,
            letters: part.letters.clone()?,
            sent: AtomicU64::new(0),
            strangers,
        },
        doors: RoleDoors {
            clients: door,
            console,
        },
        place,
        journal: MemoryFile::new(alloc, part.room),
        is_back: false,
        call: part.call,
        runners: part.runners,
        write: part.write,
    })
}

/// What each node of a plan is run with.
pub fn roles<'a, R: Net<Listener = TcpListener, Stream = TcpStream> + Files>(
    rt: &R,
    alloc: Global,
    common: &'a Common,
    posts: Vec<UdpPost>,
) -> io::Result<Vec<Option<Role<'a>>>> {
    let mut roles = Vec::new(alloc);
    let parts = common.plan.parts.iter().zip(&common.strangers).zip(posts);
    for (before, ((part, strangers), post)) in parts.enumerate() {
        let id = (before as u64).saturating_add(1);
        roles.push(Some(role(rt, alloc, id, part, post, strangers)?))?;
    }
    Ok(roles)
}

/// Where the clients of each node connect.
pub fn places(alloc: Global, roles: &[Option<Role<'_>>]) -> io::Result<Vec<String>> {
    let mut places = Vec::new(alloc);
    for role in roles {
        let place = match role {
            Some(role) => role.place.clone()?,
            None => String::new(alloc),
        };
        places.push(place)?;
    }
    Ok(places)
}
