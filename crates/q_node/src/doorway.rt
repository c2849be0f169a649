//! The threads at the doors, which start a thread for each connection.

use crate::client::serve_client;
use crate::entrance::Entrance;
use crate::process::Process;
use crate::start::Start;
use crate::talk::serve_console;
use q_doors::{Door, Post, Stream, refuse};
use q_kept::JournalFile;
use std::alloc::Global;
use std::io::Eprint;
use std::sync::Wait;
use std::thread;
use std::thread::{Scope, Threads};
use std::time::{Clock, Duration};

/// For how many milliseconds the thread sleeps where its door fails, or a seat becomes free soon.
const PAUSE: u64 = 10;

/// How often it looks whether a seat has become free: within a second.
const LOOKS: u32 = 100;

/// What a door is for.
#[derive(Clone, Copy, Debug, PartialEq, Eq)]
pub(crate) enum Service {
    /// Requests of clients.
    Clients,
    /// Lines of the console.
    Console,
}

/// The doors of a node: where clients come in, and where the console's lines do, if they come over connections.
#[derive(Drop)]
pub struct NodeDoors<'d, D> {
    /// Where clients come in.
    pub clients: &'d D,
    /// Where the console's lines come in. If there is such a door, the console's reader is not read.
    pub console: Option<&'d D>,
}

/// Says to a connection that there is no seat for it. It may send its first request still, so that it reads that.
fn turn_away<C: Stream>(stream: &C) {
    refuse(stream);
    let mut request = [0u8; 64];
    let _ = stream.read(&mut request);
}

impl<'a, 'b, R, P, J, S> Process<'a, 'b, R, P, J, S>
where
    R: Wait + Threads + Clock + Eprint + Sync,
    P: Post + Sync,
    J: JournalFile + Send,
    S: Start + Send,
{
    /// The entrance of a service.
    fn entrance(&self, service: Service) -> &Entrance {
        match service {
            Service::Clients => &self.clients,
            Service::Console => &self.console,
        }
    }

    /// Serves a connection that has this seat, and gives the seat back.
    fn serve<C: Stream + Drop>(&self, alloc: Global, service: Service, stream: C, place: usize) {
        match service {
            Service::Clients => serve_client(self, alloc, &stream, place),
            Service::Console => serve_console(self, alloc, &stream, place),
        }
        self.entrance(service).leave(self.rt, place);
    }

    /// A seat: a free one, or within a second that of the one that has waited longest for a request. None if no one
    /// waits for a request.
    fn take_seat(&self, service: Service) -> Option<usize> {
        let entrance = self.entrance(service);
        for _ in 0..LOOKS {
            let taken = entrance.take(self.rt);
            if taken.is_some() || self.is_over() || !entrance.make_room(self.rt) {
                return taken;
            }
            thread::sleep(self.rt, Duration::from_millis(PAUSE));
        }
        None
    }

    /// Lets a connection in if there is a seat; else says so.
    fn admit<'s, E, C>(&'s self, scope: &Scope<'s, E>, alloc: Global, service: Service, stream: C)
    where
        C: Stream + Send + Drop + 's,
    {
        let Some(place) = self.take_seat(service) else {
            turn_away(&stream);
            return;
        };
        if scope
            .spawn(move || self.serve(alloc, service, stream, place))
            .is_err()
        {
            self.entrance(service).leave(self.rt, place);
        }
    }

    /// Lets connections in until the threads are to end.
    fn admit_all<'s, E, D>(
        &'s self,
        scope: &Scope<'s, E>,
        alloc: Global,
        service: Service,
        door: &D,
    )
    where
        D: Door,
        D::Stream: Send + Drop + 's,
    {
        for _ in self.rt.forever() {
            let next = door.next();
            if self.is_over() {
                break;
            }
            match next {
                Ok(stream) => self.admit(scope, alloc, service, stream),
                Err(_) => thread::sleep(self.rt, Duration::from_millis(PAUSE)),
            }
        }
    }

    /// Keeps a door until the threads are to end.
    pub(crate) fn keep_door<D>(&self, alloc: Global, service: Service, door: &D)
    where
        D: Door,
        D::Stream: Send + Drop,
    {
        let entrance = self.entrance(service);
        thread::scope(thread::scope_env(), self.rt, |scope| {
            self.admit_all(scope, alloc, service, door);
            entrance.set_shut(true);
        });
    }

    /// Starts the thread at a door. Whether it runs.
    pub(crate) fn start_door<'s, E, D>(
        &'s self,
        scope: &Scope<'s, E>,
        alloc: Global,
        service: Service,
        door: &'s D,
    ) -> bool
    where
        D: Door + Sync,
        D::Stream: Send + Drop,
    {
        self.entrance(service).set_shut(false);
        let is_there = scope
            .spawn(move || self.keep_door(alloc, service, door))
            .is_ok();
        if !is_there {
            self.entrance(service).set_shut(true);
        }
        is_there
    }

    /// Starts the threads at the doors. Whether they run.
    pub(crate) fn start_doors<'s, E, D>(
        &'s self,
        scope: &Scope<'s, E>,
        alloc: Global,
        doors: &NodeDoors<'s, D>,
    ) -> bool
    where
        D: Door + Sync,
        D::Stream: Send + Drop,
    {
        let clients = self.start_door(scope, alloc, Service::Clients, doors.clients);
        match doors.console {
            Some(door) => clients && self.start_door(scope, alloc, Service::Console, door),
            None => clients,
        }
    }

    /// Wakes the thread at a door until it has ended.
    fn shut_door<D: Door>(&self, service: Service, door: &D) {
        for _ in self.rt.forever() {
            if self.entrance(service).is_shut() {
                break;
            }
            door.wake();
            thread::sleep(self.rt, Duration::from_millis(PAUSE));
        }
    }

    /// Wakes the threads at the doors until they have ended.
    pub(crate) fn shut_doors<D: Door>(&self, doors: &NodeDoors<'_, D>) {
        self.shut_door(Service::Clients, doors.clients);
        if let Some(door) = doors.console {
            self.shut_door(Service::Console, door);
        }
    }
}
