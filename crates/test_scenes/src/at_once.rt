//! Plays connections that one server has at once, with their parts in every order.

use crate::lines::{compare, read_count, unreadable};
use crate::owner::Owner;
use crate::scene::{Connection, USUAL};
use std::alloc::{AllocError, Global};
use std::{io, mem};
use tb_desk::{Desk, ListKeep};
use tb_serve::{ListClock, Peer, PeerEvent, Tools, play, serve_reader};
use tb_site::{Paths, Site};
use tb_task::Moment;

/// The number that stands for all bytes.
const ALL: &str = "18446744073709551615";

/// Plays a scene in every order of the parts of its connections, and tells how many orders there are.
pub(crate) fn play_in_all_orders(owner: &Owner, scene: &[Connection<'_>]) -> io::Result<usize> {
    let mut order = first_order(owner.alloc, scene)?;
    for count in 1..usize::MAX {
        if let Err(error) = play_in_order(owner, scene, order.as_slice()) {
            let text = format!(in owner.alloc; "in order {count}: {error}")?;
            return Err(io::Error::other(text.as_str()));
        }
        if !advance(order.as_mut_slice()) {
            return Ok(count);
        }
    }
    Err(unreadable())
}

/// The order in which the parts of a connection come before those of the next: for each part the place of its connection.
fn first_order(alloc: Global, scene: &[Connection<'_>]) -> Result<Vec<usize>, AllocError> {
    let mut order = Vec::new(alloc);
    for (place, connection) in scene.iter().enumerate() {
        order.extend((0..connection.parts.len()).map(|_| place))?;
    }
    Ok(order)
}

/// Brings the next order, up to the last.
fn advance(order: &mut [usize]) -> bool {
    for front in (0..order.len()).rev() {
        if let Some(back) = order.get_mut(front..)
            && raise(back)
        {
            return true;
        }
    }
    false
}

/// The same, where the places behind the first never rise: a higher one of them comes first, if there is one.
fn raise(order: &mut [usize]) -> bool {
    let [first, rest @ ..] = order else {
        return false;
    };
    rest.reverse();
    for other in rest.iter_mut() {
        if *other > *first {
            mem::swap(first, other);
            return true;
        }
    }
    rest.reverse();
    false
}

/// Plays the parts in this order, and then what is left of each connection by itself.
fn play_in_order(owner: &Owner, scene: &[Connection<'_>], order: &[usize]) -> io::Result<()> {
    let mut server = Server::new(owner)?;
    let mut clients = server.clients(scene.len())?;
    for place in order {
        let Some(client) = clients.get_mut(*place) else {
            return Err(unreadable());
        };
        server.take_part(client, scene)?;
    }
    server.end(clients, scene)
}

/// How far a connection has come, and what it was told.
#[derive(Drop)]
struct Client {
    place: usize,
    parts: usize,
    bytes: usize,
    told: Vec<u8>,
    /// What its messages are told each on a connection of its own, in the order in which the server handles all messages.
    alone: Vec<u8>,
}

impl Client {
    /// Compares what it was told with what it is told alone, and with what is written, where `?` stands for any byte.
    fn expect(&self, alloc: Global, connection: &Connection<'_>) -> io::Result<()> {
        compare(alloc, self.alone.as_slice(), self.told.as_slice())?;
        let mut told = Vec::new(alloc);
        let mut wanted = connection.wanted.iter();
        for byte in self.told.iter() {
            let is_any = matches!(wanted.next(), Some(b'?'));
            told.push(if is_any { b'?' } else { *byte })?;
        }
        compare(alloc, connection.wanted.as_slice(), told.as_slice())
    }
}

/// A server in memory, and other boards, to which the same messages come alone.
#[derive(Drop)]
struct Server {
    alloc: Global,
    tools: Tools,
    paths: Paths,
    peers: Vec<Peer>,
    desk: Desk<ListKeep>,
    other: Desk<ListKeep>,
}

impl Server {
    fn new(owner: &Owner) -> Result<Server, AllocError> {
        Ok(Server {
            alloc: owner.alloc,
            tools: Tools::new(owner.alloc)?,
            paths: Paths::new(owner.alloc, Site::none(owner.alloc))?,
            peers: Vec::new(owner.alloc),
            desk: Desk::new(owner.lists()?),
            other: Desk::new(owner.lists()?),
        })
    }

    /// Opens so many connections.
    fn clients(&mut self, count: usize) -> Result<Vec<Client>, AllocError> {
        let mut clients = Vec::new(self.alloc);
        for place in 0..count {
            self.peers.push(Peer::new(self.alloc))?;
            clients.push(Client {
                place,
                parts: 0,
                bytes: 0,
                told: Vec::new(self.alloc),
                alone: Vec::new(self.alloc),
            })?;
        }
        Ok(clients)
    }

    /// Takes the next part of a connection.
    fn take_part(&mut self, client: &mut Client, scene: &[Connection<'_>]) -> io::Result<()> {
        let connection = scene.get(client.place).ok_or(unreadable())?;
        let parts = connection.parts.as_slice();
        let part = parts.get(client.parts).ok_or(unreadable())?;
        client.parts = client.parts.saturating_add(1);
        for word in part.split(' ') {
            self.take(client, connection.sent.as_slice(), word)?;
        }
        Ok(())
    }

    fn take(&mut self, client: &mut Client, sent: &[u8], word: &str) -> io::Result<()> {
        let (kind, most) = word.split_once(':').unwrap_or((word, ALL));
        let most = read_count(most)?;
        match kind {
            "came" => {
                let rest = sent.get(client.bytes..).unwrap_or(&[]);
                let piece = rest.get(..most).unwrap_or(rest);
                client.bytes = client.bytes.saturating_add(piece.len());
                self.happen(&[(client.place, PeerEvent::Came(piece))])
            }
            "turn" => self.turn(client),
            "went" => self.go(client, most),
            "ends" => {
                client.alone.truncate(client.told.len());
                self.happen(&[(client.place, PeerEvent::Opened)])
            }
            _ => Err(unreadable()),
        }
    }

    fn happen(&mut self, happenings: &[(usize, PeerEvent<'_>)]) -> io::Result<()> {
        let peers = self.peers.as_mut_slice();
        match play(
            self.alloc,
            &mut self.tools,
            &self.paths,
            peers,
            &mut self.desk,
            happenings,
        ) {
            Ok(()) => Ok(()),
            Err(_) => Err(io::Error::other("the store has failed")),
        }
    }

    fn peer(&self, client: &Client) -> io::Result<&Peer> {
        self.peers.as_slice().get(client.place).ok_or(unreadable())
    }

    /// Lets a client have at most so many of the bytes that it is to be told.
    fn go(&mut self, client: &mut Client, most: usize) -> io::Result<()> {
        let unsent = self.peer(client)?.unsent();
        let front = unsent.get(..most).unwrap_or(unsent);
        client.told.extend_from_slice(front)?;
        let count = front.len();
        self.happen(&[(client.place, PeerEvent::Went(count))])
    }

    /// Lets a client have its turn. If a message of it is handled, it comes to the other boards too.
    fn turn(&mut self, client: &mut Client) -> io::Result<()> {
        let held = Vec::from_slice(self.alloc, self.peer(client)?.held())?;
        self.happen(&[(client.place, PeerEvent::Turn(Moment::read(USUAL)))])?;
        let left = self.peer(client)?.held().len();
        let message = &held.as_slice()[..held.len().saturating_sub(left)];
        let (paths, told) = (&self.paths, &mut client.alone);
        serve_alone(self.alloc, paths, message, told, &mut self.other);
        Ok(())
    }

    /// Serves what is left of each connection by itself, and looks whether each was told what it had to be.
    fn end(&mut self, clients: Vec<Client>, scene: &[Connection<'_>]) -> io::Result<()> {
        for mut client in clients {
            let connection = scene.get(client.place).ok_or(unreadable())?;
            let sent = connection.sent.as_slice();
            let rest = sent.get(client.bytes..).unwrap_or(&[]);
            let paths = &self.paths;
            serve_alone(self.alloc, paths, rest, &mut client.told, &mut self.desk);
            serve_alone(self.alloc, paths, rest, &mut client.alone, &mut self.other);
            client.expect(self.alloc, connection)?;
        }
        Ok(())
    }
}

/// Serves bytes on a connection of their own, if there are any.
fn serve_alone(
    alloc: Global,
    paths: &Paths,
    bytes: &[u8],
    told: &mut Vec<u8>,
    desk: &mut Desk<ListKeep>,
) {
    if !bytes.is_empty() {
        let moments = [Moment::read(USUAL)];
        let _ = serve_reader(
            alloc,
            paths,
            bytes,
            told,
            desk,
            &mut ListClock::new(&moments),
        );
    }
}
