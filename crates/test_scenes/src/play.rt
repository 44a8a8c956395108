//! Plays scenes, each over lists of its own, in every way.

use crate::at_once::play_in_all_orders;
use crate::ends::{Narrow, Pieces};
use crate::lines::compare;
use crate::owner::Owner;
use crate::scene::{Connection, Way};
use std::io;
use tb_desk::{Desk, ListKeep};
use tb_serve::{ListClock, ServeEnd, serve_reader};
use tb_site::Paths;

/// Plays a scene over lists in every way. Tells in how many orders its connections were played at once, which is 0 where they weren't.
pub fn play_over_lists(owner: &Owner, scene: &[Connection<'_>]) -> io::Result<usize> {
    let [first, ..] = scene else {
        return Ok(0);
    };
    if !first.parts.is_empty() {
        return play_in_all_orders(owner, scene);
    }
    let paths = first.paths(owner.alloc)?;
    for way in first.ways(owner.alloc)?.iter() {
        play(owner, &paths, &mut Desk::new(owner.lists()?), scene, *way)?;
    }
    Ok(0)
}

/// Plays the connections of a scene, the first in this way.
fn play(
    owner: &Owner,
    paths: &Paths,
    desk: &mut Desk<ListKeep>,
    scene: &[Connection<'_>],
    way: Way,
) -> io::Result<()> {
    let mut first_way = Some(way);
    for connection in scene {
        let whole = connection.whole()?;
        connection.play(owner, paths, desk, first_way.take().unwrap_or(whole))?;
    }
    Ok(())
}

impl Connection<'_> {
    /// Serves it at its moments.
    fn play(
        &self,
        owner: &Owner,
        paths: &Paths,
        desk: &mut Desk<ListKeep>,
        way: Way,
    ) -> io::Result<()> {
        let bytes = self.sent.get(..way.len).unwrap_or(b"");
        let mut source = Pieces::of(bytes, way.size, self.get("reader").is_some());
        source.cut = way.cut;
        let mut writer = Narrow::of(owner.alloc, way.room);
        writer.fails = self.get("writer").unwrap_or("").starts_with("fails");
        let moments = self.moments(owner.alloc)?;
        let mut clock = ListClock::new(moments.as_slice());
        let end = serve_reader(owner.alloc, paths, source, &mut writer, desk, &mut clock);
        self.expect(owner, way, writer.taken, end)
    }

    /// Compares what was answered, and how it ended.
    fn expect(&self, owner: &Owner, way: Way, answered: Vec<u8>, end: ServeEnd) -> io::Result<()> {
        let (messages, count) = (end.messages, end.answered);
        let line = match end.fault {
            None => format!(in owner.alloc; "\n{messages} {count}")?,
            Some(fault) => format!(in owner.alloc; "\n{messages} {count} {fault:?}")?,
        };
        let mut told = answered;
        told.extend_from_slice(line.as_bytes())?;
        let wanted = self.wanted(owner.alloc, way)?;
        compare(owner.alloc, wanted.as_slice(), told.as_slice())
    }
}
