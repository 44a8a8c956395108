//! Links between nodes, and the circles in them.

use crate::finding::{Finding, missing, show};
use crate::given::{halves, read_count, read_place};
use std::alloc::{AllocError, Global};
use std::io;
use tb_graph::Links;

/// Asks a graph of so many nodes with the links `FROM>TO`, or `-` for none.
pub(crate) fn graph(alloc: Global, word: &str, given: &str) -> Finding {
    let (nodes, rest) = halves(given);
    let (pairs, rest) = halves(rest);
    let mut links = Links::new(alloc, read_count(nodes))?;
    for pair in pairs.split(',') {
        add(&mut links, pair)?;
    }
    match word {
        "nodes" => show(alloc, &links.nodes()),
        "acyclic" => show(alloc, &links.acyclic()?),
        "reaches" => reaches(alloc, &links, rest),
        _ => waiting(alloc, &links, word, rest),
    }
}

fn add(links: &mut Links, pair: &str) -> io::Result<()> {
    if pair == "-" {
        return Ok(());
    }
    let (from, to) = pair.split_once('>').ok_or(missing())?;
    let (from, to) = (read_place(from), read_place(to));
    if from >= links.nodes() || to >= links.nodes() {
        return Err(missing());
    }
    links.add(from, to)?;
    Ok(())
}

fn reaches(alloc: Global, links: &Links, rest: &str) -> Finding {
    let (from, to) = halves(rest);
    let (from, to) = (read_place(from), read_place(to));
    if from >= links.nodes() || to >= links.nodes() {
        return Err(missing());
    }
    show(alloc, &links.reaches(from, to)?)
}

/// Which of the nodes that are open, with a `+`, are blocked or blocking.
fn waiting(alloc: Global, links: &Links, word: &str, rest: &str) -> Finding {
    let mut open = Vec::new(alloc);
    for mark in rest.as_bytes() {
        open.push(*mark == b'+')?;
    }
    let marks = match word {
        "blocked" => links.blocked(open.as_slice())?,
        _ => links.blocking(open.as_slice())?,
    };
    show(alloc, &marks.as_slice())
}

/// Links a node to the next one and to three later ones, if there are such.
fn link_on(links: &mut Links, from: usize) -> Result<(), AllocError> {
    for step in [1, 2, 3, 500] {
        if from < links.nodes() && step < links.nodes() - from {
            links.add(from, from + step)?;
        }
    }
    Ok(())
}

/// Whether a long chain is acyclic, whether its first node reaches the last, and whether it is acyclic with a link back.
pub(crate) fn chain(alloc: Global, given: &str) -> Finding {
    let nodes = read_count(given);
    let mut links = Links::new(alloc, nodes)?;
    for from in 0..nodes {
        link_on(&mut links, from)?;
    }
    if links.nodes() == 0 {
        return Err(missing());
    }
    let last = links.nodes() - 1;
    let is_acyclic = links.acyclic()?;
    let reaches = links.reaches(0, last)?;
    links.add(last, 0)?;
    let is_still = links.acyclic()?;
    Ok(format!(in alloc; "{is_acyclic} {reaches} {is_still}")?)
}
