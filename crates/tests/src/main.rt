//! Runs the cases of the folder that it is started in, each a file: scripts (`NAME.script`), scenes of connections (`NAME.wire`), steps over
//! files that stop and are opened again (`NAME.steps`), and questions that functions are asked (`NAME.case`). With a word it answers standard
//! input: over a store in the file of that name, or for `--memory` over one in memory. With two it sends the script in the file of the first
//! over files that stop. `data/README.md` says what the files hold. It stands on `test_values`, `test_scenes` and `test_stores` for what
//! they ask, play and take, and on `tb_orders` for orders.
#![tactic(auto)]

mod orders;
mod outcomes;
mod questions;
mod rows;
mod scenes;
mod scripts;

use std::io::{self, Read, Write};
use std::{env, fs};
use test_scenes::Owner;
use test_stores::{answer_in, run_steps};

fn main(rt: HostRuntime) -> io::Result<()> {
    let owner = Owner::root(rt.alloc())?;
    let Ok(mut words) = env::args(&rt) else {
        return Err(io::Error::other("the words can't be read"));
    };
    let _program = words.next();
    match (words.next(), words.next(), words.next()) {
        (None, _, _) => tell_all(&rt, &owner),
        (Some(place), None, _) => answer_input(&rt, &owner, place.as_str()),
        (Some(file), Some(ways), None) => scripts::stop(&rt, &owner, file.as_str(), ways.as_str()),
        _ => Err(io::Error::other("there are more than two words")),
    }
}

/// Answers standard input over a store in that place.
fn answer_input(rt: &HostRuntime, owner: &Owner, place: &str) -> io::Result<()> {
    let mut lines = Vec::new(rt.alloc());
    rt.stdin().read_to_end(&mut lines)?;
    let answers = answer_in(rt, owner, place, lines.as_slice())?;
    rt.stdout().write_all(answers.as_slice())
}

/// Tells of each case of the folder whether it goes as it is written.
fn tell_all(rt: &HostRuntime, owner: &Owner) -> io::Result<()> {
    for file in file_names(rt)?.as_slice() {
        tell(rt, owner, file.as_str())?;
    }
    Ok(())
}

/// The names of the files in the folder, in their order.
fn file_names(rt: &HostRuntime) -> io::Result<Vec<String>> {
    let mut names = Vec::new(rt.alloc());
    for entry in fs::read_dir(rt, ".")? {
        let entry = entry?;
        names.push(String::from_str(rt.alloc(), entry.file_name())?)?;
    }
    names.sort()?;
    Ok(names)
}

/// Tells what a case brought, or why it went otherwise than it is written.
fn tell(rt: &HostRuntime, owner: &Owner, file: &str) -> io::Result<()> {
    let (name, ending) = file.split_once('.').unwrap_or((file, ""));
    let end = match ending {
        "script" => scripts::run(rt, owner, name),
        "wire" | "steps" | "case" => run(owner, ending, fs::read_to_string(rt, file)?.as_str()),
        _ => return Ok(()),
    };
    match end {
        Ok(told) => println!(rt; "{file}: {told}"),
        Err(error) => println!(rt; "{file}: {error}"),
    }
}

fn run(owner: &Owner, ending: &str, text: &str) -> io::Result<String> {
    match ending {
        "wire" => return scenes::run(owner, text),
        "steps" => run_steps(owner, text)?,
        _ => questions::run(owner.alloc, text)?,
    }
    Ok(String::from_str(owner.alloc, "ok")?)
}
