//! A folder on the machine's disk.
ghost use Rattle.std.specs.Prelude.{◌≡◌, List, IfErr, true};
ghost use Rattle.tb_site.specs.declared.page.FoundFile.{FoundFile};
ghost use Rattle.tb_site.specs.Page.{Makes, is_of_disk, page_of};

use crate::fault::PageFault;
use crate::page::{FoundFile, MOST_BYTES, MOST_FILES, is_folder_name, make_page, media_of};
use crate::site::Site;
use std::fs::{DirEntry, File, ReadDir, read_dir};
use std::io::{self, Error, ErrorKind, Read};
use tb_values::{Items, Text};

fn fault_of(error: Error) -> PageFault
    ensures { is_of_disk result ≡ true }
{
    match error.kind() {
        ErrorKind::OutOfMemory => PageFault::Memory,
        _ => PageFault::Unreadable,
    }
}

// What a page takes of an entry of a folder.
#[derive(Drop)]
enum Entry {
    File(Text),
    Folder(Text),
    // Another file, another folder, or a link to one.
    Neither,
}

fn read_entry(rt: &HostRuntime, entry: io::Result<DirEntry>) -> Result<Entry, PageFault>
    ensures { IfErr result (λ fault. is_of_disk fault ≡ true) }
{
    let entry = match entry {
        Ok(entry) => entry,
        Err(error) => return Err(fault_of(error)),
    };
    let name = entry.file_name();
    let is_page_file = media_of(name).is_some();
    let is_page_folder = is_folder_name(name.as_bytes());
    if !is_page_file && !is_page_folder {
        return Ok(Entry::Neither);
    }
    match entry.file_type() {
        Ok(kind) if kind.is_file() && is_page_file => {
            Ok(Entry::File(Text::from_str(rt.alloc(), name)?))
        }
        Ok(kind) if kind.is_dir() && is_page_folder => {
            Ok(Entry::Folder(Text::from_str(rt.alloc(), name)?))
        }
        Ok(_) => Ok(Entry::Neither),
        Err(error) => Err(fault_of(error)),
    }
}

fn open(rt: &HostRuntime, folder: &str) -> Result<ReadDir, PageFault>
    ensures { IfErr result (λ fault. is_of_disk fault ≡ true) }
{
    match read_dir(rt, folder) {
        Ok(entries) => Ok(entries),
        Err(error) => Err(fault_of(error)),
    }
}

// Adds the files of a folder in the page's: none of the folders in it.
fn push_inner(
    rt: &HostRuntime,
    folder: &str,
    inner: &str,
    names: &mut Vec<Text>,
) -> Result<(), PageFault>
    ensures { IfErr result (λ fault. is_of_disk fault ≡ true) }
{
    let path = format!(in rt.alloc(); "{folder}/{inner}")?;
    for entry in open(rt, path.as_str())? {
        if names.len() > MOST_FILES {
            break;
        }
        if let Entry::File(name) = read_entry(rt, entry)? {
            let mut whole = Text::from_str(rt.alloc(), inner)?;
            whole.push_str("/")?;
            whole.push_str(name.as_str())?;
            names.push(whole)?;
        }
    }
    Ok(())
}

// The names of the files of a page: one more than it may have at most.
fn list(rt: &HostRuntime, folder: &str) -> Result<Vec<Text>, PageFault>
    ensures { IfErr result (λ fault. is_of_disk fault ≡ true) }
{
    let mut names = Vec::new(rt.alloc());
    for entry in open(rt, folder)? {
        if names.len() > MOST_FILES {
            break;
        }
        match read_entry(rt, entry)? {
            Entry::File(name) => names.push(name)?,
            Entry::Folder(inner) => push_inner(rt, folder, inner.as_str(), &mut names)?,
            Entry::Neither => (),
        }
    }
    Ok(names)
}

// Up to so many bytes of a file.
fn read_file(
    rt: &HostRuntime,
    folder: &str,
    name: &str,
    most: usize,
) -> Result<Items<u8>, PageFault>
    ensures { IfErr result (λ fault. is_of_disk fault ≡ true) }
{
    let path = format!(in rt.alloc(); "{folder}/{name}")?;
    let file = match File::open(rt, path.as_str()) {
        Ok(file) => file,
        Err(error) => return Err(fault_of(error)),
    };
    let mut bytes = Vec::new(rt.alloc());
    match file.take(most as u64).read_to_end(&mut bytes) {
        Ok(_) => Ok(Items::from_vec(bytes)),
        Err(error) => Err(fault_of(error)),
    }
}

// The files of a folder and of the folders in it that a page has: one more than it may have at most, and one byte more.
fn find_files(rt: &HostRuntime, folder: &str) -> Result<Vec<FoundFile>, PageFault>
    ensures { IfErr result (λ fault. is_of_disk fault ≡ true) }
{
    let names = list(rt, folder)?;
    let mut found = Vec::new(rt.alloc());
    let mut room = MOST_BYTES + 1;
    for name in names {
        let body = read_file(rt, folder, name.as_str(), room)?;
        room = room.saturating_sub(body.len());
        found.push(FoundFile { name, body })?;
    }
    Ok(found)
}

/// The page of a folder's files, as they are now.
pub fn read_page(rt: &HostRuntime, folder: &str) -> Result<Site, PageFault>
    ensures { (found : List FoundFile) × Makes result (page_of found) }
{
    let found = find_files(rt, folder)?;
    make_page(rt.alloc(), &found)
}
