//! The page of the files of a folder.
ghost use Rattle.std.specs.Prelude.{◌≡◌, ◌==◌, ◌<◌, ◌≤◌, codes, length, position, IfOk, IfSome};
ghost use Rattle.std.specs.List.{list_all};
ghost use Rattle.tb_site.specs.Page as page;
ghost use Rattle.tb_site.specs.Page.{Makes};

use crate::fault::PageFault;
use crate::site::{Site, SiteFile};
use std::alloc::{AllocError, Global};
use tb_http::MediaType;
use tb_values::{Duplicate, Items, Text};

/// How many files a page has at most.
pub const MOST_FILES: usize = 128;

/// How many bytes they have in all at most.
pub const MOST_BYTES: usize = 8_388_608;

/// A file of a folder, with its name in it: `style.css`, or `core/days.js` in a folder there.
#[derive(Drop)]
pub struct FoundFile {
    pub name: Text,
    pub body: Items<u8>,
}

// The files of a page so far, and for how many bytes more there is room.
#[derive(Drop)]
struct Draft {
    files: Items<SiteFile>,
    room: usize,
}

#[tactic(auto, unfolding(crate::specs::Page::is_folder_byte))]
fn is_folder_byte(byte: u8) -> bool
    ensures { result ≡ page.is_folder_byte byte }
{
    byte.is_ascii_lowercase() || byte.is_ascii_digit() || byte == b'_' || byte == b'-'
}

#[tactic(auto, unfolding(crate::specs::Page::is_name_byte))]
fn is_name_byte(byte: u8) -> bool
    ensures { result ≡ page.is_name_byte byte }
{
    is_folder_byte(byte) || byte == b'.'
}

fn is_file_name(name: &[u8]) -> bool
    ensures { result ≡ page.is_file_name name.now }
{
    name.iter().all(|byte| is_name_byte(*byte))
}

fn has_folder_bytes(name: &[u8]) -> bool
    ensures { result ≡ list_all page.is_folder_byte name.now }
{
    name.iter().all(|byte| is_folder_byte(*byte))
}

/// Whether a page has the files in a folder of this name.
pub fn is_folder_name(name: &[u8]) -> bool
    ensures { result ≡ page.is_folder_name name.now }
{
    !name.is_empty() && has_folder_bytes(name)
}

fn are_folder_and_file(folder: &[u8], file: &[u8]) -> bool
    ensures { result ≡ page.are_folder_and_file folder.now file.now }
{
    is_folder_name(folder) && is_file_name(file)
}

fn slash_of(name: &[u8]) -> Option<usize>
    ensures place { result ≡ position (λ byte. byte == 47) name.now }
    ensures within { IfSome result (λ place. place < length name.now) }
{
    name.iter().position(|byte| *byte == b'/')
}

// A file's name, or a folder's and that of a file in it, with a slash between them.
fn has_place(name: &[u8]) -> bool
    ensures { result ≡ page.has_place name.now }
{
    match slash_of(name) {
        Some(slash) => are_folder_and_file(&name[..slash], &name[slash + 1..]),
        None => is_file_name(name),
    }
}

fn has_ending(name: &str, ending: &str) -> bool
    ensures { result ≡ page.has_ending name.now ending.now }
{
    name.as_bytes().ends_with(ending.as_bytes())
}

#[tactic(auto, unfolding(crate::specs::Page::media_by_ending))]
fn media_by_ending(name: &str) -> Option<MediaType>
    ensures { result ≡ page.media_by_ending name.now }
{
    if has_ending(name, ".html") {
        Some(MediaType::Html)
    } else if has_ending(name, ".css") {
        Some(MediaType::Css)
    } else if has_ending(name, ".js") {
        Some(MediaType::JavaScript)
    } else if has_ending(name, ".svg") {
        Some(MediaType::Svg)
    } else if has_ending(name, ".png") {
        Some(MediaType::Png)
    } else if has_ending(name, ".ico") {
        Some(MediaType::Icon)
    } else if has_ending(name, ".webmanifest") {
        Some(MediaType::Manifest)
    } else {
        None
    }
}

/// What a file of this name is, if a page has it.
pub fn media_of(name: &str) -> Option<MediaType>
    ensures { result ≡ page.media_of name.now }
{
    if has_place(name.as_bytes()) {
        media_by_ending(name)
    } else {
        None
    }
}

// A file more, for which there is room.
fn with_file(
    alloc: Global,
    draft: Draft,
    found: &FoundFile,
    media: MediaType,
) -> Result<Draft, AllocError>
    requires { length found.now.body ≤ draft.room }
    ensures { IfOk result (λ more. more ≡ page.with_file draft found.now media) }
{
    let Draft { mut files, room } = draft;
    let mut path = Text::from_str(alloc, "/")?;
    path.push_str(found.name.as_str())?;
    let body = found.body.duplicate()?;
    let left = room - body.len();
    files.push(SiteFile { path, media, body })?;
    Ok(Draft { files, room: left })
}

// A file more, if a page has it.
#[tactic(auto, unfolding(crate::specs::Page::draft_with))]
fn draft_with(alloc: Global, draft: Draft, found: &FoundFile) -> Result<Draft, PageFault>
    ensures { Makes result (page.draft_with draft found.now) }
{
    let Some(media) = media_of(found.name.as_str()) else {
        return Ok(draft);
    };
    if draft.files.len() >= MOST_FILES {
        return Err(PageFault::TooManyFiles);
    }
    if found.body.len() > draft.room {
        return Err(PageFault::TooLarge);
    }
    Ok(with_file(alloc, draft, found, media)?)
}

fn draft_of(alloc: Global, found: &[FoundFile]) -> Result<Draft, PageFault>
    ensures { Makes result (page.draft_of page.empty_draft found.now) }
{
    let mut draft = Draft {
        files: Items::new(alloc),
        room: MOST_BYTES,
    };
    for file in found {
        draft = draft_with(alloc, draft, file)?;
    }
    Ok(draft)
}

/// The page of these files: those whose names say what they are, at most 128 and 8 MiB in all, with `index.html` among them.
pub fn make_page(alloc: Global, found: &[FoundFile]) -> Result<Site, PageFault>
    ensures { Makes result (page.page_of found.now) }
{
    let draft = draft_of(alloc, found)?;
    let site = Site { files: draft.files };
    if site.file("/").is_none() {
        return Err(PageFault::NoIndex);
    }
    Ok(site)
}
