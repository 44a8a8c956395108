//! The files of a page.
ghost use Rattle.std.specs.Prelude.{◌≡◌, codes, find};
ghost use Rattle.std.specs.Option.{option_copied};
ghost use Rattle.std.specs.Str.{bytes_eq};
ghost use Rattle.tb_site.specs.Site as page;

use std::alloc::Global;
use tb_http::{Answer, ContentType, MediaType};
use tb_values::{Items, Text};

/// A file of a page.
#[derive(Drop)]
pub struct SiteFile {
    /// The target of the messages that ask for it: a slash, and its name.
    pub path: Text,
    pub media: MediaType,
    pub body: Items<u8>,
}

impl SiteFile {
    /// The answer to a message that asks for it, but for its body.
    pub fn answer(&self, is_last: bool, sends_body: bool) -> Answer
        ensures { result ≡ page.file_answer self.now is_last sends_body }
    {
        Answer {
            status: 200,
            content_type: ContentType::File(self.media),
            allow: None,
            is_last,
            sends_body,
        }
    }
}

/// The files of a page. A server without a page has none.
#[derive(Drop)]
pub struct Site {
    pub files: Items<SiteFile>,
}

impl Site {
    /// No page.
    pub fn none(alloc: Global) -> Site
        ensures { result ≡ page.no_site }
    {
        Site {
            files: Items::new(alloc),
        }
    }

    /// The file of a whole target, which is its path; `/` is the target of the file `index.html` too.
    pub fn file(&self, target: &str) -> Option<&SiteFile>
        ensures { option_copied result ≡ page.file_at self.now target.now }
    {
        let path = path_of(target);
        self.files
            .as_slice()
            .iter()
            .find(|file| file.path.as_str() == path)
    }
}

fn path_of(target: &str) -> &str
    ensures { result.now ≡ page.path_of target.now }
{
    if target == "/" { "/index.html" } else { target }
}
