//! The words that ask what the program is and takes.
ghost use Rattle.std.specs.Prelude.{◌≡◌, map};
ghost use Rattle.tb_command_line.specs.Sending.{told_alone, told_of, told_of_order, topic_named};

use crate::order::{Order, Topic};

/// What is told of the program itself, where the words ask for that.
#[tactic(auto, unfolding(crate::specs::Sending::told_of))]
pub(crate) fn read_told(words: &[&str]) -> Option<Order>
    ensures { result ≡ told_of (map (λ word. word.now) words.entry.now) }
{
    match words {
        [word] => told_alone(word),
        [name, word] => told_of_order(name, word),
        _ => None,
    }
}

fn told_alone(word: &str) -> Option<Order>
    ensures { result ≡ told_alone word.now }
{
    match word {
        "--help" => Some(Order::Help(Topic::Program)),
        "--version" => Some(Order::Version),
        _ => None,
    }
}

fn told_of_order(name: &str, word: &str) -> Option<Order>
    ensures { result ≡ told_of_order name.now word.now }
{
    if word != "--help" {
        return None;
    }
    match topic_named(name) {
        Some(topic) => Some(Order::Help(topic)),
        None => None,
    }
}

#[tactic(auto, unfolding(crate::specs::Sending::topic_named))]
fn topic_named(name: &str) -> Option<Topic>
    ensures { result ≡ topic_named name.now }
{
    match name {
        "init" => Some(Topic::Init),
        "serve" => Some(Topic::Serve),
        "run" => Some(Topic::Run),
        "import" => Some(Topic::Import),
        "export" => Some(Topic::Export),
        "list" => Some(Topic::List),
        "todo" => Some(Topic::Todo),
        "check" => Some(Topic::Check),
        "key" => Some(Topic::Key),
        "send" => Some(Topic::Send),
        "my" => Some(Topic::My),
        _ => None,
    }
}
