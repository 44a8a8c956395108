//! Laws over whole runs.

ghost use Rattle.tb_headline.specs.Files.{HeadlineOfFiles};
ghost use Rattle.tb_headline.specs.Headline.{HeadlineOfConnections, StopsJoin, TellsReplies, Headline, LivesOn, RestIsFree};
ghost use Rattle.tb_headline.specs.ImportAgain.{ImportJsonAgain};

/// Whenever sessions stop, and whatever is sent again at whatever moment: once every call of a list was answered, the boards and the
/// kept replies are those of the list handled once, each answer is the one that the list without a stop gives, and the boards are good.
/// The list is of all calls, whoever sends them. Of each call the moment counts at which it stood first. Nothing need be known of who
/// sends what remains of the list, and nothing besides. What `session::run` leaves of a session is what the next of them begins with.
pub fn headline()
    ensures whole { Headline }
    ensures rest { RestIsFree }
    ensures join { LivesOn }
{}

/// The same where the calls come over many connections, whatever turns these take: the list is of
/// all calls in the order in which they were handled first. Each connection is told what its own
/// messages ask for, and the replies to its calls are those of that list. What
/// `session::serve_connections` leaves of a session is what the next of them begins with.
pub fn headline_of_connections()
    ensures headline { HeadlineOfConnections }
    ensures join { StopsJoin }
    ensures told { TellsReplies }
{}

/// The same of the bytes of a file and its log: runs of the server, each of which begins with bytes that a stop of the one before may have
/// left, leave what the list of their calls leaves that is handled once, and each answer is that of the list.
pub fn headline_of_files()
    ensures { HeadlineOfFiles }
{}

/// An import of the task format that comes again right after itself changes nothing, and says so.
pub fn import_again()
    ensures { ImportJsonAgain }
{}
