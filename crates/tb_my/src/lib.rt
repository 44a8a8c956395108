//! The words of `my`: what each asks a server for, by the day and by what a look at the board showed, and what is told of it.
//! It owns these words, days by their names, the attributes that words set, and the lines of the settings. It stands on `tb_json` for
//! bodies, on `tb_todotxt` for dates, and on `tb_command_line` for addresses.
#![tactic(auto)]

mod adding;
mod boards;
mod body;
mod bringing;
mod changing;
mod dates;
mod days;
mod digits;
mod fault;
mod help;
mod importing;
mod look;
mod named;
mod old;
mod options;
mod part;
mod query;
mod said;
mod sent;
mod settings;
mod shown;
mod splitting;
mod tags;
mod telling;
mod undo;
mod word;
mod zone;

pub use boards::{boards_named, is_number, settings_text, with_board};
pub use bringing::{ImportMode, import_of};
pub use days::{after_key, before_key, weekdays_are_next};
pub use fault::MyFault;
pub use importing::{import_told, import_words, is_json, without_mark};
pub use look::{Seen, read_seen};
pub use old::Old;
pub use options::{board_given, help_asked, listed_words, seconds_given, words_after_options};
pub use part::Setting;
pub use query::{Days, Listing, Query, Sort, Standing, Test, Wanted, query_of};
pub use sent::{Sent, looks, sent_of};
pub use settings::{
    Asker, SettingName, Settings, asker_of, needed_board, read_settings, settings_over,
};
pub use shown::{shown_answer, text_at};
pub use telling::{added_text, fault_text, number_of_task, push_shown, refusal_text};
pub use undo::{kept_before, kept_over, kept_rest, kept_sent, lost_in, undo_head, undone_in};
pub use word::MyWord;
pub use zone::{Clock, Shift};
