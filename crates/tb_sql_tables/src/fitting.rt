//! That rows fit the columns of their tables, told by functions that look at the values.

ghost use Rattle.std.specs.Prelude.{◌<◌, ◌^◌, IfSome, IsUtf8};
ghost use Rattle.tb_sql_tables.specs.Fitting.{FitsBoard, FitsEntry, FitsGone, FitsHorizon, FitsInstance, FitsKept, FitsLink, FitsPerson, FitsRole, FitsTask};

use crate::rows::{
    BoardRow, GoneRow, HistoryRow, HorizonRow, InstanceRow, KeptRow, LinkRow, PersonRow, RoleRow,
    TaskRow,
};
use tb_values::Text;

pub fn number_fits(number: u32)
    ensures { number < 2 ^ 32 }
{
    let _number = number;
}

pub fn text_fits(text: &str)
    ensures { IsUtf8 text.now }
{
    let _bytes = text.as_bytes();
}

pub fn mask_fits(mask: &Option<Text>)
    ensures { IfSome mask.now IsUtf8 }
{
    if let Some(mask) = mask {
        words_fit(mask);
    }
}

fn words_fit(text: &Text)
    ensures { IsUtf8 text.now }
{
    text_fits(text.as_str());
}

fn byte_fits(number: u8)
    ensures { number < 2 ^ 8 }
{
    let _number = number;
}

fn short_fits(number: u16)
    ensures { number < 2 ^ 16 }
{
    let _number = number;
}

fn place_fits(place: Option<u32>)
    ensures { IfSome place (λ n. n < 2 ^ 32) }
{
    if let Some(place) = place {
        number_fits(place);
    }
}

pub fn person_fits(row: &PersonRow)
    ensures { FitsPerson row.now }
{
    number_fits(row.id);
    words_fit(&row.name);
    words_fit(&row.secret);
}

pub fn board_fits(row: &BoardRow)
    ensures { FitsBoard row.now }
{
    number_fits(row.id);
    words_fit(&row.title);
    number_fits(row.low);
}

pub fn role_fits(row: &RoleRow)
    ensures { FitsRole row.now }
{
    number_fits(row.board);
    number_fits(row.person);
    number_fits(row.kind);
}

pub fn task_fits(row: &TaskRow)
    ensures { FitsTask row.now }
{
    number_fits(row.board);
    number_fits(row.place);
    words_fit(&row.body);
    mask_fits(&row.mask);
}

pub fn link_fits(row: &LinkRow)
    ensures { FitsLink row.now }
{
    number_fits(row.board);
    number_fits(row.place);
    number_fits(row.target);
}

pub fn instance_fits(row: &InstanceRow)
    ensures { FitsInstance row.now }
{
    number_fits(row.board);
    number_fits(row.template);
    number_fits(row.imask);
    number_fits(row.place);
}

pub fn gone_fits(row: &GoneRow)
    ensures { FitsGone row.now }
{
    number_fits(row.board);
    number_fits(row.template);
    number_fits(row.imask);
    words_fit(&row.mark);
}

pub fn kept_fits(row: &KeptRow)
    ensures { FitsKept row.now }
{
    number_fits(row.person);
    byte_fits(row.number);
    short_fits(row.status);
    words_fit(&row.body);
}

pub fn horizon_fits(row: &HorizonRow)
    ensures { FitsHorizon row.now }
{
    number_fits(row.board);
    number_fits(row.ahead);
}

pub fn entry_fits(row: &HistoryRow)
    ensures { FitsEntry row.now }
{
    number_fits(row.board);
    number_fits(row.number);
    number_fits(row.person);
    number_fits(row.what);
    place_fits(row.task);
}
