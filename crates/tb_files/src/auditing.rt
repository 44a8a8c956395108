//! What is told of an audit.
ghost use Rattle.std.specs.Prelude.{◌≡◌, IfErr, IfOk, OnErr, OnOk, true};
ghost use Rattle.std.specs.Io.KnownBytes.{Appends};
ghost use Rattle.tb_files.specs.Auditing.{audit_line, audit_text, ending_of_audit};
ghost use Rattle.tb_orders.specs.Faults.{is_of_printing};
ghost use Rattle.tb_values.specs.Appends.{AppendsFront};

use std::alloc::{AllocError, Global};
use std::io::Write;
use tb_keeper::Audit;
use tb_orders::Ending;
use tb_program::{Fault, print_line};
use tb_values::Text;

/// Prints how many boards and tasks a file has, and how many boards differ from what their tasks say. One that differs is a refusal.
pub fn print_audit<W: Write>(alloc: Global, audit: &Audit, writer: &mut W) -> Result<Ending, Fault>
    ensures told { OnOk result
        (Appends (W.contents writer.old) (W.contents writer.new) (audit_line audit.now)) }
    ensures front { OnErr result
        (AppendsFront (W.contents writer.old) (W.contents writer.new) (audit_line audit.now)) }
    ensures ending { IfOk result (λ ending. ending ≡ ending_of_audit audit.now) }
    ensures fault { IfErr result (λ fault. is_of_printing fault ≡ true) }
{
    let text = audit_text(alloc, audit)?;
    print_line(writer, text.as_str())?;
    Ok(ending_of_audit(audit))
}

fn audit_text(alloc: Global, audit: &Audit) -> Result<Text, AllocError>
    ensures { IfOk result (λ text. text ≡ audit_text audit.now) }
{
    let mut text = String::new(alloc);
    write!(
        text,
        "boards {} tasks {} faults {}",
        audit.boards, audit.tasks, audit.faults
    )?;
    Ok(Text::from_string(text))
}

fn ending_of_audit(audit: &Audit) -> Ending
    ensures { result ≡ ending_of_audit audit.now }
{
    if audit.faults == 0 {
        Ending::Accepted
    } else {
        Ending::Refused
    }
}
