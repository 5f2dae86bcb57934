//! Answers to events of the daemon as a whole.
ghost use Rattle.std.specs.Prelude.{◌≡◌, ◌++◌, OnOk};
ghost use Rattle.answer_texts.specs.Texts.{control_text, not_read_text, ok_text, refused_text};
ghost use Rattle.answer_texts.specs.Texts.{reload_text};

use crate::putting::{put, put_number, put_number_line};
use answers::NoMemory;
use book_history::{Control, NotRead, Reload};
use config_model::ConfigFault;

/// Puts that an event was done which has no answer.
pub fn put_ok(text: &mut Vec<u8>) -> Result<(), NoMemory>
    ensures { OnOk result (text.new.items ≡ text.old.items ++ ok_text) }
{
    put(text, b"ok\n")
}

/// Puts what the daemon is to do.
pub fn put_control(text: &mut Vec<u8>, given: Control) -> Result<(), NoMemory>
    ensures { OnOk result (text.new.items ≡ text.old.items ++ control_text given) }
{
    match given {
        Control::Stop => put(text, b"stop\n"),
        Control::ReloadDue => put(text, b"reload-due\n"),
        Control::Nothing => put(text, b"nothing\n"),
    }
}

/// Puts what became of a new configuration.
pub fn put_reload(text: &mut Vec<u8>, given: Reload) -> Result<(), NoMemory>
    ensures { OnOk result (text.new.items ≡ text.old.items ++ reload_text given) }
{
    match given {
        Reload::Full(number) => put_number_line(text, b"full ", number),
        Reload::NoMemory => put(text, b"memory\n"),
        Reload::Ok => put(text, b"reloaded\n"),
    }
}

/// Puts why there is no new configuration: the first fault of its file, or that memory ran out. Of a file that wasn't
/// read nothing is printed.
pub fn put_not_read(text: &mut Vec<u8>, why: NotRead) -> Result<(), NoMemory>
    ensures { OnOk result (text.new.items ≡ text.old.items ++ not_read_text why) }
{
    match why {
        NotRead::ReadFault => Ok(()),
        NotRead::Refused(fault) => put_refused(text, fault),
        NotRead::NoMemory => put(text, b"memory\n"),
    }
}

fn put_refused(text: &mut Vec<u8>, fault: ConfigFault) -> Result<(), NoMemory>
    ensures { OnOk result (text.new.items ≡ text.old.items ++ refused_text fault) }
{
    put(text, b"refused ")?;
    put_number(text, u64::from(fault.line))?;
    put(text, b":")?;
    put_number(text, u64::from(fault.column))?;
    put(text, b" ")?;
    put(text, fault.kind.word().as_bytes())?;
    put(text, b"\n")?;
    Ok(())
}
