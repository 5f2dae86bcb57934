//! How a command ends.
ghost use Rattle.std.specs.Prelude.{◌≡◌, ◌+◌, ◌≤◌, ◌++◌, length};
ghost use Rattle.arrayvec.specs.ArrayVec.{array_vec_len};
ghost use Rattle.script_play.specs.Status.{refusal_line, script_line};

use arrayvec::ArrayVec;
use config_model::ConfigFault;
use text_forms::{put_u32, put_u64};

/// How many bytes the buffer has that a status's line is put into.
pub const STATUS_ROOM: usize = 64;

/// How a command ended. The number is the exit status of the program.
#[derive(Clone, Copy, Debug, PartialEq, Eq)]
pub enum Status {
    /// What the command reads was read to its end, and everything was written.
    Ok,
    /// The words spell no command.
    Usage,
    /// The configuration wasn't read: its file wasn't opened, or a read of it failed.
    ConfigRead,
    /// The file is no configuration, and this is its first fault.
    ConfigRefused(ConfigFault),
    /// The script's line of this number, from 1, is in no production.
    ScriptRefused(u64),
    /// A read of the input failed.
    ReadFault,
    /// A write to the output failed.
    WriteFault,
    /// The threads of the daemon weren't all started.
    NoCrew,
    /// Memory ran out.
    NoMemory,
    /// 2^40 bytes were read and the input's end wasn't met.
    InputLong,
}

impl Status {
    ghost use Rattle.script_play.specs.Status.{number_of, line_of};

    /// The exit status of the program.
    pub fn number(self) -> u8
        ensures { result ≡ number_of self }
    {
        match self {
            Status::Ok => 0,
            Status::Usage => 2,
            Status::ConfigRead => 3,
            Status::ConfigRefused(_) => 4,
            Status::ScriptRefused(_) => 5,
            Status::ReadFault => 6,
            Status::WriteFault => 7,
            Status::NoCrew => 8,
            Status::NoMemory => 9,
            Status::InputLong => 10,
        }
    }

    /// Puts the line for standard error in the place of what the buffer holds: nothing where all went well.
    pub fn put_line(self, out: &mut ArrayVec<u8, STATUS_ROOM>)
        ensures { out.new.items ≡ line_of self }
    {
        out.clear();
        match self {
            Status::Ok => {}
            Status::Usage => put(b"exabgp: usage\n", out),
            Status::ConfigRead => put(b"exabgp: configuration not read\n", out),
            Status::ConfigRefused(fault) => put_refusal(&fault, out),
            Status::ScriptRefused(line) => put_script(line, out),
            Status::ReadFault => put(b"exabgp: read fault\n", out),
            Status::WriteFault => put(b"exabgp: write fault\n", out),
            Status::NoCrew => put(b"exabgp: no crew\n", out),
            Status::NoMemory => put(b"exabgp: no memory\n", out),
            Status::InputLong => put(b"exabgp: input too long\n", out),
        }
    }
}

// Puts the line of a refused configuration.
fn put_refusal(fault: &ConfigFault, out: &mut ArrayVec<u8, STATUS_ROOM>)
    requires { array_vec_len out.old ≡ 0 }
    ensures { out.new.items ≡ out.old.items ++ refusal_line fault.now }
{
    put(b"exabgp: configuration ", out);
    put_u32(fault.line, out);
    put(b":", out);
    put_u32(fault.column, out);
    put(b" ", out);
    put(fault.kind.word().as_bytes(), out);
    put(b"\n", out);
}

// Puts the line of a refused script.
fn put_script(line: u64, out: &mut ArrayVec<u8, STATUS_ROOM>)
    requires { array_vec_len out.old ≡ 0 }
    ensures { out.new.items ≡ out.old.items ++ script_line line }
{
    put(b"exabgp: script ", out);
    put_u64(line, out);
    put(b"\n", out);
}

// Puts bytes for which there is room.
fn put(piece: &[u8], out: &mut ArrayVec<u8, STATUS_ROOM>)
    requires { array_vec_len out.old + length piece.now ≤ STATUS_ROOM }
    ensures text { out.new.items ≡ out.old.items ++ piece.now }
    ensures len { array_vec_len out.new ≡ array_vec_len out.old + length piece.now }
{
    let _ = out.try_extend_from_slice(piece);
}
