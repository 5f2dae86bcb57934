//! The top call.
ghost use Rattle.std.specs.Prelude.{◌≡◌, ◌⊎◌, codes, List, [], ◌∷◌, ℕ, Option, map};
ghost use Rattle.config_model.specs.declared.fault.ConfigFault.{ConfigFault as Fault};
ghost use Rattle.exa_top.specs.Encoded.{EncodesFile, plain_of};
ghost use Rattle.exa_top.specs.Parses.{Parses, ParsesIts};
ghost use Rattle.exa_top.specs.Played.{PlaysFile};
ghost use Rattle.exa_top.specs.Top.{Answered, AreConfigured, Began, EncodesIts, EndsAtOnce};
ghost use Rattle.exa_top.specs.Top.{EndsLate, Finished};
ghost use Rattle.exa_top.specs.Top.{GaveFrom, GaveLimit, HaveConfig, HaveFault, HaveScript};
ghost use Rattle.exa_top.specs.Top.{IsBounded, IsLeftShort, IsOverrun};
ghost use Rattle.exa_top.specs.Top.{NameFile, NamesFile, PlayScript, PlaysIts, PlaysScript};
ghost use Rattle.exa_top.specs.Top.{ReadInput, Refuses, Wrote, input_limit};
ghost use Rattle.exa_top.specs.Words.{IsCommand, IsEncode};
ghost use Rattle.exa_top.specs.declared.words.Ends.{Ends as Session};
ghost use Rattle.exa_top.specs.declared.words.TextCommand.{TextCommand as Spelled};
ghost use Rattle.exa_top.specs.declared.words.TextCommand.TheVariants.{Check};
ghost use Rattle.outside.specs.Lent.{LendsNone};
ghost use Rattle.outside.specs.Seen.{SourceSeen, source_seen, sink_seen};
ghost use Rattle.outside.specs.Told.{CountsOne, Rose};
ghost use Rattle.script_play.specs.Encoding.{Encodes};

use crate::decoding::decode;
use crate::encoding::{encode_over, encode_plain};
use crate::loading::load_plain;
use crate::parsing::parse;
use crate::playing::play_over;
use crate::words::{TextCommand, text_command};
use config_model::{MAX_HELPERS, MAX_PEERS, Slots};
use config_reader::files_say_one;
use outside::{Files, Sink, Source, write_all};
use script_play::{Status, configured};
use std::alloc::Global;

/// How many bytes of input are too many.
pub const MAX_INPUT: usize = 1 << 40;

/// How many processes and neighbours a text command reads a configuration for.
pub const TEXT_SLOTS: Slots = Slots {
    helpers: MAX_HELPERS,
    peers: MAX_PEERS,
};

// What `check` writes.
const CHECKED: &[u8] = b"ok\n";

// What `--version` writes.
const VERSION: &[u8] = b"exabgpd 0.1.0\n";

// What `--help` writes.
const HELP: &[u8] = b"usage: exabgpd run CONFIG\n\
\x20          runs the daemon\n\
\x20      exabgpd encode CONFIG\n\
\x20      exabgpd encode LOCAL_AS PEER_AS LOCAL_IP\n\
\x20          reads a helper's lines, writes replies, and UPDATE messages at their end\n\
\x20      exabgpd check CONFIG\n\
\x20          reads a configuration file, writes ok or says what its first fault is\n\
\x20      exabgpd play CONFIG\n\
\x20          reads a script of events, writes what each is answered\n\
\x20      exabgpd load COUNT\n\
\x20          announces so many routes, withdraws each second one, writes nine counts\n\
\x20      exabgpd parse\n\
\x20          reads command lines, writes for each whether it reads or where its first fault is\n\
\x20      exabgpd decode CAP ..\n\
\x20          reads UPDATE messages in hexadecimal, writes command lines that say the same\n\
\x20      exabgpd healthcheck FILE\n\
\x20          as a helper, announces prefixes while a check program succeeds\n\
\x20      exabgpd --help\n\
\x20          writes this text\n\
\x20      exabgpd --version\n\
\x20          writes the name and the version\n";

/// Runs the text command that the words spell.
///
/// `encode CONFIG` reads the file at this path as `check` does, and then its input to the end as the lines of the first
/// process. It opens the daemon's engine by the configuration, and writes what each line is answered before it reads
/// on. At the end it writes for each neighbour the UPDATE messages that leave at it what the lines say, each as a line
/// `update N more HEX`, and the last End-of-RIB marker as `update N last HEX`; or `reset CODE SUBCODE`, where a line
/// ended the session. A configuration without a process is refused.
/// `encode LOCAL_AS PEER_AS LOCAL_IP` does so over one neighbour, 127.0.0.1, in IPv4 alone, and one process.
/// `check CONFIG` reads the file at this path as a configuration for 16 processes and 64 neighbours, and no input. It
/// writes the line `ok`, or ends with `ConfigRefused` and the file's first fault.
/// `play CONFIG` reads the file at this path as `check` does, and then its input to the end as a script of events. It
/// opens the daemon's engine by the configuration, enters the event of each line, and writes what that is answered
/// before it reads on. `ScriptRefused` says the first line that is in no production.
/// `load COUNT` reads no input. It opens the engine with one neighbour and one process, enters lines that announce so
/// many routes and then withdraw each second one, and writes nine counts of what came of it.
/// `parse` reads its input to the end as command lines. It writes for each line, before it reads on, one line: `ok`,
/// its first fault as `error token PLACE`, `error many PLACE LIMIT` or `error long`, or `error memory`.
/// `decode CAP ..` reads its input to the end as UPDATE messages in hexadecimal, one a line, of a session with these
/// capabilities. It writes for each line, as it comes, the command lines that say the same, or `# refused`, the line's
/// number and its first fault. Blank lines and replies are passed over, and counted.
/// `--help` and `--version` write their texts. Any other words are `Usage`, and nothing is read or written.
///
/// With another status than `Ok` the output is a front part of one that belongs to what was read. Messages come in it
/// only where the input's end was met, and a line that no line feed ends is told only there too. What was opened is
/// given back, whatever the status.
pub fn exabgp_text<F: Files, S: Source, K: Sink>(
    alloc: Global,
    words: &[&str],
    files: &mut F,
    input: &mut S,
    output: &mut K,
) -> Status
    // Words that spell no command.
    ensures usage { (result ≡ Status.Usage) → (command : Spelled)
        → IsCommand (map (λ w. w.now) words.now) command → ⊥ }
    ensures only_usage { ((command : Spelled) → IsCommand (map (λ w. w.now) words.now) command → ⊥)
        → result ≡ Status.Usage }
    ensures untouched { EndsAtOnce result
        → (input.new ≡ input.old) × (output.new ≡ output.old) }

    // What was read and written.
    ensures ok { result ≡ Status.Ok → Finished (map (λ w. w.now) words.now) (F.content files.old)
        (source_seen S.given S.left S.ended S.faults input.old)
        (source_seen S.given S.left S.ended S.faults input.new)
        (sink_seen K.taken K.faults output.old) (sink_seen K.taken K.faults output.new) }
    ensures began { ¬ (result ≡ Status.Ok) → ¬ (result ≡ Status.Usage)
        → Began (map (λ w. w.now) words.now) (F.content files.old)
        (source_seen S.given S.left S.ended S.faults input.old)
        (source_seen S.given S.left S.ended S.faults input.new)
        (sink_seen K.taken K.faults output.old) (sink_seen K.taken K.faults output.new) }

    // What playing a script leaves.
    ensures plays { (path : List ℕ) → map (λ w. w.now) words.now ≡ codes "play" ∷ path ∷ []
        → PlaysFile (F.content files.old) path
        (source_seen S.given S.left S.ended S.faults input.old)
        (source_seen S.given S.left S.ended S.faults input.new)
        (sink_seen K.taken K.faults output.old) (sink_seen K.taken K.faults output.new)
        (F.faults files.old) (F.faults files.new) result }
    ensures script { (line : ℕ) → result ≡ Status.ScriptRefused line
        → PlayScript (map (λ w. w.now) words.now) }

    // What encoding a helper's lines leaves.
    ensures encodes { (path : List ℕ) → map (λ w. w.now) words.now ≡ codes "encode" ∷ path ∷ []
        → EncodesFile (F.content files.old) path
        (source_seen S.given S.left S.ended S.faults input.old)
        (source_seen S.given S.left S.ended S.faults input.new)
        (sink_seen K.taken K.faults output.old) (sink_seen K.taken K.faults output.new)
        (F.faults files.old) (F.faults files.new) result }
    ensures encodes_plain { (ends : Session) → IsEncode (map (λ w. w.now) words.now) ends
        → Encodes (plain_of ends)
        (source_seen S.given S.left S.ended S.faults input.old)
        (source_seen S.given S.left S.ended S.faults input.new)
        (sink_seen K.taken K.faults output.old) (sink_seen K.taken K.faults output.new) result }

    // What parsing leaves: of each line it is written how it reads before more is read.
    ensures parses { map (λ w. w.now) words.now ≡ codes "parse" ∷ []
        → Parses (source_seen S.given S.left S.ended S.faults input.old)
        (source_seen S.given S.left S.ended S.faults input.new)
        (sink_seen K.taken K.faults output.old) (sink_seen K.taken K.faults output.new) result }

    // What was opened is given back. Where the words name no file, none is opened.
    ensures content { F.content files.new ≡ F.content files.old }
    ensures back { LendsNone (F.lent files.old) (F.lent files.new) }
    ensures unopened { (NameFile (map (λ w. w.now) words.now) → ⊥) → files.new ≡ files.old }

    // A refusal is the first fault of the file, and nothing is written unless the file is a configuration.
    ensures refused { (fault : Fault) → result ≡ Status.ConfigRefused fault
        → Refuses (map (λ w. w.now) words.now) (F.content files.old) fault }
    ensures named { result ≡ Status.ConfigRead → NameFile (map (λ w. w.now) words.now) }
    ensures unread { result ≡ Status.ConfigRead
        → (PlayScript (map (λ w. w.now) words.now) → ⊥)
        → (input.new ≡ input.old) × (output.new ≡ output.old) }
    ensures late { EndsLate result
        → AreConfigured (map (λ w. w.now) words.now) (F.content files.old) }
    ensures crew { ¬ (result ≡ Status.NoCrew) }

    // A fault's status counts one fault, and any other leaves the count.
    ensures config { result ≡ Status.ConfigRead
        → CountsOne (F.faults files.old) (F.faults files.new) }
    ensures config_same { ¬ (result ≡ Status.ConfigRead)
        → F.faults files.new ≡ F.faults files.old }
    ensures read { result ≡ Status.ReadFault
        → CountsOne (S.faults input.old) (S.faults input.new) }
    ensures read_same { ¬ (result ≡ Status.ReadFault) → S.faults input.new ≡ S.faults input.old }
    ensures write { result ≡ Status.WriteFault
        → CountsOne (K.faults output.old) (K.faults output.new) }
    ensures write_same { ¬ (result ≡ Status.WriteFault)
        → K.faults output.new ≡ K.faults output.old }

    // Too long is what gave as many bytes as the limit and didn't end.
    ensures long { result ≡ Status.InputLong → GaveLimit input_limit
        (source_seen S.given S.left S.ended S.faults input.old)
        (source_seen S.given S.left S.ended S.faults input.new) }
    ensures over { GaveFrom input_limit (S.given input.old) (S.given input.new)
        → IsOverrun result }

    // A file that has a first fault is refused for it, if memory suffices and nothing fails.
    ensures refuses { (fault : Fault) (command : Spelled)
        → IsCommand (map (λ w. w.now) words.now) command
        → HaveFault (map (λ w. w.now) words.now) (F.content files.old) fault
        → ¬ Rose (F.faults files.old) (F.faults files.new)
        → (result ≡ Status.ConfigRefused fault) ⊎ (result ≡ Status.NoMemory) }

    // A command is run to its end where its file is a configuration, the input that it reads ends in time, and is a
    // script where it plays one, and no device fails, if memory suffices.
    ensures complete { (command : Spelled) → IsCommand (map (λ w. w.now) words.now) command
        → HaveConfig (map (λ w. w.now) words.now) (F.content files.old)
        → HaveScript (map (λ w. w.now) words.now) (F.content files.old) (S.left input.old)
        → (ReadInput (map (λ w. w.now) words.now) → IsLeftShort input_limit (S.left input.old))
        → ¬ Rose (F.faults files.old) (F.faults files.new)
        → ¬ Rose (S.faults input.old) (S.faults input.new)
        → ¬ Rose (K.faults output.old) (K.faults output.new)
        → (result ≡ Status.Ok) ⊎ (result ≡ Status.NoMemory) }
{
    // For the proof: by the law a file is one configuration or has one first fault.
    files_say_one();
    match text_command(words) {
        Some(command) => run(alloc, command, files, input, output),
        None => Status::Usage,
    }
}

// Runs a command.
fn run<F: Files, S: Source, K: Sink>(
    alloc: Global,
    command: TextCommand<'_>,
    files: &mut F,
    input: &mut S,
    output: &mut K,
) -> Status
    requires bounded { IsBounded command }
    ensures answered { Answered (F.content files.old) command.entry
        (source_seen S.given S.left S.ended S.faults input.old)
        (source_seen S.given S.left S.ended S.faults input.new)
        (sink_seen K.taken K.faults output.old) (sink_seen K.taken K.faults output.new) result }
    ensures plays { PlaysIts (F.content files.old) command.entry
        (source_seen S.given S.left S.ended S.faults input.old)
        (source_seen S.given S.left S.ended S.faults input.new)
        (sink_seen K.taken K.faults output.old) (sink_seen K.taken K.faults output.new)
        (F.faults files.old) (F.faults files.new) result }
    ensures encodes { EncodesIts (F.content files.old) command.entry
        (source_seen S.given S.left S.ended S.faults input.old)
        (source_seen S.given S.left S.ended S.faults input.new)
        (sink_seen K.taken K.faults output.old) (sink_seen K.taken K.faults output.new)
        (F.faults files.old) (F.faults files.new) result }
    ensures parses { ParsesIts command.entry
        (source_seen S.given S.left S.ended S.faults input.old)
        (source_seen S.given S.left S.ended S.faults input.new)
        (sink_seen K.taken K.faults output.old) (sink_seen K.taken K.faults output.new) result }
    ensures at_once { EndsAtOnce result
        → (input.new ≡ input.old) × (output.new ≡ output.old) }
    ensures unread { result ≡ Status.ConfigRead → (PlaysScript command.entry → ⊥)
        → (input.new ≡ input.old) × (output.new ≡ output.old) }
    ensures content { F.content files.new ≡ F.content files.old }
    ensures back { LendsNone (F.lent files.old) (F.lent files.new) }
    ensures unopened { (NamesFile command.entry → ⊥) → files.new ≡ files.old }
    ensures config { result ≡ Status.ConfigRead
        → CountsOne (F.faults files.old) (F.faults files.new) }
    ensures config_same { ¬ (result ≡ Status.ConfigRead)
        → F.faults files.new ≡ F.faults files.old }
{
    match command {
        TextCommand::Encode(path) => encode_over(alloc, path, files, input, output),
        TextCommand::EncodePlain(ends) => encode_plain(alloc, ends, input, output),
        TextCommand::Check(path) => check(alloc, path, files, output),
        TextCommand::Play(path) => play_over(alloc, path, files, input, output),
        TextCommand::Load(count) => load_plain(alloc, count, output),
        TextCommand::Parse => parse(alloc, input, output),
        TextCommand::Decode(caps) => decode(alloc, &caps, input, output),
        TextCommand::Help => write_text(output, HELP),
        TextCommand::Version => write_text(output, VERSION),
    }
}

// Reads a file as a configuration, and says that it is one.
fn check<F: Files, K: Sink>(alloc: Global, path: &str, files: &mut F, output: &mut K) -> Status
    ensures answered { (source : SourceSeen) → Answered (F.content files.old) (Check path.entry)
        source source (sink_seen K.taken K.faults output.old)
        (sink_seen K.taken K.faults output.new) result }
    ensures at_once { EndsAtOnce result → output.new ≡ output.old }
    ensures unread { result ≡ Status.ConfigRead → output.new ≡ output.old }
    ensures content { F.content files.new ≡ F.content files.old }
    ensures back { LendsNone (F.lent files.old) (F.lent files.new) }
    ensures config { result ≡ Status.ConfigRead
        → CountsOne (F.faults files.old) (F.faults files.new) }
    ensures config_same { ¬ (result ≡ Status.ConfigRead)
        → F.faults files.new ≡ F.faults files.old }
{
    match configured(alloc, files, path, TEXT_SLOTS) {
        Ok(_) => write_text(output, CHECKED),
        Err(status) => status,
    }
}

// Writes a whole text.
fn write_text<K: Sink>(output: &mut K, text: &[u8]) -> Status
    ensures { Wrote text.now (sink_seen K.taken K.faults output.old)
        (sink_seen K.taken K.faults output.new) result }
{
    match write_all(output, text) {
        Ok(()) => Status::Ok,
        Err(_) => Status::WriteFault,
    }
}
