//! A large input, entered into a newly opened book.
ghost use Rattle.std.specs.Prelude.{◌≡◌, ◌≤◌, ℕ, [], List, Option, IfOk};
ghost use Rattle.outside.specs.Seen.{SourceSeen, sink_seen};
ghost use Rattle.book_core.specs.Stands.{Stands};
ghost use Rattle.script_play.specs.Loads.{max_routes};
ghost use Rattle.exa_top.specs.Loaded.{load_config};
ghost use Rattle.exa_top.specs.Top.{Answered};
ghost use Rattle.exa_top.specs.declared.words.TextCommand.TheVariants.{Load};

use crate::hashing::fixed_state;
use crate::plain::plain_config;
use answers::NoMemory;
use book_core::Book;
use outside::Sink;
use script_play::{Status, load, loads_leave_counted};
use std::alloc::Global;

// The AS number of the book's own end.
const LOCAL_AS: u32 = 65_001;

// That of its neighbour.
const PEER_AS: u32 = 65_002;

// Its own address, 192.0.2.9.
const LOCAL: u32 = 0xC000_0209;

/// Opens a book with one neighbour and one process, enters so many routes of a load into it, and writes the counts.
pub fn load_plain<K: Sink>(alloc: Global, count: u32, output: &mut K) -> Status
    requires { count ≤ max_routes }
    ensures { (content : Option (List ℕ → List ℕ)) (source : SourceSeen)
        → Answered content (Load count) source source
        (sink_seen K.taken K.faults output.old) (sink_seen K.taken K.faults output.new) result }
{
    // For the proof: what the messages of a load leave.
    loads_leave_counted();
    let Ok(mut book) = plain_book(alloc) else {
        return Status::NoMemory;
    };
    load(alloc, &mut book, count, output)
}

// The book, newly opened.
fn plain_book(alloc: Global) -> Result<Book, NoMemory>
    ensures { IfOk result (λ book. Stands load_config [] book) }
{
    let config = plain_config(alloc, LOCAL_AS, PEER_AS, LOCAL)?;
    let hasher = fixed_state()?;
    Book::open(alloc, config, hasher)
}
