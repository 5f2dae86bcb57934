//! How answers are printed.
use crate::{
    put_control, put_cut, put_not_read, put_ok, put_peer, put_reload, put_replies, put_spawn,
    put_take, put_up, put_verdict,
};
use ack_queue::Reply;
use arrayvec::ArrayVec;
use book_history::{Control, Cut, NotRead, Peer, Reload, Spawn, Take, Up, Verdict, Why};
use config_model::{ConfigFault, ConfigKind};
use route_grammar::LineFault;
use std::test::Fail;

// Lines of a helper, as a script tells what became of them.
const VERDICTS: [(Verdict, &str); 10] = [
    (Verdict::Ended, "ended\n"),
    (Verdict::Busy, "busy\n"),
    (Verdict::Done, "done\n"),
    (
        Verdict::Error(Why::Line(LineFault::BadToken { place: 3 })),
        "error token 3\n",
    ),
    (
        Verdict::Error(Why::Line(LineFault::TooMany {
            place: 1_026,
            limit: 1_024,
        })),
        "error many 1026 1024\n",
    ),
    (
        Verdict::Error(Why::Line(LineFault::TooLong)),
        "error long\n",
    ),
    (Verdict::Error(Why::NoMatch), "error no-match\n"),
    (Verdict::Error(Why::Full(4_194_305)), "error full 4194305\n"),
    (Verdict::Error(Why::Show(1_024)), "error show 1024\n"),
    (Verdict::Error(Why::NoMemory), "error memory\n"),
];

#[test]
fn what_becomes_of_a_line_is_one_line(rt: HostRuntime) -> Result<(), Fail> {
    for (verdict, line) in VERDICTS {
        let mut text = Vec::new(rt.alloc());
        put_verdict(&mut text, verdict)?;
        assert_eq!(rt; text.as_slice(), line.as_bytes(), "{line}");
    }
    Ok(())
}

#[test]
fn helpers_have_their_lines(rt: HostRuntime) -> Result<(), Fail> {
    let mut text = Vec::new(rt.alloc());
    put_spawn(&mut text, Spawn::Stopping)?;
    put_spawn(&mut text, Spawn::GiveUp)?;
    put_spawn(
        &mut text,
        Spawn::Go {
            inc: 2,
            run: ArrayVec::new(),
        },
    )?;
    put_take(&mut text, Take::Nothing)?;
    put_take(&mut text, Take::Replies(two_replies()))?;
    put_replies(&mut text, Take::Replies(two_replies()))?;
    put_replies(&mut text, Take::Ended)?;
    let lines =
        "stopping\ngive-up\ngo 2\nnothing\nreply done\nreply error memory\ndone\nerror memory\n";
    assert_eq!(rt; text.as_slice(), lines.as_bytes());
    Ok(())
}

#[test]
fn a_message_is_printed_in_upper_case_digits(rt: HostRuntime) -> Result<(), Fail> {
    let alloc = rt.alloc();
    let mut text = Vec::new(alloc);
    put_peer(&mut text, &Peer::Absent)?;
    put_up(&mut text, Up::Stale)?;
    put_cut(
        alloc,
        &mut text,
        63,
        b"\xff\x0a",
        Cut::Message { last: false },
    )?;
    put_cut(alloc, &mut text, 0, b"\x00", Cut::Message { last: true })?;
    put_cut(alloc, &mut text, 0, b"", Cut::Nothing)?;
    put_cut(alloc, &mut text, 0, b"", Cut::Reset { code: 6, sub: 3 })?;
    let lines = "absent\nstale\nupdate 63 more FF0A\nupdate 0 last 00\nnothing\nreset 6 3\n";
    assert_eq!(rt; text.as_slice(), lines.as_bytes());
    Ok(())
}

#[test]
fn a_refused_file_is_printed_with_its_place(rt: HostRuntime) -> Result<(), Fail> {
    let mut text = Vec::new(rt.alloc());
    let fault = ConfigFault {
        line: 1,
        column: 21,
        kind: ConfigKind::Token,
    };
    put_not_read(&mut text, NotRead::Refused(fault))?;
    put_not_read(&mut text, NotRead::ReadFault)?;
    put_reload(&mut text, Reload::Full(4_194_305))?;
    put_reload(&mut text, Reload::Ok)?;
    put_control(&mut text, Control::ReloadDue)?;
    put_ok(&mut text)?;
    let lines = "refused 1:21 token\nfull 4194305\nreloaded\nreload-due\nok\n";
    assert_eq!(rt; text.as_slice(), lines.as_bytes());
    Ok(())
}

// Two replies.
fn two_replies() -> ArrayVec<Reply, 64> {
    let mut replies = ArrayVec::new();
    let _ = replies.try_push(Reply::Done);
    let _ = replies.try_push(Reply::NoMemory);
    replies
}
