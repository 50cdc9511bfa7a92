// Published frames and made cases, each run through the library and held to what it must give.
// One line for each group says how many were run and how many were right.
#![tactic(auto)]

mod checks;
mod escaping;
mod exchanges;
mod frames;
mod hearing;
mod lines;
mod polling;
mod scans;
mod script;

use std::io;

fn main(rt: HostRuntime) -> io::Result<()> {
    say_checks(&rt)?;
    say_escapes(&rt)?;
    say_recorded(&rt)?;
    say_made(&rt)?;
    say_heard(&rt)?;
    say_scans(&rt)?;
    say_polls(&rt)
}

fn say_checks(rt: &impl Print) -> io::Result<()> {
    checks::ebus_published().say(rt, b"eBUS check, published")?;
    checks::ebus_alone().say(rt, b"eBUS check, each byte alone")?;
    checks::modbus_published().say(rt, b"Modbus check, published")?;
    checks::modbus_alone().say(rt, b"Modbus check, each byte alone")?;
    checks::modbus_each_length().say(rt, b"Modbus check, each length to 299")
}

fn say_escapes(rt: &impl Print) -> io::Result<()> {
    escaping::expanded().say(rt, b"expand")?;
    escaping::undone().say(rt, b"undo")
}

fn say_recorded(rt: &impl Print) -> io::Result<()> {
    exchanges::published().say(rt, b"exchanges, published")?;
    exchanges::lengths().say(rt, b"exchanges, LEN 16 and 17")?;
    exchanges::command_nacked().say(rt, b"exchanges, command NACKed")?;
    exchanges::reply_nacked().say(rt, b"exchanges, reply NACKed")?;
    exchanges::escaped().say(rt, b"exchanges, escapes")?;
    exchanges::idle().say(rt, b"exchanges, SYN at the beginning")
}

fn say_made(rt: &impl Print) -> io::Result<()> {
    exchanges::prefixes().say(rt, b"exchanges, every prefix")?;
    exchanges::each_source().say(rt, b"exchanges, each SRC")?;
    exchanges::each_destination().say(rt, b"exchanges, each DST")?;
    exchanges::each_length().say(rt, b"exchanges, each LEN")?;
    exchanges::each_command_answer().say(rt, b"exchanges, each byte after a command")?;
    exchanges::each_reply_answer().say(rt, b"exchanges, each byte after a reply")
}

fn say_heard(rt: &impl Print) -> io::Result<()> {
    hearing::every_two_cuts().say(rt, b"listening, every two cuts")?;
    hearing::every_prefix().say(rt, b"listening, every prefix")?;
    hearing::one_by_one().say(rt, b"listening, one byte a run")
}

fn say_scans(rt: &impl Print) -> io::Result<()> {
    frames::published().say(rt, b"answers, published")?;
    frames::behind_fill().say(rt, b"frames, FF before them")?;
    frames::wrong_behind_fill().say(rt, b"frames, FF before wrong ones")?;
    frames::fill_within().say(rt, b"frames, FF within them")?;
    scans::sizes().say(rt, b"scans, 0 to 248 devices")?;
    scans::caps().say(rt, b"scans, caps")?;
    scans::serials().say(rt, b"scans, serials")?;
    scans::fill().say(rt, b"scans, FF")?;
    scans::read_back().say(rt, b"scans, answers read back")
}

fn say_polls(rt: &impl Print) -> io::Result<()> {
    polling::requests().say(rt, b"event requests")?;
    polling::packets().say(rt, b"event packets")?;
    polling::events().say(rt, b"events queued")?;
    polling::polls().say(rt, b"polls")?;
    polling::waiting().say(rt, b"polls, urgent before normal")?;
    polling::fill().say(rt, b"polls, FF")
}
