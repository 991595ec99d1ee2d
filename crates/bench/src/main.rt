//! The bench program of document 01: formats a small store, then obeys standard input line by line. A read or a write that
//! fails ends it with that error.

#![tactic(auto)]

ghost use Rattle.std.specs.Prelude.{◌≤◌, IfOk};

use commands::{Act, parse};
use layout::{Geometry, NO_CHIP};
use rules::{Answer, Refusal};
use std::io;
use steps::Counts;

const ALLOWANCE: u64 = 65535;

// Chips of 1920 bytes, records of 224, slots of 48.
fn geometry() -> Geometry {
    Geometry {
        n: 4,
        w: 16,
        k: 4,
        b: 4,
        s: 6,
        m: 2,
    }
}

fn say(rt: &impl Print, word: &[u8]) -> io::Result<()> {
    rt.write_all(word)
}

fn say_number(rt: &impl Print, x: u64) -> io::Result<()> {
    print!(rt; " {x}")
}

fn say_byte(rt: &impl Print, x: u8) -> io::Result<()> {
    print!(rt; " {x:02x}")
}

fn say_counts(rt: &impl Print, c: Counts) -> io::Result<()> {
    say_number(rt, c.reads)?;
    say_number(rt, c.programs)?;
    say_number(rt, c.erases)
}

fn say_refusal(rt: &impl Print, r: Refusal) -> io::Result<()> {
    say(rt, b" refused")?;
    say_number(rt, answers::refusal_number(r))
}

fn say_answer(rt: &impl Print, a: Result<Answer, Refusal>) -> io::Result<()> {
    match a {
        Ok(Answer::Done(c)) => say_counts(rt, c),
        Ok(Answer::Cut(c)) => {
            say(rt, b" cut")?;
            say_counts(rt, c)
        }
        Err(r) => say_refusal(rt, r),
    }
}

fn write(
    rt: &impl Print,
    chips: &mut [u8],
    records: &mut [u8],
    slots: &mut [u8],
    lost: u64,
    page: u64,
    byte: u8,
) -> io::Result<()> {
    let bytes = [byte; 16];
    let answer = calls::write(
        geometry(),
        chips,
        records,
        slots,
        lost,
        page,
        &bytes,
        ALLOWANCE,
    );
    say_answer(rt, answer)
}

// The line of a page that is read ends with how it was got: document 02, 2.
fn read(
    rt: &impl Print,
    chips: &[u8],
    records: &[u8],
    slots: &[u8],
    lost: u64,
    page: u64,
) -> io::Result<()> {
    let mut bytes = [0u8; 16];
    let answer = calls::read(geometry(), chips, records, slots, lost, page, &mut bytes);
    match answer {
        Ok(x) => {
            say_byte(rt, bytes[0])?;
            say_counts(rt, x.counts)?;
            say_number(rt, answers::origin_number(x.origin))
        }
        Err(r) => say_refusal(rt, r),
    }
}

fn commit(
    rt: &impl Print,
    chips: &mut [u8],
    records: &mut [u8],
    slots: &[u8],
    lost: u64,
    stripe: u64,
) -> io::Result<()> {
    let answer = calls::commit(geometry(), chips, records, slots, lost, stripe, ALLOWANCE);
    say_answer(rt, answer)
}

// Obeys a command, and answers which chip is lost from here.
fn obey(
    rt: &impl Print,
    chips: &mut [u8],
    records: &mut [u8],
    slots: &mut [u8],
    lost: u64,
    act: Act,
) -> io::Result<u64> {
    match act {
        Act::Write { page, byte } => write(rt, chips, records, slots, lost, page, byte)?,
        Act::Read { page } => read(rt, chips, records, slots, lost, page)?,
        Act::Commit { stripe } => commit(rt, chips, records, slots, lost, stripe)?,
        Act::Lose { chip } => return Ok(chip),
    }
    Ok(lost)
}

// Obeys a line, and answers which chip is lost from here; none where the line ends the program.
fn obey_line(
    rt: &impl Print,
    chips: &mut [u8],
    records: &mut [u8],
    slots: &mut [u8],
    lost: u64,
    buffer: &[u8; 11],
    n: usize,
) -> io::Result<Option<u64>>
    requires { n ≤ 11 }
{
    let line: &[u8] = buffer;
    let Some(c) = parse(&line[0..n]) else {
        return Ok(None);
    };
    let end = c.digits + 2;
    say(rt, &line[0..end])?;
    let now_lost = obey(rt, chips, records, slots, lost, c.act)?;
    say(rt, b"\n")?;
    Ok(Some(now_lost))
}

// The next byte of standard input, and a newline at its end: so a last line needs none, and the
// empty line that then follows is no command.
fn next_byte(input: &mut impl io::Read) -> io::Result<u8> {
    let mut byte = [0u8; 1];
    let got = input.read(&mut byte)?;
    Ok(if got < 1 { b'\n' } else { byte[0] })
}

// Takes the bytes of a line up to its newline, eleven at most: no command has as many (`command_short` of `commands`).
fn next_line(input: &mut impl io::Read, line: &mut [u8; 11]) -> io::Result<usize>
    ensures { IfOk result (λ n. n ≤ 11) }
{
    for (n, place) in line.iter_mut().enumerate() {
        let b = next_byte(input)?;
        if b == b'\n' {
            return Ok(n);
        }
        *place = b;
    }
    Ok(line.len())
}

// A proved loop has to end, and nothing says that standard input does. So the loop counts its
// lines, up to a number that no run reaches.
fn obey_all(
    rt: &impl Print,
    input: &mut impl io::Read,
    chips: &mut [u8],
    records: &mut [u8],
    slots: &mut [u8],
) -> io::Result<()> {
    let mut line = [0u8; 11];
    let mut lost = NO_CHIP as u64;
    for _ in 0..u64::MAX {
        let n = next_line(input, &mut line)?;
        let Some(now_lost) = obey_line(rt, chips, records, slots, lost, &line, n)? else {
            return Ok(());
        };
        lost = now_lost;
    }
    Ok(())
}

fn main(rt: HostRuntime) -> io::Result<()> {
    let mut chips = [0u8; 1920];
    let mut records = [0u8; 224];
    let mut slots = [0u8; 48];
    // of this geometry and these lengths it is never refused, and the allowance is ample
    let _ = calls::format(geometry(), &mut chips, &mut records, &slots, ALLOWANCE);
    obey_all(&rt, &mut rt.stdin(), &mut chips, &mut records, &mut slots)
}
