use crate::checks::{expect_bytes, expect_same, expect_text};
use crate::test_ends::{Room, Steps, Stuck, Sunk, buffered};
use cdi_lines::{Input, Output, ReadFailed, ServeFault, Sink, Source, WriteFailed};
use std::alloc::Global;
use std::io::{Read, Write};
use std::process::Abort;

// ---- inputs

/// Reads once into a buffer of `xyz`, which has to give this and to leave these bytes there, and checks whether the input has
/// failed then.
fn check_read<R: Read>(
    rt: &impl Abort,
    input: &mut Input<R>,
    wanted: Result<usize, ReadFailed>,
    buffer: &[u8; 3],
    has_failed: bool,
) {
    let mut buf = *b"xyz";
    let read = input.read(&mut buf, &Sunk);
    expect_same(
        rt,
        &(read, buf, input.has_failed()),
        &(wanted, *buffer, has_failed),
    );
}

/// Reads `abc` in steps of two bytes, and then twice more, which has to give this.
fn check_reads(rt: &impl Abort, fails: bool, last: Result<usize, ReadFailed>) {
    let (bytes, step) = (b"abc".as_slice(), 2);
    let mut input = Input::new(Steps { bytes, step, fails });
    check_read(rt, &mut input, Ok(2), b"abz", false);
    check_read(rt, &mut input, Ok(1), b"cyz", false);
    check_read(rt, &mut input, last, b"xyz", fails);
    check_read(rt, &mut input, last, b"xyz", fails);
    expect_same(rt, &input.into_inner().bytes.len(), &0);
}

#[test]
fn an_input_remembers_that_it_failed(rt: HostRuntime) {
    check_reads(&rt, false, Ok(0));
    check_reads(&rt, true, Err(ReadFailed));
}

// ---- outputs

/// Writes bytes at once into a room, and flushes: both have to end so, and these bytes have to stand there.
fn check_write(
    rt: &impl Abort,
    room: Room,
    bytes: &[u8],
    wanted: Result<(), WriteFailed>,
    written: &[u8],
) {
    let mut output = Output::new(room);
    let found = (output.write(bytes), output.has_failed(), output.flush());
    expect_same(rt, &found, &(wanted, wanted.is_err(), wanted));
    expect_bytes(rt, output.into_inner().taken.as_slice(), written);
}

#[test]
fn an_output_writes_all_or_remembers(rt: HostRuntime) {
    const ROWS: &[(usize, bool, Result<(), WriteFailed>, &[u8])] = &[
        (3, false, Ok(()), b"abc"),
        (2, true, Err(WriteFailed), b"ab"),
        (0, false, Err(WriteFailed), b""),
    ];
    for &(left, fails, wanted, written) in ROWS {
        let room = Room::new(rt.alloc(), 1, left, fails);
        check_write(&rt, room, b"abc", wanted, written);
    }
}

/// The first so many of bytes that repeat after 251.
fn many_bytes(rt: &impl Abort, alloc: Global, count: usize) -> Vec<u8> {
    let mut bytes = Vec::new(alloc);
    for at in 0..count {
        bytes.push((at % 251) as u8).expect(rt, "memory");
    }
    bytes
}

/// Writes 5,000 bytes at once into a room, of which so many have to stand there.
fn check_large(
    rt: &impl Abort,
    alloc: Global,
    room: Room,
    wanted: Result<(), WriteFailed>,
    count: usize,
) {
    let bytes = many_bytes(rt, alloc, 5_000);
    let written = many_bytes(rt, alloc, count);
    check_write(rt, room, bytes.as_slice(), wanted, written.as_slice());
}

/// Steps that divide 4,096 and that don't, and one that takes all at once.
#[test]
fn an_output_writes_a_large_reply_in_small_steps(rt: HostRuntime) {
    const STEPS: &[usize] = &[1, 7, 64, 4_095, 4_096, 5_000];
    for &step in STEPS {
        let room = Room::new(rt.alloc(), step, usize::MAX, false);
        check_large(&rt, rt.alloc(), room, Ok(()), 5_000);
    }
}

#[test]
fn an_output_fails_within_a_large_reply(rt: HostRuntime) {
    const ROWS: &[(usize, usize, bool)] = &[
        (7, 4_096, true),
        (7, 4_096, false),
        (4_096, 4_096, true),
        (5_000, 4_097, true),
    ];
    for &(step, left, fails) in ROWS {
        let room = Room::new(rt.alloc(), step, left, fails);
        check_large(&rt, rt.alloc(), room, Err(WriteFailed), left);
    }
}

/// Writes a byte, which has to end so, and checks whether the output has failed then.
fn check_byte(
    rt: &impl Abort,
    output: &mut Output<Stuck>,
    byte: &[u8],
    wanted: Result<(), WriteFailed>,
) {
    let found = (output.write(byte), output.has_failed());
    expect_same(rt, &found, &(wanted, wanted.is_err()));
}

#[test]
fn an_output_remembers_that_a_flush_failed(rt: HostRuntime) {
    let mut output = Output::new(Stuck::new(rt.alloc()));
    check_byte(&rt, &mut output, b"a", Ok(()));
    expect_same(&rt, &output.flush(), &Err(WriteFailed));
    check_byte(&rt, &mut output, b"b", Err(WriteFailed));
    expect_bytes(&rt, output.into_inner().taken.as_slice(), b"a");
}

/// Writes bytes through, which has to end so.
fn check_through<W: Write>(
    rt: &impl Abort,
    output: &mut Output<W>,
    bytes: &[u8],
    wanted: Result<(), WriteFailed>,
) {
    let found = (output.write_through(bytes), output.has_failed());
    expect_same(rt, &found, &(wanted, wanted.is_err()));
}

/// A buffered writer holds bytes back until it is flushed.
#[test]
fn an_output_passes_on_what_it_writes_through(rt: HostRuntime) {
    let mut output = Output::new(buffered(&rt, rt.alloc()));
    check_through(&rt, &mut output, b"abc", Ok(()));
    expect_bytes(&rt, output.into_inner().get_ref().as_slice(), b"abc");
}

#[test]
fn an_output_fails_where_it_passes_nothing_on(rt: HostRuntime) {
    let mut output = Output::new(Stuck::new(rt.alloc()));
    check_through(&rt, &mut output, b"a", Err(WriteFailed));
}

// ---- texts

#[test]
fn says_what_failed(rt: HostRuntime) {
    const ROWS: &[(ServeFault, &str)] = &[
        (ServeFault::Read, "the input could not be read"),
        (ServeFault::TooLong, "the input is too long"),
        (ServeFault::Write, "the output could not be written"),
        (ServeFault::Memory, "out of memory"),
    ];
    for &(fault, text) in ROWS {
        expect_text(&rt, rt.alloc(), &fault, text);
    }
    expect_text(&rt, rt.alloc(), &ReadFailed, "a read failed");
    expect_text(&rt, rt.alloc(), &WriteFailed, "a write failed");
}
