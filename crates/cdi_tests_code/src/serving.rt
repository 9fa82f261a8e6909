use crate::checks::{expect_bytes, expect_same};
use crate::test_ends::{Lengths, Mirror, Room, Steps, Stuck, buffered};
use cdi_lines::serving::serve_up_to;
use cdi_lines::{Input, Output, ServeFault, serve_lines};
use std::alloc::Global;
use std::io;
use std::io::{Read, Write};
use std::process::Abort;

/// Bytes, and what is written for them behind the greeting, which is `hi`.
const CASES: &[(&[u8], &[u8])] = &[
    (b"", b"hi\n"),
    (b"ab\ncd\n", b"hi\nba\ndc\n"),
    (b"ab\ncd", b"hi\nba\ndc\n"),
    (b"\n\n", b"hi\n\n\n"),
    (b"a\n\nbc", b"hi\na\n\ncb\n"),
    (b"\n", b"hi\n\n"),
    (b"ab\r\n", b"hi\n\rba\n"),
    (b"a\x0bb\0\n\xff", b"hi\n\0b\x0ba\n\xff\n"),
];

/// Checks how serving ended: of the input and the output only the one that is to blame has failed.
fn check_end<R, W>(
    rt: &impl Abort,
    input: &Input<R>,
    output: &Output<W>,
    ended: Result<(), ServeFault>,
    wanted: Result<(), ServeFault>,
) {
    let (by_input, by_output) = (
        wanted == Err(ServeFault::Read),
        wanted == Err(ServeFault::Write),
    );
    let found = (ended, input.has_failed(), output.has_failed());
    expect_same(rt, &found, &(wanted, by_input, by_output));
}

/// Serves an input behind a greeting, giving so many lines back reversed, and checks how that ends.
fn check_served<R: Read, W: Write>(
    rt: &impl Abort,
    alloc: Global,
    greeting: &[u8],
    input: &mut Input<R>,
    output: &mut Output<W>,
    lines: u32,
    wanted: Result<(), ServeFault>,
) {
    let mut mirror = Mirror { left: lines };
    let ended = serve_lines(alloc, greeting, input, output, &mut mirror);
    check_end(rt, input, output, ended, wanted);
}

/// Serves what a reader gives, of few lines, checks how that ends, and gives the writer back.
fn serve<R: Read + Drop, W: Write>(
    rt: &impl Abort,
    alloc: Global,
    greeting: &[u8],
    reader: R,
    writer: W,
    wanted: Result<(), ServeFault>,
) -> W {
    let mut input = Input::new(reader);
    let mut output = Output::new(writer);
    check_served(rt, alloc, greeting, &mut input, &mut output, 9, wanted);
    output.into_inner()
}

/// Serves bytes that come at once, to the end, and checks what is written.
fn check_whole(rt: &impl Abort, alloc: Global, bytes: &[u8], written: &[u8]) {
    let mut input = Input::new(bytes);
    let mut output = Output::new(Vec::new(alloc));
    check_served(rt, alloc, b"hi\n", &mut input, &mut output, 9, Ok(()));
    expect_same(rt, &input.into_inner().len(), &0);
    expect_bytes(rt, output.into_inner().as_slice(), written);
}

#[test]
fn answers_each_line(rt: HostRuntime) {
    for &(bytes, written) in CASES {
        check_whole(&rt, rt.alloc(), bytes, written);
    }
}

/// Serves what comes in steps, into a room, and checks how that ends and what is written.
fn check_steps(
    rt: &impl Abort,
    alloc: Global,
    steps: Steps,
    room: Room,
    wanted: Result<(), ServeFault>,
    written: &[u8],
) {
    let room = serve(rt, alloc, b"hi\n", steps, room, wanted);
    expect_bytes(rt, room.taken.as_slice(), written);
}

#[test]
fn answers_alike_in_small_steps(rt: HostRuntime) {
    let fails = false;
    for &(bytes, written) in CASES {
        for step in 1..4 {
            let room = Room::new(rt.alloc(), step, usize::MAX, fails);
            let steps = Steps { bytes, step, fails };
            check_steps(&rt, rt.alloc(), steps, room, Ok(()), written);
        }
    }
}

/// Serves bytes, and checks how many lines they are.
fn check_count(rt: &impl Abort, alloc: Global, bytes: &[u8], lines: u32) {
    let (mut input, mut output) = (Input::new(bytes), Output::new(Vec::new(alloc)));
    let mut mirror = Mirror { left: lines };
    let result = serve_lines(alloc, b"", &mut input, &mut output, &mut mirror);
    expect_same(rt, &(result, mirror.left), &(Ok(()), 0));
}

#[test]
fn counts_the_lines(rt: HostRuntime) {
    const ROWS: &[(&[u8], u32)] = &[
        (b"", 0),
        (b"a", 1),
        (b"a\n", 1),
        (b"\n\n", 2),
        (b"\n\na", 3),
    ];
    for &(bytes, lines) in ROWS {
        check_count(&rt, rt.alloc(), bytes, lines);
    }
}

#[test]
fn answers_what_came_before_a_read_failed(rt: HostRuntime) {
    const ROWS: &[(&[u8], &[u8])] = &[
        (b"", b"hi\n"),
        (b"ab", b"hi\n"),
        (b"ab\ncd", b"hi\nba\n"),
        (b"ab\ncd\n", b"hi\nba\ndc\n"),
    ];
    for &(bytes, written) in ROWS {
        let (step, fails) = (3, true);
        let room = Room::new(rt.alloc(), 9, usize::MAX, false);
        let steps = Steps { bytes, step, fails };
        check_steps(&rt, rt.alloc(), steps, room, Err(ServeFault::Read), written);
    }
}

/// Serves two lines into a room that takes these bytes alone.
fn check_cut(rt: &impl Abort, alloc: Global, written: &[u8], fails: bool) {
    let room = Room::new(alloc, 2, written.len(), fails);
    let steps = Steps {
        bytes: b"ab\ncd",
        step: 9,
        fails: false,
    };
    check_steps(rt, alloc, steps, room, Err(ServeFault::Write), written);
}

#[test]
fn stops_where_the_writer_does(rt: HostRuntime) {
    let whole = b"hi\nba\ndc\n";
    for left in 0..9 {
        check_cut(&rt, rt.alloc(), &whole[..left], false);
        check_cut(&rt, rt.alloc(), &whole[..left], true);
    }
}

#[test]
fn stops_where_a_flush_fails(rt: HostRuntime) {
    let (bytes, stuck) = (b"ab\n".as_slice(), Stuck::new(rt.alloc()));
    let stuck = serve(
        &rt,
        rt.alloc(),
        b"hi\n",
        bytes,
        stuck,
        Err(ServeFault::Write),
    );
    expect_bytes(&rt, stuck.taken.as_slice(), b"hi\n");
}

#[test]
fn stops_where_memory_does(rt: HostRuntime) {
    let mut input = Input::new(b"ab\ncd\ne".as_slice());
    let mut output = Output::new(Vec::new(rt.alloc()));
    let memory = Err(ServeFault::Memory);
    check_served(&rt, rt.alloc(), b"", &mut input, &mut output, 1, memory);
    expect_bytes(&rt, output.into_inner().as_slice(), b"ba\n");
}

/// Serves bytes of which four may be read, and checks how that ends and what is written.
fn check_four(
    rt: &impl Abort,
    alloc: Global,
    bytes: &[u8],
    wanted: Result<(), ServeFault>,
    written: &[u8],
) {
    let (step, fails) = (3, false);
    let mut input = Input::new(Steps { bytes, step, fails });
    let mut output = Output::new(Room::new(alloc, 9, usize::MAX, false));
    let mut mirror = Mirror { left: 9 };
    let result = serve_up_to(alloc, 4, b"", &mut input, &mut output, &mut mirror);
    check_end(rt, &input, &output, result, wanted);
    expect_bytes(rt, output.into_inner().taken.as_slice(), written);
}

#[test]
fn reads_so_many_bytes_and_no_more(rt: HostRuntime) {
    const ROWS: &[(&[u8], Result<(), ServeFault>, &[u8])] = &[
        (b"abcd", Ok(()), b"dcba\n"),
        (b"ab\nc", Ok(()), b"ba\nc\n"),
        (b"abc\n", Ok(()), b"cba\n"),
        (b"abcde", Err(ServeFault::TooLong), b""),
        (b"abc\n\n", Err(ServeFault::TooLong), b"cba\n"),
        (b"a\nbcd\n", Err(ServeFault::TooLong), b"a\n"),
    ];
    for &(bytes, wanted, written) in ROWS {
        check_four(&rt, rt.alloc(), bytes, wanted, written);
    }
}

/// Serves a line of so many bytes, and checks how that ends and how long the last line is that was answered.
fn check_length(
    rt: &impl Abort,
    alloc: Global,
    count: u64,
    wanted: Result<(), ServeFault>,
    last: usize,
) {
    let mut input = Input::new(io::repeat(b'a').take(count));
    let mut output = Output::new(Vec::new(alloc));
    let mut lengths = Lengths { last: 0 };
    let result = serve_lines(alloc, b"", &mut input, &mut output, &mut lengths);
    expect_same(rt, &(result, lengths.last), &(wanted, last));
}

#[test]
fn reads_sixteen_mebibytes_and_no_more(rt: HostRuntime) {
    let too_long = Err(ServeFault::TooLong);
    check_length(&rt, rt.alloc(), 16_777_216, Ok(()), 16_777_216);
    check_length(&rt, rt.alloc(), 16_777_217, too_long, 0);
}

/// Serves two lines into a buffered writer, which holds replies back until it is flushed, and checks how that ends and what
/// was passed on.
fn check_passed_on(
    rt: &impl Abort,
    alloc: Global,
    fails: bool,
    wanted: Result<(), ServeFault>,
    passed_on: &[u8],
) {
    let (bytes, step) = (b"ab\nc".as_slice(), 4);
    let steps = Steps { bytes, step, fails };
    let writer = serve(rt, alloc, b"", steps, buffered(rt, alloc), wanted);
    expect_bytes(rt, writer.get_ref().as_slice(), passed_on);
}

#[test]
fn passes_replies_on_before_it_reads(rt: HostRuntime) {
    check_passed_on(&rt, rt.alloc(), true, Err(ServeFault::Read), b"ba\n");
    check_passed_on(&rt, rt.alloc(), false, Ok(()), b"ba\nc\n");
}
