//! Replies that are large.
use crate::checks::{expect_bytes, expect_same};
use cdi_base::{Names, Reply, Seq, Text, Value};
use cdi_text::write_reply;
use std::alloc::Global;
use std::process::Abort;

/// The line of a reply.
fn line_of(rt: &impl Abort, alloc: Global, reply: Reply) -> Vec<u8> {
    write_reply(alloc, &Names::new(alloc), &reply).expect(rt, "memory")
}

/// So many letters.
fn letters(rt: &impl Abort, alloc: Global, count: usize) -> String {
    "v".repeat(alloc, count).expect(rt, "memory")
}

/// The line of a reply of so many letters.
fn line_of_letters(rt: &impl Abort, alloc: Global, count: usize) -> Vec<u8> {
    let text = Text::new(letters(rt, alloc, count));
    line_of(rt, alloc, Reply::Value(Value::Text(text)))
}

/// The same, by hand.
fn written_letters(rt: &impl Abort, alloc: Global, count: usize) -> String {
    let text = letters(rt, alloc, count);
    format!(in alloc; "[\"value\",\"{text}\"]\n").expect(rt, "memory")
}

#[test]
fn writes_a_long_text(rt: HostRuntime) {
    let line = line_of_letters(&rt, rt.alloc(), 99_987);
    let wanted = written_letters(&rt, rt.alloc(), 99_987);
    expect_same(&rt, &line.len(), &100_000);
    expect_bytes(&rt, line.as_slice(), wanted.as_bytes());
}

/// The numbers from 1000 on, up to this one.
fn thousands(rt: &impl Abort, alloc: Global, end: u32) -> Seq<u32> {
    let mut numbers = Seq::empty(alloc);
    for number in 1_000..end {
        numbers.push(number).expect(rt, "memory");
    }
    numbers
}

/// The word with its brackets and line feed takes 12 bytes, and each of 9,000 numbers four and a comma but for the last.
#[test]
fn writes_many_numbers(rt: HostRuntime) {
    let reply = Reply::Live(thousands(&rt, rt.alloc(), 10_000));
    let line = line_of(&rt, rt.alloc(), reply);
    expect_same(&rt, &line.len(), &(12 + 9_000 * 5 - 1));
    expect_same(&rt, &line.starts_with(b"[\"live\",[1000,1001,1002,"), &true);
    expect_same(&rt, &line.ends_with(b",9998,9999]]\n"), &true);
}
