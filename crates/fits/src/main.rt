// Answers each line `LABELPATH EXPRESSION` of standard input: does the label path fit the expression?
#![tactic(auto)]

use byte_classes::classes::Classes;
use lines::line::Line;
use std::io::{Read, Write};
use trial::reply::Reply;
use trial::reply::shows::reply_to;

// Adds the reply to a line to what is to be written.
fn answer(classes: &Classes, line: &Line, output: &mut String) -> anyhow::Result<()> {
    let reply = Reply(reply_to(classes, line.bytes()));
    writeln!(output, "{reply}")?;
    Ok(())
}

// Takes in the bytes of one read, and answers each line that they end.
fn take_in(
    classes: &Classes,
    bytes: &[u8],
    line: &mut Line,
    output: &mut String,
) -> anyhow::Result<()> {
    for byte in bytes {
        if *byte == b'\n' {
            answer(classes, line, output)?;
            line.clear();
        } else {
            line.push(*byte);
        }
    }
    Ok(())
}

// Answers all lines of one read before the next read; a last line may lack its line end.
fn run(rt: &HostRuntime) -> anyhow::Result<()> {
    let classes = Classes::built_in();
    let mut input = rt.stdin();
    let mut output = rt.stdout();
    let mut line = Line::new();
    let mut replies = String::new(rt.alloc());
    let mut buffer = [0u8; 4096];
    // As good as no end: a loop without one needs the bound Wait.
    for _ in 0..u64::MAX {
        let count = input.read(&mut buffer)?;
        if count == 0 {
            break;
        }
        take_in(&classes, &buffer[0..count], &mut line, &mut replies)?;
        output.write_all(replies.as_bytes())?;
        replies.clear();
    }
    if !line.is_empty() {
        answer(&classes, &line, &mut replies)?;
        output.write_all(replies.as_bytes())?;
    }
    Ok(())
}

fn main(rt: HostRuntime) -> anyhow::Result<()> {
    run(&rt)
}
