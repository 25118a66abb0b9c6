// What blocks need, for planners: reads up to 1,000 lines of standard input, each of seven decimal numbers (lanes,
// active lanes, factor, frames and the three designs' counts), and writes a table of what each block needs.
#![tactic(auto)]

mod planning;
mod table;

use planning::line_plan;
use std::io;
use std::io::Read;
use table::{Entry, HEADING};
use text::Line;

// The lines that are read at the most.
const LINES: u64 = 1000;

// Prints what the table has for a line, by its `Display`.
fn print_entry(rt: &impl Print, number: u64, line: &[u8]) -> io::Result<()> {
    let plans = line_plan(line);
    rt.print(Entry { number, plans })
}

// How far the lines are read: the one that has begun, and its number, which counts lines and not bytes.
#[derive(Clone, Copy)]
struct Begun {
    line: Line,
    number: u64,
}

// Prints what the table has for each line that ends among these bytes. Whether more came than the lines that are read.
fn print_lines(rt: &HostRuntime, begun: &mut Begun, bytes: &[u8]) -> io::Result<bool> {
    for byte in bytes {
        if begun.number > LINES {
            return Ok(true);
        }
        begun.line.push(*byte);
        if let Some(line) = begun.line.ended() {
            print_entry(rt, begun.number, line)?;
            begun.number += 1;
        }
    }
    Ok(false)
}

fn main(rt: HostRuntime) -> io::Result<()> {
    rt.print(HEADING)?;
    let mut begun = Begun {
        line: Line::new(),
        number: 1,
    };
    // On the stack, so that no memory is asked for.
    let mut bytes = [0; 4096];
    // A proved loop has to end, and nothing says that an input does: no run uses these turns up.
    for _ in 0..u64::MAX {
        // An input that cannot be read ends there, and what came of its last line is dropped.
        let Ok(count) = rt.stdin().read(&mut bytes) else {
            return rt.println("the input cannot be read any further");
        };
        if count == 0 {
            break;
        }
        if print_lines(&rt, &mut begun, &bytes[..count])? {
            return println!(rt; "the input has more than {LINES} lines: the rest was not read");
        }
    }
    if let Some(bytes) = begun.line.left_over() {
        print_entry(&rt, begun.number, bytes)?;
    }
    Ok(())
}
