// Reads a set-up and then commands from standard input, and lists what each call answers, a line each.
#![tactic(auto)]

mod command;
mod input;
mod line;

use command::read_command;
use diverter::diverter_set_up;
use input::{LONGEST_SET_UP, read_envelope};
use line::Line;
use rules::Net;
use std::io;
use std::io::Read;

// The set-up has its line, however much of it came; the listing goes on where it is done. Each line is one write.
// A proved loop has to end, and nothing says that the input does: so it counts commands, to a number no run comes to.
fn list<R: Read>(input: &mut R, rt: &impl Print) -> io::Result<()> {
    let mut net = Net::default();
    let mut room = [0; 772];
    println!(rt; "no reply pass controller name new")?;
    let came = read_envelope(input, &mut room, LONGEST_SET_UP)?;
    let answer = diverter_set_up(&mut net, came.bytes());
    rt.println(Line { no: 0, answer })?;
    if answer.number != 0 {
        return Ok(());
    }
    for no in 1..=u64::MAX {
        let Some(command) = read_command(input, &mut room)? else {
            break;
        };
        let answer = command.call(&mut net);
        rt.println(Line { no, answer })?;
        if command.is_last() {
            break;
        }
    }
    Ok(())
}

fn main(rt: HostRuntime) -> io::Result<()> {
    list(&mut rt.stdin(), &rt)
}
