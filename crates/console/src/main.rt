// The console: one call a line on standard input, one answer a line on standard output. A line is answered before the next is read.
//
//     fresh                                                       0 -
//     edit NUMBER NAME FLAGS SEND RECEIVE LIFETIME                0 -, or 12 -
//     find NAME                                                   0 NUMBER, or 6 -
//     request CLOCK OUTPUT-LENGTH BYTES                           0 RECORD, or 32 -
//     clear CLOCK                                                 0 COUNT
//     descent NUMBER                                              0 STEPS, or 41 -
//     total                                                       0 SECONDS
//     ledger                                                      0 COUNT, then COUNT lines, one record each
//     initial CLOCK USER [OPTIONS [TILL]]                         as request, with bytes that the console writes
//     direct CLOCK TGT SERVICE [OPTIONS [TILL]]
//     self CLOCK TGT USER [OPTIONS [TILL]]
//     proxy CLOCK TGT EVIDENCE SERVICE [OPTIONS [PAC [TILL]]]     OPTIONS is CNAME-IN-ADDL-TKT where it is not given
//     # a comment, or an empty line                               no answer
//
// Words are parted by one space. Numbers are decimal, or hexadecimal after 0x; bytes are hexadecimal, `-` for none; a name is as it is.
// A line that is no call changes nothing, and is answered by `? LINE: what is wrong`.
#![tactic(auto)]

use definitions::LONGEST_RECORD;
use failure::Failure;
use lines::Lines;
use service::{Service, record_of};
use std::io;
use std::io::Read;
use value::{Hexadecimal, Value};

mod command;
mod failure;
mod lines;
mod service;
mod value;

// Prints what a call gives, each line by a write of its own.
fn print(rt: &impl Print, value: Value<'_>) -> io::Result<()> {
    println!(rt; "0 {value}")?;
    if let Value::Tickets(ledger) = value {
        let places = 0..ledger::count_held(ledger);
        for ticket in places.filter_map(|place| ledger::held_at(ledger, place)) {
            let mut output = [0; LONGEST_RECORD];
            let record = record_of(ticket, &mut output).unwrap_or(&[]);
            println!(rt; "{}", Hexadecimal(record))?;
        }
    }
    Ok(())
}

// Makes the call of a line, and prints its answer.
fn answer(rt: &impl Print, service: &mut Service, line: &[u8], number: u64) -> io::Result<()> {
    match service.call(line, &mut [0; LONGEST_RECORD]) {
        Ok(value) => print(rt, value),
        Err(Failure::Wrong(wrong)) => println!(rt; "? {number}: {wrong}"),
        Err(refused @ Failure::Refused(_)) => println!(rt; "{refused}"),
    }
}

// Reads and answers lines until the input ends.
// Form: the lines are counted, since nothing says that an input ends, and a wrong line is told by its number.
fn serve(
    rt: &impl Print,
    service: &mut Service,
    lines: &mut Lines<impl Read + Drop>,
) -> io::Result<()> {
    for number in 1..u64::MAX {
        match lines.next_line()? {
            None => return Ok(()),
            Some([] | [b'#', ..]) => {}
            Some(line) => answer(rt, service, line, number)?,
        }
    }
    Ok(())
}

fn main(rt: HostRuntime) -> io::Result<()> {
    serve(&rt, &mut Service::new(), &mut Lines::new(rt.reader()))
}
