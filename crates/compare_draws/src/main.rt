// Answers cases of tables, clash rules and ball sources: each line of standard input by one line.
#![tactic(auto)]

mod asking;
mod comparing;
mod judging;
mod mixing;
mod scripting;
mod stepping;
mod words;

use std::alloc::Global;
use std::io;
use std::io::{BufRead, BufReader, BufWriter, Write};
use words::{Case, CaseError};

// Answers a case of any kind. An enum of the kinds would name each twice, where it is read and where it is answered.
fn answer<W: Write>(out: &mut W, heap: Global, case: Case<'_>) -> Result<(), CaseError> {
    match case.kind {
        "mix" => mixing::answer(out, case),
        "urn" => asking::answer(out, case),
        "script" => scripting::answer(out, case),
        "table" => stepping::answer(out, case),
        "compare" => comparing::answer(out, case),
        "rules" => judging::answer(out, heap, case),
        _ => Err(CaseError::Broken),
    }
}

fn main(rt: HostRuntime) -> io::Result<()> {
    let heap = rt.alloc();
    let mut out = BufWriter::new(heap, rt.stdout())?;
    for line in BufReader::new(heap, rt.stdin())?.lines(heap) {
        let line = line?;
        match answer(&mut out, heap, Case::of(line.as_str())) {
            Ok(()) => writeln!(out)?,
            // A broken case shows among the answers.
            Err(CaseError::Broken) => writeln!(out, "bad case")?,
            Err(CaseError::Io(error)) => return Err(error),
        }
    }
    out.flush()
}
