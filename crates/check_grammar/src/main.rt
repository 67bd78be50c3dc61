// Reads a grammar's bytes on standard input and prints `ok` if it is sound, or `no`, the refusal's number and the place.
#![tactic(auto)]

use allstar::Numbered;
use std::io;
use std::io::Write;

// The bytes of the input that are looked at. A grammar is complete, or refused, within its first 870 bytes: what lies behind these changes neither the verdict
// nor its place (`check-first` of `soundness`).
const KEPT_BYTES: usize = 4096;

// Writes the verdict on a grammar.
fn tell<W: Write>(out: &mut W, grammar: &[u8]) -> io::Result<()> {
    match allstar::check(grammar) {
        Ok(()) => writeln!(out, "ok"),
        Err(refusal) => {
            let number = refusal.number();
            let place = refusal.place();
            writeln!(out, "no {number} {place}")
        }
    }
}

fn main(rt: HostRuntime) -> io::Result<()> {
    let mut bytes = [0u8; KEPT_BYTES];
    let n = lines::read_full(&mut rt.stdin(), &mut bytes)?;
    tell(&mut rt.stdout(), &bytes[..n])
}
