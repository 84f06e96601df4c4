//! Assembles, disassembles and verifies programs. Where a request for memory is refused, the answer is want of
//! memory, at line 0 or slot 0, and the same call given again answers as though it had never been refused.
use crate::counting::{Refusals, TRIES, wrong};
use bpf_asm::{AsmError, assemble, disassemble};
use bpf_decode::Program;
use bpf_profile::Layout;
use refusals::RefusalNumber;
use std::alloc::Global;
use std::io;
use std::io::Write;
use verifier::{Refusal, Verified, verify, verify_counted};

/// The default classifier, a program that reads the context where its record says, arithmetic at its edges, and a
/// program that hands bytes of its stack to a helper.
const TEXTS: [&str; 10] = [
    "ldxw r2, [r1+0]\njne r2, 0, +4\nldxw r2, [r1+4]\njge r2, 500, +2\nmov r0, 0\nexit\nmov r0, 1\nexit\n",
    "ldxdw r2, [r1+48]\nand r2, 56\nadd r1, r2\nldxdw r0, [r1+64]\nmov r0, 0\nexit\n",
    "lddw r1, 9223372036854775808\nsdiv r1, -1\nlddw r2, 9223372036854775808\nmov r0, 1\njne r1, r2, +1\nmov r0, 0\nexit\n",
    "lddw r1, 9223372036854775808\nsmod r1, -1\nmov r2, 0\nmov r0, 1\njne r1, r2, +1\nmov r0, 0\nexit\n",
    "mov r1, 7\ndiv r1, 0\nmov r2, 0\nmov r0, 1\njne r1, r2, +1\nmov r0, 0\nexit\n",
    "lddw r1, 0xffffffff00000007\nmod32 r1, 0\nmov r2, 7\nmov r0, 1\njne r1, r2, +1\nmov r0, 0\nexit\n",
    "mov r1, 5\nlsh r1, 64\nmov r2, 5\nmov r0, 1\njne r1, r2, +1\nmov r0, 0\nexit\n",
    "mov r1, -13\nsmod r1, 3\nmov r2, -1\nmov r0, 1\njne r1, r2, +1\nmov r0, 0\nexit\n",
    "mov r1, 0x1234\nbe16 r1\nmov r2, 0x3412\nmov r0, 1\njne r1, r2, +1\nmov r0, 0\nexit\n",
    "stb [r10-8], 112\nstb [r10-7], 97\nmov r1, r10\nadd r1, -8\nmov r2, 2\ncall 4\nexit\n",
];

/// The program of a text; where memory was wanting it is assembled again.
fn assembled(refusals: &mut Refusals, alloc: Global, text: &str) -> io::Result<Program> {
    let wanting = AsmError {
        line: 0,
        kind: RefusalNumber::AssemblerOutOfMemory,
    };
    for _ in 0..TRIES {
        match assemble(alloc, text) {
            Ok(program) => return Ok(program),
            Err(error) => {
                if error != wanting {
                    return Err(wrong());
                }
                refusals.count();
            }
        }
    }
    Err(wrong())
}

/// The text of a program; where memory was wanting it is made again.
fn disassembled(refusals: &mut Refusals, alloc: Global, program: &Program) -> io::Result<String> {
    for _ in 0..TRIES {
        match disassemble(alloc, program) {
            Ok(text) => return Ok(text),
            Err(_) => refusals.count(),
        }
    }
    Err(wrong())
}

/// The bytes of a program; where memory was wanting they are made again.
fn encoded(refusals: &mut Refusals, program: &Program) -> io::Result<Vec<u8>> {
    for _ in 0..TRIES {
        match program.encode() {
            Ok(bytes) => return Ok(bytes),
            Err(_) => refusals.count(),
        }
    }
    Err(wrong())
}

/// Counts a refusal for want of memory; every other one is wrong.
fn wanted(refusals: &mut Refusals, refusal: Refusal) -> io::Result<()> {
    let wanting = Refusal {
        slot: 0,
        number: RefusalNumber::ProgramOutOfMemory,
    };
    if refusal != wanting {
        return Err(wrong());
    }
    refusals.count();
    Ok(())
}

/// The verified program of the bytes; where memory was wanting it is verified again.
fn verified(refusals: &mut Refusals, alloc: Global, bytes: &[u8]) -> io::Result<Verified> {
    for _ in 0..TRIES {
        match verify(alloc, bytes, Layout::One) {
            Ok(program) => return Ok(program),
            Err(refusal) => wanted(refusals, refusal)?,
        }
    }
    Err(wrong())
}

/// The verified program and its width; where memory was wanting it is verified again.
fn counted(refusals: &mut Refusals, alloc: Global, bytes: &[u8]) -> io::Result<(Verified, u32)> {
    for _ in 0..TRIES {
        match verify_counted(alloc, bytes, Layout::One) {
            Ok(counted) => return Ok(counted),
            Err(refusal) => wanted(refusals, refusal)?,
        }
    }
    Err(wrong())
}

/// The verified program of the bytes with its width, which both ways of verifying have to agree on.
fn verified_twice(
    refusals: &mut Refusals,
    alloc: Global,
    bytes: &[u8],
) -> io::Result<(Verified, u32)> {
    let once = verified(refusals, alloc, bytes)?;
    let (again, width) = counted(refusals, alloc, bytes)?;
    if once.bytes() != again.bytes() || once.budget() != again.budget() {
        return Err(wrong());
    }
    Ok((again, width))
}

/// Prints a program's text, as it is disassembled, its budget and its width.
fn show(
    refusals: &mut Refusals,
    alloc: Global,
    text: &str,
    out: &mut impl Write,
) -> io::Result<()> {
    let program = assembled(refusals, alloc, text)?;
    let bytes = encoded(refusals, &program)?;
    let (verified, width) = verified_twice(refusals, alloc, &bytes)?;
    let text = disassembled(refusals, alloc, &program)?;
    write!(out, "budget {} width {width}\n{text}", verified.budget())
}

/// Prints what is known of each program.
fn show_all(
    refusals: &mut Refusals,
    alloc: Global,
    texts: &[&str],
    out: &mut impl Write,
) -> io::Result<()> {
    for text in texts {
        show(refusals, alloc, text, out)?;
    }
    Ok(())
}

/// Prints what is known of the programs above.
pub(crate) fn verify_programs(
    refusals: &mut Refusals,
    alloc: Global,
    out: &mut impl Write,
) -> io::Result<()> {
    show_all(refusals, alloc, &TEXTS, out)
}
