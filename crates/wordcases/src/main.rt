// Small cases of texts, and the listing of the words of each, or its refusal.
#![tactic(auto)]

ghost use Rattle.std.specs.Prelude.{◌≡◌, ◌+◌, ◌*◌, length, IfOk, vec_len};

use faults::Fault;
use listing::listing;
use std::alloc::{AllocError, Global};
use std::io::Write;

// Texts, each with the name of its case.
static CASES: [(&str, &[u8]); 35] = [
    ("an empty text", b""),
    ("no final end of line", b"SKIP"),
    ("one end of line", b"\n"),
    ("a space before byte 13", b"SKIP \r\n"),
    ("byte 9", b"\tSKIP"),
    ("byte 127", b"a\x7f"),
    ("byte 200 in line 2", b"SKIP\nab\xc8"),
    ("a comment with a bad byte", b"-- a\x07"),
    ("two bad bytes", b"a\x01\x02"),
    ("one leading space", b" SKIP"),
    ("three leading spaces", b"   SKIP"),
    ("two leading spaces", b"  SKIP"),
    ("an odd count of spaces alone", b"   "),
    ("an odd count of spaces before a comment", b" -- one"),
    ("a space before an unknown sign", b" #"),
    ("an unknown sign alone", b"#"),
    ("a name of 16 bytes", b"abcdefghijklmnop"),
    ("a name of 17 bytes", b"x abcdefghijklmnopq"),
    ("the largest number", b"2147483647"),
    ("a number too big", b"a 2147483648"),
    ("leading zeros", b"0000000000012"),
    ("no spaces", b"a:=b"),
    ("a comment in a word's place", b"a--1"),
    ("signs of two bytes", b"<><=>=:="),
    ("signs that look longer", b"=<:< ="),
    ("digits and letters", b"12ab"),
    ("a full stop after digits", b"12."),
    ("a full stop after a keyword", b"TRUE."),
    ("a keyword in small letters", b"skip"),
    ("the leftmost of two faults", b"$ 2147483648"),
    ("an earlier line's fault", b"a\n #\n\x01"),
    (
        "every sign and keyword",
        b"?!&:,()+-*/\\=<> < > AFTER ALT AND AT CHAN FALSE IF INT MINUS NOT OF OR PAR\nPLACE PLUS PRI SEQ SKIP STOP TIMER TIMES TRUE WHILE",
    ),
    ("32 leading spaces", b"                                a"),
    ("33 leading spaces", b"                                 a"),
    ("34 leading spaces", b"                                  a"),
];

// Lines of one byte, so many times, and what follows them: no tuple, since two of the numbers have one type.
struct Filled {
    name: &'static str,
    lines: usize,
    bytes: usize,
    byte: u8,
    end: &'static [u8],
}

static FILLED: [Filled; 7] = [
    Filled {
        name: "a line of 128 bytes",
        lines: 1,
        bytes: 128,
        byte: b'-',
        end: b"",
    },
    Filled {
        name: "a line of 129 bytes",
        lines: 1,
        bytes: 129,
        byte: b'-',
        end: b"",
    },
    Filled {
        name: "a line of 129 bad bytes",
        lines: 1,
        bytes: 129,
        byte: 200,
        end: b"",
    },
    Filled {
        name: "256 lines",
        lines: 256,
        bytes: 0,
        byte: b' ',
        end: b"",
    },
    Filled {
        name: "257 lines",
        lines: 257,
        bytes: 0,
        byte: b' ',
        end: b"",
    },
    Filled {
        name: "33,024 bytes",
        lines: 256,
        bytes: 128,
        byte: b' ',
        end: b"",
    },
    Filled {
        name: "33,025 bytes",
        lines: 255,
        bytes: 128,
        byte: b' ',
        end: b"                                                                                                                                  ",
    },
];

// The text of such a case.
fn text_of(heap: Global, case: &Filled) -> Result<Vec<u8>, AllocError>
    ensures { IfOk result (λ v. vec_len v ≡ case.now.lines * (case.now.bytes + 1) + length case.now.end.now) }
{
    let mut text = Vec::new(heap);
    for _ in 0..case.lines {
        text.resize(text.len() + case.bytes, case.byte)?;
        text.push(b'\n')?;
    }
    text.extend_from_slice(case.end)?;
    Ok(text)
}

fn main(rt: HostRuntime) -> anyhow::Result<()> {
    let heap = rt.alloc();
    let mut texts = Vec::new(heap);
    for (name, text) in CASES.iter() {
        texts.push((*name, text.to_vec(heap)?))?;
    }
    for case in FILLED.iter() {
        texts.push((case.name, text_of(heap, case)?))?;
    }
    for (name, text) in texts.iter() {
        println!(rt; "== {name}")?;
        match listing(heap, text.as_slice()) {
            Ok(out) => rt.stdout().write_all(out.as_slice())?,
            Err(refusal) => {
                let fault = Fault::from(refusal);
                println!(rt; "{fault}")?
            }
        }
    }
    Ok(())
}
