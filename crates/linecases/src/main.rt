// Small cases of lines, and what occlist prints of each.
#![tactic(auto)]

ghost use Rattle.std.specs.Prelude.{◌≡◌, ◌+◌, ◌*◌, IfOk, vec_len};

use listing::printout;
use std::alloc::{AllocError, Global};
use std::io::Write;

// Each case by its name, and its text.
static CASES: [(&str, &[u8]); 33] = [
    ("eight brackets", b"INT a:\na := ((((((((1))))))))"),
    ("nine brackets", b"INT a:\na := (((((((((1)))))))))"),
    ("three operands", b"INT a:\na := 1 + 2 + 3"),
    ("a sign after an operator", b"INT a:\na := 1 + -2"),
    ("a sign in brackets", b"INT a:\na := 1 + (-2)"),
    ("two assignments", b"INT a, b:\na := b :="),
    ("nothing after the sign", b"INT a:\na :="),
    ("address 8", b"CHAN OF INT c:\nPLACE c AT 8:"),
    ("an address in brackets", b"CHAN OF INT c:\nPLACE c AT (1):"),
    (
        "a channel placed twice",
        b"CHAN OF INT c:\nPLACE c AT 0:\nPLACE c AT 1:",
    ),
    (
        "an address placed twice",
        b"CHAN OF INT c, d:\nPLACE c AT 4:\nPLACE d AT 4:",
    ),
    (
        "output to an incoming link",
        b"CHAN OF INT c:\nPLACE c AT 4:\nc ! 1",
    ),
    (
        "input from an outgoing link",
        b"CHAN OF INT c:\nINT x:\nPLACE c AT 3:\nc ? x",
    ),
    (
        "a guard on an outgoing link",
        b"CHAN OF INT c:\nINT x:\nPLACE c AT 3:\nTRUE & c ? x",
    ),
    ("declared twice in a line", b"INT a, a:"),
    ("declared by another kind", b"CHAN OF INT c:\nINT x, c:"),
    ("an undeclared name", b"x := 1"),
    ("a channel as a variable", b"CHAN OF INT c:\nc ? c"),
    ("a variable as a channel", b"INT x:\nx ! 1"),
    (
        "an undeclared name right of a wrong type",
        b"INT x:\nx := TRUE AND y",
    ),
    ("a truth value assigned", b"INT x:\nx := TRUE"),
    ("TRUE = FALSE", b"TRUE = FALSE"),
    ("NOT 1", b"NOT 1"),
    ("WHILE over a number", b"INT x:\nWHILE x"),
    ("PRI alone", b"PRI"),
    ("PRI SEQ", b"PRI SEQ"),
    ("a timer", b"TIMER t:"),
    ("a name list without its colon", b"INT a, b"),
    ("a guard on SKIP", b"FALSE & SKIP"),
    (
        "a guard on an input after an input",
        b"CHAN OF INT c:\nINT x:\nc ? x & SKIP",
    ),
    ("a fault of the words in an earlier line", b" SKIP\nx := 1"),
    ("a fault of the lines in an earlier line", b"x := 1\n#"),
    (
        "every form",
        b"INT x, y:\nCHAN OF INT in, out, c:\nPLACE in AT 4:\nPLACE out AT 0:\nSEQ\n  PAR\n  IF\n    (x = 1) OR (NOT (y <> 2))\n  ALT\n    in ? x\n    (x < y) & c ? y\n    TRUE & SKIP\n  PRI ALT\n  WHILE (x PLUS 1) >= 0\n    x := ((-x) * 3) \\ (y / 2)\n  out ! (x MINUS y) TIMES 7\n  SKIP\n  STOP",
    ),
];

// So many declarations of one variable each: `INT a0:`, `INT b0:` and so on, in lines of seven bytes. Not by `format!`, as
// the contract counts the bytes.
fn declarations(heap: Global, count: u8) -> Result<Vec<u8>, AllocError>
    ensures { IfOk result (λ v. vec_len v ≡ 8 * count) }
{
    let mut text = Vec::new(heap);
    for i in 0..count {
        text.extend_from_slice(b"INT ")?;
        text.push(b'a' + i / 10 % 26)?;
        text.push(b'0' + i % 10)?;
        text.extend_from_slice(b":\n")?;
    }
    Ok(text)
}

fn main(rt: HostRuntime) -> anyhow::Result<()> {
    let heap = rt.alloc();
    for (name, text) in CASES.iter() {
        println!(rt; "== {name}")?;
        let out = printout(heap, text)?;
        rt.stdout().write_all(out.as_slice())?;
    }
    for count in [64, 65] {
        println!(rt; "== {count} variables")?;
        let out = printout(heap, declarations(heap, count)?.as_slice())?;
        rt.stdout().write_all(&out.as_slice()[..out.len().min(40)])?;
        println!(rt; "")?;
    }
    Ok(())
}
