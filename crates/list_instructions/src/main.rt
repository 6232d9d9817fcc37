// Compares the instructions with the list on standard input, which list.py takes from the Rust.
// Each word below 512, and each of them with 2^32 added, is decoded with the arguments 0 to 16 and p - 1.
// The input ends where a read fails, and a write that fails changes nothing.
#![tactic(auto)]

ghost use Rattle.std.specs.Prelude.{◌≤◌};

use isa::Influence;
use isa_decoding::{Class, Undecodable};
use standard_input::read_until_failure;

// A line's length with its end.
const LINE: usize = 28;

const ARGUMENTS: [u64; 18] = [
    0,
    1,
    2,
    3,
    4,
    5,
    6,
    7,
    8,
    9,
    10,
    11,
    12,
    13,
    14,
    15,
    16,
    18446744069414584320,
];

// What the list says of an instruction besides its name.
#[derive(Clone, Copy)]
struct Line {
    opcode: u64,
    // Nothing where no argument is outside.
    class: Option<Class>,
    grows: bool,
    // How far the stack grows or shrinks; nothing where it is by the argument.
    size: Option<u64>,
}

// A character that is no digit counts as 0.
fn digit(byte: u8) -> u64
    ensures { result ≤ 9 }
{
    match byte {
        b'0'..=b'9' => u64::from(byte - b'0'),
        _ => 0,
    }
}

// The name, which is not read, an opcode of three digits, a letter, and a sign with two digits or "nn".
fn line_from(text: &[u8; LINE]) -> Line {
    let [
        ..,
        hundreds,
        tens,
        ones,
        _,
        class,
        _,
        sign,
        size_tens,
        size_ones,
        _,
    ] = *text;
    Line {
        opcode: digit(hundreds) * 100 + digit(tens) * 10 + digit(ones),
        class: match class {
            b's' => Some(Class::StackElement),
            b'n' => Some(Class::NumberOfWords),
            _ => None,
        },
        grows: sign == b'+',
        size: match size_tens {
            b'n' => None,
            _ => Some(digit(size_tens) * 10 + digit(size_ones)),
        },
    }
}

fn line_of(list: &[[u8; LINE]], opcode: u64) -> Option<Line> {
    list.iter()
        .map(line_from)
        .find(|line| line.opcode == opcode)
}

fn allows(class: Option<Class>, argument: u64) -> bool {
    match class {
        Some(Class::StackElement) => argument <= 15,
        Some(Class::NumberOfWords) => 1 <= argument && argument <= 5,
        None => true,
    }
}

fn is_class(listed: Option<Class>, class: Class) -> bool {
    match class {
        Class::StackElement => matches!(listed, Some(Class::StackElement)),
        Class::NumberOfWords => matches!(listed, Some(Class::NumberOfWords)),
    }
}

// What a line says of the influence.
fn influence(line: Line, argument: u64) -> Influence {
    let size = line.size.unwrap_or(argument);
    if size == 0 {
        Influence::Keeps
    } else if line.grows {
        Influence::Grows(size)
    } else {
        Influence::Shrinks(size)
    }
}

// Whether decoding the two words gives what the word's line says.
fn agrees(line: Option<Line>, word: u64, argument: u64) -> bool {
    let decoded = isa_decoding::instruction_from(word, argument);
    let Some(line) = line else {
        return matches!(decoded, Err(Undecodable::Unknown));
    };
    let allowed = allows(line.class, argument);
    match decoded {
        Err(Undecodable::Unknown) => false,
        Err(Undecodable::Outside(class, i)) => {
            !allowed && isa::opcode(i) == word && is_class(line.class, class)
        }
        Ok(i) => {
            allowed
                && isa::opcode(i) == word
                && influence(line, argument) == isa::op_stack_size_influence(i)
        }
    }
}

// How many arguments give something else than the word's line says, each of which is said.
fn differences_of(rt: &impl Print, list: &[[u8; LINE]], word: u64) -> u64
    ensures { result ≤ 18 }
{
    let line = line_of(list, word);
    let mut count = 0u64;
    for argument in ARGUMENTS {
        if !agrees(line, word, argument) {
            let _ = println!(rt; "differs: {word} {argument}");
            count += 1;
        }
    }
    count
}

fn main(rt: HostRuntime) {
    let mut buffer = [0u8; 4096];
    let n = read_until_failure(&mut rt.stdin(), &mut buffer);
    let (list, _) = buffer[..n].as_chunks::<LINE>();
    let mut count = 0u64;
    for start in [0, 1 << 32] {
        for word in 0..512 {
            count += differences_of(&rt, list, start + word);
        }
    }
    let _ = println!(rt; "{} instructions, {count} differences", list.len());
}
