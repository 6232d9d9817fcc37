// Prints each instruction, column and challenge by name, with its opcode or its place; list.py takes the same lines from the Rust.
// A write that fails changes nothing.
#![tactic(auto)]

use air::{AuxIndex, ChallengeId, MainIndex};

fn main(rt: HostRuntime) {
    for opcode in 0..256 {
        // Every instruction that has an argument takes 1.
        if let Ok(i) = isa_decoding::instruction_from(opcode, 1) {
            let _ = println!(rt; "instruction {} {opcode}", air_names::instruction(i));
        }
    }
    for at in 0..MainIndex::COUNT {
        if let Some(name) = air_names::main_column(MainIndex(at)) {
            let _ = println!(rt; "main {name} {at}");
        }
    }
    for at in 0..AuxIndex::COUNT {
        if let Some(name) = air_names::aux_column(AuxIndex(at)) {
            let _ = println!(rt; "auxiliary {name} {at}");
        }
    }
    for at in 0..ChallengeId::COUNT {
        if let Some(name) = air_names::challenge(ChallengeId(at)) {
            let _ = println!(rt; "challenge {name} {at}");
        }
    }
}
