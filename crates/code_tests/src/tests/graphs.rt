//! Which functions are sane, and what is available in them.

use crate::tests::rows::function;
use go_base::NoMemory;
use ssa_sane::{Available, Registers, SanityError, sanity};
use std::alloc::Global;
use std::test::Fail;

/// Functions that are sane, and of each block the registers that are available at its entry. A `+` before a function says
/// that block 1 is its recover block.
const SANE: &[(&str, &str)] = &[
    // No body, and no code but a return.
    ("", ""),
    (":r;", ";"),
    // A diamond: what one arm gives is not available behind it.
    (":n0a12;0:n1j3;0:n2j3;12:p31122s03r3;", ";0;0;0;"),
    // Both arms give one register.
    (":a12;0:n7j3;0:n7j3;21:r7;", ";;;7;"),
    // A loop: a phi uses what its own block and the body give.
    (":n0j1;02:p10022i123;1:tl21j1;1:r01;", ";0;01;01;"),
    // A block that is both targets counts once, and a block may lead to itself.
    (":n5a11;01:p61605a12;1:x6;", ";5;56;"),
    // A loop that is entered at two places: neither place is above the other.
    (":n0a12;02:n1j2;01:n2a13;2:r02;", ";0;0;02;"),
    // The same with blocks before each of the two places, and a loop round it.
    (
        ":n0j1;06:n1a23;15:n2j4;1:n3j5;2:n4j5;34:n5a26;5:n6a17;6:r0156;",
        ";0;01;01;012;01;015;0156;",
    ),
    // A recover block: the first cells of block 0 are available there, and nothing else.
    ("+:n3n1l21n0r0;:l43l51j2;1:r4531;", ";13;1345;"),
    // A block behind both entries.
    ("+:n0l10j2;:j2;01:r0;", ";0;0;"),
];

/// Functions that are not sane, with the first place: block and instruction.
const INSANE: &[(&str, u64, u64)] = &[
    // The recover block does not exist.
    ("+:r;", 0, 0),
    // A block is empty.
    (":;", 0, 0),
    (":j1;0:;", 1, 0),
    // A block does not end, or ends twice.
    (":tt;", 0, 1),
    (":trr;", 0, 1),
    // A target does not exist; its fault stands before that of the list of predecessors.
    (":n0a91;0:r;", 0, 1),
    (":n0a92;0:r;0:r;", 0, 1),
    // A phi does not stand first.
    (":n0j1;0:p100tp200r;", 1, 2),
    // A phi lacks an operand, has one too many, or has one twice.
    (":n0a12;0:j2;01:p100r;", 2, 0),
    (":n0j1;0:p10010r;", 1, 0),
    (":n0a12;0:j2;01:p10000r;", 2, 0),
    // Block 0 has a predecessor, and so has the recover block.
    ("0:a01;0:r;", 0, 0),
    ("+:j1;0:r;", 1, 0),
    // A list of predecessors lacks one, has one too many, or has one twice.
    (":j1;:r;", 1, 0),
    (":j1;01:r;", 1, 0),
    (":a11;00:r;", 1, 0),
    // A block cannot be reached, and two blocks lead to each other alone.
    (":j1;0:r;:r;", 2, 0),
    (":r;2:j2;1:j1;", 1, 0),
    // A register that nothing gives, one that is given later, and one that is given on one arm alone.
    (":r4;", 0, 0),
    (":l01n1r;", 0, 0),
    (":l00r;", 0, 0),
    (":n0a12;0:n1j3;0:j3;12:l20l31r;", 3, 1),
    // Behind a loop that is entered at two places: one of them may be passed by.
    (":n0a12;02:n1j2;01:n2a13;2:r1;", 3, 0),
    // The operand of a phi is read where the block before ends, and not in the phi's own block.
    (":n0a12;0:n1j3;0:j3;12:p21021r;", 3, 0),
    (":j1;01:p00010a12;1:r;", 1, 0),
    // A register of a loop's body is not available behind the loop.
    (":j1;02:a23;1:n0j1;1:r0;", 3, 0),
    // At the recover block only the first cells of block 0 are available.
    ("+:n0l10n2r;:l30l42r;", 1, 1),
    ("+:n0l10j2;:j2;01:r01;", 2, 0),
];

/// The function of a text of the tables, and its recover block.
fn parts(text: &str) -> (&str, Option<u64>) {
    match text.strip_prefix("+") {
        Some(rest) => (rest, Some(1)),
        None => (text, None),
    }
}

fn push_registers(
    alloc: Global,
    text: &mut Vec<u8>,
    registers: &Registers,
) -> Result<(), NoMemory> {
    let list = registers.list(alloc)?;
    if list.len() as u64 == registers.len() {
        for register in list.as_slice() {
            text.push(b'0'.wrapping_add((*register % 10) as u8))?;
        }
    }
    text.push(b';')?;
    Ok(())
}

/// The registers of each block.
fn lists(alloc: Global, available: &Available) -> Result<Vec<u8>, NoMemory> {
    let mut text = Vec::new(alloc);
    for block in 0..available.len() {
        if let Some(registers) = available.get(block as u64) {
            push_registers(alloc, &mut text, registers)?;
        }
    }
    Ok(text)
}

/// The registers of each block, where a function is sane.
fn available(alloc: Global, text: &str) -> Result<Option<Vec<u8>>, NoMemory> {
    let (rest, recover) = parts(text);
    let function = function(alloc, rest, recover)?;
    match sanity(alloc, &function) {
        Ok(available) => Ok(Some(lists(alloc, &available)?)),
        Err(_) => Ok(None),
    }
}

#[test]
fn sane_functions(rt: HostRuntime) -> Result<(), Fail> {
    for (text, wanted) in SANE {
        let found = available(rt.alloc(), text)?.ok_or("insane")?;
        assert_eq!(rt; found.as_slice(), wanted.as_bytes(), "{text}");
    }
    Ok(())
}

/// Why a function is not sane.
fn fault(alloc: Global, text: &str) -> Result<Option<SanityError>, NoMemory> {
    let (rest, recover) = parts(text);
    let function = function(alloc, rest, recover)?;
    Ok(sanity(alloc, &function).err())
}

#[test]
fn insane_functions(rt: HostRuntime) -> Result<(), Fail> {
    for (text, block, instr) in INSANE {
        let (block, instr) = (*block, *instr);
        let wanted = Some(SanityError::Insane { block, instr });
        assert_eq!(rt; fault(rt.alloc(), text)?, wanted, "{text}");
    }
    Ok(())
}
