//! The instructions of a program, as lines of a text.
ghost use Rattle.std.specs.Prelude.{◌≡◌, ◌≤◌, ◌<◌, ◌+◌, ◌^◌, min};
ghost use Rattle.job_vm.specs.Instructions.{word_of, operand, on_register, instruction_named, instruction_of};

use crate::operations::{ADD, HALT, JUMP, JUMP_IF_ZERO, MUL, SET, SUB};
use text_words::{cut_space, read_number};

// The words of these operations keep their parts apart, since a register is below 8 and a number below 2^32.
const REGISTERS: u64 = 8;

const NUMBERS: u64 = 1 << 32;

/// The word of a line's instruction, in a program of so many instructions.
pub(crate) fn instruction_of(count: usize, line: &[u8]) -> Option<u64>
    ensures { result ≡ instruction_of count line.now }
{
    if line == b"halt".as_slice() {
        return Some(word_of(HALT, 0, 0));
    }
    let (name, operands) = cut_space(line)?;
    instruction_named(count, name, operands)
}

fn instruction_named(count: usize, name: &[u8], operands: &[u8]) -> Option<u64>
    ensures { result ≡ instruction_named count name.now operands.now }
{
    let targets = (count as u64).saturating_add(1).min(NUMBERS);
    if name == b"set".as_slice() {
        on_register(SET, NUMBERS, operands)
    } else if name == b"add".as_slice() {
        on_register(ADD, REGISTERS, operands)
    } else if name == b"sub".as_slice() {
        on_register(SUB, REGISTERS, operands)
    } else if name == b"mul".as_slice() {
        on_register(MUL, REGISTERS, operands)
    } else if name == b"jz".as_slice() {
        on_register(JUMP_IF_ZERO, targets, operands)
    } else if name == b"jump".as_slice() {
        Some(word_of(JUMP, 0, operand(targets, operands)?))
    } else {
        None
    }
}

fn on_register(operation: u64, limit: u64, operands: &[u8]) -> Option<u64>
    requires operation { operation ≤ 6 }
    requires limit { limit ≤ 2 ^ 32 }
    ensures { result ≡ on_register operation limit operands.now }
{
    let (a, b) = cut_space(operands)?;
    Some(word_of(operation, operand(REGISTERS, a)?, operand(limit, b)?))
}

fn operand(limit: u64, word: &[u8]) -> Option<u64>
    ensures { result ≡ operand limit word.now }
{
    let number = read_number(word)?;
    if number < u128::from(limit) {
        Some(number as u64)
    } else {
        None
    }
}

fn word_of(operation: u64, a: u64, b: u64) -> u64
    requires operation { operation ≤ 6 }
    requires register { a < 8 }
    requires number { b < 2 ^ 32 }
    ensures { result ≡ word_of operation a b }
{
    operation * (1 << 40) + a * (1 << 32) + b
}
