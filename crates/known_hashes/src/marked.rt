// Document 01's marked cases on products, hashes and steps back: K6 to K11, K13 and K14.
use crate::hashes::{Way, hash_answer};
use ghash_block::block::Block;
use ghash_inverse::step_back::step_back_bytes;
use ghash_step::{Path, product_bytes};
use known_compare::compare::{Seen, answer};
use known_report::report::report_marked;
use std::io;

fn products(rt: &impl Print, k: u64, block: &[u8], key: &[u8], expected: Block) -> io::Result<()> {
    let plain = Seen::from(product_bytes(Path::Plain, key, block));
    let fast = Seen::from(product_bytes(Path::Fast, key, block));
    let n = answer(0, plain, 0, expected);
    report_marked(rt, k, answer(n, fast, 0, expected), 2)
}

// U·H on both paths; U and H by their first and last byte, with zeros between.
fn product(
    rt: &impl Print,
    k: u64,
    u0: u8,
    u15: u8,
    h0: u8,
    h15: u8,
    high: u64,
    low: u64,
) -> io::Result<()> {
    let block = [u0, 0, 0, 0, 0, 0, 0, 0, 0, 0, 0, 0, 0, 0, 0, u15];
    let key = [h0, 0, 0, 0, 0, 0, 0, 0, 0, 0, 0, 0, 0, 0, 0, h15];
    products(rt, k, &block, &key, Block(high, low))
}

// The step back with X zero; H and Y1 by their first byte, with zeros after it.
fn step_back(
    rt: &impl Print,
    k: u64,
    h0: u8,
    y0: u8,
    number: u32,
    high: u64,
    low: u64,
) -> io::Result<()> {
    let key = [h0, 0, 0, 0, 0, 0, 0, 0, 0, 0, 0, 0, 0, 0, 0, 0];
    let x = [0u8; 16];
    let later = [y0, 0, 0, 0, 0, 0, 0, 0, 0, 0, 0, 0, 0, 0, 0, 0];
    let a = Seen::from(step_back_bytes(&key, &x, &later));
    report_marked(rt, k, answer(0, a, number, Block(high, low)), 1)
}

// The hash with A empty, on both paths.
fn hash(rt: &impl Print, k: u64, h: Block, c: &[u8], expected: Block) -> io::Result<()> {
    let none = [0u8; 0];
    let n = hash_answer(0, Way::Whole(Path::Plain), h, &none, c, 0, expected);
    report_marked(
        rt,
        k,
        hash_answer(n, Way::Whole(Path::Fast), h, &none, c, 0, expected),
        2,
    )
}

fn field(rt: &impl Print) -> io::Result<()> {
    product(rt, 6, 0x40, 0x00, 0x00, 0x01, 0xE100_0000_0000_0000, 0)?;
    product(rt, 7, 0x00, 0x01, 0x00, 0x01, 0xE608_0000_0000_0000, 3)?;
    product(rt, 8, 0x80, 0x00, 0x00, 0x01, 0, 1)?;
    step_back(rt, 9, 0x40, 0x80, 0, 0xC200_0000_0000_0000, 1)?;
    step_back(rt, 10, 0x00, 0x00, 13, 0, 0)?;
    step_back(rt, 11, 0x00, 0x80, 12, 0, 0)
}

fn empty_message(rt: &impl Print) -> io::Result<()> {
    let none = [0u8; 0];
    hash(rt, 13, Block(0x4000_0000_0000_0000, 0), &none, Block::ZERO)
}

fn message_of_a_byte(rt: &impl Print) -> io::Result<()> {
    let byte = [1u8];
    hash(rt, 14, Block::ONE, &byte, Block(0x0100_0000_0000_0000, 8))
}

pub fn run(rt: &impl Print) -> io::Result<()> {
    field(rt)?;
    empty_message(rt)?;
    message_of_a_byte(rt)
}
