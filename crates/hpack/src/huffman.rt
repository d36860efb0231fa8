//! The Huffman code (RFC 7541, section 5.2 and appendix B).
#![tactic(auto)]

ghost use Rattle.std.specs.Prelude.{◌≡◌, ℕ, ◌+◌, ◌*◌, ◌/◌, ◌%◌, ◌^◌, ◌<◌, List, length, IfOk, IfErr, ◌≤◌, slice_index};
ghost use Rattle.hpack.specs.Huffman.{bits, length_of, IsHuffman, coded_length};
ghost use Rattle.hpack.specs.Tree.{huffman_text, StepsBy};
ghost use Rattle.hpack.specs.Outcomes.{Gives, IsPaddingFault};

use crate::fault::HpackFault;
use crate::tables::{LENGTHS, STEPS};
use std::alloc::Global;
use wl_octets::Octets;

/// What four bits do at a node.
#[inline]
fn entry(node: u8, nibble: u8) -> u32
    requires { nibble < 16 }
    ensures { result ≡ slice_index STEPS (node * 16 + nibble) }
{
    STEPS[usize::from(node) * 16 + usize::from(nibble)]
}

/// How many bits the word of a symbol has.
#[inline]
fn word_len(symbol: u8) -> u64
    ensures len { result ≡ length_of symbol }
    ensures small { result ≤ 30 }
{
    u64::from(LENGTHS[usize::from(symbol)])
}

/// Goes on from a node by four bits: adds the symbol that ends among them, and gives the next node.
fn step(text: &mut Vec<u8>, node: u8, nibble: u8) -> Result<u8, HpackFault>
    requires { nibble < 16 }
    ensures { StepsBy (bits 4 nibble) node text.old.items result text.new.items }
{
    let entry = entry(node, nibble);
    let next = (entry % 256) as u8;
    let symbol = entry / 256;
    if symbol < 256 {
        text.push(symbol as u8)?;
        Ok(next)
    } else if symbol == 256 {
        Ok(next)
    } else {
        Err(HpackFault::Padding)
    }
}

/// Goes on from a node by the eight bits of a byte.
fn step_byte(text: &mut Vec<u8>, node: u8, byte: u8) -> Result<u8, HpackFault>
    ensures { StepsBy (bits 8 byte) node text.old.items result text.new.items }
{
    let middle = step(text, node, byte / 16)?;
    step(text, middle, byte % 16)
}

/// The text that the bytes are the Huffman code of, read along the tree of the code's words.
#[tactic(auto, unfolding(crate::specs::Tree::huffman_text))]
pub(crate) fn decode(alloc: Global, bytes: &[u8]) -> Result<Octets, HpackFault>
    ensures { Gives (λ text. text) result (huffman_text bytes.now) }
{
    // A word has five bits at least, so no text is longer than this: its memory is taken once.
    let mut text = Vec::with_capacity(alloc, bytes.len() / 5 * 8 + 8)?;
    let mut node = 0;
    for byte in bytes {
        node = step_byte(&mut text, node, *byte)?;
    }
    if node < 8 {
        Ok(Octets::from_vec(text))
    } else {
        Err(HpackFault::Padding)
    }
}

/// The text that the bytes are the Huffman code of (RFC 7541, section 5.2).
///
/// `Padding` where the bytes aren't code words followed by fewer than eight one bits, so also where the end of a
/// string is coded; and `Memory`.
pub fn huff_decode(alloc: Global, bytes: &[u8]) -> Result<Octets, HpackFault>
    ensures ok { IfOk result (λ text. IsHuffman bytes.now text) }
    ensures only { IfOk result (λ text. (other : List ℕ) → IsHuffman bytes.now other → other ≡ text) }
    ensures err { IfErr result
        (λ fault. IsPaddingFault fault ((text : List ℕ) → IsHuffman bytes.now text → ⊥)) }
    ensures read { Gives (λ text. text) result (huffman_text bytes.now) }
{
    decode(alloc, bytes)
}

/// How many bits the Huffman code of the text has, without padding.
pub fn huff_len(text: &[u8]) -> u64
    requires { length text.now < 2 ^ 32 }
    ensures { result ≡ coded_length text.now }
{
    let mut count = 0;
    for symbol in text {
        count += word_len(*symbol);
    }
    count
}
