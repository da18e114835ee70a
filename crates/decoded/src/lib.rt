// What a file holds: whether its blocks, their sums and its head are right, and then its weights and lists, taken into tables.
//
// Pins that are stored without loads are given one of 0: for callers a pin is three numbers.
#![tactic(auto)]

ghost use Rattle.std.specs.Prelude.{false, ◌≡◌, ◌+◌, ◌*◌, ◌/◌, ◌≤◌, ◌<◌, length};
ghost use Rattle.lent.specs.Over.{over};
ghost use Rattle.plane.specs.Flat.{places_of};
ghost use Rattle.net.specs.Pins.{flat_pins};
ghost use Rattle.blocks.specs.Sizes.{block_bytes, per_block, blocks_for, file_numbers};
ghost use Rattle.decoded.specs.Held.{
  blocks_miscounted,
  sums_wrong,
  head_word,
  loaded_in,
  pin_length,
  macro_length,
  weights_in,
  number_in,
  numbers_in,
  pins_in,
  macros_in,
  counts_wrong,
  weights_miswritten,
  head_wrong,
  Sized,
};

use blocks::{
    BLOCK_BYTES, BLOCK_WORDS, FILE_BLOCKS, FILE_NUMBERS, FIRST_ENTRY, FIRST_WEIGHT_WORD, Kind,
    MACRO_COUNT_WORD, PER_BLOCK, PIN_COUNT_WORD, PLACE_NUMBERS, SECOND_WEIGHT_WORD,
};
use net::Net;
use plane::Weights;

// The greatest weight, as a word of the head may have it.
const WEIGHT: usize = Net::WEIGHT as usize;

// Not whole blocks, none, or more than the longest file has.
#[tactic(auto, unfolding(crate::specs::Held::blocks_miscounted_within))]
pub fn blocks_miscounted(bytes: &[u8]) -> bool
    ensures { result ≡ blocks_miscounted bytes.now }
{
    let n = bytes.len() / BLOCK_BYTES;
    bytes.len() % BLOCK_BYTES != 0 || n == 0 || FILE_BLOCKS < n
}

// Whether one of the last two words of a block is wrong, in any block.
pub fn any_wrong_sums(bytes: &[u8]) -> bool
    ensures { result ≡ sums_wrong bytes.now }
{
    for b in 0..bytes.len() / BLOCK_BYTES {
        if blocks::has_wrong_sums(blocks::block_at(bytes, b)) {
            return true;
        }
    }
    false
}

// The i-th word of the head.
pub fn head_word(bytes: &[u8], i: usize) -> usize
    requires { i * 4 + 4 ≤ length bytes.now }
    ensures { (result ≡ head_word i bytes.now) × (result < 4294967296) }
{
    blocks::word_at(bytes, i) as usize
}

// Whether the block after the head has pins with loads; a file of a head alone has no such block.
fn are_loaded_in(bytes: &[u8]) -> bool
    ensures { result ≡ loaded_in bytes.now }
{
    bytes.len() >= BLOCK_BYTES + 4 && blocks::word_at(bytes, BLOCK_WORDS) == Kind::Loaded.word()
}

// The numbers that are stored for the pins that the head counts.
fn pin_length(bytes: &[u8]) -> usize
    requires { block_bytes ≤ length bytes.now }
    ensures { result ≡ pin_length bytes.now }
{
    let m = head_word(bytes, PIN_COUNT_WORD);
    if are_loaded_in(bytes) {
        m * Kind::Loaded.width()
    } else {
        m * Kind::Pins.width()
    }
}

// The numbers of the macros that it counts.
pub fn macro_length(bytes: &[u8]) -> usize
    requires { block_bytes ≤ length bytes.now }
    ensures { result ≡ macro_length bytes.now }
{
    head_word(bytes, MACRO_COUNT_WORD) * Net::MACRO_NUMBERS
}

// The head's counts do not fit the blocks.
fn counts_wrong(bytes: &[u8]) -> bool
    requires { block_bytes ≤ length bytes.now }
    ensures { result ≡ counts_wrong bytes.now }
{
    let pin_blocks = blocks::blocks_for(pin_length(bytes));
    let macro_blocks = blocks::blocks_for(macro_length(bytes));
    bytes.len() / BLOCK_BYTES != 1 + pin_blocks + macro_blocks
}

// A word that stands for a weight is above the greatest. A written 1 is found with the layout: the file made anew has a 0 there.
fn weights_miswritten(bytes: &[u8]) -> bool
    requires { block_bytes ≤ length bytes.now }
    ensures { result ≡ weights_miswritten bytes.now }
{
    let first = head_word(bytes, FIRST_WEIGHT_WORD);
    let second = head_word(bytes, SECOND_WEIGHT_WORD);
    WEIGHT < first || WEIGHT < second
}

// The head's counts or its weights are wrong.
pub fn head_wrong(bytes: &[u8]) -> bool
    requires { block_bytes ≤ length bytes.now }
    ensures { result ≡ head_wrong bytes.now }
{
    counts_wrong(bytes) || weights_miswritten(bytes)
}

// The weights that the head has.
pub fn weights_in(bytes: &[u8]) -> Weights
    requires { (block_bytes ≤ length bytes.now) × (weights_miswritten bytes.now ≡ false) }
    ensures { result ≡ weights_in bytes.now }
{
    Weights {
        across: blocks::weight_of(head_word(bytes, FIRST_WEIGHT_WORD)),
        along: blocks::weight_of(head_word(bytes, SECOND_WEIGHT_WORD)),
    }
}

// The number j of the list whose blocks begin at the block b.
fn number_in(bytes: &[u8], b: usize, j: usize) -> i32
    requires { (b + j / per_block) * block_bytes + block_bytes ≤ length bytes.now }
    ensures { result ≡ number_in bytes.now b j }
{
    let place = j / PER_BLOCK * BLOCK_WORDS + (FIRST_ENTRY + j % PER_BLOCK);
    blocks::coordinate_of(blocks::word_at(bytes, b * BLOCK_WORDS + place))
}

// The n numbers of the list whose blocks begin at the block b.
fn take_numbers(bytes: &[u8], b: usize, n: usize, numbers: &mut [i32])
    requires { ((b + blocks_for n) * block_bytes ≤ length bytes.now) × (n ≤ length numbers.old) }
    ensures { numbers.new ≡ over (numbers_in bytes.now b 0 n) numbers.old }
{
    for j in 0..n {
        numbers[j] = number_in(bytes, b, j);
    }
}

// Pins without a load at places that stand in a list of their own.
fn put_bare(places: &[i32], pins: &mut [i32])
    requires { length (flat_pins (places_of places.now)) ≤ length pins.old }
    ensures { pins.new ≡ over (flat_pins (places_of places.now)) pins.old }
{
    for i in 0..places.len() / PLACE_NUMBERS {
        net::put_bare_pin(pins, i, plane::place_at(places, i));
    }
}

// The pins of a file whose head's counts fit its blocks.
fn take_pins(bytes: &[u8], pins: &mut [i32])
    requires { ((1 + blocks_for (pin_length bytes.now)) * block_bytes ≤ length bytes.now)
        × ((pin_length bytes.now ≤ file_numbers) × (length (pins_in bytes.now) ≤ length pins.old)) }
    ensures { pins.new ≡ over (pins_in bytes.now) pins.old }
{
    let n = pin_length(bytes);
    if are_loaded_in(bytes) {
        take_numbers(bytes, 1, n, pins);
    } else {
        let mut places = [0i32; FILE_NUMBERS];
        take_numbers(bytes, 1, n, &mut places);
        put_bare(&places[..n], pins);
    }
}

// The lists of a file whose head's counts fit its blocks, into tables that they fit.
pub fn take_lists(bytes: &[u8], pins: &mut [i32], macros: &mut [i32])
    requires { (Sized bytes.now (pin_length bytes.now) (macro_length bytes.now))
        × ((length (pins_in bytes.now) ≤ length pins.old) × (macro_length bytes.now ≤ length macros.old)) }
    ensures pins { pins.new ≡ over (pins_in bytes.now) pins.old }
    ensures macros { macros.new ≡ over (macros_in bytes.now) macros.old }
{
    let n = pin_length(bytes);
    let k = macro_length(bytes);
    take_pins(bytes, pins);
    take_numbers(bytes, 1 + blocks::blocks_for(n), k, macros);
}
