// The blocks of a net file.
//
// A block is 512 bytes, 128 words of 32 bits: four words that say what it is, then up to 120 numbers, zeros, and two sums. A table of its
// 128 words is made and sealed in one place, and the reader sums it by the same function.
#![tactic(auto)]

ghost use Rattle.std.specs.Prelude.{◌≡◌, ◌+◌, ◌*◌, ◌<◌, ◌≤◌, length, take};
ghost use Rattle.std.proofs.lemmas.List.Edits.{sets};
ghost use Rattle.net.specs.Bounds.{weight_bound};
ghost use Rattle.blocks.specs.Sizes.{
  block_words,
  block_bytes,
  summed_words,
  per_block,
  blocks_for,
  file_blocks,
  file_numbers,
};
ghost use Rattle.blocks.specs.Words.{words_of, word_from, bytes_of_word, bytes_of, word_of, coordinate, weight_word, weight_in};
ghost use Rattle.blocks.specs.Sums.{plain_sum, sum_of_sums, sealed, wrong_sums};
ghost use Rattle.blocks.specs.Block.{head_block, list_block, block_of};
ghost use Rattle.blocks.specs.Kind.{kind_word, kind_width};

use net::Net;
use plane::Weights;

// The format's own numbers, as in specs/Sizes.antt: a block's words, those before its two sums, the word at which entries begin (and the
// counts and weights in the head), the numbers of a full block, and what the head is.
pub const BLOCK_WORDS: usize = 128;

pub const BLOCK_BYTES: usize = BLOCK_WORDS * 4;

const SUMMED_WORDS: usize = BLOCK_WORDS - 2;

const SECOND_SUM: usize = SUMMED_WORDS + 1;

pub const FIRST_ENTRY: usize = 4;

pub const PIN_COUNT_WORD: usize = FIRST_ENTRY;

pub const MACRO_COUNT_WORD: usize = FIRST_ENTRY + 1;

pub const FIRST_WEIGHT_WORD: usize = FIRST_ENTRY + 2;

pub const SECOND_WEIGHT_WORD: usize = FIRST_ENTRY + 3;

pub const PER_BLOCK: usize = 120;

const HEAD_KIND: u32 = 1;

// Numbers of a pin that is stored without its load.
pub const PLACE_NUMBERS: usize = 2;

// The entries of a full block, of pins with their loads and of macros: what the longest file has.
const LOADED_PER_BLOCK: usize = PER_BLOCK / Net::PIN_NUMBERS;

const MACROS_PER_BLOCK: usize = PER_BLOCK / Net::MACRO_NUMBERS;

// The blocks of the longest file: the head, and as many as the largest net takes.
// Kept: written out, as a constant's value cannot call `div_ceil`.
pub const FILE_BLOCKS: usize = 1
    + (Net::PINS + LOADED_PER_BLOCK - 1) / LOADED_PER_BLOCK
    + (Net::MACROS + MACROS_PER_BLOCK - 1) / MACROS_PER_BLOCK;

// The bytes of the longest file.
pub const LONGEST: usize = FILE_BLOCKS * BLOCK_BYTES;

// The numbers that its blocks after the head have room for.
pub const FILE_NUMBERS: usize = (FILE_BLOCKS - 1) * PER_BLOCK;

// The numbers of the pins that are read from them, were they all stored without loads.
pub const FILE_PINS: usize = FILE_NUMBERS / PLACE_NUMBERS * Net::PIN_NUMBERS;

// What the entries of a block are: pins without loads, macros, or pins with their loads. The head is of none of these kinds, as it has
// no entries.
#[derive(Clone, Copy)]
pub enum Kind {
    Pins = 2,
    Macros = 3,
    Loaded = 4,
}

impl Kind {
    // The word that a block of this kind begins with.
    pub fn word(self) -> u32
        ensures { result ≡ kind_word self }
    {
        self as u32
    }

    // The numbers of an entry.
    pub fn width(self) -> usize
        ensures { (result ≡ kind_width self) × (0 < result) }
    {
        match self {
            Kind::Pins => PLACE_NUMBERS,
            Kind::Macros => Net::MACRO_NUMBERS,
            Kind::Loaded => Net::PIN_NUMBERS,
        }
    }
}

// The two sums of a block.
#[derive(Clone, Copy)]
struct Sums {
    plain: u32,
    running: u32,
}

// The i-th word, low byte first.
pub fn word_at(bytes: &[u8], i: usize) -> u32
    requires { i * 4 + 4 ≤ length bytes.now }
    ensures { result ≡ word_from bytes.now (i * 4) }
{
    let k = i * 4;
    u32::from_le_bytes([bytes[k], bytes[k + 1], bytes[k + 2], bytes[k + 3]])
}

// A word stored as the i-th, low byte first.
fn put_word(bytes: &mut [u8], i: usize, w: u32)
    requires { i * 4 + 4 ≤ length bytes.old }
    ensures { bytes.new ≡ sets bytes.old (i * 4) (bytes_of_word w) }
{
    let k = i * 4;
    bytes[k..k + 4].copy_from_slice(&w.to_le_bytes());
}

// The two's complement word of a coordinate.
#[tactic(auto, using(crate::proofs::WordLaws::word_bits))]
fn word_of(z: i32) -> u32
    ensures { result ≡ word_of z }
{
    z.cast_unsigned()
}

// The coordinate that a word holds.
pub fn coordinate_of(w: u32) -> i32
    ensures { result ≡ coordinate w }
{
    w.cast_signed()
}

// The word of a weight: 0 for 1, so that a net with both weights 1 has the file that it had before there were weights.
#[tactic(auto, unfolding(crate::specs::Words::weight_word))]
fn weight_word(weight: u8) -> u32
    ensures { result ≡ weight_word weight }
{
    if weight == 1 { 0 } else { u32::from(weight) }
}

// The weight that a word of the head stands for.
#[tactic(auto, unfolding(crate::specs::Words::weight_in))]
pub fn weight_of(word: usize) -> u8
    requires { word ≤ weight_bound }
    ensures { result ≡ weight_in word }
{
    if word == 0 { 1 } else { word as u8 }
}

// The sums of the words before them: a wrapping sum, and a wrapping sum of the running sums.
fn sums_of(block: &[u32; BLOCK_WORDS]) -> Sums
    requires { length block.now ≡ block_words }
    ensures { (result.plain ≡ plain_sum (take summed_words block.now))
        × (result.running ≡ sum_of_sums (take summed_words block.now)) }
{
    let mut plain: u32 = 0;
    let mut running: u32 = 0;
    for w in &block[..SUMMED_WORDS] {
        plain = plain.wrapping_add(*w);
        running = running.wrapping_add(plain);
    }
    Sums { plain, running }
}

// The words of a block, with their sums as its last two.
fn seal(mut block: [u32; BLOCK_WORDS]) -> [u32; BLOCK_WORDS]
    requires { length block ≡ block_words }
    ensures { result ≡ sealed (take summed_words block) }
{
    let s = sums_of(&block);
    block[SUMMED_WORDS] = s.plain;
    block[SECOND_SUM] = s.running;
    block
}

// The head of a file of m pins, k macros and two weights.
pub fn head_block(m: usize, k: usize, w: Weights) -> [u32; BLOCK_WORDS]
    requires { (m ≤ file_numbers) × (k ≤ file_numbers) }
    ensures { result ≡ head_block m k w }
{
    let mut t = [0u32; BLOCK_WORDS];
    t[0] = HEAD_KIND;
    t[PIN_COUNT_WORD] = m as u32;
    t[MACRO_COUNT_WORD] = k as u32;
    t[FIRST_WEIGHT_WORD] = weight_word(w.across);
    t[SECOND_WEIGHT_WORD] = weight_word(w.along);
    seal(t)
}

// The block of some numbers, `w` an entry.
// Kept: a number and a width, where a `Kind` would take less than callers may hand over.
pub fn list_block(kind: u32, w: usize, number: usize, numbers: &[i32]) -> [u32; BLOCK_WORDS]
    requires { ((0 < w) × (number ≤ file_blocks)) × (length numbers.now ≤ per_block) }
    ensures { result ≡ list_block kind w number numbers.now }
{
    let mut t = [0u32; BLOCK_WORDS];
    t[0] = kind;
    t[1] = number as u32;
    t[2] = (numbers.len() / w) as u32;
    for (i, z) in numbers.iter().enumerate() {
        t[FIRST_ENTRY + i] = word_of(*z);
    }
    seal(t)
}

// A block's words stored as the block of that number.
pub fn put_block(bytes: &mut [u8], number: usize, block: [u32; BLOCK_WORDS])
    requires { (length block ≡ block_words) × (number * block_bytes + block_bytes ≤ length bytes.old) }
    ensures { bytes.new ≡ sets bytes.old (number * block_bytes) (bytes_of block) }
{
    for (i, w) in block.iter().enumerate() {
        put_word(bytes, number * BLOCK_WORDS + i, *w);
    }
}

// How many blocks n numbers take; n may be any number, as a head may count.
#[tactic(auto, unfolding(crate::specs::Sizes::blocks_for))]
pub fn blocks_for(n: usize) -> usize
    ensures { result ≡ blocks_for n }
{
    n.div_ceil(PER_BLOCK)
}

// The words of the block numbered b.
pub fn block_at(bytes: &[u8], b: usize) -> [u32; BLOCK_WORDS]
    requires { b * block_bytes + block_bytes ≤ length bytes.now }
    ensures { result ≡ block_of b (words_of bytes.now) }
{
    let mut t = [0u32; BLOCK_WORDS];
    for (i, w) in t.iter_mut().enumerate() {
        *w = word_at(bytes, b * BLOCK_WORDS + i);
    }
    t
}

// One of a block's last two words is wrong.
pub fn has_wrong_sums(block: [u32; BLOCK_WORDS]) -> bool
    requires { length block ≡ block_words }
    ensures { result ≡ wrong_sums block }
{
    let s = sums_of(&block);
    block[SUMMED_WORDS] != s.plain || block[SECOND_SUM] != s.running
}
