// A net as a file, byte for byte: two weights, the pins as they are stored, and the macros, block after block.
//
// Pins are three numbers each for callers; a file has their places alone where none has a load, and then its blocks are of another kind,
// with two numbers an entry. Whether some bytes are the file of a net is found by writing that file, and comparing.
#![tactic(auto)]

ghost use Rattle.std.specs.Prelude.{◌≡◌, ◌+◌, ◌*◌, ◌≤◌, ◌<◌, length, take, drop};
ghost use Rattle.std.proofs.lemmas.List.Edits.{sets};
ghost use Rattle.lent.specs.Over.{over};
ghost use Rattle.lent.specs.Entries.{flat};
ghost use Rattle.plane.specs.Flat.{place_numbers};
ghost use Rattle.net.specs.Pins.{pin_places};
ghost use Rattle.blocks.specs.Sizes.{block_bytes, per_block, blocks_for, block_count, file_blocks};
ghost use Rattle.blocks.specs.Words.{bytes_of};
ghost use Rattle.blocks.specs.Block.{list_block};
ghost use Rattle.blocks.specs.Kind.{kind_word, kind_width};
ghost use Rattle.encoded.specs.Layout.{all_blocks, is_load, loaded, stored, laid_bytes, file_bytes};
ghost use Rattle.encoded.specs.Same.{same_numbers};

use blocks::{BLOCK_BYTES, BLOCK_WORDS, FILE_NUMBERS, Kind, LONGEST, PER_BLOCK, PLACE_NUMBERS};
use plane::Weights;

// The block of the numbers from the one numbered `from` on, as many as fit.
fn next_block(kind: Kind, number: usize, numbers: &[i32], from: usize) -> [u32; BLOCK_WORDS]
    requires { (number ≤ file_blocks) × (from ≤ length numbers.now) }
    ensures { result ≡ list_block (kind_word kind) (kind_width kind) number (take per_block (drop from numbers.now)) }
{
    let count = PER_BLOCK.min(numbers.len() - from);
    blocks::list_block(
        kind.word(),
        kind.width(),
        number,
        &numbers[from..from + count],
    )
}

// The blocks of a list, from the one numbered `first` on.
fn put_list(bytes: &mut [u8], kind: Kind, first: usize, numbers: &[i32])
    requires { (first + blocks_for (length numbers.now) ≤ file_blocks)
        × ((first + blocks_for (length numbers.now)) * block_bytes ≤ length bytes.old) }
    ensures { bytes.new
        ≡ sets bytes.old (first * block_bytes)
        (bytes_of (all_blocks (kind_word kind) (kind_width kind) first numbers.now)) }
{
    for j in 0..blocks::blocks_for(numbers.len()) {
        let number = first + j;
        blocks::put_block(
            bytes,
            number,
            next_block(kind, number, numbers, j * PER_BLOCK),
        );
    }
}

// The file of two weights, of pins as they are stored and of a list of macros, from the first lent byte on.
fn put_lists(bytes: &mut [u8], weights: Weights, kind: Kind, numbers: &[i32], macros: &[i32])
    requires { (block_count (length numbers.now) (length macros.now) ≤ file_blocks)
        × (block_count (length numbers.now) (length macros.now) * block_bytes ≤ length bytes.old) }
    ensures { bytes.new ≡ over (laid_bytes weights
        (record { kind = kind_word kind; width = kind_width kind; numbers = numbers.now }) macros.now) bytes.old }
{
    let first = 1 + blocks::blocks_for(numbers.len());
    let count = numbers.len() / kind.width();
    blocks::put_block(
        bytes,
        0,
        blocks::head_block(count, net::macro_count(macros), weights),
    );
    put_list(bytes, kind, 1, numbers);
    put_list(bytes, Kind::Macros, first, macros);
}

// Whether a number is a load: any number but 0.
fn is_load(z: i32) -> bool
    ensures { result ≡ is_load z }
{
    z != 0
}

// Whether some pin has a load.
fn are_loaded(pins: &[i32]) -> bool
    ensures { result ≡ loaded pins.now }
{
    for i in 0..net::pin_count(pins) {
        if is_load(net::load_at(pins, i)) {
            return true;
        }
    }
    false
}

// The numbers that are stored for the pins.
fn stored_length(pins: &[i32]) -> usize
    ensures { result ≡ length (stored pins.now).numbers }
{
    if are_loaded(pins) {
        pins.len()
    } else {
        net::pin_count(pins) * PLACE_NUMBERS
    }
}

// The pins' places alone.
fn put_places(pins: &[i32], places: &mut [i32])
    requires { length (flat place_numbers (pin_places pins.now)) ≤ length places.old }
    ensures { places.new ≡ over (flat place_numbers (pin_places pins.now)) places.old }
{
    for i in 0..net::pin_count(pins) {
        plane::put_place(places, i, net::pin_at(pins, i));
    }
}

// The file of two weights and two lists, from the first lent byte on.
pub fn put_file(bytes: &mut [u8], w: Weights, pins: &[i32], macros: &[i32])
    requires { (block_count (length (stored pins.now).numbers) (length macros.now) ≤ file_blocks)
        × (block_count (length (stored pins.now).numbers) (length macros.now) * block_bytes ≤ length bytes.old) }
    ensures { bytes.new ≡ over (file_bytes w pins.now macros.now) bytes.old }
{
    if are_loaded(pins) {
        put_lists(bytes, w, Kind::Loaded, pins, macros);
        return;
    }
    let n = net::pin_count(pins) * PLACE_NUMBERS;
    let mut places = [0i32; FILE_NUMBERS];
    put_places(pins, &mut places);
    put_lists(bytes, w, Kind::Pins, &places[..n], macros);
}

// The bytes of the file of two lists, which its weights do not change.
pub fn file_length(pins: &[i32], macros: &[i32]) -> usize
    requires { block_count (length (stored pins.now).numbers) (length macros.now) ≤ file_blocks }
    ensures { result ≡ block_count (length (stored pins.now).numbers) (length macros.now) * block_bytes }
{
    (1 + blocks::blocks_for(stored_length(pins)) + blocks::blocks_for(macros.len())) * BLOCK_BYTES
}

// Whether the bytes are the file of two weights and two lists: that file is written, and compared.
pub fn is_file_of(bytes: &[u8], w: Weights, pins: &[i32], macros: &[i32]) -> bool
    requires { block_count (length (stored pins.now).numbers) (length macros.now) ≤ file_blocks }
    ensures { result ≡ same_numbers bytes.now (file_bytes w pins.now macros.now) }
{
    let mut file = [0u8; LONGEST];
    put_file(&mut file, w, pins, macros);
    let n = file_length(pins, macros);
    bytes == &file[..n]
}
