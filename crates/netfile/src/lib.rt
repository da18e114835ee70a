// The net file, both ways.
//
// The reader takes the lists out of a file into tables of its own, writes the file of these lists and of the head's weights beside it, and
// compares: crate encoded has the file of a net, crate decoded what a file holds.
#![tactic(auto)]

ghost use Rattle.std.specs.Prelude.{false, ◌≡◌, ◌≤◌, length};
ghost use Rattle.lent.specs.Over.{after};
ghost use Rattle.net.specs.Net.{weights_of};
ghost use Rattle.checks.specs.Check.{told};
ghost use Rattle.blocks.specs.Sizes.{block_count, file_blocks};
ghost use Rattle.encoded.specs.Layout.{stored, file_bytes};
ghost use Rattle.decoded.specs.Held.{pin_length, macro_length, pins_in, macros_in, Sized, weights_miswritten};
ghost use Rattle.netfile.specs.Write.{fitted, written, told_bytes};
ghost use Rattle.netfile.specs.Read.{laid_out, answer_in, room_short, read_file};

use blocks::{FILE_NUMBERS, FILE_PINS, PIN_COUNT_WORD};
use net::{Net, Refusal, Weighing};
use plane::Weights;

// The numbers of the longest lists: what a read asks to be lent.
pub const PIN_LIST: usize = Net::PINS * Net::PIN_NUMBERS;

pub const MACRO_LIST: usize = Net::MACROS * Net::MACRO_NUMBERS;

// Write the file of a checked net.
fn write_checked(
    w: Weights,
    pins: &[i32],
    macros: &[i32],
    bytes: &mut [u8],
) -> Result<usize, Refusal>
    requires { block_count (length (stored pins.now).numbers) (length macros.now) ≤ file_blocks }
    ensures answer { told_bytes result ≡ fitted (length (file_bytes w pins.now macros.now))
        (length bytes.old) }
    ensures lent { bytes.new
        ≡ after (fitted (length (file_bytes w pins.now macros.now)) (length bytes.old))
        (file_bytes w pins.now macros.now) bytes.old }
{
    let n = encoded::file_length(pins, macros);
    if bytes.len() < n {
        return Err(Refusal::Space);
    }
    encoded::put_file(bytes, w, pins, macros);
    Ok(n)
}

// Write a net file: 11 to 18, then 21 where the lent bytes are fewer than the file's.
#[tactic(auto, unfolding(net::specs::Answer::told_by, net::specs::Answer::number, lent::specs::Told::only_if, lent::specs::Over::after, crate::specs::Write::written_within))]
pub fn write(w: Weighing, pins: &[i32], macros: &[i32], bytes: &mut [u8]) -> Result<usize, Refusal>
    ensures answer { told_bytes result ≡ written w pins.now macros.now (length bytes.old) }
    ensures lent { bytes.new
        ≡ after (written w pins.now macros.now (length bytes.old))
        (file_bytes (weights_of w) pins.now macros.now) bytes.old }
{
    let net = checks::check(w, pins, macros)?;
    write_checked(net.weights, pins, macros, bytes)
}

// The layout of a file against the weights and lists that it holds, and then the check of these.
#[tactic(auto, unfolding(net::specs::Answer::told_by, net::specs::Answer::number, crate::specs::Read::laid_out_within))]
fn check_lists(bytes: &[u8], w: Weights, pins: &[i32], macros: &[i32]) -> Result<Net, Refusal>
    requires { block_count (length (stored pins.now).numbers) (length macros.now) ≤ file_blocks }
    ensures { told result ≡ laid_out bytes.now w pins.now macros.now }
{
    if encoded::is_file_of(bytes, w, pins, macros) {
        checks::check(Weighing::from(w), pins, macros)
    } else {
        Err(Refusal::Layout)
    }
}

// The check of a file whose head is right: of its layout, and then of its weights and lists. Nothing is lent for the lists yet, so they go
// into tables that no list of a file is too long for.
fn check_file(bytes: &[u8]) -> Result<Net, Refusal>
    requires { (Sized bytes.now (pin_length bytes.now) (macro_length bytes.now)) × (weights_miswritten bytes.now ≡ false) }
    ensures { told result ≡ answer_in bytes.now }
{
    let w = decoded::weights_in(bytes);
    let n = decoded::head_word(bytes, PIN_COUNT_WORD) * Net::PIN_NUMBERS;
    let k = decoded::macro_length(bytes);
    let mut pins = [0i32; FILE_PINS];
    let mut macros = [0i32; FILE_NUMBERS];
    decoded::take_lists(bytes, &mut pins, &mut macros);
    check_lists(bytes, w, &pins[0..n], &macros[0..k])
}

// Read a file whose head is right, into room for the largest net.
#[tactic(auto, unfolding(net::specs::Answer::told_by, net::specs::Answer::number, lent::specs::Over::after))]
fn read_counted(bytes: &[u8], pins: &mut [i32], macros: &mut [i32]) -> Result<Net, Refusal>
    requires { ((Sized bytes.now (pin_length bytes.now) (macro_length bytes.now)) × (weights_miswritten bytes.now ≡ false))
        × (room_short (length pins.old) (length macros.old) ≡ false) }
    ensures answer { told result ≡ answer_in bytes.now }
    ensures pins { pins.new
        ≡ after (answer_in bytes.now) (pins_in bytes.now) pins.old }
    ensures macros { macros.new
        ≡ after (answer_in bytes.now) (macros_in bytes.now) macros.old }
{
    let net = check_file(bytes)?;
    decoded::take_lists(bytes, pins, macros);
    Ok(net)
}

// Fewer numbers lent than the largest net has.
#[tactic(auto, unfolding(crate::specs::Read::room_short_within))]
fn room_short(pins: &[i32], macros: &[i32]) -> bool
    ensures { result ≡ room_short (length pins.now) (length macros.now) }
{
    (pins.len() < PIN_LIST) | (macros.len() < MACRO_LIST)
}

// Read a net file: 21 where less than the largest net is lent, 1 to 3 for the file, then 11 to 17 for its lists. No file is refused by 18:
// weights that would be are 3.
#[tactic(auto, unfolding(net::specs::Answer::told_by, net::specs::Answer::number, lent::specs::Over::after, crate::specs::Read::read_file_within))]
pub fn read(bytes: &[u8], pins: &mut [i32], macros: &mut [i32]) -> Result<Net, Refusal>
    ensures answer { told result ≡ read_file bytes.now (length pins.old) (length macros.old) }
    ensures pins { pins.new
        ≡ after (read_file bytes.now (length pins.old) (length macros.old))
        (pins_in bytes.now) pins.old }
    ensures macros { macros.new
        ≡ after (read_file bytes.now (length pins.old) (length macros.old))
        (macros_in bytes.now) macros.old }
{
    if room_short(pins, macros) {
        return Err(Refusal::Space);
    }
    if decoded::blocks_miscounted(bytes) {
        return Err(Refusal::Blocks);
    }
    if decoded::any_wrong_sums(bytes) {
        return Err(Refusal::Sums);
    }
    if decoded::head_wrong(bytes) {
        return Err(Refusal::Layout);
    }
    read_counted(bytes, pins, macros)
}
