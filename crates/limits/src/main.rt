// E12 to E14, E20 and E33: checks nets at the bounds and one past them, and writes each answer on a line of its own.
#![tactic(auto)]

ghost use Rattle.std.specs.Prelude.{◌≡◌, ◌+◌, ◌*◌, ◌≤◌, length};
ghost use Rattle.net.specs.Bounds.{macro_bound, macro_width};

use net::{Net, Refusal, Weighing};
use std::io;
use std::io::Print;

// The answer on a line: `allowed`, or `refused` and the number.
fn say<P: Print>(rt: &P, what: &str, answer: Result<Net, Refusal>) -> io::Result<()> {
    match answer {
        Ok(_) => println!(rt; "{what}: allowed"),
        Err(refusal) => println!(rt; "{what}: refused {}", refusal.number()),
    }
}

// Weights 1 and 1.
fn plain() -> Weighing {
    Weighing {
        first: 1,
        second: 1,
    }
}

// Numbers of one macro more than a net may have: enough for one pin more too.
const NUMBERS: usize = (Net::MACROS + 1) * Net::MACRO_NUMBERS;

// 0, 1, 2 and so on: read as pins, places on a diagonal, each with a load; read as macros, squares along it that do not touch.
fn counted_up() -> [i32; NUMBERS]
    ensures { (macro_bound + 1) * macro_width ≡ length result }
{
    let mut numbers = [0i32; NUMBERS];
    for (i, number) in numbers.iter_mut().enumerate() {
        *number = i as i32;
    }
    numbers
}

fn coordinates<P: Print>(rt: &P) -> io::Result<()> {
    let pins = [1000000, -1000000, 0];
    let macros = [-1000000, -1000000, 1000000, 1000000];
    say(
        rt,
        "coordinates 1000000 and -1000000",
        router::check(plain(), &pins, &macros),
    )?;
    say(
        rt,
        "coordinate 1000001",
        router::check(plain(), &[0, 1000001, 0], &[0i32; 0]),
    )?;
    say(
        rt,
        "coordinate -1000001",
        router::check(plain(), &[0, 0, 0], &[-1000001, 0, 1, 1]),
    )
}

// One pin with this load.
fn load(z: i32) -> Result<Net, Refusal> {
    router::check(plain(), &[0, 0, z], &[0i32; 0])
}

// The first n numbers as pins.
fn pins(numbers: &[i32], n: usize) -> Result<Net, Refusal>
    requires { n ≤ length numbers.now }
{
    router::check(plain(), &numbers[..n], &[0i32; 0])
}

// The first n numbers as macros.
fn macros(numbers: &[i32], n: usize) -> Result<Net, Refusal>
    requires { n ≤ length numbers.now }
{
    router::check(plain(), &[0, 0, 0], &numbers[..n])
}

// One pin with these weights.
fn weights(first: i32, second: i32) -> Result<Net, Refusal> {
    router::check(Weighing { first, second }, &[0, 0, 0], &[0i32; 0])
}

fn main(rt: HostRuntime) -> io::Result<()> {
    coordinates(&rt)?;
    say(&rt, "load 1000000", load(Net::LOAD))?;
    say(&rt, "load 1000001", load(Net::LOAD + 1))?;
    say(&rt, "load -1", load(-1))?;
    let numbers = counted_up();
    say(
        &rt,
        "128 pins",
        pins(&numbers, Net::PINS * Net::PIN_NUMBERS),
    )?;
    say(
        &rt,
        "129 pins",
        pins(&numbers, (Net::PINS + 1) * Net::PIN_NUMBERS),
    )?;
    say(
        &rt,
        "128 macros",
        macros(&numbers, Net::MACROS * Net::MACRO_NUMBERS),
    )?;
    say(
        &rt,
        "129 macros",
        macros(&numbers, (Net::MACROS + 1) * Net::MACRO_NUMBERS),
    )?;
    say(&rt, "weights 1 and 8", weights(1, 8))?;
    say(&rt, "weight 0", weights(0, 1))?;
    say(&rt, "weight 9", weights(1, Net::WEIGHT + 1))
}
