// Places moved.
ghost use Rattle.std.specs.Prelude.{◌≡◌, ◌^◌, ◌<◌, pos, ◌+ℤ◌, ◌-ℤ◌};
ghost use Rattle.std.specs.Int.{w32};
ghost use Rattle.std.proofs.Common.{SFits};
ghost use Rattle.slide.specs.Side.{moved};
ghost use Rattle.shifted.specs.Shift.{MoveFits};

use plane::Place;
use slide::Side;

fn raised(z: i32, d: u64) -> i32
    requires { (d < 2 ^ 31) × (SFits w32 (z +ℤ pos d)) }
    ensures { result ≡ z +ℤ pos d }
{
    z + d as i32
}

fn lowered(z: i32, d: u64) -> i32
    requires { (d < 2 ^ 31) × (SFits w32 (z -ℤ pos d)) }
    ensures { result ≡ z -ℤ pos d }
{
    z - d as i32
}

// p moved by d to side s.
pub fn moved(s: Side, d: u64, p: Place) -> Place
    requires { MoveFits s d p }
    ensures { result ≡ moved s d p }
{
    match s {
        Side::Above => Place {
            y: raised(p.y, d),
            ..p
        },
        Side::Below => Place {
            y: lowered(p.y, d),
            ..p
        },
        Side::Right => Place {
            x: raised(p.x, d),
            ..p
        },
        Side::Left => Place {
            x: lowered(p.x, d),
            ..p
        },
    }
}
